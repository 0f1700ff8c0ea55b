//! What these laws refuse.
ghost use Rattle.sh_core.specs.MoreWrongRows.{keeps_hold};
ghost use Rattle.sh_core.specs.Refines.{Always};
ghost use Rattle.sh_core.specs.Variants.{AlwaysBy};
ghost use Rattle.sh_core.specs.WrongRows.{crowds_at_once, drops_and_forgets};
ghost use Rattle.sh_laws.specs.Garbage.{FewAreCutOff, GarbageIsFew};
ghost use Rattle.sh_laws.specs.Refuted.{CrowdedIsFull, ObjectIsAtomicBy, OnlyHoldsMatter, OrderByPassStays};
ghost use Rattle.sh_laws.specs.Refuted.{RemovalsEndHolds, SixteenSuffice, SixtyThreeSuffice};
ghost use Rattle.sh_laws.specs.Refuted.{never_ties, never_ties_rings};

/// A core with one of these wrong actions breaks a bound, or one of its events is no operation of the whole object.
pub fn refutes_wrong_cores()
    ensures drops_and_forgets { ¬ AlwaysBy drops_and_forgets GarbageIsFew }
    ensures never_ties { ¬ AlwaysBy never_ties FewAreCutOff }
    ensures never_ties_rings { ¬ AlwaysBy never_ties_rings FewAreCutOff }
    ensures keeps_hold { ¬ AlwaysBy keeps_hold (ObjectIsAtomicBy keeps_hold) }
    ensures crowds_at_once { ¬ AlwaysBy crowds_at_once (ObjectIsAtomicBy crowds_at_once) }
{}

/// Statements that say more than the laws are wrong, since some run breaks each. The bounds 17 and 64 are reached.
/// Marked slots wait not only for holds. An order of replies by passes changes as a run goes on. A removed key may be
/// held. A get may be crowded by passes that are on their way, and not by holds.
pub fn refutes_wider_laws()
    ensures seventeen { ¬ Always SixteenSuffice }
    ensures sixty_four { ¬ Always SixtyThreeSuffice }
    ensures marked { ¬ Always OnlyHoldsMatter }
    ensures order { ¬ OrderByPassStays }
    ensures holds { ¬ Always RemovalsEndHolds }
    ensures crowded { ¬ Always CrowdedIsFull }
{}
