//! What the theorem refuses.
ghost use Rattle.std.specs.Prelude.{◌≡◌, length};
ghost use Rattle.sh_history.specs.History.{Legal};
ghost use Rattle.sh_core.specs.Variants.{Table, AlwaysBy};
ghost use Rattle.sh_core.specs.Refines.{OneKind, HeldKeysAreValid, NotesAreTrue, Counted, GenerationsEnd, Finished};
ghost use Rattle.sh_core.specs.Refines.{Armed, Linked, OwnPartsAreValid, ClassesAreKnown, HoldsAreFew};
ghost use Rattle.sh_core.specs.Refines.{FlaggedAreEmpty, KeysInHandName, GoesOn};
ghost use Rattle.sh_core.specs.WrongRows.{crowds_at_once, both_remove, marks_and_stays, drops_and_forgets};
ghost use Rattle.sh_core.specs.WrongRows.{knows_after_hold, keeps_generation, ignores_count, wraps_generation};
ghost use Rattle.sh_core.specs.WrongRows.{never_retires, ties_first, ends_at_unwritten, leaves_link, follows_twice};
ghost use Rattle.sh_core.specs.WrongRows.{never_rings, leaves_slots, leaves_bell, forgets_last_slot, gives_any_class};
ghost use Rattle.sh_core.specs.WrongRows.{ignores_room, never_answers_gone, remembers_generation, tries_again};
ghost use Rattle.sh_core.specs.WrongRows.{keeps_flag, cannot_ring};
ghost use Rattle.sh_core.specs.Follows.{Filled, ReadsWithin, LeftEmpty, EachLinked};
ghost use Rattle.sh_core.specs.InHeap.{StepsWithin, CountsFit, BellsAreSmall, ValuesFit, StoresWords, IssuesKeys};
ghost use Rattle.sh_core.specs.Refines.{HoldsMatchLog, CountIsFew, PastIsRemoved, KeysMatchLog};
ghost use Rattle.sh_core.specs.Refines.{RetiredIsLast, OneOwner, ShardlessHaveNothing, FillsAreKeys, EntriesAreOurs};
ghost use Rattle.sh_core.specs.MoreWrongRows.{retires_early, skips_generation, adopts_taken, leaves_cursors};
ghost use Rattle.sh_core.specs.MoreWrongRows.{publishes_next, keeps_hold, fills_any_slot, reads_wrong_class};
ghost use Rattle.sh_core.specs.MoreWrongRows.{reads_wrong_length, enters_uncounted, fits_any_length, rings_far};
ghost use Rattle.sh_core.specs.MoreWrongRows.{leaves_elsewhere, ties_ring_as_end, ends_whole_word};
ghost use Rattle.sh_core.specs.LookRows.{trusts_the_first_load, sees_at_once, looks_at_a_head, is_gone_early};
ghost use Rattle.sh_core.specs.Looks.{LooksAreTrue};
ghost use Rattle.sh_core.specs.KeyEnds.{EndsAreTrue};
ghost use Rattle.sh_core.specs.EndRows.{ends_under_holds, ends_another_key, reads_next_value, leaves_marked_word};
ghost use Rattle.sh_core.specs.EndRows.{EndsOnceBy};
ghost use Rattle.sh_step.specs.Deciding.{DecidingReplies};

/// The theorem does not hold of every table of actions. Each of these tables differs from the right one in an action or
/// two. Some list of events breaks a clause of the theorem, or a step breaks the law of deciding steps.
pub fn refutes_wrong_tables()
    // What is returned for a key, and what is known of it.
    ensures crowds_at_once { ¬ AlwaysBy crowds_at_once (λ plan w l. Legal plan.passes plan.keys.guard_max w.log) }
    ensures both_remove { ¬ AlwaysBy both_remove (λ plan w l. Legal plan.passes plan.keys.guard_max w.log) }
    ensures marks_and_stays { ¬ AlwaysBy marks_and_stays (λ plan w l. Counted plan w) }
    ensures drops_and_forgets { ¬ AlwaysBy drops_and_forgets (λ plan w l. Finished plan w) }
    ensures knows_after_hold { ¬ AlwaysBy knows_after_hold (λ plan w l. NotesAreTrue plan w) }
    ensures ignores_room { ¬ AlwaysBy ignores_room (λ plan w l. HoldsAreFew plan w) }
    ensures never_answers_gone { ¬ DecidingReplies never_answers_gone }
    ensures remembers_generation { ¬ AlwaysBy remembers_generation (λ plan w l. KeysInHandName plan w) }

    // The end of a generation.
    ensures keeps_generation { ¬ AlwaysBy keeps_generation (λ plan w l. Legal plan.passes plan.keys.guard_max w.log) }
    ensures ignores_count { ¬ AlwaysBy ignores_count (λ plan w l. HeldKeysAreValid plan w) }
    ensures wraps_generation { ¬ AlwaysBy wraps_generation (λ plan w l. Legal plan.passes plan.keys.guard_max w.log) }
    ensures never_retires { ¬ AlwaysBy never_retires (λ plan w l. GenerationsEnd plan w) }
    ensures tries_again { ¬ AlwaysBy tries_again (λ plan w l. GoesOn tries_again plan w) }

    // Stacks and bells.
    ensures keeps_flag { ¬ AlwaysBy keeps_flag (λ plan w l. FlaggedAreEmpty w l) }
    ensures ties_first { ¬ AlwaysBy ties_first (λ plan w l. Linked plan w l) }
    ensures ends_at_unwritten { ¬ AlwaysBy ends_at_unwritten (λ plan w l. Linked plan w l) }
    ensures leaves_link { ¬ AlwaysBy leaves_link (λ plan w l. Linked plan w l) }
    ensures follows_twice { ¬ AlwaysBy follows_twice (λ plan w l. OneKind w l) }
    ensures never_rings { ¬ AlwaysBy never_rings (λ plan w l. Armed plan w l) }
    ensures cannot_ring { ¬ AlwaysBy cannot_ring (λ plan w l. GoesOn cannot_ring plan w) }

    // Owners.
    ensures leaves_slots { ¬ AlwaysBy leaves_slots (λ plan w l. LeftEmpty plan w) }
    ensures leaves_bell { ¬ AlwaysBy leaves_bell (λ plan w l. OwnPartsAreValid plan w) }
    ensures forgets_last_slot { ¬ AlwaysBy forgets_last_slot (λ plan w l. OneKind w l) }
    ensures gives_any_class { ¬ AlwaysBy gives_any_class (λ plan w l. ClassesAreKnown plan w) }
{}

/// More clauses of the theorem, and what follows from clauses, each broken by such a table.
pub fn refutes_more_wrong_tables()
    ensures retires_early { ¬ AlwaysBy retires_early (λ plan w l. RetiredIsLast plan w) }
    ensures skips_generation { ¬ AlwaysBy skips_generation (λ plan w l. PastIsRemoved plan w) }
    ensures adopts_taken { ¬ AlwaysBy adopts_taken (λ plan w l. OneOwner w) }
    ensures leaves_slots_shardless { ¬ AlwaysBy leaves_slots (λ plan w l. ShardlessHaveNothing w) }
    ensures publishes_next { ¬ AlwaysBy publishes_next (λ plan w l. KeysMatchLog plan w) }
    ensures keeps_hold { ¬ AlwaysBy keeps_hold (λ plan w l. HoldsMatchLog w) }
    ensures fills_any_slot { ¬ AlwaysBy fills_any_slot (λ plan w l. HeldKeysAreValid plan w) }
    ensures reads_wrong_class { ¬ AlwaysBy reads_wrong_class (λ plan w l. NotesAreTrue plan w) }
    ensures reads_wrong_length { ¬ AlwaysBy reads_wrong_length (λ plan w l. NotesAreTrue plan w) }
    ensures enters_uncounted { ¬ AlwaysBy enters_uncounted (λ plan w l. CountsFit plan w) }
    ensures fits_any_length { ¬ AlwaysBy fits_any_length (λ plan w l. ValuesFit plan w) }
    ensures rings_far { ¬ AlwaysBy rings_far (λ plan w l. BellsAreSmall plan w) }
    ensures leaves_elsewhere { ¬ AlwaysBy leaves_elsewhere (λ plan w l. StepsWithin plan w) }
    ensures ties_ring_as_end { ¬ AlwaysBy ties_ring_as_end (λ plan w l. Linked plan w l) }
    ensures ignores_room_count { ¬ AlwaysBy ignores_room (λ plan w l. CountIsFew plan w) }
    ensures never_retires_fills { ¬ AlwaysBy never_retires (λ plan w l. FillsAreKeys plan w) }
    ensures never_retires_issues { ¬ AlwaysBy never_retires (λ plan w l. IssuesKeys plan w) }
    ensures ends_whole_word { ¬ AlwaysBy ends_whole_word (λ plan w l. StoresWords plan w) }

    // What follows from clauses (`clauses_imply_more`).
    ensures leaves_bell_armed { ¬ AlwaysBy leaves_bell (λ plan w l. LeftEmpty plan w) }
    ensures leaves_cursors { ¬ AlwaysBy leaves_cursors (λ plan w l. LeftEmpty plan w) }
    ensures forgets_last_slot_filled { ¬ AlwaysBy forgets_last_slot (λ plan w l. Filled w l) }
    ensures ties_first_links { ¬ AlwaysBy ties_first (λ plan w l. EachLinked plan w l) }
    ensures reads_wrong_class_words { ¬ AlwaysBy reads_wrong_class (λ plan w l. ReadsWithin plan w) }

    // Looks.
    ensures trusts_the_first_load { ¬ AlwaysBy trusts_the_first_load
        (λ plan w l. Legal plan.passes plan.keys.guard_max w.log) }
    ensures sees_at_once { ¬ AlwaysBy sees_at_once (λ plan w l. Legal plan.passes plan.keys.guard_max w.log) }
    ensures looks_at_a_head { ¬ AlwaysBy looks_at_a_head (λ plan w l. LooksAreTrue plan w) }
    ensures is_gone_early { ¬ DecidingReplies is_gone_early }

    // Ends.
    ensures ends_under_holds { ¬ AlwaysBy ends_under_holds (λ plan w l. EndsAreTrue plan w) }
    ensures ends_another_key { ¬ AlwaysBy ends_another_key (λ plan w l. EndsAreTrue plan w) }
    ensures reads_next_value { ¬ AlwaysBy reads_next_value (λ plan w l. EndsAreTrue plan w) }
    ensures leaves_marked_word { ¬ AlwaysBy leaves_marked_word (λ plan w l. EndsOnceBy leaves_marked_word plan w) }
{}

/// The two clauses of the theorem that hold by every table of actions, so that no table breaks them.
pub fn every_table_keeps()
    ensures entries { (rows : Table) → AlwaysBy rows (λ plan w l. EntriesAreOurs plan w) }
    ensures passes { (rows : Table) → AlwaysBy rows (λ plan w l. length w.parts ≡ plan.passes) }
{}
