//! Laws of histories, key by key. Each is a function with an empty body: a proof calls it for its clause.
ghost use Rattle.history_local.specs.Laws.{LegalityIsLocal, GroupsAreLegal, InterleavingsAreLegal, OneHistoryOfAll};
ghost use Rattle.history_local.specs.Laws.{KeysMayBeRenamed};

/// A history is legal exactly if, for each key, the entries on that key are, in their order.
pub fn legality_is_local()
    ensures { LegalityIsLocal }
{}

/// Put the keys into groups in any way. A history is legal exactly if, for each group, the entries on its keys are.
pub fn groups_are_legal()
    ensures { GroupsAreLegal }
{}

/// If no key has entries in both of two histories, each of their interleavings is legal exactly if both are.
pub fn interleavings_are_legal()
    ensures { InterleavingsAreLegal }
{}

/// Legal histories, each on keys of a group of its own, have one legal history of all. In it, the entries of each
/// group are that group's history, in order.
pub fn one_history_of_all()
    ensures { OneHistoryOfAll }
{}

/// If keys are renamed one to one, the history is legal after it exactly if it was before.
pub fn keys_may_be_renamed()
    ensures { KeysMayBeRenamed }
{}
