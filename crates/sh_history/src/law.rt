//! Laws of histories.
ghost use Rattle.sh_history.specs.Laws.{ValueIsInserted, GetsGiveInserted, RemovedHasRemoval, RemovedOnce};
ghost use Rattle.sh_history.specs.Laws.{ReleasesAreGot, LooksGiveInserted};

/// In a legal history a key has one value: it was inserted with this value, and each get of it and each
/// look at it returned this value.
pub fn one_value_a_key()
    ensures issued { ValueIsInserted }
    ensures got { GetsGiveInserted }
    ensures seen { LooksGiveInserted }
{}

/// A key was removed exactly if a removal of it is in the history.
pub fn removals_are_recorded()
    ensures { RemovedHasRemoval }
{}

/// A legal history has at most one removal of a key. So of callers that race to remove it, at most one gets the reply
/// `Removed`.
pub fn removed_once()
    ensures { RemovedOnce }
{}

/// In a legal history a pass released a key at most as often as it got it.
pub fn releases_are_got()
    ensures { ReleasesAreGot }
{}
