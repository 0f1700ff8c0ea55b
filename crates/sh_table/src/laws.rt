//! What the shape of a heap says of its keys, and what heeding a receipt gives.
ghost use Rattle.sh_table.specs.Orders.{HeardComesFirst, GoneIsRemoved, GotIsInserted, RemovedIsGone};
ghost use Rattle.sh_table.specs.Orders.{NothingComesLater, SeenIsInserted};
ghost use Rattle.sh_table.specs.Reached.{PlansAreLawful};
ghost use Rattle.sh_table.specs.Tales.{EndedKeysAreTrue};

/// In a heap whose shape fits its layout each key names one place and generation, and counts have room.
pub fn plans_are_lawful()
    ensures { PlansAreLawful }
{}

/// In each history of a tale, all that a receipt covers happens before each result that the pass got after it heeded
/// the receipt. So if a key's insert was heard of, a get or remove of the key returns Gone only after a removal of the
/// key. A value that is got or seen of it is the inserted one. After a removal was heard of, no get of the key returns
/// a hold or Crowded, and no remove succeeds. A pass that was taken in was heard of whole, so no entry of that pass
/// comes later.
pub fn heard_comes_first()
    ensures first { HeardComesFirst }
    ensures gone { GoneIsRemoved }
    ensures got { GotIsInserted }
    ensures seen { SeenIsInserted }
    ensures removed { RemovedIsGone }
    ensures taken { NothingComesLater }
{}

/// A key that the steps of a pass ended was inserted and removed, in a history of the pass's tale. What the pass read of
/// it in full is the value that was inserted.
pub fn ended_keys_are_true()
    ensures { EndedKeysAreTrue }
{}
