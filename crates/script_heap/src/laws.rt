//! What follows from the fact that a run has just the steps that its passes did.
ghost use Rattle.script_heap.specs.OwnSteps.{LoneAdoptIsNotTaken, FirstInsertIsNotFull, TwoAdoptsAreNotDone};
ghost use Rattle.script_heap.specs.OwnSteps.{LeaveIsNotWaiting, NoLinesWriteNothing};
ghost use Rattle.script_heap.specs.Owners.{LinesKeepOwnersApart, LinesTellOwners, NoPassIsStuck};
ghost use Rattle.script_heap.specs.Rooms.{LinesFindRoom, LinesSeeRoom, RoomExcludes};
ghost use Rattle.script_heap.specs.Crowding.{LinesCrowdExactly};

/// If a script consists of one adopt, no other pass does a step. So the adopt finds no owner, and its answer is not
/// `Taken`.
pub fn lone_adopt_is_not_taken()
    ensures { LoneAdoptIsNotTaken }
{}

/// In a run of mode heap no two passes own one shard between two lines. An adopt is `Taken` only if the pass owns a
/// shard by the lines before, or another pass owns this one. It is `NoShard` only if there is no such shard and the
/// pass owns none, and ok only if no pass owns this one. `Memory` may come in place of ok. A leave is ok if the pass
/// owns a shard, and never `Waiting`. Which shard each pass owns follows from the answers to the lines before.
pub fn lines_keep_owners_apart()
    ensures apart { LinesKeepOwnersApart }
    ensures told { LinesTellOwners }
{}

/// No pass is refused when it leaves its shard at the end of a run, in one thread or in many. Each pass leaves after it
/// heard of all that the others did. So no other pass is in the middle of anything, and none does a step meanwhile.
pub fn no_pass_is_stuck()
    ensures { NoPassIsStuck }
{}

/// In a run of mode heap an insert is `Full` only if its pass owns a shard that has no room for the value's class. Each
/// slot of each page of the class is live, marked or retired, and no page is blank. No page of another class is wholly
/// the owner's. `Memory` comes only if all this is true, except that pages may be blank.
pub fn lines_find_room()
    ensures { LinesFindRoom }
{}

/// In a run of mode heap an insert is ok only if its pass's shard had room for the value's class before the line. A
/// slot of the class was not live, marked or retired, a page was blank, or a page of another class was wholly the
/// owner's. The insert is `Full` only if the shard had none of these. So it is `Full` exactly if there was no room,
/// unless memory was refused, and then no page but a blank one had room.
///
/// If the page of the key was blank before the line, it was the lowest blank page of the shard. If it was blank or had
/// another class, the key names its slot 0. So `0 insert 4143` is not the first insert of a fresh heap of layout
/// `tiny`.
pub fn lines_see_room()
    ensures room { LinesSeeRoom }
    ensures apart { RoomExcludes }
{}

/// In a run of mode heap a get is `Crowded` only if its key has as many holds as a key of the layout may have. Between
/// two lines no pass has begun anything, so the count of a slot is the number of holds on its key.
pub fn lines_crowd_exactly()
    ensures { LinesCrowdExactly }
{}

/// If a pass adopts a shard of a fresh heap and inserts, the insert is not `Full`. The adopt took too few steps to give
/// each page of the shard a class.
pub fn first_insert_is_not_full()
    ensures { FirstInsertIsNotFull }
{}

/// If two passes adopt one shard, one after the other, not both adopts are ok.
pub fn two_adopts_are_not_done()
    ensures { TwoAdoptsAreNotDone }
{}

/// If a pass adopts a shard and leaves it, the leave is not `Waiting`.
pub fn leave_is_not_waiting()
    ensures { LeaveIsNotWaiting }
{}

/// A script without lines writes nothing, in one thread or in many, also if account lines are asked for. The account
/// lines are of the run in which the passes did their steps, and here no pass did any. So no page has a class.
pub fn no_lines_write_nothing()
    ensures { NoLinesWriteNothing }
{}
