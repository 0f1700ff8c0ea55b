//! What is true of an owner that took in all other passes.
ghost use Rattle.sh_quiet.specs.Quiescence.{CollectedIsEmpty, FullIsExact, JoinsAreHeard, LastOnesAreQuiet};
ghost use Rattle.sh_quiet.specs.Quiescence.{LeavesNeverWait};

/// An owner that took in all other passes takes what was put on a page of its shard, follows it to its end and puts
/// nothing. Then nothing is queued there, and each empty slot of the page is its own.
pub fn collected_is_empty()
    ensures { CollectedIsEmpty }
{}

/// An owner that took in all other passes is refused an insert as `Full` only if the pages of the class are used up.
/// Each slot of each such page in its shard is live, marked or retired, whatever run a bundle gives in which it then
/// ends. The insert itself ensures that no page of the shard is blank, that none is wholly the owner's, and that every
/// segment is opened. What the law asks of the shard, before and after the insert, is what each of its calls ensures.
pub fn full_is_exact()
    ensures { FullIsExact }
{}

/// An owner that took in all other passes is never refused as `Waiting` when it leaves its shard. So it can give its
/// shard up at once, by `leave_last`.
pub fn leaves_never_wait()
    ensures { LeavesNeverWait }
{}

/// If a pass took in all others and none of them has begun anything, then so it is in the heap.
pub fn last_ones_are_quiet()
    ensures { LastOnesAreQuiet }
{}

/// By each join a pass hears of all steps of those that it takes in, and by no call does it lose that.
pub fn joins_are_heard()
    ensures { JoinsAreHeard }
{}
