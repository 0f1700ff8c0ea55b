//! Laws of what passes did and were replied, and of the places and words that they step on.
ghost use Rattle.sh_core.specs.Outcomes.{DecidingEventsReply};
ghost use Rattle.sh_core.specs.Trails.{TrailGrows, OthersTrailsStay, SkipsLeaveTrails, StepsMakeParts};
ghost use Rattle.sh_core.specs.Trails.{StepsMakeEntries};
ghost use Rattle.sh_core.specs.AtomicMap.{EventsAreOperations, OpensEmpty, StatesTell};
ghost use Rattle.sh_core.specs.WaitFree.{WaitFree};
ghost use Rattle.sh_core.specs.Quiet.{QuietLosesNothing, CollectingFindsAll};
ghost use Rattle.sh_core.specs.InHeap.{PlansHaveShapesPlaces, CountsLeaveRoom, ValuesFit};
ghost use Rattle.sh_core.specs.Follows.{Filled, ReadsWithin, LeftEmpty, EachLinked};
ghost use Rattle.sh_core.specs.Lists.{PutLists};
ghost use Rattle.sh_core.specs.Refines.{OneKind, HeldKeysAreValid, NotesAreTrue, OneOwner, OwnPartsAreValid, Linked};
ghost use Rattle.sh_core.specs.Refines.{Armed};
ghost use Rattle.sh_core.specs.Worlds.{World};
ghost use Rattle.sh_step.specs.Plans.{Plan};

/// What follows from clauses of [`refines_map`](crate::refines_map), in each world in which these hold.
pub fn clauses_imply_more()
    // The six kinds of slots fill the page.
    ensures filled { (w : World) (l : PutLists) → OneKind w l → Filled w l }
    // What may be read of a held key is of its value, in its page.
    ensures reads { (plan : Plan) (w : World) → HeldKeysAreValid plan w → NotesAreTrue plan w → ValuesFit plan w
        → ReadsWithin plan w }
    // A left shard keeps nothing.
    ensures left { (plan : Plan) (w : World) → OneOwner w → OwnPartsAreValid plan w → LeftEmpty plan w }
    // Each link of a list names the next item or the end, or exactly one pass ties it.
    ensures links { (plan : Plan) (w : World) (l : PutLists) → OneKind w l → Armed plan w l → Linked plan w l
        → OwnPartsAreValid plan w → EachLinked plan w l }
{}

/// What one more event adds to the trails of the passes: a step to that of the pass that did it, and nothing to
/// another's. The part of a pass is what the steps of its trail leave of a newcomer's. A pass has as many entries in
/// the log as steps that decided a call.
pub fn trails_grow()
    ensures own { TrailGrows }
    ensures others { OthersTrailsStay }
    ensures skipped { SkipsLeaveTrails }
    ensures parts { StepsMakeParts }
    ensures entries { StepsMakeEntries }
{}

/// An event whose word decides a call replies: one entry of its pass joins the log then, and only then.
pub fn deciding_events_reply()
    ensures { DecidingEventsReply }
{}

/// Each place that the plan of a heap has is one of the heap's shape.
pub fn plans_have_the_places_of_shapes()
    ensures { PlansHaveShapesPlaces }
{}

/// If the count of a state word stays within its bounds, the whole word has room.
pub fn counts_leave_room()
    ensures { CountsLeaveRoom }
{}

/// Nothing is lost. If no pass has begun anything, the links lead from a page's head along its stack list. They lead
/// along its chain list from the list's first slot, where the page's one cursor is. Each empty slot of a page's class
/// is its owner's, or in the stack list, or in the chain list: in one of these, and once. If no pass owns the shard, it
/// is in the stack list.
pub fn quiet_heaps_lose_nothing()
    ensures { QuietLosesNothing }
{}

/// If no pass has begun anything, a pass that may take the stack of a page collects all of it. It does one follow for
/// each slot of the stack. Then nothing is queued on the page, and each of its empty slots is its owner's.
pub fn collecting_finds_all()
    ensures { CollectingFindsAll }
{}

/// Wait freedom: while a pass has something begun, it does at most as many steps of its own as its hand says, however
/// many events of other passes come between.
pub fn steps_are_wait_free()
    ensures { WaitFree }
{}

/// The words of a heap are an atomic map. It opens empty, and each event does at most one operation of the map, at
/// once. With [`deciding_events_reply`] the core is linearizable: the linearization point of each call is one of its
/// own steps.
pub fn words_are_an_atomic_map()
    ensures opens { OpensEmpty }
    ensures events { EventsAreOperations }
    // The state word of a slot, which a peek loads, tells of each key of the slot whether it is there, was removed, or
    // was never issued.
    ensures tells { StatesTell }
{}
