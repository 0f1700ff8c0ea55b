//! What holds of every run, in the words of those who use a heap.
ghost use Rattle.sh_core.specs.Refines.{Always};
ghost use Rattle.sh_laws.specs.Ends.{EndsAreLast, EndsOnce, LeftHasEnded};
ghost use Rattle.sh_laws.specs.Garbage.{FewAreCutOff, GarbageIsFew};
ghost use Rattle.sh_laws.specs.Objects.{HeldValuesStay, ObjectIsAtomic, OpensAsEmpty};
ghost use Rattle.sh_laws.specs.StrongOrders.{StronglyLinearizable};
ghost use Rattle.sh_laws.specs.Walks.{HeardIsRemoved, MissedIsAbsent, StayingIsMet};

/// Few slots are out of their owners' reach, however long passes stall. Marked slots and slots in hands are together at
/// most the holds and the passes that have begun something, and at most 17 for each pass. A pass between Put and Tie
/// cuts off at most the slots of its page, one between Ring and its tie the pages of its shard. With the slots that are
/// cut off it is at most 64 for each pass.
pub fn garbage_is_bounded()
    ensures few { Always GarbageIsFew }
    ensures cut_off { Always FewAreCutOff }
{}

/// The core is strongly linearizable: the order of the replies of a run is legal, and no later event changes it.
pub fn core_is_strongly_linearizable()
    ensures { StronglyLinearizable }
{}

/// The words and the holds of the passes are the whole object, at each moment: the map, the keys that were issued, and
/// the holds. It opens empty, and each event is at most one of its operations. A value stays while its key is held,
/// also after the key was removed.
pub fn whole_object_is_atomic()
    ensures opens { OpensAsEmpty }
    ensures events { ObjectIsAtomic }
    ensures held { HeldValuesStay }
{}

/// If steps that a pass did after its first ones missed a key, there is a moment after those first ones at which the
/// key is not in the map. So a key that is in the map at each moment of a walk is met. If the pass did or heard of the
/// key's insert before, and a load missed the key, the key was removed by that moment.
pub fn missed_is_absent()
    ensures missed { MissedIsAbsent }
    ensures met { StayingIsMet }
    ensures removed { HeardIsRemoved }
{}

/// A removed key ends at most once, by the one Finish that finds its marked word. It has ended exactly once if no pass
/// has a hold on it, is on its slot or is to end it. At its end no pass has a hold on it, and none gets one later. The
/// words that were read before are those that were inserted.
pub fn keys_end_once()
    ensures once { EndsOnce }
    ensures quiet { LeftHasEnded }
    ensures words { EndsAreLast }
{}
