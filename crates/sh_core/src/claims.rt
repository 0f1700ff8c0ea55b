//! What holds of every run.
ghost use Rattle.std.specs.Prelude.{◌≡◌, length};
ghost use Rattle.sh_history.specs.History.{Legal};
ghost use Rattle.sh_step.specs.Moves.{row};
ghost use Rattle.sh_core.specs.InHeap.{StepsWithin, CountsFit, BellsAreSmall, ValuesFit, StoresWords, IssuesKeys};
ghost use Rattle.sh_core.specs.Refines.{Always, OneKind, ClassesAreKnown, HeldKeysAreValid};
ghost use Rattle.sh_core.specs.KeyEnds.{EndsAreTrue};
ghost use Rattle.sh_core.specs.Looks.{LooksAreTrue};
ghost use Rattle.sh_core.specs.Refines.{NotesAreTrue, HoldsMatchLog, Counted, CountIsFew};
ghost use Rattle.sh_core.specs.Refines.{PastIsRemoved, KeysMatchLog, EntriesAreOurs, GenerationsEnd, RetiredIsLast};
ghost use Rattle.sh_core.specs.Refines.{Finished, OneOwner, Armed, ShardlessHaveNothing, Linked};
ghost use Rattle.sh_core.specs.Refines.{OwnPartsAreValid, FillsAreKeys, HoldsAreFew, FlaggedAreEmpty, KeysInHandName};
ghost use Rattle.sh_core.specs.Refines.{GoesOn};

/// The core refines the map: in every heap whose shape fits its layout, after every list of events, by any passes in
/// any order, and whichever calls are unfinished.
pub fn refines_map()
    // The replies, in the order of their deciding steps, are a legal history of a map whose keys are never used again.
    ensures legal { Always (λ plan w l. Legal plan.passes plan.keys.guard_max w.log) }
    ensures entries { Always (λ plan w l. EntriesAreOurs plan w) }

    // Each slot of a page's class is exactly one of live, marked, retired, mine, in hand and queued, so the six fill
    // the page (`clauses_imply_more`).
    ensures one_kind { Always (λ plan w l. OneKind w l) }
    ensures classes { Always (λ plan w l. ClassesAreKnown plan w) }

    // The value of a held key is in its slot, unchanged, and holds are what the log says.
    ensures held { Always (λ plan w l. HeldKeysAreValid plan w) }
    ensures notes { Always (λ plan w l. NotesAreTrue plan w) }
    ensures looks { Always (λ plan w l. LooksAreTrue plan w) }
    ensures holds { Always (λ plan w l. HoldsMatchLog w) }
    ensures few_holds { Always (λ plan w l. HoldsAreFew plan w) }

    // A slot's count is its holds and the passes on it for a moment, and has room.
    ensures counted { Always (λ plan w l. Counted plan w) }
    ensures few { Always (λ plan w l. CountIsFew plan w) }
    ensures counts { Always (λ plan w l. CountsFit plan w) }

    // Generations go up, and end; the log says of each key what its slot's state word does.
    ensures past { Always (λ plan w l. PastIsRemoved plan w) }
    ensures keys { Always (λ plan w l. KeysMatchLog plan w) }
    ensures generations { Always (λ plan w l. GenerationsEnd plan w) }
    ensures retired { Always (λ plan w l. RetiredIsLast plan w) }
    ensures finished { Always (λ plan w l. Finished plan w) }

    // A shard has one owner at most; the duty to ring for an armed page is at one place.
    ensures owners { Always (λ plan w l. OneOwner w) }
    ensures armed { Always (λ plan w l. Armed plan w l) }
    ensures shardless { Always (λ plan w l. ShardlessHaveNothing w) }

    // The links of what was put on pages and on bells.
    ensures linked { Always (λ plan w l. Linked plan w l) }
    ensures flags { Always (λ plan w l. FlaggedAreEmpty w l) }

    // What a pass has of its own is within its shard, and each step is on a place of the heap.
    ensures parts { Always (λ plan w l. OwnPartsAreValid plan w) }
    ensures fills { Always (λ plan w l. FillsAreKeys plan w) }
    ensures places { Always (λ plan w l. StepsWithin plan w) }
    ensures bells { Always (λ plan w l. BellsAreSmall plan w) }
    ensures values { Always (λ plan w l. ValuesFit plan w) }
    ensures stores { Always (λ plan w l. StoresWords plan w) }
    ensures issues { Always (λ plan w l. IssuesKeys plan w) }
    ensures passes { Always (λ plan w l. length w.parts ≡ plan.passes) }

    // A pass that has begun something can continue, and each of its steps brings it nearer to the end.
    ensures hands { Always (λ plan w l. KeysInHandName plan w) }
    ensures goes_on { Always (λ plan w l. GoesOn row plan w) }

    // A removed key ends at most once. Then no pass has a hold on it, and a pass that read its value before has it.
    ensures ends { Always (λ plan w l. EndsAreTrue plan w) }
{}
