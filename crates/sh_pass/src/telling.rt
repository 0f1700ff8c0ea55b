//! Calls that say which key they ended, if any.
//!
//! A value is plain words, so what it names, as a file descriptor, has to be freed once nobody can read the value any
//! more. That is when its key ends: the key was removed, and no hold and no visitor is left. Exactly one call ends it,
//! and these calls say so. It may be the removal or a release, and also a get or a remove that is refused: it was on the
//! slot for a moment. So the key that ended need not be the call's own.
ghost use Rattle.std.specs.Prelude.{◌≡◌, None};
ghost use Rattle.sh_slots.specs.declared.hand.Hand.TheVariants.{Idle};
ghost use Rattle.sh_pass.specs.Owners.{CallLeaves, own_body};
ghost use Rattle.sh_pass.specs.Passes.{GetDoesWithin, RemoveDoesWithin, ReleaseDoesWithin};
ghost use Rattle.sh_pass.specs.Remaining.{Remains};
ghost use Rattle.sh_pass.specs.Telling.{TellsEnd, words_asked};

use crate::end_room::EndRoom;
use crate::guard::Guard;
use crate::keeping::KeepsHeap;
use crate::owner::OwnerOn;
use crate::pass::PassOn;
use crate::seated::Seated;
use crate::told_calls::{get_told, release_told, remove_told};
use sh_key::KeyLayout;
use sh_slots::SlotRef;
use sh_value::{Hold, Refusal};

/// A caller whose calls say which key they ended: a pass, a shard by its owner's pass, or a member. Each of these does
/// what the plain call does, and returns the key beside its answer. The words of the key's value go into the caller's
/// room, which otherwise stays as it was. A room that asks for words takes up to 18 loads more, and only where a key
/// ends.
pub trait Tells {
    ghost use Rattle.sh_key.specs.Layout.{Layout};
    ghost use Rattle.sh_pass.specs.Passes.{Caller};

    // How keys are numbered.
    ghost told_layout: { Layout };

    // The heap, and what is known of it.
    ghost teller: { Self → Caller };

    /// `get`, and the key that it ended. Only a refused get ends one: as `Gone` or `Crowded`, it may be of another key.
    fn get_ended<M: EndRoom>(
        &mut self,
        key: u64,
        room: &mut M,
    ) -> (Result<Hold, Refusal>, Option<u64>)
        ensures does { GetDoesWithin (words_asked M.asks) told_layout key (teller self.old) result.0 (teller self.new) }
        ensures tells { TellsEnd M.asks M.takes told_layout result.1 room.old room.new (teller self.old).view
            (teller self.new).view }
        ensures remains { Remains told_layout (teller self.old) (teller self.new) };

    /// `remove`, and the key that it ended: its own, if nobody else is on it, or if it is refused one of another key.
    fn remove_ended<M: EndRoom>(
        &mut self,
        key: u64,
        room: &mut M,
    ) -> (Result<(), Refusal>, Option<u64>)
        ensures does { RemoveDoesWithin (words_asked M.asks) told_layout key (teller self.old) result.0
            (teller self.new) }
        ensures tells { TellsEnd M.asks M.takes told_layout result.1 room.old room.new (teller self.old).view
            (teller self.new).view }
        ensures remains { Remains told_layout (teller self.old) (teller self.new) };

    /// `release`, and the key that it ended: its own, if the key was removed and this was the last hold on it.
    fn release_ended<M: EndRoom>(
        &mut self,
        hold: Hold,
        room: &mut M,
    ) -> (Result<(), Refusal>, Option<u64>)
        ensures does { ReleaseDoesWithin (words_asked M.asks) told_layout hold.key (teller self.old) result.0
            (teller self.new) }
        ensures tells { TellsEnd M.asks M.takes told_layout result.1 room.old room.new (teller self.old).view
            (teller self.new).view }
        ensures remains { Remains told_layout (teller self.old) (teller self.new) };
}

// The plain hold of a guard that was got.
#[inline(always)]
fn hold_of<L: KeyLayout>(answer: Result<Guard<L>, Refusal>) -> Result<Hold, Refusal>
    ensures { result ≡ answer }
{
    match answer {
        Ok(guard) => Ok(guard.hold()),
        Err(refusal) => Err(refusal),
    }
}

impl<L: KeyLayout, H: KeepsHeap<L>> Tells for PassOn<L, H> {
    ghost told_layout = { L.layout };

    ghost teller = { λ pass. pass };

    fn get_ended<M: EndRoom>(
        &mut self,
        key: u64,
        room: &mut M,
    ) -> (Result<Hold, Refusal>, Option<u64>) {
        let Seated { seat, held, .. } = &mut self.seated;
        let (answer, _, ended) = get_told(&self.heap.kept().table, seat, held, key, None, room);
        (hold_of(answer), ended)
    }

    fn remove_ended<M: EndRoom>(
        &mut self,
        key: u64,
        room: &mut M,
    ) -> (Result<(), Refusal>, Option<u64>) {
        let table = &self.heap.kept().table;
        let (answer, _, ended) = remove_told(table, &mut self.seated.seat, key, None, room);
        (answer, ended)
    }

    fn release_ended<M: EndRoom>(
        &mut self,
        hold: Hold,
        room: &mut M,
    ) -> (Result<(), Refusal>, Option<u64>) {
        let Seated { seat, held, .. } = &mut self.seated;
        let (answer, _, ended) = release_told(
            &self.heap.kept().table,
            seat,
            held,
            &hold,
            None,
            room,
        );
        (answer, ended)
    }
}

impl<L: KeyLayout, H: KeepsHeap<L>> OwnerOn<L, H> {
    /// `get`, and the key that it ended, as a pass says it.
    pub fn get_ended<M: EndRoom>(
        &mut self,
        key: u64,
        room: &mut M,
    ) -> (Result<Hold, Refusal>, Option<SlotRef>, Option<u64>)
        requires idle { (own_body self.old).hand ≡ Idle }
        ensures does { GetDoesWithin (words_asked M.asks) L.layout key self.old result.0 self.new }
        ensures leaves { CallLeaves L.layout result.1 self.old self.new }
        ensures tells { TellsEnd M.asks M.takes L.layout result.2 room.old room.new self.old.view self.new.view }
        ensures remains { Remains L.layout self.old self.new }
    {
        let heap = self.heap.kept();
        let Seated { seat, held, .. } = &mut self.seated;
        let (answer, slot, ended) = get_told(&heap.table, seat, held, key, self.owned, room);
        (hold_of(answer), slot, ended)
    }

    /// `remove`, and the key that it ended, as a pass says it.
    pub fn remove_ended<M: EndRoom>(
        &mut self,
        key: u64,
        room: &mut M,
    ) -> (Result<(), Refusal>, Option<SlotRef>, Option<u64>)
        requires idle { (own_body self.old).hand ≡ Idle }
        ensures does { RemoveDoesWithin (words_asked M.asks) L.layout key self.old result.0 self.new }
        ensures leaves { CallLeaves L.layout result.1 self.old self.new }
        ensures tells { TellsEnd M.asks M.takes L.layout result.2 room.old room.new self.old.view self.new.view }
        ensures remains { Remains L.layout self.old self.new }
    {
        let heap = self.heap.kept();
        remove_told(&heap.table, &mut self.seated.seat, key, self.owned, room)
    }

    /// `release`, and the key that it ended, as a pass says it.
    pub fn release_ended<M: EndRoom>(
        &mut self,
        hold: Hold,
        room: &mut M,
    ) -> (Result<(), Refusal>, Option<SlotRef>, Option<u64>)
        requires idle { (own_body self.old).hand ≡ Idle }
        ensures does { ReleaseDoesWithin (words_asked M.asks) L.layout hold.key self.old result.0 self.new }
        ensures leaves { CallLeaves L.layout result.1 self.old self.new }
        ensures tells { TellsEnd M.asks M.takes L.layout result.2 room.old room.new self.old.view self.new.view }
        ensures remains { Remains L.layout self.old self.new }
    {
        let heap = self.heap.kept();
        let Seated { seat, held, .. } = &mut self.seated;
        release_told(&heap.table, seat, held, &hold, self.owned, room)
    }
}
