//! What an event touches: a page, a shard with its bell, or both.
ghost use Rattle.std.specs.Prelude.{◌≡◌, false, is_none};
ghost use Rattle.sh_step.specs.Plans.{plan_of};
ghost use Rattle.sh_step.specs.Moves.{row};
ghost use Rattle.script_show.specs.Sessions.{has_reason};

use crate::reason::Reason;
use crate::why::reason;
use sh_key::KeyLayout;
use sh_shape::Shape;
use sh_slots::SlotRef;
use sh_step::{Action, Move, Part};

/// What an event touches. Pages are numbered over the whole heap.
#[derive(Clone, Copy, Debug, PartialEq, Eq)]
pub enum Touched {
    /// Nothing: it is skipped, for this reason.
    Nothing(Reason),
    /// A page.
    Page(u64),
    /// A slot of a page.
    Slot(SlotRef),
    /// The link of a page's slot that a cursor is at.
    Link(u64, u64),
    /// A shard.
    Shard(u64),
    /// A page that changes a shard's bell.
    PageAndBell(u64),
}

// What a move touches.
fn by_move(the_move: &Move) -> Touched
    ensures { has_reason result ≡ false }
{
    match the_move {
        Move::EnterGet(_, name)
        | Move::EnterRemove(_, name)
        | Move::Mark(_, name)
        | Move::DropHold(_, name)
        | Move::ReadClass(_, name)
        | Move::ReadLength(_, name)
        | Move::ReadWord(_, name, _, _)
        | Move::Look(_, name)
        | Move::LookOn(_, name, _)
        | Move::LookAgain(_, name, _) => Touched::Page(name.page),
        Move::Drop(slot_ref)
        | Move::Finish(slot_ref, _)
        | Move::FillSlot(slot_ref, _)
        | Move::Fill(slot_ref, _, _, _)
        | Move::Publish(slot_ref, _)
        | Move::Put(slot_ref)
        | Move::PutSlot(slot_ref)
        | Move::Tie(slot_ref, _, _)
        | Move::Peek(slot_ref) => Touched::Slot(*slot_ref),
        Move::ReadEnding(slot_ref, _, _) => Touched::Page(slot_ref.page),
        Move::ReadPage(page) | Move::SetClass(page, _) | Move::Take(page) | Move::Arm(page) =>
            Touched::Page(*page),
        Move::Follow(page, slot) => Touched::Link(*page, *slot),
        Move::Adopt(shard) | Move::Leave(shard) | Move::TakeBell(shard) => Touched::Shard(*shard),
        Move::Ring(page) | Move::RingTie(page, _) | Move::FollowBell(page) => {
            Touched::PageAndBell(*page)
        }
    }
}

/// What an action by a pass with this part touches: nothing, with a reason, exactly if it has no row.
pub fn touched_by<L: KeyLayout>(shape: &Shape, part: &Part, action: &Action) -> Touched
    ensures { has_reason result ≡ is_none (row (plan_of L.layout shape.now) part.now action.now) }
{
    match Move::of::<L>(shape, part, action) {
        Some(the_move) => by_move(&the_move),
        None => Touched::Nothing(reason::<L>(shape, part, action)),
    }
}
