//! What a move does to a pass's own part.
ghost use Rattle.std.specs.Prelude.{◌≡◌, IsOk, IfOk, IfErr, OnOk, OnErr};
ghost use Rattle.sh_step.specs.Plans.{plan_of};
ghost use Rattle.sh_step.specs.Moves.{row_of};
ghost use Rattle.sh_step.specs.Parts.{ListGrows, AddsToNoList};
ghost use Rattle.sh_step.specs.Fits.{RowFits};

use super::Part;
use crate::Move;
use sh_key::KeyLayout;
use sh_shape::Shape;
use sh_slots::Reply;
use sh_value::Refusal;

impl Part {
    /// Does what the move leaves in the pass's own part, by the word that its step found, and returns the reply. A move
    /// that makes a list of the part longer asks for memory first: if it is refused, as `Memory`, the part stays as it
    /// is. No other move is refused.
    pub fn apply<L: KeyLayout>(
        &mut self,
        shape: &Shape,
        the_move: &Move,
        found: u64,
    ) -> Result<Option<Reply>, Refusal>
        requires fits { RowFits shape.now (plan_of L.layout shape.now)
            (row_of (plan_of L.layout shape.now) self.old the_move.now) found }
        ensures reply { IfOk result (λ reply. reply ≡ (row_of (plan_of L.layout shape.now) self.old the_move.now).reply
            found) }
        ensures part { OnOk result (self.new ≡ (row_of (plan_of L.layout shape.now) self.old the_move.now).part found) }
        ensures err { OnErr result (self.new ≡ self.old) }
        ensures grows { OnErr result (ListGrows self.old ((row_of (plan_of L.layout shape.now) self.old
            the_move.now).part found)) }
        ensures room { AddsToNoList the_move.now → IsOk result }
        ensures memory { IfErr result (λ refusal. refusal ≡ Refusal.Memory) }
    {
        match the_move {
            Move::EnterGet(key, name) => self.enter_get::<L>(*key, *name, found),
            Move::EnterRemove(key, name) => Ok(self.enter_remove(*key, *name, found)),
            Move::Mark(key, name) => Ok(self.mark(*key, *name, found)),
            Move::Drop(slot_ref) => Ok(self.drop_hand(*slot_ref, found)),
            Move::DropHold(key, name) => Ok(self.drop_hold(*key, *name, found)),
            Move::Finish(slot_ref, generation) => self.finish::<L>(
                shape,
                *slot_ref,
                *generation,
                found,
            ),
            Move::ReadEnding(slot_ref, generation, sight) => Ok(self.read_ending(
                *slot_ref,
                *generation,
                sight,
                found,
            )),
            Move::FillSlot(slot_ref, value) => Ok(self.fill_slot(*slot_ref, value)),
            Move::Fill(slot_ref, value, i, _) => Ok(self.fill(*slot_ref, value, *i)),
            Move::Publish(slot_ref, value) => Ok(self.publish::<L>(shape, *slot_ref, value, found)),
            Move::ReadClass(key, name) => self.read_class(*key, *name, found),
            Move::ReadLength(key, name) => self.read_length(*key, *name, found),
            Move::ReadWord(key, _, _, i) => self.read_word(*key, *i, found),
            Move::Peek(_) => Ok(None),
            Move::Look(key, name) => Ok(self.look(*key, *name, found)),
            Move::LookOn(key, name, sight) => Ok(self.look_on(*key, *name, sight, found)),
            Move::LookAgain(key, name, sight) => Ok(self.look_again(*key, *name, sight, found)),
            Move::ReadPage(page) => self.read_page(*page, found),
            Move::SetClass(page, class) => self.set_class(*page, *class),
            Move::Take(page) => self.take(*page, found),
            Move::Follow(page, slot) => self.follow(*page, *slot, found),
            Move::Put(slot_ref) => Ok(self.put(*slot_ref, found)),
            Move::PutSlot(slot_ref) => Ok(self.put_slot(*slot_ref, found)),
            Move::Tie(slot_ref, _, ring) => Ok(self.tie(*slot_ref, *ring)),
            Move::Adopt(shard) => Ok(self.adopt(*shard, found)),
            Move::Leave(_) => Ok(self.leave()),
            Move::Arm(page) => self.arm(*page, found),
            Move::Ring(page) => Ok(self.ring(shape, *page, found)),
            Move::RingTie(_, _) => Ok(self.ring_tie()),
            Move::TakeBell(shard) => Ok(self.take_bell::<L>(shape, *shard, found)),
            Move::FollowBell(page) => Ok(self.follow_bell::<L>(shape, *page, found)),
        }
    }
}
