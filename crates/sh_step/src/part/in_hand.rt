//! What the steps that continue a pass's begun work leave in its own part.
ghost use Rattle.std.specs.Prelude.{◌≡◌, ◌+◌, ◌≤◌, ℕ, None, IfOk, IfErr, OnOk, OnErr};
ghost use Rattle.sh_shape.specs.Places.{all_pages};
ghost use Rattle.sh_step.specs.Plans.{Plan, plan_of};
ghost use Rattle.sh_step.specs.Parts.{ListGrows};
ghost use Rattle.sh_step.specs.Rows.{drop_hand, read_ending, finish, put_at, tie, ring, ring_tie};

use super::Part;
use crate::operands::gen_max;
use crate::paged::owns;
use sh_bell::{is_armed, top_of};
use sh_key::KeyLayout;
use sh_shape::Shape;
use sh_slots::{Hand, Reply, Sight, SlotRef, after_drop, is_reusable_after};
use sh_stack::link_over;
use sh_value::Refusal;

impl Part {
    // Gives back the count on the slot that the pass is leaving; the step found this word.
    pub(super) fn drop_hand(&mut self, slot_ref: SlotRef, found: u64) -> Option<Reply>
        ensures reply { result ≡ (drop_hand self.old slot_ref).reply found }
        ensures part { self.new ≡ (drop_hand self.old slot_ref).part found }
    {
        self.hand = after_drop(slot_ref, found);
        None
    }

    // Reads on of the value whose generation it is to end; the step found this word.
    pub(super) fn read_ending(
        &mut self,
        slot_ref: SlotRef,
        generation: u32,
        sight: &Sight,
        found: u64,
    ) -> Option<Reply>
        ensures reply { result ≡ None }
        ensures part { self.new ≡ (read_ending self.old slot_ref generation sight.now).part found }
    {
        self.hand = Hand::Finishing(slot_ref, generation, sight.with(found));
        None
    }

    // The end of a generation that found this word: the slot becomes its own if its shard is, and otherwise is to be
    // put.
    pub(super) fn finish<L: KeyLayout>(
        &mut self,
        shape: &Shape,
        slot_ref: SlotRef,
        generation: u32,
        found: u64,
    ) -> Result<Option<Reply>, Refusal>
        ensures reply { IfOk result (λ reply. reply ≡ (finish (plan_of L.layout shape.now) self.old slot_ref
            generation).reply found) }
        ensures part { OnOk result (self.new ≡ (finish (plan_of L.layout shape.now) self.old slot_ref generation).part
            found) }
        ensures err { OnErr result (self.new ≡ self.old) }
        ensures grows { OnErr result (ListGrows self.old ((finish (plan_of L.layout shape.now) self.old slot_ref
            generation).part found)) }
        ensures memory { IfErr result (λ refusal. refusal ≡ Refusal.Memory) }
    {
        if !is_reusable_after(generation, gen_max::<L>(), found) {
            self.hand = Hand::Idle;
        } else if owns::<L>(shape, self, slot_ref.page) {
            self.mine.put(slot_ref)?;
            self.hand = Hand::Idle;
        } else {
            self.hand = Hand::ToPut(slot_ref);
        }
        Ok(None)
    }

    // A put that found this head word: the link is to be stored, and the pass then rings if it found the flag.
    pub(super) fn put(&mut self, slot_ref: SlotRef, found: u64) -> Option<Reply>
        ensures reply { result ≡ (put_at self.old slot_ref).reply found }
        ensures part { self.new ≡ (put_at self.old slot_ref).part found }
    {
        self.hand = Hand::Tying(slot_ref, link_over(top_of(found)), is_armed(found));
        None
    }

    // Stores a slot's link; the pass then rings if its put found the flag.
    pub(super) fn tie(&mut self, slot_ref: SlotRef, ring: bool) -> Option<Reply>
        ensures reply { result ≡ None }
        ensures part { (link found : ℕ) → self.new ≡ (tie self.old slot_ref link ring).part found }
    {
        self.hand = if ring {
            Hand::Ringing(slot_ref.page)
        } else {
            Hand::Idle
        };
        None
    }

    // Rings; the step found this word on the bell.
    #[tactic(auto, using(sh_shape::proofs::PlaceLaws::few_pages))]
    pub(super) fn ring(&mut self, shape: &Shape, page: u64, found: u64) -> Option<Reply>
        requires { found ≤ all_pages shape.now + 1 }
        ensures reply { result ≡ None }
        ensures part { (plan : Plan) → self.new ≡ (ring plan self.old page).part found }
    {
        let _pages = shape.pages();
        self.hand = Hand::RingTying(page, link_over(found));
        None
    }

    // Stores a page's link.
    pub(super) fn ring_tie(&mut self) -> Option<Reply>
        ensures reply { result ≡ None }
        ensures part { (page link found : ℕ) → self.new ≡ (ring_tie self.old page link).part found }
    {
        self.hand = Hand::Idle;
        None
    }
}
