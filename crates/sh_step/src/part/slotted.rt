//! What actions on slots leave in a pass's own part.
ghost use Rattle.std.specs.Prelude.{◌≡◌, ◌+◌, ◌^◌, ◌<◌, ℕ, Some, None};
ghost use Rattle.sh_shape.specs.Places.{all_pages, slot_places};
ghost use Rattle.sh_slots.specs.Slots.{same_slot, published_name};
ghost use Rattle.sh_step.specs.Plans.{plan_of};
ghost use Rattle.sh_step.specs.Collections.{without};
ghost use Rattle.sh_step.specs.Rows.{fill_slot, fill, publish, put_at};

use super::Part;
use crate::operands::key_of_name;
use sh_key::KeyLayout;
use sh_shape::Shape;
use sh_slots::{Hand, Reply, SlotRef, published_name};
use sh_value::Value;

impl Part {
    // Begins to fill a slot.
    pub(super) fn fill_slot(&mut self, slot_ref: SlotRef, value: &Value) -> Option<Reply>
        ensures reply { result ≡ None }
        ensures part { (found : ℕ) → self.new ≡ (fill_slot self.old slot_ref value.now).part found }
    {
        self.mine.remove(slot_ref);
        self.hand = Hand::Filling(slot_ref, value.copy(), 0);
        None
    }

    // Stores the value's word with this number.
    pub(super) fn fill(&mut self, slot_ref: SlotRef, value: &Value, i: u64) -> Option<Reply>
        requires { i + 1 < 2 ^ 64 }
        ensures reply { result ≡ None }
        ensures part { (found : ℕ) → self.new ≡ (fill self.old slot_ref value.now i).part found }
    {
        self.hand = Hand::Filling(slot_ref, value.copy(), i + 1);
        None
    }

    // Ends a filling; the step found this state word. The value is inserted under the key of the slot in the generation
    // found.
    pub(super) fn publish<L: KeyLayout>(
        &mut self,
        shape: &Shape,
        slot_ref: SlotRef,
        value: &Value,
        found: u64,
    ) -> Option<Reply>
        requires page { slot_ref.page < all_pages shape.now }
        requires slot { slot_ref.slot < slot_places }
        requires names { (plan_of L.layout shape.now).keys.unpack
            ((plan_of L.layout shape.now).keys.pack (published_name slot_ref found))
            ≡ Some (published_name slot_ref found) }
        ensures reply { result ≡ (publish (plan_of L.layout shape.now) self.old slot_ref value.now).reply found }
        ensures part { self.new ≡ (publish (plan_of L.layout shape.now) self.old slot_ref value.now).part found }
    {
        self.hand = Hand::Idle;
        let key = key_of_name::<L>(shape, published_name(slot_ref, found));
        Some(Reply::Insert(key, value.copy()))
    }

    // Puts a slot of its own; the step found this head word.
    pub(super) fn put_slot(&mut self, slot_ref: SlotRef, found: u64) -> Option<Reply>
        ensures reply { result ≡ (put_at (record self.old { mine = without (same_slot slot_ref) self.old.mine })
            slot_ref).reply found }
        ensures part { self.new ≡ (put_at (record self.old { mine = without (same_slot slot_ref) self.old.mine })
            slot_ref).part found }
    {
        self.mine.remove(slot_ref);
        self.put(slot_ref, found)
    }
}
