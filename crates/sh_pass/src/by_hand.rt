// The steps of a pass that is driven step by step, one function for each form of action. Each returns whether the
// condition of its action holds, and does the step only then.
ghost use Rattle.std.specs.Prelude.{◌≡◌};
ghost use Rattle.sh_step.specs.declared.action.Action.TheVariants as action;
ghost use Rattle.sh_pass.specs.Busy.{Acts, IsBusy};

use crate::held_keys::find;
use crate::seated::Seated;
use sh_bell::{is_armed, top_of};
use sh_key::KeyLayout;
use sh_slots::{GetAnswer, Hand, after_drop, after_enter_remove, answer_to_get, is_reusable_after};
use sh_stack::link_over;
use sh_step::Action;
use sh_step::operands::{gen_max, guard_max, place_of_key};
use sh_table::HeapTable;

/// What is kept of a pass that is driven step by step.
#[derive(Drop)]
pub(crate) struct BusyState<L: KeyLayout> {
    pub(crate) seated: Seated<L>,
    // What it has begun.
    pub(crate) hand: Hand,
}

impl<L: KeyLayout> BusyState<L> {
    // Enters the slot of a key, to get it.
    fn enter_get(&mut self, table: &HeapTable<L>, key: u64) -> bool
        requires { IsBusy L.layout table.now self.old.seated.seat self.old.seated.held.items self.old.seated.named
            self.old.hand self.old.seated.number }
        ensures busy { IsBusy L.layout table.now self.new.seated.seat self.new.seated.held.items self.new.seated.named
            self.new.hand self.new.seated.number }
        ensures acts { Acts L.layout (action.EnterGet key) self.old.seated.seat.me.0 result self.new.seated.seat.me.0 }
    {
        let Hand::Idle = self.hand else {
            return false;
        };
        if self.seated.held.is_full() {
            return false;
        }
        let Some(name) = place_of_key::<L>(table.shape(), key) else {
            return false;
        };
        let found = table.enter_get(&mut self.seated.seat, key, name);
        match answer_to_get(name.generation, guard_max::<L>(), found) {
            GetAnswer::Got => self.seated.held.push(key),
            GetAnswer::Crowded => self.hand = Hand::Leaving(name.slot_ref()),
            GetAnswer::Gone => self.hand = Hand::Leaving(name.slot_ref()),
        }
        true
    }

    // Enters the slot of a key, to remove it.
    fn enter_remove(&mut self, table: &HeapTable<L>, key: u64) -> bool
        requires { IsBusy L.layout table.now self.old.seated.seat self.old.seated.held.items self.old.seated.named
            self.old.hand self.old.seated.number }
        ensures busy { IsBusy L.layout table.now self.new.seated.seat self.new.seated.held.items self.new.seated.named
            self.new.hand self.new.seated.number }
        ensures acts { Acts L.layout (action.EnterRemove key) self.old.seated.seat.me.0 result
            self.new.seated.seat.me.0 }
    {
        let Hand::Idle = self.hand else {
            return false;
        };
        let Some(name) = place_of_key::<L>(table.shape(), key) else {
            return false;
        };
        let found = table.enter_remove(&mut self.seated.seat, key, name);
        self.hand = after_enter_remove(key, name, found);
        true
    }

    // Marks the slot of the key that it removes.
    fn mark(&mut self, table: &HeapTable<L>) -> bool
        requires { IsBusy L.layout table.now self.old.seated.seat self.old.seated.held.items self.old.seated.named
            self.old.hand self.old.seated.number }
        ensures busy { IsBusy L.layout table.now self.new.seated.seat self.new.seated.held.items self.new.seated.named
            self.new.hand self.new.seated.number }
        ensures acts { Acts L.layout action.Mark self.old.seated.seat.me.0 result self.new.seated.seat.me.0 }
    {
        let Hand::Removing(key) = self.hand else {
            return false;
        };
        let Some(name) = place_of_key::<L>(table.shape(), key) else {
            return false;
        };
        table.mark(&mut self.seated.seat, key, name);
        self.hand = Hand::Leaving(name.slot_ref());
        true
    }

    // Gives back the count on the slot that it leaves.
    fn drop_count(&mut self, table: &HeapTable<L>) -> bool
        requires { IsBusy L.layout table.now self.old.seated.seat self.old.seated.held.items self.old.seated.named
            self.old.hand self.old.seated.number }
        ensures busy { IsBusy L.layout table.now self.new.seated.seat self.new.seated.held.items self.new.seated.named
            self.new.hand self.new.seated.number }
        ensures acts { Acts L.layout action.Drop self.old.seated.seat.me.0 result self.new.seated.seat.me.0 }
    {
        let Hand::Leaving(slot_ref) = self.hand else {
            return false;
        };
        let found = table.drop_count(&mut self.seated.seat, slot_ref);
        self.hand = after_drop(slot_ref, found);
        true
    }

    // Gives back the count of a hold on a key.
    fn drop_hold(&mut self, table: &HeapTable<L>, key: u64) -> bool
        requires { IsBusy L.layout table.now self.old.seated.seat self.old.seated.held.items self.old.seated.named
            self.old.hand self.old.seated.number }
        ensures busy { IsBusy L.layout table.now self.new.seated.seat self.new.seated.held.items self.new.seated.named
            self.new.hand self.new.seated.number }
        ensures acts { Acts L.layout (action.DropHold key) self.old.seated.seat.me.0 result self.new.seated.seat.me.0 }
    {
        let Hand::Idle = self.hand else {
            return false;
        };
        let Some(at) = find(self.seated.held.as_slice(), key) else {
            return false;
        };
        let Some(name) = place_of_key::<L>(table.shape(), key) else {
            return false;
        };
        let found = table.drop_hold(&mut self.seated.seat, key, name);
        self.seated.held.remove(at);
        self.hand = after_drop(name.slot_ref(), found);
        true
    }

    // Ends the generation of the slot.
    fn finish(&mut self, table: &HeapTable<L>) -> bool
        requires { IsBusy L.layout table.now self.old.seated.seat self.old.seated.held.items self.old.seated.named
            self.old.hand self.old.seated.number }
        ensures busy { IsBusy L.layout table.now self.new.seated.seat self.new.seated.held.items self.new.seated.named
            self.new.hand self.new.seated.number }
        ensures acts { Acts L.layout action.Finish self.old.seated.seat.me.0 result self.new.seated.seat.me.0 }
    {
        let Hand::Finishing(slot_ref, generation, _) = self.hand else {
            return false;
        };
        let found = table.finish(&mut self.seated.seat, slot_ref, generation);
        self.hand = if is_reusable_after(generation, gen_max::<L>(), found) {
            Hand::ToPut(slot_ref)
        } else {
            Hand::Idle
        };
        true
    }

    // Puts the slot in its hand.
    fn put(&mut self, table: &HeapTable<L>) -> bool
        requires { IsBusy L.layout table.now self.old.seated.seat self.old.seated.held.items self.old.seated.named
            self.old.hand self.old.seated.number }
        ensures busy { IsBusy L.layout table.now self.new.seated.seat self.new.seated.held.items self.new.seated.named
            self.new.hand self.new.seated.number }
        ensures acts { Acts L.layout action.Put self.old.seated.seat.me.0 result self.new.seated.seat.me.0 }
    {
        let Hand::ToPut(slot_ref) = self.hand else {
            return false;
        };
        let head = table.put(&mut self.seated.seat, slot_ref);
        self.hand = Hand::Tying(slot_ref, link_over(top_of(head)), is_armed(head));
        true
    }

    // Stores the link of the slot that it put.
    fn tie(&mut self, table: &HeapTable<L>) -> bool
        requires { IsBusy L.layout table.now self.old.seated.seat self.old.seated.held.items self.old.seated.named
            self.old.hand self.old.seated.number }
        ensures busy { IsBusy L.layout table.now self.new.seated.seat self.new.seated.held.items self.new.seated.named
            self.new.hand self.new.seated.number }
        ensures acts { Acts L.layout action.Tie self.old.seated.seat.me.0 result self.new.seated.seat.me.0 }
    {
        let Hand::Tying(slot_ref, link, armed) = self.hand else {
            return false;
        };
        table.tie(&mut self.seated.seat, slot_ref, link, armed);
        self.hand = if armed {
            Hand::Ringing(slot_ref.page)
        } else {
            Hand::Idle
        };
        true
    }

    // Puts the page on its shard's bell.
    fn ring(&mut self, table: &HeapTable<L>) -> bool
        requires { IsBusy L.layout table.now self.old.seated.seat self.old.seated.held.items self.old.seated.named
            self.old.hand self.old.seated.number }
        ensures busy { IsBusy L.layout table.now self.new.seated.seat self.new.seated.held.items self.new.seated.named
            self.new.hand self.new.seated.number }
        ensures acts { Acts L.layout action.Ring self.old.seated.seat.me.0 result self.new.seated.seat.me.0 }
    {
        let Hand::Ringing(page) = self.hand else {
            return false;
        };
        let next = table.ring(&mut self.seated.seat, page);
        self.hand = Hand::RingTying(page, link_over(next));
        true
    }

    // Stores the link of the page that it put.
    fn ring_tie(&mut self, table: &HeapTable<L>) -> bool
        requires { IsBusy L.layout table.now self.old.seated.seat self.old.seated.held.items self.old.seated.named
            self.old.hand self.old.seated.number }
        ensures busy { IsBusy L.layout table.now self.new.seated.seat self.new.seated.held.items self.new.seated.named
            self.new.hand self.new.seated.number }
        ensures acts { Acts L.layout action.RingTie self.old.seated.seat.me.0 result self.new.seated.seat.me.0 }
    {
        let Hand::RingTying(page, link) = self.hand else {
            return false;
        };
        table.ring_tie(&mut self.seated.seat, page, link);
        self.hand = Hand::Idle;
        true
    }

    /// Does the step of the action if it is one of these and its condition holds. Returns whether it did.
    pub(crate) fn act(&mut self, table: &HeapTable<L>, action: &Action) -> bool
        requires { IsBusy L.layout table.now self.old.seated.seat self.old.seated.held.items self.old.seated.named
            self.old.hand self.old.seated.number }
        ensures busy { IsBusy L.layout table.now self.new.seated.seat self.new.seated.held.items self.new.seated.named
            self.new.hand self.new.seated.number }
        ensures acts { Acts L.layout action.now self.old.seated.seat.me.0 result self.new.seated.seat.me.0 }
    {
        match action {
            Action::EnterGet(key) => self.enter_get(table, *key),
            Action::EnterRemove(key) => self.enter_remove(table, *key),
            Action::Mark => self.mark(table),
            Action::Drop => self.drop_count(table),
            Action::DropHold(key) => self.drop_hold(table, *key),
            Action::Finish => self.finish(table),
            Action::Put => self.put(table),
            Action::Tie => self.tie(table),
            Action::Ring => self.ring(table),
            Action::RingTie => self.ring_tie(table),
            // Of the other forms one, `PutSlot`, is of these kinds, and takes a slot that only an owner has.
            _ => false,
        }
    }
}
