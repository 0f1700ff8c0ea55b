//! Actions that may be done.
ghost use Rattle.std.specs.Prelude.{◌≡◌};
ghost use Rattle.sh_step.specs.Plans.{plan_of, Plan};
ghost use Rattle.sh_step.specs.Moves.{move_of, is_enabled};

use crate::{Action, Part, in_hand, keyed, owners, paged, slotted};
use sh_key::KeyLayout;
use sh_shape::Shape;
use sh_slots::{KeyRef, Sight, SlotRef};
use sh_value::Value;

/// An action whose condition holds of the pass's own part, with what it names looked up. Pages are numbered over the
/// whole heap.
#[derive(Drop)]
pub enum Move {
    /// Enters the slot of the key, to get it.
    EnterGet(u64, KeyRef),
    /// Enters the slot of the key, to remove it.
    EnterRemove(u64, KeyRef),
    /// Marks the slot of the key.
    Mark(u64, KeyRef),
    /// Gives back the count on the slot that it leaves.
    Drop(SlotRef),
    /// Gives back the count of a hold on the key.
    DropHold(u64, KeyRef),
    /// Loads what comes next of the slot's value of this generation, of which so much was read.
    ReadEnding(SlotRef, u32, Sight),
    /// Ends the generation of the slot.
    Finish(SlotRef, u32),
    /// Stores the length of the value, as it begins to fill the slot.
    FillSlot(SlotRef, Value),
    /// Stores the value's word of this number, from 0, in a page of this class word.
    Fill(SlotRef, Value, u64, u64),
    /// Makes the filled slot present.
    Publish(SlotRef, Value),
    /// Reads the class of the key's page.
    ReadClass(u64, KeyRef),
    /// Reads the length of the key's value.
    ReadLength(u64, KeyRef),
    /// Reads, in a page of this class word, the value's word of this number, from 0.
    ReadWord(u64, KeyRef, u64, u64),
    /// Loads the state of the slot.
    Peek(SlotRef),
    /// Begins to look at the slot of the key.
    Look(u64, KeyRef),
    /// Loads what comes next of the key, of which so much was read.
    LookOn(u64, KeyRef, Sight),
    /// Loads the state of the key's slot again. So much was read.
    LookAgain(u64, KeyRef, Sight),
    /// Reads the class of the page.
    ReadPage(u64),
    /// Gives the page the class, below 8.
    SetClass(u64, u32),
    /// Takes what was put on the page.
    Take(u64),
    /// Reads the link of the page's slot.
    Follow(u64, u64),
    /// Puts the slot in its hand.
    Put(SlotRef),
    /// Puts a slot of its own.
    PutSlot(SlotRef),
    /// Stores the link of the slot, which is the second field. The third is whether the slot's put found the page's
    /// flag.
    Tie(SlotRef, u64, bool),
    /// Becomes the owner of the shard.
    Adopt(u64),
    /// Gives the shard up.
    Leave(u64),
    /// Asks for a ring at the next put on the page.
    Arm(u64),
    /// Puts the page on its shard's bell.
    Ring(u64),
    /// Stores the link of the page.
    RingTie(u64, u64),
    /// Takes what was put on the shard's bell.
    TakeBell(u64),
    /// Reads the link of the page.
    FollowBell(u64),
}

impl Move {
    /// The move of an action by a pass with this part, if the action's condition holds.
    pub fn of<L: KeyLayout>(shape: &Shape, part: &Part, action: &Action) -> Option<Move>
        ensures { result ≡ move_of (plan_of L.layout shape.now) part.now action.now }
    {
        match action {
            Action::EnterGet(key) => keyed::enter_get::<L>(shape, part, *key),
            Action::EnterRemove(key) => keyed::enter_remove::<L>(shape, part, *key),
            Action::Mark => keyed::mark::<L>(shape, part),
            Action::Drop => in_hand::drop_hand(part),
            Action::DropHold(key) => keyed::drop_hold::<L>(shape, part, *key),
            Action::ReadEnding => in_hand::read_ending(part),
            Action::Finish => in_hand::finish(part),
            Action::FillSlot(name, value) => slotted::fill_slot::<L>(shape, part, *name, value),
            Action::Fill => in_hand::fill(part),
            Action::Publish => in_hand::publish(part),
            Action::ReadClass(key) => keyed::read_class::<L>(shape, part, *key),
            Action::ReadLength(key) => keyed::read_length::<L>(shape, part, *key),
            Action::ReadWord(key, i) => keyed::read_word::<L>(shape, part, *key, *i),
            Action::Peek(name) => slotted::peek::<L>(shape, part, *name),
            Action::Look(key) => keyed::look::<L>(shape, part, *key),
            Action::LookOn => in_hand::look_on(part),
            Action::LookAgain => in_hand::look_again(part),
            Action::ReadPage(name) => paged::read_page::<L>(shape, part, *name),
            Action::SetClass(name, class) => paged::set_class::<L>(shape, part, *name, *class),
            Action::Take(name) => paged::take::<L>(shape, part, *name),
            Action::Follow(name) => paged::follow::<L>(shape, part, *name),
            Action::Put => in_hand::put(part),
            Action::PutSlot(name) => slotted::put_slot::<L>(shape, part, *name),
            Action::Tie => in_hand::tie(part),
            Action::Adopt(shard) => owners::adopt::<L>(shape, part, *shard),
            Action::Leave => owners::leave(part),
            Action::Arm(name) => paged::arm::<L>(shape, part, *name),
            Action::Ring => in_hand::ring(part),
            Action::RingTie => in_hand::ring_tie(part),
            Action::TakeBell => owners::take_bell(part),
            Action::FollowBell => owners::follow_bell(part),
        }
    }
}

/// Whether a pass with this part may do the action: the action's condition holds.
pub fn enabled<L: KeyLayout>(shape: &Shape, part: &Part, action: &Action) -> bool
    ensures { result ≡ is_enabled (plan_of L.layout shape.now) part.now action.now }
{
    Move::of::<L>(shape, part, action).is_some()
}
