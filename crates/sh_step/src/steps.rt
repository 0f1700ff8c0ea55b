//! The steps of moves: the word that each touches, and what it does there.
ghost use Rattle.std.specs.Prelude.{◌≡◌, ◌^◌, ◌<◌};
ghost use Rattle.sh_slots.specs.Slots.{marked_word, finished_word};
ghost use Rattle.sh_shape.specs.Places.{IsPlace};
ghost use Rattle.sh_step.specs.Operations.{StoresWord};
ghost use Rattle.sh_step.specs.Plans.{plan_of};
ghost use Rattle.sh_step.specs.Moves.{step_at};
ghost use Rattle.sh_step.specs.Rows.{look_place};

use crate::operands::{bell_of, bell_word, gen_max, payload_word, put_word, word_of_value};
use crate::{Move, Operation, Step};
use sh_bell::ARMED;
use sh_key::KeyLayout;
use sh_shape::{Place, Shape};
use sh_slots::{KeyRef, Sight, finished_word, marked_word};
use sh_word::{MARK_BIT, PRESENT_BIT};

// The operation that ends the generation, if no pass is on the slot.
fn end_of_generation<L: KeyLayout>(shape: &Shape, generation: u32) -> Operation
    requires { finished_word generation (plan_of L.layout shape.now).keys.gen_max < 2 ^ 64 }
    ensures { result ≡ Operation.CompareExchange (marked_word generation)
        (finished_word generation (plan_of L.layout shape.now).keys.gen_max) }
{
    Operation::CompareExchange(
        marked_word(generation),
        finished_word(generation, gen_max::<L>()),
    )
}

// The place of the word that comes next for a reader that has no count on the slot, and has read so much of its value.
fn next_place(_shape: &Shape, name: KeyRef, sight: &Sight) -> Place
    requires { IsPlace _shape.now (look_place name sight.now) }
    ensures { result ≡ look_place name sight.now }
{
    match sight {
        Sight::Bare => Place::Class(name.page),
        Sight::Classed(_) => Place::Length(name.page, name.slot),
        Sight::Measured(class, _, value) => {
            let i = value.words().len() as u64;
            Place::Payload(name.page, payload_word(name.slot, *class, i))
        }
    }
}

impl Move {
    // The place of the word that it touches.
    fn place<L: KeyLayout>(&self, shape: &Shape) -> Place
        requires { IsPlace shape.now (step_at (plan_of L.layout shape.now) self.now).place }
        ensures { result ≡ (step_at (plan_of L.layout shape.now) self.now).place }
    {
        match self {
            Move::EnterGet(_, name)
            | Move::EnterRemove(_, name)
            | Move::Mark(_, name)
            | Move::Look(_, name)
            | Move::LookAgain(_, name, _)
            | Move::DropHold(_, name) => Place::State(name.page, name.slot),
            Move::Drop(slot_ref)
            | Move::Finish(slot_ref, _)
            | Move::Peek(slot_ref)
            | Move::Publish(slot_ref, _) => { Place::State(slot_ref.page, slot_ref.slot) }
            Move::FillSlot(slot_ref, _) => Place::Length(slot_ref.page, slot_ref.slot),
            Move::Fill(slot_ref, _, i, class) => {
                Place::Payload(slot_ref.page, payload_word(slot_ref.slot, *class, *i))
            }
            Move::ReadClass(_, name) => Place::Class(name.page),
            Move::ReadLength(_, name) => Place::Length(name.page, name.slot),
            Move::ReadWord(_, name, class, i) => {
                Place::Payload(name.page, payload_word(name.slot, *class, *i))
            }
            Move::LookOn(_, name, sight) => next_place(shape, *name, sight),
            Move::ReadEnding(slot_ref, generation, sight) => {
                next_place(shape, slot_ref.name(*generation), sight)
            }
            Move::ReadPage(page) | Move::SetClass(page, _) => Place::Class(*page),
            Move::Take(page) | Move::Arm(page) => Place::Head(*page),
            Move::Follow(page, slot) => Place::Link(*page, *slot),
            Move::Put(slot_ref) | Move::PutSlot(slot_ref) => Place::Head(slot_ref.page),
            Move::Tie(slot_ref, _, _) => Place::Link(slot_ref.page, slot_ref.slot),
            Move::Adopt(shard) | Move::Leave(shard) => Place::Owner(*shard),
            Move::Ring(page) => bell_of::<L>(shape, *page),
            Move::RingTie(page, _) | Move::FollowBell(page) => Place::PageLink(*page),
            Move::TakeBell(shard) => Place::Bell(*shard),
        }
    }

    // What it does there.
    fn operation<L: KeyLayout>(&self, shape: &Shape) -> Operation
        requires { StoresWord (step_at (plan_of L.layout shape.now) self.now).operation }
        ensures { result ≡ (step_at (plan_of L.layout shape.now) self.now).operation }
    {
        match self {
            Move::EnterGet(_, _) | Move::EnterRemove(_, _) => Operation::FetchAdd(1),
            Move::Mark(_, _) => Operation::FetchOr(MARK_BIT),
            Move::Drop(_) | Move::DropHold(_, _) => Operation::FetchSub(1),
            Move::Finish(_, generation) => end_of_generation::<L>(shape, *generation),
            Move::FillSlot(_, value) => Operation::Store(value.words().len() as u64),
            Move::Fill(_, value, i, _) => Operation::Store(word_of_value(value, *i)),
            Move::Publish(_, _) => Operation::FetchOr(PRESENT_BIT),
            Move::ReadClass(_, _)
            | Move::ReadLength(_, _)
            | Move::ReadWord(_, _, _, _)
            | Move::ReadEnding(_, _, _)
            | Move::Peek(_)
            | Move::Look(_, _)
            | Move::LookOn(_, _, _)
            | Move::LookAgain(_, _, _)
            | Move::ReadPage(_) => Operation::Load,
            Move::SetClass(_, class) => Operation::Store(u64::from(*class) + 1),
            Move::Take(_) | Move::Follow(_, _) | Move::TakeBell(_) | Move::FollowBell(_) => {
                Operation::Swap(0)
            }
            Move::Put(slot_ref) | Move::PutSlot(slot_ref) => Operation::Swap(put_word(
                slot_ref.slot,
            )),
            Move::Tie(_, link, _) => Operation::Store(*link),
            Move::Adopt(_) => Operation::Swap(1),
            Move::Leave(_) => Operation::Store(0),
            Move::Arm(_) => Operation::Swap(ARMED),
            Move::Ring(page) => Operation::Swap(bell_word::<L>(shape, *page)),
            Move::RingTie(_, link) => Operation::Store(*link),
        }
    }

    /// The place of the one word that it touches, and what it does there: those of its row of the table, whatever the
    /// part. The place is one of the shape, and what a swap or an exchange stores fits a word.
    pub fn step<L: KeyLayout>(&self, shape: &Shape) -> Step
        requires place { IsPlace shape.now (step_at (plan_of L.layout shape.now) self.now).place }
        requires stores { StoresWord (step_at (plan_of L.layout shape.now) self.now).operation }
        ensures { result ≡ step_at (plan_of L.layout shape.now) self.now }
    {
        Step {
            place: self.place::<L>(shape),
            operation: self.operation::<L>(shape),
        }
    }
}
