//! Peeking: a load of a slot's state word, as a step of its own, says which key of the slot is live. A walk over the
//! places of a heap begins with one at each place.
ghost use Rattle.std.specs.Prelude.{◌≡◌, ◌*◌, ◌<◌, None};
ghost use Rattle.sh_shape.specs.Places.{all_pages, slot_places};
ghost use Rattle.sh_slots.specs.declared.hand.Hand.TheVariants.{Idle};
ghost use Rattle.sh_slots.specs.Slots.{name_at};
ghost use Rattle.sh_step.specs.Conditions.{slot_name};
ghost use Rattle.sh_step.specs.Plans.{plan_of};
ghost use Rattle.sh_table.specs.Seats.{IsSeat};
ghost use Rattle.sh_pass.specs.Owners.{CallLeaves, own_body};
ghost use Rattle.sh_pass.specs.Passes.{GlanceDoes, caller_of};
ghost use Rattle.sh_pass.specs.Peeks.{IsKeyNamed, PeekDoes, SaysLive, slot_at};
ghost use Rattle.sh_pass.specs.Remaining.{Remains};
ghost use Rattle.sh_pass.specs.Rooms.{becomes};

use crate::calls::look_key;
use crate::keeping::KeepsHeap;
use crate::looking::Glance;
use crate::owner::OwnerOn;
use crate::pass::PassOn;
use sh_bell::{local_of, shard_of_page};
use sh_key::{KeyLayout, Parts};
use sh_shape::{SLOT_PLACES, Shape};
use sh_slots::SlotRef;
use sh_step::SlotName;
use sh_table::{HeapTable, PassSeat};
use sh_value::{Refusal, Value};
use sh_word::State;

/// How many places a heap has: 48 for each page, in the order of its pages, those of one shard side by side.
pub fn heap_places(shape: &Shape) -> u64
    ensures { result ≡ all_pages shape.now * slot_places }
{
    u64::from(shape.shards()) * u64::from(shape.pages()) * u64::from(SLOT_PLACES)
}

// The slot at a place: 48 are on each page.
fn slot_of_place(place: u64) -> SlotRef
    ensures { result ≡ slot_at place }
{
    SlotRef {
        page: place / u64::from(SLOT_PLACES),
        slot: place % u64::from(SLOT_PLACES),
    }
}

// The name of a slot of the heap.
#[tactic(auto, unfolding(sh_step::specs::Plans::shard_of, sh_step::specs::Plans::local))]
fn name_of_slot<L: KeyLayout>(shape: &Shape, slot_ref: SlotRef) -> SlotName
    ensures { result ≡ slot_name (plan_of L.layout shape.now) slot_ref }
{
    let pages = u64::from(shape.pages());
    SlotName {
        shard: shard_of_page(pages, slot_ref.page),
        page: local_of(pages, slot_ref.page),
        slot: slot_ref.slot,
    }
}

/// The key of this slot and generation, if the layout has it.
pub(crate) fn key_in<L: KeyLayout>(shape: &Shape, slot_ref: SlotRef, generation: u32) -> Option<u64>
    requires page { slot_ref.page < all_pages shape.now }
    requires slot { slot_ref.slot < slot_places }
    ensures { IsKeyNamed L.layout shape.now (name_at slot_ref generation) result }
{
    let pages = u64::from(shape.pages());
    let parts = Parts {
        generation,
        shard: shard_of_page(pages, slot_ref.page) as u32,
        page: local_of(pages, slot_ref.page) as u32,
        slot: slot_ref.slot as u32,
    };
    if L::in_range(parts) {
        Some(L::pack(parts))
    } else {
        None
    }
}

// The key that is live in the slot by its state word.
fn live_key<L: KeyLayout>(shape: &Shape, slot_ref: SlotRef, word: u64) -> Option<u64>
    requires page { slot_ref.page < all_pages shape.now }
    requires slot { slot_ref.slot < slot_places }
    ensures { SaysLive (plan_of L.layout shape.now) slot_ref word result }
{
    let state = State::of(word);
    if state.present && !state.marked {
        key_in::<L>(shape, slot_ref, state.generation)
    } else {
        None
    }
}

// The key that is live at a place at the step of this call, if any.
#[inline(always)]
fn peek_slot<L: KeyLayout>(table: &HeapTable<L>, seat: &mut PassSeat, place: u64) -> Option<u64>
    requires seat { IsSeat L.layout table.now seat.old }
    requires idle { seat.old.me.0.own.body.hand ≡ Idle }
    requires place { place < all_pages table.now.shape * slot_places }
    ensures seat { IsSeat L.layout table.now seat.new }
    ensures kept { seat.new.me.0.own.body.holds ≡ seat.old.me.0.own.body.holds }
    ensures does { PeekDoes L.layout place (caller_of seat.old) result (caller_of seat.new) }
    ensures leaves { CallLeaves L.layout None (caller_of seat.old) (caller_of seat.new) }
{
    let slot_ref = slot_of_place(place);
    let name = name_of_slot::<L>(table.shape(), slot_ref);
    let word = table.peek_state(seat, name, slot_ref);
    live_key::<L>(table.shape(), slot_ref, word)
}

impl<L: KeyLayout, H: KeepsHeap<L>> PassOn<L, H> {
    /// Looks at a key once: reads its value without a hold, if the key is live. If the look comes before the value was
    /// there, it decides nothing. Refused as `BadKey`. Only a value that is seen replaces the caller's.
    #[inline(always)]
    pub fn glance(&mut self, key: u64, value: &mut Value) -> Result<Glance, Refusal>
        ensures does { GlanceDoes becomes L.layout key self.old value.old result value.new self.new }
        ensures remains { Remains L.layout self.old self.new }
    {
        look_key(&self.heap.kept().table, &mut self.seated.seat, key, value)
    }

    /// The key that is live at a place of the heap, or `None` if none is: one load of the slot's state word, which is a
    /// step. Another pass may remove the key at once.
    #[inline(always)]
    pub fn peek_at(&mut self, place: u64) -> Option<u64>
        requires { place < all_pages self.old.heap.shape * slot_places }
        ensures does { PeekDoes L.layout place self.old result self.new }
        ensures remains { Remains L.layout self.old self.new }
    {
        peek_slot(&self.heap.kept().table, &mut self.seated.seat, place)
    }
}

impl<L: KeyLayout, H: KeepsHeap<L>> OwnerOn<L, H> {
    /// Looks at a key once, as a pass does.
    #[inline(always)]
    pub fn glance(&mut self, key: u64, value: &mut Value) -> Result<Glance, Refusal>
        requires idle { (own_body self.old).hand ≡ Idle }
        ensures does { GlanceDoes becomes L.layout key self.old value.old result value.new self.new }
        ensures leaves { CallLeaves L.layout None self.old self.new }
        ensures remains { Remains L.layout self.old self.new }
    {
        let heap = self.heap.kept();
        look_key(&heap.table, &mut self.seated.seat, key, value)
    }

    /// The key that is live at a place of the heap, as a pass finds it.
    #[inline(always)]
    pub fn peek_at(&mut self, place: u64) -> Option<u64>
        requires idle { (own_body self.old).hand ≡ Idle }
        requires place { place < all_pages self.old.heap.shape * slot_places }
        ensures does { PeekDoes L.layout place self.old result self.new }
        ensures leaves { CallLeaves L.layout None self.old self.new }
        ensures remains { Remains L.layout self.old self.new }
    {
        let heap = self.heap.kept();
        peek_slot(&heap.table, &mut self.seated.seat, place)
    }
}
