// What a pass and an owner have beside their heap.
use arrayvec::ArrayVec;
use sh_key::KeyLayout;
use sh_table::PassSeat;
use sh_value::HOLDS_MAX;
use std::marker::PhantomData;

/// The seat of a pass at the table of its heap, with what the pass keeps beside it. `PassOn`, `PassState`, `OwnerOn` and
/// `BusyOn` have one each, and their invariants say what holds of it.
#[derive(Drop)]
pub(crate) struct Seated<L: KeyLayout> {
    pub(crate) seat: PassSeat,
    // The keys that it holds, in any order.
    pub(crate) held: ArrayVec<u64, HOLDS_MAX>,
    // A bit for each pass that its tale names.
    pub(crate) named: u64,
    // Its own number.
    pub(crate) number: u32,
    pub(crate) layout: PhantomData<L>,
}
