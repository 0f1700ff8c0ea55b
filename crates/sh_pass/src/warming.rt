//! The memory of a key is asked for before a call needs it.
use sh_key::KeyLayout;
use sh_shape::Place;
use sh_step::operands::place_of_key;
use sh_table::HeapTable;

// Loads the state word of the key's slot and drops it. A number that is no key of the heap loads nothing.
#[inline(always)]
pub(crate) fn warm_key<L: KeyLayout>(table: &HeapTable<L>, key: u64) {
    if let Some(name) = place_of_key::<L>(table.shape(), key) {
        table.warm(Place::State(name.page, name.slot));
    }
}

// The same, and the words that a read of a value of one word needs besides: the page's class, the length, and the
// payload. A longer value has its first word elsewhere in the page, and its page's class and its length are loaded as
// well.
#[inline(always)]
pub(crate) fn warm_value_of<L: KeyLayout>(table: &HeapTable<L>, key: u64) {
    if let Some(name) = place_of_key::<L>(table.shape(), key) {
        table.warm(Place::State(name.page, name.slot));
        table.warm(Place::Class(name.page));
        table.warm(Place::Length(name.page, name.slot));
        table.warm(Place::Payload(name.page, name.slot));
    }
}
