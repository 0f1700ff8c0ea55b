//! Looking at a key: reading its value without a hold.
ghost use Rattle.std.specs.Prelude.{◌≡◌, ◌+◌, ◌<◌, ◌≤◌, Some, cond, ℕ};
ghost use Rattle.sh_slots.specs.declared.hand.Hand.TheVariants.{Idle};
ghost use Rattle.sh_slots.specs.Slots.{live_at, past_at};
ghost use Rattle.sh_step.specs.Moves.{place_named};
ghost use Rattle.sh_step.specs.Plans.{plan_of};
ghost use Rattle.sh_table.specs.Seats.{IsSeat};
ghost use Rattle.sh_table.specs.Views.{HeardOfInsert};
ghost use Rattle.sh_pass.specs.Deciding.{Stepped, LooksDecide};
ghost use Rattle.sh_pass.specs.Looking.{HasMeasured, LookEnds, LookGrows};
ghost use Rattle.sh_pass.specs.Rooms.{LookFills};

use crate::room::Room;
use sh_key::KeyLayout;
use sh_slots::{KeyRef, is_past_at};
use sh_step::operands::ONE_WORD;
use sh_table::{HeapTable, PassSeat, first_word};
use sh_value::WORDS_MAX;
use sh_word::COUNT_LIMIT;

/// How many words a look reads: as the length says that it found, but no more than a value has, and than the page has
/// from the first word on. (The length may be of another value than the class.)
pub(crate) fn words_to_read(first: u64, count: u64) -> u64
    ensures counted { result ≤ count }
    ensures few { result ≤ 16 }
    ensures inside { (i : ℕ) → i < result → first + i < 48 }
    ensures all { result < count → result < 16 → 48 ≤ first + result }
{
    count.min(16).min(48u64.saturating_sub(first))
}

/// What a look at a key found.
#[derive(Clone, Copy, Debug, PartialEq, Eq)]
pub enum Glance {
    /// The key's value, which was read.
    Seen,
    /// That the key was removed.
    Gone,
    /// The slot as it was before the key's value was there, which decides nothing.
    Early,
}

// Whether the slot has a live value of this generation, by one comparison: the bits above its count are the generation,
// not marked, present.
#[inline(always)]
fn is_live(generation: u32, found: u64) -> bool
    ensures { result ≡ live_at generation found }
{
    found / u64::from(COUNT_LIMIT) == u64::from(generation) * 4 + 1
}

// What a look is by a first word that is not live.
fn off_live(generation: u32, found: u64) -> Glance
    ensures { result ≡ cond (past_at generation found) Glance.Gone Glance.Early }
{
    if is_past_at(generation, found) {
        Glance::Gone
    } else {
        Glance::Early
    }
}

// Ends a look by the word of its value, which is the only one.
#[inline(always)]
fn look_at_word<L: KeyLayout, M: Room>(
    table: &HeapTable<L>,
    seat: &mut PassSeat,
    key: u64,
    name: KeyRef,
    room: &mut M,
) -> Glance
    requires seat { IsSeat L.layout table.now seat.old }
    requires slot { name.slot < 48 }
    requires looking { HasMeasured key name 1 1 seat.old.me.0 }
    ensures seat { IsSeat L.layout table.now seat.new }
    ensures does { LookFills M.takes (λ value. LookEnds key name 1 1 result value seat.old.me.0 seat.new.me.0)
        result room.old room.new }
{
    let word = table.look_only_word(seat, key, name, first_word(name.slot, ONE_WORD));
    let state = table.look_again(seat, key, name, ONE_WORD, 1, &[word]);
    if !is_live(name.generation, state) {
        return Glance::Gone;
    }
    room.put_word(word);
    Glance::Seen
}

// Ends a look by the words of its value, as many as the page has from the first one on. (It is a function of its own,
// so that a look at a value of one word clears no room for more.)
#[inline(never)]
fn look_at_words<L: KeyLayout, M: Room>(
    table: &HeapTable<L>,
    seat: &mut PassSeat,
    key: u64,
    name: KeyRef,
    class_word: u64,
    count: u64,
    room: &mut M,
) -> Glance
    requires seat { IsSeat L.layout table.now seat.old }
    requires slot { name.slot < 48 }
    requires looking { HasMeasured key name class_word count seat.old.me.0 }
    ensures seat { IsSeat L.layout table.now seat.new }
    ensures does { LookFills M.takes (λ value. LookEnds key name class_word count result value seat.old.me.0
        seat.new.me.0) result room.old room.new }
{
    let mut words = [0; WORDS_MAX];
    let first = first_word(name.slot, class_word);
    let many = words_to_read(first, count) as usize;
    for i in 0..many {
        let word = table.look_word(seat, key, name, class_word, count, &words[..i], first);
        words[i] = word;
    }
    let seen = &words[..many];
    let after = table.look_again(seat, key, name, class_word, count, seen);
    if !is_live(name.generation, after) {
        return Glance::Gone;
    }
    room.put(seen);
    Glance::Seen
}

/// Looks at a key. A value that it sees is put into the caller's room, which otherwise stays as it was.
#[inline(always)]
pub(crate) fn look_at<L: KeyLayout, M: Room>(
    table: &HeapTable<L>,
    seat: &mut PassSeat,
    key: u64,
    name: KeyRef,
    room: &mut M,
) -> Glance
    requires seat { IsSeat L.layout table.now seat.old }
    requires idle { seat.old.me.0.own.body.hand ≡ Idle }
    requires name { place_named (plan_of L.layout seat.old.me.0.shape) key ≡ Some name }
    ensures seat { IsSeat L.layout table.now seat.new }
    ensures grows { LookFills M.takes (λ value. LookGrows key result value seat.old.me.0 seat.new.me.0) result room.old
        room.new }
    ensures decides { Stepped (LooksDecide key name result) seat.old.me.0 seat.new.me.0 }
    ensures unheard { result ≡ Glance.Early → ¬ HeardOfInsert seat.old.me.0 key }
{
    let before = table.look_first(seat, key, name);
    if !is_live(name.generation, before) {
        return off_live(name.generation, before);
    }
    let class_word = table.look_class(seat, key, name);
    let count = table.look_length(seat, key, name, class_word);
    // (Tests alone find a value of one word: the processor guesses how they end, and fetches the word meanwhile.)
    if class_word == ONE_WORD && count == 1 {
        look_at_word(table, seat, key, name, room)
    } else {
        look_at_words(table, seat, key, name, class_word, count, room)
    }
}
