//! The words and numbers of steps. They follow from the shape, the layout and what a move names, and from no part.
ghost use Rattle.std.specs.Prelude.{◌≡◌, ◌-◌, ◌^◌, ◌<◌, ◌≤◌, ℕ, slice_index};
ghost use Rattle.sh_shape.specs.Classes.{width, slots};
ghost use Rattle.sh_shape.specs.Places.{slot_places, payload_words};
ghost use Rattle.sh_stack.specs.Stack.{top_word};
ghost use Rattle.sh_bell.specs.Bell.{head_word};
ghost use Rattle.sh_step.specs.Plans.{keys_of, plan_of, shard_of, local};
ghost use Rattle.sh_step.specs.Rows.{payload_word, is_read};

pub use crate::names::{key_of_name, page_of_name, place_of_key, slot_of_name};
use sh_bell::{head_word, local_of, shard_of_page};
use sh_key::KeyLayout;
use sh_shape::{CLASS_COUNT, Place, Shape, classes};
use sh_slots::{KeyRef, Sight};
use sh_stack::top_word;
use sh_value::Value;

/// The class word of the pages whose slots have one word each.
pub const ONE_WORD: u64 = 1;

/// How many words a slot of a page of this class word has; 0 if the number is no class word.
pub fn width_of_word(class_word: u64) -> u64
    ensures is { result ≡ width (class_word - 1) }
    ensures few { result ≤ 16 }
{
    let class = class_word.saturating_sub(1);
    if class < CLASS_COUNT {
        u64::from(classes::width(class as u32))
    } else {
        0
    }
}

/// How many slots a page of this class word has; 0 if the number is no class word.
pub fn slots_of_word(class_word: u64) -> u64
    ensures is { result ≡ slots (class_word - 1) }
    ensures few { result ≤ slot_places }
{
    let class = class_word.saturating_sub(1);
    if class < CLASS_COUNT {
        u64::from(classes::slots(class as u32))
    } else {
        0
    }
}

/// The payload word of this number, from 0, of a slot of a page of this class word. The page has it.
pub fn payload_word(slot: u64, class_word: u64, i: u64) -> u64
    requires { payload_word slot class_word i < payload_words }
    ensures { result ≡ payload_word slot class_word i }
{
    // (Values of one word are a case of their own, so their place does not wait for a load of the class word. The
    // processor predicts the branch, and fetches the word meanwhile.)
    if class_word == ONE_WORD {
        return slot + i;
    }
    slot * width_of_word(class_word) + i
}

/// Whether a look that has read so much has read all that there is. It has also if the next word is none of the page,
/// as a length says that is of another value than the class word.
pub fn is_read(name: KeyRef, sight: &Sight) -> bool
    ensures { result ≡ is_read name sight.now }
{
    match sight {
        Sight::Measured(class, length, value) => {
            let i = value.words().len() as u64;
            let first = u128::from(name.slot) * u128::from(width_of_word(*class));
            !(i < *length && i < 16 && first + u128::from(i) < 48)
        }
        _ => false,
    }
}

/// The value's word of this number, from 0.
pub fn word_of_value(value: &Value, i: u64) -> u64
    ensures { result ≡ slice_index value.now i }
{
    match value.words().get(i as usize) {
        Some(word) => *word,
        None => 0,
    }
}

/// The word that puts the slot on its page's stack.
pub fn put_word(slot: u64) -> u64
    requires { head_word (top_word slot) < 2 ^ 64 }
    ensures { result ≡ head_word (top_word slot) }
{
    head_word(top_word(slot))
}

/// The bell of the page's shard.
#[tactic(auto, unfolding(crate::specs::Plans::shard_of))]
pub fn bell_of<L: KeyLayout>(shape: &Shape, page: u64) -> Place
    ensures { result ≡ Place.Bell (shard_of (plan_of L.layout shape.now) page) }
{
    Place::Bell(shard_of_page(u64::from(shape.pages()), page))
}

/// The word that puts the page on its shard's bell.
#[tactic(auto, unfolding(crate::specs::Plans::local))]
pub fn bell_word<L: KeyLayout>(shape: &Shape, page: u64) -> u64
    ensures { result ≡ top_word (local (plan_of L.layout shape.now) page) }
{
    top_word(local_of(u64::from(shape.pages()), page))
}

/// The last generation of a slot.
#[tactic(auto, unfolding(crate::specs::Plans::keys_of))]
pub fn gen_max<L: KeyLayout>() -> u32
    ensures { (shards pages : ℕ) → result ≡ (keys_of L.layout shards pages).gen_max }
{
    L::GEN_MAX
}

/// How many holds a key may have.
#[tactic(auto, unfolding(crate::specs::Plans::keys_of))]
pub fn guard_max<L: KeyLayout>() -> u32
    ensures { (shards pages : ℕ) → result ≡ (keys_of L.layout shards pages).guard_max }
{
    L::GUARD_MAX
}
