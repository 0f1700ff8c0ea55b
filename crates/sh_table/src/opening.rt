//! The table's words as a heap opens.
ghost use Rattle.std.specs.Prelude.{◌≡◌, ◌^◌, ◌≤◌, IfOk, IfErr};
ghost use Rattle.sh_shape.specs.Shape.{IsShape};
ghost use Rattle.sh_shape.specs.Places.{all_pages, words_of};
ghost use Rattle.sh_core.specs.Kept.{RefusesToOpen};
ghost use Rattle.sh_table.specs.TableOpening.{opening_word, opening_words, OpensTableWith};

use crate::numbering::BODY_WORDS;
use sh_key::KeyLayout;
use sh_shape::{Shape, fits};
use sh_value::Refusal;
use std::alloc::{AllocError, Global};

// A state word says that the slot is empty, in its first generation.
const FIRST_GENERATION: u64 = 1 << 32;

// The word with this number of a table with this number of pages: each slot is empty, and every other word is 0.
fn word_at(pages: u32, number: u32) -> u64
    requires { pages ≤ 2 ^ 24 }
    ensures { result ≡ opening_word pages number }
{
    if number < BODY_WORDS * pages && number % BODY_WORDS < 48 {
        FIRST_GENERATION
    } else {
        0
    }
}

// The words of a table of this shape as it opens. All their memory is asked for at once.
#[tactic(auto, using(crate::proofs::TableOpeningWords::opening_words_by_number))]
fn words_of(alloc: Global, shape: &Shape) -> Result<Vec<u64>, AllocError>
    ensures words { IfOk result (λ words. words.items ≡ opening_words (all_pages shape.now) (words_of shape.now)) }
    ensures shape { IsShape shape.now }
{
    let pages = shape.shards() * shape.pages();
    let count = shape.words();
    let mut words = Vec::with_capacity(alloc, count as usize)?;
    for number in 0..count {
        words.push_reserved(word_at(pages, number));
    }
    Ok(words)
}

/// The words with which the table of a heap of this shape opens. Refused as `BadShape` if the shape does not fit the
/// layout, and as `Memory` if memory for the words is refused.
pub(crate) fn opening_of<L: KeyLayout>(alloc: Global, shape: &Shape) -> Result<Vec<u64>, Refusal>
    ensures opens { IfOk result (λ words. OpensTableWith L.layout shape.now words.items) }
    ensures refused { IfErr result (RefusesToOpen L.layout shape.now) }
{
    if !fits::<L>(shape) {
        return Err(Refusal::BadShape);
    }
    match words_of(alloc, shape) {
        Ok(words) => Ok(words),
        Err(_) => Err(Refusal::Memory),
    }
}
