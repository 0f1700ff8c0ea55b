//! The text of a state.
use crate::moment::Moment;
use crate::program::Program;
use sh_history::Entry;
use sh_shape::{PAGE_WORDS, SLOT_PLACES};
use sh_slots::SlotRef;
use sh_step::Part;
use std::alloc::{AllocError, Global};
use std::fmt::Write;

// The class word of a page without a class, which is its first word.
const BLANK: u64 = 0;

// Writes the words that differ from those of the heap as it opened.
fn tell_words(text: &mut String, words: &[u64], opening: &[u64]) -> Result<(), AllocError> {
    for (number, (word, first)) in words.iter().zip(opening).enumerate() {
        if word != first {
            write!(text, " {number}: {word}")?;
        }
    }
    Ok(())
}

// Writes what a part has of a page.
fn tell_page(text: &mut String, part: &Part, page: u64) -> Result<(), AllocError> {
    let class = part.class_noted(page);
    let cursor = part.cursor(page);
    let armed = part.has_armed(page);
    write!(text, " page {page} {class:?} {cursor:?} {armed} mine")?;
    for slot in 0..u64::from(SLOT_PLACES) {
        if part.has_mine(SlotRef { page, slot }) {
            write!(text, " {slot}")?;
        }
    }
    Ok(())
}

// Writes what a part has of a key.
fn tell_key(text: &mut String, part: &Part, key: u64) -> Result<(), AllocError> {
    let held = part.has_hold(key);
    let class_word = part.class_word_of(key);
    let length = part.length_of(key);
    write!(text, " key {key} {held} {class_word:?} {length:?}")
}

// Writes what a part has, of the pages with a class and of the keys in the log.
fn tell_part(
    text: &mut String,
    part: &Part,
    words: &[u64],
    log: &[Entry],
) -> Result<(), AllocError> {
    let hand = part.hand();
    let owned = part.owned();
    let bell = part.bell_cursor();
    let holds = part.hold_count();
    write!(text, "\n{hand:?} {owned:?} {bell:?} {holds}")?;
    for (page, words) in words.chunks_exact(PAGE_WORDS as usize).enumerate() {
        if words.first() != Some(&BLANK) {
            tell_page(text, part, page as u64)?;
        }
    }
    for entry in log {
        if let Entry::Insert(_, key, _) = entry {
            tell_key(text, part, *key)?;
        }
    }
    Ok(())
}

/// The text of all that a later step or check reads of a state: the next event of each pass, the words, what the parts
/// have, and the whole log. So two states with one text have the same further steps and the same ends. The text leaves
/// out the order in the lists of a part and the words of a value that it read: no condition reads them.
pub fn told(
    alloc: Global,
    program: &Program,
    opening: &[u64],
    moment: &Moment,
) -> Result<String, AllocError> {
    let world = &moment.world;
    let mut text = String::new(alloc);
    for pass in 0..program.shape.passes() {
        let next = moment.next(program, pass);
        write!(text, "{next:?} ")?;
    }
    tell_words(&mut text, world.words(), opening)?;
    for part in world.parts() {
        tell_part(&mut text, part, world.words(), world.log())?;
    }
    let log = world.log();
    write!(text, "\n{log:?}")?;
    Ok(text)
}
