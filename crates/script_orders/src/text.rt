//! The lines of a script as they are written.
use std::alloc::{AllocError, Global};

// Whether a byte is a space.
fn is_space(byte: u8) -> bool {
    byte == b' '
}

// The bytes without the spaces before and behind them.
fn trimmed(line: &[u8]) -> &[u8] {
    let mut rest = line;
    while let [first, tail @ ..] = rest {
        if !is_space(*first) {
            break;
        }
        rest = tail;
    }
    while let [head @ .., last] = rest {
        if !is_space(*last) {
            break;
        }
        rest = head;
    }
    rest
}

// Whether the line says something: it has a word, and the first one does not begin with `;`.
fn says(line: &[u8]) -> bool {
    match line.first() {
        None | Some(b';') => false,
        Some(_) => true,
    }
}

/// The comment behind which the lines are done in every order.
pub const EXPLORE: &[u8] = b"; explore";

/// The lines of a script that say something.
#[derive(Drop)]
pub struct Lines<'t> {
    /// The lines, without the spaces before and behind them.
    pub said: Vec<&'t [u8]>,
    /// How many of them are before the first comment `; explore`; 0 if there is no such comment.
    pub before: usize,
}

/// The lines of a text.
pub fn lines_of(alloc: Global, text: &[u8]) -> Result<Lines<'_>, AllocError> {
    let mut said = Vec::new(alloc);
    let mut before = None;
    for line in text.split(|byte| *byte == b'\n') {
        let line = trimmed(line);
        if says(line) {
            said.push(line)?;
        } else if line == EXPLORE && before.is_none() {
            before = Some(said.len());
        }
    }
    Ok(Lines {
        said,
        before: before.unwrap_or(0),
    })
}
