//! A script, read and run line by line.
use crate::line::Trouble;
use crate::opening::{is_version, open};
use crate::session::Session;
use crate::shown::write_line;
use sh_script::words::words;
use sh_script::{Cause, Fault, LINE_BYTES_MAX};
use std::alloc::Global;
use std::io::{BufRead, ErrorKind, Write};

// How far a script has got.
#[derive(Drop)]
enum Progress {
    // Before the line `version 3`.
    Begun,
    // Before the header.
    Versioned,
    // The heap is open.
    Opened(Session),
}

fn fault_at(number: u64, trouble: Trouble) -> Fault {
    match trouble {
        Trouble::Memory => Fault::Memory,
        Trouble::BadShape => Fault::BadShape,
        Trouble::Io => Fault::Io,
        Trouble::Because(cause) => Fault::Script(number, cause),
    }
}

// Reads the next line with its newline. At the end it has no byte.
fn next_line<R: BufRead>(input: &mut R, line: &mut Vec<u8>) -> Result<(), Fault> {
    line.clear();
    match input.read_until(b'\n', line) {
        Ok(_) => Ok(()),
        Err(error) => match error.kind() {
            ErrorKind::OutOfMemory => Err(Fault::Memory),
            _ => Err(Fault::Io),
        },
    }
}

// The bytes of a line without its newline, if they may be a line.
fn text_of(line: &[u8]) -> Result<&[u8], Cause> {
    let Some((b'\n', text)) = line.split_last() else {
        return Err(Cause::Cut);
    };
    if text.len() > LINE_BYTES_MAX {
        return Err(Cause::Size);
    }
    if text.iter().all(|byte| 32 <= *byte && *byte <= 126) {
        Ok(text)
    } else {
        Err(Cause::Byte)
    }
}

// Whether a line says nothing, or what is said of it begins with `;`.
fn is_blank(words: &[&[u8]]) -> bool {
    match words.first() {
        Some(first) => first.first() == Some(&b';'),
        None => true,
    }
}

impl Progress {
    // Takes in a line that says something. What a call returned is written.
    fn take<W: Write>(
        self,
        alloc: Global,
        words: &[&[u8]],
        output: &mut W,
    ) -> Result<Progress, Trouble> {
        match self {
            Progress::Begun if is_version(words) => Ok(Progress::Versioned),
            Progress::Begun => Err(Trouble::Because(Cause::Header)),
            Progress::Versioned => Ok(Progress::Opened(Session::new(alloc, open(alloc, words)?))),
            Progress::Opened(session) => {
                let mut session = session;
                let answer = session.run(alloc, words)?;
                match write_line(output, words, &answer) {
                    Ok(()) => Ok(Progress::Opened(session)),
                    Err(_) => Err(Trouble::Io),
                }
            }
        }
    }
}

// Takes in the line of this number.
fn turn<W: Write>(
    progress: Progress,
    alloc: Global,
    line: &[u8],
    output: &mut W,
) -> Result<Progress, Trouble> {
    let text = text_of(line)?;
    let words = words(alloc, text)?;
    if is_blank(words.as_slice()) {
        return Ok(progress);
    }
    progress.take(alloc, words.as_slice(), output)
}

/// Runs a script to its end, or to the first line that has a fault. The answer to each call is written before the next
/// line is read.
pub fn run<R: BufRead, W: Write>(
    alloc: Global,
    input: &mut R,
    output: &mut W,
) -> Result<(), Fault> {
    let mut progress = Progress::Begun;
    let mut line = Vec::new(alloc);
    for number in 1..u64::MAX {
        next_line(input, &mut line)?;
        if line.is_empty() {
            return match progress {
                Progress::Opened(_) => Ok(()),
                _ => Err(Fault::Script(number, Cause::Header)),
            };
        }
        progress = match turn(progress, alloc, line.as_slice(), output) {
            Ok(progress) => progress,
            Err(trouble) => return Err(fault_at(number, trouble)),
        };
    }
    // (no input has 2^64 - 2 lines)
    Err(Fault::Io)
}
