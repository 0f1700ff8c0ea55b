//! A script, read line by line, and its trace.
ghost use Rattle.std.specs.Prelude.{◌≡◌, ◌++◌, ℕ, List, Option, IfOk, IfSome};
ghost use Rattle.sh_script.specs.HeaderMeaning.{HasTag};
ghost use Rattle.script_output.specs.Keys.{HasTagRoom};
ghost use Rattle.script_show.specs.Sessions.{IsHeadedBy, DoesLine};

use crate::session::appended;
use crate::{Session, Told};
use script_output::ends::write_text;
use sh_key::{KeyLayout, Tagged, Tiny, Wide};
use sh_script::{Cause, Fault, Header, Layout, parse_events};
use std::alloc::Global;
use std::io::{BufRead, Write};

// A fault of a line, by the number that the line has in the whole script.
fn at(number: u64, fault: Fault) -> Fault {
    match fault {
        Fault::Script(_, cause) => Fault::Script(number, cause),
        other => other,
    }
}

// The next line, with its newline if it has one; the empty line at the end.
fn next_line<R: BufRead>(alloc: Global, input: &mut R) -> Result<Vec<u8>, Fault> {
    let mut line = Vec::new(alloc);
    match input.read_until(b'\n', &mut line) {
        Ok(_) => Ok(line),
        Err(_) => Err(Fault::Io),
    }
}

// Writes a line of the script again: one that says nothing as it is, and another after `> `.
fn echo<W: Write>(output: &mut W, line: &[u8], is_said: bool) -> Result<(), Fault> {
    if is_said {
        write_text(output, b"> ")?;
    }
    write_text(output, line)
}

// Whether a fault of a text of this number of lines is that its header is yet to come.
fn is_to_come(fault: Fault, lines: u64) -> bool {
    match fault {
        Fault::Script(line, Cause::Header) => line > lines,
        _ => false,
    }
}

// The header of a text of this number of lines, if it is a script of events up to it; none if the header is yet to
// come.
fn header_of(alloc: Global, lines: u64, text: &[u8]) -> Result<Option<Header>, Fault>
    ensures header { IfOk result (λ header. IfSome header (IsHeadedBy text.now)) }
    ensures tag { IfOk result (λ header. IfSome header (λ h. HasTag h.layout h.tag)) }
{
    let fault = match parse_events(alloc, text) {
        Ok(events) => return Ok(Some(events.header)),
        Err(fault) => fault,
    };
    if is_to_come(fault, lines) {
        Ok(None)
    } else {
        Err(fault)
    }
}

// The beginning of a script: its header, the lines up to it that say something, and the number of lines that were read.
struct Opening {
    header: Header,
    text: Vec<u8>,
    lines: u64,
}

// Whether a line says something.
fn says(line: &[u8]) -> bool {
    match line.iter().copied().find(|byte| *byte != b' ') {
        None | Some(b'\n') | Some(b';') => false,
        Some(_) => true,
    }
}

// Reads the lines up to the header, and writes them again. Lines that say nothing are not kept, so a script may begin
// with any number of them.
fn open<R: BufRead, W: Write>(
    alloc: Global,
    input: &mut R,
    output: &mut W,
) -> Result<Opening, Fault>
    ensures header { IfOk result (λ opening. IsHeadedBy opening.text.items opening.header) }
    ensures tag { IfOk result (λ opening. HasTag opening.header.layout opening.header.tag) }
{
    let mut kept = Vec::new(alloc);
    let mut count: u64 = 0;
    for number in 1..u64::MAX {
        let line = next_line(alloc, input)?;
        if line.is_empty() {
            return Err(Fault::Script(number, Cause::Header));
        }
        let Ok(text) = appended(alloc, kept.as_slice(), line.as_slice()) else {
            return Err(Fault::Memory);
        };
        let header = match header_of(alloc, count.saturating_add(1), text.as_slice()) {
            Ok(header) => header,
            Err(fault) => return Err(at(number, fault)),
        };
        let is_said = says(line.as_slice());
        echo(output, line.as_slice(), is_said)?;
        if let Some(header) = header {
            return Ok(Opening {
                header,
                text,
                lines: number,
            });
        }
        if is_said {
            kept = text;
            count = count.saturating_add(1);
        }
    }
    // (no input has this many lines)
    Err(Fault::Io)
}

// Writes the text on an event, and an empty line after it.
fn write_told<W: Write>(output: &mut W, told: &Told) -> Result<(), Fault> {
    let Some((_, line)) = told.line.as_slice().split_last() else {
        return Ok(());
    };
    write_text(output, line)?;
    if !told.remark.is_empty() {
        write_text(output, b": ")?;
        write_text(output, told.remark.as_bytes())?;
    }
    write_text(output, b"\n")?;
    write_text(output, told.shown.as_str().as_bytes())?;
    write_text(output, b"\n")
}

// Does a line, and writes the text on it.
fn do_line<L: KeyLayout, W: Write>(
    session: &mut Session<L>,
    alloc: Global,
    line: &[u8],
    output: &mut W,
) -> Result<(), Fault>
    requires room { HasTagRoom L.layout session.old.tag }
    ensures does { IfOk result (λ _. (told : Option (List ℕ)) × DoesLine L.layout session.old.tag
        (session.old.opening.items ++ line.now) session.old.world session.new.world told) }
    ensures tag { session.new.tag ≡ session.old.tag }
{
    match session.line(alloc, line)? {
        Some(told) => {
            echo(output, line, true)?;
            write_told(output, &told)
        }
        None => echo(output, line, false),
    }
}

// Does the lines after the header.
fn watch_lines<L: KeyLayout, R: BufRead, W: Write>(
    alloc: Global,
    opening: Opening,
    input: &mut R,
    output: &mut W,
) -> Result<(), Fault>
    requires room { HasTagRoom L.layout opening.header.tag }
{
    let Opening {
        header,
        text,
        lines,
    } = opening;
    let mut session = Session::<L>::new(alloc, header.shape, header.tag, text)?;
    for number in lines..u64::MAX {
        let line = next_line(alloc, input)?;
        if line.is_empty() {
            return Ok(());
        }
        if let Err(fault) = do_line(&mut session, alloc, line.as_slice(), output) {
            return Err(at(number.saturating_add(1), fault));
        }
    }
    // (no input has this many lines)
    Err(Fault::Io)
}

/// Does a script of events, one line after the other as `input` gives them, and writes its trace: each line again, and
/// after an event its effect. For the lines `heap tiny 1 1 2` and `0 Adopt 0` the trace is
///
/// ```text
/// > heap tiny 1 1 2
/// > 0 Adopt 0
/// 0 Adopt moved
///   shard 0: owner pass 0
///     bell: none
///     bell chain: none
///   pass 0: idle; owns shard 0
///
/// ```
///
/// The first line with a fault ends it, once all lines before it were done and written: `Script` with the line's
/// number, from 1, and the cause, or `BadShape`. It ends with `Memory` if memory is refused, and with `Io` if a read or
/// a write fails.
pub fn watch<R: BufRead, W: Write>(
    alloc: Global,
    input: &mut R,
    output: &mut W,
) -> Result<(), Fault> {
    let opening = open(alloc, input, output)?;
    match opening.header.layout {
        Layout::Tiny => watch_lines::<Tiny, R, W>(alloc, opening, input, output),
        Layout::Wide => watch_lines::<Wide, R, W>(alloc, opening, input, output),
        Layout::Tagged => watch_lines::<Tagged, R, W>(alloc, opening, input, output),
    }
}
