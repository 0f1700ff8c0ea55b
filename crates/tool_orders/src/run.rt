//! What the program prints for a script.
use crate::options::Options;
use script_orders::answer::{Answer, report};
use script_orders::calls::{expand, has_calls, origin};
use script_orders::comments::{Asked, asked_of};
use script_orders::expected::first_difference;
use script_orders::report::{report_cut, witness};
use script_orders::text::{Lines, lines_of};
use script_orders::{Explored, Program, Whole, explore};
use sh_key::{Tiny, Wide};
use sh_script::{Cause, Events, Fault, Layout, parse_events};
use std::alloc::{AllocError, Global};

/// What is printed, and the exit status.
#[derive(Drop)]
pub struct Printed {
    /// What goes to the standard output.
    pub output: Vec<u8>,
    /// What goes to the standard error.
    pub errors: Vec<u8>,
    /// The exit status.
    pub status: u8,
}

// The exit status of an answer: 1 if an outcome has a reply that it is never to have.
fn status_of(answer: &Answer) -> u8 {
    if answer.holds { 0 } else { 1 }
}

// An output, and nothing on the standard error.
fn output_alone(alloc: Global, output: Vec<u8>, status: u8) -> Printed {
    Printed {
        output,
        errors: Vec::new(alloc),
        status,
    }
}

// One line on the standard error, and the exit status 2.
fn wrong(alloc: Global, what: &[u8]) -> Result<Printed, AllocError> {
    let mut errors = Vec::from_slice(alloc, b"tool_orders: ")?;
    errors.extend_from_slice(what)?;
    errors.push(b'\n')?;
    Ok(Printed {
        output: Vec::new(alloc),
        errors,
        status: 2,
    })
}

// What is explored: the events before `from` are done first.
fn program_of<'e>(options: &Options<'_>, events: &'e Events, from: usize) -> Program<'e> {
    let (before, lines) = events
        .lines
        .as_slice()
        .split_at(from.min(events.lines.len()));
    Program {
        shape: events.header.shape,
        before,
        lines,
        accounts: options.accounts,
        limit: options.limit,
        bytes: options.bytes,
    }
}

// Does the lines in every order. None for layout `tagged`: its lines have tags in their keys, and a heap
// has none.
fn explored(
    alloc: Global,
    program: &Program<'_>,
    layout: Layout,
) -> Result<Option<Explored>, Fault> {
    let explored = match layout {
        Layout::Tiny => explore::<Tiny>(alloc, program),
        Layout::Wide => explore::<Wide>(alloc, program),
        Layout::Tagged => return Ok(None),
    };
    match explored {
        Ok(explored) => Ok(Some(explored)),
        Err(_) => Err(Fault::Memory),
    }
}

fn push_side(errors: &mut Vec<u8>, name: &[u8], line: Option<&[u8]>) -> Result<(), AllocError> {
    errors.extend_from_slice(name)?;
    errors.extend_from_slice(line.unwrap_or(b"no further line"))?;
    errors.extend_from_slice(b"\n")
}

// Compares what is printed with what is expected.
fn compared(alloc: Global, answer: Answer, expected: &[u8]) -> Result<Printed, AllocError> {
    let mut errors = Vec::new(alloc);
    let mut status = status_of(&answer);
    if let Some(difference) = first_difference(expected, answer.text.as_slice()) {
        errors.extend_from_slice(b"tool_orders: other outcomes than expected\n")?;
        push_side(&mut errors, b"expected: ", difference.expected)?;
        push_side(&mut errors, b"found: ", difference.found)?;
        status = 1;
    }
    Ok(Printed {
        output: answer.text,
        errors,
        status,
    })
}

// The witness of the outcome of this number, from 1.
fn witnessed(
    alloc: Global,
    whole: &Whole,
    lines: &Lines<'_>,
    first: usize,
    number: u64,
) -> Result<Printed, AllocError> {
    let place = number.saturating_sub(1);
    match whole.found.get(place as usize) {
        Some(found) => Ok(output_alone(alloc, witness(alloc, lines, first, found)?, 0)),
        None => wrong(alloc, b"there is no outcome of that number"),
    }
}

// What is printed of all outcomes.
fn outcomes_printed(
    alloc: Global,
    options: &Options<'_>,
    whole: &Whole,
    lines: &Lines<'_>,
    first: usize,
    asked: &Asked<'_>,
    expected: Option<&[u8]>,
) -> Result<Printed, AllocError> {
    if let Some(number) = options.witness {
        return witnessed(alloc, whole, lines, first, number);
    }
    let answer = report(alloc, whole, asked)?;
    match expected {
        Some(expected) => compared(alloc, answer, expected),
        None => {
            let status = status_of(&answer);
            Ok(output_alone(alloc, answer.text, status))
        }
    }
}

fn memory<T: Drop>(given: Result<T, AllocError>) -> Result<T, Fault> {
    match given {
        Ok(given) => Ok(given),
        Err(_) => Err(Fault::Memory),
    }
}

// What is printed for a script of steps.
fn run_steps(
    alloc: Global,
    options: &Options<'_>,
    text: &[u8],
    expected: Option<&[u8]>,
) -> Result<Printed, Fault> {
    let events = parse_events(alloc, text)?;
    let asked = asked_of(alloc, events.header.shape.passes(), text)?;
    let Ok(lines) = lines_of(alloc, text) else {
        return Err(Fault::Memory);
    };
    // The lines before the events are the header.
    let header = lines.said.len().saturating_sub(events.lines.len());
    let from = lines.before.saturating_sub(header);
    let program = program_of(options, &events, from);
    match explored(alloc, &program, events.header.layout)? {
        Some(Explored::Whole(whole)) => memory(outcomes_printed(
            alloc,
            options,
            &whole,
            &lines,
            header.saturating_add(from),
            &asked,
            expected,
        )),
        Some(Explored::Cut(cut)) => match report_cut(alloc, cut, &program) {
            Ok(text) => memory(wrong(alloc, text.as_slice())),
            Err(_) => Err(Fault::Memory),
        },
        None => memory(wrong(
            alloc,
            b"a script of layout tagged: use layout tiny or wide, whose keys have no tag",
        )),
    }
}

// The fault of a script of version 3, by that of its script of steps.
fn fault_of(alloc: Global, text: &[u8], line: u64, cause: Cause) -> Result<Fault, Fault> {
    if line == 0 {
        return Ok(Fault::Script(0, cause));
    }
    let line = memory(origin(alloc, text, line))?;
    Ok(Fault::Script(line, cause))
}

/// What is printed for a script, by the options, and by what is expected, if something is. A script of version 3 may
/// have calls beside steps.
pub fn run_script(
    alloc: Global,
    options: &Options<'_>,
    text: &[u8],
    expected: Option<&[u8]>,
) -> Result<Printed, Fault> {
    if !memory(has_calls(alloc, text))? {
        return run_steps(alloc, options, text, expected);
    }
    let steps = memory(expand(alloc, text))?;
    match run_steps(alloc, options, steps.as_slice(), expected) {
        Err(Fault::Script(line, cause)) => Err(fault_of(alloc, text, line, cause)?),
        printed => printed,
    }
}
