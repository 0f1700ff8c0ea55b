//! Calls in a script of steps.
ghost use Rattle.std.specs.Prelude.{◌≡◌, ◌++◌, ◌<◌, IfOk, IfSome, OnOk, is_some, length, map, option_map};
ghost use Rattle.std.specs.List.{count_by, position};
ghost use Rattle.sh_script.specs.Script.{pieces_of};
ghost use Rattle.sh_script.specs.Words.{is_dot, is_newline, words_in};
ghost use Rattle.script_orders.specs.Calls.{step_line, freeing_text, leaving_text, fills_text, page_of, insert_text};
ghost use Rattle.script_orders.specs.Calls.{set_class_text, keyed_text, call_text, or_none, is_third, says, steps_text};
ghost use Rattle.script_orders.specs.Calls.{expanded, origin_from, first_is_third};

use script_output::numbers::push_number;
use sh_script::words::{number, words};
use sh_script::{LINE_BYTES_MAX, split_line};
use sh_shape::class_of;
use std::alloc::{AllocError, Global};

// Adds a step of a pass, with the words after its own.
fn push_step(out: &mut Vec<u8>, pass: &[u8], step: &[u8], words: &[&[u8]]) -> Result<(), AllocError>
    ensures { OnOk result (out.new.items
        ≡ out.old.items ++ step_line pass.now step.now (map (λ w. w.now) words.now)) }
{
    out.extend_from_slice(pass)?;
    out.extend_from_slice(b" ")?;
    out.extend_from_slice(step)?;
    for word in words {
        out.extend_from_slice(b" ")?;
        out.extend_from_slice(word)?;
    }
    out.extend_from_slice(b"\n")
}

// Adds the steps after the one that ended a generation.
fn push_freeing(out: &mut Vec<u8>, pass: &[u8]) -> Result<(), AllocError>
    ensures { OnOk result (out.new.items ≡ out.old.items ++ freeing_text pass.now) }
{
    push_step(out, pass, b"Finish", &[])?;
    push_step(out, pass, b"Put", &[])?;
    push_step(out, pass, b"Tie", &[])?;
    push_step(out, pass, b"Ring", &[])?;
    push_step(out, pass, b"RingTie", &[])
}

// Adds the steps of a pass that gives back its count on a slot.
fn push_leaving(out: &mut Vec<u8>, pass: &[u8]) -> Result<(), AllocError>
    ensures { OnOk result (out.new.items ≡ out.old.items ++ leaving_text pass.now) }
{
    push_step(out, pass, b"Drop", &[])?;
    push_freeing(out, pass)
}

// Adds the steps of a call on one number. Returns whether there is such a call.
fn push_keyed(
    out: &mut Vec<u8>,
    pass: &[u8],
    call: &[u8],
    word: &[&[u8]],
) -> Result<bool, AllocError>
    ensures text { OnOk result (out.new.items
        ≡ out.old.items ++ or_none (keyed_text pass.now call.now (map (λ w. w.now) word.now))) }
    ensures is { IfOk result (λ is. is ≡ is_some (keyed_text pass.now call.now (map (λ w. w.now) word.now))) }
{
    if call == b"adopt".as_slice() {
        push_step(out, pass, b"Adopt", word)?;
    } else if call == b"get".as_slice() {
        push_step(out, pass, b"Enter get", word)?;
        push_leaving(out, pass)?;
    } else if call == b"release".as_slice() {
        push_step(out, pass, b"Drop", word)?;
        push_freeing(out, pass)?;
    } else if call == b"remove".as_slice() {
        push_step(out, pass, b"Enter remove", word)?;
        push_step(out, pass, b"Mark", &[])?;
        push_leaving(out, pass)?;
    } else {
        return Ok(false);
    }
    Ok(true)
}

// The place of the first dot.
fn dot_in(word: &[u8]) -> Option<usize>
    ensures dot { result ≡ position is_dot word.now }
    ensures within { IfSome result (λ i. i < length word.now) }
{
    word.iter().position(|byte| *byte == b'.')
}

// The page of a slot: what is before the second dot.
fn page_of(slot: &[u8]) -> Option<&[u8]>
    ensures { option_map (λ page. page.now) result ≡ page_of slot.now }
{
    let first = dot_in(slot)?;
    let second = dot_in(&slot[first + 1..])?;
    Some(&slot[..first + 1 + second])
}

// Adds a step for each word that is stored.
fn push_fills(out: &mut Vec<u8>, pass: &[u8], words: &[&[u8]]) -> Result<(), AllocError>
    ensures { OnOk result (out.new.items ≡ out.old.items ++ fills_text pass.now (map (λ w. w.now) words.now)) }
{
    for _word in words {
        push_step(out, pass, b"Fill", &[])?;
    }
    Ok(())
}

// Adds the step that stores a page's class.
fn push_set_class(out: &mut Vec<u8>, pass: &[u8], page: &[u8], class: u32) -> Result<(), AllocError>
    ensures { OnOk result (out.new.items ≡ out.old.items ++ set_class_text pass.now page.now class) }
{
    out.extend_from_slice(pass)?;
    out.extend_from_slice(b" SetClass ")?;
    out.extend_from_slice(page)?;
    out.extend_from_slice(b" ")?;
    push_number(out, u64::from(class))?;
    out.extend_from_slice(b"\n")
}

// Adds the steps of an insert, by the words of its slot and of its value. Returns whether it is one.
fn push_insert(out: &mut Vec<u8>, pass: &[u8], words: &[&[u8]]) -> Result<bool, AllocError>
    ensures text { OnOk result (out.new.items
        ≡ out.old.items ++ or_none (insert_text pass.now (map (λ w. w.now) words.now))) }
    ensures is { IfOk result (λ is. is ≡ is_some (insert_text pass.now (map (λ w. w.now) words.now))) }
{
    let Some((slot, value)) = words.split_first() else {
        return Ok(false);
    };
    let Some(page) = page_of(slot) else {
        return Ok(false);
    };
    let Some(class) = class_of(value.len()) else {
        return Ok(false);
    };
    push_step(out, pass, b"Read", &[page])?;
    push_set_class(out, pass, page, class)?;
    push_step(out, pass, b"Fill", words)?;
    push_fills(out, pass, value)?;
    push_step(out, pass, b"Publish", &[])?;
    Ok(true)
}

// Adds the steps of the call that the words of a line are. Returns whether they are one.
fn push_call(out: &mut Vec<u8>, words: &[&[u8]]) -> Result<bool, AllocError>
    ensures text { OnOk result (out.new.items
        ≡ out.old.items ++ or_none (call_text (map (λ w. w.now) words.now))) }
    ensures is { IfOk result (λ is. is ≡ is_some (call_text (map (λ w. w.now) words.now))) }
{
    let Some((pass, others)) = words.split_first() else {
        return Ok(false);
    };
    let Some((call, others)) = others.split_first() else {
        return Ok(false);
    };
    if number(pass).is_none() {
        return Ok(false);
    }
    if *call == b"insert".as_slice() {
        return push_insert(out, pass, others);
    }
    if others.len() != 1 {
        return Ok(false);
    }
    push_keyed(out, pass, call, others)
}

// Whether the words are `version 3`.
fn is_third(words: &[&[u8]]) -> bool
    ensures { result ≡ is_third (map (λ w. w.now) words.now) }
{
    match words {
        [word, version] => *word == b"version".as_slice() && *version == b"3".as_slice(),
        _ => false,
    }
}

// Whether the words say something: there are some, and the first one does not begin with `;`.
fn says(words: &[&[u8]]) -> bool
    ensures { result ≡ says (map (λ w. w.now) words.now) }
{
    match words.first() {
        Some(first) => first.first() != Some(&b';'),
        None => false,
    }
}

// Adds the lines that a line is short for.
fn push_line(out: &mut Vec<u8>, alloc: Global, line: &[u8]) -> Result<(), AllocError>
    ensures { OnOk result (out.new.items ≡ out.old.items ++ steps_text line.now) }
{
    let words = words(alloc, line)?;
    if is_third(words.as_slice()) {
        return out.extend_from_slice(b"version 2\n");
    }
    if line.len() <= LINE_BYTES_MAX && push_call(out, words.as_slice())? {
        return Ok(());
    }
    out.extend_from_slice(line)?;
    out.extend_from_slice(b"\n")
}

/// The script of steps that a script of version 3 is short for. It has version 2, and in place of each call the steps
/// of the longest way that the call can go. What is no call stays as it is.
pub fn expand(alloc: Global, text: &[u8]) -> Result<Vec<u8>, AllocError>
    ensures { IfOk result (λ steps. steps.items ≡ expanded (pieces_of text.now)) }
{
    let mut out = Vec::new(alloc);
    let mut rest = text;
    while let Some((line, more)) = split_line(rest) {
        push_line(&mut out, alloc, line)?;
        rest = more;
    }
    out.extend_from_slice(rest)?;
    Ok(out)
}

// How many newlines a text has.
fn newlines(text: &[u8]) -> u64
    ensures { result ≡ count_by is_newline text.now }
{
    let mut count = 0;
    for byte in text {
        if *byte == b'\n' {
            count += 1;
        }
    }
    count
}

/// The line of a script of version 3 from which a line of its script of steps comes. Both are numbered from 1.
#[tactic(auto, using(crate::proofs::CallLines::origin_here, crate::proofs::CallLines::origin_on))]
pub fn origin(alloc: Global, text: &[u8], line: u64) -> Result<u64, AllocError>
    ensures { IfOk result (λ number. number ≡ origin_from 1 line (pieces_of text.now)) }
{
    let mut rest = text;
    let mut number = 1;
    let mut left = line;
    while let Some((first, more)) = split_line(rest) {
        let mut steps = Vec::new(alloc);
        push_line(&mut steps, alloc, first)?;
        let count = newlines(steps.as_slice());
        if left <= count {
            return Ok(number);
        }
        left -= count;
        number += 1;
        rest = more;
    }
    Ok(number)
}

/// Whether the first line of a text that says something is `version 3`.
#[tactic(auto, using(crate::proofs::CallLines::third_here, crate::proofs::CallLines::third_on))]
pub fn has_calls(alloc: Global, text: &[u8]) -> Result<bool, AllocError>
    ensures { IfOk result (λ has. has ≡ first_is_third (pieces_of text.now)) }
{
    let mut rest = text;
    while let Some((line, more)) = split_line(rest) {
        let words = words(alloc, line)?;
        if says(words.as_slice()) {
            return Ok(is_third(words.as_slice()));
        }
        rest = more;
    }
    Ok(false)
}
