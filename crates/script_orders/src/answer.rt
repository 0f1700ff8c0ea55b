//! What is printed of outcomes by what a script's comments ask.
ghost use Rattle.std.specs.Prelude.{◌≡◌, ◌++◌, ℕ, List, true, OnOk, IfOk, length, map};
ghost use Rattle.std.specs.List.{flat_map, range_with_len};
ghost use Rattle.sh_key.specs.Layout.{Layout};
ghost use Rattle.sh_script.specs.Script.{pieces_of};
ghost use Rattle.sh_script.specs.Words.{words_in};
ghost use Rattle.script_orders.specs.declared.found.Program.{Program};
ghost use Rattle.script_orders.specs.Reached.{all_replies_by, HasOutcome};
ghost use Rattle.script_orders.specs.Comments.{asks, replies_of};
ghost use Rattle.script_orders.specs.Answers.{begins, lines_have, has_reply, has_at, has_some, having, having_all};
ghost use Rattle.script_orders.specs.Answers.{having_some, is_as_asked, IsAsAsked, reply_text, few_text, asked_line};
ghost use Rattle.script_orders.specs.Answers.{asked_text, wheres_text, nevers_text, numbered_text, answer_text};

use crate::comments::Asked;
use crate::found::{Found, Whole};
use crate::report::{push_counts, push_found};
use script_output::numbers::push_number;
use sh_script::split_line;
use sh_script::words::words;
use std::alloc::{AllocError, Global};

/// What is printed of outcomes, and whether they are as is asked.
#[derive(Drop)]
pub struct Answer {
    /// What is printed.
    pub text: Vec<u8>,
    /// Whether no outcome that is looked at has a reply that it is never to have.
    pub holds: bool,
}

// Whether the line begins with the words of the reply.
fn line_has(alloc: Global, line: &[u8], reply: &[&[u8]]) -> Result<bool, AllocError>
    ensures { IfOk result (λ has. has ≡ begins (words_in line.now) (map (λ w. w.now) reply.now)) }
{
    let words = words(alloc, line)?;
    Ok(words.as_slice().starts_with(reply))
}

// Whether one of the lines has the reply.
fn lines_have(alloc: Global, lines: &[u8], reply: &[&[u8]]) -> Result<bool, AllocError>
    ensures { IfOk result (λ has. has ≡ lines_have (map (λ w. w.now) reply.now) (pieces_of lines.now)) }
{
    let mut rest = lines;
    while let Some((line, more)) = split_line(rest) {
        if line_has(alloc, line, reply)? {
            return Ok(true);
        }
        rest = more;
    }
    line_has(alloc, rest, reply)
}

// Whether a pass is replied so in the outcome.
fn has_reply(alloc: Global, found: &Found, reply: &[&[u8]]) -> Result<bool, AllocError>
    ensures { IfOk result (λ has. has ≡ has_reply (map (λ w. w.now) reply.now) found.now) }
{
    for lines in &found.replies {
        if lines_have(alloc, lines.as_slice(), reply)? {
            return Ok(true);
        }
    }
    Ok(false)
}

// Whether the outcome at this place has the reply.
fn has_at(alloc: Global, found: &[Found], reply: &[&[u8]], place: usize) -> Result<bool, AllocError>
    ensures { IfOk result (λ has. has ≡ has_at found.now (map (λ w. w.now) reply.now) place) }
{
    match found.get(place) {
        Some(there) => has_reply(alloc, there, reply),
        None => Ok(false),
    }
}

// Those of these places whose outcome has the reply.
fn having(
    alloc: Global,
    found: &[Found],
    reply: &[&[u8]],
    places: &[usize],
) -> Result<Vec<usize>, AllocError>
    ensures { IfOk result (λ those. those.items ≡ having found.now (map (λ w. w.now) reply.now) places.now) }
{
    let mut those = Vec::new(alloc);
    for place in places {
        if has_at(alloc, found, reply, *place)? {
            those.push(*place)?;
        }
    }
    Ok(those)
}

// Whether the outcome at this place has one of the replies.
fn has_some(
    alloc: Global,
    found: &[Found],
    replies: &[Vec<&[u8]>],
    place: usize,
) -> Result<bool, AllocError>
    ensures { IfOk result (λ has. has ≡ has_some found.now (replies_of replies.now) place) }
{
    for reply in replies {
        if has_at(alloc, found, reply.as_slice(), place)? {
            return Ok(true);
        }
    }
    Ok(false)
}

// Those of these places whose outcome has one of the replies.
fn having_some(
    alloc: Global,
    found: &[Found],
    replies: &[Vec<&[u8]>],
    places: &[usize],
) -> Result<Vec<usize>, AllocError>
    ensures { IfOk result (λ those. those.items ≡ having_some found.now (replies_of replies.now) places.now) }
{
    let mut those = Vec::new(alloc);
    for place in places {
        if has_some(alloc, found, replies, *place)? {
            those.push(*place)?;
        }
    }
    Ok(those)
}

// Adds the words of a reply, each after a blank.
fn push_reply(out: &mut Vec<u8>, reply: &[&[u8]]) -> Result<(), AllocError>
    ensures { OnOk result (out.new.items ≡ out.old.items ++ reply_text (map (λ w. w.now) reply.now)) }
{
    for word in reply {
        out.extend_from_slice(b" ")?;
        out.extend_from_slice(word)?;
    }
    Ok(())
}

// Adds a number of outcomes, or that there is none.
fn push_few(out: &mut Vec<u8>, count: usize) -> Result<(), AllocError>
    ensures { OnOk result (out.new.items ≡ out.old.items ++ few_text count) }
{
    if count == 0 {
        return out.extend_from_slice(b"none");
    }
    push_number(out, count as u64)
}

// Adds how many of so many outcomes have a reply.
fn push_line(
    out: &mut Vec<u8>,
    what: &[u8],
    reply: &[&[u8]],
    those: &[usize],
    all: &[usize],
) -> Result<(), AllocError>
    ensures { OnOk result (out.new.items ≡ out.old.items
        ++ asked_line what.now (map (λ w. w.now) reply.now) (length those.now) (length all.now)) }
{
    out.extend_from_slice(what)?;
    push_reply(out, reply)?;
    out.extend_from_slice(b": ")?;
    push_few(out, those.len())?;
    out.extend_from_slice(b" of ")?;
    push_number(out, all.len() as u64)?;
    out.extend_from_slice(b"\n")
}

// Adds how many of the outcomes at these places have the reply, and returns the places of those.
fn push_asked(
    out: &mut Vec<u8>,
    alloc: Global,
    what: &[u8],
    found: &[Found],
    reply: &[&[u8]],
    places: &[usize],
) -> Result<Vec<usize>, AllocError>
    ensures text { OnOk result (out.new.items
        ≡ out.old.items ++ asked_text what.now found.now (map (λ w. w.now) reply.now) places.now) }
    ensures places { IfOk result (λ those. those.items ≡ having found.now (map (λ w. w.now) reply.now) places.now) }
{
    let those = having(alloc, found, reply, places)?;
    push_line(out, what, reply, those.as_slice(), places)?;
    Ok(those)
}

// The places of so many outcomes.
fn places_below(alloc: Global, count: usize) -> Result<Vec<usize>, AllocError>
    ensures { IfOk result (λ places. places.items ≡ range_with_len 0 count) }
{
    let mut places = Vec::new(alloc);
    for place in 0..count {
        places.push(place)?;
    }
    Ok(places)
}

// Adds how many outcomes have each of these replies and those before it, and returns the places of those that have all.
fn push_wheres(
    out: &mut Vec<u8>,
    alloc: Global,
    found: &[Found],
    replies: &[Vec<&[u8]>],
) -> Result<Vec<usize>, AllocError>
    ensures text { OnOk result (out.new.items ≡ out.old.items
        ++ wheres_text found.now (replies_of replies.now) (range_with_len 0 (length found.now))) }
    ensures places { IfOk result (λ places. places.items
        ≡ having_all found.now (replies_of replies.now) (range_with_len 0 (length found.now))) }
{
    let mut places = places_below(alloc, found.len())?;
    for reply in replies {
        let those = push_asked(
            out,
            alloc,
            b"where",
            found,
            reply.as_slice(),
            places.as_slice(),
        )?;
        places = those;
    }
    Ok(places)
}

// Adds how many of the outcomes at these places have each of the replies.
fn push_nevers(
    out: &mut Vec<u8>,
    alloc: Global,
    found: &[Found],
    replies: &[Vec<&[u8]>],
    places: &[usize],
) -> Result<(), AllocError>
    ensures { OnOk result (out.new.items ≡ out.old.items
        ++ nevers_text found.now (replies_of replies.now) places.now) }
{
    for reply in replies {
        push_asked(out, alloc, b"never", found, reply.as_slice(), places)?;
    }
    Ok(())
}

// Adds the outcomes at these places.
fn push_numbered(out: &mut Vec<u8>, found: &[Found], places: &[usize]) -> Result<(), AllocError>
    ensures { OnOk result (out.new.items ≡ out.old.items ++ flat_map (numbered_text found.now) places.now) }
{
    for place in places {
        if let Some(there) = found.get(*place) {
            push_found(out, *place as u64 + 1, there)?;
        }
    }
    Ok(())
}

// Adds what is printed of all that there is. Returns whether no outcome that is looked at has a reply that it is never
// to have.
fn push_answer(
    out: &mut Vec<u8>,
    alloc: Global,
    whole: &Whole,
    asked: &Asked<'_>,
) -> Result<bool, AllocError>
    ensures text { OnOk result (out.new.items ≡ out.old.items ++ answer_text whole.now (asks asked.now)) }
    ensures holds { IfOk result (λ holds. holds ≡ is_as_asked whole.now.found.items (asks asked.now)) }
{
    let found = whole.found.as_slice();
    push_counts(out, whole)?;
    let places = push_wheres(out, alloc, found, asked.wheres.as_slice())?;
    push_nevers(
        out,
        alloc,
        found,
        asked.nevers.as_slice(),
        places.as_slice(),
    )?;
    if asked.nevers.is_empty() {
        push_numbered(out, found, places.as_slice())?;
        return Ok(true);
    }
    let met = having_some(alloc, found, asked.nevers.as_slice(), places.as_slice())?;
    push_numbered(out, found, met.as_slice())?;
    Ok(met.is_empty())
}

/// What is printed of all that there is: the counts, how many outcomes have each reply that a comment names, and
/// outcomes. If no comment asks for any, these are all.
pub fn report(alloc: Global, whole: &Whole, asked: &Asked<'_>) -> Result<Answer, AllocError>
    ensures text { IfOk result (λ answer. answer.text.items ≡ answer_text whole.now (asks asked.now)) }
    ensures holds { IfOk result (λ answer. answer.holds ≡ is_as_asked whole.now.found.items (asks asked.now)) }
    // Then each order that has one of the outcomes is as is asked.
    ensures orders { IfOk result (λ answer. answer.holds ≡ true → (layout : Layout) (program : Program)
        (order : List ℕ) → HasOutcome layout program whole.now.found.items order
        → IsAsAsked (asks asked.now) (all_replies_by layout program order)) }
{
    let mut text = Vec::new(alloc);
    let holds = push_answer(&mut text, alloc, whole, asked)?;
    Ok(Answer { text, holds })
}
