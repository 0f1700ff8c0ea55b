//! What is printed of an exploration.
ghost use Rattle.std.specs.Prelude.{◌≡◌, ◌++◌, OnOk, IfOk, decimal, slice_get, vec_items};
ghost use Rattle.std.specs.List.{flat_map, filter_map};
ghost use Rattle.script_orders.specs.Printed.{orders_text, passes_text, end_text, found_text, counts_text};
ghost use Rattle.script_orders.specs.Printed.{limit_text, cut_text, line_text, witness_text};

use crate::found::{Cut, Found, Limit, Program, Whole};
use crate::orders::Orders;
use crate::text::{EXPLORE, Lines};
use itoa::Buffer;
use script_output::numbers::push_number;
use std::alloc::{AllocError, Global};

// Adds a number of orders.
fn push_orders(out: &mut Vec<u8>, orders: Orders) -> Result<(), AllocError>
    ensures { OnOk result (out.new.items ≡ out.old.items ++ orders_text orders) }
{
    if orders.count == u128::MAX {
        return out.extend_from_slice(b"2^128 - 1 or more");
    }
    let mut buffer = Buffer::new();
    out.extend_from_slice(buffer.format(orders.count).as_bytes())
}

// Adds some words and a number.
fn push_count(out: &mut Vec<u8>, words: &[u8], count: u64) -> Result<(), AllocError>
    ensures { OnOk result (out.new.items ≡ out.old.items ++ (words.now ++ decimal count)) }
{
    out.extend_from_slice(words)?;
    push_number(out, count)
}

// Adds some words and a number of orders.
fn push_named_orders(out: &mut Vec<u8>, words: &[u8], orders: Orders) -> Result<(), AllocError>
    ensures { OnOk result (out.new.items ≡ out.old.items ++ (words.now ++ orders_text orders)) }
{
    out.extend_from_slice(words)?;
    push_orders(out, orders)
}

// Adds the pass of each step.
fn push_passes(out: &mut Vec<u8>, passes: &[u32]) -> Result<(), AllocError>
    ensures { OnOk result (out.new.items ≡ out.old.items ++ passes_text passes.now) }
{
    out.extend_from_slice(b"; order")?;
    for pass in passes {
        push_count(out, b" ", u64::from(*pass))?;
    }
    out.extend_from_slice(b"\n")
}

// Adds the replies of each pass.
fn push_replies(out: &mut Vec<u8>, replies: &[Vec<u8>]) -> Result<(), AllocError>
    ensures { OnOk result (out.new.items ≡ out.old.items ++ flat_map vec_items replies.now) }
{
    for lines in replies {
        out.extend_from_slice(lines.as_slice())?;
    }
    Ok(())
}

// Adds what is printed of the end to which an outcome's orders lead.
fn push_end(out: &mut Vec<u8>, found: &Found) -> Result<(), AllocError>
    ensures { OnOk result (out.new.items ≡ out.old.items ++ end_text found.now) }
{
    push_replies(out, found.replies.as_slice())?;
    out.extend_from_slice(found.pages.as_slice())?;
    push_passes(out, found.passes.as_slice())
}

// Adds an outcome, by its number from 1.
pub(crate) fn push_found(out: &mut Vec<u8>, number: u64, found: &Found) -> Result<(), AllocError>
    ensures { OnOk result (out.new.items ≡ out.old.items ++ found_text number found.now) }
{
    push_count(out, b"\noutcome ", number)?;
    push_named_orders(out, b" orders ", found.orders)?;
    out.extend_from_slice(b"\n")?;
    push_end(out, found)
}

// Adds how many states, ends and orders there are.
pub(crate) fn push_counts(out: &mut Vec<u8>, whole: &Whole) -> Result<(), AllocError>
    ensures { OnOk result (out.new.items ≡ out.old.items ++ counts_text whole.now) }
{
    push_count(out, b"; states ", whole.states)?;
    push_count(out, b"\n; ends ", whole.ends)?;
    push_named_orders(out, b"\norders ", whole.orders)?;
    out.extend_from_slice(b"\n")
}

// Adds which limit was passed.
fn push_limit(out: &mut Vec<u8>, cut: Cut, program: &Program<'_>) -> Result<(), AllocError>
    ensures { OnOk result (out.new.items ≡ out.old.items ++ limit_text cut.limit program.now) }
{
    match cut.limit {
        Limit::States => {
            push_count(out, b"more than ", program.limit)?;
            out.extend_from_slice(b" states: ")
        }
        Limit::Bytes => {
            push_count(out, b"more than ", program.bytes)?;
            out.extend_from_slice(b" bytes: states ")
        }
    }
}

/// What is printed of an exploration that passed a limit of its program.
pub fn report_cut(alloc: Global, cut: Cut, program: &Program<'_>) -> Result<Vec<u8>, AllocError>
    ensures { IfOk result (λ text. text.items ≡ cut_text cut program.now) }
{
    let mut out = Vec::new(alloc);
    push_limit(&mut out, cut, program)?;
    push_number(&mut out, cut.states)?;
    push_count(&mut out, b" after fewer than ", cut.steps)?;
    push_count(&mut out, b" steps, and too many after ", cut.steps)?;
    Ok(out)
}

// Adds a line.
fn push_line(out: &mut Vec<u8>, line: &[u8]) -> Result<(), AllocError>
    ensures { OnOk result (out.new.items ≡ out.old.items ++ line_text line.now) }
{
    out.extend_from_slice(line)?;
    out.extend_from_slice(b"\n")
}

// Adds lines.
fn push_lines(out: &mut Vec<u8>, lines: &[&[u8]]) -> Result<(), AllocError>
    ensures { OnOk result (out.new.items ≡ out.old.items ++ flat_map (λ line. line_text line.now) lines.now) }
{
    for line in lines {
        push_line(out, line)?;
    }
    Ok(())
}

// Adds the lines of these numbers, from 0.
fn push_numbered(out: &mut Vec<u8>, lines: &[&[u8]], numbers: &[usize]) -> Result<(), AllocError>
    ensures { OnOk result (out.new.items ≡ out.old.items
        ++ flat_map (λ line. line_text line.now) (filter_map (slice_get lines.now) numbers.now)) }
{
    for number in numbers {
        if let Some(line) = lines.get(*number) {
            push_line(out, line)?;
        }
    }
    Ok(())
}

/// The witness of an outcome as a script of mode steps: the header, what is done first, and the lines in the witness's
/// order. The lines that are explored begin at `from`.
pub fn witness(
    alloc: Global,
    lines: &Lines<'_>,
    from: usize,
    found: &Found,
) -> Result<Vec<u8>, AllocError>
    ensures { IfOk result (λ text. text.items
        ≡ witness_text (λ line. line.now) lines.now.said.items from found.now.witness.items) }
{
    let mut out = Vec::new(alloc);
    let said = lines.said.as_slice();
    let (first, explored) = said.split_at(from.min(said.len()));
    push_lines(&mut out, first)?;
    push_line(&mut out, EXPLORE)?;
    push_numbered(&mut out, explored, found.witness.as_slice())?;
    Ok(out)
}
