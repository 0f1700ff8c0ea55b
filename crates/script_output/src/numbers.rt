//! Numbers and words as lines write them.
ghost use Rattle.std.specs.Prelude.{◌≡◌, ◌+◌, ◌<◌, ◌≤◌, ◌++◌, length, OnOk, OnErr, decimal};
ghost use Rattle.std.specs.Vec.{vec_capacity, vec_len};
ghost use Rattle.script_output.specs.Numbers.{words_text, value_text};

use itoa::Buffer;
use sh_value::Value;
use std::alloc::AllocError;

/// Adds the digits of a number.
pub fn push_number(out: &mut Vec<u8>, number: u64) -> Result<(), AllocError>
    ensures text { OnOk result (out.new.items ≡ out.old.items ++ decimal number) }
    ensures room { vec_capacity out.old ≤ vec_capacity out.new }
    ensures full { OnErr result (vec_capacity out.old < vec_len out.old + length (decimal number)) }
{
    let mut buffer = Buffer::new();
    out.extend_from_slice(buffer.format(number).as_bytes())
}

fn push_words(out: &mut Vec<u8>, words: &[u64]) -> Result<(), AllocError>
    ensures text { OnOk result (out.new.items ≡ out.old.items ++ words_text words.now) }
    ensures room { vec_capacity out.old ≤ vec_capacity out.new }
    ensures full { OnErr result (vec_capacity out.old < vec_len out.old + length (words_text words.now)) }
{
    for word in words {
        out.extend_from_slice(b" ")?;
        push_number(out, *word)?;
    }
    Ok(())
}

/// Adds a value: its length, and then its words.
pub fn push_value(out: &mut Vec<u8>, value: &Value) -> Result<(), AllocError>
    ensures text { OnOk result (out.new.items ≡ out.old.items ++ value_text value.now) }
    ensures room { vec_capacity out.old ≤ vec_capacity out.new }
    ensures full { OnErr result (vec_capacity out.old < vec_len out.old + length (value_text value.now)) }
{
    push_number(out, value.words().len() as u64)?;
    push_words(out, value.words())
}
