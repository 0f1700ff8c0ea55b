//! The values that are stored.
ghost use Rattle.std.specs.Prelude.{◌≡◌, ◌≤◌, ◌+◌, vec_len, IfOk, IfErr, IsOk};
ghost use Rattle.tool_load.specs.Samples.{AreSamples, IsSample, length_at};
ghost use Rattle.tool_load.specs.declared.samples.Lengths.{Lengths as AnyLengths};

use crate::fault::Fault;
use sh_value::{Value, WORDS_MAX};
use std::alloc::Global;

/// The lengths of values.
#[derive(Clone, Copy, Debug, PartialEq, Eq)]
pub enum Lengths {
    /// All have this many words.
    Each(usize),
    /// The lengths from 1 to 16 words come in turn.
    Mixed,
}

impl Lengths {
    /// The number of words of the value at a place, at most 16.
    pub fn at(self, place: usize) -> usize
        ensures is { result ≡ length_at self place }
        ensures few { result ≤ 16 }
    {
        match self {
            Lengths::Each(words) => words.min(WORDS_MAX),
            Lengths::Mixed => place % WORDS_MAX + 1,
        }
    }
}

/// Sixteen values: the one at place n of a list is the one at n % 16 here.
#[derive(Drop)]
pub struct Samples {
    values: Vec<Value>,
    ghost sixteen: { vec_len values ≡ 16 },
}

// The value at a place: its words count up from `place % 16 * 16`.
fn sample(lengths: Lengths, place: usize) -> Result<Value, Fault>
    ensures is { IfOk result (IsSample lengths place) }
    ensures fits { IsOk result }
{
    let mut words = [0u64; WORDS_MAX];
    for (k, word) in words.iter_mut().enumerate() {
        *word = (place % 16 * 16 + k % 16) as u64;
    }
    Ok(Value::new(&words[..lengths.at(place)])?)
}

fn sixteen(alloc: Global, lengths: Lengths) -> Result<Vec<Value>, Fault>
    ensures count { IfOk result (λ values. vec_len values ≡ 16) }
    ensures are { IfOk result (λ values. AreSamples lengths values.items) }
    ensures memory { IfErr result (λ fault. fault ≡ Fault.Memory) }
{
    let mut values = Vec::new(alloc);
    for place in 0..16usize {
        values.push(sample(lengths, place)?)?;
    }
    Ok(values)
}

impl Samples {
    /// The values with these lengths.
    pub fn new(alloc: Global, lengths: Lengths) -> Result<Self, Fault>
        ensures are { IfOk result (λ samples. AreSamples lengths samples.values.items) }
        ensures memory { IfErr result (λ fault. fault ≡ Fault.Memory) }
    {
        Ok(Samples {
            values: sixteen(alloc, lengths)?,
        })
    }

    /// The value at a place of a list.
    pub fn at(&self, place: usize) -> &Value
        ensures { (lengths : AnyLengths) → AreSamples lengths self.now.values.items
            → IsSample lengths place result.now }
    {
        &self.values[place % 16]
    }
}
