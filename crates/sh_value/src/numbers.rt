//! Records of numbers: a `u64`, and tuples and arrays of them. Their kind is the number of their words.
//!
//! So a struct of some numbers is stored as a tuple or an array, with no trait to implement. What was stored as a tuple
//! may be read as the array of the same words, and the other way round.
ghost use Rattle.std.specs.Prelude.{◌≡◌, nat_lt, true, ◌==◌, if◌then◌else◌, get_or, length, [], ◌∷◌, Some, None};

use crate::short::{Length, Short};
use crate::{Record, Value};

impl<const N: usize> Record for [u64; N]
where
    Length: Short<N>,
{
    const KIND: u64 = N as u64;

    ghost KIND = { N };

    ghost words = { λ r. r };

    ghost record_of = { λ ws. if length ws == N then Some ws else None };

    fn encode(&self) -> Value {
        Value::of(*self)
    }

    fn decode(value: &Value) -> Option<Self> {
        value.words().try_into().ok()
    }
}

impl Record for u64 {
    const KIND: u64 = 1;

    ghost KIND = { 1 };

    ghost words = { λ r. r ∷ [] };

    ghost record_of = { λ ws. if length ws == 1 then Some (get_or ws 0 0) else None };

    fn encode(&self) -> Value {
        Value::from(*self)
    }

    fn decode(value: &Value) -> Option<Self> {
        match value.words() {
            [word] => Some(*word),
            _ => None,
        }
    }
}

impl Record for (u64, u64) {
    const KIND: u64 = 2;

    ghost KIND = { 2 };

    ghost words = { λ r. r.0 ∷ r.1 ∷ [] };

    ghost record_of = { λ ws. if length ws == 2 then Some (get_or ws 0 0, get_or ws 1 0) else None };

    fn encode(&self) -> Value {
        Value::of([self.0, self.1])
    }

    fn decode(value: &Value) -> Option<Self> {
        match value.words() {
            [a, b] => Some((*a, *b)),
            _ => None,
        }
    }
}

impl Record for (u64, u64, u64) {
    const KIND: u64 = 3;

    ghost KIND = { 3 };

    ghost words = { λ r. r.0 ∷ r.1 ∷ r.2 ∷ [] };

    ghost record_of = { λ ws. if length ws == 3 then Some (get_or ws 0 0, get_or ws 1 0, get_or ws 2 0) else None };

    fn encode(&self) -> Value {
        Value::of([self.0, self.1, self.2])
    }

    fn decode(value: &Value) -> Option<Self> {
        match value.words() {
            [a, b, c] => Some((*a, *b, *c)),
            _ => None,
        }
    }
}

impl Record for (u64, u64, u64, u64) {
    const KIND: u64 = 4;

    ghost KIND = { 4 };

    ghost words = { λ r. r.0 ∷ r.1 ∷ r.2 ∷ r.3 ∷ [] };

    ghost record_of = { λ ws.
        if length ws == 4 then Some (get_or ws 0 0, get_or ws 1 0, get_or ws 2 0, get_or ws 3 0) else None };

    fn encode(&self) -> Value {
        Value::of([self.0, self.1, self.2, self.3])
    }

    fn decode(value: &Value) -> Option<Self> {
        match value.words() {
            [a, b, c, d] => Some((*a, *b, *c, *d)),
            _ => None,
        }
    }
}
