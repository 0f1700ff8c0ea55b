//! What a line of a script says.
ghost use Rattle.std.specs.Prelude.{◌<◌, IfOk};

use sh_script::Cause;
use sh_script::words::{is_name, number};
use std::alloc::{AllocError, Global};

/// Why a line was not run.
#[derive(Clone, Copy, Debug, PartialEq, Eq)]
pub enum Trouble {
    /// Memory was asked for and refused.
    Memory,
    /// The heap of the header is refused.
    BadShape,
    /// A write failed.
    Io,
    /// The line has this fault.
    Because(Cause),
}

impl From<AllocError> for Trouble {
    ghost use Rattle.std.specs.Prelude.{◌≡◌};
    ghost use Rattle.tool_calls.specs.declared.line.Trouble.TheVariants.{Memory};

    ghost from_gives = { λ _ e. e ≡ Memory };

    fn from(_error: AllocError) -> Trouble {
        Trouble::Memory
    }
}

impl From<Cause> for Trouble {
    ghost use Rattle.std.specs.Prelude.{◌≡◌};
    ghost use Rattle.tool_calls.specs.declared.line.Trouble.TheVariants.{Because};

    ghost from_gives = { λ cause e. e ≡ Because cause };

    fn from(cause: Cause) -> Trouble {
        Trouble::Because(cause)
    }
}

/// What a call is on: a name that an earlier insert bound, or `#` and a key.
#[derive(Clone, Copy, Debug, PartialEq, Eq)]
pub enum Reference<'a> {
    /// A name.
    Name(&'a [u8]),
    /// A key.
    Key(u64),
}

/// A call on a key.
#[derive(Clone, Copy, Debug, PartialEq, Eq)]
pub enum KeyCall {
    /// `get R`
    Get,
    /// `read R`
    Read,
    /// `look R`
    Look,
    /// `take R`
    Take,
    /// `remove R`
    Remove,
    /// `release R`
    Release,
}

/// A call, as a line says it.
#[derive(Debug, Drop)]
pub enum Call<'a> {
    /// `adopt S`
    Adopt(u64),
    /// `leave`
    Leave,
    /// `collect`
    Collect,
    /// `prepare W`: a page for values of this many words.
    Prepare(u64),
    /// `insert NAME w ..`
    Insert(&'a [u8], Vec<u64>),
    /// A call on a key.
    OnKey(KeyCall, Reference<'a>),
    /// `next PLACE`
    Next(u64),
    /// `hold PLACE`
    Hold(u64),
    /// `walk`
    Walk,
}

// The next word, and those after it.
fn next<'w, 'a>(words: &'w [&'a [u8]]) -> Result<(&'a [u8], &'w [&'a [u8]]), Cause> {
    match words.split_first() {
        Some((first, rest)) => Ok((*first, rest)),
        None => Err(Cause::Count),
    }
}

// The only word.
fn only<'a>(words: &[&'a [u8]]) -> Result<&'a [u8], Cause> {
    let (word, rest) = next(words)?;
    none(rest)?;
    Ok(word)
}

fn none(words: &[&[u8]]) -> Result<(), Cause> {
    if words.is_empty() {
        Ok(())
    } else {
        Err(Cause::Count)
    }
}

fn number_in(word: &[u8]) -> Result<u64, Cause> {
    match number(word) {
        Some(number) => Ok(number),
        None => Err(Cause::Number),
    }
}

// The number that the only word is.
fn only_number(words: &[&[u8]]) -> Result<u64, Cause> {
    number_in(only(words)?)
}

fn name_in(word: &[u8]) -> Result<&[u8], Cause> {
    if is_name(word) {
        Ok(word)
    } else {
        Err(Cause::Name)
    }
}

fn reference_in(word: &[u8]) -> Result<Reference<'_>, Cause> {
    match word.split_first() {
        Some((b'#', digits)) => Ok(Reference::Key(number_in(digits)?)),
        _ => Ok(Reference::Name(name_in(word)?)),
    }
}

/// The numbers that the words are.
pub fn numbers_in(alloc: Global, words: &[&[u8]]) -> Result<Vec<u64>, Trouble> {
    let mut numbers = Vec::new(alloc);
    for word in words {
        let number = number_in(word)?;
        if numbers.push(number).is_err() {
            return Err(Trouble::Memory);
        }
    }
    Ok(numbers)
}

fn insert_in<'a>(alloc: Global, words: &[&'a [u8]]) -> Result<Call<'a>, Trouble> {
    let (name, rest) = next(words)?;
    let name = name_in(name)?;
    Ok(Call::Insert(name, numbers_in(alloc, rest)?))
}

fn key_call(word: &[u8]) -> Option<KeyCall> {
    match word {
        b"get" => Some(KeyCall::Get),
        b"read" => Some(KeyCall::Read),
        b"look" => Some(KeyCall::Look),
        b"take" => Some(KeyCall::Take),
        b"remove" => Some(KeyCall::Remove),
        b"release" => Some(KeyCall::Release),
        _ => None,
    }
}

// A call of one word.
fn plain_call<'a>(command: &[u8], rest: &[&[u8]]) -> Result<Call<'a>, Cause> {
    let call = match command {
        b"leave" => Call::Leave,
        b"collect" => Call::Collect,
        b"walk" => Call::Walk,
        _ => return Err(Cause::Command),
    };
    none(rest)?;
    Ok(call)
}

/// The call that the words after the number of the pass say.
pub fn call_of<'a>(alloc: Global, words: &[&'a [u8]]) -> Result<Call<'a>, Trouble> {
    let (command, rest) = next(words)?;
    if let Some(call) = key_call(command) {
        return Ok(Call::OnKey(call, reference_in(only(rest)?)?));
    }
    match command {
        b"insert" => insert_in(alloc, rest),
        b"adopt" => Ok(Call::Adopt(only_number(rest)?)),
        b"prepare" => Ok(Call::Prepare(only_number(rest)?)),
        b"next" => Ok(Call::Next(only_number(rest)?)),
        b"hold" => Ok(Call::Hold(only_number(rest)?)),
        _ => Ok(plain_call(command, rest)?),
    }
}

/// The pass whose call a line is, which is below the number of passes, and the words after it.
pub fn pass_of<'w, 'a>(
    passes: usize,
    words: &'w [&'a [u8]],
) -> Result<(usize, &'w [&'a [u8]]), Cause>
    ensures { IfOk result (λ line. line.0 < passes) }
{
    let (word, rest) = next(words)?;
    let pass = number_in(word)?;
    if pass < passes as u64 {
        Ok((pass as usize, rest))
    } else {
        Err(Cause::Pass)
    }
}
