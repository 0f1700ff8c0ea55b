//! The words of the process.
ghost use Rattle.std.specs.Prelude.{◌≡◌, IfOk, map, string_bytes};

use std::alloc::{AllocError, Global};
use std::env::Env;
use std::{env, io};

/// The words as texts, in their order.
pub fn texts(alloc: Global, words: &[String]) -> Result<Vec<&str>, AllocError>
    ensures { IfOk result (λ texts. map (λ t. t.now) texts.items ≡ map string_bytes words.now) }
{
    let mut texts = Vec::new(alloc);
    for word in words {
        texts.push(word.as_str())?;
    }
    Ok(texts)
}

/// The result of the call with the words of the process, the first of which is the program's name. If the words can't
/// be read, it is not made, and the error is `OutOfMemory` if memory ran out, or another if a word is not valid text.
pub fn with_words<T, R: Env + AllocGlobal, F: FnOnce(&[&str]) -> T>(
    rt: &R,
    call: F,
) -> io::Result<T>
where
    F: Drop,
    requires { F.IsAlwaysCallable call }
    ensures { IfOk result (λ answer. (words : _) × F.post call words answer) }
{
    let words: Vec<String> = env::args(rt)?.collect(rt.alloc())?;
    let words = texts(rt.alloc(), words.as_slice())?;
    Ok(call(words.as_slice()))
}
