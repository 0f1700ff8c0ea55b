//! Words, numbers and names.
ghost use Rattle.std.specs.Prelude.{◌≡◌, IfOk, map};
ghost use Rattle.std.specs.List.{list_all};
ghost use Rattle.sh_script.specs.Words.{words_in, number_of, number_from, is_digit, is_small_letter, is_name_byte};
ghost use Rattle.sh_script.specs.Words.{is_name};

use std::alloc::{AllocError, Global};

/// The words of a line: its runs of bytes other than space.
pub fn words(alloc: Global, line: &[u8]) -> Result<Vec<&[u8]>, AllocError>
    ensures { IfOk result (λ words. map (λ w. w.now) words.items ≡ words_in line.now) }
{
    line.split(|b| *b == b' ')
        .filter(|w| !w.is_empty())
        .collect(alloc)
}

/// The number below 2^64 whose decimal digits the word is.
pub fn number(word: &[u8]) -> Option<u64>
    ensures { result ≡ number_of word.now }
{
    if word.is_empty() || (word[0] == b'0' && word.len() > 1) {
        return None;
    }
    digits(word)
}

fn digits(word: &[u8]) -> Option<u64>
    ensures { result ≡ number_from 0 word.now }
{
    let mut number: u64 = 0;
    for b in word {
        if !is_digit(*b) {
            return None;
        }
        number = number.checked_mul(10)?.checked_add(u64::from(*b - b'0'))?;
    }
    Some(number)
}

fn is_digit(b: u8) -> bool
    ensures { result ≡ is_digit b }
{
    b'0' <= b && b <= b'9'
}

fn is_small_letter(b: u8) -> bool
    ensures { result ≡ is_small_letter b }
{
    b'a' <= b && b <= b'z'
}

fn is_name_byte(b: u8) -> bool
    ensures { result ≡ is_name_byte b }
{
    is_small_letter(b) || is_digit(b) || b == b'_'
}

/// Whether a word is a name: a small letter, and at most 31 small letters, digits and `_` after it.
pub fn is_name(word: &[u8]) -> bool
    ensures { result ≡ is_name word.now }
{
    let Some((first, others)) = word.split_first() else {
        return false;
    };
    is_small_letter(*first) && others.len() <= 31 && are_name_bytes(others)
}

fn are_name_bytes(bytes: &[u8]) -> bool
    ensures { result ≡ list_all is_name_byte bytes.now }
{
    bytes.iter().all(|b| is_name_byte(*b))
}
