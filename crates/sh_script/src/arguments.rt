//! The words of a line, taken one after the other.
ghost use Rattle.std.specs.Prelude.{◌≡◌, map, option_map};
ghost use Rattle.sh_script.specs.Words.{number_of};
ghost use Rattle.sh_script.specs.Trouble.{Gives, or_cause};
ghost use Rattle.sh_script.specs.Arguments.{next_of, number_at, pass_at, only_of, two_of, none_of};

use crate::fault::Cause;
use crate::trouble::Trouble;
use crate::words::number;

/// The next word and those after it, or the trouble that there is none.
pub fn next<'w, 'a>(
    cause: Cause,
    words: &'w [&'a [u8]],
) -> Result<(&'a [u8], &'w [&'a [u8]]), Trouble>
    ensures { Gives (λ x. (x.0.now, map (λ w. w.now) x.1.now)) result
        (next_of cause (map (λ w. w.now) words.entry.now)) }
{
    match words.split_first() {
        Some((first, others)) => Ok((*first, others)),
        None => Err(Trouble::Because(cause)),
    }
}

/// The number that the next word is and the words after it, or the trouble that the word is no number.
pub fn next_number<'w, 'a>(
    cause: Cause,
    words: &'w [&'a [u8]],
) -> Result<(u64, &'w [&'a [u8]]), Trouble>
    ensures { Gives (λ x. (x.0, map (λ w. w.now) x.1.now)) result (number_at cause (map (λ w. w.now) words.entry.now)) }
{
    let (word, rest) = next(cause, words)?;
    match number(word) {
        Some(n) => Ok((n, rest)),
        None => Err(Trouble::Because(cause)),
    }
}

/// The pass that the next word is, which is below the number of passes, and the words after it.
pub fn next_pass<'w, 'a>(
    passes: u32,
    words: &'w [&'a [u8]],
) -> Result<(u32, &'w [&'a [u8]]), Trouble>
    ensures { Gives (λ x. (x.0, map (λ w. w.now) x.1.now)) result (pass_at passes (map (λ w. w.now) words.entry.now)) }
{
    let (pass, rest) = next_number(Cause::Number, words)?;
    if passes as u64 <= pass {
        return Err(Trouble::Because(Cause::Pass));
    }
    Ok((pass as u32, rest))
}

/// Succeeds if there is no word.
pub fn none(words: &[&[u8]]) -> Result<(), Trouble>
    ensures { Gives (λ u. u) result (none_of (map (λ w. w.now) words.now)) }
{
    if words.is_empty() {
        Ok(())
    } else {
        Err(Trouble::Because(Cause::Count))
    }
}

/// The only word.
pub fn only<'a>(words: &[&'a [u8]]) -> Result<&'a [u8], Trouble>
    ensures { Gives (λ w. w.now) result (only_of (map (λ w. w.now) words.now)) }
{
    let (word, rest) = next(Cause::Count, words)?;
    if !rest.is_empty() {
        return Err(Trouble::Because(Cause::Count));
    }
    Ok(word)
}

/// The two words, if there are two.
pub fn two<'a>(words: &[&'a [u8]]) -> Option<(&'a [u8], &'a [u8])>
    ensures { option_map (λ p. (p.0.now, p.1.now)) result ≡ two_of (map (λ w. w.now) words.now) }
{
    let (first, rest) = words.split_first()?;
    let (second, rest) = rest.split_first()?;
    if rest.is_empty() {
        Some((*first, *second))
    } else {
        None
    }
}

/// The number that the word is.
pub fn number_or_cause(word: &[u8]) -> Result<u64, Trouble>
    ensures { Gives (λ n. n) result (or_cause Cause.Number (number_of word.now)) }
{
    number(word).ok_or(Trouble::Because(Cause::Number))
}
