//! Places: numbers joined by dots.
ghost use Rattle.std.specs.Prelude.{◌≡◌, ◌<◌, IfSome, length, option_map};
ghost use Rattle.std.specs.List.{position};
ghost use Rattle.sh_script.specs.Words.{is_dot, split_dot};
ghost use Rattle.sh_script.specs.Trouble.{Gives, or_cause};
ghost use Rattle.sh_script.specs.EventLines.{page_from, slot_from};

use crate::arguments::number_or_cause;
use crate::fault::Cause;
use crate::trouble::Trouble;
use sh_step::{PageName, SlotName};

fn dot_in(word: &[u8]) -> Option<usize>
    ensures dot { result ≡ position is_dot word.now }
    ensures within { IfSome result (λ i. i < length word.now) }
{
    word.iter().position(|b| *b == b'.')
}

// The parts before and after the first dot, if there is a dot.
fn split_dot(word: &[u8]) -> Option<(&[u8], &[u8])>
    ensures { option_map (λ p. (p.0.now, p.1.now)) result ≡ split_dot word.now }
{
    match dot_in(word) {
        Some(dot) => Some((&word[..dot], &word[dot + 1..])),
        None => None,
    }
}

// The same, or the trouble that there is no dot.
fn at_dot(word: &[u8]) -> Result<(&[u8], &[u8]), Trouble>
    ensures { Gives (λ p. (p.0.now, p.1.now)) result (or_cause Cause.Number (split_dot word.now)) }
{
    split_dot(word).ok_or(Trouble::Because(Cause::Number))
}

/// The page that a word `S.P` names.
#[tactic(auto, unfolding(crate::specs::EventLines::page_from))]
pub fn page(word: &[u8]) -> Result<PageName, Trouble>
    ensures { Gives (λ p. p) result (page_from word.now) }
{
    let (shard, page) = at_dot(word)?;
    let shard = number_or_cause(shard)?;
    let page = number_or_cause(page)?;
    Ok(PageName { shard, page })
}

/// The slot that a word `S.P.s` names.
#[tactic(auto, unfolding(crate::specs::EventLines::slot_from))]
pub fn slot(word: &[u8]) -> Result<SlotName, Trouble>
    ensures { Gives (λ s. s) result (slot_from word.now) }
{
    let (shard, rest) = at_dot(word)?;
    let (page, slot) = at_dot(rest)?;
    let shard = number_or_cause(shard)?;
    let page = number_or_cause(page)?;
    let slot = number_or_cause(slot)?;
    Ok(SlotName { shard, page, slot })
}
