//! The ends of keys: the calls that report them, and the judge of these reports.
//!
//! In half of the rounds each get, removal and release returns which key it ended. A step by hand that ends a key does
//! not. So its slot is noted, of which it may have ended one key.
use crate::moments::Moments;
use crate::pass::{LonePass, PageName};
use crate::user::User;
use history_timed::{Call, Span};
use sh_key::{KeyLayout, Parts};
use sh_value::{Hold, Refusal, Value};
use tool_judge::counts::Count;
use tool_judge::end::End;
use tool_judge::fault::{Fault, Wrong};
use tool_judge::record::Record;
use tool_judge::tally::{holds_on, is_removed};

// Notes the key that a call ended, if any, with its value's words.
fn note(record: &mut Record, times: Span, ended: Option<u64>, words: Value) {
    if let Some(key) = ended {
        record.counts.one(Count::Ends);
        record.ended(End {
            key,
            times,
            words: Some(words),
        });
    }
}

/// Notes that a step by hand may have ended this key or another one of its slot.
pub fn note_by_hand(record: &mut Record, times: Span, key: u64) {
    record.ended(End {
        key,
        times,
        words: None,
    });
}

/// Takes a hold on a key. Returns the answer and the times of the call.
pub fn get<U: User>(
    user: &mut U,
    record: &mut Record,
    moments: &Moments,
    key: u64,
) -> (Result<Hold, Refusal>, Span) {
    let begin = moments.next();
    if !record.tells_ends {
        let answer = user.get(key);
        return (answer, moments.since(begin));
    }
    let mut words = Value::empty();
    let (answer, ended) = user.get_ended(key, &mut words);
    let times = moments.since(begin);
    note(record, times, ended, words);
    (answer, times)
}

/// Removes a key. Returns the answer and the times of the call.
pub fn remove<U: User>(
    user: &mut U,
    record: &mut Record,
    moments: &Moments,
    key: u64,
) -> (Result<(), Refusal>, Span) {
    let begin = moments.next();
    if !record.tells_ends {
        let answer = user.remove(key);
        return (answer, moments.since(begin));
    }
    let mut words = Value::empty();
    let (answer, ended) = user.remove_ended(key, &mut words);
    let times = moments.since(begin);
    note(record, times, ended, words);
    (answer, times)
}

/// Releases a hold. Returns the answer and the times of the call.
pub fn release<U: User>(
    user: &mut U,
    record: &mut Record,
    moments: &Moments,
    hold: Hold,
) -> (Result<(), Refusal>, Span) {
    let begin = moments.next();
    if !record.tells_ends {
        let answer = user.release(hold);
        return (answer, moments.since(begin));
    }
    let mut words = Value::empty();
    let (answer, ended) = user.release_ended(hold, &mut words);
    let times = moments.since(begin);
    note(record, times, ended, words);
    (answer, times)
}

// The page and the slot of a key. `None` for a number that is no key.
fn slot_of<P: LonePass>(key: u64) -> Option<(PageName, u32)> {
    let (chunk, within) = P::split(key);
    let Parts {
        shard,
        page,
        slot,
        ..
    } = P::Layout::unpack(within)?;
    Some((PageName { chunk, shard, page }, slot))
}

/// The ends of a round that no key was judged with yet.
#[derive(Drop)]
pub struct Ends {
    is_told: bool,
    rest: Vec<End>,
    // A key whose end nobody reported.
    missed: Option<u64>,
}

impl Ends {
    /// All ends of a round. None is judged if its calls do not report them.
    pub fn new(is_told: bool, rest: Vec<End>) -> Ends {
        Ends {
            is_told,
            rest,
            missed: None,
        }
    }

    // Takes the first report of the end of this key.
    fn take(&mut self, key: u64) -> Option<End> {
        let place = self.rest.iter().position(|end| end.is_told(key))?;
        Some(self.rest.swap_remove(place))
    }

    // Takes a step by hand that may have ended this key.
    fn take_by_hand<P: LonePass>(&mut self, key: u64) -> Option<End> {
        let slot = slot_of::<P>(key);
        let place = self
            .rest
            .iter()
            .position(|end| end.words.is_none() && slot_of::<P>(end.key) == slot)?;
        Some(self.rest.swap_remove(place))
    }

    // Notes that nobody reported the end of this key, unless a step by hand may have ended it.
    fn miss<P: LonePass>(&mut self, key: u64) {
        if self.take_by_hand::<P>(key).is_none() {
            self.missed = Some(key);
        }
    }

    /// Judges the end of a key on which these are all calls. It is reported once, with the words of the key's value, and
    /// after the removal and all uses.
    pub fn judge<P: LonePass>(&mut self, key: u64, calls: &[Call]) -> Result<(), Fault> {
        if !self.is_told {
            return Ok(());
        }
        let has_ended = is_removed(calls, key) && holds_on(calls, key) == 0;
        let Some(end) = self.take(key) else {
            if has_ended {
                self.miss::<P>(key);
            }
            return Ok(());
        };
        let wrong = if self.take(key).is_some() {
            Wrong::EndedTwice(key)
        } else if !has_ended || end.is_early(calls) {
            Wrong::EndedEarly(key)
        } else if !end.is_of_value(calls) {
            Wrong::EndedAsAnother(key)
        } else {
            return Ok(());
        };
        Err(Fault::Wrong(wrong))
    }

    /// Judges what is left after all keys. A key may have ended on which there was no call, and one may be missing.
    pub fn judge_rest(&self) -> Result<(), Fault> {
        if let Some(end) = self.rest.iter().find(|end| end.words.is_some()) {
            return Err(Fault::Wrong(Wrong::EndedEarly(end.key)));
        }
        match self.missed {
            Some(key) => Err(Fault::Wrong(Wrong::NotEnded(key))),
            None => Ok(()),
        }
    }
}
