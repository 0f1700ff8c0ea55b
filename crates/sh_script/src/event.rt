//! A line with an event, read from its words.
ghost use Rattle.std.specs.Prelude.{◌≡◌, map};
ghost use Rattle.sh_script.specs.Trouble.{Gives};
ghost use Rattle.sh_script.specs.EventLines.{kinds, kind_named, number_alone, page_alone, bare, enter_of, drop_of};
ghost use Rattle.sh_script.specs.EventLines.{fill_of, part_of, read_of, set_class_of, put_of, action_of, event_of};
ghost use Rattle.sh_script.specs.EventLines.{event_added};

use crate::arguments::{next, next_pass, none, number_or_cause, only, two};
use crate::fault::Cause;
use crate::header::Header;
use crate::numbers::read_numbers;
use crate::place::{page, slot};
use crate::reader::ScriptBody;
use crate::trouble::Trouble;
use sh_step::{Action, ActionKind, Event, PageName};
use sh_value::{Value, WORDS_MAX};
use std::alloc::Global;
use std::marker::Model;

/// A script of events: its header, and its events in order.
#[derive(Debug, Drop)]
pub struct Events {
    pub header: Header,
    pub lines: Vec<Event>,
}

const KINDS: [ActionKind; 19] = [
    ActionKind::Enter,
    ActionKind::Mark,
    ActionKind::Drop,
    ActionKind::Finish,
    ActionKind::Fill,
    ActionKind::Publish,
    ActionKind::Read,
    ActionKind::SetClass,
    ActionKind::Take,
    ActionKind::Follow,
    ActionKind::Put,
    ActionKind::Tie,
    ActionKind::Adopt,
    ActionKind::Leave,
    ActionKind::Arm,
    ActionKind::Ring,
    ActionKind::RingTie,
    ActionKind::TakeBell,
    ActionKind::FollowBell,
];

fn kind_named(word: &[u8]) -> Option<ActionKind>
    ensures { result ≡ kind_named word.now }
{
    KINDS
        .iter()
        .copied()
        .find(|kind| kind.name().as_bytes() == word)
}

fn number_alone(words: &[&[u8]]) -> Result<u64, Trouble>
    ensures { Gives (λ n. n) result (number_alone (map (λ w. w.now) words.now)) }
{
    number_or_cause(only(words)?)
}

fn page_alone(words: &[&[u8]]) -> Result<PageName, Trouble>
    ensures { Gives (λ p. p) result (page_alone (map (λ w. w.now) words.now)) }
{
    page(only(words)?)
}

// An action that has no arguments.
fn bare(action: Action, words: &[&[u8]]) -> Result<Action, Trouble>
    ensures { Gives (λ a. a) result (bare action (map (λ w. w.now) words.now)) }
{
    none(words)?;
    Ok(action)
}

#[tactic(auto, unfolding(crate::specs::EventLines::enter_of))]
fn enter(words: &[&[u8]]) -> Result<Action, Trouble>
    ensures { Gives (λ a. a) result (enter_of (map (λ w. w.now) words.now)) }
{
    let (way, rest) = next(Cause::Count, words)?;
    if way == b"get".as_slice() {
        Ok(Action::EnterGet(number_alone(rest)?))
    } else if way == b"remove".as_slice() {
        Ok(Action::EnterRemove(number_alone(rest)?))
    } else {
        Err(Trouble::Because(Cause::Command))
    }
}

#[tactic(auto, unfolding(crate::specs::EventLines::drop_of))]
fn drop(words: &[&[u8]]) -> Result<Action, Trouble>
    ensures { Gives (λ a. a) result (drop_of (map (λ w. w.now) words.now)) }
{
    if words.is_empty() {
        return Ok(Action::Drop);
    }
    Ok(Action::DropHold(number_alone(words)?))
}

#[tactic(auto, unfolding(crate::specs::EventLines::put_of))]
fn put(words: &[&[u8]]) -> Result<Action, Trouble>
    ensures { Gives (λ a. a) result (put_of (map (λ w. w.now) words.now)) }
{
    if words.is_empty() {
        return Ok(Action::Put);
    }
    Ok(Action::PutSlot(slot(only(words)?)?))
}

// A value, whose words are at most 16, and its slot; or no word.
#[tactic(auto, unfolding(crate::specs::EventLines::fill_of))]
fn fill(alloc: Global, words: &[&[u8]]) -> Result<Action, Trouble>
    ensures { Gives (λ a. a) result (fill_of (map (λ w. w.now) words.now)) }
{
    let Some((place, others)) = words.split_first() else {
        return Ok(Action::Fill);
    };
    if others.len() > WORDS_MAX {
        return Err(Trouble::Because(Cause::Count));
    }
    let slot = slot(place)?;
    let words = read_numbers(alloc, others)?;
    match Value::new(words.as_slice()) {
        Ok(value) => Ok(Action::FillSlot(slot, value)),
        Err(_) => unreachable!(),
    }
}

// What read number j of a key reads: its class, its length, or word j - 2.
fn part(key: u64, number: u64) -> Action
    ensures { result ≡ part_of key number }
{
    match number {
        0 => Action::ReadClass(key),
        1 => Action::ReadLength(key),
        _ => Action::ReadWord(key, number - 2),
    }
}

#[tactic(auto, unfolding(crate::specs::EventLines::read_of))]
fn read(words: &[&[u8]]) -> Result<Action, Trouble>
    ensures { Gives (λ a. a) result (read_of (map (λ w. w.now) words.now)) }
{
    let Some((key, number)) = two(words) else {
        return Ok(Action::ReadPage(page_alone(words)?));
    };
    let key = number_or_cause(key)?;
    let number = number_or_cause(number)?;
    Ok(part(key, number))
}

#[tactic(auto, unfolding(crate::specs::EventLines::set_class_of))]
fn set_class(words: &[&[u8]]) -> Result<Action, Trouble>
    ensures { Gives (λ a. a) result (set_class_of (map (λ w. w.now) words.now)) }
{
    let (place, class) = two(words).ok_or(Trouble::Because(Cause::Count))?;
    let page = page(place)?;
    Ok(Action::SetClass(page, number_or_cause(class)?))
}

#[tactic(auto, unfolding(crate::specs::EventLines::action_of))]
fn action(alloc: Global, kind: ActionKind, words: &[&[u8]]) -> Result<Action, Trouble>
    ensures { Gives (λ a. a) result (action_of kind (map (λ w. w.now) words.now)) }
{
    match kind {
        ActionKind::Enter => enter(words),
        ActionKind::Mark => bare(Action::Mark, words),
        ActionKind::Drop => drop(words),
        ActionKind::Finish => bare(Action::Finish, words),
        ActionKind::Fill => fill(alloc, words),
        ActionKind::Publish => bare(Action::Publish, words),
        ActionKind::Read => read(words),
        ActionKind::SetClass => set_class(words),
        ActionKind::Take => Ok(Action::Take(page_alone(words)?)),
        ActionKind::Follow => Ok(Action::Follow(page_alone(words)?)),
        ActionKind::Put => put(words),
        ActionKind::Tie => bare(Action::Tie, words),
        ActionKind::Adopt => Ok(Action::Adopt(number_alone(words)?)),
        ActionKind::Leave => bare(Action::Leave, words),
        ActionKind::Arm => Ok(Action::Arm(page_alone(words)?)),
        ActionKind::Ring => bare(Action::Ring, words),
        ActionKind::RingTie => bare(Action::RingTie, words),
        ActionKind::TakeBell => bare(Action::TakeBell, words),
        ActionKind::FollowBell => bare(Action::FollowBell, words),
    }
}

/// The event that the words express.
#[tactic(auto, unfolding(crate::specs::EventLines::event_of))]
pub fn event(alloc: Global, passes: u32, words: &[&[u8]]) -> Result<Event, Trouble>
    ensures { Gives (λ e. e) result (event_of passes (map (λ w. w.now) words.now)) }
{
    let (pass, rest) = next_pass(passes, words)?;
    let (word, rest) = next(Cause::Count, rest)?;
    let Some(kind) = kind_named(word) else {
        return Err(Trouble::Because(Cause::Command));
    };
    let action = action(alloc, kind, rest)?;
    Ok(Event { pass, action })
}

/// The events so far. A contract sees the list of them.
#[derive(Drop)]
pub struct EventsRead {
    lines: Vec<Event>,
}

impl Model for EventsRead {
    ghost use Rattle.std.specs.Prelude.{List};
    ghost use Rattle.sh_step.specs.declared.action.Event.{Event};

    ghost Value = { List Event };

    ghost view = { λ e. e.lines.items };
}

impl EventsRead {
    ghost use Rattle.std.specs.Prelude.{[]};

    /// No events.
    pub fn new(alloc: Global) -> Self
        ensures { result ≡ [] }
    {
        EventsRead {
            lines: Vec::new(alloc),
        }
    }

    /// The events, in order.
    pub fn into_lines(self) -> Vec<Event>
        ensures { result.items ≡ self }
    {
        self.lines
    }
}

impl<'a> ScriptBody<'a> for EventsRead {
    ghost adds = { event_added };

    fn add(&mut self, alloc: Global, passes: u32, words: &[&'a [u8]]) -> Result<(), Trouble> {
        self.lines.push(event(alloc, passes, words)?)?;
        Ok(())
    }
}
