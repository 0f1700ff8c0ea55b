//! The text of an event's line.
ghost use Rattle.std.specs.Prelude.{◌≡◌, ◌++◌, ◌^◌, ◌<◌, OnOk, IfSome};
ghost use Rattle.script_models.specs.StepsOutput.{entry_name, entry_key, entry_value, outcome_text, event_line};
ghost use Rattle.script_models.specs.StepsKeys.{KeysWithin};

use script_output::keys::shown;
use script_output::numbers::{push_number, push_value};
use sh_core::Outcome;
use sh_history::Entry;
use sh_step::ActionKind;
use std::alloc::AllocError;

fn entry_name(entry: &Entry) -> &'static str
    ensures { result.now ≡ entry_name entry.now }
{
    match entry {
        Entry::Insert(_, _, _) => "Insert",
        Entry::Got(_, _, _) => "Got",
        Entry::Gone(_, _) => "Gone",
        Entry::Crowded(_, _) => "Crowded",
        Entry::Removed(_, _) => "Removed",
        Entry::Released(_, _) => "Released",
        Entry::Seen(_, _, _) => "Seen",
    }
}

fn entry_key(entry: &Entry) -> u64
    ensures { result ≡ entry_key entry.now }
{
    match entry {
        Entry::Insert(_, key, _)
        | Entry::Got(_, key, _)
        | Entry::Gone(_, key)
        | Entry::Crowded(_, key)
        | Entry::Removed(_, key)
        | Entry::Released(_, key)
        | Entry::Seen(_, key, _) => *key,
    }
}

fn push_entry_value(out: &mut Vec<u8>, entry: &Entry) -> Result<(), AllocError>
    ensures { OnOk result (out.new.items ≡ out.old.items ++ entry_value entry.now) }
{
    match entry {
        Entry::Insert(_, _, value) | Entry::Got(_, _, value) | Entry::Seen(_, _, value) => {
            out.extend_from_slice(b" ")?;
            push_value(out, value)
        }
        Entry::Gone(_, _) | Entry::Crowded(_, _) | Entry::Removed(_, _) | Entry::Released(_, _) =>
            Ok(()),
    }
}

fn push_outcome(out: &mut Vec<u8>, tag: Option<u8>, outcome: &Outcome) -> Result<(), AllocError>
    requires small { IfSome tag (λ _. KeysWithin (2 ^ 52) outcome.now) }
    ensures { OnOk result (out.new.items ≡ out.old.items ++ outcome_text tag outcome.now) }
{
    match outcome {
        Outcome::Moved => out.extend_from_slice(b"moved"),
        Outcome::Skipped => out.extend_from_slice(b"skipped"),
        Outcome::Replied(entry) => {
            out.extend_from_slice(entry_name(entry).as_bytes())?;
            out.extend_from_slice(b" ")?;
            push_number(out, shown(tag, entry_key(entry)))?;
            push_entry_value(out, entry)
        }
    }
}

/// Adds the line of an event, by its pass, its kind and its outcome. If there is a tag, a key in the outcome is below
/// 2^52.
pub fn push_event(
    out: &mut Vec<u8>,
    tag: Option<u8>,
    pass: u32,
    kind: ActionKind,
    outcome: &Outcome,
) -> Result<(), AllocError>
    requires small { IfSome tag (λ _. KeysWithin (2 ^ 52) outcome.now) }
    ensures { OnOk result (out.new.items ≡ out.old.items ++ event_line tag pass kind outcome.now) }
{
    push_number(out, pass as u64)?;
    out.extend_from_slice(b" ")?;
    out.extend_from_slice(kind.name().as_bytes())?;
    out.extend_from_slice(b" ")?;
    push_outcome(out, tag, outcome)?;
    out.extend_from_slice(b"\n")
}
