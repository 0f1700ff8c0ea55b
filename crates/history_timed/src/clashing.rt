//! Lines that clash in each order.
ghost use Rattle.std.specs.Prelude.{◌≡◌, true, not, ◌||◌, ◌&&◌, IfSome, IfNone, Some, None, All, option_map};
ghost use Rattle.std.specs.List.{list_all, Contains};
ghost use Rattle.history_timed.specs.declared.call.Call.{Call as Other};
ghost use Rattle.history_timed.specs.Times.{ends_before, is_ended};
ghost use Rattle.history_timed.specs.Calls.{inserts, removes};
ghost use Rattle.history_timed.specs.Clashes.{first_line, is_another, inserts_value};
ghost use Rattle.history_timed.specs.Clashes.{IsAnswer, IsInsertedTwice, IsNeverIssued, HasNoSuchInsert};
ghost use Rattle.history_timed.specs.Clashes.{IsOfRemoved, IsNotGone, IsHeldByNone, IsUncrowded, IsClash};
ghost use Rattle.history_timed.specs.Clashes.{ClashesForNone, ClashesWithNone, IsAnyAnswer};

use crate::call::{Call, Said};
use crate::index::Index;
use history_audit::Clash;
use sh_history::{Entry, Why};
use sh_value::Value;

// The line of the first other call that inserted the key, and ended.
fn other_insert(calls: &[Call], key: u64, call: &Call) -> Option<u64>
    ensures { result ≡ first_line (λ (o : Other). inserts key o.said && is_another call.now o) calls.now }
{
    calls
        .iter()
        .find(|other| other.said.inserts(key) && other.is_another(call))
        .map(|other| other.line)
}

// The line of the first call that inserted the key.
fn any_insert(calls: &[Call], key: u64) -> Option<u64>
    ensures { result ≡ first_line (λ (o : Other). inserts key o.said) calls.now }
{
    calls
        .iter()
        .find(|other| other.said.inserts(key))
        .map(|other| other.line)
}

// The line of the first other call that removed the key, and ended.
fn other_removal(calls: &[Call], key: u64, call: &Call) -> Option<u64>
    ensures { result ≡ first_line (λ (o : Other). removes key o.said && is_another call.now o) calls.now }
{
    calls
        .iter()
        .find(|other| other.said.removes(key) && other.is_another(call))
        .map(|other| other.line)
}

// The line of the first call that removed the key and ended before this one began.
fn earlier_removal(calls: &[Call], key: u64, call: &Call) -> Option<u64>
    ensures { result ≡ first_line (λ (o : Other). removes key o.said && ends_before o.times call.now.times) calls.now }
{
    calls
        .iter()
        .find(|other| other.said.removes(key) && other.times.ends_before(&call.times))
        .map(|other| other.line)
}

// Whether each call that inserted the key began after this one had ended.
fn is_never_issued(calls: &[Call], key: u64, call: &Call) -> bool
    ensures { result ≡ list_all
        (λ (o : Other). not (inserts key o.said) || ends_before call.now.times o.times) calls.now }
{
    calls.iter().all(|other| !other.said.inserts(key) || call.times.ends_before(&other.times))
}

// Whether no call inserted the key with this value.
fn has_no_such_insert(calls: &[Call], key: u64, value: &Value) -> bool
    ensures { result ≡ list_all (λ (o : Other). not (inserts_value key value.now o.said)) calls.now }
{
    calls
        .iter()
        .all(|other| !other.said.inserts_value(key, value))
}

// Whether each call that removed the key began after this one had ended.
fn is_removed_later(calls: &[Call], key: u64, call: &Call) -> bool
    ensures { result ≡ list_all
        (λ (o : Other). not (removes key o.said) || ends_before call.now.times o.times) calls.now }
{
    calls.iter().all(|other| !other.said.removes(key) || call.times.ends_before(&other.times))
}

// A clash of the call with that of a line, if there is one.
fn with_line(why: Why, by: Option<u64>) -> Option<Clash>
    ensures { result ≡ option_map (λ line. record { why = why; by = Some line }) by }
{
    match by {
        Some(line) => Some(Clash {
            why,
            by: Some(line),
        }),
        None => None,
    }
}

// A clash with what is missing.
fn missing(why: Why) -> Clash
    ensures { result ≡ record { why = why; by = None } }
{
    Clash { why, by: None }
}

fn not_new(calls: &Index, key: u64, call: &Call) -> Option<Clash>
    ensures { IsAnswer Why.NotNew (IsInsertedTwice calls.now key call.now) result }
{
    if !call.said.inserts(key) {
        return None;
    }
    with_line(Why::NotNew, other_insert(calls.changes(key), key, call))
}

fn not_issued(calls: &Index, key: u64, call: &Call) -> Option<Clash>
    ensures { IsAnswer Why.NotIssued (IsNeverIssued calls.now key call.now) result }
{
    let is_found = call.said.uses(key) || call.said.removes(key);
    if is_found && is_never_issued(calls.changes(key), key, call) {
        Some(missing(Why::NotIssued))
    } else {
        None
    }
}

fn other_value(calls: &Index, key: u64, call: &Call) -> Option<Clash>
    ensures { IsAnswer Why.OtherValue (HasNoSuchInsert calls.now key call.now) result }
{
    let Some(value) = call.said.returned(key) else {
        return None;
    };
    if !has_no_such_insert(calls.changes(key), key, value) {
        return None;
    }
    with_line(Why::OtherValue, any_insert(calls.changes(key), key))
}

fn after_removal(calls: &Index, key: u64, call: &Call) -> Option<Clash>
    ensures { IsAnswer Why.AfterRemoval (IsOfRemoved calls.now key call.now) result }
{
    if call.said.uses(key) {
        return with_line(
            Why::AfterRemoval,
            earlier_removal(calls.changes(key), key, call),
        );
    }
    if call.said.removes(key) {
        return with_line(
            Why::AfterRemoval,
            other_removal(calls.changes(key), key, call),
        );
    }
    None
}

fn still_there(calls: &Index, key: u64, call: &Call) -> Option<Clash>
    ensures { IsAnswer Why.StillThere (IsNotGone calls.now key call.now) result }
{
    let Said::Known(Entry::Gone(_, gone)) = &call.said else {
        return None;
    };
    let stays = is_removed_later(calls.changes(key), key, call) || calls.is_used_later(key, call);
    if *gone != key || !stays {
        return None;
    }
    with_line(Why::StillThere, calls.earlier_find(key, call))
}

fn not_crowded(calls: &Index, key: u64, call: &Call, passes: u32, guard_max: u32) -> Option<Clash>
    requires { is_ended call.now.times ≡ true }
    ensures { IsAnswer Why.NotCrowded (IsUncrowded passes guard_max calls.now key call.now) result }
{
    let Said::Known(Entry::Crowded(_, crowded)) = &call.said else {
        return None;
    };
    let holds = calls
        .all_gets_before(key, call)
        .saturating_sub(calls.all_releases_before(key, call));
    if *crowded == key && holds as u128 + passes as u128 <= guard_max as u128 {
        Some(missing(Why::NotCrowded))
    } else {
        None
    }
}

fn not_held(calls: &Index, key: u64, call: &Call) -> Option<Clash>
    requires { is_ended call.now.times ≡ true }
    ensures { IsAnswer Why.NotHeld (IsHeldByNone calls.now key call.now) result }
{
    let Said::Known(Entry::Released(pass, released)) = &call.said else {
        return None;
    };
    let most = calls.gets_before(*pass, key, call);
    if *released == key && most <= calls.releases_before(*pass, key, call) {
        Some(missing(Why::NotHeld))
    } else {
        None
    }
}

// The clash of a call for this reason.
fn clash(calls: &Index, call: &Call, why: Why, passes: u32, guard_max: u32) -> Option<Clash>
    ensures { IsAnswer why (IsClash passes guard_max calls.now call.now why) result }
{
    if !call.times.is_ended() {
        return None;
    }
    let key = call.said.key();
    match why {
        Why::NotNew => not_new(calls, key, call),
        Why::NotIssued => not_issued(calls, key, call),
        Why::OtherValue => other_value(calls, key, call),
        Why::AfterRemoval => after_removal(calls, key, call),
        Why::StillThere => still_there(calls, key, call),
        Why::NotCrowded => not_crowded(calls, key, call, passes, guard_max),
        Why::NotHeld => not_held(calls, key, call),
    }
}

// The clash of a call, for the first of these reasons for which it clashes.
fn first_clash(
    reasons: &[Why],
    calls: &Index,
    call: &Call,
    passes: u32,
    guard_max: u32,
) -> Option<Clash>
    ensures some { IfSome result (λ clash. IsClash passes guard_max calls.now call.now clash.why clash.by) }
    ensures none { IfNone result (All (ClashesForNone passes guard_max calls.now call.now) reasons.now) }
{
    for why in reasons {
        if let Some(clash) = clash(calls, call, *why, passes, guard_max) {
            return Some(clash);
        }
    }
    None
}

/// The clash of a call, for the first reason of the order of `Why` for which it clashes. `None` if it does not clash.
pub fn any_clash(calls: &Index, call: &Call, passes: u32, guard_max: u32) -> Option<Clash>
    ensures { IsAnyAnswer passes guard_max calls.now call.now result }
{
    let reasons = [
        Why::NotNew,
        Why::NotIssued,
        Why::OtherValue,
        Why::AfterRemoval,
        Why::StillThere,
        Why::NotCrowded,
        Why::NotHeld,
    ];
    first_clash(&reasons, calls, call, passes, guard_max)
}

// The last call that inserted the key.
fn last_insert<'a>(calls: &'a [Call], key: u64) -> Option<&'a Call>
    ensures { IfSome result (λ call. Contains calls.now call.now) }
{
    let mut last = None;
    for call in calls {
        if call.said.inserts(key) {
            last = Some(call);
        }
    }
    last
}

/// The clash of a call that some order does not allow for this reason, if no order of the calls that keeps to their
/// times is legal. If its key was inserted twice, the second insert may clash in its place. It looks for a proof by the
/// times of one or two other calls, or by counting.
pub fn refusal<'a>(
    calls: &Index<'a>,
    call: &'a Call,
    why: Why,
    passes: u32,
    guard_max: u32,
) -> Option<(&'a Call, Clash)>
    ensures clashes { IfSome result (λ r. IsClash passes guard_max calls.now r.0.now r.1.why r.1.by) }
    ensures is_in { Contains calls.now call.now → IfSome result (λ r. Contains calls.now r.0.now) }
{
    if let Some(clash) = clash(calls, call, why, passes, guard_max) {
        return Some((call, clash));
    }
    let insert = last_insert(calls.calls(), call.said.key())?;
    let clash = clash(calls, insert, Why::NotNew, passes, guard_max)?;
    Some((insert, clash))
}

/// The first call that clashes, for whatever reason.
pub fn first_clashing<'a>(
    calls: &Index<'a>,
    passes: u32,
    guard_max: u32,
) -> Option<(&'a Call, Clash)>
    ensures clashes { IfSome result (λ r. IsClash passes guard_max calls.now r.0.now r.1.why r.1.by) }
    ensures is_in { IfSome result (λ r. Contains calls.now r.0.now) }
    ensures none { IfNone result (All (ClashesWithNone passes guard_max calls.now) calls.now) }
{
    for call in calls.calls() {
        if let Some(clash) = any_clash(calls, call, passes, guard_max) {
            return Some((call, clash));
        }
    }
    None
}
