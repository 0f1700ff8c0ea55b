//! The loops of a pass that owns nothing over the keys: get and release, get, read and release, looks, and receipts.
//!
//! Each loop is a function of its own: in one function they would share its registers.
ghost use Rattle.std.specs.Prelude.{◌≡◌, IfOk};

use crate::gate::Gate;
use sh_key::KeyLayout;
use sh_member::Reader;
use sh_pass::Pass;
use sh_value::{Refusal, Value};
use std::rt::Clock;
use std::time::Instant;
use tool_load::fault::Fault;
use tool_load::options::Options;
use tool_load::outcome::Outcome;
use tool_load::workload::Workload;

// Takes a hold on each key and releases it. Returns the sum of the keys held.
#[inline(never)]
fn get_each<L: KeyLayout>(pass: &mut Pass<'_, L>, keys: &[u64]) -> Result<u64, Refusal> {
    let mut sum = 0u64;
    for key in keys {
        let hold = pass.get(*key)?;
        sum = sum.wrapping_add(hold.key);
        pass.release(hold)?;
    }
    Ok(sum)
}

// The sum of the words of a value.
fn sum_of(value: &Value) -> u64 {
    let mut sum = 0u64;
    for word in value.words() {
        sum = sum.wrapping_add(*word);
    }
    sum
}

// Reads the value of each key under a hold. Returns the sum of the words.
#[inline(never)]
fn read_each<L: KeyLayout>(pass: &mut Pass<'_, L>, keys: &[u64]) -> Result<u64, Refusal> {
    let mut sum = 0u64;
    for key in keys {
        let hold = pass.get(*key)?;
        let value = pass.read(hold)?;
        pass.release(hold)?;
        sum = sum.wrapping_add(sum_of(&value));
    }
    Ok(sum)
}

// The same, into one value.
#[inline(never)]
fn read_each_into<L: KeyLayout>(pass: &mut Pass<'_, L>, keys: &[u64]) -> Result<u64, Refusal> {
    let mut value = Value::empty();
    let mut sum = 0u64;
    for key in keys {
        let hold = pass.get(*key)?;
        pass.read_into(hold, &mut value)?;
        pass.release(hold)?;
        sum = sum.wrapping_add(sum_of(&value));
    }
    Ok(sum)
}

// Takes a guard, which is a hold that keeps its place, on each key, and releases it.
#[inline(never)]
fn guard_each<L: KeyLayout>(pass: &mut Pass<'_, L>, keys: &[u64]) -> Result<u64, Refusal> {
    let mut sum = 0u64;
    for key in keys {
        let guard = pass.get_guard(*key)?;
        sum = sum.wrapping_add(guard.key());
        pass.release_guard(guard)?;
    }
    Ok(sum)
}

// Reads the value of each key into one value, under a guard.
#[inline(never)]
fn read_each_guarded<L: KeyLayout>(pass: &mut Pass<'_, L>, keys: &[u64]) -> Result<u64, Refusal> {
    let mut value = Value::empty();
    let mut sum = 0u64;
    for key in keys {
        let guard = pass.get_guard(*key)?;
        pass.read_guard(&guard, &mut value)?;
        pass.release_guard(guard)?;
        sum = sum.wrapping_add(sum_of(&value));
    }
    Ok(sum)
}

// Reads the value of each key into one value, without a hold.
#[inline(never)]
fn look_each<L: KeyLayout>(pass: &mut Pass<'_, L>, keys: &[u64]) -> Result<u64, Refusal> {
    let mut value = Value::empty();
    let mut sum = 0u64;
    for key in keys {
        pass.look_into(*key, &mut value)?;
        sum = sum.wrapping_add(sum_of(&value));
    }
    Ok(sum)
}

// Gives a receipt for each key and heeds it. Returns the sum of the keys.
#[inline(never)]
fn heed_each<L: KeyLayout>(pass: &mut Pass<'_, L>, keys: &[u64]) -> u64 {
    let mut sum = 0u64;
    for key in keys {
        let receipt = pass.receipt();
        pass.heed(receipt);
        sum = sum.wrapping_add(*key);
    }
    sum
}

fn use_each<L: KeyLayout>(
    pass: &mut Pass<'_, L>,
    keys: &[u64],
    workload: Workload,
) -> Result<u64, Refusal> {
    match workload {
        Workload::Read => read_each(pass, keys),
        Workload::ReadInto => read_each_into(pass, keys),
        Workload::GetGuard => guard_each(pass, keys),
        Workload::ReadGuard => read_each_guarded(pass, keys),
        Workload::Look => look_each(pass, keys),
        Workload::Heed => Ok(heed_each(pass, keys)),
        _ => get_each(pass, keys),
    }
}

// The measured operations: rounds through all keys, and a last one through some.
fn rounds<L: KeyLayout>(
    pass: &mut Pass<'_, L>,
    walk: &[u64],
    options: &Options,
) -> Result<u64, Refusal> {
    if walk.is_empty() {
        return Ok(0);
    }
    let mut sum = 0u64;
    for _round in 0..options.operations / walk.len() {
        sum = sum.wrapping_add(use_each(pass, walk, options.workload)?);
    }
    let rest = &walk[..options.operations % walk.len()];
    Ok(sum.wrapping_add(use_each(pass, rest, options.workload)?))
}

// The measured operations, with their time.
fn rounds_timed<L: KeyLayout>(
    rt: &impl Clock,
    pass: &mut Pass<'_, L>,
    walk: &[u64],
    options: &Options,
) -> Result<Outcome, Fault>
    ensures operations { IfOk result (λ outcome. outcome.operations ≡ options.now.operations) }
    ensures standing { IfOk result (λ outcome. outcome.standing ≡ 0) }
{
    let start = Instant::now(rt)?;
    let sum = rounds(pass, walk, options)?;
    Ok(Outcome::of(start.elapsed(rt)?, options.operations, sum))
}

/// What one thread does: it goes through the keys of the walk, over and over.
pub fn go_through<L: KeyLayout>(
    rt: &impl Clock,
    gate: &Gate,
    options: &Options,
    walk: &[u64],
    pass: &mut Pass<'_, L>,
) -> Result<Outcome, Fault>
    ensures operations { IfOk result (λ outcome. outcome.operations ≡ options.now.operations) }
    ensures standing { IfOk result (λ outcome. outcome.standing ≡ 0) }
{
    use_each(pass, walk, options.workload)?;
    gate.pass()?;
    rounds_timed(rt, pass, walk, options)
}
