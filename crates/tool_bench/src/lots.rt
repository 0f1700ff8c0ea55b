//! Owners with the values that they keep.
ghost use Rattle.std.specs.Prelude.{◌≡◌, ◌+◌, ◌≤◌, ◌<◌, All, IfOk, vec_len};
ghost use Rattle.tool_bench.specs.Shares.{share_of, shares};

use crate::owners::filled;
use sh_key::KeyLayout;
use sh_pass::Pass;
use sh_shard::Shard;
use sh_value::{Refusal, Value};
use std::alloc::{AllocError, Global};
use tool_load::fault::Fault;
use tool_load::samples::Samples;

/// An owner, the keys of the values that it keeps, and an order in which it goes through them.
#[derive(Drop)]
pub struct Lot<'a, L: KeyLayout> {
    pub owner: Shard<'a, L>,
    pub keys: Vec<u64>,
    pub order: Vec<usize>,
}

/// What a thread of owners begins with: its passes, and the first of the shards that they adopt.
#[derive(Drop)]
pub struct Job<'a, L: KeyLayout> {
    pub passes: Vec<Pass<'a, L>>,
    pub first_shard: u64,
}

// A large prime: a walk over a list in steps of this size reaches each place once, unless the length is a multiple.
const STRIDE: usize = 7919;

/// A mixed order of `places` places.
pub fn mixed_order(alloc: Global, places: usize) -> Result<Vec<usize>, AllocError>
    ensures count { IfOk result (λ order. vec_len order ≡ places) }
    ensures within { IfOk result (λ order. All (λ place. place < places) order.items) }
{
    let mut order = Vec::new(alloc);
    let mut place = 0;
    for _turn in 0..places {
        order.push(place)?;
        place = after(place, places);
    }
    Ok(order)
}

// The place that comes after this one.
fn after(place: usize, places: usize) -> usize
    ensures { 0 < places → result < places }
{
    if places == 0 {
        return 0;
    }
    (place % places).wrapping_add(STRIDE) % places
}

/// Inserts the values of the first places, one for each key that is asked for.
pub fn insert_each<L: KeyLayout>(
    owner: &mut Shard<'_, L>,
    samples: &Samples,
    keys: &mut [u64],
) -> Result<u64, Refusal> {
    let mut sum = 0u64;
    for (place, key) in keys.iter_mut().enumerate() {
        *key = owner.insert(samples.at(place))?;
        sum = sum.wrapping_add(*key);
    }
    Ok(sum)
}

/// Removes each of the keys.
pub fn remove_each<L: KeyLayout>(owner: &mut Shard<'_, L>, keys: &[u64]) -> Result<(), Refusal> {
    for key in keys {
        owner.remove(*key)?;
    }
    Ok(())
}

/// Adopts a shard and fills it with `values` values.
pub fn filled_lot<'a, L: KeyLayout>(
    alloc: Global,
    pass: Pass<'a, L>,
    shard: u64,
    samples: &Samples,
    values: usize,
) -> Result<Lot<'a, L>, Fault>
    ensures keys { IfOk result (λ lot. vec_len lot.keys ≡ values) }
    ensures order { IfOk result (λ lot. vec_len lot.order ≡ values) }
    ensures places { IfOk result (λ lot. All (λ place. place < values) lot.order.items) }
{
    let mut keys = vec![in alloc; 0u64; values]?;
    let order = mixed_order(alloc, values)?;
    let owner = filled(alloc, pass, shard, samples, keys.as_mut_slice())?;
    Ok(Lot { owner, keys, order })
}

// Adds a lot, whose owner the pass becomes.
fn add_lot<'a, L: KeyLayout>(
    alloc: Global,
    lots: &mut Vec<Lot<'a, L>>,
    pass: Pass<'a, L>,
    shard: u64,
    samples: &Samples,
    values: usize,
) -> Result<(), Fault>
    ensures { IfOk result (λ _. vec_len lots.new ≡ vec_len lots.old + 1) }
{
    let lot = filled_lot(alloc, pass, shard, samples, values)?;
    lots.push(lot)?;
    Ok(())
}

/// Adopts a shard for each pass of the job, and fills them with `values` values in all.
pub fn filled_lots<'a, L: KeyLayout>(
    alloc: Global,
    job: Job<'a, L>,
    samples: &Samples,
    values: usize,
) -> Result<Vec<Lot<'a, L>>, Fault>
    ensures { IfOk result (λ lots. vec_len lots ≡ vec_len job.entry.passes) }
{
    let parts = job.passes.len();
    let mut lots = Vec::new(alloc);
    let mut shard = job.first_shard;
    for pass in job.passes {
        let share = share(values, parts, lots.len());
        add_lot(alloc, &mut lots, pass, shard, samples, share)?;
        shard = shard.wrapping_add(1);
    }
    Ok(lots)
}

/// The share of a whole that the part with this number has. The sum of all shares is the whole.
pub fn share(whole: usize, parts: usize, number: usize) -> usize
    ensures is { 0 < parts → result ≡ share_of whole parts number }
    ensures all { 0 < parts → shares whole parts parts ≡ whole }
    ensures none { parts ≡ 0 → result ≡ 0 }
    ensures within { result ≤ whole }
{
    if parts == 0 {
        return 0;
    }
    let least = whole / parts;
    if number < whole % parts {
        least + 1
    } else {
        least
    }
}

// Whether the key has this value.
fn stands<L: KeyLayout>(
    owner: &mut Shard<'_, L>,
    key: u64,
    value: &Value,
) -> Result<bool, Refusal> {
    let hold = owner.get(key)?;
    let found = owner.read(hold)?;
    owner.release(hold)?;
    Ok(found == *value)
}

/// The number of values that are as they were inserted.
pub fn standing<L: KeyLayout>(lot: &mut Lot<'_, L>, samples: &Samples) -> Result<u64, Refusal>
    ensures { IfOk result (λ found. found ≤ vec_len lot.old.keys) }
{
    let mut found = 0u64;
    for (place, key) in lot.keys.iter().enumerate() {
        let stands = stands(&mut lot.owner, *key, samples.at(place))?;
        found = found.saturating_add(u64::from(stands));
    }
    Ok(found)
}
