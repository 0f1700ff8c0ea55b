//! Tests of the judge of histories that come entry by entry.
ghost use Rattle.std.specs.Prelude.{◌<◌};

use history_audit::{Audit, Clash, check};
use rand_core::{Rng, SeedableRng};
use rand_xoshiro::Xoshiro256PlusPlus;
use sh_history::{Entry, Why};
use sh_value::Value;
use std::alloc::{AllocError, Global};
use std::process::Abort;
use std::test::Fail;

const PASSES: u32 = 3;

const GUARD_MAX: u32 = 4;

const KEYS: u64 = 5;

// How many entries are proposed for a history.
const PROPOSED: u64 = 120;

const HISTORIES: u64 = 400;

fn below(rng: &mut Xoshiro256PlusPlus, limit: u64) -> u64
    requires { 0 < limit }
    ensures { result < limit }
{
    rng.next_u64() % limit
}

fn proposed(rng: &mut Xoshiro256PlusPlus) -> Entry {
    let pass = below(rng, PASSES as u64) as u32;
    let key = below(rng, KEYS);
    let value = Value::from(below(rng, 2));
    match below(rng, 9) {
        0 => Entry::Insert(pass, key, value),
        1 | 2 | 3 => Entry::Got(pass, key, value),
        4 => Entry::Gone(pass, key),
        5 => Entry::Crowded(pass, key),
        6 => Entry::Removed(pass, key),
        _ => Entry::Released(pass, key),
    }
}

// A history of what is allowed of some entries, and of one in `one_in` that is not.
fn generated(
    alloc: Global,
    rng: &mut Xoshiro256PlusPlus,
    one_in: u64,
) -> Result<Vec<Entry>, AllocError>
    requires { 0 < one_in }
{
    let mut audit = Audit::new(alloc, PASSES, GUARD_MAX);
    let mut entries = Vec::new(alloc);
    for line in 0..PROPOSED {
        let entry = proposed(rng);
        let clash = audit.push(line, &entry)?;
        if clash.is_none() || below(rng, one_in) == 0 {
            entries.push(entry)?;
        }
    }
    Ok(entries)
}

// The verdicts that came, and how often.
#[derive(Drop, Debug)]
struct Seen {
    counts: [u64; 8],
}

fn place(verdict: &Result<(), (usize, Why)>) -> usize
    ensures { result < 8 }
{
    match verdict {
        Ok(()) => 0,
        Err((_, Why::NotNew)) => 1,
        Err((_, Why::NotIssued)) => 2,
        Err((_, Why::OtherValue)) => 3,
        Err((_, Why::AfterRemoval)) => 4,
        Err((_, Why::StillThere)) => 5,
        Err((_, Why::NotCrowded)) => 6,
        Err((_, Why::NotHeld)) => 7,
    }
}

fn agree(
    rt: &impl Abort,
    alloc: Global,
    entries: &[Entry],
    seen: &mut Seen,
) -> Result<(), AllocError> {
    let verdict = check(alloc, entries, PASSES, GUARD_MAX)?;
    assert_eq!(rt; verdict, sh_history::check(entries, PASSES, GUARD_MAX));
    let at = place(&verdict);
    seen.counts[at] = seen.counts[at].saturating_add(1);
    Ok(())
}

// Both checkers say the same of many histories, among which are legal ones and ones with each fault.
#[test]
fn both_checkers_agree(rt: HostRuntime) -> Result<(), Fail> {
    let mut rng = Xoshiro256PlusPlus::seed_from_u64(7);
    let mut seen = Seen { counts: [0; 8] };
    for number in 0..HISTORIES {
        let entries = generated(rt.alloc(), &mut rng, 1 + number)?;
        agree(&rt, rt.alloc(), entries.as_slice(), &mut seen)?;
    }
    for count in seen.counts {
        assert!(rt; count > 0);
    }
    Ok(())
}

fn is_judged(rt: &impl Abort, audit: &mut Audit, line: u64, entry: &Entry, wanted: Option<Clash>) {
    assert_eq!(rt; audit.push(line, entry).ok(), Some(wanted));
}

fn with(why: Why, by: u64) -> Option<Clash> {
    let by = Some(by);
    Some(Clash { why, by })
}

fn without(why: Why) -> Option<Clash> {
    Some(Clash { why, by: None })
}

#[test]
fn names_the_line_of_the_clash(rt: HostRuntime) -> Result<(), Fail> {
    let mut audit = Audit::new(rt.alloc(), 2, 2);
    let seven = || Value::of([7]);
    is_judged(&rt, &mut audit, 10, &Entry::Insert(0, 4096, seven()), None);
    is_judged(
        &rt,
        &mut audit,
        11,
        &Entry::Insert(1, 4096, seven()),
        with(Why::NotNew, 10),
    );
    is_judged(&rt, &mut audit, 12, &Entry::Got(1, 4096, seven()), None);
    is_judged(
        &rt,
        &mut audit,
        13,
        &Entry::Got(1, 4096, Value::of([8])),
        with(Why::OtherValue, 10),
    );
    is_judged(
        &rt,
        &mut audit,
        14,
        &Entry::Gone(0, 4096),
        with(Why::StillThere, 10),
    );
    is_judged(
        &rt,
        &mut audit,
        15,
        &Entry::Got(0, 5000, seven()),
        without(Why::NotIssued),
    );
    is_judged(
        &rt,
        &mut audit,
        16,
        &Entry::Released(0, 4096),
        without(Why::NotHeld),
    );
    is_judged(&rt, &mut audit, 17, &Entry::Removed(0, 4096), None);
    is_judged(
        &rt,
        &mut audit,
        18,
        &Entry::Removed(1, 4096),
        with(Why::AfterRemoval, 17),
    );
    is_judged(&rt, &mut audit, 19, &Entry::Released(1, 4096), None);
    is_judged(
        &rt,
        &mut audit,
        20,
        &Entry::Released(1, 4096),
        without(Why::NotHeld),
    );
    assert_eq!(rt; audit.keys(), 1);
    assert_eq!(rt;
        audit.value_of(4096).map(|value| value.copy()),
        Some(seven())
    );
    assert_eq!(rt; audit.value_of(5000).is_none(), true);
    Ok(())
}

// Where memory is refused once, the same entry is allowed the next time.
#[test]
fn goes_on_after_refused_memory(rt: HostRuntime) -> Result<(), Fail> {
    let mut audit = Audit::new(rt.alloc(), 1, 4);
    for key in 0..100 {
        let entry = Entry::Insert(0, key, Value::from(key));
        let clash = match audit.push(key, &entry) {
            Ok(clash) => clash,
            Err(_) => audit.push(key, &entry)?,
        };
        assert_eq!(rt; clash, None);
    }
    assert_eq!(rt; audit.keys(), 100);
    Ok(())
}
