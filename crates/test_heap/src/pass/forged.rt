//! Keys that no call returned, on a fresh heap: every number around every edge of a layout. It is `Gone` if it is a key
//! of the heap, which the test computes from the number's digits, and otherwise `BadKey`.
use super::*;
use sh_key::Tagged;
use std::fmt::Debug;

/// What a number names, if it is a key.
#[derive(Clone, Copy)]
struct Digits {
    generation: u64,
    shard: u64,
    page: u64,
    slot: u64,
}

/// How the keys of a layout are written.
trait Written {
    /// The last generation.
    const LAST: u64;

    fn digits(number: u64) -> Digits;
}

impl Written for Tiny {
    const LAST: u64 = 3;

    fn digits(number: u64) -> Digits {
        Digits {
            generation: number / 4_096,
            shard: number / 1_024 % 4,
            page: number / 64 % 16,
            slot: number % 64,
        }
    }
}

impl Written for Wide {
    const LAST: u64 = 4_294_967_295;

    fn digits(number: u64) -> Digits {
        Digits {
            generation: number / 16_777_216,
            shard: number / 65_536 % 256,
            page: number / 64 % 1_024,
            slot: number % 64,
        }
    }
}

impl Written for Tagged {
    const LAST: u64 = 4_294_967_295;

    fn digits(number: u64) -> Digits {
        Digits {
            generation: number / 1_048_576,
            shard: number / 16_384 % 64,
            page: number / 64 % 256,
            slot: number % 64,
        }
    }
}

/// Whether the number is a key of a heap of this many shards and pages.
fn is_key<L: Written>(number: u64, shards: u64, pages: u64) -> bool {
    let digits = L::digits(number);
    (1..=L::LAST).contains(&digits.generation)
        && digits.shard < shards
        && digits.page < pages
        && digits.slot < 48
}

/// Asserts that the value found for the number is the wanted one.
fn agree_at<T: PartialEq + Debug + Drop>(rt: &impl Abort, number: u64, found: T, wanted: T) {
    assert_eq!(rt; found, wanted, "{number}");
}

/// A get and a removal of the number are refused with this refusal.
fn is_refused<L: KeyLayout>(
    rt: &impl Abort,
    pass: &mut Pass<'_, L>,
    number: u64,
    refusal: Refusal,
) {
    agree_at(rt, number, pass.get(number), Err(refusal));
    agree_at(rt, number, pass.remove(number), Err(refusal));
}

/// Gets and removes `count` numbers from the first on, and returns how many of them are keys.
fn keys_among<L: KeyLayout + Written>(
    rt: &impl Abort,
    pass: &mut Pass<'_, L>,
    first: u64,
    count: u64,
) -> u64 {
    let shards = u64::from(pass.shape().shards());
    let pages = u64::from(pass.shape().segments()).saturating_mul(8);
    let mut keys = 0u64;
    for i in 0..count {
        let number = first.wrapping_add(i);
        let is_key = is_key::<L>(number, shards, pages);
        let refusal = if is_key {
            Refusal::Gone
        } else {
            Refusal::BadKey
        };
        is_refused(rt, pass, number, refusal);
        keys = keys.saturating_add(u64::from(is_key));
    }
    keys
}

/// Each try is a first number, how many numbers to try, and how many of them are keys.
fn has_keys<L: KeyLayout + Written>(
    rt: &impl Abort,
    pass: &mut Pass<'_, L>,
    tries: &[(u64, u64, u64)],
) {
    for (first, count, keys) in tries {
        agree_at(rt, *first, keys_among(rt, pass, *first, *count), *keys);
    }
}

/// The same on a new heap of this many shards and segments.
fn expect<L: KeyLayout + Written>(
    rt: &impl Abort,
    alloc: Global,
    shards: u32,
    segments: u32,
    tries: &[(u64, u64, u64)],
) {
    let shape = Shape::new(shards, segments, 1).expect(rt, "a shape");
    let (heap, seats) = Heap::<L>::open(alloc, shape).expect(rt, "a heap");
    let mut pass = one_pass(rt, alloc, &heap, seats);
    has_keys(rt, &mut pass, tries);
}

// Three generations of 8 pages with 48 slots are 1,152 keys, and of 48 pages with 48 slots 6,912.
#[test]
fn forged_keys_of_tiny(rt: HostRuntime) {
    expect::<Tiny>(&rt, rt.alloc(), 1, 1, &[(0, 20_001, 1_152)]);
    expect::<Tiny>(&rt, rt.alloc(), 3, 2, &[(0, 20_001, 6_912)]);
}

/// A hundred thousand numbers around an edge, of which `keys` are keys.
const fn around(edge: u64, keys: u64) -> (u64, u64, u64) {
    (edge.wrapping_sub(50_000), 100_000, keys)
}

// A heap of 3 shards has 16 pages of 48 slots in each, which are 768 keys in each generation. The distance from one
// generation to the next is 2^24, and from one shard to the next 2^16, so that the numbers around an edge reach at most
// one shard.
#[test]
fn forged_keys_of_wide(rt: HostRuntime) {
    let first = 16_777_216;
    let shard = 65_536;
    let end = 72_057_594_037_927_936;
    let tries = [
        around(0, 0),
        around(first, 768),
        around(first + shard, 768),
        around(first + 2 * shard, 768),
        around(first + 3 * shard, 0),
        around(2 * first, 768),
        // Bit 52 is one of the generation.
        around(4_503_599_627_370_496, 768),
        around(end - first, 768),
        around(end, 0),
        around(9_223_372_036_854_775_808, 0),
    ];
    expect::<Wide>(&rt, rt.alloc(), 3, 2, &tries);
}

// The distance from one generation to the next is 2^20, and from one shard to the next 2^14, so that the numbers around
// an edge reach all 3 shards. No key has a bit from the 52nd on.
#[test]
fn forged_keys_of_tagged(rt: HostRuntime) {
    let first = 1_048_576;
    let end = 4_503_599_627_370_496;
    let tries = [
        around(0, 0),
        around(first, 2_304),
        around(2 * first, 2_304),
        around(end - first, 2_304),
        around(end, 0),
        around(end + first, 0),
        // Under the tags 1 and 255.
        around(72_057_594_037_927_936 + first, 0),
        around(18_374_686_479_671_623_680 + first, 0),
        around(9_223_372_036_854_775_808, 0),
    ];
    expect::<Tagged>(&rt, rt.alloc(), 3, 2, &tries);
}
