//! How many steps an insert into a small growing heap takes at most, worked out by hand.
ghost use Rattle.std.specs.Prelude.{◌≡◌, ◌+◌};
ghost use Rattle.sh_grown.specs.Steps.{chunk_most};

use sh_grown::{GrowingShare, chunk_shape};
use sh_value::Value;
use std::fmt::Debug;
use std::process::Abort;

// Asserts that what was found is what is wanted. Each assertion that is written out is proved anew.
fn agree<T: PartialEq + Debug + Drop>(rt: &impl Abort, found: T, wanted: T) {
    assert_eq!(rt; found, wanted);
}

// A value of one word, and a chunk of 2 shards with 8 pages each. An insert into a shard takes at most
// 9 x 8 + 1 + 53 = 126 steps, a collect 52 x 8 + 3 = 419, a leave 148 x 8 + 4 = 1188 and an adoption 8 + 2 = 10.
// An insert over the chunks takes 3 x 126 + 419 + 2 x 2 x (1188 + 10 + 419 + 126) = 797 + 6972 = 7769 in that chunk. In
// a chunk of one such shard it takes 797 + 3486 = 4283.
fn bounds_of_small_chunks()
    ensures two { chunk_most 1 2 8 ≡ 7769 }
    ensures one { chunk_most 1 1 8 ≡ 4283 }
    ensures both { chunk_most 1 2 8 + chunk_most 1 1 8 ≡ 12052 }
{}

// The first chunk has 2 shards of a segment, and so of 8 pages. The next one has one.
#[test]
fn an_insert_into_a_small_heap_takes_at_most_12052_steps(rt: HostRuntime) {
    bounds_of_small_chunks();
    let (first, next) = (chunk_shape(0, 1), chunk_shape(1, 1));
    agree(&rt, (first.shards(), first.segments()), (2, 1));
    agree(&rt, (next.shards(), next.segments()), (1, 1));
    let growing = GrowingShare::open(rt.alloc(), 1, 2).expect(&rt, "a heap");
    let mut caller = growing.claim(rt.alloc()).expect(&rt, "a caller");
    let key = caller
        .insert(rt.alloc(), &Value::from(7))
        .expect(&rt, "a key");
    agree(&rt, caller.look(key), Ok(Value::from(7)));
}
