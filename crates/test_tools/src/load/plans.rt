//! How many shards an owner has whose values one cannot hold. A shard of layout `wide` has 1,024 pages. The plan keeps
//! room for 16 values more and for a page more than they fill, so it parts 49,088 values, of one word, 48 to a page.
ghost use Rattle.std.specs.Prelude.{◌≤◌};

use crate::assertions::agree;
use sh_key::Wide;
use std::test::Fail;
use tool_load::demand::Demand;
use tool_load::plan::plan_for;
use tool_load::samples::Lengths;

// With how many shards an owner has room for so many values, if it has with any number.
fn shards_for(values: usize) -> Option<usize>
    requires { values ≤ 20000000 }
{
    let demand = Demand {
        owners: 1,
        others: 0,
        passes: 1,
        lengths: Lengths::Each(1),
        values,
        more: 0,
    };
    Some(plan_for::<Wide>(&demand).ok()?.shards)
}

#[test]
fn as_few_shards_are_taken_as_hold_the_values(rt: HostRuntime) -> Result<(), Fail> {
    agree(&rt, shards_for(1), Some(1));
    agree(&rt, shards_for(49_088), Some(1));
    agree(&rt, shards_for(49_089), Some(2));
    agree(&rt, shards_for(98_177), Some(2));
    agree(&rt, shards_for(98_178), Some(3));
    Ok(())
}

#[test]
fn no_more_shards_are_taken_than_a_heap_has_passes(rt: HostRuntime) -> Result<(), Fail> {
    agree(&rt, shards_for(63 * 49_088), Some(63));
    agree(&rt, shards_for(64 * 49_088), Some(64));
    agree(&rt, shards_for(64 * 49_089), None);
    Ok(())
}
