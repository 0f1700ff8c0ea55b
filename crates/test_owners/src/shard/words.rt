//! The words of a heap all of whose passes met.
ghost use Rattle.std.specs.Prelude.{◌<◌};
ghost use Rattle.sh_shape.specs.Places.{all_pages};

use super::*;
use sh_key::Tiny;
use sh_shape::Place;

// The number of the first page over the whole heap.
fn first_page(rt: &impl Abort, shape: &Shape) -> u64
    ensures { result < all_pages shape.now }
{
    assert!(rt; shape.shards() > 0);
    assert!(rt; shape.pages() > 0);
    u64::from(shape.page_number(0, 0))
}

// The state word of a slot of the first page.
fn state_word(rt: &impl Abort, pass: &mut Pass<'_, Tiny>, slot: u64) -> u64
    requires { slot < 48 }
{
    let page = first_page(rt, pass.shape());
    assert!(rt; pass.is_whole());
    pass.load(Place::State(page, slot))
}

// The head word of the first page.
fn head_word(rt: &impl Abort, pass: &mut Pass<'_, Tiny>) -> u64 {
    let page = first_page(rt, pass.shape());
    assert!(rt; pass.is_whole());
    pass.load(Place::Head(page))
}

// Uses three slots of the first page, and the first of them three times.
fn retire_first(rt: &impl Abort, shard: &mut Shard<'_, Tiny>) {
    put_each(rt, shard, &[4_096, 4_097, 4_098]);
    for key in [4_096, 8_192] {
        done(rt, shard.remove(key));
        put_sixteen(rt, shard, Ok(key + 4_096));
    }
    done(rt, shard.remove(12_288));
    for key in [4_096, 8_192, 12_288] {
        agree(rt, shard.get(key), Err(Refusal::Gone));
    }
}

// After its third generation, the last of the layout, a slot is retired. Its state word says so, and no owner puts it
// on the page's stack, whose head stays empty. The slots beside it are live, in their first generation.
#[test]
fn a_retired_slot_has_its_word(rt: HostRuntime) {
    let (heap, seats) = opened::<Tiny>(&rt, rt.alloc(), 1, 1, 1);
    let mut shard = owner(&rt, rt.alloc(), &heap, seats);
    retire_first(&rt, &mut shard);
    let mut pass = left(&rt, shard);
    agree(&rt, state_word(&rt, &mut pass, 0), 15_032_385_536);
    agree(&rt, state_word(&rt, &mut pass, 1), 5_368_709_120);
    agree(&rt, state_word(&rt, &mut pass, 2), 5_368_709_120);
    agree(&rt, head_word(&rt, &mut pass), 0);
}
