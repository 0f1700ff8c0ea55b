//! Tests of the sizes of heaps, and of the keys of a layout.
use super::agree;
use gearlongan::{Deep, Heap, KeyLayout, Reader, Refusal, Shape, Shard, Tagged, Tiny, Value, Wide};
use std::alloc::Global;
use std::process::Abort;

#[test]
fn a_shape_may_have_many_segments(rt: HostRuntime) {
    // `new` takes 256 segments in all shards together, and `large` 2,097,152.
    agree(&rt, Shape::new(256, 128, 64), Err(Refusal::BadShape));
    let shape = Shape::large(256, 128, 64).expect(&rt, "a shape");
    agree(&rt, (shape.shards(), shape.segments()), (256, 128));
    agree(&rt, (shape.passes(), shape.pages()), (64, 1_024));
    agree(&rt, Shape::large(1, 2_097_153, 1), Err(Refusal::BadShape));
}

#[test]
fn a_shape_has_room_for_the_values_of_each_owner(rt: HostRuntime) {
    // A segment has 384 slots for values of one word, and 24 for values of sixteen.
    let one_word = Shape::with_room::<Wide>(4, 10_000, 1, 8);
    agree(&rt, one_word, Shape::new(4, 27, 8));
    let sixteen_words = Shape::with_room::<Wide>(1, 3_072, 16, 1);
    agree(&rt, sixteen_words, Shape::new(1, 128, 1));
    let more = Shape::with_room::<Wide>(1, 3_073, 16, 1);
    agree(&rt, more, Err(Refusal::BadShape));
    let deep = Shape::with_room::<Deep>(1, 3_073, 16, 1);
    agree(&rt, deep, Shape::new(1, 129, 1));
}

#[test]
fn a_layout_refuses_a_shape_that_is_too_large_for_it(rt: HostRuntime) {
    let five = Shape::new(5, 1, 1).expect(&rt, "a shape");
    let refused = Heap::<Tiny>::open(rt.alloc(), five).err();
    agree(&rt, refused, Some(Refusal::BadShape));
    agree(&rt, Heap::<Wide>::open(rt.alloc(), five).is_ok(), true);
}

// The key of a value that is stored. It fetches the value.
fn stored<L: KeyLayout>(rt: &impl Abort, owner: &mut Shard<'_, L>) -> u64 {
    let key = owner.insert(&Value::from(7)).expect(rt, "a key");
    agree(rt, owner.fetch(key), Ok(Value::from(7)));
    key
}

// The key of the first value of a heap.
fn first_key<L: KeyLayout>(rt: &impl Abort, alloc: Global) -> u64 {
    let shape = Shape::new(1, 1, 1).expect(rt, "a shape");
    let (heap, seats) = Heap::<L>::open(alloc, shape).expect(rt, "a heap");
    let Ok(mut passes) = heap.passes(alloc, seats) else {
        panic!(rt; "no passes")
    };
    let pass = passes.pop().expect(rt, "a pass");
    let Ok(mut owner) = Shard::adopt(alloc, pass, 0) else {
        panic!(rt; "no shard")
    };
    stored(rt, &mut owner)
}

#[test]
fn a_layout_numbers_the_keys(rt: HostRuntime) {
    agree(&rt, first_key::<Deep>(&rt, rt.alloc()), 4_294_967_296);
    agree(&rt, first_key::<Tagged>(&rt, rt.alloc()), 1_048_576);
    let parts = Deep::unpack(4_294_967_296).expect(&rt, "a key");
    agree(&rt, (parts.generation, parts.shard), (1, 0));
    agree(&rt, (parts.page, parts.slot), (0, 0));
}

#[test]
fn a_tag_goes_along_with_a_key(rt: HostRuntime) {
    let key = 1_048_576;
    let number = Tagged::tag(key, 7);
    agree(&rt, number, 504_403_158_266_544_128);
    agree(&rt, Tagged::untag(number), Some((7, key)));
    // No heap has this key: a tagged number is untagged before it is used.
    agree(&rt, Tagged::unpack(number).is_none(), true);
}
