//! The sizes of growing heaps, worked out by hand. A page has 195 words of 8 bytes, and slots for 48 values of one word
//! or 3 of sixteen. Each shard has two words more.
use sh_grown::{GrowingShare, HeapSize};
use sh_shape::Shape;
use std::fmt::Debug;
use std::process::Abort;

// Asserts that what was found is what is wanted. Each assertion that is written out is proved anew.
fn agree<T: PartialEq + Debug + Drop>(rt: &impl Abort, found: T, wanted: T) {
    assert_eq!(rt; found, wanted);
}

// Two shards of 8 pages: 16 pages, and 16 x 195 + 2 x 2 = 3,124 words.
#[test]
fn a_heap_of_a_fixed_shape_has_a_size(rt: HostRuntime) {
    let size = HeapSize::of(&Shape::new(2, 1, 1).expect(&rt, "a shape"));
    agree(&rt, (size.chunks(), size.bytes()), (1, 24_992));
    agree(&rt, (size.capacity(0), size.capacity(1)), (768, 768));
    agree(&rt, (size.capacity(2), size.capacity(5)), (384, 128));
    agree(&rt, (size.capacity(16), size.capacity(17)), (48, 0));
}

// The first chunk has two shards of 8 pages, and chunk 1 has one: 24 pages, and 24 x 195 + 3 x 2 = 4,686 words.
#[test]
fn a_growing_heap_has_the_size_of_its_open_chunks(rt: HostRuntime) {
    let growing = GrowingShare::open(rt.alloc(), 1, 3).expect(&rt, "a heap");
    let size = growing.heap().size();
    agree(&rt, (size.chunks(), size.capacity(1)), (1, 768));
    agree(&rt, size.bytes(), 24_992);
    agree(&rt, growing.heap().open_ahead(rt.alloc()), Ok(1));
    let size = growing.heap().size();
    agree(&rt, (size.chunks(), size.capacity(1)), (2, 1152));
    agree(&rt, (size.capacity(16), size.bytes()), (72, 37_488));
}
