//! Shapes with room for values.
use crate::assertions::agree;
use sh_key::{Deep, KeyLayout, Tiny, Wide};
use sh_shape::Shape;

// The segments of the shape, or `None` if there is no shape.
fn segments<L: KeyLayout>(owners: u32, values: u64, words: usize, passes: u32) -> Option<u32> {
    match Shape::with_room::<L>(owners, values, words, passes) {
        Ok(shape) => Some(shape.segments()),
        Err(_) => None,
    }
}

// For values of one word a segment has 384 slots; for 16 words it has 24; for 5 words, which take 6, it has 64.
#[test]
fn each_owner_has_room(rt: HostRuntime) {
    let table = [
        (0, 1, Some(1)),
        (384, 1, Some(1)),
        (385, 1, Some(2)),
        (24, 16, Some(1)),
        (25, 16, Some(2)),
        (64, 5, Some(1)),
        (65, 5, Some(2)),
        (0, 17, None),
        (49152, 1, Some(128)),
        (49153, 1, None),
        (u64::MAX, 16, None),
    ];
    for (values, words, wanted) in table {
        let found = segments::<Wide>(4, values, words, 8);
        agree(&rt, (values, words, found), (values, words, wanted));
    }
}

#[test]
fn owners_and_passes_are_within_the_limits(rt: HostRuntime) {
    agree(&rt, segments::<Wide>(256, 49152, 1, 64), Some(128));
    agree(&rt, segments::<Wide>(257, 1, 1, 1), None);
    agree(&rt, segments::<Wide>(0, 1, 1, 1), None);
    agree(&rt, segments::<Wide>(1, 1, 1, 0), None);
    agree(&rt, segments::<Wide>(1, 1, 1, 65), None);
    agree(&rt, segments::<Tiny>(4, 768, 1, 1), Some(2));
    agree(&rt, segments::<Tiny>(4, 769, 1, 1), None);
    agree(&rt, segments::<Deep>(16, 50331648, 1, 16), Some(131072));
    agree(&rt, segments::<Deep>(17, 50331648, 1, 17), None);
}
