//! The limits of shapes, and the layouts that they fit.
use crate::assertions::agree;
use sh_key::{Deep, Tiny, Wide};
use sh_shape::{Shape, fits};
use sh_value::Refusal;
use std::process::Abort;

// A good shape is made and has these numbers; any other is refused as `BadShape`.
fn is_made(
    rt: &impl Abort,
    made: Result<Shape, Refusal>,
    numbers: (u32, u32, u32),
    good: bool,
) -> Option<Shape> {
    match made {
        Ok(shape) => {
            let found = (shape.shards(), shape.segments(), shape.passes());
            agree(rt, (found, true), (numbers, good));
            Some(shape)
        }
        Err(refusal) => {
            agree(
                rt,
                (numbers, refusal, false),
                (numbers, Refusal::BadShape, good),
            );
            None
        }
    }
}

#[test]
fn large_shapes_fit_their_layouts(rt: HostRuntime) {
    let wide = Shape::large(256, 128, 64).expect(&rt, "32,768 segments are a large shape");
    agree(&rt, fits::<Wide>(&wide), true);
    agree(&rt, wide.words(), 51118592);
    let deep = Shape::large(2, 131072, 2).expect(&rt, "262,144 segments are a large shape");
    agree(&rt, fits::<Deep>(&deep), true);
    agree(&rt, fits::<Wide>(&deep), false);
    let deepest = Shape::large(1, 131073, 1).expect(&rt, "131,073 segments are a large shape");
    agree(&rt, fits::<Deep>(&deepest), false);
    agree(&rt, Shape::new(256, 128, 64).is_err(), true);
}

#[test]
fn large_shapes_are_within_the_limits(rt: HostRuntime) {
    let table = [
        (128, 3, 1, true),
        (256, 128, 64, true),
        (1, 2097152, 1, true),
        (2097152, 1, 1, true),
        (1, 257, 64, true),
        (1, 2097153, 1, false),
        (2097153, 1, 1, false),
        (1, 257, 65, false),
        (0, 1, 1, false),
        (1, 0, 1, false),
        (1, 1, 0, false),
        (u32::MAX, u32::MAX, 1, false),
    ];
    for (shards, segments, passes, good) in table {
        let made = Shape::large(shards, segments, passes);
        let _shape = is_made(&rt, made, (shards, segments, passes), good);
    }
}

#[test]
fn shapes_are_within_the_limits(rt: HostRuntime) {
    let table = [
        (1, 1, 1, true, true),
        (4, 2, 64, true, true),
        (5, 1, 1, true, false),
        (1, 3, 1, true, false),
        (128, 2, 1, true, false),
        (1, 256, 1, true, false),
        (1, 257, 1, false, false),
        (128, 3, 1, false, false),
        (1, 1, 65, false, false),
        (0, 1, 1, false, false),
        (1, 0, 1, false, false),
        (1, 1, 0, false, false),
        (u32::MAX, u32::MAX, 1, false, false),
    ];
    for (shards, segments, passes, good, tiny) in table {
        let made = Shape::new(shards, segments, passes);
        if let Some(shape) = is_made(&rt, made, (shards, segments, passes), good) {
            agree(&rt, (shape, fits::<Tiny>(&shape)), (shape, tiny));
        }
    }
}
