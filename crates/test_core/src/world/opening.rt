use super::has_words;
use crate::assertions::agree;
use sh_core::World;
use sh_key::{Tagged, Tiny, Wide};
use sh_shape::Shape;
use sh_value::Refusal;

// Each slot is empty in its first generation, and every other word is 0.
#[test]
fn a_heap_opens_empty(rt: HostRuntime) {
    let shape = Shape::new(1, 1, 2).expect(&rt, "one shard of one segment is a shape");
    let world = World::<Tiny>::new(rt.alloc(), shape).expect(&rt, "it fits tiny");
    agree(&rt, world.words().len(), 1562);
    has_words(
        &world,
        [
            (0, 0),
            (2, 0),
            (3, 4294967296),
            (50, 4294967296),
            (51, 0),
            (195 * 7 + 3, 4294967296),
            (1560, 0),
        ],
        &rt,
    );
    agree(&rt, world.log().len(), 0);
    agree(&rt, world.parts().len(), 2);
    agree(&rt, world.shape(), shape);
}

#[test]
fn a_shape_has_to_fit_the_layout(rt: HostRuntime) {
    let shape = Shape::new(5, 1, 1).expect(&rt, "five shards are a shape");
    let why = World::<Tiny>::new(rt.alloc(), shape).err();
    agree(&rt, why, Some(Refusal::BadShape));
    let wide = World::<Wide>::new(rt.alloc(), shape).expect(&rt, "it fits wide");
    let tagged = World::<Tagged>::new(rt.alloc(), shape).expect(&rt, "it fits tagged");
    agree(&rt, wide.words(), tagged.words());
}
