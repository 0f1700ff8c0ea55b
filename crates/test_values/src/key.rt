//! Tests of the layouts: their first and last keys, parts out of range, and tags.
use crate::assertions::agree;
use sh_key::{Deep, KeyLayout, Parts, Tagged, Tiny, Wide};

#[test]
fn tiny_packs_its_last_key(rt: HostRuntime) {
    let last = Parts {
        generation: 3,
        shard: 3,
        page: 15,
        slot: 63,
    };
    agree(&rt, Tiny::in_range(last), true);
    agree(&rt, Tiny::pack(last), 16383);
    agree(&rt, Tiny::unpack(16383), Some(last));
    agree(&rt, Tiny::unpack(16384), None);
    agree(&rt, Tiny::unpack(4095), None);
    agree(&rt, Tiny::first_key(), 4096);
    agree(&rt, Tiny::key_count(), 12288);
}

#[test]
fn tiny_refuses_parts_out_of_range(rt: HostRuntime) {
    let table = [
        ((1, 0, 0, 0), true),
        ((0, 0, 0, 0), false),
        ((4, 0, 0, 0), false),
        ((1, 4, 0, 0), false),
        ((1, 0, 16, 0), false),
        ((1, 0, 0, 64), false),
    ];
    for ((generation, shard, page, slot), good) in table {
        let parts = Parts {
            generation,
            shard,
            page,
            slot,
        };
        agree(&rt, (parts, Tiny::in_range(parts)), (parts, good));
    }
}

#[test]
fn wide_packs_its_last_key(rt: HostRuntime) {
    let last = Parts {
        generation: 4294967295,
        shard: 255,
        page: 1023,
        slot: 63,
    };
    agree(&rt, Wide::in_range(last), true);
    agree(&rt, Wide::pack(last), 72057594037927935);
    agree(&rt, Wide::unpack(72057594037927935), Some(last));
    agree(&rt, Wide::unpack(72057594037927936), None);
    agree(&rt, Wide::first_key(), 16777216);
}

// No number is too large to be a key: the keys use all bits.
#[test]
fn deep_packs_its_last_key(rt: HostRuntime) {
    let last = Parts {
        generation: 4294967295,
        shard: 63,
        page: 1048575,
        slot: 63,
    };
    agree(&rt, Deep::in_range(last), true);
    agree(&rt, Deep::pack(last), u64::MAX);
    agree(&rt, Deep::unpack(u64::MAX), Some(last));
    agree(&rt, Deep::first_key(), 4294967296);
    agree(&rt, Deep::unpack(4294967295), None);
}

#[test]
fn tags_stand_above_the_key(rt: HostRuntime) {
    let key = 4503599627370495;
    agree(&rt, Tagged::unpack(key + 1), None);
    agree(&rt, Tagged::unpack(key).is_some(), true);
    agree(&rt, Tagged::tag(1048576, 0), 1048576);
    agree(&rt, Tagged::tag(0, 1), 72057594037927936);
    agree(&rt, Tagged::untag(Tagged::tag(key, 255)), Some((255, key)));
    agree(&rt, Tagged::untag(4503599627370496), None);
    agree(&rt, Tagged::untag(36028797018963968), None);
}
