//! The shapes of chunks, added up.
use sh_grown::chunk_shape;

// How many slots a segment has: 8 pages of 48.
const SLOTS: u64 = 384;

// How many segments the chunk of this number has.
fn segments(number: u8) -> u64 {
    let shape = chunk_shape(number, 64);
    shape.shards() as u64 * shape.segments() as u64
}

#[test]
fn all_chunks_have_room_for_2_856_321_024_values(rt: HostRuntime) {
    let mut room: u64 = 0;
    for number in 0..256usize {
        let slots = segments(number as u8).saturating_mul(SLOTS);
        room = room.saturating_add(slots);
    }
    assert_eq!(rt; room, 2_856_321_024);
}

#[test]
fn a_chunk_is_at_most_half_of_those_before_it(rt: HostRuntime) {
    let mut before = segments(0);
    for number in 1..256usize {
        let opened = segments(number as u8);
        assert!(rt; opened <= before / 2);
        before = before.saturating_add(opened);
    }
}

// By hand: the first chunks, those that reach 64 shards, and those whose shards have 2, 256 and 512 segments.
#[test]
fn shards_double_before_segments(rt: HostRuntime) {
    assert_eq!(rt;
        (segments(0), segments(1), segments(2), segments(3)),
        (2, 1, 1, 2)
    );
    assert_eq!(rt; (segments(12), segments(13), segments(14)), (32, 64, 64));
    assert_eq!(rt;
        (segments(15), segments(30), segments(31), segments(255)),
        (128, 16_384, 32_768, 32_768)
    );
}
