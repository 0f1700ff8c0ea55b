//! Tags of 8 bits on keys below 2^52.
use super::agree;
use super::codes::{BAD_KEY, OK};
use crate::tags::{shardheap_raw_tag, shardheap_raw_untag};

// The tag: its code, and the number as it was written.
fn tagged(key: u64, tag: u32) -> (u32, u64) {
    let mut number = 5;
    let code = shardheap_raw_tag(key, tag, &mut number);
    (code, number)
}

// The untag: its code, and the key and the tag as they were written.
fn untagged(number: u64) -> (u32, u64, u32) {
    let mut key = 6;
    let mut tag = 7;
    let code = shardheap_raw_untag(number, &mut key, &mut tag);
    (code, key, tag)
}

// The tag is in bits 56 to 63, and bits 52 to 55 are 0.
#[test]
fn a_tag_is_above_the_key(rt: HostRuntime) {
    agree(&rt, tagged(1 << 52, 1), (BAD_KEY, 5));
    agree(&rt, tagged(1, 256), (BAD_KEY, 5));
    agree(
        &rt,
        tagged((1 << 52) - 1, 0xAB),
        (OK, 0xAB0F_FFFF_FFFF_FFFF),
    );
    agree(&rt, tagged(0, 0), (OK, 0));
    agree(&rt, untagged(1 << 52), (BAD_KEY, 6, 7));
    agree(&rt, untagged(1 << 55), (BAD_KEY, 6, 7));
    agree(
        &rt,
        untagged(0xAB0F_FFFF_FFFF_FFFF),
        (OK, (1 << 52) - 1, 0xAB),
    );
    agree(&rt, untagged(3), (OK, 3, 0));
}
