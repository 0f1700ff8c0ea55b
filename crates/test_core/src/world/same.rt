use crate::assertions::agree;
use sh_core::World;
use sh_key::Tiny;
use sh_slots::SlotRef;
use sh_step::Part;
use std::process::Abort;

// What a part shows of a key.
fn assert_same_key(part: &Part, twin: &Part, key: u64, rt: &impl Abort) {
    agree(rt, part.has_hold(key), twin.has_hold(key));
    agree(rt, part.class_word_of(key), twin.class_word_of(key));
    agree(rt, part.length_of(key), twin.length_of(key));
}

// What a part shows of a page and of its slots.
fn assert_same_page(part: &Part, twin: &Part, page: u64, rt: &impl Abort) {
    agree(rt, part.class_noted(page), twin.class_noted(page));
    agree(rt, part.cursor(page), twin.cursor(page));
    agree(rt, part.has_armed(page), twin.has_armed(page));
    for slot in 0..48 {
        let slot_ref = SlotRef { page, slot };
        let (mine, other) = (part.has_mine(slot_ref), twin.has_mine(slot_ref));
        agree(rt, (slot_ref, mine), (slot_ref, other));
    }
}

// What a part shows of itself, for the first two pages and the keys of a slot.
fn assert_same_part(part: &Part, twin: &Part, rt: &impl Abort) {
    agree(rt, part.hand(), twin.hand());
    agree(rt, part.owned(), twin.owned());
    agree(rt, part.bell_cursor(), twin.bell_cursor());
    agree(rt, part.hold_count(), twin.hold_count());
    for key in [4096, 8192, 12288] {
        assert_same_key(part, twin, key, rt);
    }
    for page in [0, 1] {
        assert_same_page(part, twin, page, rt);
    }
}

// The two worlds have the same words and log, and their parts show the same.
pub fn assert_same(world: &World<Tiny>, twin: &World<Tiny>, rt: &impl Abort) {
    agree(rt, world.words(), twin.words());
    agree(rt, world.log(), twin.log());
    agree(rt, world.parts().len(), twin.parts().len());
    for (part, other) in world.parts().iter().zip(twin.parts()) {
        assert_same_part(part, other, rt);
    }
}
