//! The classes of slots.
use crate::assertions::agree;
use sh_shape::{class_of, slots, width};

#[test]
fn lengths_have_classes(rt: HostRuntime) {
    let table = [
        (0, Some(0)),
        (1, Some(0)),
        (5, Some(4)),
        (13, Some(7)),
        (16, Some(7)),
        (17, None),
    ];
    for (len, class) in table {
        agree(&rt, (len, class_of(len)), (len, class));
    }
}

#[test]
fn classes_have_widths_and_slots(rt: HostRuntime) {
    let table = [
        (0, 1, 48),
        (1, 2, 24),
        (2, 3, 16),
        (3, 4, 12),
        (4, 6, 8),
        (5, 8, 6),
        (6, 12, 4),
        (7, 16, 3),
    ];
    for (class, words, count) in table {
        agree(
            &rt,
            (class, width(class), slots(class)),
            (class, words, count),
        );
    }
}
