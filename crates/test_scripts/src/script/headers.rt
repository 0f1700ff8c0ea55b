use crate::assertions::agree;
use sh_script::{Layout, parse_calls, parse_events};

// A script with only a header, and what its header says: layout, shards, segments, passes and tag. A version line
// changes nothing else.
const ACCEPTED: [(&[u8], Layout, [u32; 3], Option<u8>); 11] = [
    (b"heap tiny 1 1 2\n", Layout::Tiny, [1, 1, 2], None),
    (
        b"version 2\nheap tiny 1 1 2\n",
        Layout::Tiny,
        [1, 1, 2],
        None,
    ),
    (b"heap tiny 4 2 64\n", Layout::Tiny, [4, 2, 64], None),
    (b"heap wide 128 2 1\n", Layout::Wide, [128, 2, 1], None),
    (
        b"version 2\nheap tiny 1 1 1\n",
        Layout::Tiny,
        [1, 1, 1],
        None,
    ),
    (
        b"version 2\nheap wide 1 128 1\n",
        Layout::Wide,
        [1, 128, 1],
        None,
    ),
    (
        b"version 2\nheap tagged 1 1 1 tag 0\n",
        Layout::Tagged,
        [1, 1, 1],
        Some(0),
    ),
    (
        b"version 2\nheap tagged 64 4 64 tag 255\n",
        Layout::Tagged,
        [64, 4, 64],
        Some(255),
    ),
    (
        b"version 2\nheap tagged 1 32 1 tag 5\n",
        Layout::Tagged,
        [1, 32, 1],
        Some(5),
    ),
    (
        b"\n;x\n version  2 \n\n; y\n  heap  tagged 1 1 1  tag 5\n",
        Layout::Tagged,
        [1, 1, 1],
        Some(5),
    ),
    (b"heap wide 256 1 1\n", Layout::Wide, [256, 1, 1], None),
];

#[test]
fn headers_that_are_accepted(rt: HostRuntime) {
    for (text, layout, numbers, tag) in &ACCEPTED {
        let calls = parse_calls(rt.alloc(), text).expect(&rt, "it is a script");
        let events = parse_events(rt.alloc(), text).expect(&rt, "it is a script");
        let header = calls.header;
        let shape = [
            header.shape.shards(),
            header.shape.segments(),
            header.shape.passes(),
        ];
        agree(&rt, header.layout, *layout);
        agree(&rt, shape, *numbers);
        agree(&rt, header.tag, *tag);
        agree(&rt, events.header, header);
    }
}
