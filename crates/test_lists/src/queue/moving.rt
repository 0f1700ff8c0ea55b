ghost use Rattle.std.specs.Prelude.{◌≡◌, ◌≢◌, ◌^◌, ◌≤◌, IfOk};
ghost use Rattle.sh_queue.specs.Queues.{none_opened, one_more_segment};

use crate::assertions::agree;
use sh_queue::Queues;
use sh_value::Refusal;
use std::process::Abort;
use std::test::Fail;

// Opens the next segment, and checks its first page.
fn opens(rt: &impl Abort, queues: &mut Queues, first: u32)
    requires { queues.old.unopened ≢ 0 }
    ensures { queues.new ≡ one_more_segment queues.old }
{
    assert_eq!(rt; queues.open_segment(), Ok(first));
}

#[test]
fn pages_move_between_queues(rt: HostRuntime) {
    let mut queues = Queues::new(rt.alloc(), 1).expect(&rt, "there is memory");
    agree(&rt, queues.unopened(), 1);
    agree(&rt, queues.blank(), None);
    opens(&rt, &mut queues, 0);
    agree(&rt, queues.unopened(), 0);
    queues.to_front(7, 0);
    queues.to_front(7, 1);
    agree(&rt, queues.front(7), Some(1));
    queues.to_back(7, 1);
    agree(&rt, queues.front(7), Some(0));
    agree(&rt, queues.last(7), Some(1));
    agree(&rt, queues.blank(), Some(2));
    agree(&rt, queues.in_full(0), false);
    queues.to_full(0);
    agree(&rt, queues.front(7), Some(1));
    agree(&rt, queues.in_full(0), true);
    agree(&rt, queues.in_full(1), false);
}

#[test]
fn a_page_comes_back_from_the_full_queue(rt: HostRuntime) {
    let mut queues = Queues::new(rt.alloc(), 2).expect(&rt, "there is memory");
    opens(&rt, &mut queues, 0);
    queues.to_front(0, 0);
    queues.to_front(0, 1);
    queues.to_full(1);
    queues.to_full(0);
    agree(&rt, queues.front(0), None);
    agree(&rt, queues.last(0), None);
    queues.to_back(0, 1);
    queues.to_back(0, 0);
    agree(&rt, queues.front(0), Some(1));
    agree(&rt, queues.last(0), Some(0));
    agree(&rt, queues.in_full(0), false);
    agree(&rt, queues.in_full(1), false);
}

#[test]
fn blank_pages_are_used_lowest_first(rt: HostRuntime) {
    let mut queues = Queues::new(rt.alloc(), 2).expect(&rt, "there is memory");
    opens(&rt, &mut queues, 0);
    opens(&rt, &mut queues, 8);
    agree(&rt, queues.unopened(), 0);
    queues.to_full(1);
    queues.to_front(5, 15);
    agree(&rt, queues.blank(), Some(0));
    queues.to_back(4, 0);
    agree(&rt, queues.blank(), Some(2));
    agree(&rt, queues.opened(), 16);
}

// Queues with no opened page, asked for once more if memory was refused.
fn new_with_memory(rt: &HostRuntime, segments: u32) -> Result<Queues, Refusal>
    requires { segments ≤ 2 ^ 21 }
    ensures { IfOk result (λ queues. queues ≡ none_opened segments) }
{
    match Queues::new(rt.alloc(), segments) {
        Err(Refusal::Memory) => Queues::new(rt.alloc(), segments),
        answer => answer,
    }
}

// Opens the next segment, once more if memory was refused: then no page moved, and none was opened.
fn opens_with_memory(rt: &impl Abort, queues: &mut Queues, first: u32)
    requires { queues.old.unopened ≢ 0 }
    ensures { queues.new ≡ one_more_segment queues.old }
{
    let counts = (queues.opened(), queues.unopened(), queues.blank());
    let ends = (queues.front(3), queues.last(3), queues.front(4));
    match queues.open_segment() {
        Err(Refusal::Memory) => {
            let counts_then = (queues.opened(), queues.unopened(), queues.blank());
            let ends_then = (queues.front(3), queues.last(3), queues.front(4));
            agree(rt, (counts_then, ends_then), (counts, ends));
            opens(rt, queues, first)
        }
        answer => assert_eq!(rt; answer, Ok(first)),
    }
}

#[test]
fn a_segment_refused_for_memory_changes_nothing(rt: HostRuntime) -> Result<(), Fail> {
    let mut queues = new_with_memory(&rt, 3)?;
    opens_with_memory(&rt, &mut queues, 0);
    queues.to_front(3, 0);
    queues.to_front(3, 1);
    opens_with_memory(&rt, &mut queues, 8);
    opens_with_memory(&rt, &mut queues, 16);
    agree(&rt, queues.blank(), Some(2));
    agree(&rt, queues.front(3), Some(1));
    agree(&rt, queues.last(3), Some(0));
    queues.to_back(4, 23);
    agree(&rt, queues.front(4), Some(23));
    agree(&rt, queues.opened(), 24);
    agree(&rt, queues.unopened(), 0);
    Ok(())
}

// The test opens as many segments as a heap may have, one after the other, and each page has its place.
#[test]
fn all_segments_are_opened(rt: HostRuntime) {
    let mut queues = Queues::new(rt.alloc(), 256).expect(&rt, "there is memory");
    for first in 0..256u32 {
        assert!(rt; queues.unopened() != 0);
        opens(&rt, &mut queues, first.wrapping_mul(8));
    }
    agree(&rt, queues.unopened(), 0);
    agree(&rt, queues.opened(), 2_048);
    for page in 0..2_048u32 {
        agree(&rt, queues.blank(), Some(page));
        assert!(rt; page < queues.opened());
        queues.to_full(page);
    }
    agree(&rt, queues.blank(), None);
    assert!(rt; queues.opened() == 2_048);
    agree(&rt, queues.in_full(2_047), true);
    queues.to_front(7, 2_047);
    agree(&rt, queues.last(7), Some(2_047));
}
