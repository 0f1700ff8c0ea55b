use crate::assertions::agree;
use sh_queue::Filing;

#[test]
fn each_page_comes_to_the_back_of_its_queue(rt: HostRuntime) {
    let mut filing = Filing::new(rt.alloc(), 1, 1).expect(&rt, "there is memory");
    agree(&rt, filing.pages(), 8);
    filing.file(None);
    filing.file(Some(3));
    filing.file(Some(0));
    filing.file(Some(3));
    filing.file(None);
    filing.file(Some(7));
    filing.file(Some(3));
    filing.file(None);
    let mut queues = filing.into_queues();
    agree(&rt, (queues.opened(), queues.unopened()), (8, 1));
    agree(&rt, (queues.front(3), queues.last(3)), (Some(1), Some(6)));
    agree(&rt, (queues.front(0), queues.last(0)), (Some(2), Some(2)));
    agree(&rt, (queues.front(7), queues.last(7)), (Some(5), Some(5)));
    agree(&rt, (queues.front(1), queues.last(6)), (None, None));
    agree(&rt, queues.blank(), Some(0));
    queues.to_front(3, 0);
    queues.to_full(4);
    agree(&rt, queues.blank(), Some(7));
    agree(&rt, queues.in_full(4), true);
    agree(&rt, queues.in_full(5), false);
}
