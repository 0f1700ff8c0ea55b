use super::*;

#[test]
fn lists_are_taken_from_the_front(rt: HostRuntime) {
    let mut lists = PageLists::full(3);
    assert_eq!(rt; lists.len(), 3);
    assert_eq!(rt; lists.pop(), Some(0));
    assert_eq!(rt; lists.pop(), Some(1));
    lists.push_local(0);
    lists.push_local(1);
    assert_eq!(rt; lists.pop(), Some(2));
    assert_eq!(rt; lists.pop(), None);
    assert_eq!(rt; lists.len(), 2);
    lists.flip();
    lists.add_read(2);
    assert_eq!(rt; lists.len(), 3);
    for slot in [1, 0, 2] {
        assert_eq!(rt; lists.pop(), Some(slot));
    }
    assert_eq!(rt; lists.pop(), None);
    assert_eq!(rt; lists.len(), 0);
}

#[test]
fn a_bare_page_reads_slots_in_turn(rt: HostRuntime) {
    let mut lists = PageLists::bare();
    assert_eq!(rt; lists.cursor(), None);
    lists.set_cursor(Some(47));
    assert_eq!(rt; lists.pop(), None);
    lists.add_read(47);
    lists.set_cursor(None);
    lists.add_read(5);
    assert_eq!(rt; lists.cursor(), None);
    assert_eq!(rt; lists.pop(), Some(47));
    assert_eq!(rt; lists.pop(), Some(5));
    assert_eq!(rt; lists.pop(), None);
}

#[test]
fn the_next_slot_is_of_local_where_none_is_free(rt: HostRuntime) {
    let mut lists = PageLists::full(2);
    assert_eq!(rt; lists.next_slot(), Some(0));
    lists.push_local(0);
    assert_eq!(rt; lists.next_slot(), Some(1));
    assert_eq!(rt; lists.next_slot(), Some(0));
    assert_eq!(rt; lists.next_slot(), None);
    assert_eq!(rt; lists.len(), 0);
}
