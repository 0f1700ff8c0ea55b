//! Tests of the judge of the stress program: examples of histories, with what it finds in each.
use crate::assertions::holds;
use history_timed::Span;
use sh_core::Accounts;
use sh_value::Value;
use std::alloc::Global;
use std::test::Fail;
use tool_judge::judge::judged;
use tool_judge::line::{Line, Told};
use tool_judge::pattern;
use tool_judge::tally::{PageTally, agrees};

fn line(pass: u32, begin: u64, end: u64, told: Told) -> Line {
    Line {
        pass,
        key: 4_096,
        times: Span::new(begin, end).unwrap_or(Span::unended(begin)),
        told,
    }
}

fn inserted(begin: u64, end: u64) -> Line {
    line(0, begin, end, Told::Inserted(pattern::value(7, 3)))
}

fn is_legal(alloc: Global, lines: &[Line]) -> bool {
    judged(alloc, 4_096, lines, 3, 4).is_ok()
}

#[test]
fn answers_in_their_order_are_legal(rt: HostRuntime) {
    let lines = [
        line(1, 1, 2, Told::Gone),
        inserted(3, 4),
        line(1, 5, 6, Told::Got(Some(pattern::value(7, 3)))),
        line(2, 7, 8, Told::Removed),
        line(1, 9, 10, Told::Released),
        line(0, 11, 12, Told::Gone),
    ];
    holds(&rt, is_legal(rt.alloc(), &lines));
}

#[test]
fn a_get_after_the_removal_is_found(rt: HostRuntime) {
    let lines = [
        inserted(1, 2),
        line(2, 3, 4, Told::Removed),
        line(1, 5, 6, Told::Got(None)),
    ];
    holds(&rt, !is_legal(rt.alloc(), &lines));
}

#[test]
fn a_get_during_the_removal_is_legal(rt: HostRuntime) {
    let lines = [
        inserted(1, 2),
        line(2, 3, 6, Told::Removed),
        line(1, 4, 5, Told::Got(None)),
    ];
    holds(&rt, is_legal(rt.alloc(), &lines));
}

#[test]
fn a_key_gone_too_early_is_found(rt: HostRuntime) {
    let gone = [inserted(1, 2), line(1, 3, 4, Told::Gone)];
    holds(&rt, !is_legal(rt.alloc(), &gone));
    let early = [
        inserted(1, 2),
        line(1, 3, 4, Told::Gone),
        line(2, 5, 6, Told::Removed),
    ];
    holds(&rt, !is_legal(rt.alloc(), &early));
}

#[test]
fn another_value_is_found(rt: HostRuntime) {
    let lines = [
        inserted(1, 2),
        line(1, 3, 4, Told::Got(Some(pattern::value(8, 3)))),
    ];
    holds(&rt, !is_legal(rt.alloc(), &lines));
}

// A look at the value that was inserted, at these times.
fn seen(begin: u64, end: u64) -> Line {
    line(1, begin, end, Told::Seen(pattern::value(7, 3)))
}

#[test]
fn a_look_stands_between_the_insert_and_the_removal(rt: HostRuntime) {
    let removed = line(2, 7, 10, Told::Removed);
    let beside = [inserted(2, 5), removed, seen(1, 3), seen(8, 9)];
    holds(&rt, is_legal(rt.alloc(), &beside));
    let early = [seen(1, 2), inserted(3, 4)];
    holds(&rt, !is_legal(rt.alloc(), &early));
    let late = [inserted(1, 2), line(2, 3, 4, Told::Removed), seen(5, 6)];
    holds(&rt, !is_legal(rt.alloc(), &late));
}

#[test]
fn a_key_gone_before_a_look_is_found(rt: HostRuntime) {
    let lines = [
        inserted(1, 2),
        line(0, 3, 4, Told::Gone),
        line(2, 3, 8, Told::Removed),
        seen(5, 6),
    ];
    holds(&rt, !is_legal(rt.alloc(), &lines));
}

#[test]
fn a_look_at_another_value_is_found(rt: HostRuntime) {
    let other = line(1, 3, 4, Told::Seen(pattern::value(8, 3)));
    holds(&rt, !is_legal(rt.alloc(), &[inserted(1, 2), other]));
}

// With 3 passes, 2 of 4 holds are needed before a get may be refused as crowded.
#[test]
fn a_look_has_no_hold(rt: HostRuntime) {
    let released = [inserted(1, 2), seen(3, 4), line(1, 5, 6, Told::Released)];
    holds(&rt, !is_legal(rt.alloc(), &released));
    let crowded = [
        inserted(1, 2),
        line(0, 3, 4, Told::Got(None)),
        seen(5, 6),
        line(2, 7, 8, Told::Crowded),
    ];
    holds(&rt, !is_legal(rt.alloc(), &crowded));
}

#[test]
fn two_removals_are_found(rt: HostRuntime) {
    let lines = [
        inserted(1, 2),
        line(1, 3, 6, Told::Removed),
        line(2, 4, 5, Told::Removed),
    ];
    holds(&rt, !is_legal(rt.alloc(), &lines));
}

// Two passes mark the key by hand, and one of them removes it: the one that may still do so when the key is got for the
// last time.
#[test]
fn one_of_two_marks_removes(rt: HostRuntime) {
    let legal = [
        inserted(1, 2),
        line(1, 3, 9, Told::Marked),
        line(2, 8, 10, Told::Marked),
        line(0, 4, 7, Told::Got(None)),
    ];
    holds(&rt, is_legal(rt.alloc(), &legal));
    let too_late = [
        inserted(1, 2),
        line(1, 3, 4, Told::Marked),
        line(2, 8, 10, Told::Marked),
        line(0, 5, 7, Told::Got(None)),
    ];
    holds(&rt, !is_legal(rt.alloc(), &too_late));
}

// A mark returned before another call removed the key, so that no removal explains it. A mark also cannot find a key
// gone that is got later.
#[test]
fn a_mark_before_the_removal_is_found(rt: HostRuntime) {
    let before = [
        inserted(1, 2),
        line(1, 3, 4, Told::Marked),
        line(2, 7, 9, Told::Removed),
    ];
    holds(&rt, !is_legal(rt.alloc(), &before));
    let got_later = [
        inserted(1, 2),
        line(1, 3, 4, Told::Marked),
        line(2, 7, 9, Told::Got(None)),
    ];
    holds(&rt, !is_legal(rt.alloc(), &got_later));
    let behind = [
        inserted(2, 6),
        line(2, 7, 9, Told::Removed),
        line(1, 8, 10, Told::Marked),
    ];
    holds(&rt, is_legal(rt.alloc(), &behind));
}

#[test]
fn a_release_without_a_hold_is_found(rt: HostRuntime) {
    let lines = [inserted(1, 2), line(1, 3, 4, Told::Released)];
    holds(&rt, !is_legal(rt.alloc(), &lines));
}

// A key may have 4 holds. With 3 passes, at least 2 holds are needed before a get may be refused as crowded.
#[test]
fn crowded_needs_holds(rt: HostRuntime) {
    let lines = [
        inserted(1, 2),
        line(0, 3, 4, Told::Got(None)),
        line(1, 5, 9, Told::Got(None)),
        line(0, 6, 7, Told::Released),
        line(2, 6, 8, Told::Crowded),
    ];
    holds(&rt, is_legal(rt.alloc(), &lines));
    holds(
        &rt,
        !is_legal(rt.alloc(), &[inserted(1, 2), line(2, 6, 8, Told::Crowded)]),
    );
}

// A get that is refused as crowded may have any point in its call at which others hold the key, not only the first.
#[test]
fn a_crowded_get_stands_where_most_hold(rt: HostRuntime) {
    let lines = [
        inserted(1, 2),
        line(2, 3, 10, Told::Crowded),
        line(0, 4, 5, Told::Got(None)),
        line(1, 6, 7, Told::Got(None)),
    ];
    holds(&rt, is_legal(rt.alloc(), &lines));
}

#[test]
fn torn_values_are_found(rt: HostRuntime) -> Result<(), Fail> {
    for len in 0..17usize {
        holds(&rt, pattern::is_whole(&pattern::value(41, len)));
    }
    let one = pattern::value(41, 2);
    let other = pattern::value(42, 2);
    let (Some(first), Some(second)) = (one.words().first(), other.words().last()) else {
        return Err(Fail::from("two words"));
    };
    let Ok(torn) = Value::new(&[*first, *second]) else {
        return Err(Fail::from("a value"));
    };
    holds(&rt, !pattern::is_whole(&torn));
    Ok(())
}

#[test]
fn accounts_must_add_up(rt: HostRuntime) {
    let tally = PageTally {
        live: 1,
        marked: 1,
        retired: 0,
    };
    let accounts = Accounts {
        class: Some(7),
        live: 1,
        marked: 1,
        retired: 0,
        mine: 0,
        hand: 0,
        queued: 1,
    };
    holds(&rt, agrees(&accounts, tally));
    let lost = Accounts {
        queued: 0,
        ..accounts
    };
    holds(&rt, !agrees(&lost, tally));
    let in_hand = Accounts {
        hand: 1,
        queued: 0,
        ..accounts
    };
    holds(&rt, !agrees(&in_hand, tally));
}
