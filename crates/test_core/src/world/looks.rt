use super::{event, fills, has_log, has_words, moves, opened, removes, replies, skips, value};
use sh_history::Entry;
use sh_step::Action;

// A look loads state, class, length, word and state again. No word changes.
#[test]
fn a_look_reads_a_value(rt: HostRuntime) {
    let mut world = opened(rt.alloc(), 2, &rt);
    moves(
        &mut world,
        &[
            event(1, Action::Look(4096)),
            event(1, Action::LookOn),
            event(1, Action::LookOn),
            event(1, Action::LookOn),
        ],
        &rt,
    );
    skips(&mut world, 1, Action::LookOn, &rt);
    replies(
        &mut world,
        1,
        Action::LookAgain,
        Entry::Seen(1, 4096, value(&[5], &rt)),
        &rt,
    );
    skips(&mut world, 1, Action::LookAgain, &rt);
    has_words(&world, [(3, 5368709120), (99, 1), (147, 5)], &rt);
}

// A look at a key that was not there yet ends with no reply. One at a key that was removed finds it gone at the first
// load.
#[test]
fn a_look_finds_no_key(rt: HostRuntime) {
    let mut world = opened(rt.alloc(), 2, &rt);
    moves(&mut world, &[event(1, Action::Look(8192))], &rt);
    skips(&mut world, 1, Action::LookOn, &rt);
    removes(&mut world, 0, 4096, &rt);
    replies(&mut world, 1, Action::Look(4096), Entry::Gone(1, 4096), &rt);
    skips(&mut world, 1, Action::LookOn, &rt);
}

// A key that is removed in the middle of a look is gone at the last load, also if another value is there by then.
#[test]
fn a_look_meets_a_removal(rt: HostRuntime) {
    let mut world = opened(rt.alloc(), 2, &rt);
    moves(
        &mut world,
        &[event(1, Action::Look(4096)), event(1, Action::LookOn)],
        &rt,
    );
    removes(&mut world, 0, 4096, &rt);
    fills(&mut world, 0, 6, &rt);
    replies(
        &mut world,
        0,
        Action::Publish,
        Entry::Insert(0, 8192, value(&[6], &rt)),
        &rt,
    );
    moves(
        &mut world,
        &[event(1, Action::LookOn), event(1, Action::LookOn)],
        &rt,
    );
    replies(&mut world, 1, Action::LookAgain, Entry::Gone(1, 4096), &rt);
    has_log(
        &world,
        [
            Entry::Insert(0, 4096, value(&[5], &rt)),
            Entry::Removed(0, 4096),
            Entry::Insert(0, 8192, value(&[6], &rt)),
            Entry::Gone(1, 4096),
        ],
        &rt,
    );
}
