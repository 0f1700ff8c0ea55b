use super::{PAGE, event, has_words, moves, opened, removes, skips};
use sh_step::Action;

// The first free into an armed page rings, and the page stays armed until its ring is read.
#[test]
fn a_ring_tells_the_owner(rt: HostRuntime) {
    let mut world = opened(rt.alloc(), 2, &rt);
    moves(&mut world, &[event(0, Action::Arm(PAGE))], &rt);
    has_words(&world, [(1, 1)], &rt);
    removes(&mut world, 1, 4096, &rt);
    moves(
        &mut world,
        &[
            event(1, Action::Put),
            event(1, Action::Tie),
            event(1, Action::Ring),
        ],
        &rt,
    );
    has_words(&world, [(1, 2), (2, 0), (51, 1), (1561, 1)], &rt);
    moves(
        &mut world,
        &[event(0, Action::TakeBell), event(0, Action::FollowBell)],
        &rt,
    );
    skips(&mut world, 0, Action::Arm(PAGE), &rt);
    moves(&mut world, &[event(1, Action::RingTie)], &rt);
    has_words(&world, [(2, 1), (1561, 0)], &rt);
    moves(
        &mut world,
        &[event(0, Action::FollowBell), event(0, Action::Arm(PAGE))],
        &rt,
    );
    has_words(&world, [(1, 1), (2, 0), (51, 1), (1561, 0)], &rt);
}

// A stack that is taken without its flag leaves the page armed.
#[test]
fn a_taken_stack_leaves_the_page_armed(rt: HostRuntime) {
    let mut world = opened(rt.alloc(), 2, &rt);
    moves(&mut world, &[event(0, Action::Arm(PAGE))], &rt);
    removes(&mut world, 1, 4096, &rt);
    moves(&mut world, &[event(1, Action::Put)], &rt);
    moves(&mut world, &[event(0, Action::Take(PAGE))], &rt);
    moves(
        &mut world,
        &[event(1, Action::Tie), event(1, Action::Ring)],
        &rt,
    );
    moves(
        &mut world,
        &[event(0, Action::TakeBell), event(0, Action::FollowBell)],
        &rt,
    );
    skips(&mut world, 0, Action::Arm(PAGE), &rt);
    moves(&mut world, &[event(1, Action::RingTie)], &rt);
    moves(&mut world, &[event(0, Action::FollowBell)], &rt);
    skips(&mut world, 0, Action::Arm(PAGE), &rt);
    has_words(&world, [(1, 0), (2, 0), (51, 1), (1561, 0)], &rt);
}
