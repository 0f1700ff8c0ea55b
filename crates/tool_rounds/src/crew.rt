//! The passes of one thread.
use crate::board::Board;
use crate::pass::LonePass;
use crate::worker::Worker;
use std::sync::Wait;
use tool_judge::dice::Dice;

// After how many turns of a thread one of its passes walks: so seldom that walks take less time than turns.
const TURNS_A_WALK: u64 = 128;

// One of the passes walks.
fn walk<R: Wait, C: Drop, P: LonePass<Receipt = C>>(
    workers: &mut [Worker<P>],
    board: &Board<'_, R, C>,
    number: u64,
) {
    let count = (workers.len() as u64).max(1);
    if let Some(worker) = workers.get_mut((number % count) as usize) {
        worker.walk(&board.moments);
    }
}

// Takes one turn of one of the passes. False if the pass found a fault.
fn turn<R: Wait, C: Drop, P: LonePass<Receipt = C>>(
    workers: &mut [Worker<P>],
    board: &Board<'_, R, C>,
    dice: &mut Dice,
) -> bool {
    let count = workers.len() as u64;
    if count == 0 {
        return true;
    }
    let number = dice.below(count);
    let Some(worker) = workers.get_mut(number as usize) else {
        return true;
    };
    worker.turn(board, dice);
    worker.record().fault().is_none()
}

/// The passes of one thread take `steps` turns, in an order that the dice give, and walk between them. They stop early
/// if any thread finds a fault.
pub fn run<R: Wait, C: Drop, P: LonePass<Receipt = C>>(
    workers: &mut [Worker<P>],
    board: &Board<'_, R, C>,
    dice: &mut Dice,
    steps: u64,
) {
    for step in 1..=steps {
        if board.is_stopped() {
            return;
        }
        if step % TURNS_A_WALK == 0 {
            walk(workers, board, step / TURNS_A_WALK);
        }
        if !turn(workers, board, dice) {
            board.stop();
            return;
        }
    }
}
