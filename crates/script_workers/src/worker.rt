//! Workers: each makes the calls of one pass, in the order of the script.
ghost use Rattle.std.specs.Prelude.{◌≡◌, ◌≤◌, length, [], IfSome, MatchOption, cond};
ghost use Rattle.std.specs.List.{list_any};
ghost use Rattle.std.specs.Vec.{vec_capacity};
ghost use Rattle.script_output.specs.Keys.{HasTagRoom};
ghost use Rattle.script_calls.specs.InOrder.{Covers, adds_entry};
ghost use Rattle.script_calls.specs.Parts.{new_part, new_pass};
ghost use Rattle.script_calls.specs.Receipts.{receipt_seen};
ghost use Rattle.script_workers.specs.Boards.{MayHearName};
ghost use Rattle.script_workers.specs.Works.{own_calls, is_line_of, bound_by, bound_number, IsWork};

use crate::board::{Binding, Board, Bound};
use crate::gate::Gate;
use crate::room::Room;
use script_calls::line::{adds_entry, answered, binds, name_needed, number_told};
use script_calls::side::Side;
use script_output::Answer;
use sh_script::{Call, CallLine};
use std::alloc::Global;
use std::marker::{Model, PhantomData};
use std::sync::Wait;

/// What all workers share: the script, the board of its names, and the gate that they pass.
#[derive(Drop)]
pub struct Shared<'a, G: Gate, B: Room> {
    pub alloc: Global,
    pub lines: &'a [CallLine],
    pub tag: Option<u8>,
    pub board: &'a Board<B>,
    pub gate: &'a G,
}

/// A call that was made: what the name that it needs was bound to, if it needs one, its answer, and how many entries its
/// pass had then.
#[derive(Drop)]
pub struct Made {
    pub bound: Option<Bound>,
    pub answer: Answer,
    pub entries: usize,
}

impl Made {
    /// What the call, made by this pass, binds its name to, if it binds one.
    pub fn binding(&self, pass: usize) -> Bound
        ensures { result ≡ bound_by pass self.now }
    {
        Bound {
            number: number_told(&self.answer),
            pass,
            entries: self.entries,
        }
    }
}

/// A pass with its calls. To a contract it is the pass's number.
#[derive(Drop)]
pub struct Worker<S: Side, B: Room> {
    number: usize,
    side: S,
    // The number of lines that it has passed, of names that they bind, and of entries that its own ones added.
    next: usize,
    names: usize,
    entries: usize,
    made: Vec<Made>,
    room: PhantomData<B>,
}

impl<S: Side, B: Room> Model for Worker<S, B> {
    ghost use Rattle.std.specs.Prelude.{ℕ, ◌≡◌, ◌≤◌, take, length};
    ghost use Rattle.std.specs.Vec.{vec_capacity};
    ghost use Rattle.script_calls.specs.Parts.{new_part};
    ghost use Rattle.script_workers.specs.Works.{own_calls, IsWork};

    ghost Value = { ℕ };

    ghost view = { λ w. w.number };

    ghost invariant = { λ w. IsWork B.heap B.terms B.tag (take w.next B.lines) w.number
        (new_part B.heap w.number) (S.seen w.side) w.made.items × (w.names ≤ w.next)
        × (length (own_calls w.number B.lines) ≤ vec_capacity w.made)
        × (w.entries ≡ length (S.seen w.side).part.log) × (w.entries ≤ w.next) };
}

// What the name that the call needs is bound to, if it needs one: the pass waits for it, and heeds the receipt that comes
// with it. `None` if the board is closed.
fn awaited<S: Side, B: Room, R: Wait>(
    rt: &R,
    board: &Board<B>,
    side: &mut S,
    call: &Call,
) -> Option<Option<Bound>>
    requires heap { (S.seen side.old).heap ≡ B.heap }
    ensures heard { MatchOption result (S.seen side.new ≡ S.seen side.old)
        (λ bound. MayHearName bound (S.seen side.old) (S.seen side.new)) }
{
    let Some(name) = name_needed(call) else {
        return Some(None);
    };
    match board.wait(rt, name, side) {
        Some(bound) => Some(Some(bound)),
        None => None,
    }
}

// The number that the name of a call is bound to, if it is bound to one.
fn number_bound(bound: Option<Bound>) -> Option<u64>
    ensures { result ≡ bound_number bound }
{
    bound?.number
}

// Binds the name, if the call binds one. A receipt of the pass comes with it.
fn bind<S: Side, B: Room, R: Wait>(
    rt: &R,
    board: &Board<B>,
    name: usize,
    side: &mut S,
    call: &Call,
    bound: Bound,
)
    requires heap { (S.seen side.old).heap ≡ B.heap }
    requires covers { Covers (receipt_seen (S.seen side.old)).heard bound.pass bound.entries }
    ensures { S.seen side.new ≡ S.seen side.old }
{
    if binds(call) {
        let binding = Binding::new(bound, side.receipt());
        board.bind(rt, name, binding);
    }
}

// The number of names that the call binds.
fn names_bound(call: &Call) -> usize
    ensures { result ≤ 1 }
{
    if binds(call) { 1 } else { 0 }
}

// The number of entries that the call, with this answer, added.
fn entries_added(call: &Call, answer: &Answer) -> usize
    ensures is { result ≡ cond (adds_entry call.now answer.now) 1 0 }
    ensures few { result ≤ 1 }
{
    if adds_entry(call, answer) { 1 } else { 0 }
}

impl<S: Side, B: Room> Worker<S, B> {
    // Passes the next line, and makes its call if it is its own. False if there is no line left, or the board is
    // closed. It takes no memory except what the call takes: the room for the answer was taken before.
    fn step<R: Wait, G: Gate>(&mut self, rt: &R, shared: &Shared<'_, G, B>) -> bool
        requires lines { shared.now.lines.now ≡ B.lines }
        requires tag { shared.now.tag ≡ B.tag }
        requires room { HasTagRoom B.terms.layout shared.now.tag }
        ensures { self.new ≡ self.old }
    {
        let Some(line) = shared.lines.get(self.next) else {
            return false;
        };
        if line.pass as usize == self.number {
            let call = self.made.len();
            shared.gate.before(self.number, call);
            let Some(bound) = awaited(rt, shared.board, &mut self.side, &line.call) else {
                return false;
            };
            let number = number_bound(bound);
            let answer = answered(shared.alloc, &mut self.side, shared.tag, &line.call, number);
            self.entries += entries_added(&line.call, &answer);
            let made = Made {
                bound,
                answer,
                entries: self.entries,
            };
            bind(
                rt,
                shared.board,
                self.names,
                &mut self.side,
                &line.call,
                made.binding(self.number),
            );
            self.made.push_reserved(made);
            shared.gate.after(self.number, call);
        }
        self.names += names_bound(&line.call);
        self.next += 1;
        true
    }

    /// Makes the calls that are left, in order. If it stops before the last, it closes the board.
    pub fn run<R: Wait, G: Gate>(&mut self, rt: &R, shared: &Shared<'_, G, B>)
        requires lines { shared.now.lines.now ≡ B.lines }
        requires tag { shared.now.tag ≡ B.tag }
        requires room { HasTagRoom B.terms.layout shared.now.tag }
        ensures { self.new ≡ self.old }
    {
        for _ in 0..shared.lines.len() {
            if !self.step(rt, shared) {
                shared.board.close(rt);
                return;
            }
        }
    }

    /// Whether a line is its own.
    pub fn has_calls(&self, lines: &[CallLine]) -> bool
        ensures { result ≡ list_any (is_line_of self.now) lines.now }
    {
        let number = self.number;
        lines.iter().any(|line| line.pass as usize == number)
    }

    /// Its number.
    pub fn number(&self) -> usize
        ensures { result ≡ self.now }
    {
        self.number
    }

    /// A worker that has made no call yet, with room for the answers to its calls.
    pub fn new(number: usize, side: S, made: Vec<Made>) -> Self
        requires side { S.seen side ≡ new_pass B.heap B.terms number }
        requires made { made.items ≡ [] }
        requires space { length (own_calls number B.lines) ≤ vec_capacity made }
        ensures { result ≡ number }
    {
        Worker {
            number,
            side,
            next: 0,
            names: 0,
            entries: 0,
            made,
            room: PhantomData,
        }
    }

    /// Its pass and the calls that it made, if it made all of them.
    pub fn finish(self, count: usize) -> Option<(S, Vec<Made>)>
        requires { count ≡ length B.lines }
        ensures { IfSome result (λ r. IsWork B.heap B.terms B.tag B.lines self (new_part B.heap self)
            (S.seen r.0) r.1.items) }
    {
        if self.next != count {
            return None;
        }
        let Worker {
            number: _,
            side,
            next: _,
            names: _,
            entries: _,
            made,
            room: _,
        } = self;
        Some((side, made))
    }
}
