//! The board of names, on which workers wait for one another.
ghost use Rattle.std.specs.Prelude.{◌≡◌, IfOk, length};
ghost use Rattle.script_calls.specs.InOrder.{Covers};
ghost use Rattle.script_calls.specs.Receipts.{seen_of_receipt};
ghost use Rattle.script_workers.specs.Boards.{IsBinding, HeardName, MayHearName};

use crate::room::Room;
use script_calls::side::Side;
use sh_pass::Receipt;
use std::alloc::{AllocError, Global};
use std::marker::{Model, PhantomData};
use std::mem;
use std::sync::{Condvar, Mutex, Wait};

/// What a name is bound to: the number that its insert returned, if it returned one, and how many entries the pass that
/// bound it had then.
#[derive(Clone, Copy, Debug, PartialEq, Eq)]
pub struct Bound {
    pub number: Option<u64>,
    pub pass: usize,
    pub entries: usize,
}

/// What a name is bound to, and then a receipt that covers these entries. A contract sees what it is bound to.
#[derive(Drop)]
pub struct Binding<B: Room> {
    bound: Bound,
    receipt: Receipt,
    room: PhantomData<B>,
}

impl<B: Room> Model for Binding<B> {
    ghost use Rattle.script_workers.specs.declared.board.Bound.{Bound};
    ghost use Rattle.script_workers.specs.Boards.{IsBinding};

    ghost Value = { Bound };

    ghost view = { λ b. b.bound };

    ghost invariant = { λ b. IsBinding B.heap b.bound b.receipt };
}

impl<B: Room> Binding<B> {
    /// What the name is bound to, with a receipt of the pass that bound it.
    pub fn new(bound: Bound, receipt: Receipt) -> Self
        requires heap { (seen_of_receipt receipt).heap ≡ B.heap }
        requires covers { Covers (seen_of_receipt receipt).heard bound.pass bound.entries }
        ensures { result ≡ bound }
    {
        Binding {
            bound,
            receipt,
            room: PhantomData,
        }
    }

    // The pass heeds the receipt. A receipt of its own, which covers all that this one covered, takes its place.
    fn heeded<S: Side>(self, side: &mut S) -> Self
        requires heap { (S.seen side.old).heap ≡ B.heap }
        ensures bound { result ≡ self }
        ensures heard { HeardName self (S.seen side.old) (S.seen side.new) }
    {
        let Binding {
            bound,
            receipt,
            room,
        } = self;
        side.heed(receipt);
        Binding {
            bound,
            receipt: side.receipt(),
            room,
        }
    }

    fn bound(&self) -> Bound
        ensures { result ≡ self.now }
    {
        self.bound
    }
}

// What is known of a name.
#[derive(Drop)]
enum Name<B: Room> {
    // Nothing yet.
    Open,
    // It is bound.
    Bound(Binding<B>),
}

#[derive(Drop)]
struct Names<B: Room> {
    names: Vec<Name<B>>,
    is_closed: bool,
}

impl<B: Room> Names<B> {
    fn is_awaited(&self, name: usize) -> bool {
        !self.is_closed && matches!(self.names.get(name), Some(Name::Open))
    }

    fn bind(&mut self, name: usize, binding: Binding<B>) {
        if let Some(place) = self.names.get_mut(name) {
            *place = Name::Bound(binding);
        }
    }

    // What the name is bound to, once the pass has heeded the receipt of its binding. A name that was bound before the
    // board was closed is still told.
    fn told<S: Side>(&mut self, name: usize, side: &mut S) -> Option<Bound>
        requires heap { (S.seen side.old).heap ≡ B.heap }
        ensures heard { MayHearName result (S.seen side.old) (S.seen side.new) }
    {
        let Some(place) = self.names.get_mut(name) else {
            return None;
        };
        let Name::Bound(binding) = mem::replace(place, Name::Open) else {
            return None;
        };
        let binding = binding.heeded(side);
        let bound = binding.bound();
        *place = Name::Bound(binding);
        Some(bound)
    }
}

/// Names that threads bind and wait for. With each name comes a receipt, so what its pass did before it bound the name
/// happens before what is returned to a pass that waited. What the name is bound to is compared with the answers later:
/// no contract relies on it.
#[derive(Drop)]
pub struct Board<B: Room> {
    names: Mutex<Names<B>>,
    // One for each name, so that a pass sleeps while other names are bound.
    bound: Vec<Condvar>,
}

impl<B: Room> Board<B> {
    /// A board of this many names, none of which is bound.
    pub fn new(alloc: Global, count: usize) -> Result<Board<B>, AllocError>
        ensures { IfOk result (λ board. length board.bound.items ≡ count) }
    {
        let mut names = Vec::with_capacity(alloc, count)?;
        let mut bound = Vec::with_capacity(alloc, count)?;
        for _name in 0..count {
            names.push(Name::Open)?;
            bound.push(Condvar::new())?;
        }
        Ok(Board {
            names: Mutex::new(Names {
                names,
                is_closed: false,
            }),
            bound,
        })
    }

    /// Binds a name, and wakes the passes that wait for it, and no others.
    pub fn bind<R: Wait>(&self, rt: &R, name: usize, binding: Binding<B>) {
        let mut names = self.names.lock(rt);
        names.bind(name, binding);
        drop(names);
        if let Some(bound) = self.bound.get(name) {
            bound.notify_all();
        }
    }

    /// Waits for a name, heeds the receipt that comes with it, and returns what it is bound to. `None` if the board is
    /// closed and the name is not bound, or if there is no such name.
    pub fn wait<S: Side, R: Wait>(&self, rt: &R, name: usize, side: &mut S) -> Option<Bound>
        requires heap { (S.seen side.old).heap ≡ B.heap }
        ensures heard { MayHearName result (S.seen side.old) (S.seen side.new) }
    {
        let bound = self.bound.get(name)?;
        let mut names = bound.wait_while(rt, self.names.lock(rt), |names| names.is_awaited(name));
        names.told(name, side)
    }

    /// Ends all waiting for good.
    pub fn close<R: Wait>(&self, rt: &R) {
        let mut names = self.names.lock(rt);
        names.is_closed = true;
        drop(names);
        for bound in &self.bound {
            bound.notify_all();
        }
    }
}
