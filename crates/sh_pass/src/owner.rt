//! Owners: passes that own a shard, step by step.
ghost use Rattle.std.specs.Prelude.{◌≡◌, ℕ, ◌<◌, None, Some};
ghost use Rattle.sh_slots.specs.declared.hand.Hand.TheVariants.{Idle};
ghost use Rattle.sh_shape.specs.Places.{pages_of};
ghost use Rattle.sh_step.specs.declared.action.Action.TheVariants as action;
ghost use Rattle.sh_step.specs.declared.moves.Move.TheVariants as move;
ghost use Rattle.sh_table.specs.Tales.{ViewIsValid};
ghost use Rattle.sh_pass.specs.Owners.{OwnerDid, OwnerTries, OwnerAdopts, Left, HasNothing, NonePut, NoneArmed};
ghost use Rattle.sh_pass.specs.Owners.{heap_page, own_body, seen_page};

use crate::keeping::KeepsHeap;
use crate::pass::PassOn;
use crate::seated::Seated;
use sh_key::KeyLayout;
use sh_shape::Shape;
use sh_step::PageName;
use std::marker::Model;

/// A pass that may own a shard: what its shard is made with. An `Owner` is one that borrows its heap.
///
/// Each of its steps is one step of the core, has that step's condition, and returns the word that it found; a store
/// returns nothing. A contract sees which heap it is of and what it knows, as of a `Pass`.
///
/// An owner that is dropped leaves its shard taken for good, with the slots that are its own, what it has begun, and
/// its holds. So let it leave, and turn it back into a pass by `into_pass`.
#[derive(Drop)]
pub struct OwnerOn<L: KeyLayout, H: KeepsHeap<L>> {
    pub(crate) heap: H,
    pub(crate) seated: Seated<L>,
    // The shard that it owns.
    pub(crate) owned: Option<u64>,
}

impl<L: KeyLayout, H: KeepsHeap<L>> Model for OwnerOn<L, H> {
    ghost use Rattle.sh_pass.specs.Passes.{Caller, caller_of};
    ghost use Rattle.sh_pass.specs.Owners.{IsOwner};

    ghost Value = { Caller };

    ghost view = { λ o. caller_of o.seated.seat };

    ghost invariant = { λ o. IsOwner L.layout (H.heap o.heap) o.seated.seat o.seated.held.items o.seated.named o.owned
        o.seated.number };
}

impl<L: KeyLayout, H: KeepsHeap<L>> OwnerOn<L, H> {
    /// The pass, to own a shard.
    pub fn of(pass: PassOn<L, H>) -> Self
        ensures same { result ≡ pass }
        ensures idle { (own_body result).hand ≡ Idle }
        ensures left { (own_body result).owned ≡ None }
        ensures stands { ViewIsValid L.layout result.view }
    {
        OwnerOn {
            heap: pass.heap,
            seated: pass.seated,
            owned: None,
        }
    }

    /// The pass again.
    pub fn into_pass(self) -> PassOn<L, H>
        requires idle { (own_body self).hand ≡ Idle }
        requires left { (own_body self).owned ≡ None }
        ensures { result ≡ self }
    {
        PassOn {
            heap: self.heap,
            seated: self.seated,
        }
    }

    /// The shape of the heap, as the owner knows it. All that it knows holds.
    pub fn shape(&self) -> &Shape
        ensures is { result.now ≡ self.now.heap.shape }
        ensures same { self.now.view.shape ≡ self.now.heap.shape }
        ensures stands { ViewIsValid L.layout self.now.view }
    {
        let heap = self.heap.kept();
        heap.table.shape()
    }

    /// How many shards the heap has.
    pub fn shards(&self) -> u64
        ensures { result ≡ self.now.view.shape.shards }
    {
        let heap = self.heap.kept();
        u64::from(heap.table.shape().shards())
    }

    /// How many pages each shard has.
    pub fn pages(&self) -> u64
        ensures is { result ≡ pages_of self.now.view.shape }
        ensures same { self.now.view.shape ≡ self.now.heap.shape }
    {
        let heap = self.heap.kept();
        u64::from(heap.table.shape().pages())
    }

    // The number of a page over the whole heap.
    pub(crate) fn number(&self, name: PageName) -> u64
        requires shard { name.shard < self.now.view.shape.shards }
        requires page { name.page < pages_of self.now.view.shape }
        ensures { result ≡ heap_page self.now name }
    {
        let heap = self.heap.kept();
        let shape = heap.table.shape();
        let _known = (shape.shards(), shape.pages());
        u64::from(shape.page_number(name.shard as u32, name.page as u32))
    }

    /// Becomes the owner of the shard if it finds 0.
    pub fn adopt(&mut self, shard: u64) -> u64
        requires idle { (own_body self.old).hand ≡ Idle }
        requires left { (own_body self.old).owned ≡ None }
        requires shard { shard < self.old.view.shape.shards }
        ensures does { OwnerDid L.layout (action.Adopt shard) (move.Adopt shard) result self.old self.new }
        ensures tries { OwnerTries self.old self.new }
        ensures adopts { OwnerAdopts L.layout shard result self.old self.new }
        ensures put { NonePut self.old self.new }
        ensures arm { NoneArmed self.old self.new }
    {
        let heap = self.heap.kept();
        let found = heap.table.adopt(&mut self.seated.seat, shard);
        if found == 0 {
            self.owned = Some(shard);
        }
        found
    }

    /// Gives up the shard. The owner must have nothing left of it.
    pub fn leave(&mut self, shard: u64)
        requires idle { (own_body self.old).hand ≡ Idle }
        requires owned { (own_body self.old).owned ≡ Some shard }
        requires pages { (q : ℕ) → HasNothing (seen_page self.old q) }
        requires bell { (own_body self.old).bell_cursor ≡ None }
        ensures does { OwnerDid L.layout action.Leave (move.Leave shard) 0 self.old self.new }
        ensures left { Left self.old self.new }
    {
        let heap = self.heap.kept();
        heap.table.leave(&mut self.seated.seat, shard);
        self.owned = None;
    }
}
