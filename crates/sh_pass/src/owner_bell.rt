//! Steps of an owner on the bell of its shard.
ghost use Rattle.std.specs.Prelude.{◌≡◌, [], None, Some};
ghost use Rattle.sh_slots.specs.declared.hand.Hand.TheVariants.{Idle};
ghost use Rattle.sh_step.specs.declared.action.Action.TheVariants as action;
ghost use Rattle.sh_step.specs.declared.moves.Move.TheVariants as move;
ghost use Rattle.sh_pass.specs.Owners.{MayTouch, OwnerDid, OwnerActs, OnPage, SamePages, NonePut, NoneArmed, heap_page};
ghost use Rattle.sh_pass.specs.Owners.{own_body, seen_page, seen_bell, bell_taken, bell_followed, page_rung};

use crate::keeping::KeepsHeap;
use crate::owner::OwnerOn;
use sh_key::KeyLayout;
use sh_step::PageName;

impl<L: KeyLayout, H: KeepsHeap<L>> OwnerOn<L, H> {
    /// Takes what was put on the shard's bell. Returns the bell word that it found.
    pub fn take_bell(&mut self, shard: u64) -> u64
        requires idle { (own_body self.old).hand ≡ Idle }
        requires owned { (own_body self.old).owned ≡ Some shard }
        requires none { (seen_bell L.layout self.old shard).cursor ≡ None }
        ensures does { OwnerDid L.layout action.TakeBell (move.TakeBell shard) result self.old self.new }
        ensures acts { OwnerActs Idle [] 1 self.old self.new }
        ensures bell { seen_bell L.layout self.new shard ≡ bell_taken self.old shard result
            (seen_bell L.layout self.old shard) }
        ensures pages { SamePages self.old self.new }
        ensures put { NonePut self.old self.new }
        ensures arm { NoneArmed self.old self.new }
    {
        let heap = self.heap.kept();
        heap.table.take_bell(&mut self.seated.seat, shard)
    }

    /// Reads the link of the page at the bell's cursor, and returns it.
    pub fn follow_bell(&mut self, name: PageName) -> u64
        requires touch { MayTouch self.old name }
        requires cursor { (seen_bell L.layout self.old name.shard).cursor ≡ Some (heap_page self.old name) }
        ensures does { OwnerDid L.layout action.FollowBell (move.FollowBell (heap_page self.old name)) result self.old
            self.new }
        ensures acts { OwnerActs Idle [] 1 self.old self.new }
        ensures bell { seen_bell L.layout self.new name.shard ≡ bell_followed self.old name.shard result
            (seen_bell L.layout self.old name.shard) }
        ensures page { OnPage (heap_page self.old name) (page_rung (seen_page self.old (heap_page self.old name))
            result) self.old self.new }
        ensures put { NonePut self.old self.new }
        ensures arm { NoneArmed self.old self.new }
    {
        let page = self.number(name);
        let heap = self.heap.kept();
        heap.table.follow_bell(&mut self.seated.seat, page)
    }
}
