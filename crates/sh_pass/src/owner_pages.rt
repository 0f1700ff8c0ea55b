//! Steps of an owner on pages and their stacks.
ghost use Rattle.std.specs.Prelude.{◌≡◌, ◌<◌, ◌≤◌, [], None, Some, false};
ghost use Rattle.sh_slots.specs.declared.hand.Hand.TheVariants.{Idle};
ghost use Rattle.sh_step.specs.declared.action.Action.TheVariants as action;
ghost use Rattle.sh_step.specs.declared.moves.Move.TheVariants as move;
ghost use Rattle.sh_step.specs.Rows.{class_word_noted};
ghost use Rattle.sh_pass.specs.Owners.{MayTouch, MayGive, OwnerDid, OwnerActs, OnPage, SameBells, NonePut, NoneArmed};
ghost use Rattle.sh_pass.specs.Owners.{heap_page, own_body, seen_page, page_given, page_noted, page_taken, page_armed};
ghost use Rattle.sh_pass.specs.Owners.{page_followed};

use crate::keeping::KeepsHeap;
use crate::owner::OwnerOn;
use sh_key::KeyLayout;
use sh_step::PageName;

impl<L: KeyLayout, H: KeepsHeap<L>> OwnerOn<L, H> {
    /// Reads the class word of the page: 0 if the page is blank, and otherwise one more than its class.
    pub fn read_page(&mut self, name: PageName) -> u64
        requires touch { MayTouch self.old name }
        ensures does { OwnerDid L.layout (action.ReadPage name) (move.ReadPage (heap_page self.old name)) result
            self.old self.new }
        ensures acts { OwnerActs Idle [] 1 self.old self.new }
        ensures bells { SameBells L.layout self.old self.new }
        ensures page { OnPage (heap_page self.old name) (page_noted (seen_page self.old (heap_page self.old name))
            result) self.old self.new }
        ensures few { result ≤ 8 }
    {
        let page = self.number(name);
        let heap = self.heap.kept();
        heap.table.read_page(&mut self.seated.seat, name, page)
    }

    /// Gives the page the class: a blank page, or one of another class all of whose slots are its own.
    pub fn set_class(&mut self, name: PageName, class: u32)
        requires touch { MayTouch self.old name }
        requires may { MayGive (seen_page self.old (heap_page self.old name)) }
        requires class { class < 8 }
        ensures does { OwnerDid L.layout (action.SetClass name class) (move.SetClass (heap_page self.old name) class) 0
            self.old self.new }
        ensures acts { OwnerActs Idle [] 1 self.old self.new }
        ensures bells { SameBells L.layout self.old self.new }
        ensures page { OnPage (heap_page self.old name) (page_given (seen_page self.old (heap_page self.old name))
            class) self.old self.new }
        ensures put { NonePut self.old self.new }
        ensures arm { NoneArmed self.old self.new }
    {
        let page = self.number(name);
        let heap = self.heap.kept();
        heap.table
            .set_class(&mut self.seated.seat, name, page, class);
    }

    /// Takes what was put on the page. Returns the head word that it found.
    pub fn take(&mut self, name: PageName) -> u64
        requires touch { MayTouch self.old name }
        requires classed { 0 < class_word_noted (own_body self.old) (heap_page self.old name) }
        requires none { (seen_page self.old (heap_page self.old name)).cursor ≡ None }
        ensures does { OwnerDid L.layout (action.Take name) (move.Take (heap_page self.old name)) result self.old
            self.new }
        ensures acts { OwnerActs Idle [] 1 self.old self.new }
        ensures bells { SameBells L.layout self.old self.new }
        ensures page { OnPage (heap_page self.old name) (page_taken (seen_page self.old (heap_page self.old name))
            result) self.old self.new }
        ensures put { NonePut self.old self.new }
        ensures arm { NoneArmed self.old self.new }
    {
        let page = self.number(name);
        let heap = self.heap.kept();
        heap.table.take(&mut self.seated.seat, name, page)
    }

    /// Asks for a ring at the next put on the page, and takes what was put there. Returns the head word that it found.
    pub fn arm(&mut self, name: PageName) -> u64
        requires touch { MayTouch self.old name }
        requires classed { 0 < class_word_noted (own_body self.old) (heap_page self.old name) }
        requires none { (seen_page self.old (heap_page self.old name)).cursor ≡ None }
        requires calm { (seen_page self.old (heap_page self.old name)).armed ≡ false }
        ensures does { OwnerDid L.layout (action.Arm name) (move.Arm (heap_page self.old name)) result
            self.old self.new }
        ensures acts { OwnerActs Idle [] 1 self.old self.new }
        ensures bells { SameBells L.layout self.old self.new }
        ensures page { OnPage (heap_page self.old name) (page_armed (seen_page self.old (heap_page self.old name))
            result) self.old self.new }
        ensures put { NonePut self.old self.new }
    {
        let page = self.number(name);
        let heap = self.heap.kept();
        heap.table.arm(&mut self.seated.seat, name, page)
    }

    /// Reads the link of the slot at the page's cursor, and returns it.
    pub fn follow(&mut self, name: PageName, slot: u64) -> u64
        requires touch { MayTouch self.old name }
        requires cursor { (seen_page self.old (heap_page self.old name)).cursor ≡ Some slot }
        ensures does { OwnerDid L.layout (action.Follow name) (move.Follow (heap_page self.old name) slot) result
            self.old self.new }
        ensures acts { OwnerActs Idle [] 1 self.old self.new }
        ensures bells { SameBells L.layout self.old self.new }
        ensures page { OnPage (heap_page self.old name) (page_followed (seen_page self.old (heap_page self.old name))
            slot result) self.old self.new }
        ensures put { NonePut self.old self.new }
        ensures arm { NoneArmed self.old self.new }
    {
        let page = self.number(name);
        let heap = self.heap.kept();
        heap.table.follow(&mut self.seated.seat, name, page, slot)
    }
}
