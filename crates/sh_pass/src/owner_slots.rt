//! Steps of an owner on slots: how it stores values, and how it puts slots.
ghost use Rattle.std.specs.Prelude.{◌≡◌, cond, ◌<◌, ◌≤◌, ◌+◌, ◌-◌, [], ◌∷◌, true, false, length, Some};
ghost use Rattle.sh_history.specs.declared.entry.Entry.TheVariants as entry;
ghost use Rattle.sh_history.specs.declared.log.LogEntry.TheVariants.{Known};
ghost use Rattle.sh_slots.specs.declared.hand.Hand.TheVariants.{Idle, Filling, Tying, Ringing};
ghost use Rattle.sh_shape.specs.Classes.{width};
ghost use Rattle.sh_shape.specs.Places.{page_number, pages_of, slot_places};
ghost use Rattle.sh_step.specs.Plans.{plan_of};
ghost use Rattle.sh_step.specs.declared.action.Action.TheVariants as action;
ghost use Rattle.sh_step.specs.declared.moves.Move.TheVariants as move;
ghost use Rattle.sh_step.specs.Rows.{class_word_noted, payload_word};
ghost use Rattle.sh_bell.specs.Bell.{is_armed, top_of};
ghost use Rattle.sh_stack.specs.Stack.{link_over};
ghost use Rattle.sh_table.specs.Tales.{ViewIsValid};
ghost use Rattle.sh_pass.specs.Owners.{MayTouch, OwnerDid, OwnerActs, OnPage, SamePages, SameBells, NonePut, heap_page};
ghost use Rattle.sh_pass.specs.Owners.{own_body, seen_page, published, slot_in, heap_slot, page_without, IsKeyIn};
ghost use Rattle.sh_pass.specs.Owners.{IsKeyOn, IsKeyOfSlot};

use crate::keeping::KeepsHeap;
use crate::owner::OwnerOn;
use sh_key::{KeyLayout, Parts};
use sh_shape::Shape;
use sh_slots::{KeyRef, SlotRef, published_name};
use sh_step::{PageName, SlotName};
use sh_table::first_word;
use sh_value::Value;

// The key of a slot of the page of this name. (The caller has the parts of the name: computing them from the page's
// number over the whole heap takes a division.)
fn key_on_page<L: KeyLayout>(shape: &Shape, name: PageName, stored: KeyRef) -> u64
    requires place { stored.page ≡ page_number shape.now name.shard name.page }
    requires shard { name.shard < shape.now.shards }
    requires page { name.page < pages_of shape.now }
    requires slot { stored.slot < slot_places }
    requires names { (plan_of L.layout shape.now).keys.unpack ((plan_of L.layout shape.now).keys.pack stored)
        ≡ Some stored }
    ensures { result ≡ (plan_of L.layout shape.now).keys.pack stored }
{
    let _known = (shape.shards(), shape.pages());
    L::pack(Parts {
        generation: stored.generation,
        shard: name.shard as u32,
        page: name.page as u32,
        slot: stored.slot as u32,
    })
}

impl<L: KeyLayout, H: KeepsHeap<L>> OwnerOn<L, H> {
    /// Stores the length of the value, as it begins to fill a slot of its own. Returns the slot's place over the whole
    /// heap.
    pub fn fill_slot(&mut self, name: PageName, slot: u64, value: &Value) -> SlotRef
        requires touch { MayTouch self.old name }
        requires mine { (seen_page self.old (heap_page self.old name)).mine slot ≡ true }
        requires classed { 0 < class_word_noted (own_body self.old) (heap_page self.old name) }
        requires fits { length value.now ≤ width (class_word_noted (own_body self.old) (heap_page self.old name) - 1) }
        ensures slot_ref { result ≡ heap_slot self.old name slot }
        ensures below { slot < slot_places }
        ensures does { OwnerDid L.layout (action.FillSlot (slot_in name slot) value.now)
            (move.FillSlot (heap_slot self.old name slot) value.now) 0 self.old self.new }
        ensures acts { OwnerActs (Filling (heap_slot self.old name slot) value.now 0) [] 1 self.old self.new }
        ensures bells { SameBells L.layout self.old self.new }
        ensures page { OnPage (heap_page self.old name) (page_without (seen_page self.old (heap_page self.old name))
            slot) self.old self.new }
        ensures put { NonePut self.old self.new }
    {
        let slot_ref = SlotRef {
            page: self.number(name),
            slot,
        };
        let slot_name = SlotName {
            shard: name.shard,
            page: name.page,
            slot,
        };
        let heap = self.heap.kept();
        heap.table
            .fill_slot(&mut self.seated.seat, slot_name, slot_ref, value);
        slot_ref
    }

    /// Stores the value's word of this number, from 0, in a page of this class word. The caller knows the slot's first
    /// word.
    pub fn fill(&mut self, slot_ref: SlotRef, value: &Value, i: u64, class_word: u64, first: u64)
        requires hand { (own_body self.old).hand ≡ Filling slot_ref value.now i }
        requires left { i < length value.now }
        requires class { class_word_noted (own_body self.old) slot_ref.page ≡ class_word }
        requires first { first ≡ payload_word slot_ref.slot class_word 0 }
        ensures does { OwnerDid L.layout action.Fill (move.Fill slot_ref value.now i class_word) 0 self.old self.new }
        ensures acts { OwnerActs (Filling slot_ref value.now (i + 1)) [] 1 self.old self.new }
        ensures bells { SameBells L.layout self.old self.new }
        ensures pages { SamePages self.old self.new }
        ensures put { NonePut self.old self.new }
    {
        let heap = self.heap.kept();
        heap.table.fill(&mut self.seated.seat, slot_ref, value, i, class_word, first);
    }

    /// Makes the filled slot present. Returns the state word that it found.
    pub fn publish(&mut self, slot_ref: SlotRef, value: &Value) -> u64
        requires hand { (own_body self.old).hand ≡ Filling slot_ref value.now (length value.now) }
        ensures does { OwnerDid L.layout action.Publish (move.Publish slot_ref value.now) result self.old self.new }
        ensures acts { OwnerActs Idle
            (Known (entry.Insert self.old.view.pass (published L.layout self.old slot_ref result) value.now) ∷ []) 1
            self.old self.new }
        ensures bells { SameBells L.layout self.old self.new }
        ensures pages { SamePages self.old self.new }
        ensures put { NonePut self.old self.new }
    {
        let heap = self.heap.kept();
        heap.table.publish(&mut self.seated.seat, slot_ref, value)
    }

    /// Stores the value in a slot of its own, in a page of this class word: its length, each word, and then the slot is
    /// made present. Returns the key of the value.
    pub fn insert_at(&mut self, name: PageName, slot: u64, value: &Value, class_word: u64) -> u64
        requires touch { MayTouch self.old name }
        requires mine { (seen_page self.old (heap_page self.old name)).mine slot ≡ true }
        requires class { class_word_noted (own_body self.old) (heap_page self.old name) ≡ class_word }
        requires classed { 0 < class_word }
        requires fits { length value.now ≤ width (class_word - 1) }
        ensures acts { OwnerActs Idle (Known (entry.Insert self.old.view.pass result value.now) ∷ [])
            (length value.now + 2) self.old self.new }
        ensures key { IsKeyIn L.layout self.old name.shard result }
        ensures on { IsKeyOn L.layout self.old (heap_page self.old name) result }
        ensures slot { IsKeyOfSlot (plan_of L.layout self.old.view.shape) (heap_slot self.old name slot) result }
        ensures bells { SameBells L.layout self.old self.new }
        ensures page { OnPage (heap_page self.old name) (page_without (seen_page self.old (heap_page self.old name))
            slot) self.old self.new }
        ensures put { NonePut self.old self.new }
        ensures stands { ViewIsValid L.layout self.new.view }
    {
        let slot_ref = self.fill_slot(name, slot, value);
        let first = first_word(slot, class_word);
        for i in 0..value.words().len() as u64 {
            self.fill(slot_ref, value, i, class_word, first);
        }
        let found = self.publish(slot_ref, value);
        let stored = published_name(slot_ref, found);
        let heap = self.heap.kept();
        key_on_page::<L>(heap.table.shape(), name, stored)
    }

    /// Puts a slot of its own on its page's stack. Returns the head word that it found.
    pub fn put_slot(&mut self, name: PageName, slot: u64) -> u64
        requires touch { MayTouch self.old name }
        requires mine { (seen_page self.old (heap_page self.old name)).mine slot ≡ true }
        ensures does { OwnerDid L.layout (action.PutSlot (slot_in name slot))
            (move.PutSlot (heap_slot self.old name slot)) result self.old self.new }
        ensures acts { OwnerActs (Tying (heap_slot self.old name slot) (link_over (top_of result)) (is_armed result)) []
            1 self.old self.new }
        ensures bells { SameBells L.layout self.old self.new }
        ensures page { OnPage (heap_page self.old name) (page_without (seen_page self.old (heap_page self.old name))
            slot) self.old self.new }
        ensures calm { (seen_page self.old (heap_page self.old name)).armed ≡ false → is_armed result ≡ false }
    {
        let slot_ref = SlotRef {
            page: self.number(name),
            slot,
        };
        let slot_name = SlotName {
            shard: name.shard,
            page: name.page,
            slot,
        };
        let heap = self.heap.kept();
        heap.table
            .put_slot(&mut self.seated.seat, slot_name, slot_ref)
    }

    /// Stores the link of the slot that it put. `ring` says whether the put found the page armed.
    pub fn tie(&mut self, slot_ref: SlotRef, link: u64, ring: bool)
        requires { (own_body self.old).hand ≡ Tying slot_ref link ring }
        ensures does { OwnerDid L.layout action.Tie (move.Tie slot_ref link ring) 0 self.old self.new }
        ensures acts { OwnerActs (cond ring (Ringing slot_ref.page) Idle) [] 1 self.old self.new }
        ensures bells { SameBells L.layout self.old self.new }
        ensures pages { SamePages self.old self.new }
        ensures put { NonePut self.old self.new }
    {
        let heap = self.heap.kept();
        heap.table.tie(&mut self.seated.seat, slot_ref, link, ring);
    }
}
