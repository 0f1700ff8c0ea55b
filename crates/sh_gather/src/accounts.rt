// The accounts of a page of a heap of which all passes met, from the words of the page, which no longer change.
ghost use Rattle.std.specs.Prelude.{◌≡◌, ℕ, ◌+◌, ◌<◌, ◌≤◌, List, length, IfSome, MatchOption};
ghost use Rattle.sh_word.specs.Fields.{fields_of};
ghost use Rattle.sh_shape.specs.Classes.{class_count};
ghost use Rattle.sh_shape.specs.Places.{all_pages, page_number, slot_places};
ghost use Rattle.sh_core.specs.Lists.{class_named, slots_under};
ghost use Rattle.sh_table.specs.Tales.{ViewIsValid};
ghost use Rattle.sh_table.specs.Whole.{IsWhole, Known};
ghost use Rattle.sh_pass.specs.Passes.{IsAtRest};
ghost use Rattle.sh_accounts.specs.Accounts.{ShapeHasPage, no_slots};
ghost use Rattle.sh_gather.specs.Histories.{Sure};
ghost use Rattle.sh_gather.specs.Walks.{IsWholeStack};
ghost use Rattle.sh_gather.specs.Gathering.{IsGathered, NotedMore, AreWholeAccounts};
ghost use Rattle.sh_gather.specs.Gathering.{CountedTo, StatesAlone, states_counted, with_state};

use crate::laws::core_refines;
use sh_core::Accounts;
use sh_key::KeyLayout;
use sh_pass::KeepsHeap;
use sh_pass::pass::PassOn;
use sh_shape::{CLASS_COUNT, Place, SLOT_PLACES, slots};
use sh_word::{Kind, State};

// The accounts of a page of this class, of which no slot is counted yet.
fn no_slots(class: Option<u32>) -> Accounts
    ensures { result ≡ no_slots class }
{
    Accounts {
        class,
        live: 0,
        marked: 0,
        retired: 0,
        mine: 0,
        hand: 0,
        queued: 0,
    }
}

// The class that a class word names, and how many slots a page of it has.
fn class_of(word: u64) -> (Option<u32>, u32)
    ensures class { word ≤ class_count → result.0 ≡ class_named word }
    ensures count { word ≤ class_count → result.1 ≡ slots_under word }
    ensures few { result.1 ≤ slot_places }
{
    match word {
        1..=CLASS_COUNT => (Some(word as u32 - 1), slots(word as u32 - 1)),
        _ => (None, 0),
    }
}

// Counts one slot more, by its state word.
fn count_one(accounts: &mut Accounts, word: u64)
    requires { states_counted accounts.old < slot_places }
    ensures is { accounts.new ≡ with_state accounts.old (fields_of word) }
    ensures one { states_counted accounts.new ≤ states_counted accounts.old + 1 }
{
    match State::of(word).kind() {
        Kind::Live => accounts.live += 1,
        Kind::Marked => accounts.marked += 1,
        Kind::Retired => accounts.retired += 1,
        Kind::Empty => {}
    }
}

// Counts the first `count` slots of a page, each by its state word.
fn count_states<L: KeyLayout, H: KeepsHeap<L>>(
    pass: &mut PassOn<L, H>,
    page: u64,
    class: Option<u32>,
    count: u32,
) -> Accounts
    requires page { page < all_pages pass.old.heap.shape }
    requires count { count ≤ slot_places }
    requires known { Known L.layout pass.old.view }
    requires gathered { IsGathered pass.old.view }
    ensures heap { pass.new.heap ≡ pass.old.heap }
    ensures gathered { IsGathered pass.new.view }
    ensures known { Known L.layout pass.new.view }
    ensures later { NotedMore pass.old.view pass.new.view }
    ensures looks { length pass.new.view.noted ≡ length pass.old.view.noted + count }
    ensures counted { Sure L.layout pass.new.view (λ w l. CountedTo page count result w) }
    ensures alone { StatesAlone class result }
{
    let mut accounts = no_slots(class);
    for slot in 0..count {
        let word = pass.load(Place::State(page, u64::from(slot)));
        count_one(&mut accounts, word);
    }
    accounts
}

// Walks the stack of a page, from its head word to the end, and counts its slots. Each slot of a page is on the stack
// at most once, so there are at most as many links to follow as the page has places.
fn walk<L: KeyLayout, H: KeepsHeap<L>>(pass: &mut PassOn<L, H>, page: u64) -> u32
    requires page { page < all_pages pass.old.heap.shape }
    requires gathered { IsGathered pass.old.view }
    ensures heap { pass.new.heap ≡ pass.old.heap }
    ensures gathered { IsGathered pass.new.view }
    ensures known { Known L.layout pass.new.view }
    ensures later { NotedMore pass.old.view pass.new.view }
    ensures looks { length pass.new.view.noted ≤ length pass.old.view.noted + 49 }
    ensures queued { Sure L.layout pass.new.view (λ w l. result ≡ length (l.stack page)) }
    ensures walked { (slots : List ℕ) × IsWholeStack pass.new.view page slots × (result ≡ length slots) }
{
    core_refines();
    let mut top = pass.load(Place::Head(page)) / 2;
    for queued in 0..SLOT_PLACES {
        if top == 0 {
            return queued;
        }
        top = pass.load(Place::Link(page, top - 1)) - 1;
    }
    SLOT_PLACES
}

// The accounts of a shard's page. `None` if the heap has no such page.
pub(crate) fn accounts<L: KeyLayout, H: KeepsHeap<L>>(
    pass: &mut PassOn<L, H>,
    shard: u32,
    page: u32,
) -> Option<Accounts>
    requires { IsWhole pass.old.view }
    ensures rest { IsAtRest pass.old }
    ensures stands { ViewIsValid L.layout pass.old.view }
    ensures heap { pass.new.heap ≡ pass.old.heap }
    ensures tale { NotedMore pass.old.view pass.new.view }
    ensures looks { length pass.new.view.noted ≤ length pass.old.view.noted + 98 }
    ensures there { MatchOption result
        (¬ ShapeHasPage pass.old.heap.shape shard page)
        (λ accounts. ShapeHasPage pass.old.heap.shape shard page) }
    ensures are { IfSome result (AreWholeAccounts L.layout pass.new.view (page_number pass.old.heap.shape shard page)) }
{
    core_refines();
    let shape = pass.shape();
    if shard >= shape.shards() || page >= shape.pages() {
        return None;
    }
    let number = u64::from(shape.page_number(shard, page));
    let (class, count) = class_of(pass.load(Place::Class(number)));
    let mut accounts = count_states(pass, number, class, count);
    accounts.queued = walk(pass, number);
    Some(accounts)
}
