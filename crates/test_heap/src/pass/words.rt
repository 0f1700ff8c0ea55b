//! The words of the running heap, as they were worked out by hand. They are of a page from which another pass removes a
//! value in eight steps, and of a slot whose last generation is over. An owner's steps return the words that they find;
//! and once all passes met, each word can be loaded.
ghost use Rattle.std.specs.Prelude.{◌≡◌, ◌<◌, None, Some, true, false, cond};
ghost use Rattle.sh_bell.specs.Bell.{is_armed, top_of};
ghost use Rattle.sh_stack.specs.Stack.{top_item, link_item};
ghost use Rattle.sh_pass.specs.Owners.{MayTouch, own_body};
ghost use Rattle.test_heap.specs.Pages.{IsAt, page_at};

use super::*;
use sh_pass::Owner;
use sh_shape::Place;
use sh_shard::Shard;
use sh_step::PageName;
use sh_value::Value;

// The sixteen words 1 to 16, of which a page has three.
fn sixteen(rt: &impl Abort) -> Value {
    let words = [1, 2, 3, 4, 5, 6, 7, 8, 9, 10, 11, 12, 13, 14, 15, 16];
    Value::new(&words).expect(rt, "sixteen words fit")
}

// The owner of shard 0.
fn owner_of<'a>(rt: &impl Abort, pass: Pass<'a, Tiny>, page: PageName) -> Owner<'a, Tiny>
    requires { page.shard ≡ 0 }
    ensures touch { MayTouch result page }
    ensures bell { (own_body result).bell_cursor ≡ None }
    ensures cursor { (page_at result page).cursor ≡ None }
    ensures armed { (page_at result page).armed ≡ false }
{
    let mut owner = Owner::of(pass);
    if owner.shards() == 0 || owner.pages() <= page.page {
        panic!(rt; "no such page")
    }
    if owner.adopt(0) != 0 {
        panic!(rt; "another owner")
    }
    owner
}

// Gives the blank page class 7, and stores three values there, under the keys 4096 to 4098.
fn fill(rt: &impl Abort, owner: &mut Owner<'_, Tiny>, page: PageName)
    requires touch { MayTouch owner.old page }
    requires bell { (own_body owner.old).bell_cursor ≡ None }
    requires cursor { (page_at owner.old page).cursor ≡ None }
    requires armed { (page_at owner.old page).armed ≡ false }
    ensures { IsAt owner.new page None false false }
{
    if owner.read_page(page) != 0 {
        panic!(rt; "the page has a class")
    }
    owner.set_class(page, 7);
    let value = sixteen(rt);
    agree(rt, owner.insert_at(page, 0, &value, 8), 4_096);
    agree(rt, owner.insert_at(page, 1, &value, 8), 4_097);
    agree(rt, owner.insert_at(page, 2, &value, 8), 4_098);
}

// Each of these does one step of the owner, and checks the word that the step finds.

fn arm(rt: &impl Abort, owner: &mut Owner<'_, Tiny>, page: PageName, word: u64)
    requires { IsAt owner.old page None false false }
    ensures { IsAt owner.new page (top_item (top_of word)) true false }
{
    if owner.arm(page) != word {
        panic!(rt; "another head")
    }
}

fn take(rt: &impl Abort, owner: &mut Owner<'_, Tiny>, page: PageName, armed: bool, word: u64)
    requires { IsAt owner.old page None armed false }
    ensures { IsAt owner.new page (top_item (top_of word)) (cond (is_armed word) false armed) false }
{
    if owner.take(page) != word {
        panic!(rt; "another head")
    }
}

fn follow(rt: &impl Abort, owner: &mut Owner<'_, Tiny>, page: PageName, slot: u64, word: u64)
    requires at { IsAt owner.old page (Some slot) false false }
    requires written { 0 < word }
    ensures { IsAt owner.new page (link_item word) false false }
{
    if owner.follow(page, slot) != word {
        panic!(rt; "another link")
    }
}

// The bell names page 0.
fn take_bell(rt: &impl Abort, owner: &mut Owner<'_, Tiny>, page: PageName)
    requires at { IsAt owner.old page None true false }
    requires shard { page.shard ≡ 0 }
    requires page { page.page ≡ 0 }
    ensures { IsAt owner.new page None true true }
{
    if owner.take_bell(0) != 1 {
        panic!(rt; "another bell")
    }
}

// The bell names no other page.
fn follow_bell(rt: &impl Abort, owner: &mut Owner<'_, Tiny>, page: PageName)
    requires { IsAt owner.old page None true true }
    ensures { IsAt owner.new page None false false }
{
    if owner.follow_bell(page) != 1 {
        panic!(rt; "another page link")
    }
}

// Another pass removes key 4097 in eight steps.
fn remove_by_hand(rt: &impl Abort, pass: Pass<'_, Tiny>) {
    let mut busy = pass.begin();
    let actions = [
        Action::EnterRemove(4_097),
        Action::Mark,
        Action::Drop,
        Action::Finish,
        Action::Put,
        Action::Tie,
        Action::Ring,
        Action::RingTie,
    ];
    act_each(rt, &mut busy, &actions);
    agree(rt, busy.act(&Action::RingTie), false);
}

// Fills the page, and leaves it armed and without a slot.
fn fill_and_arm(rt: &impl Abort, owner: &mut Owner<'_, Tiny>, page: PageName)
    requires touch { MayTouch owner.old page }
    requires bell { (own_body owner.old).bell_cursor ≡ None }
    requires cursor { (page_at owner.old page).cursor ≡ None }
    requires armed { (page_at owner.old page).armed ≡ false }
    ensures { IsAt owner.new page None true false }
{
    fill(rt, owner, page);
    arm(rt, owner, page, 0);
    take(rt, owner, page, true, 1);
    arm(rt, owner, page, 0);
}

// Finds page 0 by its bell, and there slot 1.
fn find_slot_1(rt: &impl Abort, owner: &mut Owner<'_, Tiny>, page: PageName)
    requires at { IsAt owner.old page None true false }
    requires shard { page.shard ≡ 0 }
    requires page { page.page ≡ 0 }
{
    take_bell(rt, owner, page);
    follow_bell(rt, owner, page);
    take(rt, owner, page, false, 4);
    follow(rt, owner, page, 1, 1);
}

// The head of an armed page is 1. If another pass removes the value in slot 1 of page 0, the head becomes 4, the slot's
// link 1, the bell 1 and the page's link 1.
#[test]
fn another_removes_from_an_armed_page(rt: HostRuntime) {
    let (heap, seats) = opened::<Tiny>(&rt, rt.alloc(), 2);
    let (one, other) = two_passes(&rt, rt.alloc(), &heap, seats);
    let page = PageName { shard: 0, page: 0 };
    let mut owner = owner_of(&rt, one, page);
    fill_and_arm(&rt, &mut owner, page);
    remove_by_hand(&rt, other);
    find_slot_1(&rt, &mut owner, page);
}

// The state word of slot 0 of page 0, in a heap that this pass knows whole.
fn first_state(rt: &impl Abort, pass: &mut Pass<'_, Tiny>) -> u64 {
    let shape = pass.shape();
    if shape.shards() != 1 || shape.segments() != 1 {
        panic!(rt; "another shape")
    }
    if !pass.is_whole() {
        panic!(rt; "passes that have not met")
    }
    pass.load(Place::State(0, 0))
}

// The owner of shard 0.
fn adopted<'a>(rt: &impl Abort, alloc: Global, pass: Pass<'a, Tiny>) -> Shard<'a, Tiny> {
    let Ok(shard) = Shard::adopt(alloc, pass, 0) else {
        panic!(rt; "no shard")
    };
    shard
}

// Its pass, once it left.
fn left<'a>(rt: &impl Abort, shard: Shard<'a, Tiny>) -> Pass<'a, Tiny> {
    let Ok(pass) = shard.leave() else {
        panic!(rt; "it waits")
    };
    pass
}

// Fills slot 0, beside two others, once in each generation, and removes what is there.
fn wear_out(rt: &impl Abort, shard: &mut Shard<'_, Tiny>) {
    for key in [4_096, 4_097, 4_098] {
        agree(rt, shard.insert(&sixteen(rt)), Ok(key));
    }
    agree(rt, shard.remove(4_096), Ok(()));
    agree(rt, shard.insert(&sixteen(rt)), Ok(8_192));
    agree(rt, shard.remove(8_192), Ok(()));
    agree(rt, shard.insert(&sixteen(rt)), Ok(12_288));
    agree(rt, shard.remove(12_288), Ok(()));
}

// A slot is retired in generation 3.
#[test]
fn a_slot_is_removed_in_its_last_generation(rt: HostRuntime) {
    let (heap, seats) = opened::<Tiny>(&rt, rt.alloc(), 1);
    let pass = one_pass(&rt, rt.alloc(), &heap, seats);
    let mut shard = adopted(&rt, rt.alloc(), pass);
    wear_out(&rt, &mut shard);
    let mut pass = left(&rt, shard);
    agree(&rt, first_state(&rt, &mut pass), 15_032_385_536);
}
