//! The accounts of a page.
ghost use Rattle.std.specs.Prelude.{◌≡◌, ◌+◌, ◌<◌, ◌≤◌, Some, None, IfSome, MatchOption, get_or};
ghost use Rattle.sh_shape.specs.Places.{page_number, slot_places};
ghost use Rattle.sh_shape.specs.Classes.{slots, class_count};
ghost use Rattle.sh_core.specs.Kept.{FromEvents};
ghost use Rattle.sh_core.specs.Lists.{class_named};
ghost use Rattle.sh_accounts.specs.Kinds.{with_one};
ghost use Rattle.sh_accounts.specs.Accounts.{ShapeHasPage, AreAccounts, FillPage, all_slots, no_slots, class_word};
ghost use Rattle.sh_accounts.specs.Accounts.{kind_in, counted};

use crate::kinds::{SlotKind, slot_kind};
use sh_core::{Accounts, World, refines_map};
use sh_key::KeyLayout;
use sh_shape::{CLASS_COUNT, slots};
use sh_slots::SlotRef;

// The class that a class word names.
fn class_of(word: u64) -> Option<u32>
    ensures is { word ≤ class_count → result ≡ class_named word }
    ensures known { IfSome result (λ class. class < class_count) }
{
    match word {
        1..=CLASS_COUNT => Some(word as u32 - 1),
        _ => None,
    }
}

// The class of a page, if it has one.
fn class_at<L: KeyLayout>(world: &World<L>, shard: u32, page: u32) -> Option<u32>
    requires { ShapeHasPage world.now.shape shard page }
    ensures is { result ≡ class_named (class_word world.now (page_number world.now.shape shard page)) }
    ensures known { IfSome result (λ class. class < class_count) }
{
    refines_map();
    let number = world.shape().class_at(shard, page);
    class_of(world.words()[number])
}

// The accounts of a page of this class, of which no slot is counted yet.
fn no_slots(class: Option<u32>) -> Accounts
    ensures { result ≡ no_slots class }
{
    Accounts {
        class,
        live: 0,
        marked: 0,
        retired: 0,
        mine: 0,
        hand: 0,
        queued: 0,
    }
}

// Counts one slot more.
fn count_one(accounts: &mut Accounts, kind: SlotKind)
    requires { all_slots accounts.old < slot_places }
    ensures is { accounts.new ≡ with_one accounts.old kind }
    ensures one { all_slots accounts.new ≡ all_slots accounts.old + 1 }
{
    match kind {
        SlotKind::Live => accounts.live += 1,
        SlotKind::Marked => accounts.marked += 1,
        SlotKind::Retired => accounts.retired += 1,
        SlotKind::Mine => accounts.mine += 1,
        SlotKind::Hand => accounts.hand += 1,
        SlotKind::Queued => accounts.queued += 1,
    }
}

// What a slot of a page's class is.
fn kind_at<L: KeyLayout>(world: &World<L>, shard: u32, page: u32, slot: u32) -> SlotKind
    requires page { ShapeHasPage world.now.shape shard page }
    requires slot { slot < slot_places }
    ensures { result ≡ kind_in world.now (record { page = page_number world.now.shape shard page; slot = slot }) }
{
    let shape = world.shape();
    let word = world.words()[shape.state_at(shard, page, slot)];
    let slot_ref = SlotRef {
        page: u64::from(shape.page_number(shard, page)),
        slot: u64::from(slot),
    };
    slot_kind(word, world.parts(), slot_ref)
}

// The slots of a page of this class, each counted by what it is.
#[tactic(auto, using(crate::proofs::Counts::counted_none, crate::proofs::Counts::counted_more))]
fn count_slots<L: KeyLayout>(world: &World<L>, shard: u32, page: u32, class: u32) -> Accounts
    requires page { ShapeHasPage world.now.shape shard page }
    requires class { class < class_count }
    ensures is { result ≡ counted world.now (page_number world.now.shape shard page) class (slots class) }
    ensures fill { all_slots result ≡ slots class }
{
    let mut accounts = no_slots(Some(class));
    for slot in 0..slots(class) {
        count_one(&mut accounts, kind_at(world, shard, page, slot));
    }
    accounts
}

/// The accounts of a shard's page: its class, and how many of the slots of the class are of each kind. `None` if the
/// heap has no such page.
///
/// They hold after every list of events that leads to this world, and some list does.
pub fn page<L: KeyLayout>(world: &World<L>, shard: u32, page: u32) -> Option<Accounts>
    ensures reached { FromEvents L.layout world.now }
    ensures there { MatchOption result (¬ ShapeHasPage world.now.shape shard page)
        (λ accounts. ShapeHasPage world.now.shape shard page) }
    ensures are { IfSome result (AreAccounts L.layout world.now (page_number world.now.shape shard page)) }
    ensures fill { IfSome result FillPage }
{
    refines_map();
    let shape = world.shape();
    if shard >= shape.shards() || page >= shape.pages() {
        return None;
    }
    match class_at(world, shard, page) {
        Some(class) => Some(count_slots(world, shard, page, class)),
        None => Some(no_slots(None)),
    }
}
