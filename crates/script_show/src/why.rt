//! Which condition of an event does not hold. Each function looks at the conditions of some events, in the order in
//! which a reader would, and returns the first that does not hold.
ghost use Rattle.std.specs.Prelude.{◌≤◌};
ghost use Rattle.sh_shape.specs.Places.{slot_places};

use crate::class_named::class_named;
use crate::reason::Reason;
use sh_key::KeyLayout;
use sh_shape::{CLASS_COUNT, Shape, slots, width};
use sh_slots::{Hand, SlotRef};
use sh_step::names::{page_of_name, place_of_key, slot_of_name};
use sh_step::{Action, PageName, Part, SlotName};
use sh_value::Value;

// Returns this reason as an error, unless the condition holds.
fn unless(holds: bool, reason: Reason) -> Result<(), Reason> {
    if holds { Ok(()) } else { Err(reason) }
}

// The number of slots that a page under a class word has, and their width; both are 0 if the page is blank.
fn slots_under(class_word: u64) -> (u64, u64)
    ensures { result.0 ≤ slot_places }
{
    match class_named(class_word) {
        Some(class) => (u64::from(slots(class)), u64::from(width(class))),
        None => (0, 0),
    }
}

fn key_named<L: KeyLayout>(shape: &Shape, key: u64) -> Result<(), Reason> {
    unless(place_of_key::<L>(shape, key).is_some(), Reason::NoKey)
}

// Why an event of a hold is not possible.
fn why_no_use<L: KeyLayout>(shape: &Shape, part: &Part, key: u64) -> Result<(), Reason> {
    key_named::<L>(shape, key)?;
    unless(part.is_idle(), Reason::Busy)?;
    unless(part.has_hold(key), Reason::NotHeld)
}

fn why_no_get<L: KeyLayout>(shape: &Shape, part: &Part, key: u64) -> Result<(), Reason> {
    key_named::<L>(shape, key)?;
    unless(part.is_idle(), Reason::Busy)?;
    unless(part.may_get(), Reason::HoldsFull)
}

// Why a remove or a look does not begin.
fn why_no_begin<L: KeyLayout>(shape: &Shape, part: &Part, key: u64) -> Result<(), Reason> {
    key_named::<L>(shape, key)?;
    unless(part.is_idle(), Reason::Busy)
}

fn why_no_word<L: KeyLayout>(
    shape: &Shape,
    part: &Part,
    key: u64,
    number: u64,
) -> Result<(), Reason> {
    why_no_use::<L>(shape, part, key)?;
    unless(part.class_word_of(key).is_some(), Reason::ClassUnread)?;
    let length = part.length_of(key).ok_or(Reason::LengthUnread)?;
    unless(number < length, Reason::PastEnd)
}

// The page of this name, if the pass owns its shard and has begun nothing.
fn page_touched<L: KeyLayout>(shape: &Shape, part: &Part, name: PageName) -> Result<u64, Reason> {
    let page = page_of_name::<L>(shape, name).ok_or(Reason::NoPage)?;
    unless(part.is_idle(), Reason::Busy)?;
    unless(part.owned() == Some(name.shard), Reason::NotOwner)?;
    Ok(page)
}

// The same for a slot, which has to be the pass's own.
fn slot_touched<L: KeyLayout>(
    shape: &Shape,
    part: &Part,
    name: SlotName,
) -> Result<SlotRef, Reason> {
    let slot_ref = slot_of_name::<L>(shape, name).ok_or(Reason::NoSlot)?;
    unless(part.is_idle(), Reason::Busy)?;
    unless(part.owned() == Some(name.shard), Reason::NotOwner)?;
    unless(part.has_mine(slot_ref), Reason::NotOwn)?;
    Ok(slot_ref)
}

// The class word that the pass noted of the page, which is not blank.
fn class_noted(part: &Part, page: u64) -> Result<u64, Reason> {
    let class_word = part.class_noted(page).ok_or(Reason::ClassNotNoted)?;
    unless(class_word > 0, Reason::Blank)?;
    Ok(class_word)
}

fn why_no_peek<L: KeyLayout>(shape: &Shape, part: &Part, name: SlotName) -> Result<(), Reason> {
    unless(slot_of_name::<L>(shape, name).is_some(), Reason::NoSlot)?;
    unless(part.is_idle(), Reason::Busy)
}

fn why_no_fill_of<L: KeyLayout>(
    shape: &Shape,
    part: &Part,
    name: SlotName,
    value: &Value,
) -> Result<(), Reason> {
    let slot_ref = slot_touched::<L>(shape, part, name)?;
    let class_word = class_noted(part, slot_ref.page)?;
    let (_, width) = slots_under(class_word);
    unless(value.words().len() as u64 <= width, Reason::TooLong)
}

fn why_no_class<L: KeyLayout>(
    shape: &Shape,
    part: &Part,
    name: PageName,
    class: u64,
) -> Result<(), Reason> {
    let page = page_touched::<L>(shape, part, name)?;
    let class_word = part.class_noted(page).ok_or(Reason::ClassNotNoted)?;
    let (slots, _) = slots_under(class_word);
    let all_own = class_word == 0 || part.has_all_mine(page, slots);
    unless(all_own, Reason::NotAllOwn)?;
    unless(class < CLASS_COUNT, Reason::NoClass)
}

fn why_no_take<L: KeyLayout>(shape: &Shape, part: &Part, name: PageName) -> Result<(), Reason> {
    let page = page_touched::<L>(shape, part, name)?;
    class_noted(part, page)?;
    unless(part.has_no_cursor(page), Reason::CursorLeft)
}

fn why_no_arm<L: KeyLayout>(shape: &Shape, part: &Part, name: PageName) -> Result<(), Reason> {
    let page = page_touched::<L>(shape, part, name)?;
    class_noted(part, page)?;
    unless(part.has_no_cursor(page), Reason::CursorLeft)?;
    unless(!part.has_armed(page), Reason::Armed)
}

fn why_no_follow<L: KeyLayout>(shape: &Shape, part: &Part, name: PageName) -> Result<(), Reason> {
    let page = page_touched::<L>(shape, part, name)?;
    unless(part.cursor(page).is_some(), Reason::NoCursor)
}

fn why_no_adopt(shape: &Shape, part: &Part, shard: u64) -> Result<(), Reason> {
    unless(part.is_idle(), Reason::Busy)?;
    unless(part.owned().is_none(), Reason::OwnsOne)?;
    unless(shard < u64::from(shape.shards()), Reason::NoShard)
}

// Refuses if the pass has a cursor on a page of the shard, or has a page of it armed.
fn why_pages_stay(shape: &Shape, part: &Part, shard: u64) -> Result<(), Reason> {
    let pages = u64::from(shape.pages());
    for local in 0..pages {
        let page = shard.saturating_mul(pages).saturating_add(local);
        unless(part.has_no_cursor(page), Reason::CursorLeft)?;
        unless(!part.has_armed(page), Reason::ArmedLeft)?;
    }
    Ok(())
}

fn why_no_leave(shape: &Shape, part: &Part) -> Result<(), Reason> {
    let shard = part.owned().ok_or(Reason::OwnsNone)?;
    unless(part.is_idle(), Reason::Busy)?;
    unless(part.bell_cursor().is_none(), Reason::BellCursorLeft)?;
    why_pages_stay(shape, part, shard)?;
    unless(part.has_nothing_of_shard(), Reason::SlotsLeft)
}

fn why_no_take_bell(part: &Part) -> Result<(), Reason> {
    unless(part.owned().is_some(), Reason::OwnsNone)?;
    unless(part.is_idle(), Reason::Busy)?;
    unless(part.bell_cursor().is_none(), Reason::BellCursorLeft)
}

fn why_no_follow_bell(part: &Part) -> Result<(), Reason> {
    unless(part.owned().is_some(), Reason::OwnsNone)?;
    unless(part.is_idle(), Reason::Busy)?;
    unless(part.bell_cursor().is_some(), Reason::NoBellCursor)
}

// Why the next step of a filling is not possible.
fn why_no_filling(part: &Part, otherwise: Reason) -> Result<(), Reason> {
    match part.hand() {
        Hand::Filling(_, _, _) => Err(otherwise),
        _ => Err(Reason::NothingBegun),
    }
}

fn why_not<L: KeyLayout>(shape: &Shape, part: &Part, action: &Action) -> Result<(), Reason> {
    match action {
        Action::EnterGet(key) => why_no_get::<L>(shape, part, *key),
        Action::EnterRemove(key) | Action::Look(key) => why_no_begin::<L>(shape, part, *key),
        Action::DropHold(key) | Action::ReadClass(key) | Action::ReadLength(key) => {
            why_no_use::<L>(shape, part, *key)
        }
        Action::ReadWord(key, number) => why_no_word::<L>(shape, part, *key, *number),
        Action::Peek(name) => why_no_peek::<L>(shape, part, *name),
        Action::FillSlot(name, value) => why_no_fill_of::<L>(shape, part, *name, value),
        Action::PutSlot(name) => slot_touched::<L>(shape, part, *name).map(|_| ()),
        Action::ReadPage(name) => page_touched::<L>(shape, part, *name).map(|_| ()),
        Action::SetClass(name, class) => why_no_class::<L>(shape, part, *name, *class),
        Action::Take(name) => why_no_take::<L>(shape, part, *name),
        Action::Arm(name) => why_no_arm::<L>(shape, part, *name),
        Action::Follow(name) => why_no_follow::<L>(shape, part, *name),
        Action::Adopt(shard) => why_no_adopt(shape, part, *shard),
        Action::Leave => why_no_leave(shape, part),
        Action::TakeBell => why_no_take_bell(part),
        Action::FollowBell => why_no_follow_bell(part),
        Action::Fill => why_no_filling(part, Reason::NoWordLeft),
        Action::Publish => why_no_filling(part, Reason::WordsLeft),
        Action::Mark
        | Action::Drop
        | Action::ReadEnding
        | Action::Finish
        | Action::Put
        | Action::Tie
        | Action::Ring
        | Action::RingTie
        | Action::LookOn
        | Action::LookAgain => Err(Reason::NothingBegun),
    }
}

/// The reason why an action that may not be done is skipped.
pub fn reason<L: KeyLayout>(shape: &Shape, part: &Part, action: &Action) -> Reason {
    match why_not::<L>(shape, part, action) {
        Ok(()) => Reason::NothingBegun,
        Err(reason) => reason,
    }
}
