//! The moves of actions on pages. A move is `None` if the action may not be done.
ghost use Rattle.std.specs.Prelude.{◌≡◌, ◌==◌, ◌&&◌, ◌||◌, not, nat_lt};
ghost use Rattle.sh_shape.specs.Classes.{class_count};
ghost use Rattle.sh_step.specs.Plans.{plan_of};
ghost use Rattle.sh_step.specs.Collections.{has};
ghost use Rattle.sh_step.specs.Rows.{idle, own, class_word_noted, no_cursor, all_mine};
ghost use Rattle.sh_step.specs.Moves.{move_of};

use crate::names::page_of_name;
use crate::operands::slots_of_word;
use crate::{Action, Move, PageName, Part};
use sh_bell::shard_of_page;
use sh_key::KeyLayout;
use sh_shape::{CLASS_COUNT, Shape};

/// Whether the page is of the shard that the pass owns.
#[tactic(auto, unfolding(crate::specs::Plans::shard_of))]
pub fn owns<L: KeyLayout>(shape: &Shape, part: &Part, page: u64) -> bool
    ensures { result ≡ own (plan_of L.layout shape.now) part.now page }
{
    let pages = u64::from(shape.pages());
    match part.owned() {
        Some(shard) => shard == shard_of_page(pages, page),
        None => false,
    }
}

/// Whether the pass has begun nothing and the page is its own.
pub fn may_touch<L: KeyLayout>(shape: &Shape, part: &Part, page: u64) -> bool
    ensures { result ≡ (idle part.now && own (plan_of L.layout shape.now) part.now page) }
{
    part.is_idle() && owns::<L>(shape, part, page)
}

// Whether it may take the page's stack.
fn may_take<L: KeyLayout>(shape: &Shape, part: &Part, page: u64) -> bool
    ensures { result ≡ (idle part.now && own (plan_of L.layout shape.now) part.now page && nat_lt 0
        (class_word_noted part.now page) && no_cursor part.now page) }
{
    may_touch::<L>(shape, part, page) && part.class_word(page) > 0 && part.has_no_cursor(page)
}

// Whether it may arm the page.
fn may_arm<L: KeyLayout>(shape: &Shape, part: &Part, page: u64) -> bool
    ensures { result ≡ (idle part.now && own (plan_of L.layout shape.now) part.now page && nat_lt 0
        (class_word_noted part.now page) && no_cursor part.now page && not (has (λ x. x == page) part.now.armed)) }
{
    may_take::<L>(shape, part, page) && !part.has_armed(page)
}

// Whether each slot of a page with this class word is its own.
fn has_whole_page(part: &Part, page: u64, class_word: u64) -> bool
    ensures { result ≡ all_mine part.now page class_word }
{
    part.has_all_mine(page, slots_of_word(class_word))
}

// Whether it may give the page, which has this class word, a class.
fn may_set_class<L: KeyLayout>(
    shape: &Shape,
    part: &Part,
    page: u64,
    class_word: u64,
    class: u64,
) -> bool
    ensures { result ≡ (idle part.now && own (plan_of L.layout shape.now) part.now page &&
        ((class_word == 0) || all_mine part.now page class_word) && nat_lt class class_count) }
{
    may_touch::<L>(shape, part, page)
        && (class_word == 0 || has_whole_page(part, page, class_word))
        && class < CLASS_COUNT
}

/// The move that reads a page's class.
#[tactic(auto, unfolding(crate::specs::Moves::move_of))]
pub fn read_page<L: KeyLayout>(shape: &Shape, part: &Part, name: PageName) -> Option<Move>
    ensures { result ≡ move_of (plan_of L.layout shape.now) part.now (Action.ReadPage name) }
{
    match page_of_name::<L>(shape, name) {
        Some(page) => may_touch::<L>(shape, part, page).then_some(Move::ReadPage(page)),
        None => None,
    }
}

/// The move that takes a page's stack.
#[tactic(auto, unfolding(crate::specs::Moves::move_of))]
pub fn take<L: KeyLayout>(shape: &Shape, part: &Part, name: PageName) -> Option<Move>
    ensures { result ≡ move_of (plan_of L.layout shape.now) part.now (Action.Take name) }
{
    match page_of_name::<L>(shape, name) {
        Some(page) => may_take::<L>(shape, part, page).then_some(Move::Take(page)),
        None => None,
    }
}

/// The move that arms a page.
#[tactic(auto, unfolding(crate::specs::Moves::move_of))]
pub fn arm<L: KeyLayout>(shape: &Shape, part: &Part, name: PageName) -> Option<Move>
    ensures { result ≡ move_of (plan_of L.layout shape.now) part.now (Action.Arm name) }
{
    match page_of_name::<L>(shape, name) {
        Some(page) => may_arm::<L>(shape, part, page).then_some(Move::Arm(page)),
        None => None,
    }
}

/// The move that gives a page a class.
#[tactic(auto, unfolding(crate::specs::Moves::move_of))]
pub fn set_class<L: KeyLayout>(
    shape: &Shape,
    part: &Part,
    name: PageName,
    class: u64,
) -> Option<Move>
    ensures { result ≡ move_of (plan_of L.layout shape.now) part.now (Action.SetClass name class) }
{
    let Some(page) = page_of_name::<L>(shape, name) else {
        return None;
    };
    let Some(word) = part.class_noted(page) else {
        return None;
    };
    if !may_set_class::<L>(shape, part, page, word, class) {
        return None;
    }
    Some(Move::SetClass(page, class as u32))
}

/// The move that follows a page's cursor.
#[tactic(auto, unfolding(crate::specs::Moves::move_of))]
pub fn follow<L: KeyLayout>(shape: &Shape, part: &Part, name: PageName) -> Option<Move>
    ensures { result ≡ move_of (plan_of L.layout shape.now) part.now (Action.Follow name) }
{
    let Some(page) = page_of_name::<L>(shape, name) else {
        return None;
    };
    match part.cursor(page) {
        Some(slot) => may_touch::<L>(shape, part, page).then_some(Move::Follow(page, slot)),
        None => None,
    }
}
