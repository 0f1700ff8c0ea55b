//! The live keys of a whole heap, one after the other.
ghost use Rattle.std.specs.Prelude.{◌≡◌};
ghost use Rattle.sh_gather.specs.Gathering.{NotedMore};
ghost use Rattle.sh_gather.specs.NextKeys.{IsNextKey};

use crate::accounts_by_page::page_count;
use crate::view::WholeOn;
use sh_key::KeyLayout;
use sh_pass::{KeepsHeap, NextKey};
use sh_shape::SLOT_PLACES;

/// The first live key from a place on: a heap has 48 places for each page, in the order of its pages. `None` if no key
/// from there on is live. So a loop that begins at place 0, and continues after each key, gets each live key once, in
/// the order of their places.
///
/// ```text
/// let mut place = 0;
/// while let Some(next) = next_key(&mut whole, place) {
///     place = next.behind;
/// }
/// ```
pub fn next_key<L: KeyLayout, H: KeepsHeap<L>>(
    whole: &mut WholeOn<L, H>,
    from: u64,
) -> Option<NextKey>
    ensures heap { whole.new.heap ≡ whole.old.heap }
    ensures tale { NotedMore whole.old.view whole.new.view }
    ensures next { IsNextKey L.layout whole.new from result }
{
    let end = u64::from(page_count(whole.shape())) * u64::from(SLOT_PLACES);
    for place in from..end {
        if let Some(key) = whole.key_at(place) {
            return Some(NextKey {
                key,
                behind: place + 1,
            });
        }
    }
    None
}
