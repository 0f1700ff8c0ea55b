//! What is written after the line of an event: why it was skipped, or that it found nothing to do.
ghost use Rattle.std.specs.Prelude.{◌≡◌, ◌&&◌, is_none};
ghost use Rattle.script_show.specs.Remarks.{is_finish, is_follow_bell, is_adopt, is_at, is_retired, has_failed};
ghost use Rattle.script_show.specs.Remarks.{text_if, why_skipped, met_text, remark_text};

use crate::touched::Touched;
use crate::view::View;
use sh_slots::SlotRef;
use sh_step::{ActionKind, Part};
use sh_word::State;

fn is_finish(kind: ActionKind) -> bool
    ensures { result ≡ is_finish kind }
{
    matches!(kind, ActionKind::Finish)
}

fn is_follow_bell(kind: ActionKind) -> bool
    ensures { result ≡ is_follow_bell kind }
{
    matches!(kind, ActionKind::FollowBell)
}

fn is_adopt(kind: ActionKind) -> bool
    ensures { result ≡ is_adopt kind }
{
    matches!(kind, ActionKind::Adopt)
}

// Whether a cursor is at this place.
fn is_at(place: u64, cursor: Option<u64>) -> bool
    ensures { result ≡ is_at place cursor }
{
    match cursor {
        Some(cursor) => cursor == place,
        None => false,
    }
}

// Whether the state word is that of a retired slot.
fn is_retired(word: u64) -> bool
    ensures { result ≡ is_retired word }
{
    let state = State::of(word);
    state.marked && !state.present
}

// Whether an end of a generation failed: the slot is not retired, and the pass neither owns it nor has it in hand.
fn has_failed(view: &View<'_>, part: &Part, slot_ref: SlotRef) -> bool
    ensures { result ≡ has_failed view.now part.now slot_ref }
{
    let is_retired = is_retired(view.state(slot_ref));
    part.is_idle() && (!part.has_mine(slot_ref) && !is_retired)
}

// Whether an end of a generation found another pass on the slot, or its generation ended.
fn met_another(view: &View<'_>, part: &Part, kind: ActionKind, slot_ref: SlotRef) -> bool
    ensures { result ≡ (is_finish kind && has_failed view.now part.now slot_ref) }
{
    is_finish(kind) && has_failed(view, part, slot_ref)
}

// Whether an adopt found an owner.
fn met_owner(part: &Part, kind: ActionKind) -> bool
    ensures { result ≡ (is_adopt kind && is_none part.now.owned) }
{
    is_adopt(kind) && part.owned().is_none()
}

// Whether a bell's cursor is still at the page, since the link of the page is not written.
fn met_open_link(part: &Part, kind: ActionKind, page: u64) -> bool
    ensures { result ≡ (is_follow_bell kind && is_at page part.now.bell_cursor) }
{
    is_follow_bell(kind) && is_at(page, part.bell_cursor())
}

// The text, if this holds.
fn text_if(holds: bool, text: &'static str) -> &'static str
    ensures { result.now ≡ text_if holds text.now }
{
    if holds { text } else { "" }
}

// The reason, if the event was skipped.
fn why_skipped(touched: Touched) -> &'static str
    ensures { result.now ≡ why_skipped touched }
{
    match touched {
        Touched::Nothing(reason) => reason.text(),
        _ => "",
    }
}

// The same, and of another event what it met, by what the pass has after it.
fn met(view: &View<'_>, part: &Part, kind: ActionKind, touched: Touched) -> &'static str
    ensures { result.now ≡ met_text view.now part.now kind touched }
{
    match touched {
        Touched::Nothing(reason) => reason.text(),
        Touched::Page(_) => "",
        Touched::Slot(slot_ref) => text_if(
            met_another(view, part, kind, slot_ref),
            "another is on the slot, or ended its generation",
        ),
        Touched::Link(page, slot) => {
            text_if(is_at(slot, part.cursor(page)), "the link is not written")
        }
        Touched::Shard(_) => text_if(met_owner(part, kind), "the shard has an owner"),
        Touched::PageAndBell(page) => {
            text_if(met_open_link(part, kind, page), "the link is not written")
        }
    }
}

/// What is written after the line of an event of this kind by the pass. It is the reason if the event was skipped. It
/// is what the event met if that was a link that is not written, another pass on the slot or an owner, so that nothing
/// changed. Otherwise it is empty.
pub fn remark(view: &View<'_>, pass: u32, kind: ActionKind, touched: Touched) -> &'static str
    ensures { result.now ≡ remark_text view.now pass kind touched }
{
    match view.parts.get(pass as usize) {
        Some(part) => met(view, part, kind, touched),
        None => why_skipped(touched),
    }
}
