//! What actions on pages leave in a pass's own part.
ghost use Rattle.std.specs.Prelude.{◌≡◌, ◌<◌, ℕ, None, length, IfOk, IfErr, OnOk, OnErr};
ghost use Rattle.sh_bell.specs.Bell.{top_of};
ghost use Rattle.sh_step.specs.Parts.{ListGrows};
ghost use Rattle.sh_step.specs.Rows.{read_page, set_class, take_page, follow, arm, point};

use super::Part;
use crate::operands::slots_of_word;
use crate::part::lists::{make_room, put_first, put_in_room, remove_note, remove_number};
use sh_bell::{is_armed, top_of};
use sh_slots::{Reply, SlotRef};
use sh_stack::{Link, top_item};
use sh_value::Refusal;
use std::collections::VecDeque;

// Notes the slot that a page's head word names, if it names one, as the one to follow next.
fn point_to_top(cursors: &mut VecDeque<(u64, u64)>, page: u64, head: u64) -> Result<(), Refusal>
    ensures ok { OnOk result (cursors.new.items ≡ point 1 page (top_of head) cursors.old.items) }
    ensures err { OnErr result (cursors.new.items ≡ cursors.old.items) }
    ensures grows { OnErr result (length cursors.old.items < length (point 1 page (top_of head) cursors.old.items)) }
    ensures memory { IfErr result (λ refusal. refusal ≡ Refusal.Memory) }
{
    match top_item(top_of(head)) {
        Some(slot) => put_first(cursors, (page, slot)),
        None => Ok(()),
    }
}

impl Part {
    // Notes a page's class.
    pub(super) fn read_page(&mut self, page: u64, found: u64) -> Result<Option<Reply>, Refusal>
        ensures reply { IfOk result (λ reply. reply ≡ (read_page self.old page).reply found) }
        ensures part { OnOk result (self.new ≡ (read_page self.old page).part found) }
        ensures err { OnErr result (self.new ≡ self.old) }
        ensures grows { OnErr result (ListGrows self.old ((read_page self.old page).part found)) }
        ensures memory { IfErr result (λ refusal. refusal ≡ Refusal.Memory) }
    {
        self.classes.put(page, found)?;
        Ok(None)
    }

    // Gives a page a class: of its slots exactly those of the class are then the pass's own.
    pub(super) fn set_class(&mut self, page: u64, class: u32) -> Result<Option<Reply>, Refusal>
        ensures reply { IfOk result (λ reply. reply ≡ None) }
        ensures part { (found : ℕ) → OnOk result (self.new ≡ (set_class self.old page class).part found) }
        ensures err { OnErr result (self.new ≡ self.old) }
        ensures grows { (found : ℕ) → OnErr result (ListGrows self.old ((set_class self.old page class).part found)) }
        ensures memory { IfErr result (λ refusal. refusal ≡ Refusal.Memory) }
    {
        let word = u64::from(class) + 1;
        let count = slots_of_word(word);
        self.mine.set_class(page, count, &mut self.classes, word)?;
        Ok(None)
    }

    // Takes a page's stack; the step found this head word.
    pub(super) fn take(&mut self, page: u64, found: u64) -> Result<Option<Reply>, Refusal>
        ensures reply { IfOk result (λ reply. reply ≡ (take_page self.old page).reply found) }
        ensures part { OnOk result (self.new ≡ (take_page self.old page).part found) }
        ensures err { OnErr result (self.new ≡ self.old) }
        ensures grows { OnErr result (ListGrows self.old ((take_page self.old page).part found)) }
        ensures memory { IfErr result (λ refusal. refusal ≡ Refusal.Memory) }
    {
        point_to_top(&mut self.cursors, page, found)?;
        if is_armed(found) {
            remove_number(&mut self.armed, page);
        }
        Ok(None)
    }

    // Reads the link of a page's slot; the step found this word. If it is written, the slot becomes the pass's own.
    pub(super) fn follow(
        &mut self,
        page: u64,
        slot: u64,
        found: u64,
    ) -> Result<Option<Reply>, Refusal>
        ensures reply { IfOk result (λ reply. reply ≡ (follow self.old page slot).reply found) }
        ensures part { OnOk result (self.new ≡ (follow self.old page slot).part found) }
        ensures err { OnErr result (self.new ≡ self.old) }
        ensures grows { OnErr result (ListGrows self.old ((follow self.old page slot).part found)) }
        ensures memory { IfErr result (λ refusal. refusal ≡ Refusal.Memory) }
    {
        match Link::of(found) {
            Link::Unwritten => {}
            Link::End => {
                self.mine.put(SlotRef { page, slot })?;
                remove_note(&mut self.cursors, page);
            }
            Link::Next(next) => {
                make_room(&mut self.cursors, 1)?;
                self.mine.put(SlotRef { page, slot })?;
                remove_note(&mut self.cursors, page);
                put_in_room(&mut self.cursors, (page, next));
            }
        }
        Ok(None)
    }

    // Arms a page; the step found this head word.
    pub(super) fn arm(&mut self, page: u64, found: u64) -> Result<Option<Reply>, Refusal>
        ensures reply { IfOk result (λ reply. reply ≡ (arm self.old page).reply found) }
        ensures part { OnOk result (self.new ≡ (arm self.old page).part found) }
        ensures err { OnErr result (self.new ≡ self.old) }
        ensures grows { OnErr result (ListGrows self.old ((arm self.old page).part found)) }
        ensures memory { IfErr result (λ refusal. refusal ≡ Refusal.Memory) }
    {
        make_room(&mut self.armed, 1)?;
        point_to_top(&mut self.cursors, page, found)?;
        put_in_room(&mut self.armed, page);
        Ok(None)
    }
}
