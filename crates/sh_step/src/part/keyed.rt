//! What actions on keys leave in a pass's own part.
ghost use Rattle.std.specs.Prelude.{◌≡◌, ℕ, None, IfOk, IfErr, OnOk, OnErr};
ghost use Rattle.sh_shape.specs.Shape.{Numbers};
ghost use Rattle.sh_step.specs.Plans.{Plan, plan_of};
ghost use Rattle.sh_step.specs.Parts.{ListGrows};
ghost use Rattle.sh_step.specs.Rows.{enter_get, enter_remove, mark, freed, drop_key, read_class, read_length};
ghost use Rattle.sh_step.specs.Rows.{read_word};

use super::Part;
use crate::operands::guard_max;
use crate::part::lists::{forget_words, has_number, put_first, remove_number};
use sh_key::KeyLayout;
use sh_slots::{
    GetAnswer, Hand, KeyRef, Reply, after_drop, after_enter_remove, answer_to_get, is_first_mark,
};
use sh_value::Refusal;

impl Part {
    // Enters a slot to get its value; the step found this word. It takes a hold if the value is there and the key has
    // room.
    pub(super) fn enter_get<L: KeyLayout>(
        &mut self,
        key: u64,
        name: KeyRef,
        found: u64,
    ) -> Result<Option<Reply>, Refusal>
        ensures reply { (n : Numbers) → IfOk result (λ reply. reply
            ≡ (enter_get (plan_of L.layout n) self.old key name).reply found) }
        ensures part { (n : Numbers) → OnOk result (self.new ≡ (enter_get (plan_of L.layout n) self.old key name).part
            found) }
        ensures err { OnErr result (self.new ≡ self.old) }
        ensures grows { (n : Numbers) → OnErr result (ListGrows self.old
            ((enter_get (plan_of L.layout n) self.old key name).part found)) }
        ensures memory { IfErr result (λ refusal. refusal ≡ Refusal.Memory) }
    {
        match answer_to_get(name.generation, guard_max::<L>(), found) {
            GetAnswer::Got => {
                put_first(&mut self.holds, key)?;
                Ok(Some(Reply::Got(key)))
            }
            GetAnswer::Crowded => {
                self.hand = Hand::Leaving(name.slot_ref());
                Ok(Some(Reply::Crowded(key)))
            }
            GetAnswer::Gone => {
                self.hand = Hand::Leaving(name.slot_ref());
                Ok(Some(Reply::Gone(key)))
            }
        }
    }

    // Enters a slot to remove its value; the step found this word.
    pub(super) fn enter_remove(&mut self, key: u64, name: KeyRef, found: u64) -> Option<Reply>
        ensures reply { (plan : Plan) → result ≡ (enter_remove plan self.old key name).reply found }
        ensures part { (plan : Plan) → self.new ≡ (enter_remove plan self.old key name).part found }
    {
        self.hand = after_enter_remove(key, name, found);
        match self.hand {
            Hand::Leaving(_) => Some(Reply::Gone(key)),
            _ => None,
        }
    }

    // Marks a slot; the step found this word.
    pub(super) fn mark(&mut self, key: u64, name: KeyRef, found: u64) -> Option<Reply>
        ensures reply { result ≡ (mark self.old key name).reply found }
        ensures part { self.new ≡ (mark self.old key name).part found }
    {
        self.hand = Hand::Leaving(name.slot_ref());
        if is_first_mark(found) {
            Some(Reply::Removed(key))
        } else {
            Some(Reply::Gone(key))
        }
    }

    // One hold less on the key; what was read of the key is forgotten with the last hold.
    fn free(&mut self, key: u64)
        ensures { self.new ≡ freed self.old key }
    {
        remove_number(&mut self.holds, key);
        if !has_number(&self.holds, key) {
            self.class_words.forget(key);
            self.lengths.forget(key);
            forget_words(&mut self.contents, key);
        }
    }

    // Gives back the count of a hold; the step found this word.
    pub(super) fn drop_hold(&mut self, key: u64, name: KeyRef, found: u64) -> Option<Reply>
        ensures reply { result ≡ (drop_key self.old key name).reply found }
        ensures part { self.new ≡ (drop_key self.old key name).part found }
    {
        self.free(key);
        self.hand = after_drop(name.slot_ref(), found);
        Some(Reply::Released(key))
    }

    // Notes the class of a held key's page.
    pub(super) fn read_class(
        &mut self,
        key: u64,
        name: KeyRef,
        found: u64,
    ) -> Result<Option<Reply>, Refusal>
        ensures reply { IfOk result (λ reply. reply ≡ (read_class self.old key name).reply found) }
        ensures part { OnOk result (self.new ≡ (read_class self.old key name).part found) }
        ensures err { OnErr result (self.new ≡ self.old) }
        ensures grows { OnErr result (ListGrows self.old ((read_class self.old key name).part found)) }
        ensures memory { IfErr result (λ refusal. refusal ≡ Refusal.Memory) }
    {
        self.class_words.put(key, found)?;
        Ok(None)
    }

    // Notes the length of a held key's value.
    pub(super) fn read_length(
        &mut self,
        key: u64,
        name: KeyRef,
        found: u64,
    ) -> Result<Option<Reply>, Refusal>
        ensures reply { IfOk result (λ reply. reply ≡ (read_length self.old key name).reply found) }
        ensures part { OnOk result (self.new ≡ (read_length self.old key name).part found) }
        ensures err { OnErr result (self.new ≡ self.old) }
        ensures grows { OnErr result (ListGrows self.old ((read_length self.old key name).part found)) }
        ensures memory { IfErr result (λ refusal. refusal ≡ Refusal.Memory) }
    {
        self.lengths.put(key, found)?;
        Ok(None)
    }

    // Notes the word with this number of a held key's value.
    pub(super) fn read_word(
        &mut self,
        key: u64,
        i: u64,
        found: u64,
    ) -> Result<Option<Reply>, Refusal>
        ensures reply { IfOk result (λ reply. reply ≡ None) }
        ensures part { (name : KeyRef) (class_word : ℕ) → OnOk result
            (self.new ≡ (read_word self.old key name class_word i).part found) }
        ensures err { OnErr result (self.new ≡ self.old) }
        ensures grows { (name : KeyRef) (class_word : ℕ) → OnErr result
            (ListGrows self.old ((read_word self.old key name class_word i).part found)) }
        ensures memory { IfErr result (λ refusal. refusal ≡ Refusal.Memory) }
    {
        put_first(&mut self.contents, (key, i, found))?;
        Ok(None)
    }
}
