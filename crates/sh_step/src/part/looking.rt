//! What the steps of a look leave in a pass's own part.
ghost use Rattle.std.specs.Prelude.{◌≡◌, None};
ghost use Rattle.sh_step.specs.Rows.{look, look_on, look_again};

use super::Part;
use sh_slots::{Hand, KeyRef, Reply, Sight, after_look, is_live_at, is_past_at};

impl Part {
    // Begins to look at a key; the step found this word.
    pub(super) fn look(&mut self, key: u64, name: KeyRef, found: u64) -> Option<Reply>
        ensures reply { result ≡ (look self.old key name).reply found }
        ensures part { self.new ≡ (look self.old key name).part found }
    {
        self.hand = after_look(key, name, found);
        is_past_at(name.generation, found).then_some(Reply::Gone(key))
    }

    // Reads on; the step found this word.
    pub(super) fn look_on(
        &mut self,
        key: u64,
        name: KeyRef,
        sight: &Sight,
        found: u64,
    ) -> Option<Reply>
        ensures reply { result ≡ None }
        ensures part { self.new ≡ (look_on self.old key name sight.now).part found }
    {
        self.hand = Hand::Looking(key, name, sight.with(found));
        None
    }

    // Ends a look; the step found this word.
    pub(super) fn look_again(
        &mut self,
        key: u64,
        name: KeyRef,
        sight: &Sight,
        found: u64,
    ) -> Option<Reply>
        ensures reply { result ≡ (look_again self.old key name sight.now).reply found }
        ensures part { self.new ≡ (look_again self.old key name sight.now).part found }
    {
        self.hand = Hand::Idle;
        if is_live_at(name.generation, found) {
            Some(Reply::Seen(key, sight.value()))
        } else {
            Some(Reply::Gone(key))
        }
    }
}
