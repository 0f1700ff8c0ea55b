// How what a pass's handle holds takes the value of a key.
ghost use Rattle.sh_chunk.specs.Chunks.{chunked, key_within};
ghost use Rattle.sh_member.specs.Sides.{SideDoes};
ghost use Rattle.sh_member.specs.Readers.{TakeIntoDoes};
ghost use Rattle.c_handles.specs.Members.{AnyDoes};
ghost use Rattle.c_handles.specs.HeldPasses.{FillsByKey};

use crate::held_pass::HeldPass;
use sh_value::{Refusal, Value};

impl HeldPass {
    /// Writes the value of a key into one of the caller's, and removes the key: a get, a read, a removal and a release
    /// in one call. A value of more than `most` words is written too, but its key is not removed.
    ///
    /// Refused as a get is, and as `Gone` if another thread removed the key after the get. Of all calls that remove one
    /// key, one alone succeeds. The holds stay as they were.
    pub fn take_into(&mut self, key: u64, most: usize, value: &mut Value) -> Result<(), Refusal>
        ensures { FillsByKey (AnyDoes (λ l. SideDoes l (λ v a w. TakeIntoDoes l key most v a value.new w)))
            (λ v a w. TakeIntoDoes chunked (key_within key) most v a value.new w) key self.old result self.new }
    {
        match self {
            HeldPass::Wide(member, _) => member.take_into(key, most, value),
            HeldPass::Tagged(member, _) => member.take_into(key, most, value),
            HeldPass::Deep(member, _) => member.take_into(key, most, value),
            HeldPass::Tiny(member, _) => member.take_into(key, most, value),
            HeldPass::Growing(caller) => caller.take_into(key, most, value),
        }
    }
}
