// A pass looks keys up.
use crate::keeping::KeepsHeap;
use crate::pass::PassOn;
use sh_key::KeyLayout;
use sh_plain::Lookup;
use sh_value::{Hold, Refusal, Value};

impl<L: KeyLayout, H: KeepsHeap<L>> Lookup for PassOn<L, H> {
    ghost use Rattle.std.specs.Prelude.{Some};
    ghost use Rattle.sh_pass.specs.Passes.{GetDoes, ReadDoes, RemoveDoes, ReleaseDoes};
    ghost use Rattle.sh_pass.specs.Fetching.{FetchDoes};
    ghost use Rattle.sh_pass.specs.Lookups.{caller_book, caller_setting};

    ghost book = { caller_book };

    ghost setting = { λ pass. Some (caller_setting L.layout pass) };

    ghost lends = { λ _. tt };

    ghost gets = { λ old key result new. GetDoes L.layout key old result new };

    ghost reads = { λ old key result new. ReadDoes key old result new };

    ghost looks = { λ old key result new. FetchDoes L.layout key old result new };

    ghost removes = { λ old key result new. RemoveDoes L.layout key old result new };

    ghost releases = { λ old key result new. ReleaseDoes L.layout key old result new };

    fn get(&mut self, key: u64) -> Result<Hold, Refusal> {
        PassOn::get(self, key)
    }

    fn read(&mut self, hold: Hold) -> Result<Value, Refusal> {
        PassOn::read(self, hold)
    }

    fn look(&mut self, key: u64) -> Result<Value, Refusal> {
        PassOn::look(self, key)
    }

    fn remove(&mut self, key: u64) -> Result<(), Refusal> {
        PassOn::remove(self, key)
    }

    fn release(&mut self, hold: Hold) -> Result<(), Refusal> {
        PassOn::release(self, hold)
    }
}
