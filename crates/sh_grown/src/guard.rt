//! Holds on keys of a growing heap that know where their key's slot is.
ghost use Rattle.std.specs.Prelude.{◌≡◌};

use sh_chunk::Chunked;
use sh_pass::Guard;
use sh_value::Hold;
use std::marker::Model;

/// A hold on a key of a growing heap that keeps the place of the key's slot in its chunk.
///
/// `get_guard` of a caller returns it, and `read_guard` and `release_guard` take it. It is the same hold as the plain
/// `Hold` of its key. A contract sees no more of it, and the two kinds may be mixed. It releases nothing when it is
/// dropped: it does not know the caller that holds.
#[derive(Drop)]
pub struct GrownGuard {
    pub(crate) key: u64,
    // The guard of the key in its chunk.
    pub(crate) guard: Guard<Chunked>,
}

impl Model for GrownGuard {
    ghost use Rattle.std.specs.Prelude.{◌≡◌};
    ghost use Rattle.sh_value.specs.declared.hold.Hold.{Hold};
    ghost use Rattle.sh_chunk.specs.Chunks.{key_within};

    ghost Value = { Hold };

    ghost view = { λ g. record { key = g.key } };

    ghost invariant = { λ g. g.guard.key ≡ key_within g.key };
}

impl GrownGuard {
    /// The key that is held, with the number of its chunk.
    pub fn key(&self) -> u64
        ensures { result ≡ self.now.key }
    {
        self.key
    }

    /// The plain hold of the same key.
    pub fn hold(&self) -> Hold
        ensures { result ≡ self.now }
    {
        Hold { key: self.key }
    }
}
