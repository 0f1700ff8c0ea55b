//! A ring of keys that one thread hands to another.
ghost use Rattle.std.specs.Prelude.{◌≡◌, ◌≢◌, vec_len, IfOk, IfErr};

use crate::gate::LOOKS;
use std::alloc::{AllocError, Global};
use std::hint::spin_loop;
use std::sync::atomic::{AtomicU64, Ordering};
use tool_load::fault::Fault;

/// The greatest number of keys on their way.
pub const PLACES: usize = 1024;

/// A ring of places. A place is 0 if it is free, and otherwise a key that is on its way.
#[derive(Drop)]
pub struct Ring {
    words: Vec<AtomicU64>,
    ghost whole: { vec_len words ≡ 1024 },
}

// The words of a ring with no key on its way.
fn free_words(alloc: Global) -> Result<Vec<AtomicU64>, AllocError>
    ensures { IfOk result (λ words. vec_len words ≡ 1024) }
{
    let mut words = Vec::new(alloc);
    for _place in 0..PLACES {
        words.push(AtomicU64::new(0))?;
    }
    Ok(words)
}

impl Ring {
    /// A ring with no key on its way.
    pub fn new(alloc: Global) -> Result<Self, AllocError> {
        Ok(Ring {
            words: free_words(alloc)?,
        })
    }

    /// Hands over the key with this number. Returns `Late` if its place does not become free in time.
    pub fn put(&self, number: usize, key: u64) -> Result<(), Fault>
        ensures { IfErr result (λ fault. fault ≡ Fault.Late) }
    {
        let word = &self.words[number % PLACES];
        for _look in 0..LOOKS {
            if word.load(Ordering::SeqCst) == 0 {
                word.store(key, Ordering::SeqCst);
                return Ok(());
            }
            spin_loop();
        }
        Err(Fault::Late)
    }

    /// Takes over the key with this number. Returns `Late` if it does not come in time.
    pub fn take(&self, number: usize) -> Result<u64, Fault>
        ensures key { IfOk result (λ key. key ≢ 0) }
        ensures late { IfErr result (λ fault. fault ≡ Fault.Late) }
    {
        let word = &self.words[number % PLACES];
        for _look in 0..LOOKS {
            let key = word.load(Ordering::SeqCst);
            if key != 0 {
                word.store(0, Ordering::SeqCst);
                return Ok(key);
            }
            spin_loop();
        }
        Err(Fault::Late)
    }
}
