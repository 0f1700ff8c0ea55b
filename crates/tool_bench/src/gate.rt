//! A gate at which threads wait for each other in a loop that looks again and again, since a thread that sleeps would
//! wake up late.
ghost use Rattle.std.specs.Prelude.{◌≡◌, IfErr};

use std::hint::spin_loop;
use std::sync::atomic::{AtomicU64, Ordering};
use tool_load::fault::Fault;

/// The number of looks before a thread gives up. At some ten nanoseconds a look these take seconds.
pub const LOOKS: u64 = 400_000_000;

/// A gate that opens when all threads have reached it.
pub struct Gate {
    arrived: AtomicU64,
    threads: u64,
}

impl Drop for Gate {
    fn drop(self) {
        let Gate {
            arrived,
            threads: _,
        } = self;
        arrived.into_inner();
    }
}

impl Gate {
    /// A gate for this many threads.
    pub fn new(threads: u64) -> Self
        ensures { result.threads ≡ threads }
    {
        Gate {
            arrived: AtomicU64::new(0),
            threads,
        }
    }

    /// Waits until all threads have reached the gate. Returns `Late` if one does not come in time.
    pub fn pass(&self) -> Result<(), Fault>
        ensures { IfErr result (λ fault. fault ≡ Fault.Late) }
    {
        self.arrived.fetch_add(1, Ordering::SeqCst);
        for _look in 0..LOOKS {
            if self.arrived.load(Ordering::SeqCst) >= self.threads {
                return Ok(());
            }
            spin_loop();
        }
        Err(Fault::Late)
    }
}
