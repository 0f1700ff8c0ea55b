//! Threads share a pool, and a pass that one of them took may go to another.
use crate::pool::Pool;
use crate::pool_slot::{PoolSlot, Taken};
use crate::share::Share;
use sh_key::KeyLayout;
use sh_pass::pass::PassOn;

fn shares<T: Send + Sync>(_shared: &T) {}

fn sends<T: Send>(_sent: &T) {}

/// Threads share a pool, by a `&` or by a share each.
pub fn pools_are_shared<L: KeyLayout + Send + Sync>(pool: &Pool<L>, share: &Share<L>) {
    shares(pool);
    shares(share);
}

/// A pass that was taken goes to another thread, with its pool slot.
pub fn taken_passes_are_sent<L: KeyLayout + Send + Sync>(
    taken: &Taken<L>,
    pass: &(PassOn<L, Share<L>>, PoolSlot<L>),
) {
    sends(taken);
    sends(pass);
}
