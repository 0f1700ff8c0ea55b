//! What a member is.
ghost use Rattle.std.specs.Prelude.{◌≡◌};
ghost use Rattle.sh_member.specs.declared.member.Side.TheVariants as side;

mod between_calls;
mod bundles;
mod calls;
mod counting;
mod guards;
mod joining;
mod moving;
mod own_keys;
mod reading;
mod receipts;
mod taking;
mod telling;
pub(crate) mod walking;
mod warming;

use sh_key::KeyLayout;
use sh_pass::KeepsHeap;
use sh_pass::pass::PassOn;
use sh_shard::shard::ShardOn;
use std::marker::Model;

/// A pass, or the shard that it owns.
#[derive(Drop)]
pub enum Side<L: KeyLayout, H: KeepsHeap<L>> {
    /// It owns no shard.
    Pass(PassOn<L, H>),
    /// It owns a shard.
    Shard(ShardOn<L, H>),
}

/// A pass that may own a shard. A contract sees which of the two it is, and what is seen of that.
#[derive(Drop)]
pub struct Member<L: KeyLayout, H: KeepsHeap<L>> {
    pub(crate) side: Side<L, H>,
}

impl<L: KeyLayout, H: KeepsHeap<L>> Model for Member<L, H> {
    ghost use Rattle.sh_member.specs.Sides.{SeenSide, seen_side};

    ghost Value = { SeenSide };

    ghost view = { λ m. seen_side m.side };
}

impl<L: KeyLayout, H: KeepsHeap<L>> Member<L, H> {
    /// The pass, which owns no shard.
    pub fn of(pass: PassOn<L, H>) -> Self
        ensures { result ≡ side.Pass pass }
    {
        Member {
            side: Side::Pass(pass),
        }
    }
}
