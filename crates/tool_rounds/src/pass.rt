//! What a round needs of a heap: its passes in three states, and the calls that change the state.
ghost use Rattle.std.specs.Prelude.{◌<◌};

use crate::user::User;
use sh_core::Accounts;
use sh_key::KeyLayout;
use sh_step::Action;
use sh_value::{Refusal, Value};
use std::alloc::Global;
use tool_judge::fault::Fault;

/// The name of a page: its chunk, the shard of that chunk, and the page of that shard, each from 0. A heap that does
/// not grow is chunk 0.
#[derive(Clone, Copy, Debug, PartialEq, Eq)]
pub struct PageName {
    pub chunk: u32,
    pub shard: u32,
    pub page: u32,
}

/// A pass of the heap under test, which owns no shard and has begun no call. The other two states of a pass and the
/// whole heap are types beside it, so that no call can be made in a state that does not have it.
///
/// A heap that grows has callers in place of passes. A caller adopts shards as it inserts, so one that may insert is in
/// the state of an owner.
pub trait LonePass: User + Drop + Send {
    /// The layout of the heap's keys, or of the keys in a chunk of a heap that grows.
    type Layout: KeyLayout + Send;

    /// A pass that owns a shard.
    type Owner: User<Receipt = Self::Receipt> + Drop + Send;

    /// A pass between two steps of a call, which it makes by hand.
    type Stopped: Drop + Send;

    /// The heap, if all its passes are joined.
    type Whole: Drop + Send;

    /// The number of the key's chunk, and the key in that chunk. In a heap that does not grow it is 0 and the key.
    fn split(key: u64) -> (u32, u64);

    /// Adopts a shard. A refusal returns the pass.
    fn adopt(self, alloc: Global, shard: u64) -> Result<Self::Owner, (Self, Refusal)>;

    /// Stores a value in the owner's shard, and returns its key.
    fn insert(owner: &mut Self::Owner, value: &Value) -> Result<u64, Refusal>;

    /// Collects what others freed in the owner's shard.
    fn collect(owner: &mut Self::Owner);

    /// Gives a page of the owner's shard to values of this class. A heap without such a call does nothing.
    fn prepare(owner: &mut Self::Owner, class: u32) -> Result<(), Refusal>
        requires { class < 8 };

    /// Leaves the owner's shard. A refusal returns the owner.
    fn leave(owner: Self::Owner) -> Result<Self, (Self::Owner, Refusal)>;

    /// Lets the pass run step by step, by hand. A heap whose calls cannot be made by hand returns the pass.
    fn begin(self) -> Result<Self::Stopped, Self>;

    /// Does one step, and returns whether its condition held.
    fn act(stopped: &mut Self::Stopped, action: &Action) -> bool;

    /// Returns the plain pass, if it has ended all that it began. Otherwise returns the pass as it was.
    fn end(stopped: Self::Stopped) -> Result<Self, Self::Stopped>;

    /// Joins two passes into one that has what both were answered.
    fn join(self, other: Self) -> Self;

    /// The whole heap, if all passes of the heap are joined in this one. The fault is `Apart` if they are not.
    fn whole(self) -> Result<Self::Whole, Fault>;

    /// The accounts of a page of the heap, or `None` if there is no such page.
    fn accounts(whole: &mut Self::Whole, name: PageName) -> Option<Accounts>;
}
