//! A heap that grows: a list of chunks, each a heap of its own, opened when those before it have no room.
//!
//! A key has the number of its chunk in bits 56 to 63. A caller has a member in each chunk that it has met, and each
//! call on a key is the call of the member of the key's chunk.
//!
//! ```text
//! chunk      0         1         2         3          each a pool of a heap of layout `Chunked`, in a cell that is
//! cells   [ pool ]  [ pool ]  [ none ]  [ none ]      written once: two threads that open one chunk use the same
//! caller    met       -                               its member, from the first call that needs the chunk on
//! ```
//!
//! An insert tries the shards that its caller owns, then walks over the shards of the open chunks, and opens the next
//! chunk at last.
#![tactic(auto)]

pub mod caller;
mod calls;
pub mod chunk;
pub mod chunk_member;
pub mod chunk_shapes;
pub mod crossing;
mod ends;
pub mod growing;
pub mod guard;
mod inserting;
pub mod laws;
mod leaving;
mod members;
pub mod opening;
pub mod receipts;
mod removing;
mod room_hints;
pub mod share;
pub mod sizes;
mod store;
mod told_keys;
pub mod totals;
mod tried;
mod walking;

pub use caller::Caller;
pub use chunk::Chunk;
pub use chunk_shapes::chunk_shape;
pub use growing::Growing;
pub use guard::GrownGuard;
pub use laws::{bundles_have_one_map, callers_have_one_map, chunks_grow_by_half};
pub use opening::{NotOpened, OpenChunks};
pub use receipts::GrownReceipt;
pub use sh_whole::NotTold;
pub use share::GrowingShare;
pub use sizes::HeapSize;
pub use totals::GrownTotals;
