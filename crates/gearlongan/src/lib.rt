//! Gearlongan: a map of small values that threads share, and whose keys are never used again.
//!
//! A value is at most 16 words of 64 bits. An insert returns a key; each thread may read, hold and remove any key.
//!
//! # First steps
//!
//! A program that stores a value, reads it in two threads, gathers all passes and counts what is left. It is proved as
//! it is, without a proof file (`crates/example_two_threads` is this with its printing):
//!
//! ```text
//! #![tactic(auto)]
//! ghost use Rattle.std.specs.Prelude.{◌≡◌};
//! ghost use Rattle.gearlongan.specs.Passes.{AreOf};
//!
//! use gearlongan::{Heap, Pass, Reader, Refusal, Shape, Shard, Task, Value, Wide, both, gather, total};
//! use std::alloc::Global;
//! use std::thread::Threads;
//!
//! #[derive(Drop)]
//! struct Reading<'a> {
//!     pass: Pass<'a, Wide>,
//!     key: u64,
//! }
//!
//! impl<'a> Task for Reading<'a> {
//!     type Output = (Pass<'a, Wide>, Result<Value, Refusal>);
//!
//!     ghost gives = { λ task output. output.0.heap ≡ task.pass.heap };   // the pass comes back
//!
//!     fn run(self) -> (Pass<'a, Wide>, Result<Value, Refusal>) {
//!         let Reading { mut pass, key } = self;
//!         let value = pass.look(key);                                     // read, without a hold
//!         (pass, value)
//!     }
//! }
//!
//! fn run(rt: &impl Threads, alloc: Global) -> Result<Option<u32>, Refusal> {
//!     let shape = Shape::new(1, 1, 3)?;                       // one shard of one segment, three passes
//!     let (heap, seats) = Heap::<Wide>::open(alloc, shape)?;
//!     let passes = heap.passes(alloc, seats)?;                // one for each caller, in order
//!     share(rt, alloc, &heap, passes)
//! }
//!
//! // Returns how many values the heap has in the end.
//! fn share<'a>(
//!     rt: &impl Threads,
//!     alloc: Global,
//!     heap: &'a Heap<Wide>,
//!     passes: Vec<Pass<'a, Wide>>,
//! ) -> Result<Option<u32>, Refusal>
//!     requires { AreOf heap.now passes.items }                // all passes are of this heap
//! {
//!     let mut passes = passes.into_iter();
//!     let (Some(owner), Some(one), Some(two)) = (passes.next(), passes.next(), passes.next()) else {
//!         return Err(Refusal::BadShape);
//!     };
//!     let mut back = Vec::with_capacity(alloc, 3)?;
//!     let mut owner = Shard::adopt(alloc, owner, 0)?;         // only an owner inserts
//!     let key = owner.insert(&Value::of([7, 8, 9]))?;
//!     let (one, two) = both(rt, Reading { pass: one, key }, Reading { pass: two, key });
//!     owner.remove(key)?;                                     // from now on the key is `Gone`, for ever
//!     back.push_reserved(owner.leave()?);
//!     back.push_reserved(one.0);
//!     back.push_reserved(two.0);
//!     match gather(heap, back) {
//!         Ok(mut all) => Ok(Some(total(&mut all).live)),      // no key is left: 0
//!         Err(_) => Ok(None),                                 // not all passes are there
//!     }
//! }
//! ```
//!
//! Most calls return a `Result`. Its `Refusal` says why the call was not done, and a refused call changes nothing. `?`
//! works on each of them, also if a refusal comes with the pass or shard that the call consumed. A loop over a pass
//! needs one line that says what stays, as in `crates/example_session_store`. `crates/test_gearlongan` has an example
//! of each call.
//!
//! # The words
//!
//! - A **heap** has a fixed `Shape`: its number of shards, of segments in each shard, and of passes. A segment is 8
//!   pages.
//! - A **pass** is one caller's right to use the heap: one for each thread. It gets, reads, removes and releases any
//!   key.
//! - A **shard** is a part of the heap in which one pass at a time inserts, its owner. `Shard::adopt` makes a pass the
//!   owner, and `leave` gives the pass back.
//! - A **page** has slots of one class, wide enough for 1, 2, 3, 4, 6, 8, 12 or 16 words: 48 words in all.
//! - A **key** names a slot and its **generation**. A slot's generation goes up with each value, so that a key which
//!   was removed finds nothing for ever, whatever the slot stores by then.
//! - A **hold** keeps a key's value readable, also when the key is removed meanwhile. `get` takes one, and `release`
//!   gives it back. `fetch`, `with` and `take` (of `Reader`) do both, so that no hold is left behind. A `Guard` is a
//!   hold that keeps the place of its value.
//! - A **receipt** covers all replies to its pass until then, and all that the pass had heard of others. It has no
//!   bytes.
//! - A **record** is what `Typed` stores: a type of one's own, or a `u64`, a tuple or an array of them as it is.
//! - A **layout** says how keys are numbered, and so how many shards, pages, generations and holds there may be.
//!
//! # Which layout
//!
//! - `Wide`: up to 256 shards of 1024 pages, 2^32 - 1 generations. Take it if you have no reason for another.
//! - `Deep`: up to 64 shards of 1,048,576 pages. For many millions of values, and if a thread keeps one shard.
//! - `Tagged`: up to 64 shards of 256 pages; 8 bits of each key are yours.
//! - `Tiny` is for tests that reach every limit: 4 shards of 16 pages, at most 4 holds on a key, and three values in a
//!   slot.
//!
//! A layout of one's own is a type with four numbers, and the same as ghost members. See `Wide` in `sh_key`, and
//! `wide` in its `specs/Layouts.antt` (which says that they are within their limits).
//!
//! # Limits
//!
//! `Shape::with_room` makes the least shape with room for a number of values of each owner. `Shape::large` takes at
//! most 2,097,152 segments in all shards together, and `Shape::new` at most 256. A heap of layout `Wide` stores at most
//! 12,582,912 values of one word, or 786,432 of 16; one of `Deep` 64 times as many. There are at most 64 passes, and a
//! pass has at most 16 holds. An insert into a full shard is refused as `Full`: leave the shard, and adopt another.
//! `pages_left` and `slots_out` say how full a shard is.
//!
//! Any pass or shard walks over the live keys of the heap by `next_live`, `next_live_into` and `next_held`, while others
//! insert and remove. `remove_if` walks over all, and removes the keys that a predicate chooses:
//!
//! ```text
//! let count = pass.remove_if(|_key, value| value.words().first().is_some_and(|end| *end < now));
//! ```
//!
//! An owner walks over the live keys of its shard by `next_own_key`:
//!
//! ```text
//! let mut place = 0;
//! while let Some(next) = next_own_key(&mut owner, place) {
//!     place = next.behind;                // next.key was live
//! }
//! ```
//!
//! Only the pass that took a hold can release it. A pass that is dropped leaves its holds, so that their slots are
//! never used again once their keys are removed. A shard that is dropped stays taken. After either, `gather` never
//! finds all passes.
//!
//! # A heap that grows
//!
//! The shape of a `Heap` is fixed. A `Growing` is a list of heaps, its chunks: a new one is opened when an insert finds
//! no room in those before it. Threads use it by a `GrowingShare`. A `Caller` is the pass of a growing heap, one for
//! each thread. It owns the shards that its inserts need, and gets, reads, removes and releases any key:
//!
//! ```text
//! fn stored(alloc: Global) -> Result<Value, Refusal> {
//!     let growing = GrowingShare::open(alloc, 64, 256)?;      // passes, and chunks at most
//!     let mut caller = growing.claim(alloc)?;                 // one for each thread
//!     let key = caller.insert(alloc, &Value::of([7, 8]))?;    // opens a chunk if no open one has room
//!     let value = caller.look(key)?;
//!     caller.remove(key)?;
//!     let Ok(()) = caller.end() else {                        // leaves its shards: its number can be claimed again
//!         return Err(Refusal::Waiting);
//!     };
//!     Ok(value)
//! }
//! ```
//!
//! # Threads
//!
//! `both` runs two `Task`s, and `all` those of a list, each in a thread of its own if one can be made. The ghost member
//! `gives` of a task says what is known of its output, such as that a pass which comes back is of its heap. `gather`
//! checks whether all passes of the heap are there: it returns the heap as a whole, or the passes. `join` and `whole`
//! do the same for one pass after the other. `total` adds up what the slots of a whole heap are, and `all_accounts`
//! lists that for each page. `next_key` finds the live keys of a whole heap, one after the other. This loop visits each
//! live key once, in the order of their places:
//!
//! ```text
//! let mut place = 0;
//! while let Some(next) = next_key(&mut all, place) {
//!     place = next.behind;                // next.key is live
//! }
//! ```
//!
//! # Order between threads
//!
//! The calls of one pass are in order in each history, and so are those of passes that were joined. Otherwise nothing
//! says that one thread sees what another did before: send a receipt along with the key, and heed it.
//!
//! ```text
//! let key = owner.insert(&value)?;
//! let receipt = owner.receipt();          // one load; both go to another thread, in any way
//!
//! pass.heed(receipt);                     // there: two loads
//! let hold = pass.get(key)?;              // Gone only if the key was removed
//! ```
//!
//! Everything that the receipt covers happens before all later replies to the pass, in each history, and the receipts
//! that this pass makes cover it too. A receipt belongs to one heap, as a pass does, and `heed` requires that both are
//! of the same heap. `copy` makes a second receipt for one more thread. A receipt of a `Caller` is a `GrownReceipt`: it
//! covers each chunk that the caller has met, and a caller that heeds it meets these chunks.
//!
//! `insert_told` and `fetch_told` do both ends, for a key and its receipt that go together;
//! `crates/example_key_channel` sends such keys over a channel. `heard_comes_first` says what follows for keys, and
//! proofs cite it. `remove_then_get` is an example: a pass that heard of a removal does not find the key any more.
#![tactic(auto)]

pub mod task;

pub use sh_core::Accounts;
pub use sh_gather::{
    PageAccounts, Totals, Whole, all_accounts, gather, join, next_key, total, whole,
};
pub use sh_grown::{
    Caller, Chunk, Growing, GrowingShare, GrownGuard, GrownReceipt, GrownTotals, NotOpened,
    NotTold, OpenChunks,
};
pub use sh_key::{Deep, KeyLayout, Tagged, Tiny, Wide};
pub use sh_member::{NextHeld, NextLive, Reader, ToldKey, fetch_told, insert_told, next_own_key};
pub use sh_pass::{Guard, Heap, NextKey, Pass, Receipt, Seats, remove_then_get};
pub use sh_plain::{Lookup, Store};
pub use sh_shape::Shape;
pub use sh_shard::Shard;
pub use sh_table::heard_comes_first;
pub use sh_typed::Typed;
pub use sh_value::{Hold, Record, Refusal, Value};
pub use task::{Task, all, both};
