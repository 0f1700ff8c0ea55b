//! The calls that every pass may make, whether it owns a shard or not.
use sh_value::{Hold, Refusal, Value};

/// A live key that a walk met, with its value.
#[derive(Drop)]
pub struct Met {
    /// The key.
    pub key: u64,
    /// Its value.
    pub value: Value,
    /// The place after that of its slot.
    pub behind: u64,
}

/// A pass or an owner, which gets, reads, removes and releases.
pub trait User {
    /// What one pass gives to another, so that what the one was answered happens before the other's later calls.
    type Receipt: Drop + Send;

    /// Takes a hold on a key.
    fn get(&mut self, key: u64) -> Result<Hold, Refusal>;

    /// Takes a guard on a key, which keeps its place, and reads by it into the value. Returns the guard's plain hold.
    fn guard(&mut self, key: u64, value: &mut Value) -> Result<Hold, Refusal>;

    /// The value of a key that it holds.
    fn read(&mut self, hold: Hold) -> Result<Value, Refusal>;

    /// The value of a key, which it looks at. No hold is left.
    fn look(&mut self, key: u64) -> Result<Value, Refusal>;

    /// A copy of the value of a key, made by a look that gets the value lent.
    fn with(&mut self, key: u64) -> Result<Value, Refusal>;

    /// The value of a key, which this call removes.
    fn take(&mut self, key: u64) -> Result<Value, Refusal>;

    /// The first live key at a place from this one on, with its value. No hold is left.
    fn next_live(&mut self, from: u64) -> Result<Option<Met>, Refusal>;

    /// Removes a key.
    fn remove(&mut self, key: u64) -> Result<(), Refusal>;

    /// Releases a hold.
    fn release(&mut self, hold: Hold) -> Result<(), Refusal>;

    /// Takes a hold on a key. It also returns which key that ended, if any, whose value's words are then in `words`.
    fn get_ended(&mut self, key: u64, words: &mut Value) -> (Result<Hold, Refusal>, Option<u64>);

    /// Removes a key, and returns which key that ended.
    fn remove_ended(&mut self, key: u64, words: &mut Value) -> (Result<(), Refusal>, Option<u64>);

    /// Releases a hold, and returns which key that ended.
    fn release_ended(
        &mut self,
        hold: Hold,
        words: &mut Value,
    ) -> (Result<(), Refusal>, Option<u64>);

    /// A receipt of all that its calls returned, and of all receipts that it heeded.
    fn receipt(&mut self) -> Self::Receipt;

    /// Everything that the receipt covers happens before each later reply to this pass. No refusal is right.
    fn heed(&mut self, told: Self::Receipt) -> Result<(), Refusal>;
}
