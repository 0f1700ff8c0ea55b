//! How a value is read without a hold: between two loads of its slot's state word.
ghost use Rattle.std.specs.Prelude.{◌≡◌};
ghost use Rattle.sh_slots.specs.Slots.{after_look, sight_with, value_seen};

use crate::enter::is_live_at;
use crate::{Hand, KeyRef, Sight};
use sh_value::Value;

/// What a pass has in hand after the first load of a look, by the state word that it found. It goes on if the value is
/// there.
pub fn after_look(key: u64, name: KeyRef, found: u64) -> Hand
    ensures { result ≡ after_look key name found }
{
    if is_live_at(name.generation, found) {
        Hand::Looking(key, name, Sight::Bare)
    } else {
        Hand::Idle
    }
}

impl Sight {
    /// The same again. It takes no memory.
    pub fn copy(&self) -> Sight
        ensures { result ≡ self.now }
    {
        match self {
            Sight::Bare => Sight::Bare,
            Sight::Classed(class) => Sight::Classed(*class),
            Sight::Measured(class, length, value) => {
                Sight::Measured(*class, *length, value.copy())
            }
        }
    }

    /// What was read, with the word that the next load found.
    pub fn with(&self, found: u64) -> Sight
        ensures { result ≡ sight_with self.now found }
    {
        match self {
            Sight::Bare => Sight::Classed(found),
            Sight::Classed(class) => Sight::Measured(*class, found, Value::empty()),
            Sight::Measured(class, length, value) => {
                let mut more = value.copy();
                if more.words().len() < 16 {
                    more.push(found);
                }
                Sight::Measured(*class, *length, more)
            }
        }
    }

    /// The words of the value that were read.
    pub fn value(&self) -> Value
        ensures { result ≡ value_seen self.now }
    {
        match self {
            Sight::Measured(_, _, value) => value.copy(),
            _ => Value::empty(),
        }
    }
}
