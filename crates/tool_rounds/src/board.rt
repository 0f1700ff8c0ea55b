//! What threads share: recent keys with receipts of their inserts, a clock, and whether to stop.
use crate::moments::Moments;
use crate::user::User;
use crate::using;
use std::alloc::{AllocError, Global};
use std::sync::atomic::{AtomicBool, Ordering};
use std::sync::{Mutex, Wait};
use tool_judge::record::Record;

// The number of places on a board, each for one key.
const PLACES: u64 = 16;

/// A key, with a receipt of the thread that inserted it, or of one that heeded that thread's receipt.
#[derive(Drop)]
pub struct Letter<C: Drop> {
    pub key: u64,
    pub told: C,
}

/// A board on which threads leave keys for one another, each with a receipt that covers its insert. A place is locked
/// while a thread looks at its key.
#[derive(Drop)]
pub struct Board<'r, R: Wait, C: Drop> {
    rt: &'r R,
    places: Vec<Mutex<Option<Letter<C>>>>,
    /// The clock that dates the calls.
    pub moments: Moments,
    stop: AtomicBool,
}

impl<'r, R: Wait, C: Drop> Board<'r, R, C> {
    /// A board with no keys.
    pub fn new(rt: &'r R, alloc: Global) -> Result<Self, AllocError> {
        let mut places = Vec::new(alloc);
        for _ in 0..PLACES {
            places.push(Mutex::new(None))?;
        }
        Ok(Board {
            rt,
            places,
            moments: Moments::new(),
            stop: AtomicBool::new(false),
        })
    }

    // The place with this number, modulo the number of places.
    fn place(&self, number: u64) -> Option<&Mutex<Option<Letter<C>>>> {
        self.places.get((number % PLACES) as usize)
    }

    /// Leaves a key for others at a place, and returns the letter that was there.
    pub fn leave(&self, number: u64, letter: Letter<C>) -> Option<Letter<C>> {
        self.place(number)?.lock(self.rt).replace(letter)
    }

    /// The user heeds the receipt at a place, and gets the key there. It replaces the receipt by one of its own, which
    /// covers all that the former one covers.
    pub fn look<U: User<Receipt = C>>(
        &self,
        user: &mut U,
        record: &mut Record,
        number: u64,
    ) -> Option<u64> {
        let mut place = self.place(number)?.lock(self.rt);
        let Letter { key, told } = place.take()?;
        using::heed(user, record, told);
        *place = Some(Letter {
            key,
            told: user.receipt(),
        });
        Some(key)
    }

    /// Asks all threads to end.
    pub fn stop(&self) {
        self.stop.store(true, Ordering::SeqCst);
    }

    /// Whether threads are to end.
    pub fn is_stopped(&self) -> bool {
        self.stop.load(Ordering::SeqCst)
    }
}
