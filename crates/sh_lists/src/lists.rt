//! The two lists of free slots of a page, threaded through one array.
ghost use Rattle.std.specs.Prelude.{◌≡◌, ◌+◌, ◌<◌, ◌≤◌, [], ◌∷◌, ◌++◌, length, None, IfSome, IfNone};
ghost use Rattle.sh_shape.specs.Places.{slot_places};
ghost use Rattle.sh_lists.specs.Numbers.{Misses, upward};
ghost use Rattle.sh_lists.specs.Lists.{SlotsOnce, refilled};

use sh_shape::SLOT_PLACES;
use std::marker::Model;

const PLACES: usize = SLOT_PLACES as usize;

// One of the lists: its first slot, its last, and its length. If it is empty, the other two mean nothing.
#[derive(Clone, Copy)]
struct Thread {
    front: u8,
    end: u8,
    count: u8,
}

const NO_SLOTS: Thread = Thread {
    front: 0,
    end: 0,
    count: 0,
};

/// The free slots of a page that its owner keeps: `free`, from which allocation takes, and `local`, the owner's own
/// frees.
///
/// A slot is a number below 48. It is in at most one of the lists, and there once. Beside the lists is the cursor: the
/// slot at which the owner continues reading the page's stack. No call takes memory.
#[derive(Drop)]
pub struct PageLists {
    // The slot that follows in the same list. No call walks a list, and only `full` has a loop.
    next: [u8; PLACES],
    free: Thread,
    local: Thread,
    // In a byte, so that what is kept of a page is one line of the cache.
    cursor: Option<u8>,
}

impl Model for PageLists {
    ghost use Rattle.std.specs.Prelude.{◌<◌, IfSome};
    ghost use Rattle.sh_shape.specs.Places.{slot_places};
    ghost use Rattle.sh_lists.specs.Lists.{Lists, walk, Threaded};

    ghost Value = { Lists };

    ghost view = { λ p. record {
      free = walk p.next p.free.front p.free.count;
      local = walk p.next p.local.front
          p.local.count;
      cursor = p.cursor;
    } };

    ghost invariant = { λ p. Threaded (walk p.next p.free.front p.free.count) p.free.end
        (walk p.next p.local.front p.local.count) p.local.end × IfSome p.cursor (λ slot. slot < slot_places) };
}

impl PageLists {
    /// Both lists are empty, and there is no cursor.
    pub fn bare() -> Self
        ensures { result ≡ record { free = []; local = []; cursor = None } }
    {
        PageLists {
            next: [0; PLACES],
            free: NO_SLOTS,
            local: NO_SLOTS,
            cursor: None,
        }
    }

    /// The slots 0 to `slots - 1` are free, at most 48, in ascending order. There is no cursor.
    pub fn full(slots: u32) -> Self
        requires { slots ≤ slot_places }
        ensures { result ≡ record { free = upward 0 slots; local = []; cursor = None } }
    {
        let mut next = [0; PLACES];
        for slot in 1..PLACES {
            next[slot - 1] = slot as u8;
        }
        let free = Thread {
            front: 0,
            end: slots.saturating_sub(1) as u8,
            count: slots as u8,
        };
        PageLists {
            next,
            free,
            local: NO_SLOTS,
            cursor: None,
        }
    }

    /// The number of slots in both lists, at most 48.
    pub fn len(&self) -> u32
        ensures both { result ≡ length self.now.free + length self.now.local }
        ensures once { SlotsOnce self.now }
    {
        self.free.count as u32 + self.local.count as u32
    }

    /// The slot at which reading the page's stack continues.
    pub fn cursor(&self) -> Option<u32>
        ensures cursor { result ≡ self.now.cursor }
        ensures small { IfSome result (λ slot. slot < slot_places) }
    {
        match self.cursor {
            Some(at) => Some(at as u32),
            None => None,
        }
    }

    /// Sets the slot at which reading the page's stack continues.
    pub fn set_cursor(&mut self, cursor: Option<u32>)
        requires { IfSome cursor (λ slot. slot < slot_places) }
        ensures { self.new ≡ record self.old { cursor = cursor } }
    {
        self.cursor = match cursor {
            Some(at) => Some(at as u8),
            None => None,
        };
    }

    /// Takes the front of `free`. None, with nothing changed, if `free` is empty.
    pub fn pop(&mut self) -> Option<u32>
        ensures front { IfSome result (λ slot. self.old ≡ record self.new { free = slot ∷ self.new.free }) }
        ensures apart { IfSome result (λ slot. Misses slot (self.new.free ++ self.new.local)) }
        ensures small { IfSome result (λ slot. slot < slot_places) }
        ensures none { IfNone result (self.old.free ≡ []) }
        ensures same { IfNone result (self.new ≡ self.old) }
    {
        if self.free.count == 0 {
            return None;
        }
        let slot = self.free.front;
        self.free.front = self.next[slot as usize];
        self.free.count -= 1;
        Some(slot as u32)
    }

    /// Takes the next slot to use: the front of `free`. If that is empty, it is the front of `local`, which then
    /// becomes `free`. None, with nothing changed, if both are empty.
    pub fn next_slot(&mut self) -> Option<u32>
        ensures front { IfSome result (λ slot. refilled self.old ≡ record self.new { free = slot ∷ self.new.free }) }
        ensures apart { IfSome result (λ slot. Misses slot (self.new.free ++ self.new.local)) }
        ensures small { IfSome result (λ slot. slot < slot_places) }
        ensures no_free { IfNone result (self.old.free ≡ []) }
        ensures no_local { IfNone result (self.old.local ≡ []) }
        ensures same { IfNone result (self.new ≡ self.old) }
    {
        if let Some(slot) = self.pop() {
            return Some(slot);
        }
        self.flip();
        self.pop()
    }

    /// Puts a slot that is in neither list in front of `local`.
    pub fn push_local(&mut self, slot: u32)
        requires small { slot < slot_places }
        requires apart { Misses slot (self.old.free ++ self.old.local) }
        ensures { self.new ≡ record self.old { local = slot ∷ self.old.local } }
    {
        let slot = slot as u8;
        if self.local.count == 0 {
            self.local = Thread {
                front: slot,
                end: slot,
                count: 1,
            };
            return;
        }
        self.next[slot as usize] = self.local.front;
        self.local.front = slot;
        self.local.count += 1;
    }

    /// Makes `local`, in its order, the list `free`, which is empty before.
    pub fn flip(&mut self)
        requires { self.old.free ≡ [] }
        ensures { self.new ≡ record self.old { free = self.old.local; local = [] } }
    {
        self.free = self.local;
        self.local = NO_SLOTS;
    }

    /// Puts a slot that was read from the page's stack, and is in neither list, behind `free`.
    pub fn add_read(&mut self, slot: u32)
        requires small { slot < slot_places }
        requires apart { Misses slot (self.old.free ++ self.old.local) }
        ensures { self.new ≡ record self.old { free = self.old.free ++ slot ∷ [] } }
    {
        let slot = slot as u8;
        if self.free.count == 0 {
            self.free = Thread {
                front: slot,
                end: slot,
                count: 1,
            };
            return;
        }
        self.next[self.free.end as usize] = slot;
        self.free.end = slot;
        self.free.count += 1;
    }
}

#[cfg(test)]
mod tests;
