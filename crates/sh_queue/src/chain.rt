// One list of numbers, linked both ways.
ghost use Rattle.std.specs.Prelude.{◌≡◌, ◌≢◌, ℕ, ◌+◌, ◌-◌, ◌^◌, ◌<◌, ◌≤◌, [], ◌∷◌, ◌++◌, length, max, replicate, true};
ghost use Rattle.std.specs.Prelude.{false, IfOk, OnOk, OnErr};
ghost use Rattle.std.specs.Vec.{vec_capacity};
ghost use Rattle.sh_lists.specs.Numbers.{Distinct, upward};
ghost use Rattle.sh_queue.specs.Numbers.{has_number, without_number, put_after, put_before, following, preceding};
ghost use Rattle.sh_queue.specs.Chain.{ChainNumbers, ends};

use std::alloc::{AllocError, Global};
use std::marker::Model;

// The last number. The first is 0.
pub const END: u32 = 10;

// The number behind a number, and the one ahead of it: both in one line of the cache.
#[derive(Clone, Copy)]
pub struct Link {
    next: u32,
    prev: u32,
}

// What a number has before it is put in. It is that of 0 and of `END` if there is no other number.
const ENDS: Link = Link { next: END, prev: 0 };

// A list of numbers that begins with 0 and ends with `END`, none twice. A number can be taken out or put in at any
// place. A contract sees the numbers in order, and the bound below which each number is.
#[derive(Drop)]
pub struct Chain {
    links: Vec<Link>,
    // How many numbers come after 0.
    count: usize,
}

impl Model for Chain {
    ghost use Rattle.std.specs.Prelude.{◌∷◌, length, get_or};
    ghost use Rattle.sh_lists.specs.Lists.{walk};
    ghost use Rattle.sh_queue.specs.Chain.{ChainNumbers, Links, nexts, prevs};

    ghost Value = { ChainNumbers };

    ghost view = { λ c. record {
      numbers = 0 ∷ walk (nexts c.links.items) (get_or (nexts c.links.items) 0 0) c.count;
      size = length (nexts c.links.items);
    } };

    ghost invariant = { λ c. Links (nexts c.links.items) (prevs c.links.items)
        (walk (nexts c.links.items) (get_or (nexts c.links.items) 0 0) c.count) };
}

impl Chain {
    // The numbers 0 and `END`, with room for the numbers below `size`.
    pub fn new(alloc: Global, size: usize) -> Result<Self, AllocError>
        requires { 11 ≤ size }
        ensures { IfOk result (λ chain. chain ≡ record { numbers = 0 ∷ 10 ∷ []; size = size }) }
    {
        let links = vec![in alloc; ENDS; size]?;
        Ok(Chain { links, count: 1 })
    }

    // Makes room for the numbers below `size`.
    pub fn grow(&mut self, size: usize) -> Result<(), AllocError>
        ensures same { self.new.numbers ≡ self.old.numbers }
        ensures kept { self.old.size ≤ self.new.size }
        ensures room { OnOk result (size ≤ self.new.size) }
        // It asks for no more than is needed.
        ensures lean { self.new.size ≤ max self.old.size size }
    {
        lengthen(&mut self.links, size)
    }

    // The number behind s.
    pub fn following(&self, s: u32) -> u32
        requires here { has_number s self.now.numbers ≡ true }
        requires inner { s ≢ 10 }
        ensures { result ≡ following s self.now.numbers }
    {
        self.links[s as usize].next
    }

    // The number ahead of m.
    pub fn preceding(&self, m: u32) -> u32
        requires here { has_number m self.now.numbers ≡ true }
        requires inner { m ≢ 0 }
        ensures { result ≡ preceding m self.now.numbers }
    {
        self.links[m as usize].prev
    }

    // Takes x out.
    pub fn unlink(&mut self, x: u32)
        requires here { has_number x self.old.numbers ≡ true }
        requires inner { (x ≢ 0) × (x ≢ 10) }
        ensures out { self.new ≡ record self.old { numbers = without_number x self.old.numbers } }
        ensures gone { has_number x self.new.numbers ≡ false }
    {
        let before = self.links[x as usize].prev;
        let behind = self.links[x as usize].next;
        self.links[before as usize].next = behind;
        self.links[behind as usize].prev = before;
        self.count -= 1;
    }

    // Puts x behind s.
    pub fn put_after(&mut self, s: u32, x: u32)
        requires here { has_number s self.old.numbers ≡ true }
        requires inner { s ≢ 10 }
        requires apart { has_number x self.old.numbers ≡ false }
        requires inside { x < self.old.size }
        ensures put { self.new ≡ record self.old { numbers = put_after s x self.old.numbers } }
        ensures distinct { Distinct self.new.numbers }
    {
        let behind = self.links[s as usize].next;
        self.put_between(s, behind, x);
    }

    // Puts x ahead of m.
    pub fn put_before(&mut self, m: u32, x: u32)
        requires here { has_number m self.old.numbers ≡ true }
        requires inner { m ≢ 0 }
        requires apart { has_number x self.old.numbers ≡ false }
        requires inside { x < self.old.size }
        ensures put { self.new ≡ record self.old { numbers = put_before m (x ∷ []) self.old.numbers } }
        ensures distinct { Distinct self.new.numbers }
    {
        let before = self.links[m as usize].prev;
        self.put_between(before, m, x);
    }

    // Puts x between s and the number behind it. The caller has found one of the two beside the other: this reads no
    // link.
    fn put_between(&mut self, s: u32, behind: u32, x: u32)
        requires here { has_number s self.old.numbers ≡ true }
        requires inner { s ≢ 10 }
        requires next { behind ≡ following s self.old.numbers }
        requires apart { has_number x self.old.numbers ≡ false }
        requires inside { x < self.old.size }
        ensures put { self.new ≡ record self.old { numbers = put_after s x self.old.numbers } }
        ensures distinct { Distinct self.new.numbers }
    {
        self.links[s as usize].next = x;
        self.links[behind as usize].prev = x;
        self.links[x as usize] = Link {
            next: behind,
            prev: s,
        };
        self.count += 1;
    }

    // Puts this many numbers, from `first` on, ahead of `END`.
    pub fn append(&mut self, first: u32, count: u32)
        requires here { has_number 10 self.old.numbers ≡ true }
        requires apart { (k : ℕ) → first ≤ k → k < first + count → has_number k self.old.numbers ≡ false }
        requires inside { first + count ≤ self.old.size }
        requires few { first + count < 2 ^ 32 }
        ensures put { self.new ≡ record self.old { numbers = put_before 10 (upward first count) self.old.numbers } }
        ensures distinct { Distinct self.new.numbers }
    {
        // Reading a field brings in that the numbers differ, also if none is put in.
        let _known = &self.links;
        for x in first..first + count {
            self.put_before(END, x);
        }
    }
}

// Adds links until there are at least this many. If memory is refused, nothing is added.
fn lengthen(links: &mut Vec<Link>, size: usize) -> Result<(), AllocError>
    ensures longer { OnOk result (links.new.items ≡ links.old.items ++ replicate (size - length links.old.items) ends) }
    ensures same { OnErr result (links.new.items ≡ links.old.items) }
    // It asks for no more room than for these.
    ensures lean { OnErr result (vec_capacity links.old < size) }
{
    if size <= links.len() {
        return Ok(());
    }
    links.resize(size, ENDS)
}
