//! Facts that may hold of a heap.
use sh_accounts::page;
use sh_core::{Accounts, World};
use sh_history::Entry;
use sh_key::Tiny;
use sh_step::Part;

/// A fact that may hold of a heap. Its pages are the first ones of their shards.
#[derive(Drop, Debug)]
pub enum Fact {
    /// The log has this entry.
    Logged(Entry),
    /// The shard's page has this class.
    Class(u32, u32),
    /// The number of live slots of the shard's page.
    Live(u32, u32),
    /// The number of slots of the shard's page that are the owner's.
    Mine(u32, u32),
    /// The number of queued slots of the shard's page.
    Queued(u32, u32),
    /// The number of retired slots of the shard's page.
    Retired(u32, u32),
    /// The pass owns this shard.
    Owns(u32, u64),
    /// Whether the pass has armed the page of this number.
    Armed(u32, u64, bool),
    /// The pass has this cursor on the heap's first page.
    Cursor(u32, Option<u64>),
    /// The word with this number has this value.
    Word(usize, u64),
}

// The accounts of the shard's first page, if it has a class.
fn accounts(world: &World<Tiny>, shard: u32) -> Option<Accounts> {
    match page(world, shard, 0) {
        Some(accounts) if accounts.class.is_some() => Some(accounts),
        _ => None,
    }
}

// The class of the shard's first page.
fn class(world: &World<Tiny>, shard: u32) -> Option<u32> {
    accounts(world, shard)?.class
}

// The part of a pass.
fn part(world: &World<Tiny>, pass: u32) -> Option<&Part> {
    world.parts().get(pass as usize)
}

impl Fact {
    // Whether the fact holds of the accounts of its page.
    fn is_so_of_page(&self, accounts: &Accounts) -> bool {
        match self {
            Fact::Live(_, count) => accounts.live == *count,
            Fact::Mine(_, count) => accounts.mine == *count,
            Fact::Queued(_, count) => accounts.queued == *count,
            Fact::Retired(_, count) => accounts.retired == *count,
            _ => false,
        }
    }

    // Whether the fact holds of its pass's part.
    fn is_so_of_part(&self, part: &Part) -> bool {
        match self {
            Fact::Owns(_, shard) => part.owned() == Some(*shard),
            Fact::Armed(_, page, armed) => part.has_armed(*page) == *armed,
            Fact::Cursor(_, cursor) => part.cursor(0) == *cursor,
            _ => false,
        }
    }

    /// Whether the fact holds.
    pub fn is_so(&self, world: &World<Tiny>) -> bool {
        match self {
            Fact::Logged(entry) => world.log().contains(entry),
            Fact::Class(shard, number) => class(world, *shard) == Some(*number),
            Fact::Live(shard, _)
            | Fact::Mine(shard, _)
            | Fact::Queued(shard, _)
            | Fact::Retired(shard, _) => match accounts(world, *shard) {
                Some(accounts) => self.is_so_of_page(&accounts),
                None => false,
            },
            Fact::Owns(pass, _) | Fact::Armed(pass, _, _) | Fact::Cursor(pass, _) => {
                match part(world, *pass) {
                    Some(part) => self.is_so_of_part(part),
                    None => false,
                }
            }
            Fact::Word(number, word) => world.words().get(*number) == Some(word),
        }
    }
}

/// Whether all of these facts hold.
pub fn are_so(facts: &[Fact], world: &World<Tiny>) -> bool {
    for fact in facts {
        if !fact.is_so(world) {
            return false;
        }
    }
    true
}
