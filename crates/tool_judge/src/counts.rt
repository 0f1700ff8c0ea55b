//! How often each result was returned.
ghost use Rattle.std.specs.Prelude.{◌≡◌};
ghost use Rattle.tool_judge.specs.Counts.{counted, number_of, CountsBoth};
ghost use Rattle.tool_judge.specs.declared.counts.Count.{Count};

use std::fmt;

/// A thing that is counted.
#[derive(Clone, Copy, Debug, PartialEq, Eq)]
pub enum Count {
    Inserts,
    Fulls,
    Gets,
    BadKeys,
    Gones,
    Crowdeds,
    HoldsFulls,
    Reads,
    Looks,
    Removes,
    Releases,
    Adoptions,
    Takens,
    Leaves,
    Waitings,
    Begun,
    Acts,
    Stands,
    Marks,
    Keys,
    Entries,
    Pages,
    Live,
    Marked,
    Retired,
    Queued,
    Ends,
}

const NAMES: [&str; 27] = [
    "inserts",
    "refused as Full",
    "gets",
    "refused as BadKey",
    "refused as Gone",
    "refused as Crowded",
    "refused as HoldsFull",
    "reads",
    "looks",
    "removes",
    "releases",
    "shards adopted",
    "refused as Taken",
    "shards left",
    "refused as Waiting",
    "begun by hand",
    "steps by hand",
    "stops in the middle",
    "marked by hand",
    "keys judged",
    "answers judged",
    "pages summed",
    "slots live at the end",
    "slots marked at the end",
    "slots retired at the end",
    "slots queued at the end",
    "ends reported",
];

/// A number for each thing that is counted.
#[derive(Clone, Copy, Debug, PartialEq, Eq)]
pub struct Counts {
    numbers: [u64; 27],
}

impl Counts {
    /// Counts of 0.
    pub fn new() -> Counts
        ensures { (count : Count) → number_of result count ≡ 0 }
    {
        Counts { numbers: [0; 27] }
    }

    /// Counts `more` of a thing, up to the greatest number of 64 bits.
    pub fn add(&mut self, count: Count, more: u64)
        ensures { self.new ≡ counted count more self.old }
    {
        let place = count as usize;
        if place < 27 {
            self.numbers[place] = self.numbers[place].saturating_add(more);
        }
    }

    /// Counts one more.
    pub fn one(&mut self, count: Count)
        ensures { self.new ≡ counted count 1 self.old }
    {
        self.add(count, 1);
    }

    /// Adds the counts of another, up to the greatest number of 64 bits each.
    pub fn take_in(&mut self, other: &Counts)
        ensures { CountsBoth self.old other.now self.new }
    {
        for (place, more) in other.numbers.iter().enumerate() {
            self.numbers[place] = self.numbers[place].saturating_add(*more);
        }
    }

    /// The number of a thing.
    pub fn of(&self, count: Count) -> u64
        ensures { result ≡ number_of self.now count }
    {
        match self.numbers.get(count as usize) {
            Some(number) => *number,
            None => 0,
        }
    }
}

impl fmt::Display for Counts {
    fn fmt<W: fmt::Write>(&self, f: &mut fmt::Formatter<W>) -> fmt::Result {
        for (name, number) in NAMES.iter().zip(self.numbers.iter()) {
            writeln!(f, "{name} {number}")?;
        }
        Ok(())
    }
}
