//! The judge of a round: what all calls returned, key by key, and the accounts of each page.
use crate::ends::Ends;
use crate::pass::{LonePass, PageName};
use sh_key::KeyLayout;
use sh_shape::Shape;
use std::alloc::{AllocError, Global};
use tool_judge::counts::{Count, Counts};
use tool_judge::fault::{Fault, Wrong};
use tool_judge::judge::judged;
use tool_judge::line::Line;
use tool_judge::tally::{Tally, agrees, is_filled};
use tool_judge::walk::Walk;

/// What the judge of a round knows of its heap.
#[derive(Clone, Copy)]
pub struct Judge<'s> {
    pub alloc: Global,
    /// The number of its passes.
    pub passes: u32,
    /// The shapes of all chunks that it may have: one, if it does not grow.
    pub shapes: &'s [Shape],
    /// Each shard is full for values of this class.
    pub class: u32,
}

impl Judge<'_> {
    // Judges the lines of the first key, and its end, counts its slot, and returns the lines of the other keys. No walk
    // missed it.
    fn judge_key<'l, P: LonePass>(
        &self,
        lines: &'l [Line],
        walks: &[Walk],
        key: u64,
        ends: &mut Ends,
        tallies: &mut [Tally],
        counts: &mut Counts,
    ) -> Result<&'l [Line], Fault> {
        let end = lines
            .iter()
            .position(|line| line.key != key)
            .unwrap_or(lines.len());
        let guard_max = P::Layout::GUARD_MAX;
        let calls = judged(self.alloc, key, &lines[..end], self.passes, guard_max)?;
        if let Some(walk) = walks.iter().find(|walk| walk.misses(key, calls.as_slice())) {
            return Err(Fault::Wrong(Wrong::Missed(walk.pass, key)));
        }
        ends.judge::<P>(key, calls.as_slice())?;
        let (chunk, within) = P::split(key);
        let Some(tally) = tallies.get_mut(chunk as usize) else {
            return Err(Fault::Wrong(Wrong::NoKey(key)));
        };
        tally.add::<P::Layout>(key, within, calls.as_slice())?;
        counts.one(Count::Keys);
        counts.add(Count::Entries, calls.len() as u64);
        Ok(&lines[end..])
    }

    // The tallies of all chunks, of which no slot is counted yet.
    fn no_tallies(&self) -> Result<Vec<Tally>, AllocError> {
        let mut tallies = Vec::new(self.alloc);
        for shape in self.shapes {
            tallies.push(Tally::new(self.alloc, shape)?)?;
        }
        Ok(tallies)
    }

    // Judges the lines key by key, and counts the slot of each key in the tally of its chunk.
    fn judge_all<P: LonePass>(
        &self,
        lines: &[Line],
        walks: &[Walk],
        mut ends: Ends,
        counts: &mut Counts,
    ) -> Result<Vec<Tally>, Fault> {
        let mut tallies = self.no_tallies()?;
        let mut rest = lines;
        for _ in 0..lines.len() {
            let Some(first) = rest.first() else {
                break;
            };
            let tallies = tallies.as_mut_slice();
            rest = self.judge_key::<P>(rest, walks, first.key, &mut ends, tallies, counts)?;
        }
        ends.judge_rest()?;
        Ok(tallies)
    }

    // Compares the accounts of a page with those that follow from what the calls returned.
    fn audit_page<P: LonePass>(
        &self,
        whole: &mut P::Whole,
        tally: &Tally,
        name: PageName,
        counts: &mut Counts,
    ) -> Result<(), Fault> {
        let PageName { chunk, shard, page } = name;
        let wrong = Fault::Wrong(Wrong::Accounts(chunk, shard, page));
        let (Some(accounts), Some(expected)) = (P::accounts(whole, name), tally.of(shard, page))
        else {
            return Err(wrong);
        };
        if !agrees(&accounts, expected) {
            return Err(wrong);
        }
        if !is_filled(&accounts, self.class) {
            return Err(Fault::Wrong(Wrong::Room(chunk, shard, page)));
        }
        counts.one(Count::Pages);
        counts.add(Count::Live, u64::from(accounts.live));
        counts.add(Count::Marked, u64::from(accounts.marked));
        counts.add(Count::Retired, u64::from(accounts.retired));
        counts.add(Count::Queued, u64::from(accounts.queued));
        Ok(())
    }

    // The same of each page of a chunk.
    fn audit_chunk<P: LonePass>(
        &self,
        whole: &mut P::Whole,
        chunk: u32,
        shape: &Shape,
        tally: &Tally,
        counts: &mut Counts,
    ) -> Result<(), Fault> {
        for shard in 0..shape.shards() {
            for page in 0..shape.pages() {
                let name = PageName { chunk, shard, page };
                self.audit_page::<P>(whole, tally, name, counts)?;
            }
        }
        Ok(())
    }

    // The same of each page of the heap.
    fn audit<P: LonePass>(
        &self,
        whole: &mut P::Whole,
        tallies: &[Tally],
        counts: &mut Counts,
    ) -> Result<(), Fault> {
        let mut chunk = 0u32;
        for (shape, tally) in self.shapes.iter().zip(tallies.iter()) {
            self.audit_chunk::<P>(whole, chunk, shape, tally, counts)?;
            chunk = chunk.wrapping_add(1);
        }
        Ok(())
    }

    /// Judges what the calls of all passes returned, what their walks met and which keys they ended, and sorts the lines
    /// by their keys. The carrier is all passes joined.
    pub fn verdict<P: LonePass>(
        &self,
        carrier: P,
        lines: &mut Vec<Line>,
        walks: &[Walk],
        ends: Ends,
        counts: &mut Counts,
    ) -> Result<(), Fault> {
        let mut whole = carrier.whole()?;
        lines.sort_by_key(|line| line.key)?;
        let tallies = self.judge_all::<P>(lines.as_slice(), walks, ends, counts)?;
        self.audit::<P>(&mut whole, tallies.as_slice(), counts)
    }
}
