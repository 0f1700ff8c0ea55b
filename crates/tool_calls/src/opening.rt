//! The heap that the header of a script opens.
use crate::line::{Trouble, numbers_in};
use c_handles::heap::LayoutName;
use c_handles::{HeldHeap, HeldPass};
use sh_script::Cause;
use sh_value::Refusal;
use std::alloc::Global;

/// Whether the words are `version 3`, with which a script of this program begins.
pub fn is_version(words: &[&[u8]]) -> bool {
    words.len() == 2 && words[0] == b"version".as_slice() && words[1] == b"3".as_slice()
}

fn layout_named(word: &[u8]) -> Option<LayoutName> {
    match word {
        b"wide" => Some(LayoutName::Wide),
        b"tagged" => Some(LayoutName::Tagged),
        b"deep" => Some(LayoutName::Deep),
        b"tiny" => Some(LayoutName::Tiny),
        _ => None,
    }
}

// A number of the header. One that is too large for it is of no shape.
fn small(number: u64) -> u32 {
    u32::try_from(number).unwrap_or(u32::MAX)
}

// The heap was opened, or is refused.
fn opened(answer: Result<HeldHeap, Refusal>) -> Result<HeldHeap, Trouble> {
    match answer {
        Ok(heap) => Ok(heap),
        Err(Refusal::Memory) => Err(Trouble::Memory),
        Err(_) => Err(Trouble::BadShape),
    }
}

// `heap LAYOUT SHARDS SEGMENTS PASSES`
fn open_fixed(alloc: Global, layout: LayoutName, numbers: &[u64]) -> Result<HeldHeap, Trouble> {
    match numbers {
        [shards, segments, passes] => {
            let (shards, segments, passes) = (small(*shards), small(*segments), small(*passes));
            opened(HeldHeap::open_shaped(alloc, layout, shards, segments, passes))
        }
        _ => Err(Trouble::Because(Cause::Header)),
    }
}

// `growing OWNERS VALUES WORDS PASSES CHUNKS`
fn open_growing(alloc: Global, numbers: &[u64]) -> Result<HeldHeap, Trouble> {
    match numbers {
        [owners, values, words, passes, chunks] => {
            let (owners, words, passes) = (small(*owners), small(*words), small(*passes));
            opened(HeldHeap::open_growing(alloc, owners, *values, words, passes, small(*chunks)))
        }
        _ => Err(Trouble::Because(Cause::Header)),
    }
}

// The numbers after the words of a header.
fn numbers_of_header(alloc: Global, words: &[&[u8]]) -> Result<Vec<u64>, Trouble> {
    match numbers_in(alloc, words) {
        Err(Trouble::Because(_)) => Err(Trouble::Because(Cause::Header)),
        answer => answer,
    }
}

// The heap of a header.
fn heap_of(alloc: Global, words: &[&[u8]]) -> Result<HeldHeap, Trouble> {
    let Some((first, rest)) = words.split_first() else {
        return Err(Trouble::Because(Cause::Header));
    };
    if *first == b"growing".as_slice() {
        let numbers = numbers_of_header(alloc, rest)?;
        return open_growing(alloc, numbers.as_slice());
    }
    let Some((second, rest)) = rest.split_first() else {
        return Err(Trouble::Because(Cause::Header));
    };
    let Some(layout) = layout_named(*second) else {
        return Err(Trouble::Because(Cause::Header));
    };
    if *first != b"heap".as_slice() {
        return Err(Trouble::Because(Cause::Header));
    }
    let numbers = numbers_of_header(alloc, rest)?;
    open_fixed(alloc, layout, numbers.as_slice())
}

/// Opens the heap of a header, and takes all its passes: pass 0 of the script is the first one.
pub fn open(alloc: Global, words: &[&[u8]]) -> Result<Vec<HeldPass>, Trouble> {
    let heap = heap_of(alloc, words)?;
    let mut passes = Vec::new(alloc);
    for _pass in 0..heap.passes() {
        let Ok(Some(pass)) = heap.take(alloc) else {
            return Err(Trouble::Memory);
        };
        if passes.push(pass).is_err() {
            return Err(Trouble::Memory);
        }
    }
    Ok(passes)
}
