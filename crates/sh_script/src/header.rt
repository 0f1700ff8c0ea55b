//! The header, and the version line that may come before it.
ghost use Rattle.std.specs.Prelude.{◌≡◌, map};
ghost use Rattle.sh_script.specs.Trouble.{Gives};
ghost use Rattle.sh_script.specs.HeaderMeaning.{layout_of};
ghost use Rattle.sh_script.specs.Headers.{shape_of, is_version_line, tag_of, layout_and_tag, header_of, opening_of};

use crate::arguments::{next, next_number, two};
use crate::fault::Cause;
use crate::trouble::Trouble;
use crate::words::number;
use sh_key::{KeyLayout, Tagged, Tiny, Wide};
use sh_shape::{Shape, fits};

/// A layout by its name.
#[derive(Clone, Copy, Debug, PartialEq, Eq)]
pub enum Layout {
    /// `tiny`
    Tiny,
    /// `wide`
    Wide,
    /// `tagged`, in scripts of version 2 only.
    Tagged,
}

/// What the header of a script gives.
#[derive(Clone, Copy, Debug, PartialEq, Eq)]
pub struct Header {
    /// How keys are packed.
    pub layout: Layout,
    /// How many shards, segments and passes there are.
    pub shape: Shape,
    /// The user's 8 bits of each key, with layout `tagged` and no other.
    pub tag: Option<u8>,
}

/// The versions of scripts.
#[derive(Clone, Copy, Debug, PartialEq, Eq)]
pub enum Version {
    /// Version 1, which has no version line.
    One,
    /// After the line `version 2`.
    Two,
}

/// How far the reading of a script has got before its first call or event.
#[derive(Clone, Copy, Debug, PartialEq, Eq)]
pub enum Opening {
    /// Nothing was read.
    Unread,
    /// The line `version 2` was read, and the header follows.
    Versioned,
    /// The header was read, and calls or events follow.
    Headed(Header),
}

// The shape with these numbers, if they are a shape and it fits the layout.
fn shape_in<L: KeyLayout>(shards: u64, segments: u64, passes: u64) -> Option<Shape>
    ensures { result ≡ shape_of L.layout (record { shards = shards; segments = segments; passes = passes }) }
{
    let shards = u32::try_from(shards).ok()?;
    let segments = u32::try_from(segments).ok()?;
    let passes = u32::try_from(passes).ok()?;
    let shape = Shape::new(shards, segments, passes).ok()?;
    fits::<L>(&shape).then_some(shape)
}

// The same for a layout by its name.
fn shape(layout: Layout, shards: u64, segments: u64, passes: u64) -> Option<Shape>
    ensures { result ≡ shape_of (layout_of layout) (record { shards = shards; segments = segments; passes = passes }) }
{
    match layout {
        Layout::Tiny => shape_in::<Tiny>(shards, segments, passes),
        Layout::Wide => shape_in::<Wide>(shards, segments, passes),
        Layout::Tagged => shape_in::<Tagged>(shards, segments, passes),
    }
}

// The number of 8 bits after the word `tag`.
fn tag(words: &[&[u8]]) -> Option<u8>
    ensures { result ≡ tag_of (map (λ w. w.now) words.now) }
{
    let (word, tag) = two(words)?;
    if word != b"tag".as_slice() {
        return None;
    }
    u8::try_from(number(tag)?).ok()
}

// The layout of this name, and the tag that the words after the shape give. Only version 2 has `tagged`, and only
// `tagged` has a tag.
fn layout_and_tag(version: Version, name: &[u8], words: &[&[u8]]) -> Option<(Layout, Option<u8>)>
    ensures { result ≡ layout_and_tag version name.now (map (λ w. w.now) words.now) }
{
    if name == b"tagged".as_slice() && version == Version::Two {
        return Some((Layout::Tagged, Some(tag(words)?)));
    }
    if !words.is_empty() {
        return None;
    }
    if name == b"tiny".as_slice() {
        Some((Layout::Tiny, None))
    } else if name == b"wide".as_slice() {
        Some((Layout::Wide, None))
    } else {
        None
    }
}

/// The header that the words of a line give, in a script of this version.
#[tactic(auto, unfolding(crate::specs::Headers::header_of))]
pub fn read_header(version: Version, words: &[&[u8]]) -> Result<Header, Trouble>
    ensures { Gives (λ h. h) result (header_of version (map (λ w. w.now) words.now)) }
{
    let (heap, rest) = next(Cause::Header, words)?;
    let (name, rest) = next(Cause::Header, rest)?;
    let (shards, rest) = next_number(Cause::Header, rest)?;
    let (segments, rest) = next_number(Cause::Header, rest)?;
    let (passes, rest) = next_number(Cause::Header, rest)?;
    if heap != b"heap".as_slice() {
        return Err(Trouble::Because(Cause::Header));
    }
    let Some((layout, tag)) = layout_and_tag(version, name, rest) else {
        return Err(Trouble::Because(Cause::Header));
    };
    match shape(layout, shards, segments, passes) {
        Some(shape) => Ok(Header { layout, shape, tag }),
        None => Err(Trouble::BadShape),
    }
}

// Whether the words are `version 2`.
fn is_version_line(words: &[&[u8]]) -> bool
    ensures { result ≡ is_version_line (map (λ w. w.now) words.now) }
{
    match two(words) {
        Some((word, version)) => word == b"version".as_slice() && version == b"2".as_slice(),
        None => false,
    }
}

/// What the first line that says something opens.
pub fn read_opening(words: &[&[u8]]) -> Result<Opening, Trouble>
    ensures { Gives (λ o. o) result (opening_of (map (λ w. w.now) words.now)) }
{
    if is_version_line(words) {
        return Ok(Opening::Versioned);
    }
    Ok(Opening::Headed(read_header(Version::One, words)?))
}
