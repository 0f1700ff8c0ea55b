//! Tags: 8 bits of the caller's on a key of layout `Tagged`.
ghost use Rattle.c_exports.specs.WholeHeap.{TagTold, UntagTold};

use crate::codes::OK;
use sh_key::Tagged;
use sh_value::Refusal;

/// Puts a tag on a key.
#[unsafe(no_mangle)]
pub extern "C" fn shardheap_raw_tag(key: u64, tag: u32, number: &mut u64) -> u32
    ensures { TagTold key tag result number.old number.new }
{
    if key >= 1 << 52 || tag >= 256 {
        return Refusal::BadKey.number();
    }
    *number = Tagged::tag(key, tag as u8);
    OK
}

/// Writes the key and the tag of a number.
#[unsafe(no_mangle)]
pub extern "C" fn shardheap_raw_untag(number: u64, key: &mut u64, tag: &mut u32) -> u32
    ensures { UntagTold number result key.old key.new tag.old tag.new }
{
    match Tagged::untag(number) {
        Some((found, untagged)) => {
            *key = untagged;
            *tag = u32::from(found);
            OK
        }
        None => Refusal::BadKey.number(),
    }
}
