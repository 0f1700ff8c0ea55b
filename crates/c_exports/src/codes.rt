//! The codes that calls return.
ghost use Rattle.std.specs.Prelude.{◌≡◌};
ghost use Rattle.c_exports.specs.Told.{code_of};
ghost use Rattle.sh_value.specs.Refusal.{refusal_number};

use sh_value::Refusal;

/// The call was done.
pub const OK: u32 = 0;

/// The handle holds nothing.
pub const EMPTY: u32 = 14;

/// The handle that is to be filled holds something.
pub const OCCUPIED: u32 = 15;

/// No pass of the heap is free: each was taken or lost.
pub const NO_PASS: u32 = 16;

/// The value has more words than there is room for.
pub const SHORT: u32 = 17;

/// There is no layout of this number.
pub const BAD_LAYOUT: u32 = 19;

/// The pass owns a shard, which it has to leave first.
pub const OWNS: u32 = 20;

/// A pass is taken or lost, so the heap as a whole is not known.
pub const AWAY: u32 = 21;

/// The heap has no such page.
pub const NO_PAGE: u32 = 22;

/// No key is live from that place on.
pub const NO_KEY: u32 = 28;

/// The code of a result.
pub(crate) fn code<T>(answer: &Result<T, Refusal>) -> u32
    ensures { result ≡ code_of answer.now }
{
    match answer {
        Ok(_) => OK,
        Err(refusal) => refused(*refusal),
    }
}

// The code of a refusal. It is a call of its own, so that a call that is done has no instructions that pick a code.
#[cold]
#[inline(never)]
fn refused(refusal: Refusal) -> u32
    ensures { result ≡ refusal_number refusal }
{
    refusal.number()
}
