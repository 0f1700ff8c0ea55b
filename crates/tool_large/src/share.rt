//! The shares of the four threads.
ghost use Rattle.std.specs.Prelude.{◌≡◌, ◌≤◌, ◌<◌};
ghost use Rattle.tool_large.specs.Shares.{share};

/// The share of `count` things for the thread with this number, from 0 to 3: a fourth, and one more for the first
/// threads if there is a remainder.
pub fn share_of(count: usize, number: usize) -> usize
    ensures share { number < 4 → result ≡ share count number }
    ensures most { result ≤ count }
{
    let more = if number < count % 4 { 1 } else { 0 };
    count / 4 + more
}
