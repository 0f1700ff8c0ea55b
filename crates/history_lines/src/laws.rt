//! A law of what is said.
ghost use Rattle.history_lines.specs.Unread.{OnlyTheIssuedValue};

/// A get whose value was not read may have given any value, but only the one that its key was inserted with could be
/// allowed. So to judge it as a get of that value is to judge whether some value makes it allowed.
pub fn only_the_issued_value()
    ensures { OnlyTheIssuedValue }
{}
