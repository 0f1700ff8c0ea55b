//! What follows from the fact that names come first.
ghost use Rattle.script_calls.specs.Told.{NamedIsRemoved, PostedIsRemoved};

/// What a pass did before it bound a name happens before what is returned to a pass that waited for the name, or is on
/// it. So a line on a name gets `Gone` only if the key was removed before. The same holds of a line after the wait, if
/// the key was inserted before the name was bound.
pub fn names_come_first()
    ensures named { NamedIsRemoved }
    ensures posted { PostedIsRemoved }
{}
