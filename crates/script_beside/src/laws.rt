//! How the replies of mode heap relate to those of mode plain.
ghost use Rattle.script_beside.specs.Law.{HeapIsBesidePlain};

/// Let lines run one after the other on a running heap, and let the tale of all its passes have their answers. Then
/// each line has the answer that mode plain gives it, with a few exceptions. These are the number of a key, a number
/// whose place the heap does not have, and refusals that only a running heap has. The refusals are Taken and Memory at
/// an adopt, Full and Memory at an insert. An adopt is ok if no pass owns the shard, and `Taken` if another one does.
/// Which shard each pass owns follows from the answers to the lines before.
///
/// If no line has a key as a number, mode plain's own run gives the same answers. The exceptions are the numbers of the
/// keys that inserts return, and these refusals.
pub fn heap_is_beside_plain()
    ensures { HeapIsBesidePlain }
{}
