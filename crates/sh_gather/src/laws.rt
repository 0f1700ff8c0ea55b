//! What the keys of a page are, what notes leave of a view, and what is used of the crates below.
ghost use Rattle.sh_core.specs.Refines.{Always, Refines};
ghost use Rattle.sh_table.specs.Reached.{PlansAreLawful};
ghost use Rattle.sh_gather.specs.Gathering.{NotesKeepHistories};
ghost use Rattle.sh_gather.specs.PageKeys.{PageKeysAreAll};

use sh_core::refines_map;
use sh_table::plans_are_lawful;

/// Each key that names a slot of the page is listed once among the page's keys, and each listed key is such a key.
pub fn page_keys_are_all()
    ensures { PageKeysAreAll }
{
    plans_are_lawful();
}

/// A view that noted more words has each history that it had.
pub fn notes_keep_histories()
    ensures { NotesKeepHistories }
{}

// The clauses of the core's theorem in one record, and the laws of plans.
pub(crate) fn core_refines()
    ensures { Always (λ plan w l. Refines plan w l) × PlansAreLawful }
{
    refines_map();
    plans_are_lawful();
}
