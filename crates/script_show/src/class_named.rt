//! The class that a class word names.
ghost use Rattle.std.specs.Prelude.{◌<◌, IfSome};
ghost use Rattle.sh_shape.specs.Classes.{class_count};

use sh_shape::CLASS_COUNT;

/// The class that a class word names: class c by c + 1. None if the page is blank, which is 0.
pub fn class_named(word: u64) -> Option<u32>
    ensures { IfSome result (λ class. class < class_count) }
{
    match word {
        1..=CLASS_COUNT => Some(word as u32 - 1),
        _ => None,
    }
}
