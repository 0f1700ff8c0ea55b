//! Classes of slots: a value lies in a slot of the least class that is wide enough for it.
ghost use Rattle.std.specs.Prelude.{◌≡◌, ◌<◌, ◌*◌, ◌≤◌, nat_le, position, MatchOption};
ghost use Rattle.sh_shape.specs.Classes.{class_count, width, slots, class_of, IsClassOf};
ghost use Rattle.sh_shape.specs.Places.{slot_places, payload_words};

/// How many classes there are. It is also the greatest class word: the class word of a blank page is 0, and that of
/// another page is 1 more than its class.
pub const CLASS_COUNT: u64 = 8;

const WIDTHS: [u32; 8] = [1, 2, 3, 4, 6, 8, 12, 16];

const SLOTS: [u32; 8] = [48, 24, 16, 12, 8, 6, 4, 3];

/// The class of a value of this many words: the least class whose width is at least the length. Above 16 words there is
/// none.
pub fn class_of(len: usize) -> Option<u32>
    ensures is { result ≡ class_of len }
    ensures least { MatchOption result (16 < len) (IsClassOf len) }
{
    match first_at_least(len, &WIDTHS) {
        Some(class) => Some(class as u32),
        None => None,
    }
}

// The first position with a width that is at least the length.
fn first_at_least(len: usize, widths: &[u32]) -> Option<usize>
    ensures { result ≡ position (λ words. nat_le len words) widths.now }
{
    widths.iter().position(|width| len <= *width as usize)
}

/// How many words a slot of the class has, from 1 to 16.
pub fn width(class: u32) -> u32
    requires { class < class_count }
    ensures is { result ≡ width class }
    ensures some { 1 ≤ result }
    ensures few { result ≤ 16 }
{
    WIDTHS[class as usize]
}

/// How many slots a page of the class has, from 3 to 48: together they have at most the page's 48 payload words.
pub fn slots(class: u32) -> u32
    requires { class < class_count }
    ensures is { result ≡ slots class }
    ensures some { 3 ≤ result }
    ensures few { result ≤ slot_places }
    ensures fit { result * width class ≤ payload_words }
{
    SLOTS[class as usize]
}
