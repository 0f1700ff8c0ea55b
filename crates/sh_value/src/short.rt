//! Which arrays are short enough to be a record.
ghost use Rattle.std.specs.Prelude.{◌≡◌, nat_lt, true, refl};

/// That an array of `N` words is short enough to be a record: at most 15, as the first of the 16 words of a value is
/// the record's kind.
pub trait Short<const N: usize> {
    ghost short: { nat_lt N 16 ≡ true };
}

/// The lengths of the arrays that are records: 1 to 15.
#[derive(Drop)]
pub struct Length;

impl Short<1> for Length {
    ghost short = { refl };
}

impl Short<2> for Length {
    ghost short = { refl };
}

impl Short<3> for Length {
    ghost short = { refl };
}

impl Short<4> for Length {
    ghost short = { refl };
}

impl Short<5> for Length {
    ghost short = { refl };
}

impl Short<6> for Length {
    ghost short = { refl };
}

impl Short<7> for Length {
    ghost short = { refl };
}

impl Short<8> for Length {
    ghost short = { refl };
}

impl Short<9> for Length {
    ghost short = { refl };
}

impl Short<10> for Length {
    ghost short = { refl };
}

impl Short<11> for Length {
    ghost short = { refl };
}

impl Short<12> for Length {
    ghost short = { refl };
}

impl Short<13> for Length {
    ghost short = { refl };
}

impl Short<14> for Length {
    ghost short = { refl };
}

impl Short<15> for Length {
    ghost short = { refl };
}
