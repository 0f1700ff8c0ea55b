//! The head word of a page: the top of its stack, and whether it is armed.
ghost use Rattle.std.specs.Prelude.{◌≡◌, ◌^◌, ◌*◌, ◌<◌};
ghost use Rattle.sh_bell.specs.Bell.{is_armed, top_of, head_word};

/// The head word of an armed page whose stack has no slot.
pub const ARMED: u64 = 1;

/// Whether a head word says that the page is armed.
pub fn is_armed(head: u64) -> bool
    ensures { result ≡ is_armed head }
{
    head % 2 == 1
}

/// The top of the page's stack that a head word has.
pub fn top_of(head: u64) -> u64
    ensures { result ≡ top_of head }
{
    head / 2
}

/// The head word of a page that is not armed and has this top.
pub fn head_word(top: u64) -> u64
    requires { top * 2 < 2 ^ 64 }
    ensures { result ≡ head_word top }
{
    top * 2
}

#[cfg(test)]
mod tests {
    use super::*;

    #[test]
    fn head_words_have_a_top_and_a_flag(rt: HostRuntime) {
        assert!(rt; is_armed(ARMED));
        assert_eq!(rt; top_of(ARMED), 0);
        assert_eq!(rt; head_word(1), 2);
        assert!(rt; !is_armed(96));
        assert!(rt; is_armed(97));
        assert_eq!(rt; top_of(97), 48);
    }
}
