//! The top of a stack.
ghost use Rattle.std.specs.Prelude.{◌≡◌, ◌^◌, ◌+◌, ◌<◌};
ghost use Rattle.sh_stack.specs.Stack.{top_word, top_item, link_over};

/// The top of a stack with no item.
pub const TOP_NONE: u64 = 0;

/// The top that names an item.
pub fn top_word(item: u64) -> u64
    requires { item + 1 < 2 ^ 64 }
    ensures { result ≡ top_word item }
{
    item + 1
}

/// The item that a top names, if the stack has one.
pub fn top_item(top: u64) -> Option<u64>
    ensures { result ≡ top_item top }
{
    top.checked_sub(1)
}

/// The link that an item stores, by the top that it found when it was put.
pub fn link_over(top: u64) -> u64
    requires { top + 1 < 2 ^ 64 }
    ensures { result ≡ link_over top }
{
    top + 1
}

#[cfg(test)]
mod tests {
    use super::*;

    #[test]
    fn tops_name_items(rt: HostRuntime) {
        assert_eq!(rt; top_item(TOP_NONE), None);
        assert_eq!(rt; top_item(1), Some(0));
        assert_eq!(rt; top_item(48), Some(47));
        assert_eq!(rt; top_word(0), 1);
        assert_eq!(rt; top_word(47), 48);
        assert_eq!(rt; link_over(TOP_NONE), 1);
        assert_eq!(rt; link_over(48), 49);
    }
}
