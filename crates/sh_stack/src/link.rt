//! The links between the items of a stack.
ghost use Rattle.std.specs.Prelude.{◌≡◌};
ghost use Rattle.sh_stack.specs.Stack.{link_of, link_item};

/// What an item's link says.
#[derive(Clone, Copy, Debug, PartialEq, Eq)]
pub enum Link {
    /// Nothing yet: the item was put, and its link is still to be stored.
    Unwritten,
    /// The item was put on an empty stack.
    End,
    /// The item was put on this one.
    Next(u64),
}

impl Link {
    /// What a link's word says: 0 that it is not written, 1 the end, n + 2 item n.
    pub fn of(word: u64) -> Link
        ensures link { result ≡ link_of word }
    {
        match word {
            0 => Link::Unwritten,
            1 => Link::End,
            _ => Link::Next(word - 2),
        }
    }
}

/// The item that a link's word names, if it is written and names one.
pub fn link_item(word: u64) -> Option<u64>
    ensures { result ≡ link_item word }
{
    match Link::of(word) {
        Link::Next(item) => Some(item),
        Link::Unwritten | Link::End => None,
    }
}

#[cfg(test)]
mod tests {
    use super::*;

    #[test]
    fn links_name_items(rt: HostRuntime) {
        assert_eq!(rt; Link::of(0), Link::Unwritten);
        assert_eq!(rt; Link::of(1), Link::End);
        assert_eq!(rt; Link::of(2), Link::Next(0));
        assert_eq!(rt; Link::of(49), Link::Next(47));
        assert_eq!(rt; link_item(0), None);
        assert_eq!(rt; link_item(1), None);
        assert_eq!(rt; link_item(2), Some(0));
    }
}
