//! Pages of a shard, by their numbers there and over the whole heap.
ghost use Rattle.std.specs.Prelude.{◌≡◌, ◌^◌, ◌+◌, ◌*◌, ◌<◌};
ghost use Rattle.sh_bell.specs.Bell.{shard_of_page, local_of, named_over_heap};

/// The shard of a page, if each shard has `pages` pages.
pub fn shard_of_page(pages: u64, page: u64) -> u64
    requires { 0 < pages }
    ensures { result ≡ shard_of_page pages page }
{
    page / pages
}

/// The number of a page in its shard, if each shard has `pages` pages.
pub fn local_of(pages: u64, page: u64) -> u64
    requires { 0 < pages }
    ensures { result ≡ local_of pages page }
{
    page % pages
}

/// A word of a shard that names its page p as p + `base`, and none below `base`. The result names the page by its
/// number over the whole heap, if each shard has `pages` pages.
pub fn named_over_heap(pages: u64, shard: u64, base: u64, word: u64) -> u64
    requires { shard * pages + word < 2 ^ 64 }
    ensures { result ≡ named_over_heap pages shard base word }
{
    if word < base {
        word
    } else {
        shard * pages + (word - base) + base
    }
}

#[cfg(test)]
mod tests {
    use super::*;

    #[test]
    fn pages_of_the_second_shard(rt: HostRuntime) {
        assert_eq!(rt; shard_of_page(8, 11), 1);
        assert_eq!(rt; local_of(8, 11), 3);
        assert_eq!(rt; named_over_heap(8, 1, 1, 0), 0);
        assert_eq!(rt; named_over_heap(8, 1, 1, 4), 12);
        assert_eq!(rt; named_over_heap(8, 1, 2, 1), 1);
        assert_eq!(rt; named_over_heap(8, 1, 2, 5), 13);
    }
}
