// What a load puts a value into, with no value in between: the caller's words, or a place among several loads.
ghost use Rattle.std.specs.Prelude.{◌≡◌};
ghost use Rattle.c_exports.specs.Rooms.{LoadedTakes, WordsTake};

use crate::batches::Loaded;
use crate::codes::OK;
use crate::values::write_words;
use sh_pass::Room;

/// The caller's words, how many words the value has, and the code of the load.
#[derive(Drop)]
pub(crate) struct WordsRoom<'a> {
    words: &'a mut [u64],
    count: &'a mut u64,
    pub(crate) code: u32,
}

impl<'a> WordsRoom<'a> {
    #[inline(always)]
    pub(crate) fn new(words: &'a mut [u64], count: &'a mut u64) -> WordsRoom<'a>
        ensures words { result.words.ghost_name ≡ words.entry.ghost_name }
        ensures count { result.count.ghost_name ≡ count.entry.ghost_name }
        ensures words_now { result.words.now ≡ words.old }
        ensures count_now { result.count.now ≡ count.old }
    {
        WordsRoom {
            words,
            count,
            code: OK,
        }
    }
}

impl Room for WordsRoom<'_> {
    ghost takes = { WordsTake };

    #[inline(always)]
    fn put_word(&mut self, word: u64) {
        self.put(&[word]);
    }

    #[inline(always)]
    fn put(&mut self, words: &[u64]) {
        self.code = write_words(words, self.words, self.count);
    }
}

impl Room for Loaded {
    ghost takes = { LoadedTakes };

    #[inline(always)]
    fn put_word(&mut self, word: u64) {
        self.put(&[word]);
    }

    #[inline(always)]
    fn put(&mut self, words: &[u64]) {
        self.code = write_words(words, &mut self.words, &mut self.length);
    }
}
