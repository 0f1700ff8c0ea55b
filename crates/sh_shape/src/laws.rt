//! The laws of places and of classes.
ghost use Rattle.sh_shape.specs.Places.{PagesDiffer, PagesHaveShards, PlacesDiffer, PlacesAreWords, WordsHavePlaces};
ghost use Rattle.sh_shape.specs.Classes.{SlotsFitPage, SlotWordsFitPage, WidthsAreFew};

/// What is true of the pages and places of every shape. No two pages of the shards have the same page number, and each
/// page number is that of a shard's page. No two places have the same number, each has the number of one of the words,
/// and each word is at a place.
pub fn place_laws()
    ensures pages_differ { PagesDiffer }
    ensures pages_have_shards { PagesHaveShards }
    ensures differ { PlacesDiffer }
    ensures words { PlacesAreWords }
    ensures covered { WordsHavePlaces }
{}

/// The slots of a page fit its 48 payload words, whatever class the page has. So does each word of each slot: slot s
/// has the words from s times the width on. A slot has at most 16 words.
pub fn slots_fit_page()
    ensures slots { SlotsFitPage }
    ensures words { SlotWordsFitPage }
    ensures widths { WidthsAreFew }
{}
