use super::{Kind, State};

#[test]
fn words_of_the_four_kinds(rt: HostRuntime) {
    assert_eq!(rt; State::new(Kind::Empty, 1, 0).word(), 4294967296);
    assert_eq!(rt; State::new(Kind::Live, 1, 0).word(), 5368709120);
    assert_eq!(rt; State::new(Kind::Marked, 1, 0).word(), 7516192768);
    assert_eq!(rt; State::new(Kind::Marked, 2, 1).word(), 11811160065);
    assert_eq!(rt; State::new(Kind::Retired, 3, 0).word(), 15032385536);
}

#[test]
fn states_of_the_same_words(rt: HostRuntime) {
    assert_eq!(rt; State::of(4294967296), State::new(Kind::Empty, 1, 0));
    assert_eq!(rt; State::of(5368709120), State::new(Kind::Live, 1, 0));
    assert_eq!(rt; State::of(7516192768), State::new(Kind::Marked, 1, 0));
    assert_eq!(rt; State::of(11811160065), State::new(Kind::Marked, 2, 1));
    assert_eq!(rt; State::of(15032385536), State::new(Kind::Retired, 3, 0));
}

#[test]
fn kinds_of_the_same_words(rt: HostRuntime) {
    assert_eq!(rt; State::of(4294967296).kind(), Kind::Empty);
    assert_eq!(rt; State::of(5368709120).kind(), Kind::Live);
    assert_eq!(rt; State::of(7516192768).kind(), Kind::Marked);
    assert_eq!(rt; State::of(11811160065).kind(), Kind::Marked);
    assert_eq!(rt; State::of(15032385536).kind(), Kind::Retired);
}
