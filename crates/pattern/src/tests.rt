use crate::{Book, Patterns};
use rules::{MatchKind, PatternID};
use std::test::Fail;

#[test]
fn the_longest_comes_first(rt: HostRuntime) -> Result<(), Fail> {
    let mut patterns = Patterns::new(rt.alloc());
    assert_eq!(rt; patterns.add(b"DC-40").ok(), Some(PatternID::from(0)));
    assert_eq!(rt; patterns.add(b"DC-40-R").ok(), Some(PatternID::from(1)));
    patterns.set_match_kind(MatchKind::LeftmostLongest);
    assert!(rt; patterns.check(4).is_ok());
    let book = patterns.close();
    assert_eq!(rt; book.match_kind(), MatchKind::LeftmostLongest);
    assert_eq!(rt;
        book.order(),
        [PatternID::from(1), PatternID::from(0)].as_slice()
    );
    assert_eq!(rt; book.get(PatternID::from(1)), b"DC-40-R".as_slice());
    Ok(())
}

#[test]
fn an_empty_book_has_no_pattern(rt: HostRuntime) -> Result<(), Fail> {
    let book = Book::empty(rt.alloc());
    assert!(rt; book.is_empty());
    assert_eq!(rt; book.minimum_len(), usize::MAX);
    assert_eq!(rt; book.match_kind(), MatchKind::LeftmostFirst);
    Ok(())
}
