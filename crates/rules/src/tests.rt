use crate::{MatchKind, PatternID, Refusal, SmallIndex};
use std::test::Fail;

#[test]
fn ids_name_indices(rt: HostRuntime) -> Result<(), Fail> {
    assert_eq!(rt; PatternID::new(1023), Some(PatternID::from(1023)));
    assert_eq!(rt; PatternID::new(2147483647), None);
    assert_eq!(rt; SmallIndex::new(2147483646), Some(SmallIndex::MAX));
    assert_eq!(rt; PatternID::default().as_usize(), 0);
    Ok(())
}

#[test]
fn faults_are_lines(rt: HostRuntime) -> Result<(), Fail> {
    let line = format!(in rt.alloc(); "{}", Refusal::UnknownMark.at(7))?;
    assert_eq!(rt; line.as_str(), "fault 12 7 3");
    assert_eq!(rt; MatchKind::default(), MatchKind::LeftmostFirst);
    Ok(())
}
