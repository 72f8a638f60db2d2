use crate::{EepFault, EepSet, Protection, rate_of, size_of};
use std::test::Fail;

fn profile(set: EepSet, level: u8) -> Result<Protection, &'static str> {
    Protection::new(set, level).ok_or("a level from 1 to 4")
}

#[test]
fn sizes_of_the_standards_tables(rt: HostRuntime) -> Result<(), Fail> {
    assert_eq!(rt; size_of(profile(EepSet::A, 1)?, 128), Ok(192));
    assert_eq!(rt; size_of(profile(EepSet::A, 2)?, 128), Ok(128));
    assert_eq!(rt; size_of(profile(EepSet::A, 3)?, 128), Ok(96));
    assert_eq!(rt; size_of(profile(EepSet::A, 4)?, 128), Ok(64));
    assert_eq!(rt; size_of(profile(EepSet::B, 1)?, 64), Ok(54));
    assert_eq!(rt; size_of(profile(EepSet::B, 2)?, 64), Ok(42));
    assert_eq!(rt; size_of(profile(EepSet::B, 3)?, 64), Ok(36));
    assert_eq!(rt; size_of(profile(EepSet::B, 4)?, 64), Ok(30));
    Ok(())
}

#[test]
fn rates_that_have_no_size(rt: HostRuntime) -> Result<(), Fail> {
    assert_eq!(rt;
        size_of(profile(EepSet::B, 1)?, 33),
        Err(EepFault::NotMultiple)
    );
    assert_eq!(rt; size_of(profile(EepSet::A, 3)?, 0), Err(EepFault::ZeroRate));
    assert_eq!(rt; size_of(profile(EepSet::A, 4)?, 1728), Ok(864));
    assert_eq!(rt;
        size_of(profile(EepSet::A, 4)?, 1736),
        Err(EepFault::PastMultiplex)
    );
    Ok(())
}

#[test]
fn rates_of_sizes(rt: HostRuntime) -> Result<(), Fail> {
    assert_eq!(rt; rate_of(profile(EepSet::A, 4)?, 864), Some(1728));
    assert_eq!(rt; rate_of(profile(EepSet::A, 3)?, 95), None);
    assert_eq!(rt; rate_of(profile(EepSet::A, 3)?, 96), Some(128));
    assert_eq!(rt; rate_of(profile(EepSet::B, 1)?, 54), Some(64));
    Ok(())
}

#[test]
fn profiles_have_levels_one_to_four(rt: HostRuntime) -> Result<(), Fail> {
    assert!(rt; Protection::new(EepSet::A, 0).is_none());
    assert!(rt; Protection::new(EepSet::B, 5).is_none());
    let strongest = profile(EepSet::B, 1)?;
    assert_eq!(rt; strongest.set(), EepSet::B);
    assert_eq!(rt; strongest.level(), 1);
    assert_eq!(rt; profile(EepSet::A, 4)?.level(), 4);
    Ok(())
}
