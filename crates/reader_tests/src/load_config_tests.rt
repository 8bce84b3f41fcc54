//! Load configurations of a few bytes.

use goblin_pe::{Case, Error, LoadConfigDirectory};
use std::test::Fail;

#[test]
fn ten_bytes_hold_three_fields(rt: HostRuntime) -> Result<(), Fail> {
    let bytes = [0x0a, 0, 0, 0, 0x44, 0x33, 0x22, 0x11, 5, 0];
    let config = LoadConfigDirectory::parse(&bytes, true)?;
    assert_eq!(rt; config.size, 10);
    assert!(rt; config.time_stamp == Some(287_454_020));
    assert!(rt; config.major_version == Some(5));
    assert!(rt; config.minor_version.is_none());
    Ok(())
}

#[test]
fn three_bytes_are_too_small(rt: HostRuntime) {
    let answer = LoadConfigDirectory::parse(&[1, 2, 3], true);
    assert_eq!(rt; answer, Err(Error::Malformed(Case::TooSmall)));
}
