//! The thread-local data of 64 bytes.

use goblin_pe::{DataDirectory, Error, ParseOptions, TlsData};
use std::alloc::Global;
use std::test::Fail;

/// A directory at 0 whose addresses count from 4096: raw data at 40, the index at 44, callbacks at 48.
#[rattlefmt::skip]
static IMAGE: [u8; 64] = [
    0x28, 0x10, 0, 0, 0, 0, 0, 0, 0x2c, 0x10, 0, 0, 0, 0, 0, 0,
    0x2c, 0x10, 0, 0, 0, 0, 0, 0, 0x30, 0x10, 0, 0, 0, 0, 0, 0,
    0, 0, 0, 0, 0, 0, 0x30, 0, 1, 2, 3, 4, 7, 0, 0, 0,
    0x28, 0x10, 0, 0, 0, 0, 0, 0, 0, 0, 0, 0, 0, 0, 0, 0,
];

fn parse(alloc: Global, bytes: &[u8]) -> Result<Option<TlsData<'_>>, Error> {
    let plain = ParseOptions { resolve_rva: false };
    TlsData::parse_with_opts(
        alloc,
        bytes,
        4096,
        &DataDirectory::default(),
        &[],
        512,
        &plain,
        true,
    )
}

#[test]
fn the_directory_names_raw_data_a_slot_and_one_callback(rt: HostRuntime) -> Result<(), Fail> {
    let tls = parse(rt.alloc(), &IMAGE)?.ok_or("no data")?;
    assert_eq!(rt; tls.image_tls_directory.characteristics, 0x0030_0000);
    assert!(rt; tls.raw_data == Some([1, 2, 3, 4].as_slice()));
    assert!(rt; tls.slot == Some(7));
    assert!(rt; tls.callbacks.as_slice() == [4136].as_slice());
    Ok(())
}

#[test]
fn callbacks_without_a_zero_behind_them_are_too_short(rt: HostRuntime) {
    assert_eq!(rt;
        parse(rt.alloc(), &IMAGE[..56]).err(),
        Some(Error::BufferTooShort)
    );
}
