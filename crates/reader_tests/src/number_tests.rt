//! Numbers on small bytes.

use byte_core::{
    Field, be_at, le_at, place_byte, place_bytes, place_fields, place_number, place_padding,
    place_zeros, put_le,
};

#[test]
fn numbers_are_read_and_written_by_place(rt: HostRuntime) {
    let mut bytes = [1u8, 2, 3, 4, 5, 6, 7, 8, 9];
    assert!(rt; le_at(&bytes, 1, 2) == Some(0x0302));
    assert!(rt; be_at(&bytes, 1, 2) == Some(0x0203));
    assert!(rt; le_at(&bytes, 1, 8) == Some(0x0908_0706_0504_0302));
    assert!(rt; be_at(&bytes, 8, 1) == Some(9));
    assert!(rt; be_at(&bytes, 8, 2).is_none());
    assert!(rt; le_at(&bytes, usize::MAX, 4).is_none());
    put_le(&mut bytes, 2, 4, 0xaabb_ccdd);
    assert!(rt; bytes == [1, 2, 0xdd, 0xcc, 0xbb, 0xaa, 7, 8, 9]);
}

#[test]
fn fields_stand_one_after_another(rt: HostRuntime) {
    let mut out = [0xffu8; 25];
    let at = place_fields(&mut out, 0, &[Field::of_u8(1), Field::of_u16(0x0203)]);
    let at = place_padding(&mut out, at, 8);
    let at = place_padding(&mut out, at, 8);
    let at = place_fields(&mut out, at, &[Field::of_u32(4), Field::of_u64(5)]);
    let at = place_zeros(&mut out, at, 1);
    let at = place_number(&mut out, at, 2, 0x0706);
    let at = place_byte(&mut out, at, 8);
    let expected: [u8; 25] = [
        1, 3, 2, 0, 0, 0, 0, 0, 4, 0, 0, 0, 5, 0, 0, 0, 0, 0, 0, 0, 0, 6, 7, 8, 0xff,
    ];
    assert_eq!(rt; at, 24);
    assert!(rt; out == expected);
}

#[test]
fn bytes_are_placed_behind_those_before_them(rt: HostRuntime) {
    let mut out = [9u8; 5];
    assert_eq!(rt; place_bytes(&mut out, 1, b"ab"), 3);
    assert!(rt; out == [9, b'a', b'b', 9, 9]);
    assert_eq!(rt; place_padding(&mut out, 3, 0), 3);
    assert_eq!(rt; place_padding(&mut out, 3, 4), 4);
    assert!(rt; out == [9, b'a', b'b', 0, 9]);
}
