//! The numbers that relocations give: System V psABI for AMD64, "Relocation".

ghost use Rattle.std.specs.Prelude.{◌≡◌, ◌+◌, ◌<◌, ◌^◌, option_map};
ghost use Rattle.byte_core.specs.Number.{little_bytes};
ghost use Rattle.image_place.specs.Fixups.{fix_width, signed_bytes, unsigned_bytes, value_bytes};

use image_view::FixKind;

/// The number of a field at address `p` that leads to address `s`, None where the value doesn't fit.
pub fn value_of(kind: FixKind, s: u128, addend: i64, p: u128) -> Option<u64>
    requires target { s < 2 ^ 66 }
    requires place { p < 2 ^ 66 }
    ensures { option_map (λ n. little_bytes (fix_width kind) n) result ≡ value_bytes kind s addend p }
{
    let value = s as i128 + i128::from(addend);
    match kind {
        FixKind::Absolute8 => long_number(value),
        FixKind::Absolute4 => short_number(value),
        FixKind::Relative4 => signed_number(value - p as i128),
    }
}

fn long_number(value: i128) -> Option<u64>
    ensures { option_map (λ n. little_bytes 8 n) result ≡ unsigned_bytes 8 value }
{
    if value < 0 || value > 0xffff_ffff_ffff_ffff {
        return None;
    }
    Some(value as u64)
}

fn short_number(value: i128) -> Option<u64>
    ensures { option_map (λ n. little_bytes 4 n) result ≡ unsigned_bytes 4 value }
{
    if value < 0 || value > 0xffff_ffff {
        return None;
    }
    Some(value as u64)
}

fn signed_number(value: i128) -> Option<u64>
    ensures { option_map (λ n. little_bytes 4 n) result ≡ signed_bytes value }
{
    if value < -0x8000_0000 || value > 0x7fff_ffff {
        return None;
    }
    if value < 0 {
        return Some((value + 0x1_0000_0000) as u64);
    }
    Some(value as u64)
}
