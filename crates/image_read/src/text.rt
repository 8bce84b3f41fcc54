//! Texts that end with a zero byte.

ghost use Rattle.std.specs.Prelude.{◌≡◌, ◌<◌, ◌==◌, ◌↔◌, [], length, unwrap_or, IsTrue, IsSome, IfSome};
ghost use Rattle.std.specs.List.{position_from};
ghost use Rattle.std.specs.Option.{option_map};
ghost use Rattle.byte_core.specs.Number.{text_at};
ghost use Rattle.byte_core.specs.Strings.{before_zero};

use memchr::memchr;

/// The text from `at` up to the first zero byte, None where there is none.
#[tactic(auto, using(crate::proofs::Texts::text_past))]
pub fn text_at(strings: &[u8], at: u32) -> Option<&[u8]>
    ensures { option_map (λ text. text.now) result ≡ text_at strings.now at (length strings.now) }
{
    let at = at as usize;
    if at > strings.len() {
        return None;
    }
    let rest = &strings[at..];
    match first_zero(rest) {
        Some(end) => Some(&rest[..end]),
        None => None,
    }
}

/// Whether there is a text at `at`.
pub fn has_text(strings: &[u8], at: u32) -> bool
    ensures { IsTrue result ↔ IsSome (text_at strings.now at (length strings.now)) }
{
    text_at(strings, at).is_some()
}

/// The text at `at`, none where there is none.
pub fn text_or_empty(strings: &[u8], at: u32) -> &[u8]
    ensures { result.now ≡ unwrap_or (text_at strings.now at (length strings.now)) [] }
{
    match text_at(strings, at) {
        Some(text) => text,
        None => &[],
    }
}

/// The bytes up to the first zero, or all of them.
pub fn before_zero(bytes: &[u8]) -> &[u8]
    ensures { result.now ≡ before_zero bytes.now }
{
    match first_zero(bytes) {
        Some(end) => &bytes[..end],
        None => bytes,
    }
}

#[tactic(auto, using(crate::proofs::FirstZero::first_zero))]
fn first_zero(bytes: &[u8]) -> Option<usize>
    ensures first { result ≡ position_from (λ x. x == 0) 0 bytes.now }
    ensures inside { IfSome result (λ n. n < length bytes.now) }
{
    memchr(0, bytes)
}
