//! Places at multiples of an alignment.

ghost use Rattle.std.specs.Prelude.{◌≡◌, ◌≤◌, ◌^◌, MatchOption};
ghost use Rattle.std.specs.Int.{next_multiple_of};

/// The least multiple of `align` that isn't below `at`, or `at` where `align` is 0. None past the numbers of 64 bits.
pub fn align_up(at: u64, align: u64) -> Option<u64>
    ensures { MatchOption result (2 ^ 64 ≤ next_multiple_of at align) (λ place. place ≡ next_multiple_of at align) }
{
    if align == 0 {
        return Some(at);
    }
    at.checked_add((align - at % align) % align)
}
