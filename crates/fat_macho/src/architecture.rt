//! Architectures: a processor type and a subtype, whose feature bits don't count.

ghost use Rattle.std.specs.Prelude.{◌≡◌};
ghost use Rattle.fat_macho.specs.Slices.{is_same_arch, plain_subtype};

// The bits of a subtype from this one on tell features.
const FIRST_FEATURE: u32 = 1 << 24;

/// Whether two types and subtypes are of one architecture.
pub fn is_same_arch(a: (u32, u32), b: (u32, u32)) -> bool
    ensures { result ≡ is_same_arch a.0 a.1 b.0 b.1 }
{
    a.0 == b.0 && plain_subtype(a.1) == plain_subtype(b.1)
}

/// The subtype without its feature bits.
pub fn plain_subtype(cpusubtype: u32) -> u32
    ensures { result ≡ plain_subtype cpusubtype }
{
    cpusubtype % FIRST_FEATURE
}
