//! The kinds of relocations that are applied: System V psABI for AMD64, "Relocation". S is the address of the
//! relocation's symbol, A its addend, P the address of its field.

/// How a relocation is applied.
#[derive(Clone, Copy, Debug, PartialEq, Eq)]
pub enum FixKind {
    /// S + A in 8 bytes.
    Absolute8,
    /// S + A in 4 bytes.
    Absolute4,
    /// S + A - P in 4 bytes, with a sign.
    Relative4,
}
