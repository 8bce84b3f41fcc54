//! Where a function may trap.

use ir_core::{SourceLoc, TrapCode};

/// An instruction of a function that may trap.
#[derive(Clone, Debug, Drop)]
pub struct TrapSite {
    /// The instruction's offset from the function's start, in bytes.
    pub offset: u32,
    /// The place in the source from which the instruction was made.
    pub srcloc: SourceLoc,
    /// Why it traps.
    pub code: TrapCode,
}
