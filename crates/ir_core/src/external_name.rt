//! Names of what lies outside a function, and the relocations of its code.

ghost use Rattle.std.specs.Prelude.{◌≡◌, ℕ};

use crate::{KnownSymbol, LibCall, Reloc, SigRef, UserExternalNameRef};
use std::marker::Model;

/// A name that the user of the code generator gives: a namespace, and an index in it.
#[derive(Clone, Copy, Debug, PartialEq, Eq)]
pub struct UserExternalName {
    pub namespace: u32,
    pub index: u32,
}

/// A name of something outside a function.
#[derive(Clone, Copy, Debug, PartialEq, Eq)]
pub enum ExternalName {
    /// The name at this place in the function's list of user names.
    User(UserExternalNameRef),
    /// A name of a test of the code generator.
    TestCase,
    /// A call into the runtime.
    LibCall(LibCall),
    /// A symbol that the linker itself defines.
    KnownSymbol(KnownSymbol),
}

/// A function that is called: its name, its signature by place, and whether the call may count on a short
/// distance, or on room for a patch.
#[derive(Clone, Copy, Debug, PartialEq, Eq)]
pub struct ExtFuncData {
    pub name: ExternalName,
    pub signature: SigRef,
    pub colocated: bool,
    pub patchable: bool,
}

/// An address outside the function: that of a name plus an offset in bytes, whether it may count on a short
/// distance, and whether each thread has its own.
#[derive(Clone, Copy, Debug, PartialEq, Eq)]
pub struct GlobalValueData {
    pub name: ExternalName,
    pub offset: i64,
    pub colocated: bool,
    pub tls: bool,
}

/// A place in the code of a function, in bytes from its start. A contract sees that number.
#[derive(Clone, Copy, Debug, PartialEq, Eq)]
pub struct MachLabel(u32);

impl Model for MachLabel {
    ghost Value = { ℕ };

    ghost view = { λ label. label.0 };

    ghost inverse = { λ n. record { 0 = n } };
}

impl MachLabel {
    /// The label at this offset, in bytes from the function's start.
    pub fn from_offset(offset: u32) -> Self
        ensures { result ≡ offset }
    {
        MachLabel(offset)
    }

    /// The label's offset, in bytes from the function's start.
    pub fn as_offset(self) -> u32
        ensures { result ≡ self }
    {
        self.0
    }
}

/// What a relocation of a function's code goes to.
#[derive(Clone, Copy, Debug, PartialEq, Eq)]
pub enum RelocTarget {
    ExternalName(ExternalName),
    /// A place in the same function.
    Label(MachLabel),
}

/// A relocation of a function's code: the field at an offset, in bytes from the function's start, is filled
/// in by a rule with the address of a target and an addend.
#[derive(Clone, Copy, Debug, PartialEq, Eq)]
pub struct MachReloc {
    pub offset: u32,
    pub kind: Reloc,
    pub target: RelocTarget,
    pub addend: i64,
}

/// A place in the source of a function, by a number that the front end chooses. A contract sees that number.
#[derive(Clone, Copy, Debug, PartialEq, Eq)]
pub struct SourceLoc(u32);

impl Model for SourceLoc {
    ghost Value = { ℕ };

    ghost view = { λ place. place.0 };

    ghost inverse = { λ n. record { 0 = n } };
}

impl SourceLoc {
    /// The place of this number.
    pub fn new(bits: u32) -> Self
        ensures { result ≡ bits }
    {
        SourceLoc(bits)
    }

    /// The place's number.
    pub fn bits(self) -> u32
        ensures { result ≡ self }
    {
        self.0
    }
}

/// Why an instruction traps, by its code. A contract sees the code.
#[derive(Clone, Copy, Debug, PartialEq, Eq)]
pub struct TrapCode(u8);

impl Model for TrapCode {
    ghost Value = { ℕ };

    ghost view = { λ code. code.0 };

    ghost inverse = { λ n. record { 0 = n } };
}

impl TrapCode {
    /// The reason of this code.
    pub fn from_raw(code: u8) -> Self
        ensures { result ≡ code }
    {
        TrapCode(code)
    }

    /// The reason's code.
    pub fn as_raw(self) -> u8
        ensures { result ≡ self }
    {
        self.0
    }
}
