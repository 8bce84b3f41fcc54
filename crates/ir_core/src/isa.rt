//! A target with its flags, and what a front end needs to know of it.

ghost use Rattle.std.specs.Prelude.{◌≡◌, [], ◌∷◌, ◌++◌, IfOk, OnOk, OnErr};
ghost use Rattle.ir_core.specs.Target.{symbol_alignment, default_call_conv, pointer_bytes};

use crate::{Architecture, BinaryFormat, CallConv, Triple};
use std::alloc::{AllocError, Global};
use std::marker::Model;

/// A flag of a target: a name with a truth value, or without one. A contract sees the pair.
#[derive(Debug, Drop)]
pub struct Flag {
    name: String,
    value: Option<bool>,
}

impl Model for Flag {
    ghost use Rattle.std.specs.Prelude.{ℕ, List, Bool, Option, string_bytes};

    ghost Value = { List ℕ × Option Bool };

    ghost view = { λ f. (string_bytes f.name, f.value) };
}

impl Flag {
    /// The flag's name.
    pub fn name(&self) -> &str
        ensures { result.now ≡ (self.now).0 }
    {
        self.name.as_str()
    }

    /// The flag's truth value, where it has one.
    pub fn value(&self) -> Option<bool>
        ensures { result ≡ (self.now).1 }
    {
        self.value
    }
}

/// What a front end needs to know of a target.
#[derive(Clone, Copy, Debug, PartialEq, Eq)]
pub struct TargetFrontendConfig {
    pub default_call_conv: CallConv,
    /// How many bytes an address has.
    pub pointer_bytes: u8,
}

/// A target: its triple, and its flags in the order in which they were pushed.
#[derive(Debug, Drop)]
pub struct TargetIsa {
    triple: Triple,
    flags: Vec<Flag>,
}

impl Model for TargetIsa {
    ghost use Rattle.ir_core.specs.Target.{Target};

    ghost Value = { Target };

    ghost view = { λ t. record { triple = t.triple; flags = t.flags.items } };
}

impl TargetIsa {
    /// A target without flags.
    pub fn new(alloc: Global, triple: Triple) -> Self
        ensures { result ≡ record { triple = triple; flags = [] } }
    {
        TargetIsa {
            triple,
            flags: Vec::new(alloc),
        }
    }

    /// One more flag, behind the others.
    pub fn push_flag(&mut self, name: &str, value: Option<bool>) -> Result<(), AllocError>
        ensures ok { OnOk result (self.new ≡ record self.old { flags = (self.old).flags ++ (name.now, value) ∷ [] }) }
        ensures err { OnErr result (self.new ≡ self.old) }
    {
        let name = String::from_str(*self.flags.allocator(), name)?;
        self.flags.push(Flag { name, value })?;
        Ok(())
    }

    /// An equal target.
    pub fn copy(&self) -> Result<TargetIsa, AllocError>
        ensures { IfOk result (λ target. target ≡ self.now) }
    {
        Ok(TargetIsa {
            triple: self.triple,
            flags: copies_of(&self.flags)?,
        })
    }

    /// What files are made for.
    pub fn triple(&self) -> &Triple
        ensures { result.now ≡ (self.now).triple }
    {
        &self.triple
    }

    /// The flags, in the order in which they were pushed.
    pub fn flags(&self) -> &[Flag]
        ensures { result.now ≡ (self.now).flags }
    {
        &self.flags
    }

    /// The least alignment of a function or data object, in bytes.
    pub fn symbol_alignment(&self) -> u64
        ensures { result ≡ symbol_alignment (self.now).triple.architecture }
    {
        match self.triple.architecture {
            Architecture::Aarch64 | Architecture::Riscv64 => 4,
            _ => 1,
        }
    }

    /// The calling convention of a function for which none is named.
    pub fn default_call_conv(&self) -> CallConv
        ensures { result ≡ default_call_conv (self.now).triple }
    {
        match (self.triple.architecture, self.triple.binary_format) {
            (Architecture::Aarch64, BinaryFormat::Macho) => CallConv::AppleAarch64,
            (_, BinaryFormat::Coff) => CallConv::WindowsFastcall,
            _ => CallConv::SystemV,
        }
    }

    /// What a front end needs to know of the target.
    pub fn frontend_config(&self) -> TargetFrontendConfig
        ensures { result ≡ record { default_call_conv = default_call_conv (self.now).triple; pointer_bytes = pointer_bytes (self.now).triple.architecture } }
    {
        TargetFrontendConfig {
            default_call_conv: self.default_call_conv(),
            pointer_bytes: pointer_bytes(self.triple.architecture),
        }
    }
}

fn copies_of(flags: &Vec<Flag>) -> Result<Vec<Flag>, AllocError>
    ensures { IfOk result (λ copies. copies.items ≡ (flags.now).items) }
{
    let alloc = *flags.allocator();
    let mut copies = Vec::new(alloc);
    for flag in flags {
        let name = String::from_str(alloc, flag.name())?;
        copies.push(Flag {
            name,
            value: flag.value(),
        })?;
    }
    Ok(copies)
}

fn pointer_bytes(architecture: Architecture) -> u8
    ensures { result ≡ pointer_bytes architecture }
{
    match architecture {
        Architecture::X86_32 | Architecture::Arm => 4,
        _ => 8,
    }
}
