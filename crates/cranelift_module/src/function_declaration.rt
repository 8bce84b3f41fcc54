//! A declared function.

ghost use Rattle.std.specs.Prelude.{◌≡◌, IfOk, option_map, string_bytes};
ghost use Rattle.std.specs.Cow.{cow_str_bytes};
ghost use Rattle.cranelift_module.specs.Refusal.{function_name};
ghost use Rattle.cranelift_module.specs.LinkState.{raised_function};

use crate::{FuncId, Linkage};
use ir_core::Signature;
use std::alloc::{AllocError, Global};
use std::borrow::CowStr;
use std::marker::Model;

/// A declared function: its name, or none where it is anonymous, its linkage and its signature.
#[derive(Debug, Drop)]
pub struct FunctionDeclaration {
    name: Option<String>,
    linkage: Linkage,
    signature: Signature,
}

impl Model for FunctionDeclaration {
    ghost use Rattle.std.specs.Prelude.{option_map, string_bytes};
    ghost use Rattle.cranelift_module.specs.Rows.{FunctionRow};

    ghost Value = { FunctionRow };

    ghost view = { λ f. record { name = option_map string_bytes f.name; linkage = f.linkage; signature = f.signature } };
}

impl FunctionDeclaration {
    pub(crate) fn new(name: Option<String>, linkage: Linkage, signature: Signature) -> Self
        ensures { result ≡ record { name = option_map string_bytes name; linkage = linkage; signature = signature } }
    {
        FunctionDeclaration {
            name,
            linkage,
            signature,
        }
    }

    /// The declared name; none where the function is anonymous.
    pub fn name(&self) -> Option<&str>
        ensures { option_map (λ text. text.now) result ≡ (self.now).name }
    {
        match &self.name {
            Some(name) => Some(name.as_str()),
            None => None,
        }
    }

    /// The greatest linkage declared so far.
    pub fn linkage(&self) -> Linkage
        ensures { result ≡ (self.now).linkage }
    {
        self.linkage
    }

    /// The signature of the first declaration.
    pub fn signature(&self) -> &Signature
        ensures { result.now ≡ (self.now).signature }
    {
        &self.signature
    }

    /// The name that the linker sees: the declared one, or `.Lfn` and the number in lower-case
    /// hexadecimal.
    pub fn linkage_name(&self, alloc: Global, id: FuncId) -> Result<CowStr<'_>, AllocError>
        ensures { IfOk result (λ text. cow_str_bytes text ≡ function_name self.now id) }
    {
        match &self.name {
            Some(name) => Ok(CowStr::Borrowed(name.as_str())),
            None => {
                let number = id.as_u32();
                Ok(CowStr::Owned(format!(in alloc; ".Lfn{number:x}")?))
            }
        }
    }

    /// The same text in memory of its own.
    pub(crate) fn owned_linkage_name(&self, alloc: Global, id: FuncId) -> Result<String, AllocError>
        ensures { IfOk result (λ text. string_bytes text ≡ function_name self.now id) }
    {
        self.linkage_name(alloc, id)?.into_owned(alloc)
    }

    /// A further declaration leaves the greater linkage.
    pub(crate) fn raise(&mut self, linkage: Linkage)
        ensures { self.new ≡ raised_function linkage self.old }
    {
        self.linkage = Linkage::merge(self.linkage, linkage);
    }
}
