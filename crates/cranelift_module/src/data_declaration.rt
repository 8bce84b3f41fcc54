//! A declared data object.

ghost use Rattle.std.specs.Prelude.{◌≡◌, IfOk, option_map, string_bytes};
ghost use Rattle.std.specs.Cow.{cow_str_bytes};
ghost use Rattle.cranelift_module.specs.Refusal.{data_name};
ghost use Rattle.cranelift_module.specs.LinkState.{raised_data};

use crate::{DataId, Linkage};
use std::alloc::{AllocError, Global};
use std::borrow::CowStr;
use std::marker::Model;

/// A declared data object: its name, or none where it is anonymous, its linkage, and whether it is
/// writable and thread-local.
#[derive(Debug, Drop)]
pub struct DataDeclaration {
    name: Option<String>,
    linkage: Linkage,
    writable: bool,
    tls: bool,
}

impl Model for DataDeclaration {
    ghost use Rattle.std.specs.Prelude.{option_map, string_bytes};
    ghost use Rattle.cranelift_module.specs.Rows.{DataRow};

    ghost Value = { DataRow };

    ghost view = { λ d. record { name = option_map string_bytes d.name; linkage = d.linkage; writable = d.writable; tls = d.tls } };
}

impl DataDeclaration {
    pub(crate) fn new(name: Option<String>, linkage: Linkage, writable: bool, tls: bool) -> Self
        ensures { result ≡ record { name = option_map string_bytes name; linkage = linkage; writable = writable; tls = tls } }
    {
        DataDeclaration {
            name,
            linkage,
            writable,
            tls,
        }
    }

    /// The declared name; none where the data object is anonymous.
    pub fn name(&self) -> Option<&str>
        ensures { option_map (λ text. text.now) result ≡ (self.now).name }
    {
        match &self.name {
            Some(name) => Some(name.as_str()),
            None => None,
        }
    }

    /// The greatest linkage declared so far.
    pub fn linkage(&self) -> Linkage
        ensures { result ≡ (self.now).linkage }
    {
        self.linkage
    }

    /// Whether one of the declarations says that it is written to.
    pub fn writable(&self) -> bool
        ensures { result ≡ (self.now).writable }
    {
        self.writable
    }

    /// Whether each thread has one of its own.
    pub fn tls(&self) -> bool
        ensures { result ≡ (self.now).tls }
    {
        self.tls
    }

    /// The name that the linker sees: the declared one, or `.Ldata` and the number in lower-case
    /// hexadecimal.
    pub fn linkage_name(&self, alloc: Global, id: DataId) -> Result<CowStr<'_>, AllocError>
        ensures { IfOk result (λ text. cow_str_bytes text ≡ data_name self.now id) }
    {
        match &self.name {
            Some(name) => Ok(CowStr::Borrowed(name.as_str())),
            None => {
                let number = id.as_u32();
                Ok(CowStr::Owned(format!(in alloc; ".Ldata{number:x}")?))
            }
        }
    }

    /// A further declaration leaves the greater linkage, and the writable mark where one of the two
    /// has it.
    pub(crate) fn raise(&mut self, linkage: Linkage, writable: bool)
        ensures { self.new ≡ raised_data linkage writable self.old }
    {
        self.linkage = Linkage::merge(self.linkage, linkage);
        self.writable = self.writable || writable;
    }
}
