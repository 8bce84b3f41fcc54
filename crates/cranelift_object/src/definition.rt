//! Definitions as a module keeps them.

ghost use Rattle.std.specs.Prelude.{◌≡◌, ◌<◌, ◌^◌, true, Some, IfOk, IsSome, unwrap_or, option_map, slice_get, List, []};
ghost use Rattle.cranelift_module.specs.Call as calls;
ghost use Rattle.cranelift_module.specs.Init.{init_view, are_in_range};
ghost use Rattle.cranelift_module.specs.Rows.{DataRow};
ghost use Rattle.cranelift_module.specs.Refusal.{bytes_in};
ghost use Rattle.cranelift_module.specs.Definitions.{definition_made, is_writable, relocs_of, size_of};

use cranelift_module::{DataDescription, DataId, FuncId, FuncOrDataId, Init, ModuleReloc};
use ir_core::Reloc;
use std::alloc::{AllocError, Global};
use std::marker::Model;

/// The definition of a function or of a data object.
#[derive(Drop)]
pub(crate) struct Definition {
    identifier: FuncOrDataId,
    contents: Init,
    align: u64,
    relocs: Vec<ModuleReloc>,
    section: Option<String>,
    used: bool,
    writable: bool,
}

impl Model for Definition {
    ghost use Rattle.cranelift_module.specs.Definitions.{Definition as DefinitionRow};
    ghost use Rattle.cranelift_object.specs.DefinitionView.{definition_view};

    ghost Value = { DefinitionRow };

    ghost view = { definition_view };
}

impl Definition {
    /// The definition of a function by its bytes and its relocations.
    pub(crate) fn of_function(
        alloc: Global,
        function: FuncId,
        align: u64,
        bytes: &[u8],
        relocs: &[ModuleReloc],
    ) -> Result<Definition, AllocError>
        ensures value { (objects : List DataRow) → IfOk result (λ d. definition_made objects (calls.define_function function align bytes.now relocs.now) ≡ Some d) }
        ensures sized { IfOk result (λ d. size_of d.contents < 2 ^ 64) }
    {
        let contents = bytes.to_vec(alloc)?;
        let relocs = relocs.to_vec(alloc)?;
        Ok(Definition {
            identifier: FuncOrDataId::Func(function),
            contents: Init::Bytes { contents },
            align,
            relocs,
            section: None,
            used: false,
            writable: false,
        })
    }

    /// The definition of a data object by its description, with the relocations of that.
    pub(crate) fn of_data(
        alloc: Global,
        object: DataId,
        desc: &DataDescription,
        relocs: Vec<ModuleReloc>,
        writable: bool,
    ) -> Result<Definition, AllocError>
        requires { relocs.items ≡ relocs_of desc.now }
        ensures value { (objects : List DataRow) → is_writable (slice_get objects object) ≡ writable → IfOk result (λ d. definition_made objects (calls.define_data object desc.now) ≡ Some d) }
        ensures sized { IfOk result (λ d. size_of d.contents < 2 ^ 64) }
    {
        let contents = desc.init().copy()?;
        let section = match desc.custom_section() {
            Some(section) => Some(String::from_str(alloc, section)?),
            None => None,
        };
        Ok(Definition {
            identifier: FuncOrDataId::Data(object),
            contents,
            align: desc.align().unwrap_or(1),
            relocs,
            section,
            used: desc.used(),
            writable,
        })
    }

    /// What is defined.
    pub(crate) fn identifier(&self) -> FuncOrDataId
        ensures { result ≡ (self.now).identifier }
    {
        self.identifier
    }

    /// What it begins with.
    pub(crate) fn contents(&self) -> &Init
        ensures { (self.now).contents ≡ unwrap_or (init_view result.now) (calls.bytes []) }
    {
        &self.contents
    }

    /// The alignment that was asked for, in bytes.
    pub(crate) fn align(&self) -> u64
        ensures { result ≡ (self.now).align }
    {
        self.align
    }

    /// The relocations in order.
    pub(crate) fn relocs(&self) -> &[ModuleReloc]
        ensures { result.now ≡ (self.now).relocs }
    {
        &self.relocs
    }

    /// The text of a section of its own.
    pub(crate) fn section(&self) -> Option<&str>
        ensures { option_map (λ text. text.now) result ≡ (self.now).section }
    {
        match &self.section {
            Some(section) => Some(section.as_str()),
            None => None,
        }
    }

    /// Whether the linker is asked to keep it.
    pub(crate) fn used(&self) -> bool
        ensures { result ≡ (self.now).used }
    {
        self.used
    }

    /// Whether the data object was writable when it was defined.
    pub(crate) fn writable(&self) -> bool
        ensures { result ≡ (self.now).writable }
    {
        self.writable
    }
}

/// The relocations of a description, each a pointer of 8 bytes.
pub(crate) fn pointers_of(
    alloc: Global,
    desc: &DataDescription,
) -> Result<Vec<ModuleReloc>, AllocError>
    requires { are_in_range desc.now ≡ true }
    ensures { IfOk result (λ relocs. relocs.items ≡ relocs_of desc.now) }
{
    desc.all_relocs(Reloc::Abs8).collect(alloc)
}

/// How many bytes there are in which fields lie; zeros have none.
pub(crate) fn bytes_in(init: &Init) -> Option<usize>
    ensures { result ≡ bytes_in (unwrap_or (init_view init.now) (calls.bytes [])) }
{
    match init {
        Init::Uninitialized => Some(0),
        Init::Zeros { .. } => None,
        Init::Bytes { contents } => Some(contents.len()),
    }
}
