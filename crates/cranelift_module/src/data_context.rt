//! Descriptions of data objects.

ghost use Rattle.std.specs.Prelude.{◌≡◌, ◌<◌, ◌∷◌, ◌++◌, [], None, Some, true, false, length, map, option_map, IfOk, OnOk, OnErr};
ghost use Rattle.std.specs.List.{list_all};
ghost use Rattle.std.specs.Iterator.{YieldsFirst, item_count};
ghost use Rattle.cranelift_module.specs.Definitions.{relocs_with, function_reloc, value_reloc};
ghost use Rattle.cranelift_module.specs.Init.{init_view, is_function_within, is_value_within};

use crate::{ModuleReloc, ModuleRelocTarget};
use ir_core::{FuncRef, GlobalValue, Reloc};
use std::alloc::{AllocError, Global};
use std::marker::Model;

/// How a data object begins.
#[derive(Debug, Drop)]
pub enum Init {
    /// Nothing is said of it yet.
    Uninitialized,
    /// With zeros. The size is in bytes.
    Zeros { size: usize },
    /// With these bytes.
    Bytes { contents: Vec<u8> },
}

impl Init {
    ghost use Rattle.std.specs.Prelude.{◌<◌, ◌^◌, Some, option_map, IsSome, IfSome, IfOk, is_none};
    ghost use Rattle.cranelift_module.specs.Definitions.{size_of};
    ghost use Rattle.cranelift_module.specs.Init.{init_view};

    /// How many bytes it has. It needs contents.
    pub fn size(&self) -> usize
        requires { IsSome (init_view self.now) }
        ensures { option_map size_of (init_view self.now) ≡ Some result }
    {
        match self {
            Init::Uninitialized => unreachable!(),
            Init::Zeros { size } => *size,
            Init::Bytes { contents } => contents.len(),
        }
    }

    // Whether nothing is said of it yet.
    pub(crate) fn is_uninitialized(&self) -> bool
        ensures { result ≡ is_none (init_view self.now) }
    {
        matches!(self, Init::Uninitialized)
    }

    /// An equal one. Zeros take no memory.
    pub fn copy(&self) -> Result<Init, AllocError>
        ensures equal { IfOk result (λ init. init_view init ≡ init_view self.now) }
        ensures sized { IfOk result (λ init. IfSome (init_view init) (λ contents. size_of contents < 2 ^ 64)) }
    {
        match self {
            Init::Uninitialized => Ok(Init::Uninitialized),
            Init::Zeros { size } => Ok(Init::Zeros { size: *size }),
            Init::Bytes { contents } => Ok(Init::Bytes {
                contents: contents.to_vec(*contents.allocator())?,
            }),
        }
    }
}

/// What a data object begins with, the functions and data objects that it may refer to, and where their
/// addresses are written. A reference is a place in the list of what was imported.
#[derive(Debug, Drop)]
pub struct DataDescription {
    init: Init,
    function_decls: Vec<ModuleRelocTarget>,
    data_decls: Vec<ModuleRelocTarget>,
    function_relocs: Vec<(u32, FuncRef)>,
    data_relocs: Vec<(u32, GlobalValue, i64)>,
    custom_section: Option<String>,
    align: Option<u64>,
    used: bool,
}

impl Model for DataDescription {
    ghost use Rattle.cranelift_module.specs.Call.{Description};
    ghost use Rattle.cranelift_module.specs.DescriptionView.{description_view};

    ghost Value = { Description };

    ghost view = { description_view };
}

impl DataDescription {
    ghost use Rattle.cranelift_module.specs.Call.{bytes, zeros};
    ghost use Rattle.cranelift_module.specs.Init.{no_description, are_in_range};

    /// Uninitialized, without references, without a section or an alignment of its own, and not marked as
    /// used.
    pub fn new(alloc: Global) -> Self
        ensures { result ≡ no_description }
    {
        DataDescription {
            init: Init::Uninitialized,
            function_decls: Vec::new(alloc),
            data_decls: Vec::new(alloc),
            function_relocs: Vec::new(alloc),
            data_relocs: Vec::new(alloc),
            custom_section: None,
            align: None,
            used: false,
        }
    }

    /// An equal one. Zeros take no memory.
    pub fn copy(&self) -> Result<DataDescription, AllocError>
        ensures { IfOk result (λ copy. copy ≡ self.now) }
    {
        let alloc = *self.function_decls.allocator();
        let custom_section = match &self.custom_section {
            Some(section) => Some(String::from_str(alloc, section.as_str())?),
            None => None,
        };
        Ok(DataDescription {
            init: self.init.copy()?,
            function_decls: self.function_decls.to_vec(alloc)?,
            data_decls: self.data_decls.to_vec(alloc)?,
            function_relocs: self.function_relocs.to_vec(alloc)?,
            data_relocs: self.data_relocs.to_vec(alloc)?,
            custom_section,
            align: self.align,
            used: self.used,
        })
    }

    /// As it was made.
    pub fn clear(&mut self)
        ensures { self.new ≡ no_description }
    {
        self.init = Init::Uninitialized;
        self.function_decls.clear();
        self.data_decls.clear();
        self.function_relocs.clear();
        self.data_relocs.clear();
        self.custom_section = None;
        self.align = None;
        self.used = false;
    }

    /// How the data object begins.
    pub fn init(&self) -> &Init
        ensures { init_view result.now ≡ (self.now).contents }
    {
        &self.init
    }

    /// The functions that were imported, in order of their references.
    pub fn function_decls(&self) -> &[ModuleRelocTarget]
        ensures { result.now ≡ (self.now).function_decls }
    {
        &self.function_decls
    }

    /// The data objects that were imported, in order of their references.
    pub fn data_decls(&self) -> &[ModuleRelocTarget]
        ensures { result.now ≡ (self.now).data_decls }
    {
        &self.data_decls
    }

    /// Where addresses of functions are written: an offset in bytes, and a reference.
    pub fn function_relocs(&self) -> &[(u32, FuncRef)]
        ensures { result.now ≡ (self.now).function_relocs }
    {
        &self.function_relocs
    }

    /// Where addresses of data objects are written: an offset in bytes, a reference, and an addend.
    pub fn data_relocs(&self) -> &[(u32, GlobalValue, i64)]
        ensures { result.now ≡ (self.now).data_relocs }
    {
        &self.data_relocs
    }

    /// The section of the data object's own, where it has one.
    pub fn custom_section(&self) -> Option<&str>
        ensures { option_map (λ text. text.now) result ≡ (self.now).section }
    {
        match &self.custom_section {
            Some(section) => Some(section.as_str()),
            None => None,
        }
    }

    /// The alignment in bytes, where one is asked for.
    pub fn align(&self) -> Option<u64>
        ensures { result ≡ (self.now).align }
    {
        self.align
    }

    /// Whether the linker is asked to keep the data object.
    pub fn used(&self) -> bool
        ensures { result ≡ (self.now).used }
    {
        self.used
    }

    /// Imports a function, and answers its reference: its place in the list.
    pub fn import_function(&mut self, name: ModuleRelocTarget) -> Result<FuncRef, AllocError>
        requires { length (self.old).function_decls < 4294967295 }
        ensures ok { OnOk result (self.new ≡ record self.old { function_decls = (self.old).function_decls ++ name ∷ [] }) }
        ensures place { IfOk result (λ place. place ≡ length (self.old).function_decls) }
        ensures err { OnErr result (self.new ≡ self.old) }
    {
        let place = self.function_decls.len() as u32;
        self.function_decls.push(name)?;
        Ok(FuncRef::from_u32(place))
    }

    /// Imports a data object, and answers its reference: its place in the list.
    pub fn import_global_value(
        &mut self,
        name: ModuleRelocTarget,
    ) -> Result<GlobalValue, AllocError>
        requires { length (self.old).data_decls < 4294967295 }
        ensures ok { OnOk result (self.new ≡ record self.old { data_decls = (self.old).data_decls ++ name ∷ [] }) }
        ensures place { IfOk result (λ place. place ≡ length (self.old).data_decls) }
        ensures err { OnErr result (self.new ≡ self.old) }
    {
        let place = self.data_decls.len() as u32;
        self.data_decls.push(name)?;
        Ok(GlobalValue::from_u32(place))
    }

    /// Begins with these bytes. It needs that nothing was said of the contents before.
    pub fn define(&mut self, contents: Vec<u8>)
        requires { (self.old).contents ≡ None }
        ensures { self.new ≡ record self.old { contents = Some (bytes contents.items) } }
    {
        self.init = Init::Bytes { contents };
    }

    /// Begins with so many zeros, in bytes. It needs that nothing was said of the contents before.
    pub fn define_zeroinit(&mut self, size: usize)
        requires { (self.old).contents ≡ None }
        ensures { self.new ≡ record self.old { contents = Some (zeros size) } }
    {
        self.init = Init::Zeros { size };
    }

    /// Asks for a section of its own, by a text. Where memory runs out, the description is as it was.
    pub fn set_custom_section(&mut self, alloc: Global, section: &str) -> Result<(), AllocError>
        ensures ok { OnOk result (self.new ≡ record self.old { section = Some section.now }) }
        ensures err { OnErr result (self.new ≡ self.old) }
    {
        let section = String::from_str(alloc, section)?;
        self.custom_section = Some(section);
        Ok(())
    }

    /// Asks for an alignment, in bytes. It is judged where the data object is defined.
    pub fn set_align(&mut self, align: u64)
        ensures { self.new ≡ record self.old { align = Some align } }
    {
        self.align = Some(align);
    }

    /// Asks the linker to keep the data object, or not to.
    pub fn set_used(&mut self, used: bool)
        ensures { self.new ≡ record self.old { used = used } }
    {
        self.used = used;
    }

    /// Writes the address of an imported function at an offset, in bytes. Any reference is taken; it is judged where
    /// the data object is defined. Where memory runs out, the description is as it was.
    pub fn write_function_addr(&mut self, offset: u32, func: FuncRef) -> Result<(), AllocError>
        ensures ok { OnOk result (self.new ≡ record self.old { function_relocs = (self.old).function_relocs ++ (offset, func) ∷ [] }) }
        ensures err { OnErr result (self.new ≡ self.old) }
    {
        self.function_relocs.push((offset, func))?;
        Ok(())
    }

    /// Writes the address of an imported data object, and an addend, at an offset, in bytes. Any reference is taken; it
    /// is judged where the data object is defined. Where memory runs out, the description is as it was.
    pub fn write_data_addr(
        &mut self,
        offset: u32,
        value: GlobalValue,
        addend: i64,
    ) -> Result<(), AllocError>
        ensures ok { OnOk result (self.new ≡ record self.old { data_relocs = (self.old).data_relocs ++ (offset, value, addend) ∷ [] }) }
        ensures err { OnErr result (self.new ≡ self.old) }
    {
        self.data_relocs.push((offset, value, addend))?;
        Ok(())
    }

    /// Whether each reference lies in the list of what was imported.
    pub fn references_in_range(&self) -> bool
        ensures { result ≡ are_in_range self.now }
    {
        are_functions_within(&self.function_relocs, self.function_decls.len())
            && are_values_within(&self.data_relocs, self.data_decls.len())
    }

    /// The relocations of a pointer's kind: those of the written function addresses, with addend 0, then those of
    /// the written data addresses. It needs that each reference lies in the list of what was imported.
    #[tactic(auto, using(crate::proofs::References::functions_within, crate::proofs::References::values_within))]
    pub fn all_relocs(&self, pointer_reloc: Reloc) -> AllRelocs<'_>
        requires { are_in_range self.now ≡ true }
        ensures { result ≡ relocs_with pointer_reloc self.now }
    {
        AllRelocs {
            kind: pointer_reloc,
            function_decls: &self.function_decls,
            data_decls: &self.data_decls,
            function_relocs: &self.function_relocs,
            data_relocs: &self.data_relocs,
        }
    }
}

/// The relocations of a data description that are left. A contract sees them as a list.
#[derive(Drop)]
pub struct AllRelocs<'a> {
    kind: Reloc,
    function_decls: &'a [ModuleRelocTarget],
    data_decls: &'a [ModuleRelocTarget],
    function_relocs: &'a [(u32, FuncRef)],
    data_relocs: &'a [(u32, GlobalValue, i64)],
}

impl<'a> Model for AllRelocs<'a> {
    ghost use Rattle.std.specs.Prelude.{◌≡◌, true, List, length};
    ghost use Rattle.std.specs.List.{list_all};
    ghost use Rattle.cranelift_module.specs.declared.reloc.ModuleReloc.{ModuleReloc};
    ghost use Rattle.cranelift_module.specs.Definitions.{relocs_over};
    ghost use Rattle.cranelift_module.specs.Init.{is_function_within, is_value_within};

    ghost Value = { List ModuleReloc };

    ghost view = { λ it. relocs_over it.kind it.function_decls.now it.function_relocs.now it.data_decls.now it.data_relocs.now };

    ghost invariant = { λ it. (list_all (is_function_within (length it.function_decls.now)) it.function_relocs.now ≡ true) × (list_all (is_value_within (length it.data_decls.now)) it.data_relocs.now ≡ true) };
}

impl<'a> Iterator for AllRelocs<'a> {
    type Item = ModuleReloc;

    ghost next_gives = { YieldsFirst (λ rest. rest) };

    ghost remaining = { item_count (λ rest. rest) };

    fn next(&mut self) -> Option<ModuleReloc> {
        if let Some((address, rest)) = self.function_relocs.split_first() {
            self.function_relocs = rest;
            return Some(function_reloc(self.kind, self.function_decls, address));
        }
        let (address, rest) = self.data_relocs.split_first()?;
        self.data_relocs = rest;
        Some(value_reloc(self.kind, self.data_decls, address))
    }
}

// The relocation of a written function address.
fn function_reloc(
    kind: Reloc,
    imports: &[ModuleRelocTarget],
    address: &(u32, FuncRef),
) -> ModuleReloc
    requires { is_function_within (length imports.now) address.now ≡ true }
    ensures { result ≡ function_reloc kind imports.now address.now }
{
    ModuleReloc {
        offset: address.0,
        kind,
        name: imports[address.1.as_u32() as usize],
        addend: 0,
    }
}

// The relocation of a written data address.
fn value_reloc(
    kind: Reloc,
    imports: &[ModuleRelocTarget],
    address: &(u32, GlobalValue, i64),
) -> ModuleReloc
    requires { is_value_within (length imports.now) address.now ≡ true }
    ensures { result ≡ value_reloc kind imports.now address.now }
{
    ModuleReloc {
        offset: address.0,
        kind,
        name: imports[address.1.as_u32() as usize],
        addend: address.2,
    }
}

// Whether each of these references is below a count.
fn are_functions_within(relocs: &[(u32, FuncRef)], count: usize) -> bool
    ensures { result ≡ list_all (is_function_within count) relocs.now }
{
    relocs
        .iter()
        .all(|reloc| (reloc.1.as_u32() as usize) < count)
}

// Whether each of these references is below a count.
fn are_values_within(relocs: &[(u32, GlobalValue, i64)], count: usize) -> bool
    ensures { result ≡ list_all (is_value_within count) relocs.now }
{
    relocs
        .iter()
        .all(|reloc| (reloc.1.as_u32() as usize) < count)
}
