//! Tests that a back end makes before it accepts a call, each exact for its causes and their order.

ghost use Rattle.std.specs.Prelude.{◌≡◌, Some, None, OnOk, IfErr, IfOk, slice_get, string_bytes, option_map, ◌==◌};
ghost use Rattle.std.specs.List.{position_from};
ghost use Rattle.cranelift_module.specs.Refusal.{Tells, zero_byte, undefinable, undefinable_object, undefinable_data, description_cause, section_cause, text_cause, are_bytes, is_macho, loose_function, loose_value, is_bad_align};
ghost use Rattle.cranelift_module.specs.Texts.{user_text};
ghost use Rattle.cranelift_module.specs.Init.{init_view};
ghost use Rattle.cranelift_module.specs.SectionText.{answer_of};

use crate::{
    BackendCause, DataDeclaration, DataDescription, DataId, FuncId, Init, ModuleDeclarations,
    ModuleError, ModuleRelocTarget, ModuleResult, SectionFault, parse_section,
};
use ir_core::{BinaryFormat, FuncRef, GlobalValue, is_zero_fill_type};
use std::alloc::{AllocError, Global};

/// Refuses a text that has a zero byte, by the place of the first.
pub fn check_no_zero_byte(text: &[u8]) -> ModuleResult<()>
    ensures accepted { OnOk result (zero_byte text.now ≡ None) }
    ensures refused { IfErr result (λ e. Tells e (zero_byte text.now)) }
{
    match zero_place(text) {
        Some(position) => Err(ModuleError::Backend(BackendCause::NulByte { position })),
        None => Ok(()),
    }
}

// The place of the first zero byte.
fn zero_place(text: &[u8]) -> Option<usize>
    ensures { result ≡ position_from (λ byte. byte == 0) 0 text.now }
{
    text.iter().position(|byte| *byte == 0)
}

/// Whether an alignment, in bytes, is refused: it is no power of two, or above 65,536.
pub fn is_bad_align(align: u64) -> bool
    ensures { result ≡ is_bad_align align }
{
    !align.is_power_of_two() || align > 65536
}

/// Refuses the definition of a function that isn't declared, is an import, is defined already, or has
/// a bad alignment; the first of these is told. Whether it is defined already is handed in.
pub fn check_definable(
    alloc: Global,
    declarations: &ModuleDeclarations,
    defined: bool,
    id: FuncId,
    alignment: u64,
) -> ModuleResult<()>
    ensures accepted { OnOk result (undefinable defined id alignment (slice_get (declarations.now).functions id) ≡ None) }
    ensures refused { IfErr result (λ e. Tells e (undefinable defined id alignment (slice_get (declarations.now).functions id))) }
{
    let Some(function) = declarations.function(id) else {
        let text = undeclared_function(alloc, id)?;
        return Err(ModuleError::Undeclared(text));
    };
    if !function.linkage().is_definable() {
        let name = function.owned_linkage_name(alloc, id)?;
        return Err(ModuleError::InvalidImportDefinition(name));
    }
    if defined {
        let name = function.owned_linkage_name(alloc, id)?;
        return Err(ModuleError::DuplicateDefinition(name));
    }
    if is_bad_align(alignment) {
        return Err(ModuleError::Backend(BackendCause::BadAlign { align: alignment }));
    }
    Ok(())
}

// The text of a function's identifier, as `u0:7`.
fn undeclared_function(alloc: Global, id: FuncId) -> Result<String, AllocError>
    ensures { IfOk result (λ text. string_bytes text ≡ user_text 0 id) }
{
    ModuleRelocTarget::from(id).to_string(alloc)
}

/// Refuses the definition of a data object that isn't declared, is an import or is defined already; then that
/// by a description without contents, of a bad alignment, with a reference past its imports, of thread-local data
/// with a section of its own or in Mach-O, with a zero byte in the text of the section, or with a text that Mach-O
/// refuses. The first of these is told. The file's format, and whether it is defined already, are handed in.
pub fn check_data_definable(
    alloc: Global,
    format: BinaryFormat,
    declarations: &ModuleDeclarations,
    defined: bool,
    id: DataId,
    desc: &DataDescription,
) -> ModuleResult<()>
    ensures accepted { OnOk result (undefinable_data format defined id desc.now (slice_get (declarations.now).objects id) ≡ None) }
    ensures refused { IfErr result (λ e. Tells e (undefinable_data format defined id desc.now (slice_get (declarations.now).objects id))) }
{
    let Some(object) = declarations.data(id) else {
        let text = undeclared_data(alloc, id)?;
        return Err(ModuleError::Undeclared(text));
    };
    if let Err(error) = check_object(alloc, object, defined, id) {
        return Err(error);
    }
    check_description(alloc, format, object.tls(), desc)
}

// Refuses the definition of an import, and a second one.
fn check_object(
    alloc: Global,
    object: &DataDeclaration,
    defined: bool,
    id: DataId,
) -> ModuleResult<()>
    ensures accepted { OnOk result (undefinable_object defined id (Some object.now) ≡ None) }
    ensures refused { IfErr result (λ e. Tells e (undefinable_object defined id (Some object.now))) }
{
    if !object.linkage().is_definable() {
        let name = object.linkage_name(alloc, id)?.into_owned(alloc)?;
        return Err(ModuleError::InvalidImportDefinition(name));
    }
    if defined {
        let name = object.linkage_name(alloc, id)?.into_owned(alloc)?;
        return Err(ModuleError::DuplicateDefinition(name));
    }
    Ok(())
}

// Refuses a description that can't define a data object with this thread-local mark.
fn check_description(
    alloc: Global,
    format: BinaryFormat,
    tls: bool,
    desc: &DataDescription,
) -> ModuleResult<()>
    ensures accepted { OnOk result (description_cause format tls desc.now ≡ None) }
    ensures refused { IfErr result (λ e. Tells e (description_cause format tls desc.now)) }
{
    if desc.init().is_uninitialized() {
        return Err(ModuleError::Backend(BackendCause::NoContents));
    }
    let align = desc.align().unwrap_or(1);
    if is_bad_align(align) {
        return Err(ModuleError::Backend(BackendCause::BadAlign { align }));
    }
    if let Some(function) = loose_function(desc) {
        let text = function.to_string(alloc)?;
        return Err(ModuleError::Undeclared(text));
    }
    if let Some(value) = loose_value(desc) {
        let text = value.to_string(alloc)?;
        return Err(ModuleError::Undeclared(text));
    }
    if tls && (desc.custom_section().is_some() || is_macho(format)) {
        return Err(ModuleError::Backend(BackendCause::TlsPlace));
    }
    if let Err(error) = check_no_zero_byte(desc.custom_section().unwrap_or("").as_bytes()) {
        return Err(error);
    }
    check_section(format, desc.init(), desc.custom_section())
}

fn is_macho(format: BinaryFormat) -> bool
    ensures { result ≡ is_macho format }
{
    matches!(format, BinaryFormat::Macho)
}

// Refuses the text of a section by its fault, or where it asks for zero-fill and the contents are bytes.
fn check_section(format: BinaryFormat, init: &Init, section: Option<&str>) -> ModuleResult<()>
    ensures accepted { OnOk result (section_cause format (init_view init.now) (option_map (λ text. text.now) section.entry) ≡ None) }
    ensures refused { IfErr result (λ e. Tells e (section_cause format (init_view init.now) (option_map (λ text. text.now) section.entry))) }
{
    match section {
        Some(text) => check_text(init, parse_section(text, format)),
        None => Ok(()),
    }
}

fn check_text(init: &Init, text: Result<(&str, &str, u32), SectionFault>) -> ModuleResult<()>
    ensures accepted { OnOk result (text_cause (init_view init.now) (answer_of text.entry) ≡ None) }
    ensures refused { IfErr result (λ e. Tells e (text_cause (init_view init.now) (answer_of text.entry))) }
{
    match text {
        Ok((_, _, flags)) => {
            if is_zero_fill_type(flags) && are_bytes(init) {
                return Err(ModuleError::Backend(BackendCause::ZerofillBytes));
            }
            Ok(())
        }
        Err(fault) => Err(ModuleError::Backend(BackendCause::BadSection(fault))),
    }
}

fn are_bytes(init: &Init) -> bool
    ensures { result ≡ are_bytes (init_view init.now) }
{
    matches!(init, Init::Bytes { .. })
}

// The first reference of a written function address that lies past the imported functions.
fn loose_function(desc: &DataDescription) -> Option<FuncRef>
    ensures { result ≡ option_map (λ a. a.1) (loose_function desc.now) }
{
    let count = desc.function_decls().len();
    let loose = desc
        .function_relocs()
        .iter()
        .find(|reloc| !((reloc.1.as_u32() as usize) < count));
    match loose {
        Some(reloc) => Some(reloc.1),
        None => None,
    }
}

// The first reference of a written data address that lies past the imported data objects.
fn loose_value(desc: &DataDescription) -> Option<GlobalValue>
    ensures { result ≡ option_map (λ a. a.1) (loose_value desc.now) }
{
    let count = desc.data_decls().len();
    let loose = desc
        .data_relocs()
        .iter()
        .find(|reloc| !((reloc.1.as_u32() as usize) < count));
    match loose {
        Some(reloc) => Some(reloc.1),
        None => None,
    }
}

// The text of a data object's identifier, as `u1:7`.
fn undeclared_data(alloc: Global, id: DataId) -> Result<String, AllocError>
    ensures { IfOk result (λ text. string_bytes text ≡ user_text 1 id) }
{
    ModuleRelocTarget::from(id).to_string(alloc)
}
