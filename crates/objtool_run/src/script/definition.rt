//! Definitions, each an object of the list `commands`: their contents and references.

ghost use Rattle.std.specs.Prelude.{◌≡◌, ◌<◌, ◌+◌, ◌++◌, length, codes, None, OnOk, option_map, option_copied};
ghost use Rattle.serde_json.specs.Find.{get};
ghost use Rattle.serde_json.specs.View.{view, items_view};
ghost use Rattle.cranelift_module.specs.Init.{init_view, no_description};
ghost use Rattle.cranelift_object.specs.Command.{command_view};
ghost use Rattle.json_form.specs.Form.{Gives, each_of, or_else, number_of, has_keys_within};
ghost use Rattle.objtool_run.specs.ValueForm.{pair_of};
ghost use Rattle.objtool_run.specs.DefinitionForm.{signed_in, data_address_of, define_of, contents_at, align_at, section_at, definition_keys, define_data_of};

use crate::script::reloc::{relocs_in, targets_in};
use crate::script::values::{list_at, pair_of};
use cranelift_module::{DataDescription, DataId, FuncId, Init, ModuleRelocTarget};
use cranelift_object::Command;
use ir_core::{FuncRef, GlobalValue};
use json_form::{
    FormError, has_item, has_keys_within, hex_at, mark_or, number_at, number_of, text_at, u32_at,
    u32_in, value_at,
};
use serde_json::Value;
use std::alloc::{AllocError, Global};

/// A description refers to fewer functions, and to fewer data objects, than there are references.
const REFERENCE_LIMIT: usize = 4_294_967_295;

/// The signed integer of at most 64 bits at a place of a list.
fn signed_in(value: &Value, place: usize) -> Result<i64, FormError>
    ensures { Gives (λ z. z) result (signed_in place (view value.now)) }
{
    value
        .get(place)
        .and_then(Value::as_i64)
        .ok_or(FormError::NotForm)
}

/// Where the address of a data object is written.
#[tactic(auto, unfolding(crate::specs::DefinitionForm::data_address_of))]
fn data_address_of(value: &Value) -> Result<(u32, u32, i64), FormError>
    ensures { Gives (λ a. a) result (data_address_of (view value.now)) }
{
    if has_item(value, 3) {
        return Err(FormError::NotForm);
    }
    let offset = u32_in(value, 0)?;
    let reference = u32_in(value, 1)?;
    let addend = signed_in(value, 2)?;
    Ok((offset, reference, addend))
}

/// The addresses of functions of a list.
fn function_addresses_in(alloc: Global, values: &[Value]) -> Result<Vec<(u32, u32)>, FormError>
    ensures { Gives (λ v. v.items) result (each_of pair_of (items_view values.now)) }
{
    let mut addresses = Vec::new(alloc);
    for value in values {
        match pair_of(value) {
            Ok(address) => addresses.push(address)?,
            Err(error) => return Err(error),
        }
    }
    Ok(addresses)
}

/// The addresses of data objects of a list.
fn data_addresses_in(alloc: Global, values: &[Value]) -> Result<Vec<(u32, u32, i64)>, FormError>
    ensures { Gives (λ v. v.items) result (each_of data_address_of (items_view values.now)) }
{
    let mut addresses = Vec::new(alloc);
    for value in values {
        match data_address_of(value) {
            Ok(address) => addresses.push(address)?,
            Err(error) => return Err(error),
        }
    }
    Ok(addresses)
}

/// The alignment of a function, 1 where none is asked for.
fn align_or_one(value: &Value) -> Result<u64, FormError>
    ensures { Gives (λ n. n) result (or_else number_of 1 (get (codes "align") (view value.now))) }
{
    match value.get("align") {
        Some(align) => number_of(align),
        None => Ok(1),
    }
}

/// A definition of a function.
#[tactic(auto, unfolding(crate::specs::DefinitionForm::define_of))]
pub fn define_of(alloc: Global, value: &Value) -> Result<Command, FormError>
    ensures { Gives command_view result (define_of (view value.now)) }
{
    if !has_keys_within(value, &["op", "id", "align", "bytes", "relocs"]) {
        return Err(FormError::NotForm);
    }
    let id = u32_at(value, "id")?;
    let align = align_or_one(value)?;
    let bytes = hex_at(alloc, value, "bytes")?;
    let relocs = relocs_in(alloc, list_at(value, "relocs")?)?;
    Ok(Command::DefineFunction {
        id: FuncId::from_u32(id),
        align,
        bytes,
        relocs,
    })
}

/// Bytes, or a number of zeros, or neither, but not both.
fn contents_at(alloc: Global, value: &Value) -> Result<Init, FormError>
    ensures { Gives init_view result (contents_at (view value.now)) }
{
    match (value.get("bytes").is_some(), value.get("zeros").is_some()) {
        (false, false) => Ok(Init::Uninitialized),
        (true, false) => {
            let contents = hex_at(alloc, value, "bytes")?;
            Ok(Init::Bytes { contents })
        }
        (false, true) => {
            let size = number_at(value, "zeros")?;
            Ok(Init::Zeros {
                size: size as usize,
            })
        }
        (true, true) => Err(FormError::NotForm),
    }
}

/// The alignment, where one is asked for.
fn align_at(value: &Value) -> Result<Option<u64>, FormError>
    ensures { Gives (λ n. n) result (align_at (view value.now)) }
{
    match value.get("align") {
        Some(align) => {
            let align = number_of(align)?;
            Ok(Some(align))
        }
        None => Ok(None),
    }
}

/// The text of a section of its own, where there is one.
fn section_at<'a>(value: &'a Value) -> Result<Option<&'a str>, FormError>
    ensures { Gives (option_map (λ s. s.now)) result (section_at (view value.now)) }
{
    match value.get("section") {
        Some(section) => match section.as_str() {
            Some(text) => Ok(Some(text)),
            None => Err(FormError::NotForm),
        },
        None => Ok(None),
    }
}

/// A description that begins so.
fn begin(alloc: Global, contents: Init) -> DataDescription
    ensures { result ≡ record no_description { contents = init_view contents } }
{
    let mut desc = DataDescription::new(alloc);
    match contents {
        Init::Uninitialized => {}
        Init::Bytes { contents } => desc.define(contents),
        Init::Zeros { size } => desc.define_zeroinit(size),
    }
    desc
}

/// Sets the alignment and the section that are asked for, and the mark of use.
fn settle(
    alloc: Global,
    desc: &mut DataDescription,
    align: Option<u64>,
    section: Option<&str>,
    used: bool,
) -> Result<(), AllocError>
    requires align { (desc.old).align ≡ None }
    requires section { (desc.old).section ≡ None }
    ensures { OnOk result (desc.new ≡ record desc.old { align = align; section = option_copied section.entry; used = used }) }
{
    if let Some(align) = align {
        desc.set_align(align);
    }
    if let Some(section) = section {
        desc.set_custom_section(alloc, section)?;
    }
    desc.set_used(used);
    Ok(())
}

/// Imports functions, each behind those before it.
fn import_functions(
    desc: &mut DataDescription,
    targets: &[ModuleRelocTarget],
) -> Result<(), AllocError>
    requires { length (desc.old).function_decls + length targets.now < 4294967296 }
    ensures { OnOk result (desc.new ≡ record desc.old { function_decls = (desc.old).function_decls ++ targets.now }) }
{
    for target in targets {
        desc.import_function(*target)?;
    }
    Ok(())
}

/// Imports data objects, each behind those before it.
fn import_data(desc: &mut DataDescription, targets: &[ModuleRelocTarget]) -> Result<(), AllocError>
    requires { length (desc.old).data_decls + length targets.now < 4294967296 }
    ensures { OnOk result (desc.new ≡ record desc.old { data_decls = (desc.old).data_decls ++ targets.now }) }
{
    for target in targets {
        desc.import_global_value(*target)?;
    }
    Ok(())
}

/// Writes addresses of functions, each behind those before it.
fn write_functions(desc: &mut DataDescription, addresses: &[(u32, u32)]) -> Result<(), AllocError>
    ensures { OnOk result (desc.new ≡ record desc.old { function_relocs = (desc.old).function_relocs ++ addresses.now }) }
{
    for address in addresses {
        desc.write_function_addr(address.0, FuncRef::from_u32(address.1))?;
    }
    Ok(())
}

/// Writes addresses of data objects, each behind those before it.
fn write_data(desc: &mut DataDescription, addresses: &[(u32, u32, i64)]) -> Result<(), AllocError>
    ensures { OnOk result (desc.new ≡ record desc.old { data_relocs = (desc.old).data_relocs ++ addresses.now }) }
{
    for address in addresses {
        desc.write_data_addr(address.0, GlobalValue::from_u32(address.1), address.2)?;
    }
    Ok(())
}

/// Whether an object has no keys beside those of a definition of data.
fn has_definition_keys(value: &Value) -> bool
    ensures { result ≡ has_keys_within definition_keys (view value.now) }
{
    let keys = [
        "op",
        "id",
        "bytes",
        "zeros",
        "align",
        "section",
        "used",
        "functions",
        "data",
        "function_addresses",
        "data_addresses",
    ];
    has_keys_within(value, &keys)
}

/// A definition of a data object.
#[tactic(auto, unfolding(crate::specs::DefinitionForm::define_data_of))]
pub fn define_data_of(alloc: Global, value: &Value) -> Result<Command, FormError>
    ensures { Gives command_view result (define_data_of (view value.now)) }
{
    if !has_definition_keys(value) {
        return Err(FormError::NotForm);
    }
    let id = u32_at(value, "id")?;
    let contents = contents_at(alloc, value)?;
    let align = align_at(value)?;
    let section = section_at(value)?;
    let used = mark_or(value, "used", false)?;
    let functions = targets_in(alloc, list_at(value, "functions")?)?;
    let data = targets_in(alloc, list_at(value, "data")?)?;
    let function_addresses = function_addresses_in(alloc, list_at(value, "function_addresses")?)?;
    let data_addresses = data_addresses_in(alloc, list_at(value, "data_addresses")?)?;
    if functions.len() >= REFERENCE_LIMIT || data.len() >= REFERENCE_LIMIT {
        return Err(FormError::OutOfMemory);
    }
    let mut desc = begin(alloc, contents);
    settle(alloc, &mut desc, align, section, used)?;
    import_functions(&mut desc, &functions)?;
    import_data(&mut desc, &data)?;
    write_functions(&mut desc, &function_addresses)?;
    write_data(&mut desc, &data_addresses)?;
    Ok(Command::DefineData {
        id: DataId::from_u32(id),
        desc,
    })
}
