//! The names of declarations that were read: each is found, and none stands twice.

ghost use Rattle.std.specs.Prelude.{◌≡◌, ◌≢◌, ◌≤◌, [], Some, IfOk, IfErr, OnOk, length, option_map, string_bytes, string_cmp};
ghost use Rattle.std.specs.BTreeMap.{Updates};
ghost use Rattle.cranelift_module.specs.declared.declaration_json.cause.JsonCause.TheVariants.{DuplicateName, Allocation};
ghost use Rattle.cranelift_module.specs.Declarations.{IsSound, AddsName, HasName};
ghost use Rattle.cranelift_module.specs.DeclarationJson.{IsRepeat};

use crate::declaration_json::cause::JsonCause;
use crate::{DataDeclaration, DataId, FuncId, FuncOrDataId, FunctionDeclaration};
use std::alloc::{AllocError, Global};
use std::collections::BTreeMap;

/// There are no more identifiers of a kind than this.
const IDENTIFIER_LIMIT: usize = 4_294_967_295;

/// A name is found from now on.
fn put_name(
    alloc: Global,
    names: &mut BTreeMap<String, FuncOrDataId>,
    name: &str,
    id: FuncOrDataId,
) -> Result<(), AllocError>
    ensures { OnOk result ((text : _) × (string_bytes text ≡ name.now) × Updates string_cmp names.old names.new text (Some id)) }
{
    let key = String::from_str(alloc, name)?;
    names.insert(key, id)?;
    Ok(())
}

/// A name that is there and new is found from now on.
fn add_name(
    alloc: Global,
    names: &mut BTreeMap<String, FuncOrDataId>,
    name: Option<&str>,
    id: FuncOrDataId,
) -> Result<(), JsonCause>
    ensures added { OnOk result (AddsName names.old names.new (option_map (λ text. text.now) name.entry) id) }
    ensures cause { IfErr result (λ cause. cause ≢ Allocation → (cause ≡ DuplicateName) × HasName names.old (option_map (λ text. text.now) name.entry)) }
{
    match name {
        Some(text) => {
            if names.contains_key(text) {
                return Err(JsonCause::DuplicateName);
            }
            Ok(put_name(alloc, names, text, id)?)
        }
        None => Ok(()),
    }
}

/// Where the name of each function stands.
fn function_names(
    alloc: Global,
    functions: &[FunctionDeclaration],
) -> Result<BTreeMap<String, FuncOrDataId>, JsonCause>
    requires { length functions.now ≤ 4294967295 }
    ensures sound { IfOk result (λ names. IsSound names functions.now []) }
    ensures cause { IfErr result (λ cause. IsRepeat cause functions.now []) }
{
    let mut names = BTreeMap::new(alloc);
    for (i, function) in functions.iter().enumerate() {
        let id = FuncOrDataId::Func(FuncId::from_u32(i as u32));
        add_name(alloc, &mut names, function.name(), id)?;
    }
    Ok(names)
}

/// Where each name stands.
pub fn names_of(
    alloc: Global,
    functions: &[FunctionDeclaration],
    objects: &[DataDeclaration],
) -> Result<BTreeMap<String, FuncOrDataId>, JsonCause>
    ensures sound { IfOk result (λ names. IsSound names functions.now objects.now) }
    ensures cause { IfErr result (λ cause. IsRepeat cause functions.now objects.now) }
{
    if functions.len() > IDENTIFIER_LIMIT || objects.len() > IDENTIFIER_LIMIT {
        return Err(JsonCause::Allocation);
    }
    let mut names = function_names(alloc, functions)?;
    for (i, object) in objects.iter().enumerate() {
        let id = FuncOrDataId::Data(DataId::from_u32(i as u32));
        add_name(alloc, &mut names, object.name(), id)?;
    }
    Ok(names)
}
