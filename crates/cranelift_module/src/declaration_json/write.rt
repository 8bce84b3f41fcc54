//! Declarations to JSON values.

ghost use Rattle.std.specs.Prelude.{◌≡◌, IfOk, map, option_map};
ghost use Rattle.serde_json.specs.View.{view};
ghost use Rattle.json_form.specs.Written.{list_value};
ghost use Rattle.cranelift_module.specs.DeclarationForm.{name_value, param_value, signature_value, function_value, object_value};
ghost use Rattle.cranelift_module.specs.DeclarationJson.{value_of};

use crate::declaration_json::words::{
    convention_word, extension_word, linkage_word, purpose_word, type_word,
};
use crate::{DataDeclaration, FunctionDeclaration, VERSION};
use ir_core::{AbiParam, Signature};
use serde_json::{Value, json};
use std::alloc::{AllocError, Global};

/// A name, or null where there is none.
fn name_value(alloc: Global, name: Option<&str>) -> Result<Value, AllocError>
    ensures { IfOk result (λ v. view v ≡ name_value (option_map (λ text. text.now) name.entry)) }
{
    match name {
        Some(text) => Value::try_from_str(alloc, text),
        None => Ok(Value::Null),
    }
}

#[tactic(auto, unfolding(crate::specs::DeclarationForm::param_value))]
fn param_value(alloc: Global, param: &AbiParam) -> Result<Value, AllocError>
    ensures { IfOk result (λ v. view v ≡ param_value param.now) }
{
    let value_type = type_word(param.value_type);
    let extension = extension_word(param.extension);
    let purpose = purpose_word(param.purpose);
    json!(in alloc; {"extension": extension, "purpose": purpose, "type": value_type})
}

fn params_value(alloc: Global, params: &[AbiParam]) -> Result<Value, AllocError>
    ensures { IfOk result (λ v. view v ≡ list_value param_value params.now) }
{
    let mut values = Vec::new(alloc);
    for param in params {
        values.push(param_value(alloc, param)?)?;
    }
    Ok(Value::Array(values))
}

#[tactic(auto, unfolding(crate::specs::DeclarationForm::signature_value))]
fn signature_value(alloc: Global, signature: &Signature) -> Result<Value, AllocError>
    ensures { IfOk result (λ v. view v ≡ signature_value signature.now) }
{
    let call_conv = convention_word(signature.call_conv());
    let params = params_value(alloc, signature.params())?;
    let returns = params_value(alloc, signature.returns())?;
    json!(in alloc; {"call_conv": call_conv, "params": params, "returns": returns})
}

#[tactic(auto, unfolding(crate::specs::DeclarationForm::function_value))]
fn function_value(alloc: Global, function: &FunctionDeclaration) -> Result<Value, AllocError>
    ensures { IfOk result (λ v. view v ≡ function_value function.now) }
{
    let linkage = linkage_word(function.linkage());
    let name = name_value(alloc, function.name())?;
    let signature = signature_value(alloc, function.signature())?;
    json!(in alloc; {"linkage": linkage, "name": name, "signature": signature})
}

#[tactic(auto, unfolding(crate::specs::DeclarationForm::object_value))]
fn object_value(alloc: Global, object: &DataDeclaration) -> Result<Value, AllocError>
    ensures { IfOk result (λ v. view v ≡ object_value object.now) }
{
    let linkage = linkage_word(object.linkage());
    let name = name_value(alloc, object.name())?;
    let tls = object.tls();
    let writable = object.writable();
    json!(in alloc; {"linkage": linkage, "name": name, "tls": tls, "writable": writable})
}

fn functions_value(alloc: Global, functions: &[FunctionDeclaration]) -> Result<Value, AllocError>
    ensures { IfOk result (λ v. view v ≡ list_value function_value functions.now) }
{
    let mut values = Vec::new(alloc);
    for function in functions {
        values.push(function_value(alloc, function)?)?;
    }
    Ok(Value::Array(values))
}

fn objects_value(alloc: Global, objects: &[DataDeclaration]) -> Result<Value, AllocError>
    ensures { IfOk result (λ v. view v ≡ list_value object_value objects.now) }
{
    let mut values = Vec::new(alloc);
    for object in objects {
        values.push(object_value(alloc, object)?)?;
    }
    Ok(Value::Array(values))
}

/// The value that stands for these functions and data objects.
#[tactic(auto, unfolding(crate::specs::DeclarationJson::value_of))]
pub fn declarations_value(
    alloc: Global,
    functions: &[FunctionDeclaration],
    objects: &[DataDeclaration],
) -> Result<Value, AllocError>
    ensures { IfOk result (λ v. view v ≡ value_of (record { functions = functions.now; objects = objects.now })) }
{
    let objects = objects_value(alloc, objects)?;
    let functions = functions_value(alloc, functions)?;
    json!(in alloc; {
        "_version_marker": VERSION,
        "data_objects": objects,
        "functions": functions
    })
}
