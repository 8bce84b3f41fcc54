//! JSON values to declarations.

ghost use Rattle.std.specs.Prelude.{◌≡◌, ◌++◌, codes, IfOk, OnOk};
ghost use Rattle.serde_json.specs.View.{view, items_view};
ghost use Rattle.json_form.specs.Form.{Gives, each_of};
ghost use Rattle.cranelift_module.specs.DeclarationForm.{param_of, params_at, signature_of, function_of, object_of};
ghost use Rattle.cranelift_module.specs.DeclarationJson.{Reads, required, version_of, rows_at};

use crate::declaration_json::cause::JsonCause;
use crate::declaration_json::words::{
    convention_named, extension_named, linkage_named, purpose_named, type_named,
};
use crate::{DataDeclaration, FunctionDeclaration, VERSION};
use ir_core::{AbiParam, CallConv, Signature};
use json_form::{FormError, has_keys_within, items_at, mark_at, name_at, text_at};
use serde_json::Value;
use std::alloc::{AllocError, Global};

#[tactic(auto, unfolding(crate::specs::DeclarationForm::param_of))]
fn param_of(value: &Value) -> Result<AbiParam, FormError>
    ensures { Gives (λ p. p) result (param_of (view value.now)) }
{
    if !has_keys_within(value, &["type", "extension", "purpose"]) {
        return Err(FormError::NotForm);
    }
    let value_type = type_named(text_at(value, "type")?)?;
    let extension = extension_named(text_at(value, "extension")?)?;
    let purpose = purpose_named(text_at(value, "purpose")?)?;
    Ok(AbiParam {
        value_type,
        extension,
        purpose,
    })
}

fn params_in(alloc: Global, values: &[Value]) -> Result<Vec<AbiParam>, FormError>
    ensures { Gives (λ v. v.items) result (each_of param_of (items_view values.now)) }
{
    let mut params = Vec::new(alloc);
    for value in values {
        match param_of(value) {
            Ok(param) => params.push(param)?,
            Err(error) => return Err(error),
        }
    }
    Ok(params)
}

fn params_at(alloc: Global, value: &Value, key: &str) -> Result<Vec<AbiParam>, FormError>
    ensures { Gives (λ v. v.items) result (params_at key.now (view value.now)) }
{
    params_in(alloc, items_at(value, key)?)
}

fn push_params(signature: &mut Signature, params: &[AbiParam]) -> Result<(), AllocError>
    ensures { OnOk result (signature.new ≡ record signature.old { params = (signature.old).params ++ params.now }) }
{
    for param in params {
        signature.push_param(*param)?;
    }
    Ok(())
}

fn push_returns(signature: &mut Signature, params: &[AbiParam]) -> Result<(), AllocError>
    ensures { OnOk result (signature.new ≡ record signature.old { returns = (signature.old).returns ++ params.now }) }
{
    for param in params {
        signature.push_return(*param)?;
    }
    Ok(())
}

/// A signature of these parts.
fn signature_with(
    alloc: Global,
    call_conv: CallConv,
    params: &[AbiParam],
    returns: &[AbiParam],
) -> Result<Signature, AllocError>
    ensures { IfOk result (λ s. s ≡ record { params = params.now; returns = returns.now; call_conv = call_conv }) }
{
    let mut signature = Signature::new(alloc, call_conv);
    push_params(&mut signature, params)?;
    push_returns(&mut signature, returns)?;
    Ok(signature)
}

#[tactic(auto, unfolding(crate::specs::DeclarationForm::signature_of))]
fn signature_of(alloc: Global, value: &Value) -> Result<Signature, FormError>
    ensures { Gives (λ s. s) result (signature_of (view value.now)) }
{
    if !has_keys_within(value, &["call_conv", "params", "returns"]) {
        return Err(FormError::NotForm);
    }
    let call_conv = convention_named(text_at(value, "call_conv")?)?;
    let params = params_at(alloc, value, "params")?;
    let returns = params_at(alloc, value, "returns")?;
    Ok(signature_with(alloc, call_conv, &params, &returns)?)
}

#[tactic(auto, unfolding(crate::specs::DeclarationForm::function_of))]
fn function_of(alloc: Global, value: &Value) -> Result<FunctionDeclaration, FormError>
    ensures { Gives (λ f. f) result (function_of (view value.now)) }
{
    if !has_keys_within(value, &["name", "linkage", "signature"]) {
        return Err(FormError::NotForm);
    }
    let name = name_at(alloc, value, "name")?;
    let linkage = linkage_named(text_at(value, "linkage")?)?;
    let signature = signature_of(alloc, value.get("signature").ok_or(FormError::NotForm)?)?;
    Ok(FunctionDeclaration::new(name, linkage, signature))
}

#[tactic(auto, unfolding(crate::specs::DeclarationForm::object_of))]
fn object_of(alloc: Global, value: &Value) -> Result<DataDeclaration, FormError>
    ensures { Gives (λ o. o) result (object_of (view value.now)) }
{
    if !has_keys_within(value, &["name", "linkage", "writable", "tls"]) {
        return Err(FormError::NotForm);
    }
    let name = name_at(alloc, value, "name")?;
    let linkage = linkage_named(text_at(value, "linkage")?)?;
    let writable = mark_at(value, "writable")?;
    let tls = mark_at(value, "tls")?;
    Ok(DataDeclaration::new(name, linkage, writable, tls))
}

fn functions_in(alloc: Global, values: &[Value]) -> Result<Vec<FunctionDeclaration>, FormError>
    ensures { Gives (λ v. v.items) result (each_of function_of (items_view values.now)) }
{
    let mut functions = Vec::new(alloc);
    for value in values {
        match function_of(alloc, value) {
            Ok(function) => functions.push(function)?,
            Err(error) => return Err(error),
        }
    }
    Ok(functions)
}

fn objects_in(alloc: Global, values: &[Value]) -> Result<Vec<DataDeclaration>, FormError>
    ensures { Gives (λ v. v.items) result (each_of object_of (items_view values.now)) }
{
    let mut objects = Vec::new(alloc);
    for value in values {
        match object_of(alloc, value) {
            Ok(object) => objects.push(object)?,
            Err(error) => return Err(error),
        }
    }
    Ok(objects)
}

/// The value under a key of the outer object.
fn required<'a>(value: &'a Value, key: &str) -> Result<&'a Value, JsonCause>
    ensures { Reads (λ v. view v.now) result (required key.now (view value.now)) }
{
    value.get(key).ok_or(JsonCause::MissingKey)
}

/// The text of the marker, which is that of this version.
#[tactic(auto, unfolding(crate::specs::DeclarationJson::version_of))]
pub fn version_of(value: &Value) -> Result<&str, JsonCause>
    ensures { Reads (λ s. s.now) result (version_of (view value.now)) }
{
    let marker = required(value, "_version_marker")?;
    let text = marker.as_str().ok_or(JsonCause::WrongShape)?;
    if text != VERSION {
        return Err(JsonCause::OtherVersion);
    }
    Ok(text)
}

/// The functions of the outer object.
#[tactic(auto, unfolding(crate::specs::DeclarationJson::rows_at))]
pub fn functions_at(alloc: Global, value: &Value) -> Result<Vec<FunctionDeclaration>, JsonCause>
    ensures { Reads (λ v. v.items) result (rows_at (codes "functions") function_of (view value.now)) }
{
    let rows = required(value, "functions")?;
    let values = rows.as_array().ok_or(JsonCause::WrongShape)?;
    Ok(functions_in(alloc, values)?)
}

/// The data objects of the outer object.
#[tactic(auto, unfolding(crate::specs::DeclarationJson::rows_at))]
pub fn objects_at(alloc: Global, value: &Value) -> Result<Vec<DataDeclaration>, JsonCause>
    ensures { Reads (λ v. v.items) result (rows_at (codes "data_objects") object_of (view value.now)) }
{
    let rows = required(value, "data_objects")?;
    let values = rows.as_array().ok_or(JsonCause::WrongShape)?;
    Ok(objects_in(alloc, values)?)
}
