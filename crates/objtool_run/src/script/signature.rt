//! Signatures, each an object under the key `signature`.

ghost use Rattle.std.specs.Prelude.{◌≡◌, ◌++◌, IfOk, OnOk, [], codes};
ghost use Rattle.serde_json.specs.View.{view, items_view};
ghost use Rattle.serde_json.specs.Find.{get};
ghost use Rattle.json_form.specs.Form.{Gives, or_else};
ghost use Rattle.objtool_run.specs.SignatureForm.{type_named, extension_named, purpose_named, convention_named, extension_of, purpose_of, convention_of, param_object, param_of, params_in, params_of, signature_object, signature_at};

use crate::script::values::text_of;
use ir_core::{AbiParam, ArgumentExtension, ArgumentPurpose, CallConv, Signature, ValueType};
use json_form::{FormError, has_keys_within, text_at};
use serde_json::Value;
use std::alloc::{AllocError, Global};

fn type_named(text: &str) -> Result<ValueType, FormError>
    ensures { Gives (λ t. t) result (type_named text.now) }
{
    match text {
        "I8" => Ok(ValueType::I8),
        "I16" => Ok(ValueType::I16),
        "I32" => Ok(ValueType::I32),
        "I64" => Ok(ValueType::I64),
        "I128" => Ok(ValueType::I128),
        "F32" => Ok(ValueType::F32),
        "F64" => Ok(ValueType::F64),
        _ => Err(FormError::NotForm),
    }
}

fn extension_named(text: &str) -> Result<ArgumentExtension, FormError>
    ensures { Gives (λ e. e) result (extension_named text.now) }
{
    match text {
        "None" => Ok(ArgumentExtension::None),
        "Uext" => Ok(ArgumentExtension::Uext),
        "Sext" => Ok(ArgumentExtension::Sext),
        _ => Err(FormError::NotForm),
    }
}

fn purpose_named(text: &str) -> Result<ArgumentPurpose, FormError>
    ensures { Gives (λ p. p) result (purpose_named text.now) }
{
    match text {
        "Normal" => Ok(ArgumentPurpose::Normal),
        "StructReturn" => Ok(ArgumentPurpose::StructReturn),
        "VMContext" => Ok(ArgumentPurpose::VMContext),
        _ => Err(FormError::NotForm),
    }
}

fn convention_named(text: &str) -> Result<CallConv, FormError>
    ensures { Gives (λ c. c) result (convention_named text.now) }
{
    match text {
        "Fast" => Ok(CallConv::Fast),
        "Tail" => Ok(CallConv::Tail),
        "SystemV" => Ok(CallConv::SystemV),
        "WindowsFastcall" => Ok(CallConv::WindowsFastcall),
        "AppleAarch64" => Ok(CallConv::AppleAarch64),
        _ => Err(FormError::NotForm),
    }
}

fn extension_at(value: &Value) -> Result<ArgumentExtension, FormError>
    ensures { Gives (λ e. e) result (or_else extension_of ArgumentExtension.None (get (codes "extension") (view value.now))) }
{
    match value.get("extension") {
        Some(value) => extension_named(text_of(value)?),
        None => Ok(ArgumentExtension::None),
    }
}

fn purpose_at(value: &Value) -> Result<ArgumentPurpose, FormError>
    ensures { Gives (λ p. p) result (or_else purpose_of ArgumentPurpose.Normal (get (codes "purpose") (view value.now))) }
{
    match value.get("purpose") {
        Some(value) => purpose_named(text_of(value)?),
        None => Ok(ArgumentPurpose::Normal),
    }
}

fn convention_at(value: &Value, convention: CallConv) -> Result<CallConv, FormError>
    ensures { Gives (λ c. c) result (or_else convention_of convention (get (codes "call_conv") (view value.now))) }
{
    match value.get("call_conv") {
        Some(value) => convention_named(text_of(value)?),
        None => Ok(convention),
    }
}

#[tactic(auto, unfolding(crate::specs::SignatureForm::param_object))]
fn param_object(value: &Value) -> Result<AbiParam, FormError>
    ensures { Gives (λ p. p) result (param_object (view value.now)) }
{
    if !has_keys_within(value, &["type", "extension", "purpose"]) {
        return Err(FormError::NotForm);
    }
    let value_type = type_named(text_at(value, "type")?)?;
    let extension = extension_at(value)?;
    let purpose = purpose_at(value)?;
    Ok(AbiParam {
        value_type,
        extension,
        purpose,
    })
}

#[tactic(auto, unfolding(crate::specs::SignatureForm::param_of))]
fn param_of(value: &Value) -> Result<AbiParam, FormError>
    ensures { Gives (λ p. p) result (param_of (view value.now)) }
{
    match value.as_str() {
        Some(name) => Ok(AbiParam::new(type_named(name)?)),
        None => param_object(value),
    }
}

fn params_in(alloc: Global, values: &[Value]) -> Result<Vec<AbiParam>, FormError>
    ensures { Gives (λ v. v.items) result (params_in (items_view values.now)) }
{
    let mut params = Vec::new(alloc);
    for value in values {
        match param_of(value) {
            Ok(param) => params.push(param)?,
            Err(error) => return Err(error),
        }
    }
    Ok(params)
}

fn params_at(alloc: Global, value: &Value, key: &str) -> Result<Vec<AbiParam>, FormError>
    ensures { Gives (λ v. v.items) result (or_else params_of [] (get key.now (view value.now))) }
{
    match value.get(key) {
        Some(value) => match value.as_array() {
            Some(values) => params_in(alloc, values),
            None => Err(FormError::NotForm),
        },
        None => Ok(Vec::new(alloc)),
    }
}

fn push_params(signature: &mut Signature, params: &[AbiParam]) -> Result<(), AllocError>
    ensures { OnOk result (signature.new ≡ record signature.old { params = (signature.old).params ++ params.now }) }
{
    for param in params {
        signature.push_param(*param)?;
    }
    Ok(())
}

fn push_returns(signature: &mut Signature, params: &[AbiParam]) -> Result<(), AllocError>
    ensures { OnOk result (signature.new ≡ record signature.old { returns = (signature.old).returns ++ params.now }) }
{
    for param in params {
        signature.push_return(*param)?;
    }
    Ok(())
}

/// A signature of these parts.
fn signature_with(
    alloc: Global,
    convention: CallConv,
    params: &[AbiParam],
    returns: &[AbiParam],
) -> Result<Signature, AllocError>
    ensures { IfOk result (λ s. s ≡ record { params = params.now; returns = returns.now; call_conv = convention }) }
{
    let mut signature = Signature::new(alloc, convention);
    push_params(&mut signature, params)?;
    push_returns(&mut signature, returns)?;
    Ok(signature)
}

#[tactic(auto, unfolding(crate::specs::SignatureForm::signature_object))]
fn signature_object(
    alloc: Global,
    convention: CallConv,
    value: &Value,
) -> Result<Signature, FormError>
    ensures { Gives (λ s. s) result (signature_object convention (view value.now)) }
{
    if !has_keys_within(value, &["call_conv", "params", "returns"]) {
        return Err(FormError::NotForm);
    }
    let call_conv = convention_at(value, convention)?;
    let params = params_at(alloc, value, "params")?;
    let returns = params_at(alloc, value, "returns")?;
    Ok(signature_with(alloc, call_conv, &params, &returns)?)
}

/// The signature of a command, which is empty and of this convention where the command names none.
pub fn signature_at(
    alloc: Global,
    convention: CallConv,
    value: &Value,
) -> Result<Signature, FormError>
    ensures { Gives (λ s. s) result (signature_at convention (view value.now)) }
{
    match value.get("signature") {
        Some(value) => signature_object(alloc, convention, value),
        None => Ok(Signature::new(alloc, convention)),
    }
}
