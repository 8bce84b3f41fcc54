//! Commands, each an object of the list `commands`.

ghost use Rattle.std.specs.Prelude.{◌≡◌, map, [], IfOk};
ghost use Rattle.serde_json.specs.View.{view, items_view};
ghost use Rattle.cranelift_object.specs.Command.{command_view};
ghost use Rattle.json_form.specs.Form.{Gives};
ghost use Rattle.objtool_run.specs.Script.{linkage_of, declare_of, anonymous_of, declare_data_of, anonymous_data_of, definition_by, data_command_by, command_of, commands_of};

use crate::script::definition::{define_data_of, define_of};
use crate::script::signature::signature_at;
use cranelift_module::Linkage;
use cranelift_object::Command;
use ir_core::CallConv;
use json_form::{FormError, has_keys_within, mark_or, text_at};
use serde_json::Value;
use std::alloc::Global;

fn linkage_of(text: &str) -> Result<Linkage, FormError>
    ensures { Gives (λ l. l) result (linkage_of text.now) }
{
    match text {
        "Import" => Ok(Linkage::Import),
        "Local" => Ok(Linkage::Local),
        "Preemptible" => Ok(Linkage::Preemptible),
        "Hidden" => Ok(Linkage::Hidden),
        "Export" => Ok(Linkage::Export),
        _ => Err(FormError::NotForm),
    }
}

#[tactic(auto, unfolding(crate::specs::Script::declare_of))]
fn declare_of(alloc: Global, convention: CallConv, value: &Value) -> Result<Command, FormError>
    ensures { Gives command_view result (declare_of convention (view value.now)) }
{
    if !has_keys_within(value, &["op", "name", "linkage", "signature"]) {
        return Err(FormError::NotForm);
    }
    let name = text_at(value, "name")?;
    let linkage = linkage_of(text_at(value, "linkage")?)?;
    let signature = signature_at(alloc, convention, value)?;
    Ok(Command::DeclareFunction {
        name: String::from_str(alloc, name)?,
        linkage,
        signature,
    })
}

#[tactic(auto, unfolding(crate::specs::Script::anonymous_of))]
fn anonymous_of(alloc: Global, convention: CallConv, value: &Value) -> Result<Command, FormError>
    ensures { Gives command_view result (anonymous_of convention (view value.now)) }
{
    if !has_keys_within(value, &["op", "signature"]) {
        return Err(FormError::NotForm);
    }
    let signature = signature_at(alloc, convention, value)?;
    Ok(Command::DeclareAnonymousFunction { signature })
}

#[tactic(auto, unfolding(crate::specs::Script::declare_data_of))]
fn declare_data_of(alloc: Global, value: &Value) -> Result<Command, FormError>
    ensures { Gives command_view result (declare_data_of (view value.now)) }
{
    if !has_keys_within(value, &["op", "name", "linkage", "writable", "tls"]) {
        return Err(FormError::NotForm);
    }
    let name = text_at(value, "name")?;
    let linkage = linkage_of(text_at(value, "linkage")?)?;
    let writable = mark_or(value, "writable", false)?;
    let tls = mark_or(value, "tls", false)?;
    Ok(Command::DeclareData {
        name: String::from_str(alloc, name)?,
        linkage,
        writable,
        tls,
    })
}

#[tactic(auto, unfolding(crate::specs::Script::anonymous_data_of))]
fn anonymous_data_of(value: &Value) -> Result<Command, FormError>
    ensures { Gives command_view result (anonymous_data_of (view value.now)) }
{
    if !has_keys_within(value, &["op", "writable", "tls"]) {
        return Err(FormError::NotForm);
    }
    let writable = mark_or(value, "writable", false)?;
    let tls = mark_or(value, "tls", false)?;
    Ok(Command::DeclareAnonymousData { writable, tls })
}

#[tactic(auto, unfolding(crate::specs::Script::command_of))]
fn command_of(alloc: Global, convention: CallConv, value: &Value) -> Result<Command, FormError>
    ensures { Gives command_view result (command_of convention (view value.now)) }
{
    match text_at(value, "op")? {
        "declare_function" => declare_of(alloc, convention, value),
        "declare_anonymous_function" => anonymous_of(alloc, convention, value),
        op => data_command_by(alloc, op, value),
    }
}

fn data_command_by(alloc: Global, op: &str, value: &Value) -> Result<Command, FormError>
    ensures { Gives command_view result (data_command_by op.now (view value.now)) }
{
    match op {
        "declare_data" => declare_data_of(alloc, value),
        "declare_anonymous_data" => anonymous_data_of(value),
        op => definition_by(alloc, op, value),
    }
}

fn definition_by(alloc: Global, op: &str, value: &Value) -> Result<Command, FormError>
    ensures { Gives command_view result (definition_by op.now (view value.now)) }
{
    match op {
        "define_function" => define_of(alloc, value),
        "define_data" => define_data_of(alloc, value),
        _ => Err(FormError::NotForm),
    }
}

/// The commands of a list, in its order. A declaration that names no signature has an empty one of
/// this convention.
pub fn commands_of(
    alloc: Global,
    convention: CallConv,
    values: &[Value],
) -> Result<Vec<Command>, FormError>
    ensures { Gives (λ v. map command_view v.items) result (commands_of convention (items_view values.now)) }
{
    let mut commands = Vec::new(alloc);
    for value in values {
        match command_of(alloc, convention, value) {
            Ok(command) => commands.push(command)?,
            Err(error) => return Err(error),
        }
    }
    Ok(commands)
}
