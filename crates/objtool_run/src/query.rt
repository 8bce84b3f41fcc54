//! What is asked over the input's JSON value.

ghost use Rattle.std.specs.Prelude.{◌≡◌, ◌≢◌, Option, Some, IfOk, IfErr, string_bytes};
ghost use Rattle.serde_json.specs.View.{view};
ghost use Rattle.cranelift_module.specs.JsonTexts.{json_cause_text};
ghost use Rattle.cranelift_module.specs.declared.declaration_json.cause.JsonCause.TheVariants.{Allocation};
ghost use Rattle.cranelift_module.specs.DeclarationJson.{value_of};
ghost use Rattle.serde_json.specs.Written.{compact_text};
ghost use Rattle.objtool_run.specs.declared.fault.Fault.TheVariants.{OutOfMemory};
ghost use Rattle.objtool_run.specs.Fault.{line};
ghost use Rattle.json_form.specs.Reply.{Reply, refusal};
ghost use Rattle.pe_core.specs.Texts.{error_text};
ghost use Rattle.pe_json.specs.Answers.{Answers};
ghost use Rattle.objtool_run.specs.Query.{reply_of, IsToldLine, FaultTells, IsTold, ExplainsQuery};
ghost use Rattle.objtool_run.specs.Run.{IsOfInput};
ghost use Rattle.objtool_run.specs.declared.words.Query.TheVariants.{Declarations};

use crate::fault::Fault;
use crate::words::Query;
use cranelift_module::{JsonCause, ModuleDeclarations};
use pe_core::pe_error::Error;
use pe_json::{Unanswered, clr_text, load_config_text, signed_text, tls_text};
use serde_json::Value;
use std::alloc::{AllocError, Global};

/// The line of what a library answers to the value that an input has.
pub(crate) fn ask(alloc: Global, query: Query, input: &[u8]) -> Result<Vec<u8>, Fault>
    ensures ok { IfOk result (λ text. IsTold query input.now text.items) }
    ensures explained { IfErr result (λ fault. ExplainsQuery query input.now fault) }
    ensures of_input { IfErr result (λ fault. IsOfInput fault) }
{
    let value = match Value::from_slice(alloc, input) {
        Ok(value) => value,
        Err(error) if error.is_memory() => return Err(Fault::OutOfMemory),
        Err(_) => return Err(Fault::NotUnderstood),
    };
    match reply(alloc, query, &value) {
        Ok(text) => Ok(text),
        Err(fault) => Err(fault),
    }
}

// The line of what is answered to a value.
fn reply(alloc: Global, query: Query, value: &Value) -> Result<Vec<u8>, Fault>
    ensures ok { IfOk result (λ text. IsToldLine text.items (reply_of query (view value.now))) }
    ensures fault { IfErr result (λ fault. FaultTells fault (reply_of query (view value.now))) }
{
    match query {
        Query::Declarations => declarations(alloc, value),
        Query::Signed => answered(alloc, signed_text(alloc, value)),
        Query::Clr => answered(alloc, clr_text(alloc, value)),
        Query::LoadConfig => answered(alloc, load_config_text(alloc, value)),
        Query::Tls => answered(alloc, tls_text(alloc, value)),
    }
}

// The line of what a reader of PE files answers, or its fault.
fn answered(alloc: Global, answer: Result<Vec<u8>, Unanswered>) -> Result<Vec<u8>, Fault>
    ensures ok { IfOk result (λ text. (reply : Option Reply) → Answers (λ v. v.items) answer reply → IsToldLine text.items reply) }
    ensures fault { IfErr result (λ fault. (reply : Option Reply) → Answers (λ v. v.items) answer reply → FaultTells fault reply) }
{
    match answer {
        Ok(text) => ended(text),
        Err(Unanswered::NotForm) => Err(Fault::NotUnderstood),
        Err(Unanswered::Refused(error)) => Err(refused_file(alloc, error)),
        Err(Unanswered::OutOfMemory) => Err(Fault::OutOfMemory),
    }
}

// A text with a newline.
pub(crate) fn ended(mut text: Vec<u8>) -> Result<Vec<u8>, Fault>
    ensures ok { IfOk result (λ ended. ended.items ≡ line text.items) }
    ensures fault { IfErr result (λ fault. fault ≡ OutOfMemory) }
{
    match text.push(b'\n') {
        Ok(()) => Ok(text),
        Err(_) => Err(Fault::OutOfMemory),
    }
}

// The fault of a file that a reader refuses.
fn refused_file(alloc: Global, error: Error) -> Fault
    ensures { FaultTells result (Some (refusal (error_text error))) }
{
    match file_refusal_text(alloc, error) {
        Ok(text) => Fault::Refused(text),
        Err(_) => Fault::OutOfMemory,
    }
}

fn file_refusal_text(alloc: Global, error: Error) -> Result<String, AllocError>
    ensures { IfOk result (λ text. string_bytes text ≡ line (error_text error)) }
{
    format!(in alloc; "{error}\n")
}

// The declarations that a value stands for, written again.
fn declarations(alloc: Global, value: &Value) -> Result<Vec<u8>, Fault>
    ensures ok { IfOk result (λ text. IsToldLine text.items (reply_of Declarations (view value.now))) }
    ensures fault { IfErr result (λ fault. FaultTells fault (reply_of Declarations (view value.now))) }
{
    let declarations = match ModuleDeclarations::from_value(alloc, value) {
        Ok(declarations) => declarations,
        Err(cause) => return Err(refused(alloc, cause)),
    };
    match declarations_line(alloc, &declarations) {
        Ok(text) => Ok(text),
        Err(_) => Err(Fault::OutOfMemory),
    }
}

// The line of some declarations.
fn declarations_line(
    alloc: Global,
    declarations: &ModuleDeclarations,
) -> Result<Vec<u8>, AllocError>
    ensures { IfOk result (λ text. text.items ≡ line (compact_text (value_of declarations.now))) }
{
    let mut text = declarations_text(alloc, declarations)?;
    text.push(b'\n')?;
    Ok(text)
}

// The text of some declarations.
fn declarations_text(
    alloc: Global,
    declarations: &ModuleDeclarations,
) -> Result<Vec<u8>, AllocError>
    ensures { IfOk result (λ text. text.items ≡ compact_text (value_of declarations.now)) }
{
    let value = declarations.to_value()?;
    let text = value.to_vec(alloc)?;
    Ok(text)
}

// The fault of declarations that are refused.
fn refused(alloc: Global, cause: JsonCause) -> Fault
    ensures told { cause ≢ Allocation → FaultTells result (Some (refusal (json_cause_text cause))) }
    ensures memory { cause ≡ Allocation → result ≡ OutOfMemory }
{
    if matches!(cause, JsonCause::Allocation) {
        return Fault::OutOfMemory;
    }
    match refusal_text(alloc, cause) {
        Ok(text) => Fault::Refused(text),
        Err(_) => Fault::OutOfMemory,
    }
}

fn refusal_text(alloc: Global, cause: JsonCause) -> Result<String, AllocError>
    ensures { IfOk result (λ text. string_bytes text ≡ line (json_cause_text cause)) }
{
    format!(in alloc; "{cause}\n")
}
