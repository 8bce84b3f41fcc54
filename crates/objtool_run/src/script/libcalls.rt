//! The texts of calls into the runtime, an object under the key `libcalls`.

ghost use Rattle.std.specs.Prelude.{◌≡◌, length, map, zip, codes, option_copied};
ghost use Rattle.std.specs.List.{find};
ghost use Rattle.std.specs.Str.{bytes_eq};
ghost use Rattle.serde_json.specs.Find.{get};
ghost use Rattle.serde_json.specs.View.{view};
ghost use Rattle.cranelift_module.specs.LibraryNames.{usual_texts};
ghost use Rattle.ir_core.specs.Names.{libcall_name};
ghost use Rattle.json_form.specs.Form.{Gives, or_else, has_keys_within};
ghost use Rattle.objtool_run.specs.TargetForm.{libcalls, libcall_named, libcall_text, libcalls_of, libcalls_at, with_text, all_of};

use crate::script::values::text_of;
use cranelift_module::{LibcallNames, default_libcall_names};
use ir_core::LibCall;
use json_form::{FormError, has_keys_within};
use serde_json::Value;
use std::alloc::Global;

/// All calls, in their order.
const LIBCALLS: [LibCall; 18] = [
    LibCall::Probestack,
    LibCall::CeilF32,
    LibCall::CeilF64,
    LibCall::FloorF32,
    LibCall::FloorF64,
    LibCall::TruncF32,
    LibCall::TruncF64,
    LibCall::NearestF32,
    LibCall::NearestF64,
    LibCall::FmaF32,
    LibCall::FmaF64,
    LibCall::Memcpy,
    LibCall::Memset,
    LibCall::Memmove,
    LibCall::Memcmp,
    LibCall::ElfTlsGetAddr,
    LibCall::ElfTlsGetOffset,
    LibCall::X86Pshufb,
];

fn libcall_word(call: LibCall) -> &'static str
    ensures { result.now ≡ libcall_name call }
{
    match call {
        LibCall::Probestack => "Probestack",
        LibCall::CeilF32 => "CeilF32",
        LibCall::CeilF64 => "CeilF64",
        LibCall::FloorF32 => "FloorF32",
        LibCall::FloorF64 => "FloorF64",
        LibCall::TruncF32 => "TruncF32",
        LibCall::TruncF64 => "TruncF64",
        LibCall::NearestF32 => "NearestF32",
        LibCall::NearestF64 => "NearestF64",
        LibCall::FmaF32 => "FmaF32",
        LibCall::FmaF64 => "FmaF64",
        LibCall::Memcpy => "Memcpy",
        LibCall::Memset => "Memset",
        LibCall::Memmove => "Memmove",
        LibCall::Memcmp => "Memcmp",
        LibCall::ElfTlsGetAddr => "ElfTlsGetAddr",
        LibCall::ElfTlsGetOffset => "ElfTlsGetOffset",
        LibCall::X86Pshufb => "X86Pshufb",
    }
}

/// The call that a name stands for.
pub fn libcall_named(name: &str) -> Result<LibCall, FormError>
    ensures { Gives (λ call. call) result (libcall_named name.now) }
{
    match first_call(&LIBCALLS, name) {
        Some(call) => Ok(*call),
        None => Err(FormError::NotForm),
    }
}

/// The first of some calls with this name.
fn first_call<'a>(calls: &'a [LibCall], name: &str) -> Option<&'a LibCall>
    ensures { option_copied result ≡ find (λ call. bytes_eq name.now (libcall_name call)) calls.now }
{
    calls.iter().find(|call| has_name(call, name))
}

fn has_name(call: &LibCall, name: &str) -> bool
    ensures { result ≡ bytes_eq name.now (libcall_name call.now) }
{
    name == libcall_word(*call)
}

/// Whether an object has no keys beside the names of calls.
fn has_libcall_keys(value: &Value) -> bool
    ensures { result ≡ has_keys_within (map libcall_name libcalls) (view value.now) }
{
    let names = [
        "Probestack",
        "CeilF32",
        "CeilF64",
        "FloorF32",
        "FloorF64",
        "TruncF32",
        "TruncF64",
        "NearestF32",
        "NearestF64",
        "FmaF32",
        "FmaF64",
        "Memcpy",
        "Memset",
        "Memmove",
        "Memcmp",
        "ElfTlsGetAddr",
        "ElfTlsGetOffset",
        "X86Pshufb",
    ];
    has_keys_within(value, &names)
}

/// Gives a call the text under its name, where there is one.
fn set_text(names: &mut LibcallNames, call: LibCall, value: &Value) -> Result<(), FormError>
    ensures { Gives (λ done. names.new) result (with_text names.old call (view value.now)) }
{
    match value.get(libcall_word(call)) {
        Some(text) => {
            names.set(call, text_of(text)?)?;
            Ok(())
        }
        None => Ok(()),
    }
}

/// The texts of all calls: those under their names, and the usual ones of the others.
#[tactic(auto, unfolding(crate::specs::TargetForm::libcalls_of, cranelift_module::specs::LibraryNames::usual_texts))]
fn libcalls_of(alloc: Global, value: &Value) -> Result<LibcallNames, FormError>
    ensures { Gives (λ names. names) result (libcalls_of (view value.now)) }
{
    if !has_libcall_keys(value) {
        return Err(FormError::NotForm);
    }
    let mut names = default_libcall_names(alloc)?;
    set_texts(&mut names, value)?;
    Ok(names)
}

/// Gives each call the text under its name, where there is one.
fn set_texts(names: &mut LibcallNames, value: &Value) -> Result<(), FormError>
    requires { length names.old ≡ 18 }
    ensures { Gives (λ done. names.new) result (all_of (λ row. libcall_text (view value.now) row.0 row.1) (zip libcalls names.old)) }
{
    for call in LIBCALLS.iter() {
        match set_text(names, *call, value) {
            Ok(()) => {}
            Err(error) => return Err(error),
        }
    }
    Ok(())
}

/// The texts of all calls, the usual ones where the part has no such object.
pub fn libcalls_at(alloc: Global, value: &Value) -> Result<LibcallNames, FormError>
    ensures { Gives (λ names. names) result (libcalls_at (view value.now)) }
{
    match value.get("libcalls") {
        Some(value) => libcalls_of(alloc, value),
        None => Ok(default_libcall_names(alloc)?),
    }
}
