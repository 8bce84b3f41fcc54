//! What a part is made for: its processor, format, system, version, environment and flags.

ghost use Rattle.std.specs.Prelude.{◌≡◌, ◌^◌, [], OnOk, IfErr};
ghost use Rattle.serde_json.specs.Find.{as_bool};
ghost use Rattle.serde_json.specs.View.{view, items_view};
ghost use Rattle.json_form.specs.Form.{Gives, Fails, each_of, unless_null};
ghost use Rattle.objtool_run.specs.TargetForm.{architecture_named, format_named, system_named, environment_named, architecture_at, format_at, system_at, environment_at, below_in, version_of, version_at, triple_of, text_in, mark_in, flag_of, IsFlagged, part_target};

use crate::script::values::{list_at, text_of};
use ir_core::{Architecture, BinaryFormat, Environment, System, TargetIsa, Triple, Version};
use json_form::{FormError, has_item, number_in, text_at};
use serde_json::Value;
use std::alloc::Global;

fn architecture_named(text: &str) -> Result<Architecture, FormError>
    ensures { Gives (λ a. a) result (architecture_named text.now) }
{
    match text {
        "x86_32" => Ok(Architecture::X86_32),
        "x86_64" => Ok(Architecture::X86_64),
        "arm" => Ok(Architecture::Arm),
        "aarch64" => Ok(Architecture::Aarch64),
        "riscv64" => Ok(Architecture::Riscv64),
        "s390x" => Ok(Architecture::S390x),
        _ => Err(FormError::NotForm),
    }
}

fn format_named(text: &str) -> Result<BinaryFormat, FormError>
    ensures { Gives (λ f. f) result (format_named text.now) }
{
    match text {
        "elf" => Ok(BinaryFormat::Elf),
        "coff" => Ok(BinaryFormat::Coff),
        "macho" => Ok(BinaryFormat::Macho),
        "wasm" => Ok(BinaryFormat::Wasm),
        "unknown" => Ok(BinaryFormat::Unknown),
        _ => Err(FormError::NotForm),
    }
}

fn system_named(text: &str) -> Result<System, FormError>
    ensures { Gives (λ s. s) result (system_named text.now) }
{
    match text {
        "unknown" => Ok(System::Unknown),
        "linux" => Ok(System::Linux),
        "darwin" => Ok(System::Darwin),
        "macosx" => Ok(System::MacOSX),
        "ios" => Ok(System::IOS),
        "tvos" => Ok(System::TvOS),
        "visionos" => Ok(System::VisionOS),
        "watchos" => Ok(System::WatchOS),
        "xros" => Ok(System::XROS),
        _ => Err(FormError::NotForm),
    }
}

fn environment_named(text: &str) -> Result<Environment, FormError>
    ensures { Gives (λ e. e) result (environment_named text.now) }
{
    match text {
        "unknown" => Ok(Environment::Unknown),
        "macabi" => Ok(Environment::Macabi),
        "sim" => Ok(Environment::Sim),
        _ => Err(FormError::NotForm),
    }
}

/// The system, unknown where none is named.
fn system_at(value: &Value) -> Result<System, FormError>
    ensures { Gives (λ s. s) result (system_at (view value.now)) }
{
    match value.get("system") {
        Some(value) => system_named(text_of(value)?),
        None => Ok(System::Unknown),
    }
}

/// The environment, unknown where none is named.
fn environment_at(value: &Value) -> Result<Environment, FormError>
    ensures { Gives (λ e. e) result (environment_at (view value.now)) }
{
    match value.get("environment") {
        Some(value) => environment_named(text_of(value)?),
        None => Ok(Environment::Unknown),
    }
}

/// The number of 16 bits at a place of a list.
fn u16_in(value: &Value, place: usize) -> Result<u16, FormError>
    ensures { Gives (λ n. n) result (below_in (2 ^ 16) place (view value.now)) }
{
    let n = number_in(value, place)?;
    u16::try_from(n).map_err(|_| FormError::NotForm)
}

/// The number of 8 bits at a place of a list.
fn u8_in(value: &Value, place: usize) -> Result<u8, FormError>
    ensures { Gives (λ n. n) result (below_in (2 ^ 8) place (view value.now)) }
{
    let n = number_in(value, place)?;
    u8::try_from(n).map_err(|_| FormError::NotForm)
}

/// A version: a list of three numbers.
#[tactic(auto, unfolding(crate::specs::TargetForm::version_of))]
fn version_of(value: &Value) -> Result<Version, FormError>
    ensures { Gives (λ v. v) result (version_of (view value.now)) }
{
    if has_item(value, 3) {
        return Err(FormError::NotForm);
    }
    let major = u16_in(value, 0)?;
    let minor = u8_in(value, 1)?;
    let patch = u8_in(value, 2)?;
    Ok(Version {
        major,
        minor,
        patch,
    })
}

/// The version of the system, where there is one.
fn version_at(value: &Value) -> Result<Option<Version>, FormError>
    ensures { Gives (λ v. v) result (version_at (view value.now)) }
{
    match value.get("version") {
        Some(value) => {
            let version = version_of(value)?;
            Ok(Some(version))
        }
        None => Ok(None),
    }
}

/// The target without its flags.
#[tactic(auto, unfolding(crate::specs::TargetForm::triple_of))]
fn triple_of(value: &Value) -> Result<Triple, FormError>
    ensures { Gives (λ t. t) result (triple_of (view value.now)) }
{
    let architecture = architecture_named(text_at(value, "arch")?)?;
    let binary_format = format_named(text_at(value, "format")?)?;
    let system = system_at(value)?;
    let version = version_at(value)?;
    let environment = environment_at(value)?;
    Ok(Triple {
        architecture,
        binary_format,
        system,
        version,
        environment,
    })
}

/// The truth value of a flag, or none where null stands at its place.
fn mark_in(value: &Value, place: usize) -> Result<Option<bool>, FormError>
    ensures { Gives (λ m. m) result (mark_in place (view value.now)) }
{
    match value.get(place) {
        Some(mark) => mark_or_null(mark),
        None => Err(FormError::NotForm),
    }
}

fn mark_or_null(value: &Value) -> Result<Option<bool>, FormError>
    ensures { Gives (λ m. m) result (unless_null as_bool (view value.now)) }
{
    if value.is_null() {
        return Ok(None);
    }
    match value.as_bool() {
        Some(mark) => Ok(Some(mark)),
        None => Err(FormError::NotForm),
    }
}

/// The text at a place of a list.
fn text_in(value: &Value, place: usize) -> Result<&str, FormError>
    ensures { Gives (λ s. s.now) result (text_in place (view value.now)) }
{
    value
        .get(place)
        .and_then(Value::as_str)
        .ok_or(FormError::NotForm)
}

/// Pushes the flag that a value is.
#[tactic(auto, unfolding(crate::specs::TargetForm::flag_of))]
fn push_flag(isa: &mut TargetIsa, value: &Value) -> Result<(), FormError>
    ensures ok { OnOk result (IsFlagged isa.old isa.new (flag_of (view value.now))) }
    ensures err { IfErr result (λ e. Fails e (flag_of (view value.now))) }
{
    if has_item(value, 2) {
        return Err(FormError::NotForm);
    }
    let name = text_in(value, 0)?;
    let mark = mark_in(value, 1)?;
    isa.push_flag(name, mark)?;
    Ok(())
}

/// Pushes the flags of a list on a target that has none yet.
fn push_flags(isa: &mut TargetIsa, values: &[Value]) -> Result<(), FormError>
    requires { (isa.old).flags ≡ [] }
    ensures flags { Gives (λ done. (isa.new).flags) result (each_of flag_of (items_view values.now)) }
    ensures triple { OnOk result ((isa.new).triple ≡ (isa.old).triple) }
{
    for value in values {
        match push_flag(isa, value) {
            Ok(()) => {}
            Err(error) => return Err(error),
        }
    }
    Ok(())
}

/// What a part is made for.
#[tactic(auto, unfolding(crate::specs::TargetForm::part_target))]
pub fn part_target(alloc: Global, value: &Value) -> Result<TargetIsa, FormError>
    ensures { Gives (λ target. target) result (part_target (view value.now)) }
{
    let mut isa = TargetIsa::new(alloc, triple_of(value)?);
    push_flags(&mut isa, list_at(value, "flags")?)?;
    Ok(isa)
}
