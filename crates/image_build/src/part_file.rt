//! From the commands of one part to the bytes of its file.

ghost use Rattle.std.specs.Prelude.{◌≡◌, [], None, IfOk, IfErr, OnOk};
ghost use Rattle.cranelift_module.specs.LinkState.{state_of};
ghost use Rattle.cranelift_module.specs.Refusal.{Tells};
ghost use Rattle.cranelift_object.specs.Part.{start_cause, part_cause};
ghost use Rattle.image_build.specs.Built.{IsFileOf, TellsPart, TellsCause, TellsOver};
ghost use Rattle.image_build.specs.Parts.{IsPlainPart};

use crate::error::{BuildCause, BuildError, Place};
use cranelift_module::{ModuleError, ModuleResult};
use cranelift_object::{CommandPart, EmitError, ObjectBuilder, ObjectModule, apply};
use std::alloc::Global;

/// The cause of a build that a module refused.
fn module_cause(error: ModuleError) -> BuildCause
    ensures { TellsCause error result }
{
    match error {
        ModuleError::Allocation => BuildCause::OutOfMemory,
        error => BuildCause::Module(error),
    }
}

/// The cause of a build whose file reaches a limit.
fn limit_cause(error: EmitError) -> BuildCause
    ensures { TellsOver error result }
{
    match error {
        EmitError::TooMany { what, count } => BuildCause::TooMany { what, count },
        EmitError::TooLarge { what, amount } => BuildCause::TooLarge { what, amount },
        EmitError::OutOfMemory => BuildCause::OutOfMemory,
    }
}

/// The error of the part of a number.
pub(crate) fn at(part: usize, place: Place, cause: BuildCause) -> BuildError
    ensures { result ≡ record { part = part; place = place; cause = cause } }
{
    BuildError { part, place, cause }
}

/// A module with the part's target and settings, before its commands.
#[tactic(auto, using(crate::proofs::PartCause::start_plain))]
fn open_module(alloc: Global, part: &CommandPart) -> ModuleResult<ObjectModule>
    ensures ok { IfOk result (λ m. m ≡ record { settings = (part.now).settings; state = state_of (part.now).target [] }) }
    ensures none { OnOk result (start_cause (part.now).settings (part.now).target ≡ None) }
    ensures cause { IfErr result (λ e. Tells e (start_cause (part.now).settings (part.now).target)) }
{
    let isa = part.isa().copy()?;
    let names = part.libcall_names().copy()?;
    let mut builder = ObjectBuilder::new(alloc, isa, part.name(), names)?;
    builder.per_function_section(part.function_sections());
    builder.per_data_object_section(part.data_sections());
    ObjectModule::new(builder)
}

/// The file of a part, which has this number.
pub(crate) fn build_part(
    alloc: Global,
    number: usize,
    part: &CommandPart,
) -> Result<Vec<u8>, BuildError>
    requires { IsPlainPart part.now }
    ensures built { IfOk result (λ bytes. IsFileOf part.now bytes.items) }
    ensures valid { OnOk result (part_cause part.now ≡ None) }
    ensures cause { IfErr result (λ error. TellsPart error part.now) }
    ensures number { IfErr result (λ error. error.part ≡ number) }
{
    let mut module = match open_module(alloc, part) {
        Ok(module) => module,
        Err(error) => return Err(at(number, Place::Start, module_cause(error))),
    };
    if let Err((call, error)) = apply(&mut module, part.commands()) {
        return Err(at(number, Place::Command(call), module_cause(error)));
    }
    let product = match module.finish() {
        Ok(product) => product,
        Err(error) => return Err(at(number, Place::End, module_cause(error))),
    };
    match product.emit(alloc) {
        Ok(bytes) => Ok(bytes),
        Err(error) => Err(at(number, Place::End, limit_cause(error))),
    }
}
