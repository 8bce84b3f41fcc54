//! From a part that nothing refuses to the bytes of its file.

ghost use Rattle.std.specs.Prelude.{◌≡◌, ◌<◌, [], None, IfOk, length};
ghost use Rattle.object_core.specs.Limits.{TellsLimit};
ghost use Rattle.cranelift_module.specs.LinkState.{state_of};
ghost use Rattle.cranelift_module.specs.Refusal.{Tells};
ghost use Rattle.cranelift_object.specs.Part.{start_cause, part_cause};
ghost use Rattle.gen_summary.specs.Summary.{IsFileOf};

use cranelift_module::ModuleError;
use cranelift_object::{CommandPart, EmitError, ObjectBuilder, ObjectModule, apply};
use std::alloc::{AllocError, Global};

/// The error of a module that has nothing to refuse.
fn memory_of(error: ModuleError) -> AllocError
    requires { Tells error None }
{
    match error {
        ModuleError::Allocation => AllocError,
        _ => unreachable!(),
    }
}

/// The error of a file that reaches no limit.
fn memory_at_end(error: EmitError) -> AllocError
    requires { TellsLimit error None }
{
    match error {
        EmitError::OutOfMemory => AllocError,
        _ => unreachable!(),
    }
}

/// A builder with the part's target and settings.
#[tactic(auto, using(crate::proofs::FreePart::start_plain))]
fn builder_of(alloc: Global, part: &CommandPart) -> Result<ObjectBuilder, AllocError>
    requires { start_cause (part.now).settings (part.now).target ≡ None }
    ensures { IfOk result (λ b. b ≡ record { settings = (part.now).settings; target = (part.now).target }) }
{
    let isa = part.isa().copy()?;
    let names = part.libcall_names().copy()?;
    let mut builder = match ObjectBuilder::new(alloc, isa, part.name(), names) {
        Ok(builder) => builder,
        Err(error) => return Err(memory_of(error)),
    };
    builder.per_function_section(part.function_sections());
    builder.per_data_object_section(part.data_sections());
    Ok(builder)
}

/// A module with the part's target and settings, before its commands.
fn open_module(alloc: Global, part: &CommandPart) -> Result<ObjectModule, AllocError>
    requires { start_cause (part.now).settings (part.now).target ≡ None }
    ensures { IfOk result (λ m. m ≡ record { settings = (part.now).settings; state = state_of (part.now).target [] }) }
{
    match ObjectModule::new(builder_of(alloc, part)?) {
        Ok(module) => Ok(module),
        Err(error) => Err(memory_of(error)),
    }
}

/// The file of a part that nothing refuses.
pub(crate) fn file_of_part(alloc: Global, part: &CommandPart) -> Result<Vec<u8>, AllocError>
    requires valid { part_cause part.now ≡ None }
    requires few { length (part.now).calls < 4294967295 }
    ensures { IfOk result (λ bytes. IsFileOf part.now bytes.items) }
{
    let mut module = open_module(alloc, part)?;
    if let Err((_, error)) = apply(&mut module, part.commands()) {
        return Err(memory_of(error));
    }
    let product = match module.finish() {
        Ok(product) => product,
        Err(error) => return Err(memory_of(error)),
    };
    match product.emit(alloc) {
        Ok(bytes) => Ok(bytes),
        Err(error) => Err(memory_at_end(error)),
    }
}
