//! Relocations, and what definitions refer to.

ghost use Rattle.std.specs.Prelude.{◌≡◌, [], pos, codes, OnOk, IfErr, option_copied};
ghost use Rattle.std.specs.List.{find};
ghost use Rattle.std.specs.Str.{bytes_eq};
ghost use Rattle.serde_json.specs.Find.{get};
ghost use Rattle.serde_json.specs.View.{view, items_view};
ghost use Rattle.ir_core.specs.Names.{reloc_name};
ghost use Rattle.json_form.specs.Form.{Gives, Fails, each_of, or_else};
ghost use Rattle.objtool_run.specs.DefinitionForm.{known_symbol_named, numbered, user_target, libcall_target, known_target, label_target, outer_target, target_of, kind_of, signed_of, reloc_of, IsAppended};

use crate::script::libcalls::libcall_named;
use crate::script::values::pair_of;
use cranelift_module::{FuncId, ModuleReloc, ModuleRelocTarget};
use ir_core::{KnownSymbol, Reloc};
use json_form::{FormError, has_keys_within, text_at, u32_at, value_at};
use serde_json::Value;
use std::alloc::Global;

/// All kinds.
const KINDS: [Reloc; 29] = [
    Reloc::Abs4,
    Reloc::Abs8,
    Reloc::X86PCRel4,
    Reloc::X86CallPCRel4,
    Reloc::X86CallPLTRel4,
    Reloc::X86GOTPCRel4,
    Reloc::X86SecRel,
    Reloc::Arm64Call,
    Reloc::S390xPCRel32Dbl,
    Reloc::S390xPLTRel32Dbl,
    Reloc::ElfX86_64TlsGd,
    Reloc::MachOX86_64Tlv,
    Reloc::MachOAarch64TlsAdrPage21,
    Reloc::MachOAarch64TlsAdrPageOff12,
    Reloc::Aarch64TlsDescAdrPage21,
    Reloc::Aarch64TlsDescLd64Lo12,
    Reloc::Aarch64TlsDescAddLo12,
    Reloc::Aarch64TlsDescCall,
    Reloc::Aarch64AdrGotPage21,
    Reloc::Aarch64Ld64GotLo12Nc,
    Reloc::Aarch64AdrPrelPgHi21,
    Reloc::Aarch64AddAbsLo12Nc,
    Reloc::RiscvCallPlt,
    Reloc::RiscvTlsGdHi20,
    Reloc::RiscvPCRelLo12I,
    Reloc::RiscvGotHi20,
    Reloc::RiscvPCRelHi20,
    Reloc::S390xTlsGd64,
    Reloc::S390xTlsGdCall,
];

fn kind_word(kind: Reloc) -> &'static str
    ensures { result.now ≡ reloc_name kind }
{
    match kind {
        Reloc::Abs4 => "Abs4",
        Reloc::Abs8 => "Abs8",
        Reloc::X86PCRel4 => "X86PCRel4",
        Reloc::X86CallPCRel4 => "X86CallPCRel4",
        Reloc::X86CallPLTRel4 => "X86CallPLTRel4",
        Reloc::X86GOTPCRel4 => "X86GOTPCRel4",
        Reloc::X86SecRel => "X86SecRel",
        Reloc::Arm64Call => "Arm64Call",
        Reloc::S390xPCRel32Dbl => "S390xPCRel32Dbl",
        Reloc::S390xPLTRel32Dbl => "S390xPLTRel32Dbl",
        Reloc::ElfX86_64TlsGd => "ElfX86_64TlsGd",
        Reloc::MachOX86_64Tlv => "MachOX86_64Tlv",
        Reloc::MachOAarch64TlsAdrPage21 => "MachOAarch64TlsAdrPage21",
        Reloc::MachOAarch64TlsAdrPageOff12 => "MachOAarch64TlsAdrPageOff12",
        Reloc::Aarch64TlsDescAdrPage21 => "Aarch64TlsDescAdrPage21",
        Reloc::Aarch64TlsDescLd64Lo12 => "Aarch64TlsDescLd64Lo12",
        Reloc::Aarch64TlsDescAddLo12 => "Aarch64TlsDescAddLo12",
        Reloc::Aarch64TlsDescCall => "Aarch64TlsDescCall",
        Reloc::Aarch64AdrGotPage21 => "Aarch64AdrGotPage21",
        Reloc::Aarch64Ld64GotLo12Nc => "Aarch64Ld64GotLo12Nc",
        Reloc::Aarch64AdrPrelPgHi21 => "Aarch64AdrPrelPgHi21",
        Reloc::Aarch64AddAbsLo12Nc => "Aarch64AddAbsLo12Nc",
        Reloc::RiscvCallPlt => "RiscvCallPlt",
        Reloc::RiscvTlsGdHi20 => "RiscvTlsGdHi20",
        Reloc::RiscvPCRelLo12I => "RiscvPCRelLo12I",
        Reloc::RiscvGotHi20 => "RiscvGotHi20",
        Reloc::RiscvPCRelHi20 => "RiscvPCRelHi20",
        Reloc::S390xTlsGd64 => "S390xTlsGd64",
        Reloc::S390xTlsGdCall => "S390xTlsGdCall",
    }
}

/// The kind that a name stands for.
fn kind_of(name: &str) -> Result<Reloc, FormError>
    ensures { Gives (λ kind. kind) result (kind_of name.now) }
{
    match first_kind(&KINDS, name) {
        Some(kind) => Ok(*kind),
        None => Err(FormError::NotForm),
    }
}

/// The first of some kinds with this name.
fn first_kind<'a>(kinds: &'a [Reloc], name: &str) -> Option<&'a Reloc>
    ensures { option_copied result ≡ find (λ kind. bytes_eq name.now (reloc_name kind)) kinds.now }
{
    kinds.iter().find(|kind| has_name(kind, name))
}

fn has_name(kind: &Reloc, name: &str) -> bool
    ensures { result ≡ bytes_eq name.now (reloc_name kind.now) }
{
    name == kind_word(*kind)
}

fn known_symbol_named(name: &str) -> Result<KnownSymbol, FormError>
    ensures { Gives (λ symbol. symbol) result (known_symbol_named name.now) }
{
    match name {
        "ElfGlobalOffsetTable" => Ok(KnownSymbol::ElfGlobalOffsetTable),
        "CoffTlsIndex" => Ok(KnownSymbol::CoffTlsIndex),
        _ => Err(FormError::NotForm),
    }
}

/// A function or a data object by its number.
fn numbered(value: &Value, namespace: u32, key: &str) -> Result<ModuleRelocTarget, FormError>
    ensures { Gives (λ t. t) result (numbered namespace key.now (view value.now)) }
{
    let index = u32_at(value, key)?;
    Ok(ModuleRelocTarget::user(namespace, index))
}

/// A namespace with an index in it.
fn user_target(value: &Value) -> Result<ModuleRelocTarget, FormError>
    ensures { Gives (λ t. t) result (user_target (view value.now)) }
{
    let (namespace, index) = pair_of(value_at(value, "user")?)?;
    Ok(ModuleRelocTarget::user(namespace, index))
}

/// A call into the runtime by its name.
fn libcall_target(value: &Value) -> Result<ModuleRelocTarget, FormError>
    ensures { Gives (λ t. t) result (libcall_target (view value.now)) }
{
    let call = libcall_named(text_at(value, "libcall")?)?;
    Ok(ModuleRelocTarget::LibCall(call))
}

/// A symbol of the linker by its name.
fn known_target(value: &Value) -> Result<ModuleRelocTarget, FormError>
    ensures { Gives (λ t. t) result (known_target (view value.now)) }
{
    let symbol = known_symbol_named(text_at(value, "known")?)?;
    Ok(ModuleRelocTarget::KnownSymbol(symbol))
}

/// A place in a function: the function's number, and an offset.
fn label_target(value: &Value) -> Result<ModuleRelocTarget, FormError>
    ensures { Gives (λ t. t) result (label_target (view value.now)) }
{
    let (function, offset) = pair_of(value_at(value, "label")?)?;
    Ok(ModuleRelocTarget::FunctionOffset(FuncId::from_u32(function), offset))
}

/// A target that isn't declared: an object with one key, which says of which sort the target is.
fn outer_target(value: &Value) -> Result<ModuleRelocTarget, FormError>
    ensures { Gives (λ t. t) result (outer_target (view value.now)) }
{
    if has_keys_within(value, &["libcall"]) {
        return libcall_target(value);
    }
    if has_keys_within(value, &["known"]) {
        return known_target(value);
    }
    if !has_keys_within(value, &["label"]) {
        return Err(FormError::NotForm);
    }
    label_target(value)
}

/// A target: an object with one key, which says of which sort the target is.
#[tactic(auto, unfolding(crate::specs::DefinitionForm::target_of))]
fn target_of(value: &Value) -> Result<ModuleRelocTarget, FormError>
    ensures { Gives (λ t. t) result (target_of (view value.now)) }
{
    if has_keys_within(value, &["function"]) {
        return numbered(value, 0, "function");
    }
    if has_keys_within(value, &["data"]) {
        return numbered(value, 1, "data");
    }
    if has_keys_within(value, &["user"]) {
        return user_target(value);
    }
    outer_target(value)
}

/// A signed integer of at most 64 bits.
fn signed_of(value: &Value) -> Result<i64, FormError>
    ensures { Gives (λ z. z) result (signed_of (view value.now)) }
{
    value.as_i64().ok_or(FormError::NotForm)
}

/// The addend of a relocation, 0 where it has none.
fn addend_at(value: &Value) -> Result<i64, FormError>
    ensures { Gives (λ z. z) result (or_else signed_of (pos 0) (get (codes "addend") (view value.now))) }
{
    match value.get("addend") {
        Some(addend) => signed_of(addend),
        None => Ok(0),
    }
}

/// The relocations of a list.
pub fn relocs_in(alloc: Global, values: &[Value]) -> Result<Vec<ModuleReloc>, FormError>
    ensures { Gives (λ v. v.items) result (each_of reloc_of (items_view values.now)) }
{
    let mut relocs = Vec::new(alloc);
    push_relocs(&mut relocs, values)?;
    Ok(relocs)
}

/// Appends the relocations of a list where nothing is yet.
fn push_relocs(relocs: &mut Vec<ModuleReloc>, values: &[Value]) -> Result<(), FormError>
    requires { relocs.old.items ≡ [] }
    ensures { Gives (λ done. relocs.new.items) result (each_of reloc_of (items_view values.now)) }
{
    for value in values {
        match push_reloc(relocs, value) {
            Ok(()) => {}
            Err(error) => return Err(error),
        }
    }
    Ok(())
}

/// Appends a relocation.
#[tactic(auto, unfolding(crate::specs::DefinitionForm::reloc_of))]
fn push_reloc(relocs: &mut Vec<ModuleReloc>, value: &Value) -> Result<(), FormError>
    ensures ok { OnOk result (IsAppended relocs.old.items relocs.new.items (reloc_of (view value.now))) }
    ensures err { IfErr result (λ e. Fails e (reloc_of (view value.now))) }
{
    if !has_keys_within(value, &["offset", "kind", "target", "addend"]) {
        return Err(FormError::NotForm);
    }
    let offset = u32_at(value, "offset")?;
    let kind = kind_of(text_at(value, "kind")?)?;
    let name = target_of(value_at(value, "target")?)?;
    let addend = addend_at(value)?;
    relocs.push(ModuleReloc {
        offset,
        kind,
        name,
        addend,
    })?;
    Ok(())
}

/// The targets of a list.
pub fn targets_in(alloc: Global, values: &[Value]) -> Result<Vec<ModuleRelocTarget>, FormError>
    ensures { Gives (λ v. v.items) result (each_of target_of (items_view values.now)) }
{
    let mut targets = Vec::new(alloc);
    for value in values {
        match target_of(value) {
            Ok(target) => targets.push(target)?,
            Err(error) => return Err(error),
        }
    }
    Ok(targets)
}
