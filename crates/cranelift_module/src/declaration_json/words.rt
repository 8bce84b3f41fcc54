//! The words for linkages, types, marks and calling conventions: the names of their variants.

ghost use Rattle.std.specs.Prelude.{◌≡◌};
ghost use Rattle.json_form.specs.Form.{Gives};
ghost use Rattle.cranelift_module.specs.Words.{linkage_word, type_word, extension_word, purpose_word, convention_word, linkage_named, type_named, extension_named, purpose_named, convention_named};

use crate::Linkage;
use ir_core::{ArgumentExtension, ArgumentPurpose, CallConv, ValueType};
use json_form::FormError;

pub fn linkage_word(linkage: Linkage) -> &'static str
    ensures { result.now ≡ linkage_word linkage }
{
    match linkage {
        Linkage::Import => "Import",
        Linkage::Local => "Local",
        Linkage::Preemptible => "Preemptible",
        Linkage::Hidden => "Hidden",
        Linkage::Export => "Export",
    }
}

pub fn type_word(value_type: ValueType) -> &'static str
    ensures { result.now ≡ type_word value_type }
{
    match value_type {
        ValueType::I8 => "I8",
        ValueType::I16 => "I16",
        ValueType::I32 => "I32",
        ValueType::I64 => "I64",
        ValueType::I128 => "I128",
        ValueType::F32 => "F32",
        ValueType::F64 => "F64",
    }
}

pub fn extension_word(extension: ArgumentExtension) -> &'static str
    ensures { result.now ≡ extension_word extension }
{
    match extension {
        ArgumentExtension::None => "None",
        ArgumentExtension::Uext => "Uext",
        ArgumentExtension::Sext => "Sext",
    }
}

pub fn purpose_word(purpose: ArgumentPurpose) -> &'static str
    ensures { result.now ≡ purpose_word purpose }
{
    match purpose {
        ArgumentPurpose::Normal => "Normal",
        ArgumentPurpose::StructReturn => "StructReturn",
        ArgumentPurpose::VMContext => "VMContext",
    }
}

pub fn convention_word(call_conv: CallConv) -> &'static str
    ensures { result.now ≡ convention_word call_conv }
{
    match call_conv {
        CallConv::Fast => "Fast",
        CallConv::Tail => "Tail",
        CallConv::SystemV => "SystemV",
        CallConv::WindowsFastcall => "WindowsFastcall",
        CallConv::AppleAarch64 => "AppleAarch64",
    }
}

pub fn linkage_named(text: &str) -> Result<Linkage, FormError>
    ensures { Gives (λ l. l) result (linkage_named text.now) }
{
    match text {
        "Import" => Ok(Linkage::Import),
        "Local" => Ok(Linkage::Local),
        "Preemptible" => Ok(Linkage::Preemptible),
        "Hidden" => Ok(Linkage::Hidden),
        "Export" => Ok(Linkage::Export),
        _ => Err(FormError::NotForm),
    }
}

pub fn type_named(text: &str) -> Result<ValueType, FormError>
    ensures { Gives (λ t. t) result (type_named text.now) }
{
    match text {
        "I8" => Ok(ValueType::I8),
        "I16" => Ok(ValueType::I16),
        "I32" => Ok(ValueType::I32),
        "I64" => Ok(ValueType::I64),
        "I128" => Ok(ValueType::I128),
        "F32" => Ok(ValueType::F32),
        "F64" => Ok(ValueType::F64),
        _ => Err(FormError::NotForm),
    }
}

pub fn extension_named(text: &str) -> Result<ArgumentExtension, FormError>
    ensures { Gives (λ e. e) result (extension_named text.now) }
{
    match text {
        "None" => Ok(ArgumentExtension::None),
        "Uext" => Ok(ArgumentExtension::Uext),
        "Sext" => Ok(ArgumentExtension::Sext),
        _ => Err(FormError::NotForm),
    }
}

pub fn purpose_named(text: &str) -> Result<ArgumentPurpose, FormError>
    ensures { Gives (λ p. p) result (purpose_named text.now) }
{
    match text {
        "Normal" => Ok(ArgumentPurpose::Normal),
        "StructReturn" => Ok(ArgumentPurpose::StructReturn),
        "VMContext" => Ok(ArgumentPurpose::VMContext),
        _ => Err(FormError::NotForm),
    }
}

pub fn convention_named(text: &str) -> Result<CallConv, FormError>
    ensures { Gives (λ c. c) result (convention_named text.now) }
{
    match text {
        "Fast" => Ok(CallConv::Fast),
        "Tail" => Ok(CallConv::Tail),
        "SystemV" => Ok(CallConv::SystemV),
        "WindowsFastcall" => Ok(CallConv::WindowsFastcall),
        "AppleAarch64" => Ok(CallConv::AppleAarch64),
        _ => Err(FormError::NotForm),
    }
}
