//! Types, marks and calling conventions of values that are passed and returned.

ghost use Rattle.std.specs.Prelude.{Some};
ghost use Rattle.ir_core.specs.Names.{type_name, extension_mark, purpose_mark, convention_name};

use std::fmt;

/// The type of a value. Only its name is carried.
#[derive(Clone, Copy, Debug, PartialEq, Eq)]
pub enum ValueType {
    I8,
    I16,
    I32,
    I64,
    I128,
    F32,
    F64,
}

/// How a value narrower than its register is extended.
#[derive(Clone, Copy, Debug, PartialEq, Eq)]
pub enum ArgumentExtension {
    /// The upper bits are left open.
    None,
    /// The upper bits are zero.
    Uext,
    /// The upper bits repeat the sign.
    Sext,
}

/// What a value is passed for.
#[derive(Clone, Copy, Debug, PartialEq, Eq)]
pub enum ArgumentPurpose {
    /// An ordinary value.
    Normal,
    /// The address at which a returned structure is stored.
    StructReturn,
    /// The address of the context of a virtual machine.
    VMContext,
}

/// A calling convention.
#[derive(Clone, Copy, Debug, PartialEq, Eq)]
pub enum CallConv {
    Fast,
    Tail,
    SystemV,
    WindowsFastcall,
    AppleAarch64,
}

/// The type's name in lower case.
impl fmt::Display for ValueType {
    ghost output = { λ t. Some (type_name t) };

    fn fmt<W: fmt::Write>(&self, f: &mut fmt::Formatter<W>) -> fmt::Result {
        match self {
            ValueType::I8 => f.write_str("i8"),
            ValueType::I16 => f.write_str("i16"),
            ValueType::I32 => f.write_str("i32"),
            ValueType::I64 => f.write_str("i64"),
            ValueType::I128 => f.write_str("i128"),
            ValueType::F32 => f.write_str("f32"),
            ValueType::F64 => f.write_str("f64"),
        }
    }
}

/// Nothing, or a space and the mark of the extension.
impl fmt::Display for ArgumentExtension {
    ghost output = { λ e. Some (extension_mark e) };

    fn fmt<W: fmt::Write>(&self, f: &mut fmt::Formatter<W>) -> fmt::Result {
        match self {
            ArgumentExtension::None => Ok(()),
            ArgumentExtension::Uext => f.write_str(" uext"),
            ArgumentExtension::Sext => f.write_str(" sext"),
        }
    }
}

/// Nothing, or a space and the mark of the purpose.
impl fmt::Display for ArgumentPurpose {
    ghost output = { λ p. Some (purpose_mark p) };

    fn fmt<W: fmt::Write>(&self, f: &mut fmt::Formatter<W>) -> fmt::Result {
        match self {
            ArgumentPurpose::Normal => Ok(()),
            ArgumentPurpose::StructReturn => f.write_str(" sret"),
            ArgumentPurpose::VMContext => f.write_str(" vmctx"),
        }
    }
}

/// The convention's name, in lower case with underscores.
impl fmt::Display for CallConv {
    ghost output = { λ c. Some (convention_name c) };

    fn fmt<W: fmt::Write>(&self, f: &mut fmt::Formatter<W>) -> fmt::Result {
        match self {
            CallConv::Fast => f.write_str("fast"),
            CallConv::Tail => f.write_str("tail"),
            CallConv::SystemV => f.write_str("system_v"),
            CallConv::WindowsFastcall => f.write_str("windows_fastcall"),
            CallConv::AppleAarch64 => f.write_str("apple_aarch64"),
        }
    }
}
