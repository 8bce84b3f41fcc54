//! Numbers of what a function imports. A contract sees each as its number.

ghost use Rattle.std.specs.Prelude.{◌≡◌, ◌++◌, ℕ, Some, codes, decimal};

use std::fmt;
use std::marker::Model;

/// A place in a function's list of imported functions.
#[derive(Clone, Copy, Debug, PartialEq, Eq, PartialOrd, Ord, Hash)]
pub struct FuncRef(u32);

impl Model for FuncRef {
    ghost Value = { ℕ };

    ghost view = { λ reference. reference.0 };

    ghost inverse = { λ n. record { 0 = n } };
}

impl FuncRef {
    /// The reference of this number.
    pub fn from_u32(number: u32) -> Self
        ensures { result ≡ number }
    {
        FuncRef(number)
    }

    /// The reference's number.
    pub fn as_u32(self) -> u32
        ensures { result ≡ self }
    {
        self.0
    }
}

/// `fn` and the number.
impl fmt::Display for FuncRef {
    ghost output = { λ reference. Some (codes "fn" ++ decimal reference) };

    fn fmt<W: fmt::Write>(&self, f: &mut fmt::Formatter<W>) -> fmt::Result {
        let number = self.0;
        write!(f, "fn{number}")
    }
}

/// A place in a function's list of global values.
#[derive(Clone, Copy, Debug, PartialEq, Eq, PartialOrd, Ord, Hash)]
pub struct GlobalValue(u32);

impl Model for GlobalValue {
    ghost Value = { ℕ };

    ghost view = { λ reference. reference.0 };

    ghost inverse = { λ n. record { 0 = n } };
}

impl GlobalValue {
    /// The global value of this number.
    pub fn from_u32(number: u32) -> Self
        ensures { result ≡ number }
    {
        GlobalValue(number)
    }

    /// The global value's number.
    pub fn as_u32(self) -> u32
        ensures { result ≡ self }
    {
        self.0
    }
}

/// `gv` and the number.
impl fmt::Display for GlobalValue {
    ghost output = { λ reference. Some (codes "gv" ++ decimal reference) };

    fn fmt<W: fmt::Write>(&self, f: &mut fmt::Formatter<W>) -> fmt::Result {
        let number = self.0;
        write!(f, "gv{number}")
    }
}

/// A place in a function's list of signatures.
#[derive(Clone, Copy, Debug, PartialEq, Eq, PartialOrd, Ord, Hash)]
pub struct SigRef(u32);

impl Model for SigRef {
    ghost Value = { ℕ };

    ghost view = { λ reference. reference.0 };

    ghost inverse = { λ n. record { 0 = n } };
}

impl SigRef {
    /// The reference of this number.
    pub fn from_u32(number: u32) -> Self
        ensures { result ≡ number }
    {
        SigRef(number)
    }

    /// The reference's number.
    pub fn as_u32(self) -> u32
        ensures { result ≡ self }
    {
        self.0
    }
}

/// A place in a function's list of user names.
#[derive(Clone, Copy, Debug, PartialEq, Eq, PartialOrd, Ord, Hash)]
pub struct UserExternalNameRef(u32);

impl Model for UserExternalNameRef {
    ghost Value = { ℕ };

    ghost view = { λ reference. reference.0 };

    ghost inverse = { λ n. record { 0 = n } };
}

impl UserExternalNameRef {
    /// The reference of this number.
    pub fn from_u32(number: u32) -> Self
        ensures { result ≡ number }
    {
        UserExternalNameRef(number)
    }

    /// The reference's number.
    pub fn as_u32(self) -> u32
        ensures { result ≡ self }
    {
        self.0
    }
}
