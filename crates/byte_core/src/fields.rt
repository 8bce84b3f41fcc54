//! Numbers and how many bytes they take, as the records of a file have them.

ghost use Rattle.std.specs.Prelude.{◌≡◌};

/// A number and how many bytes it takes.
#[derive(Clone, Copy, Debug, PartialEq, Eq)]
pub struct Field {
    pub width: usize,
    pub value: u64,
}

impl Field {
    /// A number of one byte.
    pub fn of_u8(value: u8) -> Field
        ensures { result ≡ record { width = 1; value = value } }
    {
        Field {
            width: 1,
            value: u64::from(value),
        }
    }

    /// A number of two bytes.
    pub fn of_u16(value: u16) -> Field
        ensures { result ≡ record { width = 2; value = value } }
    {
        Field {
            width: 2,
            value: u64::from(value),
        }
    }

    /// A number of four bytes.
    pub fn of_u32(value: u32) -> Field
        ensures { result ≡ record { width = 4; value = value } }
    {
        Field {
            width: 4,
            value: u64::from(value),
        }
    }

    /// A number of eight bytes.
    pub fn of_u64(value: u64) -> Field
        ensures { result ≡ record { width = 8; value = value } }
    {
        Field { width: 8, value }
    }
}
