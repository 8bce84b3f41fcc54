//! Why nothing is built.

ghost use Rattle.std.specs.Prelude.{◌≡◌};
ghost use Rattle.image_build.specs.Texts.{what_text};

use cranelift_module::ModuleError;
use object_core::What;
use std::fmt;

/// Where in a part a build was refused.
#[derive(Clone, Copy, Debug, PartialEq, Eq)]
pub enum Place {
    /// Before its first command.
    Start,
    /// At the command of this number, from 0.
    Command(usize),
    /// Behind its last command.
    End,
}

/// Why a build was refused.
#[derive(Debug, Drop)]
pub enum BuildCause {
    /// The module refused a call; never its `Allocation`, which is `OutOfMemory` here.
    Module(ModuleError),
    /// The writer of fat files refused an image, or the file of a command part; never its `OutOfMemory`, nor its `Io`.
    Fat(fat_macho::Error),
    /// So many sections or symbols reach a limit of the format.
    TooMany { what: What, count: u64 },
    /// So many bytes reach a limit of the format.
    TooLarge { what: What, amount: u128 },
    /// An ELF part stands beside other parts.
    Mixed,
    /// Memory ran out, in any layer.
    OutOfMemory,
}

/// A refused build.
#[derive(Debug, Drop)]
pub struct BuildError {
    /// The number of the part, from 0.
    pub part: usize,
    pub place: Place,
    pub cause: BuildCause,
}

fn what_name(what: What) -> &'static str
    ensures { result.now ≡ what_text what }
{
    match what {
        What::Sections => "sections",
        What::Symbols => "symbols",
        What::Contents => "contents",
        What::Names => "names",
        What::File => "file",
    }
}

impl fmt::Display for Place {
    ghost use Rattle.std.specs.Prelude.{Some};
    ghost use Rattle.image_build.specs.Texts.{place_text};

    ghost output = { λ place. Some (place_text place) };

    fn fmt<W: fmt::Write>(&self, f: &mut fmt::Formatter<W>) -> fmt::Result {
        match self {
            Place::Start => f.write_str("start"),
            Place::Command(number) => write!(f, "command {number}"),
            Place::End => f.write_str("end"),
        }
    }
}

impl fmt::Display for BuildCause {
    ghost use Rattle.std.specs.Prelude.{Some};
    ghost use Rattle.image_build.specs.Texts.{cause_text};

    ghost output = { λ cause. Some (cause_text cause) };

    fn fmt<W: fmt::Write>(&self, f: &mut fmt::Formatter<W>) -> fmt::Result {
        match self {
            BuildCause::Module(error) => write!(f, "{error}"),
            BuildCause::Fat(fat_macho::Error::Goblin(_)) => f.write_str("damaged fat file"),
            BuildCause::Fat(error) => write!(f, "{error}"),
            BuildCause::TooMany { what, count } => {
                let name = what_name(*what);
                write!(f, "too many {name}: {count}")
            }
            BuildCause::TooLarge { what, amount } => {
                let name = what_name(*what);
                write!(f, "too large {name}: {amount}")
            }
            BuildCause::Mixed => f.write_str("mixed parts"),
            BuildCause::OutOfMemory => f.write_str("out of memory"),
        }
    }
}

impl fmt::Display for BuildError {
    ghost use Rattle.std.specs.Prelude.{Some};
    ghost use Rattle.image_build.specs.Texts.{build_text};

    ghost output = { λ error. Some (build_text error) };

    fn fmt<W: fmt::Write>(&self, f: &mut fmt::Formatter<W>) -> fmt::Result {
        let part = self.part;
        let place = self.place;
        let cause = &self.cause;
        write!(f, "part {part} {place}: {cause}")
    }
}
