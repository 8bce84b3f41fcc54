//! The command `names`: the name of a relocation.

ghost use Rattle.std.specs.Prelude.{◌≡◌, IfOk};
ghost use Rattle.goblin_reloc_names.specs.Names.{relocation_name};
ghost use Rattle.objtool_run.specs.Fault.{line};

use goblin_reloc_names::r_to_str;
use std::alloc::{AllocError, Global};

/// The name of a relocation of a machine, and a newline.
pub(crate) fn name_line(alloc: Global, machine: u16, number: u32) -> Result<Vec<u8>, AllocError>
    ensures { IfOk result (λ text. text.items ≡ line (relocation_name number machine)) }
{
    let mut text = r_to_str(number, machine).as_bytes().to_vec(alloc)?;
    text.push(b'\n')?;
    Ok(text)
}
