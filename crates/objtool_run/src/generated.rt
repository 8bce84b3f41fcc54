//! The command `gen`: the summary of a generated part.

ghost use Rattle.std.specs.Prelude.{◌≡◌, ◌<◌, ◌≤◌, IfOk, IfErr};
ghost use Rattle.objtool_run.specs.Generated.{IsSummaryLine};
ghost use Rattle.objtool_run.specs.declared.fault.Fault.TheVariants.{OutOfMemory};

use crate::fault::Fault;
use crate::query::ended;
use gen_summary::summary_text;
use std::alloc::Global;

/// The line of the summary of the part of a seed and a count.
pub(crate) fn summary_line(alloc: Global, seed: u32, count: u32) -> Result<Vec<u8>, Fault>
    requires least { 0 < count }
    requires most { count ≤ 100000 }
    ensures ok { IfOk result (λ text. IsSummaryLine seed count text.items) }
    ensures fault { IfErr result (λ fault. fault ≡ OutOfMemory) }
{
    match summary_text(alloc, seed, count) {
        Ok(text) => ended(text),
        Err(_) => Err(Fault::OutOfMemory),
    }
}
