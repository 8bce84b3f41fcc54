//! Whole writes of the output and of the fault text.

ghost use Rattle.std.specs.Prelude.{◌≡◌, OnOk, OnErr};
ghost use Rattle.byte_core.specs.Count.{Rose};
ghost use Rattle.byte_core.specs.Outside.{Outside, ChangesOutput, ChangesErrors, Appends, AppendsFront};

use byte_core::{Failed, Host};

/// Writes all the bytes to the output. Where a write fails, a front of them was written.
#[tactic(auto, using(crate::proofs::Taking::appends_nothing, crate::proofs::Taking::changes_output_again))]
pub fn write_output<H: Host>(host: &mut H, bytes: &[u8]) -> Result<(), Failed>
    ensures ok { OnOk result (Appends (H.outside host.old).output (H.outside host.new).output bytes.now) }
    ensures front { AppendsFront (H.outside host.old).output (H.outside host.new).output bytes.now }
    ensures failed { OnErr result (Rose (H.outside host.old).write_faults (H.outside host.new).write_faults) }
    ensures others { ChangesOutput (H.outside host.old) (H.outside host.new) }
{
    let mut done = 0;
    while done < bytes.len() {
        let n = host.write(&bytes[done..])?;
        done += n;
    }
    Ok(())
}

/// Writes all the bytes to the fault text. Where a write fails, a front of them was written.
#[tactic(auto, using(crate::proofs::Taking::appends_nothing, crate::proofs::Taking::changes_errors_again))]
pub fn write_fault_text<H: Host>(host: &mut H, bytes: &[u8]) -> Result<(), Failed>
    ensures ok { OnOk result (Appends (H.outside host.old).errors (H.outside host.new).errors bytes.now) }
    ensures front { AppendsFront (H.outside host.old).errors (H.outside host.new).errors bytes.now }
    ensures failed { OnErr result (Rose (H.outside host.old).err_faults (H.outside host.new).err_faults) }
    ensures others { ChangesErrors (H.outside host.old) (H.outside host.new) }
{
    let mut done = 0;
    while done < bytes.len() {
        let n = host.write_err(&bytes[done..])?;
        done += n;
    }
    Ok(())
}
