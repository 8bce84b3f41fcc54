//! The whole input, within its limit.

ghost use Rattle.std.specs.Prelude.{◌≡◌, ◌+◌, ◌-◌, ◌<◌, ◌≤◌, ◌↔◌, length, IfOk, IfSome, OnOk, IsErrOf};
ghost use Rattle.byte_core.specs.Count.{Rose, risen, last_count};
ghost use Rattle.byte_core.specs.Outside.{Outside, ChangesInput, TakesInput, IsAtEnd};

use byte_core::Host;
use std::alloc::Global;

/// An input has at most so many bytes.
pub const INPUT_LIMIT: usize = 67_108_864;

/// The input is asked for in blocks of so many bytes.
const BLOCK: usize = 65_536;

/// Why there is no input.
#[derive(Clone, Copy, Debug, PartialEq, Eq)]
pub enum InputError {
    /// A read failed.
    Failed,
    /// The input has more than [`INPUT_LIMIT`] bytes.
    TooLong,
    OutOfMemory,
}

/// Takes the input to its end, at most one byte past the limit.
pub fn read_input<H: Host>(alloc: Global, host: &mut H) -> Result<Vec<u8>, InputError>
    ensures ok { IfOk result (λ bytes. TakesInput (H.outside host.old) (H.outside host.new) bytes.items) }
    ensures known { IfOk result (λ bytes. IfSome (H.outside host.old).input (λ input. bytes.items ≡ input)) }
    ensures bound { IfOk result (λ bytes. length bytes.items ≤ INPUT_LIMIT) }
    ensures end { OnOk result (IsAtEnd (H.outside host.new)) }
    ensures too_long { (H.outside host.new).taken < last_count
        → (IsErrOf result InputError.TooLong ↔ (INPUT_LIMIT < (H.outside host.new).taken - (H.outside host.old).taken)) }
    ensures long { IsErrOf result InputError.TooLong → IfSome (H.outside host.old).input (λ input. INPUT_LIMIT < length input) }
    ensures at_most { (H.outside host.new).taken ≤ risen (H.outside host.old).taken (INPUT_LIMIT + 1) }
    ensures failed { IsErrOf result InputError.Failed → Rose (H.outside host.old).read_faults (H.outside host.new).read_faults }
    ensures others { ChangesInput (H.outside host.old) (H.outside host.new) }
{
    let Ok(mut block) = vec![in alloc; 0u8; BLOCK] else {
        return Err(InputError::OutOfMemory);
    };
    take_blocks(alloc, host, &mut block)
}

/// Takes the input to its end, a block at a time.
#[tactic(auto, using(crate::proofs::Taking::taken_nothing, crate::proofs::Taking::taken_again, crate::proofs::Taking::changes_input_again, crate::proofs::Taking::taken_whole, crate::proofs::Taking::taken_long))]
fn take_blocks<H: Host>(
    alloc: Global,
    host: &mut H,
    block: &mut [u8],
) -> Result<Vec<u8>, InputError>
    requires { length block.old ≡ BLOCK }
    ensures ok { IfOk result (λ bytes. TakesInput (H.outside host.old) (H.outside host.new) bytes.items) }
    ensures known { IfOk result (λ bytes. IfSome (H.outside host.old).input (λ input. bytes.items ≡ input)) }
    ensures bound { IfOk result (λ bytes. length bytes.items ≤ INPUT_LIMIT) }
    ensures end { OnOk result (IsAtEnd (H.outside host.new)) }
    ensures too_long { (H.outside host.new).taken < last_count
        → (IsErrOf result InputError.TooLong ↔ (INPUT_LIMIT < (H.outside host.new).taken - (H.outside host.old).taken)) }
    ensures long { IsErrOf result InputError.TooLong → IfSome (H.outside host.old).input (λ input. INPUT_LIMIT < length input) }
    ensures at_most { (H.outside host.new).taken ≤ risen (H.outside host.old).taken (INPUT_LIMIT + 1) }
    ensures failed { IsErrOf result InputError.Failed → Rose (H.outside host.old).read_faults (H.outside host.new).read_faults }
    ensures others { ChangesInput (H.outside host.old) (H.outside host.new) }
{
    let mut bytes = Vec::new(alloc);
    'taking: loop {
        let left = INPUT_LIMIT - bytes.len();
        let room = (left + 1).min(BLOCK);
        let Ok(n) = host.read(&mut block[..room]) else {
            return Err(InputError::Failed);
        };
        if n == 0 {
            return Ok(bytes);
        }
        if n > left {
            return Err(InputError::TooLong);
        }
        if bytes.extend_from_slice(&block[..n]).is_err() {
            return Err(InputError::OutOfMemory);
        }
    }
}
