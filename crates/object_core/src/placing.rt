//! What is appended: contents at their places with zeros between, and elements for which there is room.

ghost use Rattle.std.specs.Prelude.{◌≡◌, ◌++◌, ◌∷◌, [], ◌<◌, ◌≤◌, OnOk, OnErr, replicate, vec_len, vec_capacity};

use std::alloc::AllocError;

/// Appends so many zeros and then the contents.
pub(crate) fn append_padded(
    out: &mut Vec<u8>,
    zeros: usize,
    contents: &[u8],
) -> Result<(), AllocError>
    ensures ok { OnOk result (out.new.items ≡ out.old.items ++ replicate zeros 0 ++ contents.now) }
    ensures err { OnErr result (out.new.items ≡ out.old.items) }
{
    let end = out.len();
    let Some(padded) = end.checked_add(zeros) else {
        return Err(AllocError);
    };
    out.resize(padded, 0)?;
    if out.extend_from_slice(contents).is_err() {
        out.truncate(end);
        return Err(AllocError);
    }
    Ok(())
}

/// Appends so many zeros, and then zeros of this size.
#[tactic(auto, using(crate::proofs::Sections::zeros_behind))]
pub(crate) fn append_zeros(out: &mut Vec<u8>, zeros: usize, size: usize) -> Result<(), AllocError>
    ensures ok { OnOk result (out.new.items ≡ out.old.items ++ replicate zeros 0 ++ replicate size 0) }
    ensures err { OnErr result (out.new.items ≡ out.old.items) }
{
    let Some(padded) = out.len().checked_add(zeros) else {
        return Err(AllocError);
    };
    let Some(end) = padded.checked_add(size) else {
        return Err(AllocError);
    };
    out.resize(end, 0)?;
    Ok(())
}

/// Appends an element for which there is room.
pub(crate) fn push_reserved<T: Drop>(list: &mut Vec<T>, value: T)
    requires { vec_len list.old < vec_capacity list.old }
    ensures items { list.new.items ≡ list.old.items ++ value ∷ [] }
    ensures capacity { vec_capacity list.old ≤ vec_capacity list.new }
{
    if list.push(value).is_err() {
        unreachable!()
    }
}
