//! A source that is longer than memory.

ghost use Rattle.std.specs.Prelude.{◌≡◌, ◌+◌, ◌<◌, ◌≤◌, length, IfOk};

use crate::images::X86_64;
use byte_core::{Failed, Source};

/// An image for x86_64 of so many bytes, all zeros behind its first. It never fails, and tells no bytes.
#[derive(Clone, Copy, Debug)]
pub struct HollowSource {
    len: u64,
}

impl HollowSource {
    pub fn new(len: u64) -> HollowSource {
        HollowSource { len }
    }
}

impl Source for HollowSource {
    ghost use Rattle.std.specs.Prelude.{None, false};
    ghost use Rattle.byte_core.specs.Streams.{SourceData};

    ghost source = { λ s. record { length = s.len; bytes = None; can_fail = false; faults = 0 } };

    fn len(&self) -> u64 {
        self.len
    }

    fn read_at(&mut self, buf: &mut [u8], offset: u64) -> Result<usize, Failed> {
        if offset >= self.len {
            return Ok(0);
        }
        let most = buf.len().min((self.len - offset) as usize);
        fill(&mut buf[..most], offset);
        Ok(most)
    }
}

// Writes the bytes from this place on.
fn fill(buf: &mut [u8], offset: u64)
    ensures { length buf.new ≡ length buf.old }
{
    for i in 0..buf.len() {
        let place = (offset as usize).saturating_add(i);
        buf[i] = *X86_64.get(place).unwrap_or(&0);
    }
}
