//! Slices that a writer holds.

ghost use Rattle.std.specs.Prelude.{◌≡◌};
ghost use Rattle.fat_macho.specs.HeldViews.{raw_shape};

use crate::shape::{Shaped, SliceShape};
use std::rc::RcSlice;

/// Where the bytes of a slice lie.
#[derive(Drop)]
pub enum SliceBytes<'a> {
    /// They are lent to the writer.
    Borrowed(&'a [u8]),
    /// They are the writer's own.
    Owned(Vec<u8>),
    /// A range of bytes that others share.
    Shared {
        bytes: RcSlice<u8>,
        offset: usize,
        size: usize,
    },
    /// A range of the source of this number.
    InSource {
        number: usize,
        offset: u64,
        size: u64,
    },
}

/// A slice that a writer holds.
#[derive(Drop)]
pub struct HeldSlice<'a> {
    pub cputype: u32,
    pub cpusubtype: u32,
    pub bytes: SliceBytes<'a>,
}

impl Shaped for HeldSlice<'_> {
    ghost use Rattle.fat_macho.specs.HeldViews.{raw_shape};

    ghost shape = { raw_shape };

    fn shape(&self) -> SliceShape {
        SliceShape {
            cputype: self.cputype,
            cpusubtype: self.cpusubtype,
            size: self.size(),
        }
    }
}

impl HeldSlice<'_> {
    /// How many bytes it has.
    pub fn size(&self) -> u64
        ensures { result ≡ (raw_shape self.now).size }
    {
        match &self.bytes {
            SliceBytes::Borrowed(bytes) => bytes.len() as u64,
            SliceBytes::Owned(bytes) => bytes.len() as u64,
            SliceBytes::Shared { size, .. } => *size as u64,
            SliceBytes::InSource { size, .. } => *size,
        }
    }
}
