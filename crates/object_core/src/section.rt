//! Sections of an object.

ghost use Rattle.std.specs.Prelude.{◌≡◌, ◌<◌, ◌+◌, ◌^◌, [], true, length, replicate, IfOk, OnErr, OnOk};
ghost use Rattle.std.specs.Int.{is_power_of_two, next_multiple_of};
ghost use Rattle.object_core.specs.Standard.{empty_section};
ghost use Rattle.object_core.specs.Object.{body_of, changed_body};
ghost use Rattle.object_core.specs.Appending.{retained, relocated, with_contents, with_room};

use crate::placing::{append_padded, append_zeros};
use crate::{Relocation, SectionKind, StandardSection};
use std::alloc::{AllocError, Global};
use std::marker::Model;

/// A section of an object, which keeps its segment and name. A contract sees its bytes as a list.
#[derive(Drop)]
pub struct Section {
    kind: SectionKind,
    macho_flags: u32,
    retain: bool,
    align: u64,
    size: u128,
    contents: Vec<u8>,
    relocations: Vec<Relocation>,
    shared: Option<StandardSection>,
}

impl Model for Section {
    ghost use Rattle.object_core.specs.Object.{SectionBody};
    ghost use Rattle.object_core.specs.SectionView.{section_view};

    ghost Value = { SectionBody };

    ghost view = { section_view };
}

impl Section {
    /// What it holds.
    pub fn kind(&self) -> SectionKind
        ensures { result ≡ (self.now).kind }
    {
        self.kind
    }

    /// The flags of a Mach-O section, 0 in ELF.
    pub fn macho_flags(&self) -> u32
        ensures { result ≡ (self.now).macho_flags }
    {
        self.macho_flags
    }

    /// The linker keeps the section also where nothing uses it.
    pub fn retain(&self) -> bool
        ensures { result ≡ (self.now).retain }
    {
        self.retain
    }

    /// The greatest alignment of its contents in bytes, 1 where it has none.
    pub fn align(&self) -> u64
        ensures { result ≡ (self.now).align }
    {
        self.align
    }

    /// Its size in bytes, that of a zero-fill section too.
    pub fn size(&self) -> u128
        ensures { result ≡ (self.now).size }
    {
        self.size
    }

    /// Its bytes, none where it takes none of the file.
    pub fn contents(&self) -> &[u8]
        ensures { result.now ≡ (self.now).contents }
    {
        &self.contents
    }

    /// Its relocations, in the order in which they were added.
    pub fn relocations(&self) -> &[Relocation]
        ensures { result.now ≡ (self.now).relocations }
    {
        &self.relocations
    }

    /// The standard section that it is, where it isn't one of its own.
    pub fn shared(&self) -> Option<StandardSection>
        ensures { result ≡ (self.now).shared }
    {
        self.shared
    }

    /// A section in which nothing is yet.
    pub(crate) fn new(
        alloc: Global,
        kind: SectionKind,
        macho_flags: u32,
        shared: Option<StandardSection>,
    ) -> Section
        ensures { result ≡ body_of (empty_section [] [] kind macho_flags shared) }
    {
        Section {
            kind,
            macho_flags,
            retain: false,
            align: 1,
            size: 0,
            contents: Vec::new(alloc),
            relocations: Vec::new(alloc),
            shared,
        }
    }

    /// Marks it as one that the linker keeps.
    pub(crate) fn set_retain(&mut self)
        ensures { self.new ≡ changed_body retained self.old }
    {
        self.retain = true;
    }

    /// Appends a relocation.
    pub(crate) fn add_relocation(&mut self, relocation: Relocation) -> Result<(), AllocError>
        ensures ok { OnOk result (self.new ≡ changed_body (relocated relocation) self.old) }
        ensures err { OnErr result (self.new ≡ self.old) }
    {
        self.relocations.push(relocation)?;
        Ok(())
    }

    /// Appends contents behind zeros up to their alignment, and answers their offset.
    pub(crate) fn append(&mut self, contents: &[u8], align: u64) -> Result<u128, AllocError>
        requires power { is_power_of_two align ≡ true }
        requires bytes { length (self.old).contents ≡ (self.old).size }
        requires size { (self.old).size < 2 ^ 127 + 2 ^ 126 }
        ensures offset { IfOk result (λ offset. offset ≡ next_multiple_of (self.old).size align) }
        ensures ok { OnOk result (self.new ≡ changed_body (with_contents contents.now align) self.old) }
        ensures err { OnErr result (self.new ≡ self.old) }
    {
        let gap = self.next_offset(align) - self.size;
        append_padded(&mut self.contents, gap as usize, contents)?;
        Ok(self.append_room(contents.len() as u64, align))
    }

    /// Appends zeros of this size behind zeros up to their alignment, and answers their offset.
    pub(crate) fn append_zeros(&mut self, size: u64, align: u64) -> Result<u128, AllocError>
        requires power { is_power_of_two align ≡ true }
        requires bytes { length (self.old).contents ≡ (self.old).size }
        requires size { (self.old).size < 2 ^ 127 + 2 ^ 126 }
        ensures offset { IfOk result (λ offset. offset ≡ next_multiple_of (self.old).size align) }
        ensures ok { OnOk result (self.new ≡ changed_body (with_contents (replicate size 0) align) self.old) }
        ensures err { OnErr result (self.new ≡ self.old) }
    {
        let offset = self.size.next_multiple_of(u128::from(align));
        append_zeros(
            &mut self.contents,
            (offset - self.size) as usize,
            size as usize,
        )?;
        Ok(self.append_room(size, align))
    }

    /// Makes it so much larger behind a gap up to the alignment, without bytes, and answers their offset.
    pub(crate) fn append_room(&mut self, size: u64, align: u64) -> u128
        requires power { is_power_of_two align ≡ true }
        requires size { (self.old).size < 2 ^ 127 + 2 ^ 126 }
        ensures offset { result ≡ next_multiple_of (self.old).size align }
        ensures room { self.new ≡ changed_body (with_room size align) self.old }
    {
        let offset = self.next_offset(align);
        self.size = offset + u128::from(size);
        self.align = self.align.max(align);
        offset
    }

    // Where contents of this alignment stand behind those that it has.
    fn next_offset(&self, align: u64) -> u128
        requires power { is_power_of_two align ≡ true }
        requires size { (self.now).size < 2 ^ 127 + 2 ^ 126 }
        ensures { result ≡ next_multiple_of (self.now).size align }
    {
        self.size.next_multiple_of(u128::from(align))
    }
}
