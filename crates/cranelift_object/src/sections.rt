//! The section of each definition.

ghost use Rattle.std.specs.Prelude.{◌≡◌, ◌<◌, Bool, true, None, Some, length, slice_get, option_map, IfOk, IsOk, OnOk};
ghost use Rattle.object_core.specs.Standard.{takes_no_bytes, is_standard_in};
ghost use Rattle.object_core.specs.Appending.{is_unstored, with_section};
ghost use Rattle.cranelift_module.specs.Refusal.{section_cause};
ghost use Rattle.cranelift_module.specs.SectionText.{section_text};
ghost use Rattle.cranelift_object.specs.SectionClass.{section_class, unused_class, standard_class_in, has_own_section, standard_section, data_section, initialized_section, custom_kind, kind_by_type, marks_section};
ghost use Rattle.cranelift_object.specs.Product.{with_class, class_place};

use crate::ObjectModule;
use crate::definition::Definition;
use cranelift_module::{FuncOrDataId, Init, parse_section};
use ir_core::{BinaryFormat, is_zero_fill_type};
use object_core::{Object, SectionId, SectionKind, StandardSection};
use std::alloc::AllocError;

impl ObjectModule {
    // Sees to it that there is a section for a definition.
    pub(crate) fn open_section(
        &self,
        object: &mut Object,
        definition: &Definition,
    ) -> Result<SectionId, AllocError>
        requires format { object.old.format ≡ (self.now).state.target.triple.binary_format }
        requires standard { is_standard_in object.old.format (standard_section (self.now).state definition.now (definition.now).identifier) ≡ true }
        requires text { section_cause object.old.format (Some (definition.now).contents) (definition.now).section ≡ None }
        requires marked { (section_class (self.now).settings (self.now).state definition.now).retain ≡ true → (section_class (self.now).settings (self.now).state definition.now).shared ≡ None }
        ensures opened { OnOk result (object.new ≡ with_class object.old (section_class (self.now).settings (self.now).state definition.now)) }
        ensures id { IfOk result (λ id. id ≡ class_place object.old (section_class (self.now).settings (self.now).state definition.now)) }
    {
        let section = self.add_section(object, definition)?;
        if self.marks_section(definition) {
            object.set_retain(section);
        }
        Ok(section)
    }

    // Whether the linker is asked to keep the section of a definition.
    fn marks_section(&self, definition: &Definition) -> bool
        ensures { result ≡ marks_section (self.now).state.target.triple.binary_format (definition.now).used }
    {
        match self.builder.isa().triple().binary_format {
            BinaryFormat::Macho => false,
            _ => definition.used(),
        }
    }

    // Sees to it that there is a section for a definition, without the mark that the linker keeps it.
    fn add_section(
        &self,
        object: &mut Object,
        definition: &Definition,
    ) -> Result<SectionId, AllocError>
        requires format { object.old.format ≡ (self.now).state.target.triple.binary_format }
        requires standard { is_standard_in object.old.format (standard_section (self.now).state definition.now (definition.now).identifier) ≡ true }
        requires text { section_cause object.old.format (Some (definition.now).contents) (definition.now).section ≡ None }
        ensures opened { OnOk result (object.new ≡ with_class object.old (unused_class (section_class (self.now).settings (self.now).state definition.now))) }
        ensures id { IfOk result (λ id. id ≡ class_place object.old (section_class (self.now).settings (self.now).state definition.now)) }
    {
        if let Some(text) = definition.section() {
            return add_text_section(object, text, custom_kind(definition));
        }
        let standard = self.standard_section(definition);
        let own = self.has_own_section(definition);
        add_standard_section(object, standard, own)
    }

    // Whether a definition without a section text has a section of its own.
    fn has_own_section(&self, definition: &Definition) -> bool
        ensures { result ≡ has_own_section (self.now).settings definition.now (definition.now).identifier }
    {
        match definition.identifier() {
            FuncOrDataId::Func(_) => self.builder.function_sections(),
            FuncOrDataId::Data(_) => self.builder.data_sections() || definition.used(),
        }
    }

    // The standard section of a definition.
    fn standard_section(&self, definition: &Definition) -> StandardSection
        ensures { result ≡ standard_section (self.now).state definition.now (definition.now).identifier }
    {
        match definition.identifier() {
            FuncOrDataId::Func(_) => StandardSection::Text,
            FuncOrDataId::Data(object) => data_section(self.is_thread_local(object), definition),
        }
    }
}

// A section as its text asks for it, which has no fault.
fn add_text_section(
    object: &mut Object,
    text: &str,
    kind: SectionKind,
) -> Result<SectionId, AllocError>
    requires { IsOk (section_text object.old.format text.now) }
    ensures opened { IfOk (section_text object.old.format text.now) (λ asked. OnOk result (object.new ≡ with_section object.old asked.segment asked.name (kind_by_type asked.flags kind) asked.flags)) }
    ensures id { IfOk result (λ id. id ≡ length object.old.sections) }
{
    match parse_section(text, object.format()) {
        Ok((segment, name, flags)) => object.add_section(
            segment.as_bytes(),
            name.as_bytes(),
            kind_by_type(flags, kind),
            flags,
        ),
        Err(_) => unreachable!(),
    }
}

// A standard section, or one beside it; in Mach-O that one itself.
fn add_standard_section(
    object: &mut Object,
    standard: StandardSection,
    own: bool,
) -> Result<SectionId, AllocError>
    requires { is_standard_in object.old.format standard ≡ true }
    ensures opened { (used : Bool) → OnOk result (object.new ≡ with_class object.old (unused_class (standard_class_in object.old.format standard own used))) }
    ensures id { (used : Bool) → IfOk result (λ id. id ≡ class_place object.old (standard_class_in object.old.format standard own used)) }
{
    if own {
        object.add_subsection(standard)
    } else {
        object.section_id(standard)
    }
}

/// Whether a section takes no bytes of its object's file.
pub(crate) fn is_unstored(object: &Object, section: SectionId) -> bool
    requires { section < length (object.now).sections }
    ensures { option_map (is_unstored (object.now).format) (slice_get (object.now).sections section) ≡ Some result }
{
    let format = object.format();
    let section = object.section(section);
    takes_no_bytes(format, section.kind(), section.macho_flags())
}

// Whether a section of this kind and these flags takes no bytes of a file.
fn takes_no_bytes(format: BinaryFormat, kind: SectionKind, flags: u32) -> bool
    ensures { result ≡ takes_no_bytes format kind flags }
{
    match format {
        BinaryFormat::Macho => is_zero_fill_type(flags),
        _ => kind.is_zero_fill(),
    }
}

// The kind of a section with these Mach-O flags: that of the zero-fill types, else the one given.
fn kind_by_type(flags: u32, other: SectionKind) -> SectionKind
    ensures { result ≡ kind_by_type flags other }
{
    match flags % 256 {
        1 => SectionKind::UninitializedData,
        0x12 => SectionKind::UninitializedTls,
        _ => other,
    }
}

// The standard section of data.
fn data_section(tls: bool, definition: &Definition) -> StandardSection
    ensures { result ≡ data_section tls definition.now (definition.now).contents }
{
    match (definition.contents(), tls) {
        (Init::Zeros { .. }, true) => StandardSection::UninitializedTls,
        (Init::Zeros { .. }, false) => StandardSection::UninitializedData,
        (_, true) => StandardSection::Tls,
        (_, false) => initialized_section(definition.writable(), definition.relocs().is_empty()),
    }
}

// The standard section of initialized data that is not thread-local.
fn initialized_section(writable: bool, plain: bool) -> StandardSection
    ensures { result ≡ initialized_section writable plain }
{
    if writable {
        StandardSection::Data
    } else if plain {
        StandardSection::ReadOnlyData
    } else {
        StandardSection::ReadOnlyDataWithRel
    }
}

// The kind of a section under a text of its own.
fn custom_kind(definition: &Definition) -> SectionKind
    ensures { result ≡ custom_kind definition.now }
{
    if !definition.writable() && definition.relocs().is_empty() {
        SectionKind::ReadOnlyData
    } else {
        SectionKind::Data
    }
}
