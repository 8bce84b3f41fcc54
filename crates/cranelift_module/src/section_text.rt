//! The text under which a definition asks for a section. In Mach-O it is a segment, a section, a type and attributes, as
//! the directive `.section` of Apple's assembler takes them.

ghost use Rattle.std.specs.Prelude.{◌≡◌, ◌∷◌, ◌<◌, IfSome, length};
ghost use Rattle.cranelift_module.specs.SectionText.{HasParts, IsCut, number_named, section_types, section_attributes, parts_between, parts_of_text, type_in, attributes_in, section_by, section_text, answer_of, seen};

use crate::SectionFault;
use ir_core::BinaryFormat;

/// What the text of a section asks for: in Mach-O the segment, the section and the flags, which are the type and the
/// attributes together ("struct section_64"); the first check that the text fails is told. In other formats the whole
/// text is the section's name.
pub fn parse_section(section: &str, format: BinaryFormat) -> Result<(&str, &str, u32), SectionFault>
    ensures { answer_of result ≡ section_text format section.now }
{
    match format {
        BinaryFormat::Macho => section_of(&parts_of(section)),
        _ => Ok(("", section, 0)),
    }
}

// The parts of a text between commas, and whether there are more than four.
#[derive(Drop)]
struct Parts<'a> {
    segment: &'a str,
    name: Option<&'a str>,
    type_name: Option<&'a str>,
    attributes: Option<&'a str>,
    has_more: bool,
}

fn parts_of(text: &str) -> Parts<'_>
    ensures { HasParts (parts_of_text text.now) result.segment.now (seen result.name) (seen result.type_name) (seen result.attributes) result.has_more }
{
    let (segment, rest) = cut_at(text, ',');
    let (name, rest) = next_part(rest);
    let (type_name, rest) = next_part(rest);
    let (attributes, rest) = next_part(rest);
    Parts {
        segment,
        name,
        type_name,
        attributes,
        has_more: rest.is_some(),
    }
}

fn next_part(text: Option<&str>) -> (Option<&str>, Option<&str>)
    ensures { IsCut (seen text.entry) (seen result.0) (seen result.1) }
{
    match text {
        Some(text) => {
            let (part, rest) = cut_at(text, ',');
            (Some(part), rest)
        }
        None => (None, None),
    }
}

// What the parts of a text ask for, or the first check that they fail.
fn section_of<'a>(parts: &Parts<'a>) -> Result<(&'a str, &'a str, u32), SectionFault>
    ensures { answer_of result ≡ section_by (parts.now).segment.now (seen (parts.now).name) (seen (parts.now).type_name) (seen (parts.now).attributes) (parts.now).has_more }
{
    if parts.segment.len() > 16 {
        return Err(SectionFault::SegmentLong);
    }
    let Some(name) = parts.name else {
        return Err(SectionFault::NoComma);
    };
    if name.len() > 16 {
        return Err(SectionFault::SectionLong);
    }
    let Some(section_type) = type_of(parts.type_name) else {
        return Err(SectionFault::UnknownType);
    };
    let Some(attributes) = attributes_of(parts.attributes) else {
        return Err(SectionFault::UnknownAttribute);
    };
    if parts.has_more {
        return Err(SectionFault::TooManyParts);
    }
    Ok((parts.segment, name, section_type | attributes))
}

// All attributes of a text together, where each is known.
fn attributes_of(text: Option<&str>) -> Option<u32>
    ensures { result ≡ attributes_in (seen text.entry) }
{
    let mut bits = 0;
    let mut rest = text;
    while let Some(pieces) = rest {
        let (name, behind) = cut_at(pieces, '+');
        let Some(attribute) = attribute_named(name) else {
            return None;
        };
        bits |= attribute;
        rest = behind;
    }
    Some(bits)
}

// What stands before the first separator, and what stands behind it.
fn cut_at(text: &str, separator: char) -> (&str, Option<&str>)
    requires { separator < 128 }
    ensures parts { parts_between separator (Some text.now) ≡ result.0.now ∷ parts_between separator (seen result.1) }
    ensures shorter { IfSome result.1 (λ rest. length rest.now < length text.now) }
{
    match text.split_once(separator) {
        Some((part, rest)) => (part, Some(rest)),
        None => (text, None),
    }
}

// The type that the third part names, `regular` where it is absent.
fn type_of(type_name: Option<&str>) -> Option<u32>
    ensures { result ≡ type_in (seen type_name.entry) }
{
    match type_name {
        Some(name) => type_named(name),
        None => type_named("regular"),
    }
}

// A section type by its name: S_REGULAR and on.
fn type_named(name: &str) -> Option<u32>
    ensures { result ≡ number_named section_types name.now }
{
    match name {
        "regular" => Some(0),
        "zerofill" => Some(1),
        "cstring_literals" => Some(2),
        "4byte_literals" => Some(3),
        "8byte_literals" => Some(4),
        "literal_pointers" => Some(5),
        "non_lazy_symbol_pointers" => Some(6),
        "lazy_symbol_pointers" => Some(7),
        "mod_init_funcs" => Some(9),
        "mod_term_funcs" => Some(0xa),
        "coalesced" => Some(0xb),
        "interposing" => Some(0xd),
        "16byte_literals" => Some(0xe),
        "thread_local_regular" => Some(0x11),
        "thread_local_zerofill" => Some(0x12),
        "thread_local_variables" => Some(0x13),
        "thread_local_variable_pointers" => Some(0x14),
        "thread_local_init_function_pointers" => Some(0x15),
        _ => None,
    }
}

// A section attribute by its name: S_ATTR_PURE_INSTRUCTIONS and on.
fn attribute_named(name: &str) -> Option<u32>
    ensures { result ≡ number_named section_attributes name.now }
{
    match name {
        "pure_instructions" => Some(0x8000_0000),
        "no_toc" => Some(0x4000_0000),
        "strip_static_syms" => Some(0x2000_0000),
        "no_dead_strip" => Some(0x1000_0000),
        "live_support" => Some(0x0800_0000),
        "self_modifying_code" => Some(0x0400_0000),
        "debug" => Some(0x0200_0000),
        _ => None,
    }
}
