//! What the readers of a directory are given: the file, its section table, the directory's entry and how addresses are
//! resolved.

ghost use Rattle.std.specs.Prelude.{◌≡◌};
ghost use Rattle.serde_json.specs.View.{view, items_view};
ghost use Rattle.json_form.specs.Form.{Gives, each_of};
ghost use Rattle.pe_json.specs.Views.{image_view};
ghost use Rattle.pe_json.specs.Image.{section_of, sections_at, directory_of, image_of};

use json_form::{FormError, has_item, hex_at, items_at, mark_or, u32_at, u32_in, value_at};
use pe_core::section_table::{DataDirectory, ParseOptions, SectionTable};
use serde_json::Value;
use std::alloc::Global;

/// A file, its section table, and a directory in it.
#[derive(Debug, Drop)]
pub struct Image {
    pub bytes: Vec<u8>,
    pub directory: DataDirectory,
    pub sections: Vec<SectionTable>,
    pub file_alignment: u32,
    pub options: ParseOptions,
}

/// A row of the section table: address, size in memory, pointer, size in the file. It has no name and no
/// characteristics, which no reader looks at.
#[tactic(auto, unfolding(crate::specs::Image::section_of))]
fn section_of(value: &Value) -> Result<SectionTable, FormError>
    ensures { Gives (λ s. s) result (section_of (view value.now)) }
{
    if has_item(value, 4) {
        return Err(FormError::NotForm);
    }
    let virtual_address = u32_in(value, 0)?;
    let virtual_size = u32_in(value, 1)?;
    let pointer_to_raw_data = u32_in(value, 2)?;
    let size_of_raw_data = u32_in(value, 3)?;
    Ok(SectionTable {
        name: [0; 8],
        virtual_size,
        virtual_address,
        size_of_raw_data,
        pointer_to_raw_data,
        characteristics: 0,
    })
}

fn sections_in(alloc: Global, values: &[Value]) -> Result<Vec<SectionTable>, FormError>
    ensures { Gives (λ v. v.items) result (each_of section_of (items_view values.now)) }
{
    let mut sections = Vec::new(alloc);
    for value in values {
        match section_of(value) {
            Ok(section) => sections.push(section)?,
            Err(error) => return Err(error),
        }
    }
    Ok(sections)
}

/// The section table under a key.
pub fn sections_at(alloc: Global, value: &Value, key: &str) -> Result<Vec<SectionTable>, FormError>
    ensures { Gives (λ v. v.items) result (sections_at key.now (view value.now)) }
{
    sections_in(alloc, items_at(value, key)?)
}

/// An entry of the data directory: an address and a size.
#[tactic(auto, unfolding(crate::specs::Image::directory_of))]
fn directory_of(value: &Value) -> Result<DataDirectory, FormError>
    ensures { Gives (λ d. d) result (directory_of (view value.now)) }
{
    if has_item(value, 2) {
        return Err(FormError::NotForm);
    }
    let virtual_address = u32_in(value, 0)?;
    let size = u32_in(value, 1)?;
    Ok(DataDirectory {
        virtual_address,
        size,
    })
}

/// What an object says of a file and a directory in it. Other keys are passed over.
#[tactic(auto, unfolding(crate::specs::Image::image_of))]
pub fn image_of(alloc: Global, value: &Value) -> Result<Image, FormError>
    ensures { Gives image_view result (image_of (view value.now)) }
{
    let bytes = hex_at(alloc, value, "bytes")?;
    let directory = directory_of(value_at(value, "directory")?)?;
    let sections = sections_at(alloc, value, "sections")?;
    let file_alignment = u32_at(value, "file_alignment")?;
    let resolve_rva = mark_or(value, "resolve_rva", true)?;
    Ok(Image {
        bytes,
        directory,
        sections,
        file_alignment,
        options: ParseOptions { resolve_rva },
    })
}
