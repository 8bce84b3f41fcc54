//! The line that is told of a generated part.

ghost use Rattle.std.specs.Prelude.{◌≡◌, ◌+◌, ◌<◌, ◌≤◌, length, IfOk, string_bytes};
ghost use Rattle.std.specs.List.{All};
ghost use Rattle.image_read.specs.ElfImage.{IsElf, ElfReads};
ghost use Rattle.gen_summary.specs.Summary.{IsSummary, IsSummaryOf, relocation_count, summary_line};

use crate::part_file::file_of_part;
use image_read::{ElfImage, Image, ReadError, read_image};
use part_gen::gen_part;
use std::alloc::{AllocError, Global};

/// The line `functions N data N sections S symbols Y relocations R bytes L` of the part of `n` functions and as many data
/// objects that a seed gives, by what its file is read as. The null section and the null symbol are counted. It needs
/// at least one and at most 100,000 of each; any seed is taken.
pub fn summary_text(alloc: Global, seed: u32, n: u32) -> Result<Vec<u8>, AllocError>
    requires least { 0 < n }
    requires most { n ≤ 100000 }
    ensures { IfOk result (λ text. IsSummary seed n text.items) }
{
    let part = gen_part(alloc, seed, n)?;
    let bytes = file_of_part(alloc, &part)?;
    Ok(summary_of(alloc, n, &bytes)?.into_bytes())
}

/// The line of `n` functions and as many data objects in an ELF file.
#[tactic(auto, using(crate::proofs::ReadBack::told))]
fn summary_of(alloc: Global, n: u32, bytes: &[u8]) -> Result<String, AllocError>
    requires { IsElf bytes.now }
    ensures read { IfOk result (λ line. IsSummaryOf n bytes.now (string_bytes line)) }
    ensures are_bytes { All (λ x. x < 256) bytes.now }
{
    let image = read_back(alloc, bytes)?;
    let line = summary_line(alloc, n, &image, bytes.len())?;
    Ok(line)
}

/// The image of an ELF file.
#[tactic(auto, using(crate::proofs::ReadBack::no_mach, crate::proofs::ReadBack::no_fat, crate::proofs::ReadBack::not_unread))]
fn read_back<'a>(alloc: Global, bytes: &'a [u8]) -> Result<ElfImage<'a>, AllocError>
    requires { IsElf bytes.now }
    ensures { IfOk result (ElfReads bytes.now) }
{
    match read_image(alloc, bytes) {
        Ok(Image::Elf(image)) => Ok(image),
        Ok(Image::Mach(_)) => unreachable!(),
        Ok(Image::Fat(_)) => unreachable!(),
        Err(ReadError::OutOfMemory) => Err(AllocError),
        Err(ReadError::NoReading) => unreachable!(),
    }
}

fn summary_line(
    alloc: Global,
    n: u32,
    image: &ElfImage<'_>,
    len: usize,
) -> Result<String, AllocError>
    ensures { IfOk result (λ line. string_bytes line ≡ summary_line n image.now len) }
{
    let sections = section_rows(image);
    let symbols = symbol_rows(image);
    let relocations = relocation_count(image);
    format!(in alloc;
        "functions {n} data {n} sections {sections} symbols {symbols} relocations {relocations} bytes {len}"
    )
}

/// The rows of the section headers, with the null row.
fn section_rows(image: &ElfImage<'_>) -> u128
    ensures { result ≡ length (image.now).sections + 1 }
{
    image.sections().len() as u128 + 1
}

/// The rows of the symbol table, with the null row.
#[tactic(auto, using(crate::proofs::ReadBack::symbol_rows))]
fn symbol_rows(image: &ElfImage<'_>) -> u128
    ensures { result ≡ length (image.now).symbols + 1 }
{
    image.symbols().len() as u128 + 1
}

/// The relocations of all sections.
fn relocation_count(image: &ElfImage<'_>) -> u128
    ensures { result ≡ relocation_count image.now }
{
    let sections = image.sections();
    let mut count: u128 = 0;
    for section in sections {
        count += section.relocations().len() as u128;
    }
    count
}
