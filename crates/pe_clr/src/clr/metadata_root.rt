//! The metadata that a CLR header names: ECMA-335, partition II, "Metadata root".

ghost use Rattle.pe_core.specs.Steps.{Gives};
ghost use Rattle.pe_clr.specs.Clr.{clr_view, metadata_at};

use crate::clr::storage::{STORAGE_HEADER_SIZE, storage_header};
use crate::clr::{ClrData, Cor20Header, StorageSignature};
use pe_core::pe_error::{Case, Error};
use pe_core::steps::{demand, u32_at};

/// The metadata of `size` bytes at `start`, under this header.
#[tactic(auto, unfolding(crate::specs::Clr::metadata_at, byte_core::specs::Number::bytes_at))]
pub fn metadata_at(
    bytes: &[u8],
    header: Cor20Header,
    start: usize,
    size: usize,
) -> Result<ClrData<'_>, Error>
    ensures { Gives clr_view result (metadata_at bytes.now header start size) }
{
    let signature = u32_at(bytes, start)?;
    demand(size <= bytes.len() - start, Case::MetadataRange)?;
    let mut offset = start;
    let root = StorageSignature::parse(bytes, &mut offset)?;
    let storage = storage_header(bytes, offset)?;
    let rows = offset + STORAGE_HEADER_SIZE;
    demand(rows - start <= size, Case::MetadataRange)?;
    Ok(ClrData {
        signature,
        cor20_header: header,
        storage_header: storage,
        metadata_header: root,
        metadata_data: &bytes[rows..start + size],
        offset_of_metadata: rows - start,
    })
}
