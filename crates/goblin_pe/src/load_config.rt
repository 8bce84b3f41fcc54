//! The load configuration: Microsoft's PE Format, "The Load Configuration Structure (Image Only)".

mod fields;

use fields::directory_fields;
use pe_core::pe_error::{Case, Error};
use pe_core::rva::offset_or_refusal;
use pe_core::section_table::{DataDirectory, ParseOptions, SectionTable};
use pe_core::steps::{address_width, demand, is_inside};

/// The image checks targets of calls.
pub const IMAGE_GUARD_CF_INSTRUMENTED: u32 = 0x0000_0100;

/// The image checks targets of calls and of writes.
pub const IMAGE_GUARD_CFW_INSTRUMENTED: u32 = 0x0000_0200;

/// There is a table of functions that may be called.
pub const IMAGE_GUARD_CF_FUNCTION_TABLE_PRESENT: u32 = 0x0000_0400;

/// The cookie that guards stacks isn't used.
pub const IMAGE_GUARD_SECURITY_COOKIE_UNUSED: u32 = 0x0000_0800;

/// The table of delayed imports can be made read-only.
pub const IMAGE_GUARD_PROTECT_DELAYLOAD_IAT: u32 = 0x0000_1000;

/// The table of delayed imports has a section of its own.
pub const IMAGE_GUARD_DELAYLOAD_IAT_IN_ITS_OWN_SECTION: u32 = 0x0000_2000;

/// There are marks of exports that may not be called by address.
pub const IMAGE_GUARD_CF_EXPORT_SUPPRESSION_INFO_PRESENT: u32 = 0x0000_4000;

/// Such exports are barred.
pub const IMAGE_GUARD_CF_ENABLE_EXPORT_SUPPRESSION: u32 = 0x0000_8000;

/// There is a table of places to which long jumps go.
pub const IMAGE_GUARD_CF_LONGJUMP_TABLE_PRESENT: u32 = 0x0001_0000;

/// The image checks returns.
pub const IMAGE_GUARD_RF_INSTRUMENTED: u32 = 0x0002_0000;

/// The checks of returns are asked for.
pub const IMAGE_GUARD_RF_ENABLE: u32 = 0x0004_0000;

/// The checks of returns are strict.
pub const IMAGE_GUARD_RF_STRICT: u32 = 0x0008_0000;

/// Branches can be turned into retpolines.
pub const IMAGE_GUARD_RETPOLINE_PRESENT: u32 = 0x0010_0000;

/// There is a table of places where exceptions continue.
pub const IMAGE_GUARD_EH_CONTINUATION_TABLE_PRESENT: u32 = 0x0040_0000;

/// Extended flow guard is on.
pub const IMAGE_GUARD_XFG_ENABLED: u32 = 0x0080_0000;

/// The image checks casts.
pub const IMAGE_GUARD_CASTGUARD_PRESENT: u32 = 0x0100_0000;

/// The image has a guarded copy.
pub const IMAGE_GUARD_MEMCPY_PRESENT: u32 = 0x0200_0000;

/// Imports of the library aren't loaded.
pub const DONT_RESOLVE_DLL_REFERENCES: u32 = 0x0000_0001;

/// The library is loaded as data.
pub const LOAD_LIBRARY_AS_DATAFILE: u32 = 0x0000_0002;

/// The library is one of a package.
pub const LOAD_PACKAGED_LIBRARY: u32 = 0x0000_0004;

/// The search begins in the library's own folder.
pub const LOAD_WITH_ALTERED_SEARCH_PATH: u32 = 0x0000_0008;

/// Rules that restrict software aren't asked.
pub const LOAD_IGNORE_CODE_AUTHZ_LEVEL: u32 = 0x0000_0010;

/// The library is loaded for its resources.
pub const LOAD_LIBRARY_AS_IMAGE_RESOURCE: u32 = 0x0000_0020;

/// The library is loaded as data that nobody else writes.
pub const LOAD_LIBRARY_AS_DATAFILE_EXCLUSIVE: u32 = 0x0000_0040;

/// The library has to be signed.
pub const LOAD_LIBRARY_REQUIRE_SIGNED_TARGET: u32 = 0x0000_0080;

/// The library's folder is searched.
pub const LOAD_LIBRARY_SEARCH_DLL_LOAD_DIR: u32 = 0x0000_0100;

/// The program's folder is searched.
pub const LOAD_LIBRARY_SEARCH_APPLICATION_DIR: u32 = 0x0000_0200;

/// Folders that the program added are searched.
pub const LOAD_LIBRARY_SEARCH_USER_DIRS: u32 = 0x0000_0400;

/// The system's folder is searched.
pub const LOAD_LIBRARY_SEARCH_SYSTEM32: u32 = 0x0000_0800;

/// The default folders are searched.
pub const LOAD_LIBRARY_SEARCH_DEFAULT_DIRS: u32 = 0x0000_1000;

/// The current folder is searched only where it is safe.
pub const LOAD_LIBRARY_SAFE_CURRENT_DIRS: u32 = 0x0000_2000;

/// The system's folder is searched, without what its libraries forward.
pub const LOAD_LIBRARY_SEARCH_SYSTEM32_NO_FORWARDER: u32 = 0x0000_4000;

/// The library has the integrity of the system.
pub const LOAD_LIBRARY_OS_INTEGRITY_CONTINUITY: u32 = 0x0000_8000;

/// How the code of an image is checked against a catalogue.
#[derive(Clone, Copy, Debug, PartialEq, Eq)]
pub struct LoadConfigCodeIntegrity {
    pub flags: u16,
    pub catalog: u16,
    pub catalog_offset: u32,
    pub reserved: u32,
}

/// What the loader reads of an image. Addresses are those of the image in memory. From the first field on that the
/// bytes are too short for, all are None.
#[derive(Clone, Debug, Default, Drop, PartialEq, Eq)]
pub struct LoadConfigDirectory {
    /// The size of the structure that the file gives.
    pub size: u32,
    /// Seconds since 1970.
    pub time_stamp: Option<u32>,
    pub major_version: Option<u16>,
    pub minor_version: Option<u16>,
    /// Global loader flags to clear.
    pub global_flags_clear: Option<u32>,
    /// Global loader flags to set.
    pub global_flags_set: Option<u32>,
    /// Milliseconds until a critical section gives up.
    pub critical_section_default_timeout: Option<u32>,
    /// Bytes that a free block has before it is given back.
    pub de_commit_free_block_threshold: Option<u64>,
    /// Bytes that are free in all before some are given back.
    pub de_commit_total_free_threshold: Option<u64>,
    /// Address of the addresses of lock prefixes.
    pub lock_prefix_table: Option<u64>,
    /// The greatest allocation in bytes.
    pub maximum_allocation_size: Option<u64>,
    /// The greatest block of the heap in bytes.
    pub virtual_memory_threshold: Option<u64>,
    /// The processors on which the process runs. As in the crate goblin it stands before the flags of the first heap in
    /// files of both widths; PE Format has these first in files of 32 bits, so there the two fields are exchanged.
    pub process_affinity_mask: Option<u64>,
    /// Flags of the first heap. In files of 32 bits it is read where PE Format has the processors.
    pub process_heap_flags: Option<u32>,
    /// The service pack.
    pub csd_version: Option<u16>,
    /// How libraries that the image imports are loaded, `LOAD_*`.
    pub dependent_load_flags: Option<u16>,
    /// Reserved for the system.
    pub edit_list: Option<u64>,
    /// Address of the cookie that guards stacks.
    pub security_cookie: Option<u64>,
    /// Address of the table of exception handlers.
    pub se_handler_table: Option<u64>,
    /// How many exception handlers there are.
    pub se_handler_count: Option<u64>,
    /// Address of the pointer to the check of control flow guard.
    pub guard_cf_check_function_pointer: Option<u64>,
    /// Address of the pointer to its dispatch.
    pub guard_cf_dispatch_function_pointer: Option<u64>,
    /// Address of the table of functions that may be called.
    pub guard_cf_function_table: Option<u64>,
    /// How many such functions there are.
    pub guard_cf_function_count: Option<u64>,
    /// The guards of the image, `IMAGE_GUARD_*`.
    pub guard_flags: Option<u32>,
    pub code_integrity: Option<LoadConfigCodeIntegrity>,
    /// Address of the table of imports whose address is taken.
    pub guard_address_taken_iat_entry_table: Option<u64>,
    /// How many such imports there are.
    pub guard_address_taken_iat_entry_count: Option<u64>,
    /// Address of the table of places to which long jumps go.
    pub guard_long_jump_target_table: Option<u64>,
    /// How many such places there are.
    pub guard_long_jump_target_count: Option<u64>,
    /// Address of the dynamic relocations.
    pub dynamic_value_reloc_table: Option<u64>,
    /// Address of the metadata of hybrid images.
    pub chpe_metadata_pointer: Option<u64>,
    /// Address of the routine for failed returns.
    pub guard_rf_failure_routine: Option<u64>,
    /// Address of the pointer to that routine.
    pub guard_rf_failure_routine_function_pointer: Option<u64>,
    /// The offset of the dynamic relocations in their section.
    pub dynamic_value_reloc_table_offset: Option<u32>,
    /// The number of that section.
    pub dynamic_value_reloc_table_section: Option<u16>,
    pub reserved2: Option<u16>,
    /// Address of the pointer to the check of stack pointers.
    pub guard_rf_verify_stack_pointer_function_pointer: Option<u64>,
    /// The offset of the hot patches.
    pub hot_patch_table_offset: Option<u32>,
    pub reserved3: Option<u32>,
    /// Address of the configuration of an enclave.
    pub enclave_configuration_pointer: Option<u64>,
    /// Address of the metadata of volatile accesses.
    pub volatile_metadata_pointer: Option<u64>,
    /// Address of the table of places where exceptions continue.
    pub guard_eh_continuation_table: Option<u64>,
    /// How many such places there are.
    pub guard_eh_continuation_count: Option<u64>,
    /// Address of the pointer to the check of extended flow guard.
    pub guard_xfg_check_function_pointer: Option<u64>,
    /// Address of the pointer to its dispatch.
    pub guard_xfg_dispatch_function_pointer: Option<u64>,
    /// Address of the pointer to its dispatch by table.
    pub guard_xfg_table_dispatch_function_pointer: Option<u64>,
    /// What a failed cast does, as the system sets it.
    pub cast_guard_os_determined_failure_mode: Option<u64>,
    /// Address of the pointer to the guarded copy.
    pub guard_memcpy_function_pointer: Option<u64>,
}

impl LoadConfigDirectory {
    ghost use Rattle.std.specs.Prelude.{◌≡◌};
    ghost use Rattle.goblin_pe.specs.LoadConfig.{load_config_at};

    /// The configuration that these bytes hold. TooSmall where they are fewer than 4.
    pub fn parse(bytes: &[u8], is_64: bool) -> Result<Self, Error>
        ensures { result ≡ load_config_at bytes.now is_64 }
    {
        demand(bytes.len() >= 4, Case::TooSmall)?;
        Ok(directory_fields(bytes, address_width(is_64)))
    }
}

/// The load configuration of an image.
#[derive(Clone, Debug, Default, Drop, PartialEq, Eq)]
pub struct LoadConfigData {
    pub directory: LoadConfigDirectory,
}

impl LoadConfigData {
    ghost use Rattle.std.specs.Prelude.{◌≡◌, true};
    ghost use Rattle.goblin_pe.specs.LoadConfig.{load_config_of};

    /// The configuration that the directory names, by the sections.
    pub fn parse(
        bytes: &[u8],
        dd: DataDirectory,
        sections: &[SectionTable],
        file_alignment: u32,
        is_64: bool,
    ) -> Result<Self, Error>
        ensures { result ≡ load_config_of bytes.now dd sections.now file_alignment (record { resolve_rva = true }) is_64 }
    {
        LoadConfigData::parse_with_opts(
            bytes,
            dd,
            sections,
            file_alignment,
            &ParseOptions::default(),
            is_64,
        )
    }

    /// The configuration that the directory names. NoOffset where it has no offset; DirectoryRange where it passes the
    /// end; TooSmall where it has fewer than 4 bytes. The first that holds.
    #[tactic(auto, unfolding(crate::specs::LoadConfig::load_config_of, byte_core::specs::Number::bytes_at))]
    pub fn parse_with_opts(
        bytes: &[u8],
        dd: DataDirectory,
        sections: &[SectionTable],
        file_alignment: u32,
        opts: &ParseOptions,
        is_64: bool,
    ) -> Result<Self, Error>
        ensures { result ≡ load_config_of bytes.now dd sections.now file_alignment opts.now is_64 }
    {
        let start = offset_or_refusal(
            u64::from(dd.virtual_address),
            sections,
            file_alignment,
            opts,
        )?;
        let size = dd.size as usize;
        demand(is_inside(bytes, start, size), Case::DirectoryRange)?;
        let directory = LoadConfigDirectory::parse(&bytes[start..start + size], is_64)?;
        Ok(LoadConfigData { directory })
    }
}
