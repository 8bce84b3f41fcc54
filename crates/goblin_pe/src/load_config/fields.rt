//! The fields of a load configuration by their places: Microsoft's PE Format, "Load Configuration Layout".

ghost use Rattle.std.specs.Prelude.{◌≡◌, ◌≤◌, length};
ghost use Rattle.goblin_pe.specs.LoadConfig.{code_integrity_at, load_config_fields};

use crate::load_config::{LoadConfigCodeIntegrity, LoadConfigDirectory};
use byte_core::le_at;
use pe_core::steps::{is_inside, u16_field, u16_if, u32_field, u32_if};

/// The fields in order, where addresses have `w` bytes.
#[tactic(auto, unfolding(crate::specs::LoadConfig::load_config_fields))]
pub fn directory_fields(bytes: &[u8], w: usize) -> LoadConfigDirectory
    requires some { 4 ≤ length bytes.now }
    requires width { w ≤ 8 }
    ensures { result ≡ load_config_fields bytes.now w }
{
    LoadConfigDirectory {
        size: u32_field(bytes, 0),
        time_stamp: u32_if(bytes, 4),
        major_version: u16_if(bytes, 8),
        minor_version: u16_if(bytes, 10),
        global_flags_clear: u32_if(bytes, 12),
        global_flags_set: u32_if(bytes, 16),
        critical_section_default_timeout: u32_if(bytes, 20),
        de_commit_free_block_threshold: le_at(bytes, 24, w),
        de_commit_total_free_threshold: le_at(bytes, 24 + w, w),
        lock_prefix_table: le_at(bytes, 24 + 2 * w, w),
        maximum_allocation_size: le_at(bytes, 24 + 3 * w, w),
        virtual_memory_threshold: le_at(bytes, 24 + 4 * w, w),
        process_affinity_mask: le_at(bytes, 24 + 5 * w, w),
        process_heap_flags: u32_if(bytes, 24 + 6 * w),
        csd_version: u16_if(bytes, 28 + 6 * w),
        dependent_load_flags: u16_if(bytes, 30 + 6 * w),
        edit_list: le_at(bytes, 32 + 6 * w, w),
        security_cookie: le_at(bytes, 32 + 7 * w, w),
        se_handler_table: le_at(bytes, 32 + 8 * w, w),
        se_handler_count: le_at(bytes, 32 + 9 * w, w),
        guard_cf_check_function_pointer: le_at(bytes, 32 + 10 * w, w),
        guard_cf_dispatch_function_pointer: le_at(bytes, 32 + 11 * w, w),
        guard_cf_function_table: le_at(bytes, 32 + 12 * w, w),
        guard_cf_function_count: le_at(bytes, 32 + 13 * w, w),
        guard_flags: u32_if(bytes, 32 + 14 * w),
        code_integrity: code_integrity(bytes, 36 + 14 * w),
        guard_address_taken_iat_entry_table: le_at(bytes, 48 + 14 * w, w),
        guard_address_taken_iat_entry_count: le_at(bytes, 48 + 15 * w, w),
        guard_long_jump_target_table: le_at(bytes, 48 + 16 * w, w),
        guard_long_jump_target_count: le_at(bytes, 48 + 17 * w, w),
        dynamic_value_reloc_table: le_at(bytes, 48 + 18 * w, w),
        chpe_metadata_pointer: le_at(bytes, 48 + 19 * w, w),
        guard_rf_failure_routine: le_at(bytes, 48 + 20 * w, w),
        guard_rf_failure_routine_function_pointer: le_at(bytes, 48 + 21 * w, w),
        dynamic_value_reloc_table_offset: u32_if(bytes, 48 + 22 * w),
        dynamic_value_reloc_table_section: u16_if(bytes, 52 + 22 * w),
        reserved2: u16_if(bytes, 54 + 22 * w),
        guard_rf_verify_stack_pointer_function_pointer: le_at(bytes, 56 + 22 * w, w),
        hot_patch_table_offset: u32_if(bytes, 56 + 23 * w),
        reserved3: u32_if(bytes, 60 + 23 * w),
        enclave_configuration_pointer: le_at(bytes, 64 + 23 * w, w),
        volatile_metadata_pointer: le_at(bytes, 64 + 24 * w, w),
        guard_eh_continuation_table: le_at(bytes, 64 + 25 * w, w),
        guard_eh_continuation_count: le_at(bytes, 64 + 26 * w, w),
        guard_xfg_check_function_pointer: le_at(bytes, 64 + 27 * w, w),
        guard_xfg_dispatch_function_pointer: le_at(bytes, 64 + 28 * w, w),
        guard_xfg_table_dispatch_function_pointer: le_at(bytes, 64 + 29 * w, w),
        cast_guard_os_determined_failure_mode: le_at(bytes, 64 + 30 * w, w),
        guard_memcpy_function_pointer: le_at(bytes, 64 + 31 * w, w),
    }
}

#[tactic(auto, unfolding(crate::specs::LoadConfig::code_integrity_at))]
fn code_integrity(bytes: &[u8], at: usize) -> Option<LoadConfigCodeIntegrity>
    ensures { result ≡ code_integrity_at bytes.now at }
{
    if !is_inside(bytes, at, 12) {
        return None;
    }
    Some(LoadConfigCodeIntegrity {
        flags: u16_field(bytes, at),
        catalog: u16_field(bytes, at + 2),
        catalog_offset: u32_field(bytes, at + 4),
        reserved: u32_field(bytes, at + 8),
    })
}
