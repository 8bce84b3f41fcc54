//! The load configuration.

ghost use Rattle.std.specs.Prelude.{◌≡◌, map, take, drop, Some, IfOk};
ghost use Rattle.serde_json.specs.View.{view};
ghost use Rattle.json_form.specs.Form.{Gives};
ghost use Rattle.json_form.specs.Written.{number_field};
ghost use Rattle.pe_core.specs.Steps.{GivesOrMemory};
ghost use Rattle.pe_json.specs.Answers.{Answers};
ghost use Rattle.pe_json.specs.Inputs.{load_config_input};
ghost use Rattle.pe_json.specs.Views.{wide_view};
ghost use Rattle.pe_json.specs.LoadConfig.{integrity_value, number_fields, load_config_value, load_config_json, load_config_answer, load_config_reply};

use crate::image::{Image, image_of};
use crate::unanswered::Unanswered;
use goblin_pe::{LoadConfigCodeIntegrity, LoadConfigData, LoadConfigDirectory};
use json_form::{FormError, NumberMember, has_keys_within, mark_at, numbers_object};
use pe_core::pe_error::Error;
use serde_json::{Value, json};
use std::alloc::{AllocError, Global};

/// A file of 64 or 32 bits, and a directory in it.
#[derive(Debug, Drop)]
struct WideImage {
    image: Image,
    is_64: bool,
}

#[tactic(auto, unfolding(crate::specs::Inputs::load_config_input))]
fn load_config_input(alloc: Global, value: &Value) -> Result<WideImage, FormError>
    ensures { Gives wide_view result (load_config_input (view value.now)) }
{
    if !has_keys_within(
        value,
        &[
            "is_64",
            "bytes",
            "directory",
            "sections",
            "file_alignment",
            "resolve_rva",
        ],
    ) {
        return Err(FormError::NotForm);
    }
    let image = image_of(alloc, value)?;
    let is_64 = mark_at(value, "is_64")?;
    Ok(WideImage { image, is_64 })
}

fn integrity_value(
    alloc: Global,
    integrity: Option<LoadConfigCodeIntegrity>,
) -> Result<Value, AllocError>
    ensures { IfOk result (λ v. view v ≡ integrity_value integrity) }
{
    match integrity {
        Some(c) => json!(in alloc; [c.flags, c.catalog, c.catalog_offset, c.reserved]),
        None => Ok(Value::Null),
    }
}

fn member(key: &str, number: Option<u64>) -> NumberMember<'_>
    ensures { number_field result ≡ (key.now, number) }
{
    NumberMember { key, number }
}

fn widened16(number: Option<u16>) -> Option<u64>
    ensures { result ≡ number }
{
    match number {
        Some(number) => Some(u64::from(number)),
        None => None,
    }
}

fn widened32(number: Option<u32>) -> Option<u64>
    ensures { result ≡ number }
{
    match number {
        Some(number) => Some(u64::from(number)),
        None => None,
    }
}

#[tactic(auto, unfolding(crate::specs::LoadConfig::number_fields))]
fn members_up_to_enclave(d: &LoadConfigDirectory) -> [NumberMember<'static>; 12]
    ensures { map number_field result ≡ take 12 (number_fields d.now) }
{
    [
        member(
            "cast_guard_os_determined_failure_mode",
            d.cast_guard_os_determined_failure_mode,
        ),
        member("chpe_metadata_pointer", d.chpe_metadata_pointer),
        member(
            "critical_section_default_timeout",
            widened32(d.critical_section_default_timeout),
        ),
        member("csd_version", widened16(d.csd_version)),
        member(
            "de_commit_free_block_threshold",
            d.de_commit_free_block_threshold,
        ),
        member(
            "de_commit_total_free_threshold",
            d.de_commit_total_free_threshold,
        ),
        member("dependent_load_flags", widened16(d.dependent_load_flags)),
        member("dynamic_value_reloc_table", d.dynamic_value_reloc_table),
        member(
            "dynamic_value_reloc_table_offset",
            widened32(d.dynamic_value_reloc_table_offset),
        ),
        member(
            "dynamic_value_reloc_table_section",
            widened16(d.dynamic_value_reloc_table_section),
        ),
        member("edit_list", d.edit_list),
        member(
            "enclave_configuration_pointer",
            d.enclave_configuration_pointer,
        ),
    ]
}

#[tactic(auto, unfolding(crate::specs::LoadConfig::number_fields))]
fn members_up_to_guard_eh(d: &LoadConfigDirectory) -> [NumberMember<'static>; 10]
    ensures { map number_field result ≡ take 10 (drop 12 (number_fields d.now)) }
{
    [
        member("global_flags_clear", widened32(d.global_flags_clear)),
        member("global_flags_set", widened32(d.global_flags_set)),
        member(
            "guard_address_taken_iat_entry_count",
            d.guard_address_taken_iat_entry_count,
        ),
        member(
            "guard_address_taken_iat_entry_table",
            d.guard_address_taken_iat_entry_table,
        ),
        member(
            "guard_cf_check_function_pointer",
            d.guard_cf_check_function_pointer,
        ),
        member(
            "guard_cf_dispatch_function_pointer",
            d.guard_cf_dispatch_function_pointer,
        ),
        member("guard_cf_function_count", d.guard_cf_function_count),
        member("guard_cf_function_table", d.guard_cf_function_table),
        member("guard_eh_continuation_count", d.guard_eh_continuation_count),
        member("guard_eh_continuation_table", d.guard_eh_continuation_table),
    ]
}

#[tactic(auto, unfolding(crate::specs::LoadConfig::number_fields))]
fn members_up_to_guard_xfg(d: &LoadConfigDirectory) -> [NumberMember<'static>; 10]
    ensures { map number_field result ≡ take 10 (drop 22 (number_fields d.now)) }
{
    [
        member("guard_flags", widened32(d.guard_flags)),
        member(
            "guard_long_jump_target_count",
            d.guard_long_jump_target_count,
        ),
        member(
            "guard_long_jump_target_table",
            d.guard_long_jump_target_table,
        ),
        member(
            "guard_memcpy_function_pointer",
            d.guard_memcpy_function_pointer,
        ),
        member("guard_rf_failure_routine", d.guard_rf_failure_routine),
        member(
            "guard_rf_failure_routine_function_pointer",
            d.guard_rf_failure_routine_function_pointer,
        ),
        member(
            "guard_rf_verify_stack_pointer_function_pointer",
            d.guard_rf_verify_stack_pointer_function_pointer,
        ),
        member(
            "guard_xfg_check_function_pointer",
            d.guard_xfg_check_function_pointer,
        ),
        member(
            "guard_xfg_dispatch_function_pointer",
            d.guard_xfg_dispatch_function_pointer,
        ),
        member(
            "guard_xfg_table_dispatch_function_pointer",
            d.guard_xfg_table_dispatch_function_pointer,
        ),
    ]
}

#[tactic(auto, unfolding(crate::specs::LoadConfig::number_fields))]
fn members_up_to_reserved(d: &LoadConfigDirectory) -> [NumberMember<'static>; 9]
    ensures { map number_field result ≡ take 9 (drop 32 (number_fields d.now)) }
{
    [
        member(
            "hot_patch_table_offset",
            widened32(d.hot_patch_table_offset),
        ),
        member("lock_prefix_table", d.lock_prefix_table),
        member("major_version", widened16(d.major_version)),
        member("maximum_allocation_size", d.maximum_allocation_size),
        member("minor_version", widened16(d.minor_version)),
        member("process_affinity_mask", d.process_affinity_mask),
        member("process_heap_flags", widened32(d.process_heap_flags)),
        member("reserved2", widened16(d.reserved2)),
        member("reserved3", widened32(d.reserved3)),
    ]
}

#[tactic(auto, unfolding(crate::specs::LoadConfig::number_fields))]
fn members_from_se_handler(d: &LoadConfigDirectory) -> [NumberMember<'static>; 7]
    ensures { map number_field result ≡ drop 41 (number_fields d.now) }
{
    [
        member("se_handler_count", d.se_handler_count),
        member("se_handler_table", d.se_handler_table),
        member("security_cookie", d.security_cookie),
        member("size", Some(u64::from(d.size))),
        member("time_stamp", widened32(d.time_stamp)),
        member("virtual_memory_threshold", d.virtual_memory_threshold),
        member("volatile_metadata_pointer", d.volatile_metadata_pointer),
    ]
}

/// The numbers by the names of their fields, in the order of their bytes.
#[tactic(auto, using(crate::proofs::Fields::joined_fields))]
fn number_members(
    alloc: Global,
    d: &LoadConfigDirectory,
) -> Result<Vec<NumberMember<'static>>, AllocError>
    ensures { IfOk result (λ members. map number_field members.items ≡ number_fields d.now) }
{
    let mut members = Vec::new(alloc);
    members.extend_from_slice(&members_up_to_enclave(d))?;
    members.extend_from_slice(&members_up_to_guard_eh(d))?;
    members.extend_from_slice(&members_up_to_guard_xfg(d))?;
    members.extend_from_slice(&members_up_to_reserved(d))?;
    members.extend_from_slice(&members_from_se_handler(d))?;
    Ok(members)
}

#[tactic(auto, unfolding(crate::specs::LoadConfig::load_config_value), using(crate::proofs::Fields::fields_ascend))]
fn load_config_value(alloc: Global, d: &LoadConfigDirectory) -> Result<Value, AllocError>
    ensures { IfOk result (λ v. view v ≡ load_config_value d.now) }
{
    let numbers = number_members(alloc, d)?;
    let mut members = numbers_object(alloc, &numbers)?;
    let integrity = integrity_value(alloc, d.code_integrity)?;
    serde_json::put(&mut members, alloc, "code_integrity", integrity)?;
    Ok(Value::Object(members))
}

/// The configuration that an image's directory names, as a value.
#[tactic(auto, unfolding(crate::specs::LoadConfig::load_config_json))]
fn load_config_json(alloc: Global, input: &WideImage) -> Result<Value, Error>
    ensures { GivesOrMemory (λ v. view v) result (load_config_json (wide_view input.now)) }
{
    let image = &input.image;
    let config = LoadConfigData::parse_with_opts(
        &image.bytes,
        image.directory,
        &image.sections,
        image.file_alignment,
        &image.options,
        input.is_64,
    )?;
    Ok(load_config_value(alloc, &config.directory)?)
}

fn load_config_answer(alloc: Global, input: &WideImage) -> Result<Vec<u8>, Unanswered>
    ensures { Answers (λ v. v.items) result (Some (load_config_answer (wide_view input.now))) }
{
    match load_config_json(alloc, input) {
        Ok(value) => Ok(value.to_vec(alloc)?),
        Err(error) => Err(Unanswered::from(error)),
    }
}

/// The load configuration of a file as a line of JSON, for an object with the keys `bytes` (hexadecimal), `sections` (a list
/// of `[virtual_address, virtual_size, pointer, raw size]`), `directory` (`[address, size]`), `file_alignment`, `is_64` and
/// maybe `resolve_rva`, which is true where it isn't there. Each field stands under its name, a number or null, and the code
/// integrity as `[flags, catalog, catalog_offset, reserved]` or null.
pub fn load_config_text(alloc: Global, value: &Value) -> Result<Vec<u8>, Unanswered>
    ensures { Answers (λ v. v.items) result (load_config_reply (view value.now)) }
{
    match load_config_input(alloc, value) {
        Ok(input) => load_config_answer(alloc, &input),
        Err(error) => Err(Unanswered::from(error)),
    }
}
