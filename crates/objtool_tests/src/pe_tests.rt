//! The commands over PE files: small files by places, each refusal by its text, and inputs that are not of the form.

use crate::build_tests::{NONE, words};
use byte_core::MemHost;
use objtool_run::run;
use std::test::Fail;

#[test]
fn a_reader_of_pe_files_is_told(rt: HostRuntime) -> Result<(), Fail> {
    let alloc = rt.alloc();
    let cases = [
        (
            "signed",
            "{\"bytes\":\"000102030405060708090a0b0c0d0e0f101112131415161718191a1b1c1d1e1f202122232425262728292a2b2c2d2e2f303132333435363738393a3b3c\",\"sections\":[[0,0,44,12],[0,0,32,12]],\"excluded\":{\"checksum\":[8,12],\"certificate_entry\":[16,24],\"certificate_size\":5,\"header_end\":32}}",
            "00010203040506070c0d0e0f18191a1b1c1d1e1f202122232425262728292a2b2c2d2e2f3031323334353637000000\n",
        ),
        (
            "signed",
            "{\"bytes\":\"0aFF\",\"sections\":[],\"excluded\":null}",
            "0aff\n",
        ),
        (
            "clr",
            "{\"bytes\":\"48000000020005004800000038000000010000000000000000000000000000000000000000000000000000000000000000000000000000000000000000000000000000000000000042534a42010001000000000004000000763400000000010028000000100000002347554944000000101112131415161718191a1b1c1d1e1f\",\"sections\":[],\"directory\":[0,72],\"file_alignment\":512,\"resolve_rva\":false}",
            "{\"flags\":1,\"metadata\":[72,56],\"mvid\":\"101112131415161718191a1b1c1d1e1f\",\"signature\":1112167234,\"streams\":[[\"#GUID\",40,16]],\"version\":\"v4\\u0000\\u0000\"}\n",
        ),
        (
            "loadconfig",
            "{\"bytes\":\"0a000000443322110500\",\"sections\":[],\"directory\":[0,10],\"file_alignment\":512,\"resolve_rva\":false,\"is_64\":true}",
            "{\"cast_guard_os_determined_failure_mode\":null,\"chpe_metadata_pointer\":null,\"code_integrity\":null,\"critical_section_default_timeout\":null,\"csd_version\":null,\"de_commit_free_block_threshold\":null,\"de_commit_total_free_threshold\":null,\"dependent_load_flags\":null,\"dynamic_value_reloc_table\":null,\"dynamic_value_reloc_table_offset\":null,\"dynamic_value_reloc_table_section\":null,\"edit_list\":null,\"enclave_configuration_pointer\":null,\"global_flags_clear\":null,\"global_flags_set\":null,\"guard_address_taken_iat_entry_count\":null,\"guard_address_taken_iat_entry_table\":null,\"guard_cf_check_function_pointer\":null,\"guard_cf_dispatch_function_pointer\":null,\"guard_cf_function_count\":null,\"guard_cf_function_table\":null,\"guard_eh_continuation_count\":null,\"guard_eh_continuation_table\":null,\"guard_flags\":null,\"guard_long_jump_target_count\":null,\"guard_long_jump_target_table\":null,\"guard_memcpy_function_pointer\":null,\"guard_rf_failure_routine\":null,\"guard_rf_failure_routine_function_pointer\":null,\"guard_rf_verify_stack_pointer_function_pointer\":null,\"guard_xfg_check_function_pointer\":null,\"guard_xfg_dispatch_function_pointer\":null,\"guard_xfg_table_dispatch_function_pointer\":null,\"hot_patch_table_offset\":null,\"lock_prefix_table\":null,\"major_version\":5,\"maximum_allocation_size\":null,\"minor_version\":null,\"process_affinity_mask\":null,\"process_heap_flags\":null,\"reserved2\":null,\"reserved3\":null,\"se_handler_count\":null,\"se_handler_table\":null,\"security_cookie\":null,\"size\":10,\"time_stamp\":287454020,\"virtual_memory_threshold\":null,\"volatile_metadata_pointer\":null}\n",
        ),
        (
            "tls",
            "{\"bytes\":\"28100000000000002c100000000000002c1000000000000030100000000000000000000000003000010203040700000028100000000000000000000000000000\",\"sections\":[],\"directory\":[0,40],\"file_alignment\":512,\"resolve_rva\":false,\"is_64\":true,\"image_base\":4096}",
            "{\"callbacks\":[4136],\"callbacks_address\":4144,\"characteristics\":3145728,\"end\":4140,\"index\":4140,\"raw\":\"01020304\",\"slot\":7,\"start\":4136,\"zero_fill\":0}\n",
        ),
    ];
    for (command, text, want) in cases {
        let line = words(alloc, &[command])?;
        let mut host = MemHost::new(alloc, text.as_bytes(), &[], NONE, 4000)?;
        assert_eq!(rt; run(alloc, &line, &mut host), 0, "{want}");
        assert!(rt; host.output() == want.as_bytes(), "{want}");
        assert_eq!(rt; host.errors().len(), 0, "{want}");
    }
    Ok(())
}

#[test]
fn a_refused_pe_file_has_its_cause(rt: HostRuntime) -> Result<(), Fail> {
    let alloc = rt.alloc();
    let cases = [
        (
            "signed",
            "{\"bytes\":\"000102030405060708090a0b0c0d0e0f101112131415161718191a1b1c1d1e1f202122232425262728292a2b2c2d2e2f303132333435363738393a3b3c\",\"sections\":[[0,0,44,12],[0,0,32,12]],\"excluded\":{\"checksum\":[12,8],\"certificate_entry\":[16,24],\"certificate_size\":5,\"header_end\":32}}",
            "malformed: excluded places out of order\n",
        ),
        (
            "signed",
            "{\"bytes\":\"000102030405060708090a0b0c0d0e0f101112131415161718191a1b1c1d1e1f202122232425262728292a2b2c2d2e2f303132333435363738393a3b3c\",\"sections\":[[0,0,44,12],[0,0,50,12]],\"excluded\":{\"checksum\":[8,12],\"certificate_entry\":[16,24],\"certificate_size\":5,\"header_end\":32}}",
            "malformed: section 1 past the end of the file\n",
        ),
        (
            "signed",
            "{\"bytes\":\"000102030405060708090a0b0c0d0e0f101112131415161718191a1b1c1d1e1f202122232425262728292a2b2c2d2e2f303132333435363738393a3b3c\",\"sections\":[[0,0,44,12],[0,0,32,12]],\"excluded\":{\"checksum\":[8,12],\"certificate_entry\":[16,24],\"certificate_size\":6,\"header_end\":32}}",
            "malformed: certificates past the end of the file\n",
        ),
        (
            "clr",
            "{\"bytes\":\"00\",\"sections\":[[4096,4097,1000,12288]],\"directory\":[12288,72],\"file_alignment\":512}",
            "malformed: no offset for the relative virtual address 0x3000\n",
        ),
        (
            "clr",
            "{\"bytes\":\"4800000002000500480000003800000001000000000000000000000000000000000000000000000000000000000000000000000000000000000000000000000000000000000000\",\"sections\":[],\"directory\":[0,72],\"file_alignment\":512,\"resolve_rva\":false}",
            "buffer too short\n",
        ),
        (
            "clr",
            "{\"bytes\":\"48000000020005004800000039000000010000000000000000000000000000000000000000000000000000000000000000000000000000000000000000000000000000000000000042534a42010001000000000004000000763400000000010028000000100000002347554944000000101112131415161718191a1b1c1d1e1f\",\"sections\":[],\"directory\":[0,72],\"file_alignment\":512,\"resolve_rva\":false}",
            "malformed: CLR metadata past its end\n",
        ),
        (
            "clr",
            "{\"bytes\":\"48000000020005004800000038000000010000000000000000000000000000000000000000000000000000000000000000000000000000000000000000000000000000000000000042534a420100010000000000040000007634ff000000010028000000100000002347554944000000101112131415161718191a1b1c1d1e1f\",\"sections\":[],\"directory\":[0,72],\"file_alignment\":512,\"resolve_rva\":false}",
            "malformed: text that is not UTF-8\n",
        ),
        (
            "clr",
            "{\"bytes\":\"48000000020005004800000025000000010000000000000000000000000000000000000000000000000000000000000000000000000000000000000000000000000000000000000042534a42010001000000000004000000763400000000010028000000100000002347554944000000101112131415161718191a1b1c1d1e1f\",\"sections\":[],\"directory\":[0,72],\"file_alignment\":512,\"resolve_rva\":false}",
            "malformed: stream name without an end\n",
        ),
        (
            "clr",
            "{\"bytes\":\"48000000020005004800000038000000010000000000000000000000000000000000000000000000000000000000000000000000000000000000000000000000000000000000000042534a42010001000000000004000000763400000000010017000000100000002347554944000000101112131415161718191a1b1c1d1e1f\",\"sections\":[],\"directory\":[0,72],\"file_alignment\":512,\"resolve_rva\":false}",
            "malformed: CLR stream before the metadata\n",
        ),
        (
            "loadconfig",
            "{\"bytes\":\"000000\",\"sections\":[],\"directory\":[0,3],\"file_alignment\":512,\"resolve_rva\":false,\"is_64\":true}",
            "malformed: load configuration too small\n",
        ),
        (
            "loadconfig",
            "{\"bytes\":\"0a000000443322110500\",\"sections\":[],\"directory\":[0,11],\"file_alignment\":512,\"resolve_rva\":false,\"is_64\":true}",
            "malformed: directory past the end of the file\n",
        ),
        (
            "loadconfig",
            "{\"bytes\":\"\",\"sections\":[[4096,4097,1000,12288]],\"directory\":[12288,8],\"file_alignment\":512,\"is_64\":false}",
            "malformed: no offset for the relative virtual address 0x3000\n",
        ),
        (
            "loadconfig",
            "{\"bytes\":\"\",\"sections\":[[4096,4097,1000,12288]],\"directory\":[12287,8],\"file_alignment\":512,\"is_64\":false}",
            "malformed: directory past the end of the file\n",
        ),
        (
            "tls",
            "{\"bytes\":\"2d100000000000002c100000000000002c1000000000000030100000000000000000000000003000010203040700000028100000000000000000000000000000\",\"sections\":[],\"directory\":[0,40],\"file_alignment\":512,\"resolve_rva\":false,\"is_64\":true,\"image_base\":4096}",
            "malformed: thread-local data ends before it starts\n",
        ),
        (
            "tls",
            "{\"bytes\":\"28100000000000002c100000000000002c1000000000000030100000000000000000000000003000010203040700000028100000000000000000000000000000\",\"sections\":[],\"directory\":[0,40],\"file_alignment\":512,\"resolve_rva\":false,\"is_64\":true,\"image_base\":4137}",
            "malformed: address 0x1028 below the image base\n",
        ),
        (
            "tls",
            "{\"bytes\":\"28100000000000002c100000000000002c100000000000003010000000000000000000000000300001020304070000002810000000000000\",\"sections\":[],\"directory\":[0,40],\"file_alignment\":512,\"resolve_rva\":false,\"is_64\":true,\"image_base\":4096}",
            "buffer too short\n",
        ),
    ];
    for (command, text, want) in cases {
        let line = words(alloc, &[command])?;
        let mut host = MemHost::new(alloc, text.as_bytes(), &[], NONE, 4000)?;
        assert_eq!(rt; run(alloc, &line, &mut host), 1, "{want}");
        assert!(rt; host.errors() == want.as_bytes(), "{want}");
        assert_eq!(rt; host.output().len(), 0, "{want}");
    }
    Ok(())
}

#[test]
fn an_input_that_is_no_pe_file_in_json_is_not_understood(rt: HostRuntime) -> Result<(), Fail> {
    let alloc = rt.alloc();
    let cases = [
        ("signed", "{\"bytes\":\"00\",\"sections\":[]}"),
        (
            "signed",
            "{\"bytes\":\"0\",\"sections\":[],\"excluded\":null}",
        ),
        (
            "signed",
            "{\"bytes\":\"00\",\"sections\":[[0,0,0]],\"excluded\":null}",
        ),
        (
            "signed",
            "{\"bytes\":\"00\",\"sections\":[[0,0,0,4294967296]],\"excluded\":null}",
        ),
        (
            "signed",
            "{\"bytes\":\"000102030405060708090a0b0c0d0e0f101112131415161718191a1b1c1d1e1f202122232425262728292a2b2c2d2e2f303132333435363738393a3b3c\",\"sections\":[[0,0,44,12],[0,0,32,12]],\"excluded\":{\"checksum\":[1,2,3],\"certificate_entry\":[16,24],\"certificate_size\":5,\"header_end\":32}}",
        ),
        (
            "clr",
            "{\"bytes\":\"48000000020005004800000038000000010000000000000000000000000000000000000000000000000000000000000000000000000000000000000000000000000000000000000042534a42010001000000000004000000763400000000010028000000100000002347554944000000101112131415161718191a1b1c1d1e1f\",\"sections\":[],\"directory\":[0,72],\"file_alignment\":512,\"resolve_rva\":null}",
        ),
        (
            "clr",
            "{\"bytes\":\"48000000020005004800000038000000010000000000000000000000000000000000000000000000000000000000000000000000000000000000000000000000000000000000000042534a42010001000000000004000000763400000000010028000000100000002347554944000000101112131415161718191a1b1c1d1e1f\",\"sections\":[],\"directory\":[0,72],\"file_alignment\":512,\"resolve_rva\":false,\"is_64\":true}",
        ),
        (
            "clr",
            "{\"bytes\":\"48000000020005004800000038000000010000000000000000000000000000000000000000000000000000000000000000000000000000000000000000000000000000000000000042534a42010001000000000004000000763400000000010028000000100000002347554944000000101112131415161718191a1b1c1d1e1f\",\"sections\":[],\"directory\":[0],\"file_alignment\":512,\"resolve_rva\":false}",
        ),
        (
            "loadconfig",
            "{\"bytes\":\"48000000020005004800000038000000010000000000000000000000000000000000000000000000000000000000000000000000000000000000000000000000000000000000000042534a42010001000000000004000000763400000000010028000000100000002347554944000000101112131415161718191a1b1c1d1e1f\",\"sections\":[],\"directory\":[0,72],\"file_alignment\":512,\"resolve_rva\":false}",
        ),
        (
            "loadconfig",
            "{\"bytes\":\"0a000000443322110500\",\"sections\":[],\"directory\":[0,10],\"file_alignment\":512,\"resolve_rva\":false,\"is_64\":1}",
        ),
        (
            "tls",
            "{\"bytes\":\"0a000000443322110500\",\"sections\":[],\"directory\":[0,10],\"file_alignment\":512,\"resolve_rva\":false,\"is_64\":true}",
        ),
        (
            "tls",
            "{\"bytes\":\"28100000000000002c100000000000002c1000000000000030100000000000000000000000003000010203040700000028100000000000000000000000000000\",\"sections\":[],\"directory\":[0,40],\"file_alignment\":512,\"resolve_rva\":false,\"is_64\":true,\"image_base\":-1}",
        ),
        ("tls", "{"),
    ];
    for (command, text) in cases {
        let line = words(alloc, &[command])?;
        let mut host = MemHost::new(alloc, text.as_bytes(), &[], NONE, 4000)?;
        assert_eq!(rt; run(alloc, &line, &mut host), 6, "{text}");
        assert!(rt;
            host.errors() == b"input not understood\n".as_slice(),
            "{text}"
        );
        assert_eq!(rt; host.output().len(), 0, "{text}");
    }
    Ok(())
}
