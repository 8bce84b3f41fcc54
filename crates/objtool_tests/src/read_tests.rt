//! What files are read as. The lines of ELF and Mach-O files come from readers that are no part of this project.

use crate::build_tests::{MAIN, NONE, words};
use crate::data_files::SECTIONS_FILE;
use crate::files::MAIN_FILE;
use crate::mach_files::{
    CALL_FILE, CALL_LINE, CLANG_ARM64_FILE, CLANG_ARM64_LINE, PAGE_FILE, PAGE_LINE,
};
use crate::target_files::RISCV64_FILE;
use byte_core::MemHost;
use objtool_run::run;
use std::alloc::{AllocError, Global};
use std::test::Fail;

const MAIN_LINE: &[&str] = &[
    "{\"flags\":0,\"format\":\"elf\",\"local_symbols\":2,\"machine\":62,\"sections\":[[\"2e74657874\",1,6,1,1,\"c3\",[]],",
    "[\"2e6e6f74652e474e552d737461636b\",1,0,1,0,\"\",[]],[\"2e73796d746162\",2,0,8,72,\"00000000000000000000000",
    "0000000000000000000000000010000000400f1ff00000000000000000000000000000000050000001200010000000000000",
    "000000100000000000000\",[]],[\"2e737472746162\",3,0,1,10,\"00612e6f006d61696e00\",[]],[\"2e736873747274616",
    "2\",3,0,1,49,\"002e74657874002e6e6f74652e474e552d737461636b002e73796d746162002e737472746162002e7368737",
    "47274616200\",[]]],\"symbols\":[[\"612e6f\",4,0,65521,0,0],[\"6d61696e\",18,0,1,0,1]]}",
];

const SECTIONS_LINE: &[&str] = &[
    "{\"flags\":0,\"format\":\"elf\",\"local_symbols\":10,\"machine\":62,\"sections\":[[\"2e74657874\",1,6,16,13,\"488d3",
    "d00000000e800000000c3\",[[3,2,2,-4],[8,10,2,-4]]],[\"2e726f64617461\",1,2,4,5,\"68690a00cc\",[]],[\"2e6461",
    "74612e72656c2e726f\",1,3,8,16,\"00000000000000000000000000000000\",[[0,11,1,0],[8,13,1,-3]]],[\"2e646174",
    "61\",1,3,2,2,\"0102\",[]],[\"2e627373\",8,3,4,5,\"\",[]],[\"2e7464617461\",1,1027,1,1,\"ff\",[]],[\"2e74627373\",",
    "8,1027,8,8,\"\",[]],[\"2e726f646174612e73756273656374696f6e\",1,2097154,1,1,\"aa\",[]],[\"2e6f776e\",1,2,1,3",
    ",\"000000\",[]],[\"2e636667\",1,2097155,1,1,\"bb\",[]],[\"2e6e6f74652e474e552d737461636b\",1,0,1,0,\"\",[]],[\"",
    "2e72656c612e74657874\",4,64,8,48,\"03000000000000000200000002000000fcffffffffffffff0800000000000000020",
    "000000a000000fcffffffffffffff\",[]],[\"2e72656c612e646174612e72656c2e726f\",4,64,8,48,\"0000000000000000",
    "010000000b00000000000000000000000800000000000000010000000d000000fdffffffffffffff\",[]],[\"2e73796d7461",
    "62\",2,0,8,336,\"000000000000000000000000000000000000000000000000010000000400f1ff000000000000000000000",
    "0000000000005000000010002000000000000000000040000000000000008000000010005000000000000000000050000000",
    "00000000a00000006000600000000000000000001000000000000000c0000000600070000000000000000000800000000000",
    "0000f00000001000800000000000000000001000000000000001400000001000900000000000000000003000000000000001",
    "800000001000a00000000000000000001000000000000001c000000010002000400000000000000010000000000000024000",
    "0001000000000000000000000000000000000000000280000001200010000000000000000000d000000000000002d0000001",
    "100030000000000000000001000000000000000310000001102040000000000000000000200000000000000\",[]],[\"2e737",
    "472746162\",3,0,1,52,\"00612e6f00726f007a007400747a006b657074006f776e00636667002e4c6461746139006578740",
    "06d61696e0072656c00727700\",[]],[\"2e7368737472746162\",3,0,1,152,\"002e74657874002e726f64617461002e6461",
    "74612e72656c2e726f002e64617461002e627373002e7464617461002e74627373002e726f646174612e7375627365637469",
    "6f6e002e6f776e002e636667002e6e6f74652e474e552d737461636b002e72656c612e74657874002e72656c612e64617461",
    "2e72656c2e726f002e73796d746162002e737472746162002e736873747274616200\",[]]],\"symbols\":[[\"612e6f\",4,0,",
    "65521,0,0],[\"726f\",1,0,2,0,4],[\"7a\",1,0,5,0,5],[\"74\",6,0,6,0,1],[\"747a\",6,0,7,0,8],[\"6b657074\",1,0,8",
    ",0,1],[\"6f776e\",1,0,9,0,3],[\"636667\",1,0,10,0,1],[\"2e4c6461746139\",1,0,2,4,1],[\"657874\",16,0,0,0,0],",
    "[\"6d61696e\",18,0,1,0,13],[\"72656c\",17,0,3,0,16],[\"7277\",17,2,4,0,2]]}",
];

const RISCV64_LINE: &[&str] = &[
    "{\"flags\":4,\"format\":\"elf\",\"local_symbols\":6,\"machine\":243,\"sections\":[[\"2e74657874\",1,6,4,42,\"c30000",
    "000000000000000000000000000000000000000000000000000000000000000000000000000000\",[[4,3,1,1],[8,4,2,2]",
    ",[16,9,19,0],[24,6,20,0],[28,8,22,0],[32,3,23,0],[36,5,24,0]]],[\"2e627373\",8,3,8,10,\"\",[]],[\"2e6e6f7",
    "4652e474e552d737461636b\",1,0,1,0,\"\",[]],[\"2e72656c612e74657874\",4,64,8,168,\"040000000000000001000000",
    "0300000001000000000000000800000000000000020000000400000002000000000000001000000000000000130000000900",
    "000000000000000000001800000000000000140000000600000000000000000000001c000000000000001600000008000000",
    "0000000000000000200000000000000017000000030000000000000000000000240000000000000018000000050000000000",
    "000000000000\",[]],[\"2e73796d746162\",2,0,8,240,\"00000000000000000000000000000000000000000000000001000",
    "0000400f1ff000000000000000000000000000000000500000002000100000000000000000001000000000000000b0000000",
    "1000200000000000000000005000000000000000d00000001000200080000000000000002000000000000000f00000000000",
    "100200000000000000000000000000000001600000010000000000000000000000000000000000000001a000000120001000",
    "40000000000000026000000000000001c00000016000000000000000000000000000000000000001e0000001000000000000",
    "000000000000000000000000000\",[]],[\"2e737472746162\",3,0,1,38,\"00612e6f00666972737400640065002e4c325f3",
    "2380065787400660074006d656d6d6f766500\",[]],[\"2e7368737472746162\",3,0,1,65,\"002e74657874002e627373002",
    "e6e6f74652e474e552d737461636b002e72656c612e74657874002e73796d746162002e737472746162002e7368737472746",
    "16200\",[]]],\"symbols\":[[\"612e6f\",4,0,65521,0,0],[\"6669727374\",2,0,1,0,1],[\"64\",1,0,2,0,5],[\"65\",1,0,",
    "2,8,2],[\"2e4c325f3238\",0,0,1,32,0],[\"657874\",16,0,0,0,0],[\"66\",18,0,1,4,38],[\"74\",22,0,0,0,0],[\"6d65",
    "6d6d6f7665\",16,0,0,0,0]]}",
];

const NO_SLICES_FILE: &[&str] = &["cafebabe00000000"];

const NO_SLICES_LINE: &[&str] = &["{\"format\":\"fat\",\"is_64\":false,\"slices\":[]}"];

/// A fat file with entries of 64 bits, and two slices of 3 and of 2 bytes.
const WIDE_FILE: &[&str] = &[
    "cafebabf0000000201000007000000030000000000000050000000000000000300000004000000000100000c800000020000",
    "000000000060000000000000000200000005000000090000000000000000010203000000000000000000000000000405",
];

const WIDE_LINE: &[&str] = &[
    "{\"format\":\"fat\",\"is_64\":true,\"slices\":[[16777223,3,4,80,3],[16777228,2147483650,5,96,2]]}",
];

/// The bytes of a file that stands in lines of hexadecimal.
fn bytes_of(alloc: Global, lines: &[&str]) -> Result<Vec<u8>, Fail> {
    let mut text = String::new(alloc);
    for line in lines {
        text.push_str(line)?;
    }
    match hex::decode(alloc, text.as_str()) {
        Ok(bytes) => Ok(bytes),
        Err(_) => Err(AllocError)?,
    }
}

/// Pieces of a line, and its newline.
fn line_of(alloc: Global, pieces: &[&str]) -> Result<String, Fail> {
    let mut line = String::new(alloc);
    for piece in pieces {
        line.push_str(piece)?;
    }
    line.push('\n')?;
    Ok(line)
}

#[test]
fn files_are_read_as_their_rows(rt: HostRuntime) -> Result<(), Fail> {
    let alloc = rt.alloc();
    let read = words(alloc, &["read"])?;
    let cases = [
        (MAIN_FILE, MAIN_LINE),
        (SECTIONS_FILE, SECTIONS_LINE),
        (RISCV64_FILE, RISCV64_LINE),
        (CALL_FILE, CALL_LINE),
        (PAGE_FILE, PAGE_LINE),
        (CLANG_ARM64_FILE, CLANG_ARM64_LINE),
        (NO_SLICES_FILE, NO_SLICES_LINE),
        (WIDE_FILE, WIDE_LINE),
    ];
    for (file, pieces) in cases {
        let file = bytes_of(alloc, file)?;
        let want = line_of(alloc, pieces)?;
        let mut host = MemHost::new(alloc, &file, &[], NONE, 4000)?;
        assert_eq!(rt; run(alloc, &read, &mut host), 0);
        assert!(rt; host.output() == want.as_bytes());
        assert_eq!(rt; host.errors().len(), 0);
    }
    Ok(())
}

#[test]
fn what_is_no_object_file_is_refused(rt: HostRuntime) -> Result<(), Fail> {
    let alloc = rt.alloc();
    let read = words(alloc, &["read"])?;
    for file in [MAIN_FILE, CALL_FILE, WIDE_FILE] {
        let file = bytes_of(alloc, file)?;
        for len in 0..file.len() {
            let mut host = MemHost::new(alloc, &file[..len], &[], NONE, 100)?;
            assert_eq!(rt; run(alloc, &read, &mut host), 1, "{len}");
            assert_eq!(rt; host.output().len(), 0);
            assert!(rt; host.errors() == b"neither an object file nor a fat file\n".as_slice());
        }
    }
    Ok(())
}

#[test]
fn a_raw_file_has_the_bytes_of_its_line(rt: HostRuntime) -> Result<(), Fail> {
    let alloc = rt.alloc();
    let raw = words(alloc, &["build", "--raw"])?;
    let want = bytes_of(alloc, MAIN_FILE)?;
    let mut host = MemHost::new(alloc, MAIN.as_bytes(), &[], NONE, 2000)?;
    assert_eq!(rt; run(alloc, &raw, &mut host), 0);
    assert!(rt; host.output() == want.as_slice());
    let mut host = MemHost::new(alloc, b"[", &[], NONE, 100)?;
    assert_eq!(rt; run(alloc, &raw, &mut host), 6);
    assert!(rt; host.errors() == b"input not understood\n".as_slice());
    for line in [["build", "raw"], ["build", "--RAW"], ["read", "--raw"]] {
        let line = words(alloc, &line)?;
        let mut host = MemHost::new(alloc, MAIN.as_bytes(), &[], NONE, 2000)?;
        assert_eq!(rt; run(alloc, &line, &mut host), 2);
    }
    Ok(())
}
