//! Lists of parts: what is built of several, of images and of none, and which part is refused.

use crate::build_tests::{NONE, words};
use crate::files::is_front;
use crate::mach_part_files::EMPTY_FILE;
use byte_core::MemHost;
use objtool_run::run;
use std::alloc::{AllocError, Global};
use std::test::Fail;

/// The head of an x86_64 image, and of an arm64 one, in hexadecimal.
const X86_64_HEAD: &str = "cffaedfe0700000103000000";

const ARM64_HEAD: &str = "cffaedfe0c00000100000000";

/// The table of a fat file with 100 bytes for x86_64 at 16,384 and 50 for arm64 at 32,768.
const TABLE: &str =
    "cafebabe00000002010000070000000300004000000000640000000e0100000c0000000000008000000000320000000e";

/// An empty part for x86_64, and one for aarch64.
const X86_64_PART: &str = r#"{"name":"a.o","arch":"x86_64","format":"macho","commands":[]}"#;

const AARCH64_PART: &str = r#"{"name":"a.o","arch":"aarch64","format":"macho","commands":[]}"#;

const ELF_PART: &str = r#"{"name":"a.o","arch":"x86_64","format":"elf","commands":[]}"#;

/// An image part: this head and zeros, so many bytes together.
fn image_part(alloc: Global, head: &str, len: usize) -> Result<String, AllocError> {
    let mut bytes = String::from_str(alloc, head)?;
    for _ in head.len() / 2..len {
        bytes.push_str("00")?;
    }
    format!(in alloc; "{{\"image\":\"{bytes}\"}}")
}

/// The text at a place of a line, at most so many bytes of it.
fn text_at(line: &[u8], at: usize, len: usize) -> &[u8] {
    let start = line.len().min(at);
    let end = start + (line.len() - start).min(len);
    &line[start..end]
}

/// Whether a line is hexadecimal of the fat file of the two images: table, slices, and zeros between.
fn is_of_two(line: &[u8]) -> bool {
    if line.len() != 65637 || text_at(line, 0, 96) != TABLE.as_bytes() {
        return false;
    }
    if text_at(line, 32768, 24) != X86_64_HEAD.as_bytes()
        || text_at(line, 65536, 24) != ARM64_HEAD.as_bytes()
    {
        return false;
    }
    line[96..32768].iter().all(|byte| *byte == b'0')
        && line[32792..65536].iter().all(|byte| *byte == b'0')
        && line[65560..65636].iter().all(|byte| *byte == b'0')
}

#[test]
fn images_give_the_fat_file_of_their_slices_in_either_order(rt: HostRuntime) -> Result<(), Fail> {
    let alloc = rt.alloc();
    let build = words(alloc, &["build"])?;
    let first = image_part(alloc, X86_64_HEAD, 100)?;
    let second = image_part(alloc, ARM64_HEAD, 50)?;
    for text in [
        format!(in alloc; "[{first},{second}]")?,
        format!(in alloc; "[{second},{first}]")?,
    ] {
        let mut host = MemHost::new(alloc, text.as_bytes(), &[], NONE, 66000)?;
        assert_eq!(rt; run(alloc, &build, &mut host), 0);
        assert!(rt; is_of_two(host.output()));
        assert_eq!(rt; host.errors().len(), 0);
    }
    Ok(())
}

#[test]
fn no_slices_give_no_bytes(rt: HostRuntime) -> Result<(), Fail> {
    let alloc = rt.alloc();
    let build = words(alloc, &["build"])?;
    for text in ["[]", r#"[{"image":"cafebabe00000000"}]"#] {
        let mut host = MemHost::new(alloc, text.as_bytes(), &[], NONE, 100)?;
        assert_eq!(rt; run(alloc, &build, &mut host), 0, "{text}");
        assert!(rt; host.output() == b"\n".as_slice(), "{text}");
    }
    Ok(())
}

#[test]
fn mach_o_parts_for_two_processors_give_a_fat_file(rt: HostRuntime) -> Result<(), Fail> {
    let alloc = rt.alloc();
    let build = words(alloc, &["build"])?;
    let text = format!(in alloc; "[{AARCH64_PART},{X86_64_PART}]")?;
    let mut host = MemHost::new(alloc, text.as_bytes(), &[], NONE, 66000)?;
    assert_eq!(rt; run(alloc, &build, &mut host), 0);
    let line = host.output();
    assert_eq!(rt; line.len(), 65795);
    let table =
        "cafebabe00000002010000070000000300004000000000810000000e0100000c0000000000008000000000810000000e";
    assert!(rt; text_at(line, 0, 96) == table.as_bytes());
    assert!(rt; is_front(text_at(line, 32768, 258), EMPTY_FILE));
    assert!(rt; text_at(line, 65536, 16) == b"cffaedfe0c000001".as_slice());
    Ok(())
}

#[test]
fn the_first_part_that_is_refused_is_named(rt: HostRuntime) -> Result<(), Fail> {
    let alloc = rt.alloc();
    let build = words(alloc, &["build"])?;
    let image = image_part(alloc, X86_64_HEAD, 100)?;
    let cases = [
        (
            format!(in alloc; "[{ELF_PART},{ELF_PART}]")?,
            "part 0 start: mixed parts\n",
        ),
        (
            format!(in alloc; "[{{\"image\":\"00\"}},{ELF_PART}]")?,
            "part 1 start: mixed parts\n",
        ),
        (
            String::from_str(alloc, r#"[{"image":""}]"#)?,
            "part 0 start: input is not a macho file\n",
        ),
        (
            String::from_str(alloc, r#"[{"image":"213c617263683e0a"}]"#)?,
            "part 0 start: archive input is unsupported\n",
        ),
        (
            format!(in alloc; "[{AARCH64_PART},{{\"image\":\"cffaedfe\"}}]")?,
            "part 1 start: bytes size is smaller than a Mach-O header\n",
        ),
        (
            format!(in alloc; "[{image},{AARCH64_PART},{image}]")?,
            "part 2 start: duplicated architecture x86_64\n",
        ),
        (
            format!(in alloc; "[{image},{X86_64_PART}]")?,
            "part 1 end: duplicated architecture x86_64\n",
        ),
        (
            format!(in alloc;
                "[{image},{{\"name\":\"a.o\",\"arch\":\"riscv64\",\"format\":\"macho\",\"commands\":[]}}]"
            )?,
            "part 1 start: Backend error: unsupported target\n",
        ),
    ];
    for (text, refusal) in cases {
        let mut host = MemHost::new(alloc, text.as_bytes(), &[], NONE, 2000)?;
        assert_eq!(rt; run(alloc, &build, &mut host), 1, "{text}");
        assert!(rt; host.errors() == refusal.as_bytes(), "{text}");
        assert_eq!(rt; host.output().len(), 0, "{text}");
    }
    Ok(())
}
