//! The kind of a relocation by the numbers that it has in a file.

ghost use Rattle.std.specs.Prelude.{◌≡◌, true, false, Some, None, IfSome};
ghost use Rattle.ir_core.specs.Kind.{elf_number};
ghost use Rattle.ir_core.specs.MachKind.{mach_number};
ghost use Rattle.ir_core.specs.declared.reloc.Reloc.{Reloc};

use ir_core::{Architecture, MachNumber, Reloc, elf_number, mach_number};

/// All kinds.
const KINDS: [Reloc; 29] = [
    Reloc::Abs4,
    Reloc::Abs8,
    Reloc::X86PCRel4,
    Reloc::X86CallPCRel4,
    Reloc::X86CallPLTRel4,
    Reloc::X86GOTPCRel4,
    Reloc::X86SecRel,
    Reloc::Arm64Call,
    Reloc::S390xPCRel32Dbl,
    Reloc::S390xPLTRel32Dbl,
    Reloc::ElfX86_64TlsGd,
    Reloc::MachOX86_64Tlv,
    Reloc::MachOAarch64TlsAdrPage21,
    Reloc::MachOAarch64TlsAdrPageOff12,
    Reloc::Aarch64TlsDescAdrPage21,
    Reloc::Aarch64TlsDescLd64Lo12,
    Reloc::Aarch64TlsDescAddLo12,
    Reloc::Aarch64TlsDescCall,
    Reloc::Aarch64AdrGotPage21,
    Reloc::Aarch64Ld64GotLo12Nc,
    Reloc::Aarch64AdrPrelPgHi21,
    Reloc::Aarch64AddAbsLo12Nc,
    Reloc::RiscvCallPlt,
    Reloc::RiscvTlsGdHi20,
    Reloc::RiscvPCRelLo12I,
    Reloc::RiscvGotHi20,
    Reloc::RiscvPCRelHi20,
    Reloc::S390xTlsGd64,
    Reloc::S390xTlsGdCall,
];

/// A kind that has this number in the processor's ELF files.
pub(crate) fn elf_kind(architecture: Architecture, r_type: u32) -> Option<Reloc>
    ensures found { IfSome result (λ kind. elf_number architecture kind ≡ Some r_type) }
    ensures none { result ≡ None → (kind : Reloc) → elf_number architecture kind ≡ Some r_type → ⊥ }
{
    for kind in &KINDS {
        if is_elf_number(architecture, *kind, r_type) {
            return Some(*kind);
        }
    }
    None
}

/// The kind has this number in the processor's ELF files.
fn is_elf_number(architecture: Architecture, kind: Reloc, r_type: u32) -> bool
    ensures yes { result ≡ true → elf_number architecture kind ≡ Some r_type }
    ensures no { result ≡ false → elf_number architecture kind ≡ Some r_type → ⊥ }
{
    match elf_number(architecture, kind) {
        Some(found) => found == r_type,
        None => false,
    }
}

/// A kind that has these numbers in the processor's Mach-O files.
pub(crate) fn mach_kind(architecture: Architecture, number: MachNumber) -> Option<Reloc>
    ensures found { IfSome result (λ kind. mach_number architecture kind ≡ Some number) }
    ensures none { result ≡ None → (kind : Reloc) → mach_number architecture kind ≡ Some number → ⊥ }
{
    for kind in &KINDS {
        if is_mach_number(architecture, *kind, number) {
            return Some(*kind);
        }
    }
    None
}

/// The kind has these numbers in the processor's Mach-O files.
fn is_mach_number(architecture: Architecture, kind: Reloc, number: MachNumber) -> bool
    ensures yes { result ≡ true → mach_number architecture kind ≡ Some number }
    ensures no { result ≡ false → mach_number architecture kind ≡ Some number → ⊥ }
{
    match mach_number(architecture, kind) {
        Some(found) => {
            found.r_type == number.r_type
                && found.pcrel == number.pcrel
                && found.length == number.length
        }
        None => false,
    }
}
