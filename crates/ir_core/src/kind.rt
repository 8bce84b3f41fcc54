//! The numbers and the fields of relocation kinds in ELF files, by the psABI of each processor, and the number
//! of a processor in an ELF header.

ghost use Rattle.std.specs.Prelude.{◌≡◌};
ghost use Rattle.ir_core.specs.Kind.{x86_64_number, aarch64_number, riscv64_number, elf_number, elf_machine, field_width};

use crate::{Architecture, Reloc};
use goblin_reloc::{
    EM_AARCH64, EM_NONE, EM_RISCV, EM_X86_64, R_AARCH64_ABS32, R_AARCH64_ABS64,
    R_AARCH64_ADD_ABS_LO12_NC, R_AARCH64_ADR_GOT_PAGE, R_AARCH64_ADR_PREL_PG_HI21,
    R_AARCH64_CALL26, R_AARCH64_LD64_GOT_LO12_NC, R_AARCH64_TLSDESC_ADD_LO12,
    R_AARCH64_TLSDESC_ADR_PAGE21, R_AARCH64_TLSDESC_CALL, R_AARCH64_TLSDESC_LD64_LO12, R_RISCV_32,
    R_RISCV_64, R_RISCV_CALL_PLT, R_RISCV_GOT_HI20, R_RISCV_PCREL_HI20, R_RISCV_PCREL_LO12_I,
    R_RISCV_TLS_GD_HI20, R_X86_64_32, R_X86_64_64, R_X86_64_GOTPCREL, R_X86_64_PC32,
    R_X86_64_PLT32, R_X86_64_TLSGD,
};

/// The number that a kind has in a processor's ELF files, none where the processor lacks the kind.
pub fn elf_number(architecture: Architecture, kind: Reloc) -> Option<u32>
    ensures { result ≡ elf_number architecture kind }
{
    match architecture {
        Architecture::X86_64 => x86_64_number(kind),
        Architecture::Aarch64 => aarch64_number(kind),
        Architecture::Riscv64 => riscv64_number(kind),
        _ => None,
    }
}

/// The number of a processor in an ELF header, EM_NONE for the processors that have no ELF here.
pub fn elf_machine(architecture: Architecture) -> u16
    ensures { result ≡ elf_machine architecture }
{
    match architecture {
        Architecture::X86_64 => EM_X86_64,
        Architecture::Aarch64 => EM_AARCH64,
        Architecture::Riscv64 => EM_RISCV,
        _ => EM_NONE,
    }
}

/// How many bytes the field of a kind has.
pub fn field_width(kind: Reloc) -> u32
    ensures { result ≡ field_width kind }
{
    match kind {
        Reloc::Abs8 | Reloc::RiscvCallPlt => 8,
        _ => 4,
    }
}

// System V psABI for AMD64, "Relocation Types".
fn x86_64_number(kind: Reloc) -> Option<u32>
    ensures { result ≡ x86_64_number kind }
{
    match kind {
        Reloc::Abs8 => Some(R_X86_64_64),
        Reloc::X86PCRel4 | Reloc::X86CallPCRel4 => Some(R_X86_64_PC32),
        Reloc::X86CallPLTRel4 => Some(R_X86_64_PLT32),
        Reloc::X86GOTPCRel4 => Some(R_X86_64_GOTPCREL),
        Reloc::Abs4 => Some(R_X86_64_32),
        Reloc::ElfX86_64TlsGd => Some(R_X86_64_TLSGD),
        _ => None,
    }
}

// ELF for the Arm 64-bit Architecture, "Relocation".
fn aarch64_number(kind: Reloc) -> Option<u32>
    ensures { result ≡ aarch64_number kind }
{
    match kind {
        Reloc::Abs8 => Some(R_AARCH64_ABS64),
        Reloc::Abs4 => Some(R_AARCH64_ABS32),
        Reloc::Aarch64AdrPrelPgHi21 => Some(R_AARCH64_ADR_PREL_PG_HI21),
        Reloc::Aarch64AddAbsLo12Nc => Some(R_AARCH64_ADD_ABS_LO12_NC),
        Reloc::Arm64Call => Some(R_AARCH64_CALL26),
        Reloc::Aarch64AdrGotPage21 => Some(R_AARCH64_ADR_GOT_PAGE),
        Reloc::Aarch64Ld64GotLo12Nc => Some(R_AARCH64_LD64_GOT_LO12_NC),
        Reloc::Aarch64TlsDescAdrPage21 => Some(R_AARCH64_TLSDESC_ADR_PAGE21),
        Reloc::Aarch64TlsDescLd64Lo12 => Some(R_AARCH64_TLSDESC_LD64_LO12),
        Reloc::Aarch64TlsDescAddLo12 => Some(R_AARCH64_TLSDESC_ADD_LO12),
        Reloc::Aarch64TlsDescCall => Some(R_AARCH64_TLSDESC_CALL),
        _ => None,
    }
}

// RISC-V ELF psABI, "Relocations".
fn riscv64_number(kind: Reloc) -> Option<u32>
    ensures { result ≡ riscv64_number kind }
{
    match kind {
        Reloc::Abs4 => Some(R_RISCV_32),
        Reloc::Abs8 => Some(R_RISCV_64),
        Reloc::RiscvCallPlt => Some(R_RISCV_CALL_PLT),
        Reloc::RiscvGotHi20 => Some(R_RISCV_GOT_HI20),
        Reloc::RiscvTlsGdHi20 => Some(R_RISCV_TLS_GD_HI20),
        Reloc::RiscvPCRelHi20 => Some(R_RISCV_PCREL_HI20),
        Reloc::RiscvPCRelLo12I => Some(R_RISCV_PCREL_LO12_I),
        _ => None,
    }
}
