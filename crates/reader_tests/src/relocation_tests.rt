//! Numbers of ELF relocations and their names.

use goblin_reloc::{
    aarch64, arm, loongarch, machine, mips, openrisc, powerpc, powerpc64, riscv, x86, x86_64,
};
use goblin_reloc_names::r_to_str;
use std::test::Fail;

#[test]
fn a_constant_stands_at_the_root_and_in_its_module(rt: HostRuntime) -> Result<(), Fail> {
    let rows = [
        (goblin_reloc::R_386_PC32, x86::R_386_PC32, 2),
        (goblin_reloc::R_X86_64_PLT32, x86_64::R_X86_64_PLT32, 4),
        (
            goblin_reloc::R_AARCH64_CALL26,
            aarch64::R_AARCH64_CALL26,
            283,
        ),
        (goblin_reloc::R_ARM_CALL, arm::R_ARM_CALL, 28),
        (
            goblin_reloc::R_OR1K_INSN_REL_26,
            openrisc::R_OR1K_INSN_REL_26,
            6,
        ),
        (goblin_reloc::R_MIPS_JALR, mips::R_MIPS_JALR, 37),
        (goblin_reloc::R_RISCV_CALL_PLT, riscv::R_RISCV_CALL_PLT, 19),
        (goblin_reloc::R_PPC_REL24, powerpc::R_PPC_REL24, 10),
        (goblin_reloc::R_PPC64_TOC, powerpc64::R_PPC64_TOC, 51),
        (goblin_reloc::R_LARCH_B26, loongarch::R_LARCH_B26, 66),
    ];
    for (root, module, number) in rows {
        assert_eq!(rt; root, number);
        assert_eq!(rt; module, number);
    }
    Ok(())
}

#[test]
fn a_machine_has_its_number_at_the_root_and_in_its_module(rt: HostRuntime) {
    let rows = [
        (goblin_reloc::EM_NONE, machine::EM_NONE, 0),
        (goblin_reloc::EM_386, machine::EM_386, 3),
        (goblin_reloc::EM_MIPS, machine::EM_MIPS, 8),
        (goblin_reloc::EM_MIPS_RS3_LE, machine::EM_MIPS_RS3_LE, 10),
        (goblin_reloc::EM_PPC, machine::EM_PPC, 20),
        (goblin_reloc::EM_PPC64, machine::EM_PPC64, 21),
        (goblin_reloc::EM_ARM, machine::EM_ARM, 40),
        (goblin_reloc::EM_MIPS_X, machine::EM_MIPS_X, 51),
        (goblin_reloc::EM_X86_64, machine::EM_X86_64, 62),
        (goblin_reloc::EM_OPENRISC, machine::EM_OPENRISC, 92),
        (goblin_reloc::EM_AARCH64, machine::EM_AARCH64, 183),
        (goblin_reloc::EM_RISCV, machine::EM_RISCV, 243),
        (goblin_reloc::EM_LOONGARCH, machine::EM_LOONGARCH, 258),
    ];
    for (root, module, number) in rows {
        assert_eq!(rt; root, number);
        assert_eq!(rt; module, number);
    }
}

#[test]
fn a_number_has_the_name_of_its_machine(rt: HostRuntime) {
    assert_eq!(rt; r_to_str(1, 62), "X86_64_64");
    assert_eq!(rt; r_to_str(0, 3), "386_NONE");
    assert_eq!(rt; r_to_str(1, 21), "R_PPC64_ADDR32");
    assert_eq!(rt; r_to_str(2, 10), "R_MIPS_32");
    assert_eq!(rt; r_to_str(13, 40), "ARM_TLS_DESC");
}

#[test]
fn a_number_without_a_name_is_unknown(rt: HostRuntime) {
    assert_eq!(rt; r_to_str(0, 62), "R_UNKNOWN_X86_64");
    assert_eq!(rt; r_to_str(128, 8), "R_UNKNOWN_MIPS");
    assert_eq!(rt; r_to_str(35, 92), "R_UNKNOWN_OR1K");
    assert_eq!(rt; r_to_str(4_294_967_295, 258), "R_UNKNOWN_LOONGARCH");
    assert_eq!(rt; r_to_str(1, 63), "R_UNKNOWN");
}

/// How many numbers below 2,000 have a name.
fn known(machine: u16, unknown: &str) -> usize {
    let mut count: usize = 0;
    for number in 0..2000 {
        if r_to_str(number, machine) != unknown {
            count = count.saturating_add(1);
        }
    }
    count
}

#[test]
fn as_many_numbers_below_two_thousand_have_names_as_the_tables_have_rows(rt: HostRuntime) {
    assert_eq!(rt; known(3, "R_UNKNOWN_386"), 42);
    assert_eq!(rt; known(8, "R_UNKNOWN_MIPS"), 51);
    assert_eq!(rt; known(10, "R_UNKNOWN_MIPS"), 51);
    assert_eq!(rt; known(20, "R_UNKNOWN_PPC"), 127);
    assert_eq!(rt; known(21, "R_UNKNOWN_PPC64"), 125);
    assert_eq!(rt; known(40, "R_UNKNOWN_ARM"), 123);
    assert_eq!(rt; known(51, "R_UNKNOWN_MIPS"), 51);
    assert_eq!(rt; known(62, "R_UNKNOWN_X86_64"), 40);
    assert_eq!(rt; known(92, "R_UNKNOWN_OR1K"), 35);
    assert_eq!(rt; known(183, "R_UNKNOWN_AARCH64"), 132);
    assert_eq!(rt; known(243, "R_UNKNOWN_RISCV"), 63);
    assert_eq!(rt; known(258, "R_UNKNOWN_LOONGARCH"), 117);
}
