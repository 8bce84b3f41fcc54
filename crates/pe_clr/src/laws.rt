//! The law of the constants. The function does nothing; its contract is the law.

ghost use Rattle.pe_core.specs.ConstantRows.{AreNumbers};
ghost use Rattle.pe_clr.specs.ClrConstants.{metadata_signature, runtime_flags, runtime_versions, vtable_kinds};

/// Each constant is the number that its row of the standard's table has.
#[tactic(auto, unfolding(crate::specs::ClrConstants::metadata_signature, crate::specs::ClrConstants::runtime_flags, crate::specs::ClrConstants::runtime_versions, crate::specs::ClrConstants::vtable_kinds))]
pub fn clr_constant_laws()
    ensures signature { AreNumbers metadata_signature }
    ensures runtime { AreNumbers runtime_flags }
    ensures versions { AreNumbers runtime_versions }
    ensures vtables { AreNumbers vtable_kinds }
{}
