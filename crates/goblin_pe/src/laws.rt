//! Laws of the definitions that the contracts cite. Each function does nothing; its contract is the law.

ghost use Rattle.std.specs.Prelude.{ℕ, List};
ghost use Rattle.pe_core.specs.ConstantRows.{AreNumbers};
ghost use Rattle.goblin_pe.specs.HeaderConstants.{file_characteristics, dll_characteristics, subsystems};
ghost use Rattle.goblin_pe.specs.LoadConfigConstants.{image_guards, load_flags};
ghost use Rattle.goblin_pe.specs.TlsConstants.{tls_alignments};
ghost use Rattle.goblin_pe.specs.LoadConfig.{load_config_fields};
ghost use Rattle.goblin_pe.specs.LoadConfigFront.{are_there, IsFront};

/// Each constant of the file header and the optional header is the number that its row of the standard's table has.
#[tactic(auto, unfolding(crate::specs::HeaderConstants::file_characteristics, crate::specs::HeaderConstants::dll_characteristics, crate::specs::HeaderConstants::subsystems))]
pub fn header_constant_laws()
    ensures file { AreNumbers file_characteristics }
    ensures dll { AreNumbers dll_characteristics }
    ensures subsystem { AreNumbers subsystems }
{}

/// Each constant of load configurations and TLS directories is the number that its row of the standard's table has.
#[tactic(auto, unfolding(crate::specs::LoadConfigConstants::image_guards, crate::specs::LoadConfigConstants::load_flags, crate::specs::TlsConstants::tls_alignments))]
pub fn directory_constant_laws()
    ensures guards { AreNumbers image_guards }
    ensures loading { AreNumbers load_flags }
    ensures alignments { AreNumbers tls_alignments }
{}

/// From the first field on that the bytes are too short for, a load configuration has none.
pub fn load_config_law()
    ensures { (b : List ℕ) (w : ℕ) → IsFront (are_there (load_config_fields b w)) }
{}
