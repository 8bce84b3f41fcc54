//! The laws of the names. The function does nothing; its contract is the laws.

ghost use Rattle.goblin_reloc_names.specs.Laws.{NamesAreDistinct, KnownIsTold, EachRowIsTold};

/// Within one machine distinct numbers with known names have distinct names; a known name is never the
/// text for an unknown number; and each row of a table that isn't passed over is told.
pub fn name_laws()
    ensures distinct { NamesAreDistinct }
    ensures told { KnownIsTold }
    ensures each { EachRowIsTold }
{}
