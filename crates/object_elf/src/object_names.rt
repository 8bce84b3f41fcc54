//! The names of an object's sections and symbols.

ghost use Rattle.std.specs.Prelude.{◌≡◌, ◌<◌, length, slice_get, Some};
ghost use Rattle.object_core.specs.Object.{SymbolData, SectionData};

use object_core::{Object, SectionId, SymbolId};

/// The name of the symbol of this number.
pub(crate) fn symbol_name(object: &Object, number: usize) -> &[u8]
    requires { number < length (object.now).symbols }
    ensures { (s : SymbolData) → slice_get (object.now).symbols number ≡ Some s → result.now ≡ s.name }
{
    object.symbol_name(SymbolId::from_number(number))
}

/// The name of the section of this number.
pub(crate) fn section_name(object: &Object, number: usize) -> &[u8]
    requires { number < length (object.now).sections }
    ensures { (s : SectionData) → slice_get (object.now).sections number ≡ Some s → result.now ≡ s.name }
{
    object.section_name(SectionId::from_number(number))
}
