//! Laws of fat files. The function does nothing; its contract is the law.

ghost use Rattle.fat_macho.specs.Laws.{LayoutIsSound, LayoutIsLeast, WideWhereLong, OrderIsSorted, SameFiles, AnyOrder, ExtractGivesSlices};

/// The offsets of a fat file are the least for their order, their table and their alignment, and its entries have 64 bits
/// exactly where the file with entries of 32 bits is too long for them. Slices are put in one order and have one file, whatever
/// the order in which they come, and out of a file with entries of 32 bits each is extracted by the name of its architecture.
pub fn layout_laws()
    ensures sound { LayoutIsSound }
    ensures least { LayoutIsLeast }
    ensures wide { WideWhereLong }
    ensures sorted { OrderIsSorted }
    ensures order { SameFiles }
    ensures bytes { AnyOrder }
    ensures extracts { ExtractGivesSlices }
{}
