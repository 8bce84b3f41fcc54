//! The law of signed files. The function does nothing; its contract is the law.

ghost use Rattle.std.specs.Prelude.{◌≡◌, ◌+◌, ◌≤◌, ℕ, List, length};
ghost use Rattle.std.specs.List.{concat};
ghost use Rattle.pe_signed.specs.declared.authenticode.ExcludedSections.{ExcludedSections};
ghost use Rattle.pe_core.specs.declared.section_table.SectionTable.{SectionTable};
ghost use Rattle.pe_signed.specs.SignedRanges.{signed_ranges, bytes_hashed};
ghost use Rattle.pe_signed.specs.SignedFile.{signed, FillFrom};

/// The ranges of a file whose sections fill it from the header's end on, and whose certificates end inside, are joined
/// its signed bytes.
pub fn signed_file_law()
    ensures { (b : List ℕ) (sections : List SectionTable) (ex : ExcludedSections) (ranges : List (List ℕ))
        → signed_ranges b sections (Some ex) ≡ Ok ranges
        → FillFrom ex sections
        → bytes_hashed sections ex + ex.certificate_table_size ≤ length b
        → concat ranges ≡ signed b ex }
{}
