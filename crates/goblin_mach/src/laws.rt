//! Laws of the tables that the contracts cite. Each function does nothing; its contract is the law.

ghost use Rattle.goblin_mach.specs.Laws.{AreNumbers, AreTexts, NamesAreRows, PairsAreRows, NamesLeadBack, EntriesByPlace, ErrorIsLast, AllAreItems};
ghost use Rattle.goblin_mach.specs.Versions.{macos_versions, ios_versions};
ghost use Rattle.goblin_mach.specs.Sections.{section_types, section_attributes};
ghost use Rattle.goblin_mach.specs.Segments.{segment_names};
ghost use Rattle.goblin_mach.specs.Protections.{protections};
ghost use Rattle.goblin_mach.specs.Headers.{magic_numbers, header_sizes};
ghost use Rattle.goblin_mach.specs.Processors.{cpu_types, cpu_subtypes};

/// Each version constant is the published number.
#[tactic(auto, unfolding(crate::specs::Versions::macos_versions, crate::specs::Versions::ios_versions))]
pub fn version_laws()
    ensures macos { AreNumbers macos_versions }
    ensures ios { AreNumbers ios_versions }
{}

/// Each constant of sections and segments is the published number or text.
#[tactic(auto, unfolding(crate::specs::Sections::section_types, crate::specs::Sections::section_attributes, crate::specs::Segments::segment_names, crate::specs::Protections::protections))]
pub fn section_laws()
    ensures section_types { AreNumbers section_types }
    ensures section_attributes { AreNumbers section_attributes }
    ensures segments { AreTexts segment_names }
    ensures protections { AreNumbers protections }
{}

/// Each magic number and each size of a header is the published number.
#[tactic(auto, unfolding(crate::specs::Headers::magic_numbers, crate::specs::Headers::header_sizes))]
pub fn header_laws()
    ensures magic { AreNumbers magic_numbers }
    ensures sizes { AreNumbers header_sizes }
{}

/// Each processor type and subtype is the published number.
#[tactic(auto, unfolding(crate::specs::Processors::cpu_types, crate::specs::Processors::cpu_subtypes))]
pub fn processor_laws()
    ensures cpu_types { AreNumbers cpu_types }
    ensures cpu_subtypes { AreNumbers cpu_subtypes }
{}

/// Names and pairs are exactly the rows of the table of architectures, and a name that a pair has leads
/// back to it.
pub fn architecture_laws()
    ensures names { NamesAreRows }
    ensures pairs { PairsAreRows }
    ensures back { NamesLeadBack }
{}

/// The items of an iteration over a fat file's table, each by its place in the file.
pub fn table_laws()
    ensures entries { EntriesByPlace }
    ensures error { ErrorIsLast }
    ensures all { AllAreItems }
{}
