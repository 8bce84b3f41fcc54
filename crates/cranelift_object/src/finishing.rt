//! From a module to its object.

ghost use Rattle.std.specs.Prelude.{if◌then◌else◌, ◌≡◌, ℕ, Bool, ◌<◌, ◌^◌, ◌+◌, ◌++◌, [], true, false, length, map, take, slice_get, option_map, unwrap_or, Some, None, IfOk, IfErr, OnOk};
ghost use Rattle.std.specs.List.{All, list_any};
ghost use Rattle.std.specs.Int.{is_power_of_two};
ghost use Rattle.cranelift_module.specs.Refusal.{Tells, is_defined, are_bytes};
ghost use Rattle.cranelift_module.specs.declared.reloc.ModuleRelocTarget.TheVariants.{FunctionOffset};
ghost use Rattle.cranelift_object.specs.EndCause.{end_cause, first_missing_function, first_missing_data, first_bad_reference, first_bad_target, target_cause, is_declared, HasTarget, function_missing, data_missing};
ghost use Rattle.cranelift_object.specs.Extras.{AreExtras};
ghost use Rattle.cranelift_object.specs.Linked.{object_of, identifier_symbol, declared_symbol, scope_of, file_flags, turns_compression_off, object_relocation, relocation_flags, mach_flags_of, marks_symbol};
ghost use Rattle.cranelift_module.specs.Call.{bytes};
ghost use Rattle.cranelift_module.specs.Init.{init_view};
ghost use Rattle.object_core.specs.declared.kinds.SymbolKind.TheVariants as SymbolKind;
ghost use Rattle.object_core.specs.Appending.{with_symbol, IsUndefined, HasBytes, is_unstored, next_offset};
ghost use Rattle.cranelift_module.specs.declared.identifiers.FuncOrDataId.TheVariants.{Func, Data};
ghost use Rattle.cranelift_object.specs.Kept.{IsDeclared};
ghost use Rattle.cranelift_object.specs.Product.{begun_object, function_marks, data_marks, AreMarks, symbol_number, product_of, fresh_object, with_symbol_contents, with_kept, with_relocations};
ghost use Rattle.cranelift_object.specs.Partial.{partial};
ghost use Rattle.cranelift_object.specs.Placing.{align_of};
ghost use Rattle.cranelift_object.specs.Marking.{with_symbols, marks_of_functions, marks_of_objects};

use crate::build_version::file_version;
use crate::definition::Definition;
use crate::extras::Extras;
use crate::sections::is_unstored;
use crate::{ObjectModule, ObjectProduct};
use cranelift_module::{
    DataDeclaration, DataId, FuncId, FuncOrDataId, FunctionDeclaration, Init, Linkage, Module,
    ModuleError, ModuleReloc, ModuleRelocTarget, ModuleResult,
};
use ir_core::{
    Architecture, BinaryFormat, Flag, MachNumber, Reloc, TargetIsa, elf_number, mach_number,
};
use object_core::{
    Object, Relocation, RelocationFlags, SectionId, Symbol, SymbolId, SymbolKind, SymbolScope,
    SymbolSection,
};
use std::alloc::{AllocError, Global};

// For each function and each data object by number its symbol, and whether it is defined.
#[derive(Drop)]
pub(crate) struct Symbols {
    pub(crate) functions: Vec<(SymbolId, bool)>,
    pub(crate) objects: Vec<(SymbolId, bool)>,
}

impl ObjectModule {
    /// Makes the object of all that was declared and defined. A function, then a data object, that wants a
    /// definition and has none is refused, and then a relocation to what isn't declared; the module is given up.
    pub fn finish(self) -> ModuleResult<ObjectProduct>
        ensures ok { IfOk result (λ product. product ≡ product_of self.settings self.state) }
        ensures none { OnOk result (end_cause self.state ≡ None) }
        ensures cause { IfErr result (λ e. Tells e (end_cause self.state)) }
    {
        if let Err(error) = self.check_finished() {
            return Err(error);
        }
        let mut object = self.begun_object()?;
        let symbols = self.add_symbols(&mut object)?;
        let extras = self.extras()?;
        self.add_definitions(&mut object, &symbols, &extras)?;
        self.add_extras(&mut object, &symbols, &extras)?;
        Ok(ObjectProduct::new(object, symbols.functions, symbols.objects))
    }

    // Refuses the first function, or else the first data object, that wants a definition and has none, or else the
    // first relocation whose target can't be had.
    fn check_finished(&self) -> ModuleResult<()>
        ensures none { OnOk result (end_cause (self.now).state ≡ None) }
        ensures cause { IfErr result (λ e. Tells e (end_cause (self.now).state)) }
    {
        if let Err(error) = self.check_functions() {
            return Err(error);
        }
        if let Err(error) = self.check_objects() {
            return Err(error);
        }
        self.check_references()
    }

    // Refuses the first function that wants a definition and has none.
    fn check_functions(&self) -> ModuleResult<()>
        ensures none { OnOk result (first_missing_function (self.now).state ≡ None) }
        ensures cause { IfErr result (λ e. Tells e (first_missing_function (self.now).state)) }
    {
        for number in 0..self.defined.len() {
            if let Err(error) = self.check_function(FuncId::from_u32(number as u32)) {
                return Err(error);
            }
        }
        Ok(())
    }

    // Refuses the first data object that wants a definition and has none.
    fn check_objects(&self) -> ModuleResult<()>
        ensures none { OnOk result (first_missing_data (self.now).state ≡ None) }
        ensures cause { IfErr result (λ e. Tells e (first_missing_data (self.now).state)) }
    {
        for number in 0..self.defined_objects.len() {
            if let Err(error) = self.check_object(DataId::from_u32(number as u32)) {
                return Err(error);
            }
        }
        Ok(())
    }

    // Refuses the first relocation of a definition whose target can't be had.
    fn check_references(&self) -> ModuleResult<()>
        ensures none { OnOk result (first_bad_reference (self.now).state ≡ None) }
        ensures cause { IfErr result (λ e. Tells e (first_bad_reference (self.now).state)) }
    {
        for number in 0..self.definitions.len() {
            if let Err(error) = self.check_targets(self.definitions[number].relocs()) {
                return Err(error);
            }
        }
        Ok(())
    }

    // Refuses the first of these relocations whose target can't be had.
    fn check_targets(&self, relocs: &[ModuleReloc]) -> ModuleResult<()>
        ensures none { OnOk result (first_bad_target (self.now).state relocs.now ≡ None) }
        ensures cause { IfErr result (λ e. Tells e (first_bad_target (self.now).state relocs.now)) }
    {
        for reloc in relocs {
            if let Err(error) = self.check_target(reloc.name) {
                return Err(error);
            }
        }
        Ok(())
    }

    // Refuses a target that isn't declared, and a label in a function that has no definition.
    fn check_target(&self, target: ModuleRelocTarget) -> ModuleResult<()>
        ensures none { OnOk result (target_cause (self.now).state target ≡ None) }
        ensures cause { IfErr result (λ e. Tells e (target_cause (self.now).state target)) }
    {
        match target {
            ModuleRelocTarget::User { namespace, index } => {
                if !self.is_declared(namespace, index) {
                    let text = target.to_string(self.builder.alloc())?;
                    return Err(ModuleError::Undeclared(text));
                }
                Ok(())
            }
            ModuleRelocTarget::FunctionOffset(function, _) => self.check_label(target, function),
            ModuleRelocTarget::LibCall(_) | ModuleRelocTarget::KnownSymbol(_) => Ok(()),
        }
    }

    // Refuses a label in a function that isn't declared, or has no definition.
    fn check_label(&self, target: ModuleRelocTarget, function: FuncId) -> ModuleResult<()>
        ensures none { (offset : ℕ) → target ≡ FunctionOffset function offset → OnOk result (target_cause (self.now).state target ≡ None) }
        ensures cause { (offset : ℕ) → target ≡ FunctionOffset function offset → IfErr result (λ e. Tells e (target_cause (self.now).state target)) }
    {
        let alloc = self.builder.alloc();
        let Some(declaration) = self.declarations.function(function) else {
            let text = target.to_string(alloc)?;
            return Err(ModuleError::Undeclared(text));
        };
        if !self.is_defined(function) {
            let name = declaration
                .linkage_name(alloc, function)?
                .into_owned(alloc)?;
            return Err(ModuleError::MissingDefinition(name));
        }
        Ok(())
    }

    // Whether a function of namespace 0, or a data object of namespace 1, is declared.
    fn is_declared(&self, namespace: u32, index: u32) -> bool
        ensures { result ≡ is_declared (self.now).state namespace index }
    {
        match namespace {
            0 => self
                .declarations
                .function(FuncId::from_u32(index))
                .is_some(),
            1 => self.declarations.data(DataId::from_u32(index)).is_some(),
            _ => false,
        }
    }

    // Refuses a function that wants a definition and has none.
    fn check_function(&self, id: FuncId) -> ModuleResult<()>
        requires { id < length (self.now).state.functions }
        ensures none { OnOk result (function_missing (self.now).state id ≡ None) }
        ensures cause { IfErr result (λ e. Tells e (function_missing (self.now).state id)) }
    {
        let function = self.declarations.get_function_decl(id);
        if !function.linkage().requires_definition() || self.is_defined(id) {
            return Ok(());
        }
        let alloc = self.builder.alloc();
        let name = function.linkage_name(alloc, id)?.into_owned(alloc)?;
        Err(ModuleError::MissingDefinition(name))
    }

    // Refuses a data object that wants a definition and has none.
    fn check_object(&self, id: DataId) -> ModuleResult<()>
        requires { id < length (self.now).state.objects }
        ensures none { OnOk result (data_missing (self.now).state id ≡ None) }
        ensures cause { IfErr result (λ e. Tells e (data_missing (self.now).state id)) }
    {
        let object = self.declarations.get_data_decl(id);
        if !object.linkage().requires_definition() || self.is_object_defined(id) {
            return Ok(());
        }
        let alloc = self.builder.alloc();
        let name = object.linkage_name(alloc, id)?.into_owned(alloc)?;
        Err(ModuleError::MissingDefinition(name))
    }

    // The object with the symbol of the file's name alone.
    fn begun_object(&self) -> Result<Object, AllocError>
        ensures { IfOk result (λ object. object ≡ begun_object (self.now).settings (self.now).state) }
    {
        let mut object = self.fresh_object();
        object.add_file_symbol(self.builder.name())?;
        Ok(object)
    }

    // The object of the target without sections and symbols.
    fn fresh_object(&self) -> Object
        ensures { result ≡ fresh_object (self.now).state }
    {
        let isa = self.builder.isa();
        let triple = isa.triple();
        let mut object = Object::new(
            self.builder.alloc(),
            triple.binary_format,
            triple.architecture,
            file_flags(isa),
        );
        match file_version(triple) {
            Some(version) => {
                object.set_macho_build_version(version);
                object
            }
            None => object,
        }
    }

    // Adds an undefined symbol for each identifier in order of creation. The answer is the symbol of each function and
    // each data object by number, with whether it is defined.
    fn add_symbols(&self, object: &mut Object) -> Result<Symbols, AllocError>
        requires { object.old ≡ begun_object (self.now).settings (self.now).state }
        ensures symbols { OnOk result (object.new ≡ partial (self.now).settings (self.now).state []) }
        ensures functions { IfOk result (λ symbols. symbols.functions.items ≡ function_marks (self.now).state) }
        ensures objects { IfOk result (λ symbols. symbols.objects.items ≡ data_marks (self.now).state) }
    {
        let mut symbols = Symbols {
            functions: Vec::new(self.builder.alloc()),
            objects: Vec::new(self.builder.alloc()),
        };
        for number in 0..self.created.len() {
            self.add_identifier(object, &mut symbols, number)?;
        }
        Ok(symbols)
    }

    // Adds the undefined symbol of the identifier that was created at this number, behind those before it.
    fn add_identifier(
        &self,
        object: &mut Object,
        symbols: &mut Symbols,
        number: usize,
    ) -> Result<(), AllocError>
        requires number { number < length (self.now).state.created }
        requires object { object.old ≡ with_symbols self.now number }
        requires functions { symbols.old.functions.items ≡ marks_of_functions (self.now).state (take number (self.now).state.created) }
        requires objects { symbols.old.objects.items ≡ marks_of_objects (self.now).state (take number (self.now).state.created) }
        ensures object { OnOk result (object.new ≡ with_symbols self.now (number + 1)) }
        ensures functions { OnOk result (symbols.new.functions.items ≡ marks_of_functions (self.now).state (take (number + 1) (self.now).state.created)) }
        ensures objects { OnOk result (symbols.new.objects.items ≡ marks_of_objects (self.now).state (take (number + 1) (self.now).state.created)) }
    {
        match self.created[number] {
            FuncOrDataId::Func(id) => {
                let row = self.add_function(object, id)?;
                symbols.functions.push(row)?;
            }
            FuncOrDataId::Data(id) => {
                let row = self.add_object(object, id)?;
                symbols.objects.push(row)?;
            }
        }
        Ok(())
    }

    // Adds the undefined symbol of a function, and answers it with whether the function is defined.
    fn add_function(&self, object: &mut Object, id: FuncId) -> Result<(SymbolId, bool), AllocError>
        requires { id < length (self.now).state.functions }
        ensures added { OnOk result (object.new ≡ with_symbol object.old (identifier_symbol (self.now).state [] (Func id))) }
        ensures row { IfOk result (λ row. row ≡ (length object.old.symbols, is_defined (self.now).state (Func id))) }
    {
        let function = self.declarations.get_function_decl(id);
        let name = function.linkage_name(self.builder.alloc(), id)?;
        let symbol = declared_symbol(function.linkage(), SymbolKind::Text);
        let symbol = object.add_symbol(name.as_str().as_bytes(), symbol)?;
        Ok((symbol, self.is_defined(id)))
    }

    // Adds the undefined symbol of a data object, and answers it with whether the data object is defined.
    fn add_object(&self, object: &mut Object, id: DataId) -> Result<(SymbolId, bool), AllocError>
        requires { id < length (self.now).state.objects }
        ensures added { OnOk result (object.new ≡ with_symbol object.old (identifier_symbol (self.now).state [] (Data id))) }
        ensures row { IfOk result (λ row. row ≡ (length object.old.symbols, is_defined (self.now).state (Data id))) }
    {
        let data = self.declarations.get_data_decl(id);
        let name = data.linkage_name(self.builder.alloc(), id)?;
        let symbol = declared_symbol(data.linkage(), data_kind(data.tls()));
        let symbol = object.add_symbol(name.as_str().as_bytes(), symbol)?;
        Ok((symbol, self.is_object_defined(id)))
    }

    // Adds the contents of each definition, defines its symbol there, and adds its relocations.
    fn add_definitions(
        &self,
        object: &mut Object,
        symbols: &Symbols,
        extras: &Extras,
    ) -> Result<(), AllocError>
        requires begun { object.old ≡ partial (self.now).settings (self.now).state [] }
        requires symbols { AreMarks (self.now).state symbols.now.functions.items symbols.now.objects.items }
        requires extras { AreExtras (self.now).settings (self.now).state extras.now }
        requires targets { first_bad_reference (self.now).state ≡ None }
        ensures { OnOk result (object.new ≡ partial (self.now).settings (self.now).state (self.now).state.definitions) }
    {
        for number in 0..self.definitions.len() {
            self.add_definition(object, symbols, extras, number)?;
        }
        Ok(())
    }

    // Adds the contents of the definition of this number, behind those before it, and its relocations.
    fn add_definition(
        &self,
        object: &mut Object,
        symbols: &Symbols,
        extras: &Extras,
        number: usize,
    ) -> Result<(), AllocError>
        requires extras { AreExtras (self.now).settings (self.now).state extras.now }
        requires number { number < length (self.now).state.definitions }
        requires before { object.old ≡ partial (self.now).settings (self.now).state (take number (self.now).state.definitions) }
        requires symbols { AreMarks (self.now).state symbols.now.functions.items symbols.now.objects.items }
        requires targets { first_bad_reference (self.now).state ≡ None }
        ensures { OnOk result (object.new ≡ partial (self.now).settings (self.now).state (take (number + 1) (self.now).state.definitions)) }
    {
        let definition = &self.definitions[number];
        let section = self.open_section(object, definition)?;
        let symbol = self.symbol_of(symbols, definition.identifier());
        let align = self.alignment_of(definition);
        let offset = add_contents(object, symbol, section, definition, align)?;
        let relocs = definition.relocs();
        self.add_relocations(object, symbols, extras, section, offset, relocs)?;
        Ok(())
    }

    // The alignment at which a definition stands, in bytes: the one asked for, or the target's where that is greater.
    fn alignment_of(&self, definition: &Definition) -> u64
        ensures { result ≡ align_of (self.now).state definition.now }
    {
        definition
            .align()
            .max(self.builder.isa().symbol_alignment())
    }

    // The symbol of an identifier.
    pub(crate) fn symbol_of(&self, symbols: &Symbols, id: FuncOrDataId) -> SymbolId
        requires symbols { AreMarks (self.now).state symbols.now.functions.items symbols.now.objects.items }
        requires declared { IsDeclared (length (self.now).state.functions) (length (self.now).state.objects) id }
        ensures { result ≡ symbol_number (self.now).state id }
    {
        match id {
            FuncOrDataId::Func(id) => self.symbol_of_function(symbols, id),
            FuncOrDataId::Data(id) => self.symbol_of_object(symbols, id),
        }
    }

    // The symbol of a function.
    pub(crate) fn symbol_of_function(&self, symbols: &Symbols, id: FuncId) -> SymbolId
        requires symbols { symbols.now.functions.items ≡ function_marks (self.now).state }
        requires declared { id < length (self.now).state.functions }
        ensures { result ≡ symbol_number (self.now).state (Func id) }
    {
        let functions = symbols.functions.as_slice();
        functions[id.as_u32() as usize].0
    }

    // The symbol of a data object.
    fn symbol_of_object(&self, symbols: &Symbols, id: DataId) -> SymbolId
        requires symbols { symbols.now.objects.items ≡ data_marks (self.now).state }
        requires declared { id < length (self.now).state.objects }
        ensures { result ≡ symbol_number (self.now).state (Data id) }
    {
        let objects = symbols.objects.as_slice();
        objects[id.as_u32() as usize].0
    }

    // Adds the relocations of a definition that stands at this offset of a section.
    fn add_relocations(
        &self,
        object: &mut Object,
        symbols: &Symbols,
        extras: &Extras,
        section: SectionId,
        offset: u128,
        relocs: &[ModuleReloc],
    ) -> Result<(), AllocError>
        requires extras { AreExtras (self.now).settings (self.now).state extras.now }
        requires section { section < length object.old.sections }
        requires symbols { AreMarks (self.now).state symbols.now.functions.items symbols.now.objects.items }
        requires targets { All (HasTarget (self.now).state) relocs.now }
        requires offset { offset < 2 ^ 127 + 2 ^ 126 + 65536 }
        ensures { OnOk result (object.new ≡ with_relocations object.old section (map (object_relocation (self.now).settings (self.now).state offset) relocs.now)) }
    {
        for reloc in relocs {
            let relocation = self.relocation(symbols, extras, offset, reloc)?;
            object.add_relocation(section, relocation)?;
        }
        Ok(())
    }

    // The relocation of a definition that stands at this offset. Contents whose places have more than 64 bits want more
    // memory than there is.
    fn relocation(
        &self,
        symbols: &Symbols,
        extras: &Extras,
        offset: u128,
        reloc: &ModuleReloc,
    ) -> Result<Relocation, AllocError>
        requires extras { AreExtras (self.now).settings (self.now).state extras.now }
        requires symbols { AreMarks (self.now).state symbols.now.functions.items symbols.now.objects.items }
        requires target { HasTarget (self.now).state reloc.now }
        requires offset { offset < 2 ^ 127 + 2 ^ 126 + 65536 }
        ensures { IfOk result (λ r. r ≡ object_relocation (self.now).settings (self.now).state offset reloc.now) }
    {
        let Ok(place) = u64::try_from(offset + u128::from(reloc.offset)) else {
            return Err(AllocError);
        };
        let triple = self.builder.isa().triple();
        let flags = relocation_flags(triple.binary_format, triple.architecture, reloc.kind);
        Ok(Relocation {
            offset: place,
            symbol: self.target_symbol(symbols, extras, reloc.name),
            flags,
            addend: reloc.addend,
        })
    }
}

// Puts the contents of a definition behind those of its section, and its symbol there, with the mark that the linker
// keeps it. The answer is their offset.
fn add_contents(
    object: &mut Object,
    symbol: SymbolId,
    section: SectionId,
    definition: &Definition,
    align: u64,
) -> Result<u128, AllocError>
    requires power { is_power_of_two align ≡ true }
    requires symbol { IsUndefined object.old symbol }
    requires section { section < length object.old.sections }
    requires stored { are_bytes (Some (definition.now).contents) ≡ true → HasBytes object.old section }
    requires sum { object.old.content_sum < 2 ^ 127 + 2 ^ 126 }
    ensures offset { IfOk result (λ offset. offset ≡ next_offset object.old section align) }
    ensures ok { (unstored : Bool) → option_map (is_unstored object.old.format) (slice_get object.old.sections section) ≡ Some unstored
        → OnOk result (object.new ≡ with_kept (marks_symbol object.old.format (definition.now).used) (with_symbol_contents unstored object.old symbol section (definition.now).contents align) symbol) }
{
    let unstored = is_unstored(object, section);
    let marked = marks_symbol(object.format(), definition.used());
    let offset = put_contents(
        object,
        symbol,
        section,
        unstored,
        definition.contents(),
        align,
    )?;
    keep_symbol(object, symbol, marked);
    Ok(offset)
}

// Puts contents behind those of a section that takes bytes of the file or none, and a symbol there. The answer is their
// offset.
fn put_contents(
    object: &mut Object,
    symbol: SymbolId,
    section: SectionId,
    unstored: bool,
    contents: &Init,
    align: u64,
) -> Result<u128, AllocError>
    requires power { is_power_of_two align ≡ true }
    requires symbol { IsUndefined object.old symbol }
    requires section { option_map (is_unstored object.old.format) (slice_get object.old.sections section) ≡ Some unstored }
    requires stored { are_bytes (Some (unwrap_or (init_view contents.now) (bytes []))) ≡ true → unstored ≡ false }
    requires sum { object.old.content_sum < 2 ^ 127 + 2 ^ 126 }
    ensures offset { IfOk result (λ offset. offset ≡ next_offset object.old section align) }
    ensures ok { OnOk result (object.new ≡ with_symbol_contents unstored object.old symbol section (unwrap_or (init_view contents.now) (bytes [])) align) }
{
    match contents {
        Init::Uninitialized => object.add_symbol_data(symbol, section, &[], align),
        Init::Bytes { contents } => object.add_symbol_data(symbol, section, contents, align),
        Init::Zeros { size } => {
            if unstored {
                object.add_symbol_bss(symbol, section, *size as u64, align)
            } else {
                object.add_symbol_zeros(symbol, section, *size as u64, align)
            }
        }
    }
}

// Marks a symbol as one that the linker keeps, where it is to be marked.
fn keep_symbol(object: &mut Object, symbol: SymbolId, marked: bool)
    requires { symbol < length object.old.symbols }
    ensures { object.new ≡ with_kept marked object.old symbol }
{
    if marked {
        object.symbol_mut(symbol).no_dead_strip = true;
    }
}

// Whether the symbol of a definition says that the linker keeps it.
fn marks_symbol(format: BinaryFormat, used: bool) -> bool
    ensures { result ≡ marks_symbol format used }
{
    match format {
        BinaryFormat::Macho => used,
        _ => false,
    }
}

// The kind of a relocation as a file of the format has it.
fn relocation_flags(
    format: BinaryFormat,
    architecture: Architecture,
    kind: Reloc,
) -> RelocationFlags
    ensures { result ≡ relocation_flags format architecture kind }
{
    match format {
        BinaryFormat::Macho => mach_flags(mach_number(architecture, kind)),
        _ => RelocationFlags::Elf {
            r_type: elf_number(architecture, kind).unwrap_or(0),
        },
    }
}

// The numbers of a kind in a Mach-O file.
fn mach_flags(number: Option<MachNumber>) -> RelocationFlags
    ensures { result ≡ mach_flags_of number }
{
    match number {
        Some(number) => RelocationFlags::MachO {
            r_type: number.r_type,
            r_pcrel: number.pcrel,
            r_length: number.length,
        },
        None => RelocationFlags::MachO {
            r_type: 0,
            r_pcrel: false,
            r_length: 0,
        },
    }
}

// The kind of the symbol of a data object.
fn data_kind(tls: bool) -> SymbolKind
    ensures { result ≡ (if tls then SymbolKind.Tls else SymbolKind.Data) }
{
    if tls {
        SymbolKind::Tls
    } else {
        SymbolKind::Data
    }
}

// The symbol of an identifier before it is defined.
fn declared_symbol(linkage: Linkage, kind: SymbolKind) -> Symbol
    ensures { result ≡ declared_symbol linkage kind }
{
    Symbol {
        value: 0,
        size: 0,
        kind,
        scope: scope_of(linkage),
        weak: matches!(linkage, Linkage::Preemptible),
        section: SymbolSection::Undefined,
        no_dead_strip: false,
    }
}

fn scope_of(linkage: Linkage) -> SymbolScope
    ensures { result ≡ scope_of linkage }
{
    match linkage {
        Linkage::Import => SymbolScope::Unknown,
        Linkage::Local => SymbolScope::Compilation,
        Linkage::Hidden => SymbolScope::Linkage,
        Linkage::Preemptible | Linkage::Export => SymbolScope::Dynamic,
    }
}

// The flags of the file: on RISC-V EF_RISCV_FLOAT_ABI_DOUBLE, and EF_RISCV_RVC unless a flag turns compression off.
fn file_flags(isa: &TargetIsa) -> u32
    ensures { result ≡ file_flags (isa.now).triple.architecture (isa.now).flags }
{
    match isa.triple().architecture {
        Architecture::Riscv64 if turn_compression_off(isa.flags()) => 4,
        Architecture::Riscv64 => 5,
        _ => 0,
    }
}

// Whether one of these flags turns compression off.
fn turn_compression_off(flags: &[Flag]) -> bool
    ensures { result ≡ list_any turns_compression_off flags.now }
{
    flags.iter().any(turns_compression_off)
}

// A flag for compressed instructions that is listed without the value true.
fn turns_compression_off(flag: &Flag) -> bool
    ensures { result ≡ turns_compression_off flag.now }
{
    (flag.name() == "has_zca" || flag.name() == "has_zcd") && flag.value() != Some(true)
}
