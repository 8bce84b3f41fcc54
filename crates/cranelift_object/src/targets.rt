//! The targets of relocations, over all declarations, and the symbols that they add.

ghost use Rattle.std.specs.Prelude.{◌≡◌, ◌==◌, ℕ, if◌then◌else◌, ◌<◌, ◌^◌, ◌+◌, ◌++◌, ◌∷◌, [], length, slice_get, List, Some, None, IfOk, OnOk, map};
ghost use Rattle.cranelift_module.specs.declared.identifiers.FuncOrDataId.{FuncOrDataId as Id};
ghost use Rattle.cranelift_module.specs.declared.identifiers.FuncOrDataId.TheVariants.{Func, Data};
ghost use Rattle.cranelift_module.specs.declared.reloc.ModuleRelocTarget.TheVariants.{LibCall as Library};
ghost use Rattle.cranelift_object.specs.EndCause.{target_cause, first_bad_reference};
ghost use Rattle.cranelift_object.specs.Extras.{resolved_target, extra_target, IsFaithful, IsFaithfulTarget, AreAdded, AreExtras, targets_in};
ghost use Rattle.cranelift_object.specs.Kept.{IsDeclared};
ghost use Rattle.cranelift_object.specs.Linked.{object_of, row_of, identifier_symbol, extra_symbol, known_symbol, outside_symbol, undefined_symbol, inner_symbol, label_symbol, defined_at};
ghost use Rattle.cranelift_object.specs.Partial.{partial};
ghost use Rattle.cranelift_object.specs.Placing.{placed};
ghost use Rattle.cranelift_object.specs.Product.{AreMarks, symbol_number};
ghost use Rattle.cranelift_object.specs.Adding.{HasIdentifiers, IsOfFunction};
ghost use Rattle.cranelift_object.specs.Targets.{RelocationTarget, target_of};
ghost use Rattle.cranelift_object.specs.declared.extras.Extra.TheVariants.{Known, Label};
ghost use Rattle.cranelift_object.specs.declared.extras.ResolvedTarget.TheVariants.{Identifier, Added};
ghost use Rattle.object_core.specs.Appending.{with_symbol};

use crate::ObjectModule;
use crate::extras::{Extra, Extras, ResolvedTarget};
use crate::finishing::Symbols;
use cranelift_module::{DataId, FuncId, FuncOrDataId, Module, ModuleReloc, ModuleRelocTarget};
use ir_core::{KnownSymbol, LibCall};
use object_core::{Object, Symbol, SymbolId, SymbolKind, SymbolScope, SymbolSection};
use std::alloc::AllocError;

impl ObjectModule {
    // What a relocation goes to, over all declarations.
    fn resolved(&self, target: ModuleRelocTarget) -> ResolvedTarget
        ensures target { resolved_target (self.now).settings result ≡ target_of (self.now).settings (self.now).state target }
        ensures faithful { IsFaithfulTarget (self.now).settings result }
    {
        match target {
            ModuleRelocTarget::User { namespace, index } => resolved_user(namespace, index),
            ModuleRelocTarget::LibCall(call) => self.resolved_call(call),
            ModuleRelocTarget::KnownSymbol(symbol) => resolved_known(symbol),
            ModuleRelocTarget::FunctionOffset(function, offset) => resolved_label(function, offset),
        }
    }

    // The identifier that is declared under the text of a library call, or else that text.
    fn resolved_call(&self, call: LibCall) -> ResolvedTarget
        ensures target { resolved_target (self.now).settings result ≡ target_of (self.now).settings (self.now).state (Library call) }
        ensures faithful { IsFaithfulTarget (self.now).settings result }
    {
        let text = self.builder.library_text(call);
        match self.declarations.get_name(text) {
            Some(id) => ResolvedTarget::Identifier(id),
            None => ResolvedTarget::Added(Extra::Library(self.builder.place_of_text(text))),
        }
    }

    // What the relocations of all definitions add, each once, at its first use.
    pub(crate) fn extras(&self) -> Result<Extras, AllocError>
        ensures { IfOk result (λ extras. AreExtras (self.now).settings (self.now).state extras) }
    {
        let mut extras = Extras::new(self.builder.alloc());
        for number in 0..self.definitions.len() {
            self.note_targets(&mut extras, self.definitions[number].relocs())?;
        }
        Ok(extras)
    }

    // Notes what these relocations add.
    fn note_targets(&self, extras: &mut Extras, relocs: &[ModuleReloc]) -> Result<(), AllocError>
        ensures { OnOk result ((ts : List RelocationTarget) → AreAdded (self.now).settings ts extras.old → AreAdded (self.now).settings (ts ++ targets_in (self.now).settings (self.now).state relocs.now) extras.new) }
    {
        for reloc in relocs {
            self.note_target(extras, reloc.name)?;
        }
        Ok(())
    }

    // Notes what a relocation to this target adds.
    #[tactic(auto, using(crate::proofs::ExtraLaws::identifier_noted, crate::proofs::ExtraLaws::extra_noted))]
    fn note_target(&self, extras: &mut Extras, target: ModuleRelocTarget) -> Result<(), AllocError>
        ensures { OnOk result ((ts : List RelocationTarget) → AreAdded (self.now).settings ts extras.old → AreAdded (self.now).settings (ts ++ target_of (self.now).settings (self.now).state target ∷ []) extras.new) }
    {
        match self.resolved(target) {
            ResolvedTarget::Identifier(_) => Ok(()),
            ResolvedTarget::Added(extra) => extras.note(extra),
        }
    }

    // The symbol of a relocation's target: that of its identifier, or the one that is added behind those of all
    // identifiers.
    pub(crate) fn target_symbol(
        &self,
        symbols: &Symbols,
        extras: &Extras,
        target: ModuleRelocTarget,
    ) -> SymbolId
        requires symbols { AreMarks (self.now).state symbols.now.functions.items symbols.now.objects.items }
        requires extras { AreExtras (self.now).settings (self.now).state extras.now }
        requires target { target_cause (self.now).state target ≡ None }
        ensures { result ≡ row_of (self.now).settings (self.now).state (target_of (self.now).settings (self.now).state target) }
    {
        match self.resolved(target) {
            ResolvedTarget::Identifier(id) => self.symbol_of(symbols, id),
            ResolvedTarget::Added(extra) => self.added_symbol(extras, extra),
        }
    }

    // The symbol that is added for what a relocation adds.
    #[tactic(auto, using(crate::proofs::ExtraLaws::added_row))]
    fn added_symbol(&self, extras: &Extras, extra: Extra) -> SymbolId
        requires extras { AreExtras (self.now).settings (self.now).state extras.now }
        requires faithful { IsFaithful (self.now).settings extra }
        ensures { result ≡ row_of (self.now).settings (self.now).state (extra_target (self.now).settings extra) }
    {
        SymbolId::from_number(1 + self.created.len() + extras.place(extra))
    }

    // Adds the symbols of what relocations add, behind those of all identifiers.
    pub(crate) fn add_extras(
        &self,
        object: &mut Object,
        symbols: &Symbols,
        extras: &Extras,
    ) -> Result<(), AllocError>
        requires defined { object.old ≡ partial (self.now).settings (self.now).state (self.now).state.definitions }
        requires identifiers { HasIdentifiers (self.now).settings (self.now).state object.old }
        requires symbols { AreMarks (self.now).state symbols.now.functions.items symbols.now.objects.items }
        requires extras { AreExtras (self.now).settings (self.now).state extras.now }
        requires targets { first_bad_reference (self.now).state ≡ None }
        ensures { OnOk result (object.new ≡ object_of (self.now).settings (self.now).state) }
    {
        for extra in extras.as_slice() {
            self.add_extra(object, symbols, *extra)?;
        }
        Ok(())
    }

    // Adds the symbol of what a relocation adds.
    fn add_extra(
        &self,
        object: &mut Object,
        symbols: &Symbols,
        extra: Extra,
    ) -> Result<(), AllocError>
        requires symbols { AreMarks (self.now).state symbols.now.functions.items symbols.now.objects.items }
        requires identifiers { HasIdentifiers (self.now).settings (self.now).state object.old }
        requires function { IsOfFunction (self.now).state extra }
        ensures { OnOk result (object.new ≡ with_symbol object.old (extra_symbol (placed (self.now).settings (self.now).state) (extra_target (self.now).settings extra))) }
    {
        match extra {
            Extra::Library(place) => {
                add_outside(object, self.builder.text_at(place), 0, SymbolKind::Text)
            }
            Extra::Known(symbol) => add_known(object, symbol),
            Extra::Label(function, offset) => self.add_label(object, symbols, function, offset),
        }
    }

    // Adds the symbol of a place in a function. A place of more than 128 bits wants more memory than there is.
    fn add_label(
        &self,
        object: &mut Object,
        symbols: &Symbols,
        function: FuncId,
        offset: u32,
    ) -> Result<(), AllocError>
        requires symbols { AreMarks (self.now).state symbols.now.functions.items symbols.now.objects.items }
        requires identifiers { HasIdentifiers (self.now).settings (self.now).state object.old }
        requires function { function < length (self.now).state.functions }
        ensures { OnOk result (object.new ≡ with_symbol object.old (label_symbol function offset (defined_at (placed (self.now).settings (self.now).state) (Func function)))) }
    {
        let function_symbol = object.symbol(self.symbol_of_function(symbols, function));
        let section = function_symbol.section;
        let value = function_symbol.value.checked_add(u128::from(offset));
        let value = value.ok_or(AllocError)?;
        let number = function.as_u32();
        let name = format!(in self.builder.alloc(); ".L{number}_{offset}")?;
        object.add_symbol(name.as_str().as_bytes(), inner_symbol(value, section))?;
        Ok(())
    }
}

// A function in namespace 0, else a data object.
fn resolved_user(namespace: u32, index: u32) -> ResolvedTarget
    ensures { result ≡ Identifier (if namespace == 0 then Func index else Data index) }
{
    if namespace == 0 {
        ResolvedTarget::Identifier(FuncOrDataId::Func(FuncId::from_u32(index)))
    } else {
        ResolvedTarget::Identifier(FuncOrDataId::Data(DataId::from_u32(index)))
    }
}

// A symbol that the linker itself defines.
fn resolved_known(symbol: KnownSymbol) -> ResolvedTarget
    ensures { result ≡ Added (Known symbol) }
{
    ResolvedTarget::Added(Extra::Known(symbol))
}

// A place in a function.
fn resolved_label(function: FuncId, offset: u32) -> ResolvedTarget
    ensures label { result ≡ Added (Label function offset) }
    ensures bound { offset < 2 ^ 32 }
{
    ResolvedTarget::Added(Extra::Label(function, offset))
}

// Adds a symbol that another file defines.
fn add_outside(
    object: &mut Object,
    name: &str,
    size: u64,
    kind: SymbolKind,
) -> Result<(), AllocError>
    ensures { OnOk result (object.new ≡ with_symbol object.old (undefined_symbol name.now size kind)) }
{
    object.add_symbol(name.as_bytes(), outside_symbol(size, kind))?;
    Ok(())
}

// A symbol that another file defines, under any name.
fn outside_symbol(size: u64, kind: SymbolKind) -> Symbol
    ensures { result ≡ outside_symbol size kind }
{
    Symbol {
        value: 0,
        size,
        kind,
        scope: SymbolScope::Unknown,
        weak: false,
        section: SymbolSection::Undefined,
        no_dead_strip: false,
    }
}

// Adds a symbol that the linker itself defines.
fn add_known(object: &mut Object, symbol: KnownSymbol) -> Result<(), AllocError>
    ensures { OnOk result (object.new ≡ with_symbol object.old (known_symbol symbol)) }
{
    match symbol {
        KnownSymbol::ElfGlobalOffsetTable => {
            add_outside(object, "_GLOBAL_OFFSET_TABLE_", 0, SymbolKind::Data)
        }
        KnownSymbol::CoffTlsIndex => add_outside(object, "_tls_index", 32, SymbolKind::Tls),
    }
}

// A place inside a function, under any name.
fn inner_symbol(value: u128, section: SymbolSection) -> Symbol
    ensures { result ≡ inner_symbol value section }
{
    Symbol {
        value,
        size: 0,
        kind: SymbolKind::Label,
        scope: SymbolScope::Compilation,
        weak: false,
        section,
        no_dead_strip: false,
    }
}
