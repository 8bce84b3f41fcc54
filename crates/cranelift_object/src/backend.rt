//! The module that makes an object file.

ghost use Rattle.std.specs.Prelude.{◌≡◌, ◌≢◌, refl, ◌<◌, ◌++◌, ◌∷◌, ℕ, [], false, vec_len, vec_capacity, None, Some, length, slice_get, IfOk, IfErr, OnOk, OnErr};
ghost use Rattle.std.proofs.Common.{◌∙◌};
ghost use Rattle.std.specs.List.{position_from};
ghost use Rattle.cranelift_module.specs.LinkState.{LinkState, state_of, is_function_named, is_data_named};
ghost use Rattle.cranelift_module.specs.IsCall.{IsCall};
ghost use Rattle.cranelift_module.specs.Call as calls;
ghost use Rattle.cranelift_module.specs.Refusal.{Tells, is_defined};
ghost use Rattle.cranelift_module.specs.Definitions.{is_writable, is_thread_local};
ghost use Rattle.cranelift_module.specs.declared.identifiers.FuncOrDataId.TheVariants.{Func, Data};

use crate::ObjectBuilder;
use crate::definition::{Definition, bytes_in, pointers_of};
use cranelift_module::{
    DataDescription, DataId, FuncId, FuncOrDataId, Linkage, Module, ModuleDeclarations,
    ModuleReloc, ModuleResult, check_data_definable, check_definable, check_no_zero_byte,
    check_relocs,
};
use ir_core::{Signature, TargetIsa};
use std::marker::Model;

/// A module whose calls are kept until it is finished. A contract sees its settings and its link state.
#[derive(Drop)]
pub struct ObjectModule {
    pub(crate) builder: ObjectBuilder,
    pub(crate) declarations: ModuleDeclarations,
    pub(crate) created: Vec<FuncOrDataId>,
    pub(crate) definitions: Vec<Definition>,
    pub(crate) defined: Vec<bool>,
    pub(crate) defined_objects: Vec<bool>,
}

impl Model for ObjectModule {
    ghost use Rattle.cranelift_object.specs.Opened.{OpenModule};

    ghost Value = { OpenModule };

    ghost use Rattle.cranelift_object.specs.Kept.{IsModule};
    ghost use Rattle.cranelift_object.specs.ModuleView.{module_view, marks_view};

    ghost view = { module_view };

    ghost invariant = { λ m. IsModule (module_view m) (marks_view m) };
}

impl ObjectModule {
    /// A module without declarations. Only memory can run out.
    #[tactic(auto, using(crate::proofs::KeptLaws::kept_none, crate::proofs::KeptLaws::state_of_none))]
    pub fn new(builder: ObjectBuilder) -> ModuleResult<Self>
        ensures ok { IfOk result (λ m. m ≡ record { settings = builder.settings; state = state_of builder.target [] }) }
        ensures err { IfErr result (λ e. Tells e None) }
    {
        let alloc = builder.alloc();
        Ok(ObjectModule {
            builder,
            declarations: ModuleDeclarations::new(alloc),
            created: Vec::new(alloc),
            definitions: Vec::new(alloc),
            defined: Vec::new(alloc),
            defined_objects: Vec::new(alloc),
        })
    }

    // Whether a function has a definition.
    pub(crate) fn is_defined(&self, function: FuncId) -> bool
        ensures { result ≡ is_defined (self.now).state (Func function) }
    {
        self.defined
            .get(function.as_u32() as usize)
            .copied()
            .unwrap_or(false)
    }

    // Whether a data object has a definition.
    pub(crate) fn is_object_defined(&self, object: DataId) -> bool
        ensures { result ≡ is_defined (self.now).state (Data object) }
    {
        self.defined_objects
            .get(object.as_u32() as usize)
            .copied()
            .unwrap_or(false)
    }

    // Whether a data object is writable by its declarations so far.
    pub(crate) fn is_writable(&self, object: DataId) -> bool
        ensures { result ≡ is_writable (slice_get (self.now).state.objects object) }
    {
        match self.declarations.data(object) {
            Some(declaration) => declaration.writable(),
            None => false,
        }
    }

    // Whether a data object is thread-local.
    pub(crate) fn is_thread_local(&self, object: DataId) -> bool
        ensures { result ≡ is_thread_local (slice_get (self.now).state.objects object) }
    {
        match self.declarations.data(object) {
            Some(declaration) => declaration.tls(),
            None => false,
        }
    }
}

impl Module for ObjectModule {
    ghost state = { λ m. m.state };

    ghost Keeps = { λ a b. b.settings ≡ a.settings };

    ghost keeps_same = { λ m. refl };

    ghost keeps_on = { λ a b c h k. k ∙ h };

    fn isa(&self) -> &TargetIsa {
        self.builder.isa()
    }

    fn declarations(&self) -> &ModuleDeclarations {
        &self.declarations
    }

    #[tactic(auto, unfolding(cranelift_module::specs::LinkState::step, cranelift_module::specs::Refusal::refusal))]
    fn declare_function(
        &mut self,
        name: &str,
        linkage: Linkage,
        signature: &Signature,
    ) -> ModuleResult<FuncId> {
        if let Err(error) = check_no_zero_byte(name.as_bytes()) {
            return Err(error);
        }
        self.created.reserve(1)?;
        self.defined.reserve(1)?;
        let declared = match self.declarations.declare_function(name, linkage, signature) {
            Ok(declared) => declared,
            Err(error) => return Err(error),
        };
        let id = declared.0;
        note_new(
            &mut self.created,
            &mut self.defined,
            FuncOrDataId::Func(id),
            id.as_u32(),
        );
        Ok(id)
    }

    #[tactic(auto, unfolding(cranelift_module::specs::LinkState::step, cranelift_module::specs::Refusal::refusal))]
    fn declare_anonymous_function(&mut self, signature: &Signature) -> ModuleResult<FuncId> {
        self.created.reserve(1)?;
        self.defined.reserve(1)?;
        let id = self.declarations.declare_anonymous_function(signature)?;
        note(&mut self.created, &mut self.defined, FuncOrDataId::Func(id));
        Ok(id)
    }

    #[tactic(auto, unfolding(cranelift_module::specs::LinkState::step, cranelift_module::specs::Refusal::refusal))]
    fn declare_data(
        &mut self,
        name: &str,
        linkage: Linkage,
        writable: bool,
        tls: bool,
    ) -> ModuleResult<DataId> {
        if let Err(error) = check_no_zero_byte(name.as_bytes()) {
            return Err(error);
        }
        self.created.reserve(1)?;
        self.defined_objects.reserve(1)?;
        let declared = match self.declarations.declare_data(name, linkage, writable, tls) {
            Ok(declared) => declared,
            Err(error) => return Err(error),
        };
        let id = declared.0;
        note_new(
            &mut self.created,
            &mut self.defined_objects,
            FuncOrDataId::Data(id),
            id.as_u32(),
        );
        Ok(id)
    }

    #[tactic(auto, unfolding(cranelift_module::specs::LinkState::step, cranelift_module::specs::Refusal::refusal))]
    fn declare_anonymous_data(&mut self, writable: bool, tls: bool) -> ModuleResult<DataId> {
        self.created.reserve(1)?;
        self.defined_objects.reserve(1)?;
        let id = self.declarations.declare_anonymous_data(writable, tls)?;
        note(
            &mut self.created,
            &mut self.defined_objects,
            FuncOrDataId::Data(id),
        );
        Ok(id)
    }

    #[tactic(auto, unfolding(cranelift_module::specs::LinkState::step, cranelift_module::specs::Refusal::refusal))]
    fn define_function_bytes(
        &mut self,
        func_id: FuncId,
        alignment: u64,
        bytes: &[u8],
        relocs: &[ModuleReloc],
    ) -> ModuleResult<()> {
        let alloc = self.builder.alloc();
        let defined = self.is_defined(func_id);
        if let Err(error) = check_definable(
            alloc,
            &self.declarations,
            defined,
            func_id,
            alignment,
        ) {
            return Err(error);
        }
        if let Err(error) = check_relocs(alloc, self.builder.isa(), Some(bytes.len()), relocs) {
            return Err(error);
        }
        let definition = Definition::of_function(alloc, func_id, alignment, bytes, relocs)?;
        self.definitions.push(definition)?;
        self.defined[func_id.as_u32() as usize] = true;
        Ok(())
    }

    #[tactic(auto, unfolding(cranelift_module::specs::LinkState::step, cranelift_module::specs::Refusal::refusal))]
    fn define_data(&mut self, data_id: DataId, desc: &DataDescription) -> ModuleResult<()> {
        let alloc = self.builder.alloc();
        let format = self.builder.isa().triple().binary_format;
        let defined = self.is_object_defined(data_id);
        if let Err(error) = check_data_definable(
            alloc,
            format,
            &self.declarations,
            defined,
            data_id,
            desc,
        ) {
            return Err(error);
        }
        let relocs = pointers_of(alloc, desc)?;
        if let Err(error) = check_relocs(
            alloc,
            self.builder.isa(),
            bytes_in(desc.init()),
            &relocs,
        ) {
            return Err(error);
        }
        let writable = self.is_writable(data_id);
        let definition = Definition::of_data(alloc, data_id, desc, relocs, writable)?;
        self.definitions.push(definition)?;
        self.defined_objects[data_id.as_u32() as usize] = true;
        Ok(())
    }
}

// Notes an identifier, where none of its number was noted. Room was made before.
fn note_new(created: &mut Vec<FuncOrDataId>, defined: &mut Vec<bool>, id: FuncOrDataId, number: u32)
    requires created { vec_len created.old < vec_capacity created.old }
    requires defined { vec_len defined.old < vec_capacity defined.old }
    ensures new { number ≡ length defined.old.items → (created.new.items ≡ created.old.items ++ id ∷ []) × (defined.new.items ≡ defined.old.items ++ false ∷ []) }
    ensures known { number ≢ length defined.old.items → (created.new.items ≡ created.old.items) × (defined.new.items ≡ defined.old.items) }
{
    if number as usize == defined.len() {
        note(created, defined, id);
    }
}

// A new identifier has no definition. Room for both was made before.
fn note(created: &mut Vec<FuncOrDataId>, defined: &mut Vec<bool>, id: FuncOrDataId)
    requires created { vec_len created.old < vec_capacity created.old }
    requires defined { vec_len defined.old < vec_capacity defined.old }
    ensures created { created.new.items ≡ created.old.items ++ id ∷ [] }
    ensures defined { defined.new.items ≡ defined.old.items ++ false ∷ [] }
{
    if created.push(id).is_err() || defined.push(false).is_err() {
        unreachable!()
    }
}
