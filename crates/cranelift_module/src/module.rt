//! What every back end offers: declarations and definitions over one link state.

ghost use Rattle.std.specs.Prelude.{◌≡◌, ◌<◌, ◌++◌, ◌∷◌, ℕ, [], length, slice_get, None, Some, IfOk, IfErr, OnOk, OnErr};
ghost use Rattle.std.specs.List.{position_from};
ghost use Rattle.ir_core.specs.Target.{default_call_conv, pointer_bytes};
ghost use Rattle.cranelift_module.specs.LinkState.{LinkState, is_function_named, is_data_named};
ghost use Rattle.cranelift_module.specs.Declarations.{declared_under};
ghost use Rattle.cranelift_module.specs.IsCall.{IsCall};
ghost use Rattle.cranelift_module.specs.Call as calls;
ghost use Rattle.cranelift_module.specs.Imports.{function_imported, data_imported};
ghost use Rattle.cranelift_module.specs.Refusal.{Tells};
ghost use Rattle.cranelift_module.specs.declared.reloc.ModuleRelocTarget.TheVariants.{User};

use crate::imports::{import_called, import_value};
use crate::{
    DataDescription, DataId, FuncId, FuncOrDataId, Linkage, ModuleDeclarations, ModuleReloc,
    ModuleRelocTarget, ModuleResult,
};
use ir_core::{
    FuncRef, Function, GlobalValue, Signature, TargetFrontendConfig, TargetIsa, UserExternalName,
};
use std::alloc::Global;

/// A back end: what is declared and defined makes up its link state. A refused call leaves that state
/// as it was.
pub trait Module {
    /// All that the calls have left.
    ghost state: { Self → LinkState };

    /// What no call changes is the same in both.
    ghost Keeps: { Self → Self → Type 0 };

    /// The target that files are made for.
    fn isa(&self) -> &TargetIsa
        ensures { result.now ≡ (state self.now).target };

    /// What is declared.
    fn declarations(&self) -> &ModuleDeclarations
        ensures { result.now ≡ record { functions = (state self.now).functions; objects = (state self.now).objects } };

    /// Declares a function. A new name gets the next number; a known one keeps its number and its
    /// signature, and gets the greatest linkage.
    fn declare_function(
        &mut self,
        name: &str,
        linkage: Linkage,
        signature: &Signature,
    ) -> ModuleResult<FuncId>
        requires { length (state self.old).functions < 4294967295 }
        ensures call { IsCall result (state self.old) (state self.new) (calls.declare_function name.now linkage signature.now) }
        ensures keeps { Keeps self.old self.new }
        ensures id { IfOk result (λ id. position_from (is_function_named name.now) 0 (state self.new).functions ≡ Some id) };

    /// Declares a function without a name: the next number, Local.
    fn declare_anonymous_function(&mut self, signature: &Signature) -> ModuleResult<FuncId>
        requires { length (state self.old).functions < 4294967295 }
        ensures call { IsCall result (state self.old) (state self.new) (calls.declare_anonymous_function signature.now) }
        ensures keeps { Keeps self.old self.new }
        ensures id { IfOk result (λ id. id ≡ length (state self.old).functions) };

    /// Declares a data object. A new name gets the next number of a data object; a known one keeps its
    /// number and its thread-local mark, gets the greatest linkage, and is writable where one of its
    /// declarations says so.
    fn declare_data(
        &mut self,
        name: &str,
        linkage: Linkage,
        writable: bool,
        tls: bool,
    ) -> ModuleResult<DataId>
        requires { length (state self.old).objects < 4294967295 }
        ensures call { IsCall result (state self.old) (state self.new) (calls.declare_data name.now linkage writable tls) }
        ensures keeps { Keeps self.old self.new }
        ensures id { IfOk result (λ id. position_from (is_data_named name.now) 0 (state self.new).objects ≡ Some id) };

    /// Declares a data object without a name: the next number, Local.
    fn declare_anonymous_data(&mut self, writable: bool, tls: bool) -> ModuleResult<DataId>
        requires { length (state self.old).objects < 4294967295 }
        ensures call { IsCall result (state self.old) (state self.new) (calls.declare_anonymous_data writable tls) }
        ensures keeps { Keeps self.old self.new }
        ensures id { IfOk result (λ id. id ≡ length (state self.old).objects) };

    /// Defines a declared function by its bytes and its relocations. The alignment is in bytes. What the relocations go
    /// to is looked up when the module is finished.
    fn define_function_bytes(
        &mut self,
        func_id: FuncId,
        alignment: u64,
        bytes: &[u8],
        relocs: &[ModuleReloc],
    ) -> ModuleResult<()>
        ensures call { IsCall result (state self.old) (state self.new) (calls.define_function func_id alignment bytes.now relocs.now) }
        ensures keeps { Keeps self.old self.new };

    /// Defines a declared data object by its description. It is writable where a declaration before this call says
    /// so. What the description imports is looked up when the module is finished.
    fn define_data(&mut self, data_id: DataId, desc: &DataDescription) -> ModuleResult<()>
        ensures call { IsCall result (state self.old) (state self.new) (calls.define_data data_id desc.now) }
        ensures keeps { Keeps self.old self.new };

    /// What is declared under a name.
    fn get_name(&self, name: &str) -> Option<FuncOrDataId>
        ensures { result ≡ declared_under (record { functions = (state self.now).functions; objects = (state self.now).objects }) name.now }
    {
        self.declarations().get_name(name)
    }

    /// What a front end needs to know of the target.
    fn target_config(&self) -> TargetFrontendConfig
        ensures { result ≡ record { default_call_conv = default_call_conv (state self.now).target.triple; pointer_bytes = pointer_bytes (state self.now).target.triple.architecture } }
    {
        self.isa().frontend_config()
    }

    /// A signature without values, with the target's calling convention.
    fn make_signature(&self, alloc: Global) -> Signature
        ensures { result ≡ record { params = []; returns = []; call_conv = default_call_conv (state self.now).target.triple } }
    {
        Signature::new(alloc, self.isa().default_call_conv())
    }

    /// Takes all values out of a signature, and gives it the target's calling convention.
    fn clear_signature(&self, signature: &mut Signature)
        ensures { signature.new ≡ record { params = []; returns = []; call_conv = default_call_conv (state self.now).target.triple } }
    {
        signature.clear(self.isa().default_call_conv());
    }

    /// Imports a declared function into a function, and answers its reference there: the signature, the user
    /// name of namespace 0 and the function's number, where it is not there yet, and the call, which is
    /// colocated where a definition here is final. Only memory can run out; then the function's lists are
    /// as they were. Each list that gets an entry has fewer than 4,294,967,295.
    fn declare_func_in_func(
        &mut self,
        func_id: FuncId,
        func: &mut Function,
    ) -> ModuleResult<FuncRef>
        requires declared { func_id < length (state self.old).functions }
        requires names { length (func.old).lists.user_named_funcs < 4294967295 }
        requires signatures { length (func.old).lists.signatures < 4294967295 }
        requires functions { length (func.old).lists.ext_funcs < 4294967295 }
        ensures state { state self.new ≡ state self.old }
        ensures keeps { Keeps self.old self.new }
        ensures ok { OnOk result ((func.new).lists ≡ function_imported (slice_get (state self.old).functions func_id) func_id (func.old).lists) }
        ensures place { IfOk result (λ place. place ≡ length (func.old).lists.ext_funcs) }
        ensures refused { IfErr result (λ e. Tells e None) }
        ensures kept { OnErr result ((func.new).lists ≡ (func.old).lists) }
    {
        let declaration = self.declarations().get_function_decl(func_id);
        let signature = declaration.signature().copy()?;
        let colocated = declaration.linkage().is_final();
        func.reserve_one()?;
        let name = UserExternalName {
            namespace: 0,
            index: func_id.as_u32(),
        };
        Ok(import_called(func, name, signature, colocated))
    }

    /// Imports a declared data object into a function, and answers its reference there: the user name of
    /// namespace 1 and the data object's number, where it is not there yet, and the value at offset 0,
    /// which is colocated where a definition here is final. Only memory can run out; then the function's
    /// lists are as they were. Each list that gets an entry has fewer than 4,294,967,295.
    fn declare_data_in_func(
        &self,
        data_id: DataId,
        func: &mut Function,
    ) -> ModuleResult<GlobalValue>
        requires declared { data_id < length (state self.now).objects }
        requires names { length (func.old).lists.user_named_funcs < 4294967295 }
        requires values { length (func.old).lists.global_values < 4294967295 }
        ensures ok { OnOk result ((func.new).lists ≡ data_imported (slice_get (state self.now).objects data_id) data_id (func.old).lists) }
        ensures place { IfOk result (λ place. place ≡ length (func.old).lists.global_values) }
        ensures refused { IfErr result (λ e. Tells e None) }
        ensures kept { OnErr result ((func.new).lists ≡ (func.old).lists) }
    {
        let declaration = self.declarations().get_data_decl(data_id);
        let colocated = declaration.linkage().is_final();
        let tls = declaration.tls();
        func.reserve_one()?;
        let name = UserExternalName {
            namespace: 1,
            index: data_id.as_u32(),
        };
        Ok(import_value(func, name, colocated, tls))
    }

    /// Imports a declared function into a data description, and answers its reference there. Only memory
    /// can run out; then the description is as it was.
    fn declare_func_in_data(
        &self,
        func_id: FuncId,
        desc: &mut DataDescription,
    ) -> ModuleResult<FuncRef>
        requires declared { func_id < length (state self.now).functions }
        requires few { length (desc.old).function_decls < 4294967295 }
        ensures ok { OnOk result (desc.new ≡ record desc.old { function_decls = (desc.old).function_decls ++ User 0 func_id ∷ [] }) }
        ensures place { IfOk result (λ place. place ≡ length (desc.old).function_decls) }
        ensures refused { IfErr result (λ e. Tells e None) }
        ensures kept { OnErr result (desc.new ≡ desc.old) }
    {
        Ok(desc.import_function(ModuleRelocTarget::from(func_id))?)
    }

    /// Imports a declared data object into a data description, and answers its reference there. Only memory
    /// can run out; then the description is as it was.
    fn declare_data_in_data(
        &self,
        data_id: DataId,
        desc: &mut DataDescription,
    ) -> ModuleResult<GlobalValue>
        requires declared { data_id < length (state self.now).objects }
        requires few { length (desc.old).data_decls < 4294967295 }
        ensures ok { OnOk result (desc.new ≡ record desc.old { data_decls = (desc.old).data_decls ++ User 1 data_id ∷ [] }) }
        ensures place { IfOk result (λ place. place ≡ length (desc.old).data_decls) }
        ensures refused { IfErr result (λ e. Tells e None) }
        ensures kept { OnErr result (desc.new ≡ desc.old) }
    {
        Ok(desc.import_global_value(ModuleRelocTarget::from(data_id))?)
    }

    ghost keeps_same: { (m : Self) → Keeps m m };

    ghost keeps_on: { (a b c : Self) → Keeps a b → Keeps b c → Keeps a c };
}

impl<M: Module> Module for &mut M {
    ghost state = { λ m. M.state m.now };

    ghost Keeps = { λ a b. M.Keeps a.now b.now };

    ghost keeps_same = { λ m. M.keeps_same m.now };

    ghost keeps_on = { λ a b c. M.keeps_on a.now b.now c.now };

    fn isa(&self) -> &TargetIsa {
        (**self).isa()
    }

    fn declarations(&self) -> &ModuleDeclarations {
        (**self).declarations()
    }

    fn declare_function(
        &mut self,
        name: &str,
        linkage: Linkage,
        signature: &Signature,
    ) -> ModuleResult<FuncId> {
        (**self).declare_function(name, linkage, signature)
    }

    fn declare_anonymous_function(&mut self, signature: &Signature) -> ModuleResult<FuncId> {
        (**self).declare_anonymous_function(signature)
    }

    fn declare_data(
        &mut self,
        name: &str,
        linkage: Linkage,
        writable: bool,
        tls: bool,
    ) -> ModuleResult<DataId> {
        (**self).declare_data(name, linkage, writable, tls)
    }

    fn declare_anonymous_data(&mut self, writable: bool, tls: bool) -> ModuleResult<DataId> {
        (**self).declare_anonymous_data(writable, tls)
    }

    fn define_function_bytes(
        &mut self,
        func_id: FuncId,
        alignment: u64,
        bytes: &[u8],
        relocs: &[ModuleReloc],
    ) -> ModuleResult<()> {
        (**self).define_function_bytes(func_id, alignment, bytes, relocs)
    }

    fn define_data(&mut self, data_id: DataId, desc: &DataDescription) -> ModuleResult<()> {
        (**self).define_data(data_id, desc)
    }
}

impl<M: Module> Module for Box<M> {
    ghost state = { λ m. M.state m.value };

    ghost Keeps = { λ a b. M.Keeps a.value b.value };

    ghost keeps_same = { λ m. M.keeps_same m.value };

    ghost keeps_on = { λ a b c. M.keeps_on a.value b.value c.value };

    fn isa(&self) -> &TargetIsa {
        (**self).isa()
    }

    fn declarations(&self) -> &ModuleDeclarations {
        (**self).declarations()
    }

    fn declare_function(
        &mut self,
        name: &str,
        linkage: Linkage,
        signature: &Signature,
    ) -> ModuleResult<FuncId> {
        (**self).declare_function(name, linkage, signature)
    }

    fn declare_anonymous_function(&mut self, signature: &Signature) -> ModuleResult<FuncId> {
        (**self).declare_anonymous_function(signature)
    }

    fn declare_data(
        &mut self,
        name: &str,
        linkage: Linkage,
        writable: bool,
        tls: bool,
    ) -> ModuleResult<DataId> {
        (**self).declare_data(name, linkage, writable, tls)
    }

    fn declare_anonymous_data(&mut self, writable: bool, tls: bool) -> ModuleResult<DataId> {
        (**self).declare_anonymous_data(writable, tls)
    }

    fn define_function_bytes(
        &mut self,
        func_id: FuncId,
        alignment: u64,
        bytes: &[u8],
        relocs: &[ModuleReloc],
    ) -> ModuleResult<()> {
        (**self).define_function_bytes(func_id, alignment, bytes, relocs)
    }

    fn define_data(&mut self, data_id: DataId, desc: &DataDescription) -> ModuleResult<()> {
        (**self).define_data(data_id, desc)
    }
}
