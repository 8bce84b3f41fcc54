//! What a finished module gives.

ghost use Rattle.std.specs.Prelude.{◌≡◌, ◌<◌, ℕ, Bool, Some, IfOk, length, slice_get, option_map};
ghost use Rattle.cranelift_object.specs.Emitted.{IsObjectFile, IsJudgedIn};
ghost use Rattle.cranelift_object.specs.Product.{IsWritable};

use cranelift_module::{DataId, FuncId};
use ir_core::BinaryFormat;
use object_core::{EmitError, Object, SymbolId};
use object_elf::emit_elf;
use object_macho::emit_macho;
use std::alloc::Global;
use std::marker::Model;

/// The object of a finished module, with the symbols of its functions and data objects.
#[derive(Drop)]
pub struct ObjectProduct {
    object: Object,
    functions: Vec<(SymbolId, bool)>,
    data_objects: Vec<(SymbolId, bool)>,
}

impl Model for ObjectProduct {
    ghost use Rattle.cranelift_object.specs.Opened.{ProductData};

    ghost Value = { ProductData };

    ghost use Rattle.cranelift_object.specs.Product.{IsWritable};

    ghost view = { λ p. record { object = p.object; functions = p.functions.items; data_objects = p.data_objects.items } };

    ghost invariant = { λ p. IsWritable p.object };
}

impl ObjectProduct {
    pub(crate) fn new(
        object: Object,
        functions: Vec<(SymbolId, bool)>,
        data_objects: Vec<(SymbolId, bool)>,
    ) -> ObjectProduct
        requires { IsWritable object }
        ensures { result ≡ record { object = object; functions = functions.items; data_objects = data_objects.items } }
    {
        ObjectProduct {
            object,
            functions,
            data_objects,
        }
    }

    /// The bytes of the object's file. They hold exactly the link table of the object. The first limit of the format
    /// that is reached is refused.
    #[tactic(auto, using(crate::proofs::FormatLaws::formed_elf, crate::proofs::FormatLaws::formed_macho))]
    pub fn emit(self, alloc: Global) -> Result<Vec<u8>, EmitError>
        ensures holds { IfOk result (λ file. IsObjectFile self.object file.items) }
        ensures limits { IsJudgedIn (self.object).format result self.object }
    {
        match self.object.format() {
            BinaryFormat::Elf => emit_elf(alloc, &self.object),
            BinaryFormat::Macho => emit_macho(alloc, &self.object),
            _ => unreachable!(),
        }
    }

    /// The object.
    pub fn object(&self) -> &Object
        ensures { result.now ≡ (self.now).object }
    {
        &self.object
    }

    /// For each function by number its symbol, and whether it is defined.
    pub fn functions(&self) -> &[(SymbolId, bool)]
        ensures { result.now ≡ (self.now).functions }
    {
        &self.functions
    }

    /// For each data object by number its symbol, and whether it is defined.
    pub fn data_objects(&self) -> &[(SymbolId, bool)]
        ensures { result.now ≡ (self.now).data_objects }
    {
        &self.data_objects
    }

    /// The symbol of a declared function.
    pub fn function_symbol(&self, id: FuncId) -> SymbolId
        requires { id < length (self.now).functions }
        ensures { option_map (λ (row : ℕ × Bool). row.0) (slice_get (self.now).functions id) ≡ Some result }
    {
        self.functions[id.as_u32() as usize].0
    }

    /// The symbol of a declared data object.
    pub fn data_symbol(&self, id: DataId) -> SymbolId
        requires { id < length (self.now).data_objects }
        ensures { option_map (λ (row : ℕ × Bool). row.0) (slice_get (self.now).data_objects id) ≡ Some result }
    {
        self.data_objects[id.as_u32() as usize].0
    }
}
