//! What a function imports: four lists to which records are appended.

ghost use Rattle.std.specs.Prelude.{◌≡◌, ◌<◌, ◌≤◌, ◌+◌, ◌-◌, [], ◌∷◌, ◌++◌, length, IfOk, IfSome, OnOk, OnErr, IsOk, max, vec_len, vec_capacity};
ghost use Rattle.std.specs.List.{position_from};
ghost use Rattle.ir_core.specs.Function.{HasRoom, is_name, name_place, empty_function, after_name, after_signature, after_function, after_value, with_room};

use crate::{
    ExtFuncData, ExternalName, FuncRef, GlobalValue, GlobalValueData, SigRef, Signature,
    UserExternalName, UserExternalNameRef,
};
use std::alloc::{AllocError, Global};
use std::marker::Model;

/// What a function imports. A contract sees the four lists, and beside each how many more appends to it
/// are sure to find room: as many as [`Function::reserve_one`] made room for and no append has used.
#[derive(Debug, Drop)]
pub struct Function {
    user_named_funcs: Vec<UserExternalName>,
    signatures: Vec<Signature>,
    ext_funcs: Vec<ExtFuncData>,
    global_values: Vec<GlobalValueData>,
    room_for_names: usize,
    room_for_signatures: usize,
    room_for_functions: usize,
    room_for_values: usize,
}

impl Model for Function {
    ghost use Rattle.ir_core.specs.Function.{FunctionData, function_view, HasCapacity};

    ghost Value = { FunctionData };

    ghost view = { function_view };

    ghost invariant = { HasCapacity };
}

impl Function {
    /// A function that imports nothing.
    pub fn new(alloc: Global) -> Self
        ensures { result ≡ empty_function }
    {
        Function {
            user_named_funcs: Vec::new(alloc),
            signatures: Vec::new(alloc),
            ext_funcs: Vec::new(alloc),
            global_values: Vec::new(alloc),
            room_for_names: 0,
            room_for_signatures: 0,
            room_for_functions: 0,
            room_for_values: 0,
        }
    }

    /// The user names, in order of their numbers.
    pub fn user_named_funcs(&self) -> &[UserExternalName]
        ensures { result.now ≡ (self.now).lists.user_named_funcs }
    {
        &self.user_named_funcs
    }

    /// The signatures, in order of their numbers.
    pub fn signatures(&self) -> &[Signature]
        ensures { result.now ≡ (self.now).lists.signatures }
    {
        &self.signatures
    }

    /// The functions that are called, in order of their numbers.
    pub fn ext_funcs(&self) -> &[ExtFuncData]
        ensures { result.now ≡ (self.now).lists.ext_funcs }
    {
        &self.ext_funcs
    }

    /// The global values, in order of their numbers.
    pub fn global_values(&self) -> &[GlobalValueData]
        ensures { result.now ≡ (self.now).lists.global_values }
    {
        &self.global_values
    }

    /// The place of an equal user name; where there is none, the name is appended.
    pub fn declare_imported_user_function(
        &mut self,
        name: UserExternalName,
    ) -> Result<UserExternalNameRef, AllocError>
        requires { length (self.old).lists.user_named_funcs < 4294967295 }
        ensures ok { OnOk result (self.new ≡ after_name self.old name) }
        ensures place { IfOk result (λ place. place ≡ name_place name (self.old).lists.user_named_funcs) }
        ensures err { OnErr result (self.new ≡ self.old) }
        ensures succeeds { 0 < (self.old).room.user_named_funcs → IsOk result }
    {
        if let Some(place) = place_of(&self.user_named_funcs, name) {
            return Ok(UserExternalNameRef::from_u32(place as u32));
        }
        let place = append(&mut self.user_named_funcs, &mut self.room_for_names, name)?;
        Ok(UserExternalNameRef::from_u32(place))
    }

    /// Appends a signature.
    pub fn import_signature(&mut self, signature: Signature) -> Result<SigRef, AllocError>
        requires { length (self.old).lists.signatures < 4294967295 }
        ensures ok { OnOk result (self.new ≡ after_signature self.old signature) }
        ensures place { IfOk result (λ place. place ≡ length (self.old).lists.signatures) }
        ensures err { OnErr result (self.new ≡ self.old) }
        ensures succeeds { 0 < (self.old).room.signatures → IsOk result }
    {
        let place = append(
            &mut self.signatures,
            &mut self.room_for_signatures,
            signature,
        )?;
        Ok(SigRef::from_u32(place))
    }

    /// Appends a function that is called.
    pub fn import_function(&mut self, callee: ExtFuncData) -> Result<FuncRef, AllocError>
        requires { length (self.old).lists.ext_funcs < 4294967295 }
        ensures ok { OnOk result (self.new ≡ after_function self.old callee) }
        ensures place { IfOk result (λ place. place ≡ length (self.old).lists.ext_funcs) }
        ensures err { OnErr result (self.new ≡ self.old) }
        ensures succeeds { 0 < (self.old).room.ext_funcs → IsOk result }
    {
        // The checker has to be shown the type of the name that the record holds.
        let name: ExternalName = callee.name;
        let callee = ExtFuncData { name, ..callee };
        let place = append(&mut self.ext_funcs, &mut self.room_for_functions, callee)?;
        Ok(FuncRef::from_u32(place))
    }

    /// Appends a global value.
    pub fn create_global_value(&mut self, value: GlobalValueData) -> Result<GlobalValue, AllocError>
        requires { length (self.old).lists.global_values < 4294967295 }
        ensures ok { OnOk result (self.new ≡ after_value self.old value) }
        ensures place { IfOk result (λ place. place ≡ length (self.old).lists.global_values) }
        ensures err { OnErr result (self.new ≡ self.old) }
        ensures succeeds { 0 < (self.old).room.global_values → IsOk result }
    {
        // The checker has to be shown the type of the name that the record holds.
        let name: ExternalName = value.name;
        let value = GlobalValueData { name, ..value };
        let place = append(&mut self.global_values, &mut self.room_for_values, value)?;
        Ok(GlobalValue::from_u32(place))
    }

    /// Makes room for one more entry in each of the four lists, so that the next append to each isn't
    /// refused.
    pub fn reserve_one(&mut self) -> Result<(), AllocError>
        ensures ok { OnOk result (self.new ≡ with_room self.old) }
        ensures err { OnErr result (self.new ≡ self.old) }
        ensures room { OnOk result (HasRoom (self.new).room) }
    {
        let names = room_in(&mut self.user_named_funcs, self.room_for_names)?;
        let signatures = room_in(&mut self.signatures, self.room_for_signatures)?;
        let functions = room_in(&mut self.ext_funcs, self.room_for_functions)?;
        let values = room_in(&mut self.global_values, self.room_for_values)?;
        self.room_for_names = names;
        self.room_for_signatures = signatures;
        self.room_for_functions = functions;
        self.room_for_values = values;
        Ok(())
    }
}

// The place of a name among others.
fn place_of(names: &[UserExternalName], name: UserExternalName) -> Option<usize>
    ensures first { result ≡ position_from (is_name name) 0 names.now }
    ensures below { IfSome result (λ place. place < length names.now) }
{
    names.iter().position(|other| other.namespace == name.namespace && other.index == name.index)
}

// Appends an entry, which uses up room for one where there is some, and answers its place.
fn append<T: Drop>(list: &mut Vec<T>, room: &mut usize, entry: T) -> Result<u32, AllocError>
    requires few { length (list.old).items < 4294967295 }
    requires room { vec_len list.old + room.old ≤ vec_capacity list.old }
    ensures ok { OnOk result ((list.new).items ≡ (list.old).items ++ entry ∷ []) }
    ensures lowered { OnOk result (room.new ≡ room.old - 1) }
    ensures place { IfOk result (λ place. place ≡ length (list.old).items) }
    ensures err { OnErr result ((list.new).items ≡ (list.old).items) }
    ensures kept { OnErr result (room.new ≡ room.old) }
    ensures room { vec_len list.new + room.new ≤ vec_capacity list.new }
    ensures succeeds { 0 < room.old → IsOk result }
{
    let place = list.len() as u32;
    list.push(entry)?;
    *room = room.saturating_sub(1);
    Ok(place)
}

// Makes room for an entry, and answers for how many there is room then: for one, or as many as before.
fn room_in<T: Drop>(list: &mut Vec<T>, room: usize) -> Result<usize, AllocError>
    requires { vec_len list.old + room ≤ vec_capacity list.old }
    ensures items { (list.new).items ≡ (list.old).items }
    ensures more { IfOk result (λ now. now ≡ max room 1) }
    ensures room { IfOk result (λ now. vec_len list.new + now ≤ vec_capacity list.new) }
    ensures kept { vec_len list.new + room ≤ vec_capacity list.new }
{
    list.reserve(1)?;
    Ok(room.max(1))
}
