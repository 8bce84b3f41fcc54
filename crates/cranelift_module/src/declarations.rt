//! The declarations of a module: functions and data objects by number, and their names.

ghost use Rattle.std.specs.Prelude.{◌≡◌, ◌<◌, ◌≤◌, ◌+◌, ◌++◌, ◌∷◌, [], ℕ, Some, None, IfOk, IfErr, OnOk, OnErr, length, option_map, slice_get, string_bytes, string_cmp, option_copied, is_some, true, false};
ghost use Rattle.std.specs.BTreeMap.{IsUnchanged, Updates, get_by_text};
ghost use Rattle.cranelift_module.specs.declared.identifiers.FuncOrDataId.TheVariants.{Func, Data};
ghost use Rattle.std.specs.List.{find, list_any, position_from};
ghost use Rattle.cranelift_module.specs.declared.linkage.Linkage.TheVariants.{Local};
ghost use Rattle.cranelift_module.specs.LinkState.{is_function_named, is_data_named, with_first, raised_function, raised_data};
ghost use Rattle.cranelift_module.specs.Declarations.{changed_at, function_found, data_found, numbered};
ghost use Rattle.cranelift_module.specs.Refusal.{Tells, changes_signature, changes_tls, function_clash, data_clash};

use crate::declaration_json::{declarations_value, functions_at, names_of, objects_at, version_of};
use crate::{
    DataDeclaration, DataId, DataObjects, FuncId, FuncOrDataId, FunctionDeclaration, Functions,
    JsonCause, Linkage, ModuleError, ModuleRelocTarget, ModuleResult,
};
use ir_core::Signature;
use serde_json::Value;
use std::alloc::{AllocError, Global};
use std::collections::BTreeMap;
use std::marker::Model;

/// The declared functions and data objects. The place in its list is the number of an identifier.
#[derive(Debug, Drop)]
pub struct ModuleDeclarations {
    alloc: Global,
    names: BTreeMap<String, FuncOrDataId>,
    functions: Vec<FunctionDeclaration>,
    objects: Vec<DataDeclaration>,
}

impl Model for ModuleDeclarations {
    ghost use Rattle.cranelift_module.specs.Declarations.{DeclarationLists, IsSound};

    ghost Value = { DeclarationLists };

    ghost view = { λ d. record { functions = d.functions.items; objects = d.objects.items } };

    ghost invariant = { λ d. IsSound d.names d.functions.items d.objects.items };
}

impl ModuleDeclarations {
    ghost use Rattle.std.specs.Prelude.{Ok};
    ghost use Rattle.serde_json.specs.View.{view};
    ghost use Rattle.cranelift_module.specs.Declarations.{declared_under};
    ghost use Rattle.cranelift_module.specs.DeclarationJson.{value_of, from_json, Reads};
    ghost use Rattle.cranelift_module.specs.Texts.{IsUser, is_function_target};

    /// No declarations.
    pub fn new(alloc: Global) -> Self
        ensures { result ≡ record { functions = []; objects = [] } }
    {
        ModuleDeclarations {
            alloc,
            names: BTreeMap::new(alloc),
            functions: Vec::new(alloc),
            objects: Vec::new(alloc),
        }
    }

    /// The JSON value that stands for these declarations, which `from_value` reads as these declarations.
    ///
    /// The form is closed: an object with the keys `_version_marker`, whose text is that of `VERSION`,
    /// `functions` and `data_objects`, which are lists. A function is an object with the keys `name` (a
    /// text or null), `linkage` and `signature`; a signature one with `call_conv`, `params` and `returns`;
    /// a parameter one with `type`, `extension` and `purpose`. A data object is an object with the keys
    /// `name` (a text or null), `linkage`, `writable` and `tls` (truth values). Each linkage, type,
    /// extension, purpose and calling convention is the name of its variant.
    pub fn to_value(&self) -> Result<Value, AllocError>
        ensures value { IfOk result (λ v. view v ≡ value_of self.now) }
        ensures reads_back { IfOk result (λ v. from_json (view v) ≡ Ok self.now) }
    {
        let value = declarations_value(self.alloc, &self.functions, &self.objects)?;
        Ok(value)
    }

    /// The declarations that a JSON value stands for in the form of `to_value`, or the first cause why
    /// it stands for none. The causes are looked for in this order: the value is no object, the marker of
    /// the version, the functions, the data objects, and a name that stands twice among all of them.
    /// Other keys of the outer object are passed over; an inner object has exactly its keys.
    #[tactic(auto, unfolding(crate::specs::DeclarationJson::from_json))]
    pub fn from_value(alloc: Global, value: &Value) -> Result<Self, JsonCause>
        ensures { Reads (λ d. d) result (from_json (view value.now)) }
    {
        if !value.is_object() {
            return Err(JsonCause::WrongShape);
        }
        version_of(value)?;
        let functions = functions_at(alloc, value)?;
        let objects = objects_at(alloc, value)?;
        let names = names_of(alloc, &functions, &objects)?;
        Ok(ModuleDeclarations {
            alloc,
            names,
            functions,
            objects,
        })
    }

    /// What is declared under a name.
    pub fn get_name(&self, name: &str) -> Option<FuncOrDataId>
        ensures { result ≡ declared_under self.now name.now }
    {
        found(&self.names, name)
    }

    /// The declared functions with their identifiers, by number.
    pub fn get_functions(&self) -> Functions<'_>
        ensures pairs { result ≡ numbered 0 (self.now).functions }
        ensures bound { length result ≤ 4294967295 }
    {
        Functions::new(&self.functions)
    }

    /// The declared data objects with their identifiers, by number.
    pub fn get_data_objects(&self) -> DataObjects<'_>
        ensures pairs { result ≡ numbered 0 (self.now).objects }
        ensures bound { length result ≤ 4294967295 }
    {
        DataObjects::new(&self.objects)
    }

    /// Whether a function is declared under a name.
    pub fn has_function(&self, name: &str) -> bool
        ensures { result ≡ list_any (is_function_named name.now) (self.now).functions }
    {
        is_function_id(found(&self.names, name))
    }

    /// Whether a target of a user is a function: one of namespace 0.
    pub fn is_function(target: &ModuleRelocTarget) -> bool
        requires { IsUser target.now }
        ensures { result ≡ is_function_target target.now }
    {
        matches!(
            target,
            ModuleRelocTarget::User {
                namespace: 0,
                index: _
            }
        )
    }

    /// The declaration of a function, where it is declared.
    pub fn function(&self, id: FuncId) -> Option<&FunctionDeclaration>
        ensures { option_copied result ≡ slice_get (self.now).functions id }
    {
        self.functions.get(id.as_u32() as usize)
    }

    /// The declaration of a declared function.
    pub fn get_function_decl(&self, id: FuncId) -> &FunctionDeclaration
        requires { id < length (self.now).functions }
        ensures { slice_get (self.now).functions id ≡ Some result.now }
    {
        &self.functions[id.as_u32() as usize]
    }

    /// The declaration of a data object, where it is declared.
    pub fn data(&self, id: DataId) -> Option<&DataDeclaration>
        ensures { option_copied result ≡ slice_get (self.now).objects id }
    {
        self.objects.get(id.as_u32() as usize)
    }

    /// The declaration of a declared data object.
    pub fn get_data_decl(&self, id: DataId) -> &DataDeclaration
        requires { id < length (self.now).objects }
        ensures { slice_get (self.now).objects id ≡ Some result.now }
    {
        &self.objects[id.as_u32() as usize]
    }

    /// A new name gets the next number; a known one keeps its number and its signature, and gets the
    /// greatest linkage. It answers the number and that linkage.
    pub fn declare_function(
        &mut self,
        name: &str,
        linkage: Linkage,
        signature: &Signature,
    ) -> ModuleResult<(FuncId, Linkage)>
        requires { length (self.old).functions < 4294967295 }
        ensures accepted { OnOk result (function_clash (self.old).functions (self.old).objects name.now signature.now ≡ None) }
        ensures declared { OnOk result (self.new ≡ record self.old { functions = with_first (is_function_named name.now) (raised_function linkage) (record { name = Some name.now; linkage = linkage; signature = signature.now }) (self.old).functions }) }
        ensures id { IfOk result (λ answer. position_from (is_function_named name.now) 0 (self.new).functions ≡ Some answer.0) }
        ensures linkage { IfOk result (λ answer. option_map (λ row. row.linkage) (slice_get (self.new).functions answer.0) ≡ Some answer.1) }
        ensures new { IfOk result (λ answer. list_any (is_function_named name.now) (self.old).functions ≡ false → answer.0 ≡ length (self.old).functions) }
        ensures count { length (self.new).functions ≤ length (self.old).functions + 1 }
        ensures refused { IfErr result (λ e. Tells e (function_clash (self.old).functions (self.old).objects name.now signature.now)) }
        ensures kept { OnErr result (self.new ≡ self.old) }
    {
        match found(&self.names, name) {
            None => declare_first(
                self.alloc,
                &mut self.names,
                &mut self.functions,
                name,
                linkage,
                signature,
            ),
            Some(known) => match known {
                FuncOrDataId::Func(id) => {
                    declare_again(
                        self.alloc,
                        &mut self.functions,
                        id,
                        name,
                        linkage,
                        signature,
                    )
                }
                FuncOrDataId::Data(_) => {
                    let name = String::from_str(self.alloc, name)?;
                    Err(ModuleError::IncompatibleDeclaration(name))
                }
            },
        }
    }

    /// A function without a name: the next number, Local.
    pub fn declare_anonymous_function(&mut self, signature: &Signature) -> ModuleResult<FuncId>
        requires { length (self.old).functions < 4294967295 }
        ensures declared { OnOk result (self.new ≡ record self.old { functions = (self.old).functions ++ record { name = None; linkage = Local; signature = signature.now } ∷ [] }) }
        ensures id { IfOk result (λ id. id ≡ length (self.old).functions) }
        ensures refused { IfErr result (λ e. Tells e None) }
        ensures kept { OnErr result (self.new ≡ self.old) }
    {
        let signature = signature.copy()?;
        let id = FuncId::from_u32(self.functions.len() as u32);
        self.functions
            .push(FunctionDeclaration::new(None, Linkage::Local, signature))?;
        Ok(id)
    }

    /// A new name gets the next number of a data object; a known one keeps its number and its
    /// thread-local mark, gets the greatest linkage, and is writable where one of its declarations says
    /// so. It answers the number and that linkage.
    pub fn declare_data(
        &mut self,
        name: &str,
        linkage: Linkage,
        writable: bool,
        tls: bool,
    ) -> ModuleResult<(DataId, Linkage)>
        requires { length (self.old).objects < 4294967295 }
        ensures accepted { OnOk result (data_clash (self.old).functions (self.old).objects name.now tls ≡ None) }
        ensures declared { OnOk result (self.new ≡ record self.old { objects = with_first (is_data_named name.now) (raised_data linkage writable) (record { name = Some name.now; linkage = linkage; writable = writable; tls = tls }) (self.old).objects }) }
        ensures id { IfOk result (λ answer. position_from (is_data_named name.now) 0 (self.new).objects ≡ Some answer.0) }
        ensures linkage { IfOk result (λ answer. option_map (λ row. row.linkage) (slice_get (self.new).objects answer.0) ≡ Some answer.1) }
        ensures new { IfOk result (λ answer. list_any (is_data_named name.now) (self.old).objects ≡ false → answer.0 ≡ length (self.old).objects) }
        ensures count { length (self.new).objects ≤ length (self.old).objects + 1 }
        ensures refused { IfErr result (λ e. Tells e (data_clash (self.old).functions (self.old).objects name.now tls)) }
        ensures kept { OnErr result (self.new ≡ self.old) }
    {
        match found(&self.names, name) {
            None => declare_data_first(
                self.alloc,
                &mut self.names,
                &mut self.objects,
                name,
                linkage,
                writable,
                tls,
            ),
            Some(known) => match known {
                FuncOrDataId::Data(id) => {
                    declare_data_again(
                        self.alloc,
                        &mut self.objects,
                        id,
                        name,
                        linkage,
                        writable,
                        tls,
                    )
                }
                FuncOrDataId::Func(_) => {
                    let name = String::from_str(self.alloc, name)?;
                    Err(ModuleError::IncompatibleDeclaration(name))
                }
            },
        }
    }

    /// A data object without a name: the next number, Local.
    pub fn declare_anonymous_data(&mut self, writable: bool, tls: bool) -> ModuleResult<DataId>
        requires { length (self.old).objects < 4294967295 }
        ensures declared { OnOk result (self.new ≡ record self.old { objects = (self.old).objects ++ record { name = None; linkage = Local; writable = writable; tls = tls } ∷ [] }) }
        ensures id { IfOk result (λ id. id ≡ length (self.old).objects) }
        ensures refused { IfErr result (λ e. Tells e None) }
        ensures kept { OnErr result (self.new ≡ self.old) }
    {
        let id = DataId::from_u32(self.objects.len() as u32);
        self.objects
            .push(DataDeclaration::new(None, Linkage::Local, writable, tls))?;
        Ok(id)
    }
}

// What the map has at a name.
fn found(names: &BTreeMap<String, FuncOrDataId>, name: &str) -> Option<FuncOrDataId>
    ensures { result ≡ get_by_text names.now name.now }
{
    names.get(name).copied()
}

// Whether a function was found.
fn is_function_id(found: Option<FuncOrDataId>) -> bool
    ensures { result ≡ is_some (function_found found) }
{
    match found {
        Some(known) => match known {
            FuncOrDataId::Func(_) => true,
            FuncOrDataId::Data(_) => false,
        },
        None => false,
    }
}

// A known function keeps its number and its signature, and gets the greater linkage.
fn declare_again(
    alloc: Global,
    functions: &mut Vec<FunctionDeclaration>,
    id: FuncId,
    name: &str,
    linkage: Linkage,
    signature: &Signature,
) -> ModuleResult<(FuncId, Linkage)>
    requires { position_from (is_function_named name.now) 0 functions.old.items ≡ Some id }
    ensures accepted { OnOk result (changes_signature name.now signature.now (find (is_function_named name.now) functions.old.items) ≡ None) }
    ensures declared { OnOk result (functions.new.items ≡ with_first (is_function_named name.now) (raised_function linkage) (record { name = Some name.now; linkage = linkage; signature = signature.now }) functions.old.items) }
    ensures found { OnOk result (functions.new.items ≡ changed_at id (raised_function linkage) functions.old.items) }
    ensures id { IfOk result (λ answer. position_from (is_function_named name.now) 0 functions.new.items ≡ Some answer.0) }
    ensures linkage { IfOk result (λ answer. option_map (λ row. row.linkage) (slice_get functions.new.items answer.0) ≡ Some answer.1) }
    ensures known { OnOk result (list_any (is_function_named name.now) functions.old.items ≡ true) }
    ensures count { length functions.new.items ≤ length functions.old.items + 1 }
    ensures refused { IfErr result (λ e. Tells e (changes_signature name.now signature.now (find (is_function_named name.now) functions.old.items))) }
    ensures kept { OnErr result (functions.new.items ≡ functions.old.items) }
{
    let known = &mut functions[id.as_u32() as usize];
    if let Err(error) = check_signature(alloc, known, name, signature) {
        return Err(error);
    }
    known.raise(linkage);
    Ok((id, known.linkage()))
}

// Refuses another signature than the known one. The error keeps the name, the known and the new one.
fn check_signature(
    alloc: Global,
    known: &FunctionDeclaration,
    name: &str,
    signature: &Signature,
) -> ModuleResult<()>
    ensures accepted { OnOk result (changes_signature name.now signature.now (Some known.now) ≡ None) }
    ensures refused { IfErr result (λ e. Tells e (changes_signature name.now signature.now (Some known.now))) }
{
    if known.signature().is_same(signature) {
        return Ok(());
    }
    let name = String::from_str(alloc, name)?;
    let old = known.signature().copy()?;
    let new = signature.copy()?;
    Err(ModuleError::IncompatibleSignature(name, old, new))
}

// A new function stands at the end, and its name is found; both, or nothing.
fn declare_first(
    alloc: Global,
    names: &mut BTreeMap<String, FuncOrDataId>,
    functions: &mut Vec<FunctionDeclaration>,
    name: &str,
    linkage: Linkage,
    signature: &Signature,
) -> ModuleResult<(FuncId, Linkage)>
    requires few { length functions.old.items < 4294967295 }
    requires new { position_from (is_function_named name.now) 0 functions.old.items ≡ None }
    ensures declared { OnOk result (functions.new.items ≡ with_first (is_function_named name.now) (raised_function linkage) (record { name = Some name.now; linkage = linkage; signature = signature.now }) functions.old.items) }
    ensures pushed { OnOk result (functions.new.items ≡ functions.old.items ++ record { name = Some name.now; linkage = linkage; signature = signature.now } ∷ []) }
    ensures id { IfOk result (λ answer. position_from (is_function_named name.now) 0 functions.new.items ≡ Some answer.0) }
    ensures linkage { IfOk result (λ answer. option_map (λ row. row.linkage) (slice_get functions.new.items answer.0) ≡ Some answer.1) }
    ensures number { IfOk result (λ answer. answer.0 ≡ length functions.old.items) }
    ensures count { length functions.new.items ≤ length functions.old.items + 1 }
    ensures found { OnOk result ((text : _) × (string_bytes text ≡ name.now) × Updates string_cmp names.old names.new text (Some (Func (length functions.old.items)))) }
    ensures refused { IfErr result (λ e. Tells e None) }
    ensures kept { OnErr result (functions.new.items ≡ functions.old.items) }
    ensures names_kept { OnErr result (IsUnchanged names.old names.new) }
{
    let id = FuncId::from_u32(functions.len() as u32);
    let key = String::from_str(alloc, name)?;
    let name = Some(String::from_str(alloc, name)?);
    let declaration = FunctionDeclaration::new(name, linkage, signature.copy()?);
    functions.reserve(1)?;
    names.insert(key, FuncOrDataId::Func(id))?;
    if functions.push(declaration).is_err() {
        unreachable!()
    }
    Ok((id, linkage))
}

// A known data object keeps its number and its thread-local mark, gets the greater linkage, and is
// writable where one of its declarations says so.
fn declare_data_again(
    alloc: Global,
    objects: &mut Vec<DataDeclaration>,
    id: DataId,
    name: &str,
    linkage: Linkage,
    writable: bool,
    tls: bool,
) -> ModuleResult<(DataId, Linkage)>
    requires { position_from (is_data_named name.now) 0 objects.old.items ≡ Some id }
    ensures accepted { OnOk result (changes_tls name.now tls (find (is_data_named name.now) objects.old.items) ≡ None) }
    ensures declared { OnOk result (objects.new.items ≡ with_first (is_data_named name.now) (raised_data linkage writable) (record { name = Some name.now; linkage = linkage; writable = writable; tls = tls }) objects.old.items) }
    ensures found { OnOk result (objects.new.items ≡ changed_at id (raised_data linkage writable) objects.old.items) }
    ensures id { IfOk result (λ answer. position_from (is_data_named name.now) 0 objects.new.items ≡ Some answer.0) }
    ensures linkage { IfOk result (λ answer. option_map (λ row. row.linkage) (slice_get objects.new.items answer.0) ≡ Some answer.1) }
    ensures known { OnOk result (list_any (is_data_named name.now) objects.old.items ≡ true) }
    ensures count { length objects.new.items ≤ length objects.old.items + 1 }
    ensures refused { IfErr result (λ e. Tells e (changes_tls name.now tls (find (is_data_named name.now) objects.old.items))) }
    ensures kept { OnErr result (objects.new.items ≡ objects.old.items) }
{
    let known = &mut objects[id.as_u32() as usize];
    if let Err(error) = check_tls(alloc, known, name, tls) {
        return Err(error);
    }
    known.raise(linkage, writable);
    Ok((id, known.linkage()))
}

// Refuses another thread-local mark than the known one. The error keeps the name, the known and the new one.
fn check_tls(alloc: Global, known: &DataDeclaration, name: &str, tls: bool) -> ModuleResult<()>
    ensures accepted { OnOk result (changes_tls name.now tls (Some known.now) ≡ None) }
    ensures refused { IfErr result (λ e. Tells e (changes_tls name.now tls (Some known.now))) }
{
    if known.tls() == tls {
        return Ok(());
    }
    let name = String::from_str(alloc, name)?;
    Err(ModuleError::IncompatibleDataTls(name, known.tls(), tls))
}

// A new data object stands at the end, and its name is found; both, or nothing.
fn declare_data_first(
    alloc: Global,
    names: &mut BTreeMap<String, FuncOrDataId>,
    objects: &mut Vec<DataDeclaration>,
    name: &str,
    linkage: Linkage,
    writable: bool,
    tls: bool,
) -> ModuleResult<(DataId, Linkage)>
    requires few { length objects.old.items < 4294967295 }
    requires new { position_from (is_data_named name.now) 0 objects.old.items ≡ None }
    ensures declared { OnOk result (objects.new.items ≡ with_first (is_data_named name.now) (raised_data linkage writable) (record { name = Some name.now; linkage = linkage; writable = writable; tls = tls }) objects.old.items) }
    ensures pushed { OnOk result (objects.new.items ≡ objects.old.items ++ record { name = Some name.now; linkage = linkage; writable = writable; tls = tls } ∷ []) }
    ensures id { IfOk result (λ answer. position_from (is_data_named name.now) 0 objects.new.items ≡ Some answer.0) }
    ensures linkage { IfOk result (λ answer. option_map (λ row. row.linkage) (slice_get objects.new.items answer.0) ≡ Some answer.1) }
    ensures number { IfOk result (λ answer. answer.0 ≡ length objects.old.items) }
    ensures count { length objects.new.items ≤ length objects.old.items + 1 }
    ensures found { OnOk result ((text : _) × (string_bytes text ≡ name.now) × Updates string_cmp names.old names.new text (Some (Data (length objects.old.items)))) }
    ensures refused { IfErr result (λ e. Tells e None) }
    ensures kept { OnErr result (objects.new.items ≡ objects.old.items) }
    ensures names_kept { OnErr result (IsUnchanged names.old names.new) }
{
    let id = DataId::from_u32(objects.len() as u32);
    let key = String::from_str(alloc, name)?;
    let name = Some(String::from_str(alloc, name)?);
    let declaration = DataDeclaration::new(name, linkage, writable, tls);
    objects.reserve(1)?;
    names.insert(key, FuncOrDataId::Data(id))?;
    if objects.push(declaration).is_err() {
        unreachable!()
    }
    Ok((id, linkage))
}
