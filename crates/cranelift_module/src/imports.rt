//! Imports of declared identifiers into functions. Room was made before, so none is refused.

ghost use Rattle.std.specs.Prelude.{◌≡◌, ◌<◌, length};
ghost use Rattle.ir_core.specs.Function.{HasRoom};
ghost use Rattle.cranelift_module.specs.Imports.{with_call, with_value};

use ir_core::{
    ExtFuncData, ExternalName, FuncRef, Function, GlobalValue, GlobalValueData, Signature,
    UserExternalName,
};

/// Appends a signature and a call of a user's function.
pub(crate) fn import_called(
    func: &mut Function,
    name: UserExternalName,
    signature: Signature,
    colocated: bool,
) -> FuncRef
    requires room { HasRoom (func.old).room }
    requires names { length (func.old).lists.user_named_funcs < 4294967295 }
    requires signatures { length (func.old).lists.signatures < 4294967295 }
    requires functions { length (func.old).lists.ext_funcs < 4294967295 }
    ensures lists { (func.new).lists ≡ with_call name signature colocated (func.old).lists }
    ensures place { result ≡ length (func.old).lists.ext_funcs }
{
    let Ok(signature) = func.import_signature(signature) else {
        unreachable!()
    };
    let Ok(name) = func.declare_imported_user_function(name) else {
        unreachable!()
    };
    let callee = ExtFuncData {
        name: ExternalName::User(name),
        signature,
        colocated,
        patchable: false,
    };
    match func.import_function(callee) {
        Ok(place) => place,
        Err(_) => unreachable!(),
    }
}

/// Appends the address of a user's data object.
pub(crate) fn import_value(
    func: &mut Function,
    name: UserExternalName,
    colocated: bool,
    tls: bool,
) -> GlobalValue
    requires room { HasRoom (func.old).room }
    requires names { length (func.old).lists.user_named_funcs < 4294967295 }
    requires values { length (func.old).lists.global_values < 4294967295 }
    ensures lists { (func.new).lists ≡ with_value name colocated tls (func.old).lists }
    ensures place { result ≡ length (func.old).lists.global_values }
{
    let Ok(name) = func.declare_imported_user_function(name) else {
        unreachable!()
    };
    let value = GlobalValueData {
        name: ExternalName::User(name),
        offset: 0,
        colocated,
        tls,
    };
    match func.create_global_value(value) {
        Ok(place) => place,
        Err(_) => unreachable!(),
    }
}
