//! The law of declarations in JSON. The function does nothing; its contract is the law.

ghost use Rattle.cranelift_module.specs.DeclarationJson.{ReadsBack};

/// What is written of declarations without a repeated name is read as these declarations.
pub fn json_laws()
    ensures { ReadsBack }
{}
