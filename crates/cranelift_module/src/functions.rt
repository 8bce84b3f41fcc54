//! The declared functions, one after the other.

ghost use Rattle.std.specs.Prelude.{◌≡◌, ◌≤◌, length};
ghost use Rattle.std.specs.Iterator.{YieldsFirstBy, item_count};
ghost use Rattle.cranelift_module.specs.Declarations.{numbered};

use crate::{FuncId, FunctionDeclaration};
use std::marker::Model;

/// The declared functions with their identifiers, by number. A contract sees the pairs that are left.
#[derive(Drop)]
pub struct Functions<'a> {
    // The number of the first function that is left.
    number: u32,
    rest: &'a [FunctionDeclaration],
}

impl<'a> Model for Functions<'a> {
    ghost use Rattle.std.specs.Prelude.{ℕ, List, ◌≤◌, ◌+◌, length};
    ghost use Rattle.cranelift_module.specs.Rows.{FunctionRow};
    ghost use Rattle.cranelift_module.specs.Declarations.{numbered};

    ghost Value = { List (ℕ × FunctionRow) };

    ghost view = { λ it. numbered it.number it.rest.now };

    ghost invariant = { λ it. it.number + length it.rest.now ≤ 4294967295 };
}

impl<'a> Functions<'a> {
    pub(crate) fn new(functions: &'a [FunctionDeclaration]) -> Self
        requires { length functions.now ≤ 4294967295 }
        ensures { result ≡ numbered 0 functions.now }
    {
        Functions {
            number: 0,
            rest: functions,
        }
    }
}

impl<'a> Iterator for Functions<'a> {
    type Item = (FuncId, &'a FunctionDeclaration);

    ghost next_gives = { YieldsFirstBy (λ item. (item.0, item.1.now)) (λ rest. rest) };

    ghost remaining = { item_count (λ rest. rest) };

    fn next(&mut self) -> Option<(FuncId, &'a FunctionDeclaration)> {
        let (first, others) = self.rest.split_first()?;
        let id = FuncId::from_u32(self.number);
        self.rest = others;
        self.number += 1;
        Some((id, first))
    }
}
