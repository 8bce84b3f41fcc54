//! The declared data objects, one after the other.

ghost use Rattle.std.specs.Prelude.{◌≡◌, ◌≤◌, length};
ghost use Rattle.std.specs.Iterator.{YieldsFirstBy, item_count};
ghost use Rattle.cranelift_module.specs.Declarations.{numbered};

use crate::{DataDeclaration, DataId};
use std::marker::Model;

/// The declared data objects with their identifiers, by number. A contract sees the pairs that are left.
#[derive(Drop)]
pub struct DataObjects<'a> {
    // The number of the first data object that is left.
    number: u32,
    rest: &'a [DataDeclaration],
}

impl<'a> Model for DataObjects<'a> {
    ghost use Rattle.std.specs.Prelude.{ℕ, List, ◌≤◌, ◌+◌, length};
    ghost use Rattle.cranelift_module.specs.Rows.{DataRow};
    ghost use Rattle.cranelift_module.specs.Declarations.{numbered};

    ghost Value = { List (ℕ × DataRow) };

    ghost view = { λ it. numbered it.number it.rest.now };

    ghost invariant = { λ it. it.number + length it.rest.now ≤ 4294967295 };
}

impl<'a> DataObjects<'a> {
    pub(crate) fn new(objects: &'a [DataDeclaration]) -> Self
        requires { length objects.now ≤ 4294967295 }
        ensures { result ≡ numbered 0 objects.now }
    {
        DataObjects {
            number: 0,
            rest: objects,
        }
    }
}

impl<'a> Iterator for DataObjects<'a> {
    type Item = (DataId, &'a DataDeclaration);

    ghost next_gives = { YieldsFirstBy (λ item. (item.0, item.1.now)) (λ rest. rest) };

    ghost remaining = { item_count (λ rest. rest) };

    fn next(&mut self) -> Option<(DataId, &'a DataDeclaration)> {
        let (first, others) = self.rest.split_first()?;
        let id = DataId::from_u32(self.number);
        self.rest = others;
        self.number += 1;
        Some((id, first))
    }
}
