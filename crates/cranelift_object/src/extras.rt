//! What relocations go to, and what they add to an object: texts of library calls, known symbols and labels.

ghost use Rattle.std.specs.Prelude.{◌≡◌, ◌<◌, ◌++◌, ◌∷◌, [], false, ◌+◌, ◌*◌, ◌^◌, length, OnOk};
ghost use Rattle.std.specs.List.{position_or_len, list_any};
ghost use Rattle.cranelift_object.specs.Extras.{extra_key, has_key, with_extra};
ghost use Rattle.cranelift_object.specs.Targets.{known_place};

use cranelift_module::{FuncId, FuncOrDataId};
use ir_core::KnownSymbol;
use std::alloc::{AllocError, Global};
use std::collections::BTreeMap;
use std::marker::Model;

/// What a relocation adds to an object, where it goes to no declared identifier.
#[derive(Clone, Copy)]
pub(crate) enum Extra {
    /// The text of a library call, by its first place in the table of these texts.
    Library(usize),
    Known(KnownSymbol),
    /// A place in a function, as a number of bytes from its start.
    Label(FuncId, u32),
}

/// What a relocation goes to.
#[derive(Clone, Copy)]
pub(crate) enum ResolvedTarget {
    Identifier(FuncOrDataId),
    Added(Extra),
}

impl Extra {
    // A number of its own.
    fn key(&self) -> u128
        ensures { result ≡ extra_key self.now }
    {
        match self {
            Extra::Library(place) => *place as u128,
            Extra::Known(symbol) => 18 + known_place(*symbol),
            Extra::Label(function, offset) => label_key(*function, *offset),
        }
    }
}

fn known_place(symbol: KnownSymbol) -> u128
    ensures { result ≡ known_place symbol }
{
    match symbol {
        KnownSymbol::ElfGlobalOffsetTable => 0,
        KnownSymbol::CoffTlsIndex => 1,
    }
}

fn label_key(function: FuncId, offset: u32) -> u128
    ensures { result ≡ 2 ^ 32 * (function + 1) + offset }
{
    (u128::from(function.as_u32()) + 1) * 4_294_967_296 + u128::from(offset)
}

/// What relocations add, each once, at its first use. A contract sees the list.
#[derive(Drop)]
pub(crate) struct Extras {
    found: Vec<Extra>,
    places: BTreeMap<u128, usize>,
}

impl Model for Extras {
    ghost use Rattle.std.specs.Prelude.{List};
    ghost use Rattle.cranelift_object.specs.declared.extras.Extra.{Extra};
    ghost use Rattle.cranelift_object.specs.Extras.{FindsExtras};

    ghost Value = { List Extra };

    ghost view = { λ extras. extras.found.items };

    ghost invariant = { λ extras. FindsExtras extras.places extras.found.items };
}

impl Extras {
    /// Nothing yet.
    pub(crate) fn new(alloc: Global) -> Extras
        ensures { result ≡ [] }
    {
        Extras {
            found: Vec::new(alloc),
            places: BTreeMap::new(alloc),
        }
    }

    /// All of them, in order.
    pub(crate) fn as_slice(&self) -> &[Extra]
        ensures { result.now ≡ self.now }
    {
        &self.found
    }

    /// The place of one among them, or else their number.
    pub(crate) fn place(&self, extra: Extra) -> usize
        ensures place { result ≡ position_or_len (has_key (extra_key extra)) self.now }
        ensures bound { result < 2 ^ 63 }
    {
        match self.places.get(&extra.key()) {
            Some(place) => *place,
            None => self.found.len(),
        }
    }

    /// Notes one, where it is not yet among them.
    pub(crate) fn note(&mut self, extra: Extra) -> Result<(), AllocError>
        ensures { OnOk result (self.new ≡ with_extra self.old extra) }
    {
        if self.has(&extra) {
            return Ok(());
        }
        self.append(extra)
    }

    // Whether it is among them.
    fn has(&self, extra: &Extra) -> bool
        ensures { result ≡ list_any (has_key (extra_key extra.now)) self.now }
    {
        self.places.contains_key(&extra.key())
    }

    // Appends one that is not yet among them.
    fn append(&mut self, extra: Extra) -> Result<(), AllocError>
        requires { list_any (has_key (extra_key extra)) self.old ≡ false }
        ensures { OnOk result (self.new ≡ self.old ++ extra ∷ []) }
    {
        let key = extra.key();
        self.found.reserve(1)?;
        self.places.insert(key, self.found.len())?;
        match self.found.push(extra) {
            Ok(()) => Ok(()),
            Err(_) => unreachable!(),
        }
    }
}
