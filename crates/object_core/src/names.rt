//! Texts that are stored once each, one after the other, and found by a number of 64 bits.

ghost use Rattle.std.specs.Prelude.{◌≡◌, ◌+◌, ◌∷◌, ◌++◌, [], ◌<◌, ◌≤◌, false, length, slice_get, Some, None, IfOk, IfSome, OnErr, OnOk, IsOk, sum_by};
ghost use Rattle.object_core.specs.Names.{is_among, with_text, text_number, last_with};

use crate::placing::push_reserved;
use std::alloc::{AllocError, Global};
use std::collections::HashMap;
use std::marker::Model;

// FNV-1a in 64 bits (Fowler, Noll, Vo).
const OFFSET_BASIS: u64 = 0xcbf29ce484222325;

const PRIME: u64 = 0x100000001b3;

/// Where a text lies among the bytes.
#[derive(Clone, Copy)]
struct Span {
    start: usize,
    len: usize,
}

/// Texts in the order in which they came, equal ones once. A contract sees the texts, and how much more has room.
#[derive(Drop)]
pub(crate) struct Names {
    bytes: Vec<u8>,
    spans: Vec<Span>,
    // The last text of each number.
    index: HashMap<u64, usize>,
    // For each text the one before it of its number.
    older: Vec<Option<usize>>,
}

impl Model for Names {
    ghost use Rattle.object_core.specs.NamesView.{NamesData, names_view, IsStored};

    ghost Value = { NamesData };

    ghost view = { names_view };

    ghost invariant = { IsStored };
}

impl Names {
    /// No texts.
    pub(crate) fn new(alloc: Global) -> Names
        ensures { result.texts ≡ [] }
    {
        Names {
            bytes: Vec::new(alloc),
            spans: Vec::new(alloc),
            index: HashMap::new(alloc),
            older: Vec::new(alloc),
        }
    }

    /// The sum of their lengths.
    pub(crate) fn bytes(&self) -> usize
        ensures { result ≡ sum_by length (self.now).texts }
    {
        self.bytes.len()
    }

    /// The text at a place.
    pub(crate) fn text(&self, place: usize) -> &[u8]
        requires { place < length (self.now).texts }
        ensures { slice_get (self.now).texts place ≡ Some result.now }
    {
        let span = self.spans[place];
        &self.bytes[span.start..span.start + span.len]
    }

    /// The place of a text.
    pub(crate) fn find(&self, text: &[u8]) -> Option<usize>
        ensures found { IfSome result (λ place. slice_get (self.now).texts place ≡ Some text.now) }
        ensures none { result ≡ None → is_among text.now (self.now).texts ≡ false }
    {
        let mut place = self.last_with(number_of(text));
        while let Some(known) = place {
            if self.text(known) == text {
                return Some(known);
            }
            place = self.older[known];
        }
        None
    }

    // The place of the last text of this number.
    fn last_with(&self, number: u64) -> Option<usize>
        ensures { result ≡ last_with number (self.now).texts }
    {
        self.index.get(&number).copied()
    }

    /// The place of a text, which is appended where it is new.
    pub(crate) fn intern(&mut self, text: &[u8]) -> Result<usize, AllocError>
        ensures place { IfOk result (λ place. slice_get (self.new).texts place ≡ Some text.now) }
        ensures ok { OnOk result ((self.new).texts ≡ with_text (self.old).texts text.now) }
        ensures err { OnErr result ((self.new).texts ≡ (self.old).texts) }
    {
        self.reserve(1, text.len())?;
        Ok(self.put(text))
    }

    /// The places of two texts, each of which is appended where it is new.
    #[tactic(auto, using(crate::proofs::Texts::get_with_text))]
    pub(crate) fn intern_both(
        &mut self,
        first: &[u8],
        second: &[u8],
    ) -> Result<(usize, usize), AllocError>
        ensures first { IfOk result (λ places. slice_get (self.new).texts places.0 ≡ Some first.now) }
        ensures second { IfOk result (λ places. slice_get (self.new).texts places.1 ≡ Some second.now) }
        ensures ok { OnOk result ((self.new).texts ≡ with_text (with_text (self.old).texts first.now) second.now) }
        ensures err { OnErr result ((self.new).texts ≡ (self.old).texts) }
    {
        self.reserve(2, first.len() + second.len())?;
        let first = self.put(first);
        let second = self.put(second);
        Ok((first, second))
    }

    // Room for so many more texts of so many bytes.
    fn reserve(&mut self, texts: usize, bytes: usize) -> Result<(), AllocError>
        ensures texts { (self.new).texts ≡ (self.old).texts }
        ensures spare_texts { OnOk result (texts ≤ (self.new).spare_texts) }
        ensures spare_bytes { OnOk result (bytes ≤ (self.new).spare_bytes) }
    {
        self.bytes.reserve(bytes)?;
        self.spans.reserve(texts)?;
        self.older.reserve(texts)?;
        self.index.reserve(texts)
    }

    // The place of a text for which there is room.
    fn put(&mut self, text: &[u8]) -> usize
        requires texts { 0 < (self.old).spare_texts }
        requires bytes { length text.now ≤ (self.old).spare_bytes }
        ensures place { slice_get (self.new).texts result ≡ Some text.now }
        ensures texts { (self.new).texts ≡ with_text (self.old).texts text.now }
        ensures spare_texts { (self.old).spare_texts ≤ (self.new).spare_texts + 1 }
        ensures spare_bytes { (self.old).spare_bytes ≤ (self.new).spare_bytes + length text.now }
    {
        match self.find(text) {
            Some(place) => place,
            None => self.append(text),
        }
    }

    // Appends a text that is not there yet, and for which there is room.
    fn append(&mut self, text: &[u8]) -> usize
        requires texts { 0 < (self.old).spare_texts }
        requires bytes { length text.now ≤ (self.old).spare_bytes }
        requires new { is_among text.now (self.old).texts ≡ false }
        ensures place { slice_get (self.new).texts result ≡ Some text.now }
        ensures texts { (self.new).texts ≡ (self.old).texts ++ text.now ∷ [] }
        ensures spare_texts { (self.old).spare_texts ≤ (self.new).spare_texts + 1 }
        ensures spare_bytes { (self.old).spare_bytes ≤ (self.new).spare_bytes + length text.now }
    {
        let place = self.spans.len();
        let span = Span {
            start: self.bytes.len(),
            len: text.len(),
        };
        let Ok(older) = self.index.insert(number_of(text), place) else {
            unreachable!()
        };
        push_reserved(&mut self.older, older);
        push_reserved(&mut self.spans, span);
        let Ok(()) = self.bytes.extend_from_slice(text) else {
            unreachable!()
        };
        place
    }
}

// FNV-1a of a text.
#[tactic(auto, unfolding(crate::specs::Names::text_number))]
fn number_of(text: &[u8]) -> u64
    ensures { result ≡ text_number text.now }
{
    let mut number = OFFSET_BASIS;
    for byte in text {
        number = (number ^ u64::from(*byte)).wrapping_mul(PRIME);
    }
    number
}
