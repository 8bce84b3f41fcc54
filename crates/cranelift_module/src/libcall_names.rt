//! The texts under which calls into the runtime are linked.

ghost use Rattle.std.specs.Prelude.{◌≡◌, ◌<◌, ◌++◌, ◌∷◌, [], Some, IfOk, OnOk, OnErr, slice_get, string_bytes, map, take, length, vec_len};
ghost use Rattle.cranelift_module.specs.LibraryNames.{library_place, usual_texts};

use ir_core::LibCall;
use std::alloc::{AllocError, Global};
use std::marker::Model;

// The usual texts, in the order of the calls.
const USUAL_TEXTS: [&str; 18] = [
    "__cranelift_probestack",
    "ceilf",
    "ceil",
    "floorf",
    "floor",
    "truncf",
    "trunc",
    "nearbyintf",
    "nearbyint",
    "fmaf",
    "fma",
    "memcpy",
    "memset",
    "memmove",
    "memcmp",
    "__tls_get_addr",
    "__tls_get_offset",
    "__cranelift_x86_pshufb",
];

/// The text of each call into the runtime. A contract sees the 18 texts in the order of the calls.
#[derive(Debug, Drop)]
pub struct LibcallNames {
    texts: Vec<String>,
}

impl Model for LibcallNames {
    ghost use Rattle.std.specs.Prelude.{◌≡◌, ℕ, List, map, string_bytes, vec_len};

    ghost Value = { List (List ℕ) };

    ghost view = { λ names. map string_bytes names.texts.items };

    ghost invariant = { λ names. vec_len names.texts ≡ 18 };
}

impl LibcallNames {
    ghost use Rattle.std.specs.Prelude.{slice_set};

    /// The text of a call.
    pub fn get(&self, call: LibCall) -> &str
        ensures { slice_get self.now (library_place call) ≡ Some result.now }
    {
        self.texts[place(call)].as_str()
    }

    /// All texts, in the order of the calls.
    pub fn texts(&self) -> &[String]
        ensures { map string_bytes result.now ≡ self.now }
    {
        &self.texts
    }

    /// An equal table.
    pub fn copy(&self) -> Result<LibcallNames, AllocError>
        ensures { IfOk result (λ names. names ≡ self.now) }
    {
        Ok(LibcallNames {
            texts: copies_of(&self.texts)?,
        })
    }

    /// Gives a call another text.
    pub fn set(&mut self, call: LibCall, text: &str) -> Result<(), AllocError>
        ensures ok { OnOk result (self.new ≡ slice_set self.old (library_place call) text.now) }
        ensures err { OnErr result (self.new ≡ self.old) }
    {
        let text = String::from_str(*self.texts.allocator(), text)?;
        self.texts[place(call)] = text;
        Ok(())
    }
}

/// The usual texts: names of the C library where it has one.
pub fn default_libcall_names(alloc: Global) -> Result<LibcallNames, AllocError>
    ensures { IfOk result (λ names. names ≡ usual_texts) }
{
    let mut texts = Vec::new(alloc);
    'taking: for text in USUAL_TEXTS.iter() {
        texts.push(String::from_str(alloc, text)?)?;
    }
    Ok(LibcallNames { texts })
}

fn copies_of(texts: &Vec<String>) -> Result<Vec<String>, AllocError>
    ensures texts { IfOk result (λ copies. map string_bytes copies.items ≡ map string_bytes (texts.now).items) }
    ensures len { IfOk result (λ copies. vec_len copies ≡ vec_len texts.now) }
{
    let alloc = *texts.allocator();
    let mut copies = Vec::new(alloc);
    for text in texts {
        copies.push(String::from_str(alloc, text.as_str())?)?;
    }
    Ok(copies)
}

// The place of a call in the table.
fn place(call: LibCall) -> usize
    ensures place { result ≡ library_place call }
    ensures bound { result < 18 }
{
    call as usize
}
