//! What a module is begun with: its target, the file's name and the options.

ghost use Rattle.std.specs.Prelude.{◌≡◌, None, Some, false, bytes_eq, slice_get, map, string_bytes, IfOk, IfErr, OnOk};
ghost use Rattle.cranelift_module.specs.Refusal.{Tells, first_cause, zero_byte};
ghost use Rattle.cranelift_object.specs.Settings.{plain_settings};
ghost use Rattle.cranelift_object.specs.Kept.{IsBegun};
ghost use Rattle.cranelift_object.specs.Extras.{text_of};
ghost use Rattle.cranelift_module.specs.LibraryNames.{library_place};
ghost use Rattle.std.specs.List.{position_or_len, position_from};
ghost use Rattle.cranelift_object.specs.Part.{start_cause};

use cranelift_module::{BackendCause, LibcallNames, ModuleError, ModuleResult, check_no_zero_byte};
use ir_core::{LibCall, TargetIsa};
use object_core::is_supported;
use std::alloc::Global;
use std::marker::Model;

/// The settings of a module that is still to be made. A contract sees them with the target.
#[derive(Drop)]
pub struct ObjectBuilder {
    alloc: Global,
    isa: TargetIsa,
    name: Vec<u8>,
    libcall_names: LibcallNames,
    function_sections: bool,
    data_sections: bool,
}

impl Model for ObjectBuilder {
    ghost use Rattle.cranelift_object.specs.Settings.{Settings};
    ghost use Rattle.cranelift_object.specs.Opened.{BuilderData};

    ghost Value = { BuilderData };

    ghost use Rattle.cranelift_object.specs.Kept.{IsBegun};
    ghost use Rattle.cranelift_object.specs.Extras.{text_of};
    ghost use Rattle.cranelift_module.specs.LibraryNames.{library_place};
    ghost use Rattle.std.specs.List.{position_or_len, position_from};
    ghost use Rattle.cranelift_object.specs.BuilderView.{builder_view};

    ghost view = { builder_view };

    ghost invariant = { λ b. IsBegun (builder_view b) };
}

impl ObjectBuilder {
    /// Settings with both options off. A target that isn't built, a zero byte in the file's name and one in a text of
    /// a library call are refused.
    #[tactic(auto, using(crate::proofs::TextLaws::texts_free), unfolding(crate::specs::Part::start_cause))]
    pub fn new(
        alloc: Global,
        isa: TargetIsa,
        name: &[u8],
        libcall_names: LibcallNames,
    ) -> ModuleResult<Self>
        ensures ok { IfOk result (λ b. b ≡ record { settings = plain_settings name.now libcall_names; target = isa }) }
        ensures none { OnOk result (start_cause (plain_settings name.now libcall_names) isa ≡ None) }
        ensures cause { IfErr result (λ e. Tells e (start_cause (plain_settings name.now libcall_names) isa)) }
    {
        let triple = isa.triple();
        if !is_supported(triple.architecture, triple.binary_format) {
            return Err(ModuleError::Backend(BackendCause::UnsupportedTarget));
        }
        check_no_zero_byte(name)?;
        check_texts(libcall_names.texts())?;
        let name = name.to_vec(alloc)?;
        Ok(ObjectBuilder {
            alloc,
            isa,
            name,
            libcall_names,
            function_sections: false,
            data_sections: false,
        })
    }

    /// Whether each function gets a section of its own.
    pub fn per_function_section(&mut self, on: bool) -> &mut Self
        ensures same { result.ghost_name ≡ self.entry.ghost_name }
        ensures value { result.now ≡ record self.old { settings = record (self.old).settings { function_sections = on } } }
    {
        self.function_sections = on;
        self
    }

    /// Whether each data object gets a section of its own.
    pub fn per_data_object_section(&mut self, on: bool) -> &mut Self
        ensures same { result.ghost_name ≡ self.entry.ghost_name }
        ensures value { result.now ≡ record self.old { settings = record (self.old).settings { data_sections = on } } }
    {
        self.data_sections = on;
        self
    }

    pub(crate) fn alloc(&self) -> Global
        ensures { IsBegun self.now }
    {
        self.alloc
    }

    pub(crate) fn isa(&self) -> &TargetIsa
        ensures { result.now ≡ (self.now).target }
    {
        &self.isa
    }

    pub(crate) fn name(&self) -> &[u8]
        ensures { result.now ≡ ((self.now).settings).file_name }
    {
        &self.name
    }

    // The text of a library call.
    pub(crate) fn library_text(&self, call: LibCall) -> &str
        ensures { slice_get ((self.now).settings).library_names (library_place call) ≡ Some result.now }
    {
        self.libcall_names.get(call)
    }

    // The first place of a text in the table of library calls, or else their number.
    pub(crate) fn place_of_text(&self, text: &str) -> usize
        ensures { result ≡ position_or_len (bytes_eq text.now) ((self.now).settings).library_names }
    {
        place_of(text, self.libcall_names.texts())
    }

    // The text at a place of the table of library calls, none past its end.
    pub(crate) fn text_at(&self, place: usize) -> &str
        ensures { result.now ≡ text_of (self.now).settings place }
    {
        match self.libcall_names.texts().get(place) {
            Some(text) => text.as_str(),
            None => "",
        }
    }

    pub(crate) fn function_sections(&self) -> bool
        ensures { result ≡ ((self.now).settings).function_sections }
    {
        self.function_sections
    }

    pub(crate) fn data_sections(&self) -> bool
        ensures { result ≡ ((self.now).settings).data_sections }
    {
        self.data_sections
    }
}

// The first place of a text among these, or else their number.
#[tactic(auto, using(crate::proofs::TextLaws::place_is))]
fn place_of(text: &str, texts: &[String]) -> usize
    ensures { result ≡ position_or_len (bytes_eq text.now) (map string_bytes texts.now) }
{
    match found_text(text, texts) {
        Some(place) => place,
        None => texts.len(),
    }
}

// The first place of a text among these.
fn found_text(text: &str, texts: &[String]) -> Option<usize>
    ensures { result ≡ position_from (λ other. bytes_eq (string_bytes other) text.now) 0 texts.now }
{
    texts.iter().position(|other| other.as_str() == text)
}

// Refuses the first text that has a zero byte.
#[tactic(auto, using(crate::proofs::FirstCause::texts_step, crate::proofs::FirstCause::texts_end))]
fn check_texts(texts: &[String]) -> ModuleResult<()>
    ensures accepted { OnOk result (first_cause (map zero_byte (map string_bytes texts.now)) ≡ None) }
    ensures refused { IfErr result (λ e. Tells e (first_cause (map zero_byte (map string_bytes texts.now)))) }
{
    for text in texts {
        if let Err(error) = check_no_zero_byte(text.as_bytes()) {
            return Err(error);
        }
    }
    Ok(())
}
