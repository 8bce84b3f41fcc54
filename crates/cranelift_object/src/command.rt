//! The calls of a module as values.

ghost use Rattle.std.specs.Prelude.{◌≡◌, ◌<◌, ◌+◌, ℕ, [], IsTrue, Some, None, length, map, count_by, take, IfOk, IfErr, OnOk, OnErr, slice_get};
ghost use Rattle.cranelift_module.specs.LinkState.{LinkState, steps, state_of};
ghost use Rattle.cranelift_module.specs.IsCall.{IsCall};
ghost use Rattle.cranelift_module.specs.Refusal.{Tells, refusal};
ghost use Rattle.cranelift_object.specs.Commands.{command_view, makes_function, makes_data, first_refusal, TellsAt};
ghost use Rattle.cranelift_object.specs.Settings.{plain_settings};
ghost use Rattle.ir_core.specs.Target.{Target};
ghost use Rattle.cranelift_object.specs.Part.{first_refused, TellsCall};

use cranelift_module::{
    DataDescription, DataId, FuncId, LibcallNames, Linkage, Module, ModuleError, ModuleReloc,
    ModuleResult,
};
use ir_core::{Signature, TargetIsa};
use std::alloc::{AllocError, Global};
use std::marker::Model;

/// A call of a module that can change it.
#[derive(Debug, Drop)]
pub enum Command {
    DeclareFunction {
        name: String,
        linkage: Linkage,
        signature: Signature,
    },
    DeclareAnonymousFunction {
        signature: Signature,
    },
    DeclareData {
        name: String,
        linkage: Linkage,
        writable: bool,
        tls: bool,
    },
    DeclareAnonymousData {
        writable: bool,
        tls: bool,
    },
    /// The alignment is in bytes.
    DefineFunction {
        id: FuncId,
        align: u64,
        bytes: Vec<u8>,
        relocs: Vec<ModuleReloc>,
    },
    DefineData {
        id: DataId,
        desc: DataDescription,
    },
}

/// The settings, the target and the commands of one object file.
#[derive(Drop)]
pub struct CommandPart {
    name: Vec<u8>,
    isa: TargetIsa,
    libcall_names: LibcallNames,
    function_sections: bool,
    data_sections: bool,
    commands: Vec<Command>,
}

impl Model for CommandPart {
    ghost use Rattle.cranelift_object.specs.Part.{PartData};

    ghost Value = { PartData };

    ghost use Rattle.cranelift_object.specs.PartView.{part_view};

    ghost view = { part_view };
}

impl CommandPart {
    /// A part without commands, with both options off.
    pub fn new(
        alloc: Global,
        name: &[u8],
        isa: TargetIsa,
        libcall_names: LibcallNames,
    ) -> Result<CommandPart, AllocError>
        ensures { IfOk result (λ part. part ≡ record { settings = plain_settings name.now libcall_names; target = isa; calls = [] }) }
    {
        let name = name.to_vec(alloc)?;
        Ok(CommandPart {
            name,
            isa,
            libcall_names,
            function_sections: false,
            data_sections: false,
            commands: Vec::new(alloc),
        })
    }

    /// The name of the source file.
    pub fn name(&self) -> &[u8]
        ensures { result.now ≡ ((self.now).settings).file_name }
    {
        &self.name
    }

    /// The target.
    pub fn isa(&self) -> &TargetIsa
        ensures { result.now ≡ (self.now).target }
    {
        &self.isa
    }

    /// The texts under which calls into the runtime are linked.
    pub fn libcall_names(&self) -> &LibcallNames
        ensures { result.now ≡ ((self.now).settings).library_names }
    {
        &self.libcall_names
    }

    /// Whether each function gets a section of its own.
    pub fn function_sections(&self) -> bool
        ensures { result ≡ ((self.now).settings).function_sections }
    {
        self.function_sections
    }

    /// Whether each data object gets a section of its own.
    pub fn data_sections(&self) -> bool
        ensures { result ≡ ((self.now).settings).data_sections }
    {
        self.data_sections
    }

    /// The calls, in order.
    pub fn commands(&self) -> &[Command]
        ensures { map command_view result.now ≡ (self.now).calls }
    {
        &self.commands
    }

    /// Sets the name of the source file. Where memory runs out, the part is as it was.
    pub fn set_name(&mut self, name: &[u8]) -> Result<(), AllocError>
        ensures ok { OnOk result (self.new ≡ record self.old { settings = record (self.old).settings { file_name = name.now } }) }
        ensures err { OnErr result (self.new ≡ self.old) }
    {
        self.name = name.to_vec(*self.name.allocator())?;
        Ok(())
    }

    /// Sets the target.
    pub fn set_isa(&mut self, isa: TargetIsa)
        ensures { self.new ≡ record self.old { target = isa } }
    {
        self.isa = isa;
    }

    /// Sets the texts under which calls into the runtime are linked.
    pub fn set_libcall_names(&mut self, names: LibcallNames)
        ensures { self.new ≡ record self.old { settings = record (self.old).settings { library_names = names } } }
    {
        self.libcall_names = names;
    }

    /// Sets whether each function gets a section of its own.
    pub fn set_function_sections(&mut self, on: bool)
        ensures { self.new ≡ record self.old { settings = record (self.old).settings { function_sections = on } } }
    {
        self.function_sections = on;
    }

    /// Sets whether each data object gets a section of its own.
    pub fn set_data_sections(&mut self, on: bool)
        ensures { self.new ≡ record self.old { settings = record (self.old).settings { data_sections = on } } }
    {
        self.data_sections = on;
    }

    /// Sets the calls, in order.
    pub fn set_commands(&mut self, commands: Vec<Command>)
        ensures { self.new ≡ record self.old { calls = map command_view commands.items } }
    {
        self.commands = commands;
    }
}

/// Makes the calls in order, up to the first that is refused, and answers the number of that one with its refusal. The
/// functions that are declared and those that the commands declare are together fewer than 4,294,967,295, and so are
/// the data objects.
pub fn apply<M: Module>(backend: &mut M, commands: &[Command]) -> Result<(), (usize, ModuleError)>
    requires room { length (M.state backend.old).functions + count_by makes_function (map command_view commands.now) < 4294967295 }
    requires room_for_data { length (M.state backend.old).objects + count_by makes_data (map command_view commands.now) < 4294967295 }
    ensures ok { OnOk result (M.state backend.new ≡ steps (M.state backend.old) (map command_view commands.now)) }
    ensures none { OnOk result (first_refusal (M.state backend.old) 0 (map command_view commands.now) ≡ None) }
    ensures refused { IfErr result (λ e. TellsAt e.0 e.1 (first_refusal (M.state backend.old) 0 (map command_view commands.now))) }
    ensures number { IfErr result (λ e. e.0 < length commands.now) }
    ensures begun { IfErr result (λ e. M.state backend.new ≡ steps (M.state backend.old) (take e.0 (map command_view commands.now))) }
    ensures keeps { M.Keeps backend.old backend.new }
    ensures whole { (target : Target) → M.state backend.old ≡ state_of target [] → OnOk result (M.state backend.new ≡ state_of target (map command_view commands.now)) }
    ensures accepted { (target : Target) → M.state backend.old ≡ state_of target [] → OnOk result (first_refused target (map command_view commands.now) ≡ None) }
    ensures first { (target : Target) → M.state backend.old ≡ state_of target [] → IfErr result (λ e. TellsCall e.0 e.1 (first_refused target (map command_view commands.now))) }
{
    for (number, command) in commands.iter().enumerate() {
        if let Err(error) = make_call(backend, command) {
            return Err((number, error));
        }
    }
    Ok(())
}

fn make_call<M: Module>(backend: &mut M, command: &Command) -> ModuleResult<()>
    requires room { IsTrue (makes_function (command_view command.now)) → length (M.state backend.old).functions < 4294967295 }
    requires room_for_data { IsTrue (makes_data (command_view command.now)) → length (M.state backend.old).objects < 4294967295 }
    ensures call { IsCall result (M.state backend.old) (M.state backend.new) (command_view command.now) }
    ensures keeps { M.Keeps backend.old backend.new }
{
    match command {
        Command::DeclareFunction {
            name,
            linkage,
            signature,
        } => {
            backend.declare_function(name.as_str(), *linkage, signature)?;
            Ok(())
        }
        Command::DeclareAnonymousFunction { signature } => {
            backend.declare_anonymous_function(signature)?;
            Ok(())
        }
        Command::DeclareData {
            name,
            linkage,
            writable,
            tls,
        } => {
            backend.declare_data(name.as_str(), *linkage, *writable, *tls)?;
            Ok(())
        }
        Command::DeclareAnonymousData { writable, tls } => {
            backend.declare_anonymous_data(*writable, *tls)?;
            Ok(())
        }
        Command::DefineFunction {
            id,
            align,
            bytes,
            relocs,
        } => backend.define_function_bytes(*id, *align, bytes, relocs),
        Command::DefineData { id, desc } => backend.define_data(*id, desc),
    }
}
