//! Load commands: `load_command`.

ghost use Rattle.std.specs.Prelude.{◌≡◌, ◌≤◌, ◌<◌, ◌+◌, ◌*◌, ◌↔◌, length, None, IsTrue, IsSome, IfSome, IfNone};
ghost use Rattle.image_read.specs.ElfRows.{EachRow};
ghost use Rattle.image_read.specs.MachFile.{mach_header_of, command_at, commands_end, segment_at};
ghost use Rattle.image_read.specs.MachImage.{IsCommand};
ghost use Rattle.image_read.specs.MachRows.{HasMachHeader, SameCommand, HasRoom, IsCommandAt, IsOnly, IsPlaceOf, AreSoundCommands, AreCommands};

use crate::mach::file::{HEADER_SIZE, MachFile};
use crate::mach::rows::{CommandRow, SECTION_SIZE, SEGMENT_SIZE};

pub const LC_SEGMENT_64: u32 = 0x19;

pub const LC_SYMTAB: u32 = 2;

pub const LC_BUILD_VERSION: u32 = 0x32;

// The number and the size of a command, in bytes.
const COMMAND_SIZE: usize = 8;

const SYMTAB_SIZE: usize = 24;

const BUILD_VERSION_SIZE: usize = 24;

/// Where the load commands that are read begin, in bytes from the start of the file.
#[derive(Clone, Copy, Debug)]
pub struct Commands {
    pub segment: Option<usize>,
    pub symtab: Option<usize>,
    pub build_version: Option<usize>,
}

/// The commands that are read, None where a command doesn't meet its conditions or one that is read stands twice.
pub fn commands_of(file: &MachFile<'_>) -> Option<Commands>
    requires { HasMachHeader file.now }
    ensures found { IfSome result (AreCommands file.now) }
    ensures none { IfNone result (AreSoundCommands file.now → ⊥) }
{
    if !are_commands(file) {
        return None;
    }
    let segment = only_command(file, LC_SEGMENT_64)?;
    let symtab = only_command(file, LC_SYMTAB)?;
    let build_version = only_command(file, LC_BUILD_VERSION)?;
    Some(Commands {
        segment,
        symtab,
        build_version,
    })
}

// Whether each command lies among the commands, and has room for what is read of it.
fn are_commands(file: &MachFile<'_>) -> bool
    requires { HasMachHeader file.now }
    ensures { IsTrue result ↔ EachRow (IsCommand file.now) 0 (mach_header_of file.now).ncmds }
{
    let mut at = HEADER_SIZE;
    'commands: for _ in 0..file.ncmds() {
        if !is_command(file, at) {
            return false;
        }
        at = file.next_command(at);
    }
    true
}

fn is_command(file: &MachFile<'_>, at: usize) -> bool
    requires { at ≤ commands_end file.now }
    ensures { IsTrue result ↔ IsCommandAt file.now at }
{
    let left = file.commands_end() - at;
    if left < COMMAND_SIZE {
        return false;
    }
    let command = file.command(at);
    let size = command.cmdsize as usize;
    COMMAND_SIZE <= size && size <= left && has_room(file, at, command)
}

// Whether the command has room for what is read of it.
fn has_room(file: &MachFile<'_>, at: usize, command: CommandRow) -> bool
    requires command { SameCommand command (command_at file.now at) }
    requires inside { at + command.cmdsize ≤ length file.now }
    ensures { IsTrue result ↔ HasRoom file.now at }
{
    let size = command.cmdsize as usize;
    match command.cmd {
        LC_SEGMENT_64 => SEGMENT_SIZE <= size && has_section_room(file, at, size),
        LC_SYMTAB => SYMTAB_SIZE <= size,
        LC_BUILD_VERSION => BUILD_VERSION_SIZE <= size,
        _ => true,
    }
}

// Whether the section headers have room in the segment's command of this size.
fn has_section_room(file: &MachFile<'_>, at: usize, size: usize) -> bool
    requires { at + 72 ≤ length file.now }
    ensures { IsTrue result ↔ 72 + 80 * (segment_at file.now at).nsects ≤ size }
{
    SEGMENT_SIZE + SECTION_SIZE * file.nsects(at) as usize <= size
}

// Where the only command of this number begins, Some(None) where there is none, and None where there are two.
fn only_command(file: &MachFile<'_>, cmd: u32) -> Option<Option<usize>>
    requires header { HasMachHeader file.now }
    requires commands { EachRow (IsCommand file.now) 0 (mach_header_of file.now).ncmds }
    ensures found { IfSome result (IsPlaceOf file.now cmd) }
    ensures only { IfSome result (λ _. IsOnly file.now cmd) }
    ensures none { IfNone result (IsOnly file.now cmd → ⊥) }
{
    let mut found = None;
    let mut at = HEADER_SIZE;
    'commands: for _ in 0..file.ncmds() {
        if file.command(at).cmd == cmd {
            found = Some(first_place(found, at)?);
        }
        at = file.next_command(at);
    }
    Some(found)
}

// The place of a command, None where one was found before it.
fn first_place(found: Option<usize>, at: usize) -> Option<usize>
    ensures first { IfSome result (λ place. place ≡ at) }
    ensures alone { IfSome result (λ _. found ≡ None) }
    ensures second { IfNone result (IsSome found) }
{
    match found {
        Some(_) => None,
        None => Some(at),
    }
}
