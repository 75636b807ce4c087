//! Scripts, read from a text.
ghost use Rattle.std.specs.Prelude.{◌≡◌, ◌↔◌, IsTrue, ◌+◌, ◌≤◌, ◌++◌, ◌∷◌, [], ℕ, List, Ok, OnOk, OnErr, IfErr, length, slice_get, option_copied};
ghost use Rattle.grid_editor.specs.Commands.{IsIdle};
ghost use Rattle.grid_editor.specs.Scripts.{IsRead, most_lines};
ghost use Rattle.grid_editor.specs.declared.script.ScriptFault.TheVariants.{BadCommand};
ghost use Rattle.grid_editor.specs.Reading.{Adds, Ends, IsLineFault, IsSoFar, IsReadThrough, IsUnread, room_of};

use crate::command::Command;
use crate::words::command_in;
use std::alloc::{AllocFailed, Global};
use std::marker::Model;
use thiserror::Error;
use wopi_text::Memory;

/// The most lines of a script, those that do nothing among them.
pub const MOST_LINES: usize = 16_000;

/// The most bytes of a line, without its line feed.
pub const MOST_BYTES: usize = 20_000;

/// Why a text is no script.
#[derive(Clone, Copy, Debug, PartialEq, Eq, Error)]
pub enum ScriptFault {
    /// The line with this number, counted from 1, is the first that is past a limit or says no
    /// command.
    #[error("line {line}: bad line")]
    BadCommand { line: u64 },
    #[error("out of memory")]
    Memory,
}

/// The commands of a script, in their order.
#[derive(Drop)]
pub struct Script {
    commands: Vec<Command>,
}

impl Model for Script {
    ghost use Rattle.std.specs.Prelude.{List};
    ghost use Rattle.grid_editor.specs.declared.command.Command.{Command};

    ghost Value = { List Command };

    ghost view = { λ s. s.commands.items };
}

impl Script {
    /// A script without commands.
    pub fn new(alloc: Global) -> Script
        ensures { result ≡ [] }
    {
        Script {
            commands: Vec::new(alloc),
        }
    }

    /// The commands of the lines of a text, or its first bad line.
    pub fn read(alloc: Global, text: &[u8]) -> Result<Script, ScriptFault>
        ensures { IsRead text.now result }
    {
        let mut reader = Reader::new(alloc);
        match reader.take_all(text) {
            Ok(()) => return reader.finish(),
            Err(fault) => return Err(fault),
        }
    }

    /// How many commands there are.
    pub fn len(&self) -> usize
        ensures { result ≡ length self.now }
    {
        self.commands.len()
    }

    /// The command at a place, which counts from 0.
    pub fn get(&self, place: usize) -> Option<&Command>
        ensures { option_copied result ≡ slice_get self.now place }
    {
        self.commands.get(place)
    }

    /// Adds a command at the end. An `Err` changes nothing.
    pub fn push(&mut self, command: Command) -> Result<(), Memory>
        ensures ok { OnOk result (self.new ≡ self.old ++ command ∷ []) }
        ensures err { OnErr result (self.new ≡ self.old) }
    {
        self.commands.push(command)?;
        Ok(())
    }

    /// The commands, which stay where they are.
    pub(crate) fn commands(&self) -> &Vec<Command>
        ensures { result.now.items ≡ self.now }
    {
        &self.commands
    }
}

/// A script as far as its text has come: the commands of its whole lines, how many these were, and
/// what there is of the next.
#[derive(Drop)]
pub(crate) struct Reader {
    alloc: Global,
    commands: Vec<Command>,
    lines: usize,
    line: Vec<u8>,
}

/// Adds the command of a whole line, where it says one. The line has this number.
fn add_command(
    alloc: Global,
    commands: &mut Vec<Command>,
    line: &[u8],
    number: u64,
) -> Result<(), ScriptFault>
    ensures ok { OnOk result (Adds line.now commands.old.items commands.new.items) }
    ensures refused { IfErr result (IsUnread number line.now) }
{
    if is_idle(line) {
        return Ok(());
    }
    match command_in(alloc, line) {
        Ok(Some(command)) => {
            commands.push(command)?;
            return Ok(());
        }
        Ok(None) => return Err(ScriptFault::BadCommand { line: number }),
        Err(Memory) => return Err(ScriptFault::Memory),
    }
}

/// Whether the line does nothing.
fn is_idle(line: &[u8]) -> bool
    ensures { IsTrue result ↔ IsIdle line.now }
{
    match line.first() {
        None => true,
        Some(first) => *first == b'#',
    }
}

impl From<Memory> for ScriptFault {
    ghost use Rattle.std.specs.Prelude.{◌≡◌};
    ghost use Rattle.grid_editor.specs.declared.script.ScriptFault.TheVariants as fault;

    ghost from_gives = { λ _ e. e ≡ fault.Memory };

    fn from(_: Memory) -> ScriptFault {
        ScriptFault::Memory
    }
}

impl<T: Drop> From<AllocFailed<T>> for ScriptFault {
    ghost use Rattle.std.specs.Prelude.{◌≡◌};
    ghost use Rattle.grid_editor.specs.declared.script.ScriptFault.TheVariants as fault;

    ghost from_gives = { λ _ e. e ≡ fault.Memory };

    fn from(_: AllocFailed<T>) -> ScriptFault {
        ScriptFault::Memory
    }
}

impl Reader {
    pub(crate) fn new(alloc: Global) -> Reader
        ensures so_far { IsSoFar [] result }
        ensures few { result.lines ≤ most_lines }
    {
        Reader {
            alloc,
            commands: Vec::new(alloc),
            lines: 0,
            line: Vec::new(alloc),
        }
    }

    /// Takes a piece of the text.
    pub(crate) fn take_all(&mut self, piece: &[u8]) -> Result<(), ScriptFault>
        requires { self.old.lines ≤ most_lines }
        ensures few { self.new.lines ≤ most_lines }
        ensures taken { (text : List ℕ) → IsSoFar text self.old → IsReadThrough (text ++ piece.now) self.new result }
        ensures smaller { OnOk result (room_of self.new + length piece.now ≤ room_of self.old) }
    {
        'bytes: for byte in piece {
            match self.take(*byte) {
                Ok(()) => {}
                Err(fault) => return Err(fault),
            }
        }
        Ok(())
    }

    /// Takes a byte of the text.
    fn take(&mut self, byte: u8) -> Result<(), ScriptFault>
        requires { self.old.lines ≤ most_lines }
        ensures few { self.new.lines ≤ most_lines }
        ensures taken { (text : List ℕ) → IsSoFar text self.old → IsReadThrough (text ++ byte ∷ []) self.new result }
        ensures smaller { OnOk result (room_of self.new + 1 ≤ room_of self.old) }
    {
        if byte == b'\n' {
            return self.end_line();
        }
        if self.lines >= MOST_LINES {
            return Err(self.bad_line());
        }
        if self.line.len() >= MOST_BYTES {
            return Err(self.bad_line());
        }
        self.line.push(byte)?;
        Ok(())
    }

    /// The line has come to its end.
    fn end_line(&mut self) -> Result<(), ScriptFault>
        requires { self.old.lines ≤ most_lines }
        ensures few { self.new.lines ≤ most_lines }
        ensures ok { OnOk result (Ends self.old self.new) }
        ensures refused { IfErr result (IsLineFault self.old) }
    {
        if self.lines >= MOST_LINES {
            return Err(self.bad_line());
        }
        let number = self.lines as u64 + 1;
        match add_command(self.alloc, &mut self.commands, &self.line, number) {
            Ok(()) => {}
            Err(fault) => return Err(fault),
        }
        self.lines += 1;
        self.line.clear();
        Ok(())
    }

    /// The text has come to its end.
    pub(crate) fn finish(mut self) -> Result<Script, ScriptFault>
        requires { self.lines ≤ most_lines }
        ensures { (text : List ℕ) → IsSoFar text self → IsRead text result }
    {
        if self.line.is_empty() {
            return Ok(Script {
                commands: self.commands,
            });
        }
        match self.end_line() {
            Ok(()) => {
                return Ok(Script {
                    commands: self.commands,
                });
            }
            Err(fault) => return Err(fault),
        }
    }

    fn bad_line(&self) -> ScriptFault
        requires { self.now.lines ≤ most_lines }
        ensures { result ≡ BadCommand (self.now.lines + 1) }
    {
        ScriptFault::BadCommand {
            line: self.lines as u64 + 1,
        }
    }
}
