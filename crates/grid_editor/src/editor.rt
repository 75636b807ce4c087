//! The editor: a session, the sheet that it opened, and what each command makes of both.
ghost use Rattle.std.specs.Prelude.{◌≡◌, ◌≤◌, None, IfOk, IsErrOf};
ghost use Rattle.outside.specs.Faults.{Rose};
ghost use Rattle.save_session.specs.Session.{new_session};
ghost use Rattle.save_session.specs.Views.{nonce_of, state_of};
ghost use Rattle.wopi_client.specs.Talk.{Exchanged};
ghost use Rattle.grid_editor.specs.Turns.{Copies, Does, Drives, IsAlone, Refreshes, Saves};
ghost use Rattle.grid_editor.specs.Runs.{Commands, Runs, Writes};

use crate::command::Command;
use crate::script::Script;
use crate::sheet::Sheet;
use crate::turns::{EditFault, Turn, Went, copy_told, done, not_open, taken, writes};
use outside::{Dialer, Failed, Sink, write_whole};
use save_session::{Input, Nonce, Session};
use std::alloc::Global;
use wopi_client::{Desktop, drive, save_as};
use wopi_text::{FileName, Memory};

/// An editor of one sheet at a host.
#[derive(Drop)]
pub struct Editor {
    alloc: Global,
    desktop: Desktop,
    session: Session,
    sheet: Option<Sheet>,
}

impl Editor {
    /// An editor that has opened nothing yet. No other session may have its nonce.
    pub fn new(alloc: Global, desktop: Desktop, nonce: Nonce) -> Result<Editor, Memory>
        ensures desktop { IfOk result (λ editor. editor.desktop ≡ desktop) }
        ensures nonce { IfOk result (λ editor. nonce_of editor.session ≡ nonce) }
        ensures session { IfOk result (λ editor. state_of editor.session ≡ new_session) }
        ensures sheet { IfOk result (λ editor. editor.sheet ≡ None) }
    {
        Ok(Editor {
            alloc,
            desktop,
            session: Session::new(nonce),
            sheet: None,
        })
    }
}

impl Editor {
    /// Does a command: speaks with the host where it has to, and writes the command's line. After a
    /// fault the editor isn't used again.
    pub fn command<D: Dialer, K: Sink>(
        &mut self,
        dialer: &mut D,
        sink: &mut K,
        command: &Command,
    ) -> Result<Went, EditFault>
        ensures desktop { self.new.desktop ≡ self.old.desktop }
        ensures nonce { nonce_of self.new.session ≡ nonce_of self.old.session }
        ensures does { Writes (K.held sink.old) (K.held sink.new) (D.exchanges dialer.old) (D.exchanges dialer.new) (D.faults dialer.old) (D.faults dialer.new)
            (Commands self.old command.now self.new result) }
        ensures never_falls { D.faults dialer.old ≤ D.faults dialer.new }
        ensures writes_never_fall { K.write_faults sink.old ≤ K.write_faults sink.new }
        ensures write_failed { IsErrOf result EditFault.WriteFault → Rose (K.write_faults sink.old) (K.write_faults sink.new) }
    {
        match turn(self, dialer, command) {
            Ok(turn) => match write_whole(sink, turn.line.as_slice()) {
                Ok(()) => return Ok(turn.went),
                Err(Failed) => return Err(EditFault::WriteFault),
            },
            Err(fault) => return Err(fault),
        }
    }

    /// Does the commands of a script, one after another, until one of them ends it.
    pub fn run<D: Dialer, K: Sink>(
        &mut self,
        dialer: &mut D,
        sink: &mut K,
        script: &Script,
    ) -> Result<Went, EditFault>
        ensures desktop { self.new.desktop ≡ self.old.desktop }
        ensures nonce { nonce_of self.new.session ≡ nonce_of self.old.session }
        ensures runs { Writes (K.held sink.old) (K.held sink.new) (D.exchanges dialer.old) (D.exchanges dialer.new) (D.faults dialer.old) (D.faults dialer.new)
            (Runs self.old script.now self.new result) }
        ensures never_falls { D.faults dialer.old ≤ D.faults dialer.new }
        ensures writes_never_fall { K.write_faults sink.old ≤ K.write_faults sink.new }
        ensures write_failed { IsErrOf result EditFault.WriteFault → Rose (K.write_faults sink.old) (K.write_faults sink.new) }
    {
        'commands: for command in script.commands() {
            match self.command(dialer, sink, command) {
                Ok(Went::On) => {}
                Ok(Went::Ended(outcome)) => return Ok(Went::Ended(outcome)),
                Err(fault) => return Err(fault),
            }
        }
        Ok(Went::On)
    }
}

/// What comes of a command, before its line is written.
fn turn<D: Dialer>(
    editor: &mut Editor,
    dialer: &mut D,
    command: &Command,
) -> Result<Turn, EditFault>
    ensures desktop { editor.new.desktop ≡ editor.old.desktop }
    ensures nonce { nonce_of editor.new.session ≡ nonce_of editor.old.session }
    ensures does { Exchanged (D.exchanges dialer.old) (D.exchanges dialer.new) (D.faults dialer.old) (D.faults dialer.new) (Does editor.old command.now editor.new result) }
    ensures no_write { IsErrOf result EditFault.WriteFault → ⊥ }
    ensures never_falls { D.faults dialer.old ≤ D.faults dialer.new }
{
    match command {
        Command::Open => driven(editor, dialer, Input::Start),
        Command::Close => driven(editor, dialer, Input::Close),
        Command::Save => saved(editor, dialer),
        Command::Refresh => refreshed(editor, dialer),
        Command::SaveAs { name } => copied(editor, dialer, name),
        Command::Set { .. } => alone(editor, command),
        Command::InsRow { .. } => alone(editor, command),
        Command::DelRow { .. } => alone(editor, command),
        Command::InsCol { .. } => alone(editor, command),
        Command::DelCol { .. } => alone(editor, command),
        Command::Show => alone(editor, command),
        Command::Values => alone(editor, command),
        Command::Undo => alone(editor, command),
    }
}

/// Drives the session by an input.
fn driven<D: Dialer>(editor: &mut Editor, dialer: &mut D, input: Input) -> Result<Turn, EditFault>
    ensures desktop { editor.new.desktop ≡ editor.old.desktop }
    ensures nonce { nonce_of editor.new.session ≡ nonce_of editor.old.session }
    ensures drives { Exchanged (D.exchanges dialer.old) (D.exchanges dialer.new) (D.faults dialer.old) (D.faults dialer.new) (Drives editor.old input editor.new result) }
    ensures no_write { IsErrOf result EditFault.WriteFault → ⊥ }
    ensures never_falls { D.faults dialer.old ≤ D.faults dialer.new }
{
    let alloc = editor.alloc;
    let came = drive(alloc, &editor.desktop, &mut editor.session, dialer, input);
    taken(alloc, &editor.session, &mut editor.sheet, came)
}

/// Saves the sheet's text, where a sheet is open.
fn saved<D: Dialer>(editor: &mut Editor, dialer: &mut D) -> Result<Turn, EditFault>
    ensures desktop { editor.new.desktop ≡ editor.old.desktop }
    ensures nonce { nonce_of editor.new.session ≡ nonce_of editor.old.session }
    ensures saves { Exchanged (D.exchanges dialer.old) (D.exchanges dialer.new) (D.faults dialer.old) (D.faults dialer.new) (Saves editor.old editor.old.sheet editor.new result) }
    ensures no_write { IsErrOf result EditFault.WriteFault → ⊥ }
    ensures never_falls { D.faults dialer.old ≤ D.faults dialer.new }
{
    let Some(sheet) = &editor.sheet else {
        return not_open(editor.alloc);
    };
    match sheet.write() {
        Ok(text) => return driven(editor, dialer, Input::Save(text)),
        Err(Memory) => return Err(EditFault::Memory),
    }
}

/// Begins the lock's time anew, where a sheet is open.
fn refreshed<D: Dialer>(editor: &mut Editor, dialer: &mut D) -> Result<Turn, EditFault>
    ensures desktop { editor.new.desktop ≡ editor.old.desktop }
    ensures nonce { nonce_of editor.new.session ≡ nonce_of editor.old.session }
    ensures refreshes { Exchanged (D.exchanges dialer.old) (D.exchanges dialer.new) (D.faults dialer.old) (D.faults dialer.new) (Refreshes editor.old editor.old.sheet editor.new result) }
    ensures no_write { IsErrOf result EditFault.WriteFault → ⊥ }
    ensures never_falls { D.faults dialer.old ≤ D.faults dialer.new }
{
    if editor.sheet.is_none() {
        return not_open(editor.alloc);
    }
    driven(editor, dialer, Input::Refresh)
}

/// Saves the sheet's text under another name, where a sheet is open.
fn copied<D: Dialer>(
    editor: &mut Editor,
    dialer: &mut D,
    name: &FileName,
) -> Result<Turn, EditFault>
    ensures same { editor.new ≡ editor.old }
    ensures copies { Exchanged (D.exchanges dialer.old) (D.exchanges dialer.new) (D.faults dialer.old) (D.faults dialer.new) (Copies editor.old editor.old.sheet name.now editor.new result) }
    ensures no_write { IsErrOf result EditFault.WriteFault → ⊥ }
    ensures never_falls { D.faults dialer.old ≤ D.faults dialer.new }
{
    let Some(sheet) = &editor.sheet else {
        return not_open(editor.alloc);
    };
    match sheet.write() {
        Ok(text) => {
            let came = save_as(
                editor.alloc,
                &editor.desktop,
                dialer,
                name.as_str(),
                text.as_slice(),
            );
            return copy_told(editor.alloc, came);
        }
        Err(Memory) => return Err(EditFault::Memory),
    }
}

/// What is done with the sheet alone, where one is open.
fn alone(editor: &mut Editor, command: &Command) -> Result<Turn, EditFault>
    ensures desktop { editor.new.desktop ≡ editor.old.desktop }
    ensures session { editor.new.session ≡ editor.old.session }
    ensures alone { IsAlone editor.old.sheet command.now editor.new.sheet result }
    ensures no_write { IsErrOf result EditFault.WriteFault → ⊥ }
{
    let alloc = editor.alloc;
    let Some(sheet) = &mut editor.sheet else {
        return not_open(alloc);
    };
    match done(alloc, sheet, command) {
        Ok(line) => return Ok(writes(line)),
        Err(Memory) => return Err(EditFault::Memory),
    }
}
