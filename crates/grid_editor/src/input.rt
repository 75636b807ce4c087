//! A script, read from an input piece by piece.
ghost use Rattle.std.specs.Prelude.{◌≡◌, ◌≢◌, ◌≤◌, Err, OnOk};
ghost use Rattle.std.specs.Io.KnownBytes.{IsAtEnd};
ghost use Rattle.outside.specs.Faults.{Rose};
ghost use Rattle.line_text.specs.Inputs.{HasRead};
ghost use Rattle.line_text.specs.declared.input.InputFault.TheVariants.{Read};
ghost use Rattle.grid_editor.specs.Inputs.{IsInputRead, IsUndecided};

use crate::script::{Reader, Script, ScriptFault};
use line_text::{InputFault, TakesText, read_text};
use outside::{Source, piece_room};
use std::alloc::Global;

impl TakesText for Reader {
    ghost use Rattle.std.specs.Prelude.{ℕ, List};
    ghost use Rattle.grid_editor.specs.Inputs.{IsRefused};
    ghost use Rattle.grid_editor.specs.Reading.{IsSoFar, room_of};

    type Fault = ScriptFault;

    ghost has_come = { λ reader text. IsSoFar text reader };

    ghost refuses = { IsRefused };

    ghost portion = { λ _. 65536 };

    ghost room = { room_of };

    fn portion(&self) -> usize {
        65_536
    }

    fn take(&mut self, piece: &[u8]) -> Result<(), ScriptFault> {
        self.take_all(piece)
    }
}

/// The script that all the bytes of an input are. It is read to its end, or to the piece in which
/// its first bad line shows.
pub fn read_script<S: Source>(
    alloc: Global,
    source: &mut S,
) -> Result<Script, InputFault<ScriptFault>>
    ensures read { IsInputRead (S.left source.old) result }
    ensures whole { OnOk result (IsAtEnd (S.left source.new)) }
    ensures prompt { result ≡ Err Read → HasRead (S.left source.old) (S.left source.new) IsUndecided }
    ensures beside { S.beside_reads source.new ≡ S.beside_reads source.old }
    ensures never_falls { S.read_faults source.old ≤ S.read_faults source.new }
    ensures fine { result ≢ Err Read → S.read_faults source.new ≡ S.read_faults source.old }
    ensures failed { result ≡ Err Read → Rose (S.read_faults source.old) (S.read_faults source.new) }
{
    let Ok(mut piece) = piece_room(alloc) else {
        return Err(InputFault::Text(ScriptFault::Memory));
    };
    let mut reader = Reader::new(alloc);
    match read_text(source, &mut piece[0..], &mut reader) {
        Ok(()) => {}
        Err(fault) => return Err(fault),
    }
    match reader.finish() {
        Ok(script) => return Ok(script),
        Err(fault) => return Err(InputFault::Text(fault)),
    }
}
