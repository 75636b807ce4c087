//! A schedule, read from an input piece by piece.
ghost use Rattle.std.specs.Prelude.{◌≡◌, ◌≢◌, ◌≤◌, Err, OnOk};
ghost use Rattle.std.specs.Io.KnownBytes.{IsAtEnd};
ghost use Rattle.outside.specs.Faults.{Rose};
ghost use Rattle.line_text.specs.Inputs.{HasRead};
ghost use Rattle.line_text.specs.declared.input.InputFault.TheVariants.{Read};
ghost use Rattle.schedule_text.specs.Inputs.{IsInputRead, IsUndecided};

use crate::pieces::PieceReader;
use crate::reading::ScheduleFault;
use crate::schedule::Schedule;
use line_text::{InputFault, TakesText, read_text};
use outside::{Source, piece_room};
use std::alloc::Global;

impl TakesText for PieceReader {
    ghost use Rattle.std.specs.Prelude.{ℕ, List, []};
    ghost use Rattle.schedule_text.specs.Pieces.{HasCome, IsFault, room_of};

    type Fault = ScheduleFault;

    ghost has_come = { λ pieces text. HasCome text [] pieces };

    ghost refuses = { IsFault };

    ghost portion = { λ _. 65536 };

    ghost room = { room_of };

    fn portion(&self) -> usize {
        65_536
    }

    fn take(&mut self, piece: &[u8]) -> Result<(), ScheduleFault> {
        self.take_all(piece)
    }
}

/// The schedule that all the bytes of an input are. It is read to its end, or to the piece in which
/// its first bad line shows.
pub fn read_schedule<S: Source>(
    alloc: Global,
    source: &mut S,
) -> Result<Schedule, InputFault<ScheduleFault>>
    ensures read { IsInputRead (S.left source.old) result }
    ensures whole { OnOk result (IsAtEnd (S.left source.new)) }
    ensures prompt { result ≡ Err Read → HasRead (S.left source.old) (S.left source.new) IsUndecided }
    ensures beside { S.beside_reads source.new ≡ S.beside_reads source.old }
    ensures never_falls { S.read_faults source.old ≤ S.read_faults source.new }
    ensures fine { result ≢ Err Read → S.read_faults source.new ≡ S.read_faults source.old }
    ensures failed { result ≡ Err Read → Rose (S.read_faults source.old) (S.read_faults source.new) }
{
    let Ok(mut piece) = piece_room(alloc) else {
        return Err(InputFault::Text(ScheduleFault::Memory));
    };
    let mut pieces = PieceReader::new(alloc);
    match read_text(source, &mut piece[0..], &mut pieces) {
        Ok(()) => {}
        Err(fault) => return Err(fault),
    }
    match pieces.finish() {
        Ok(schedule) => return Ok(schedule),
        Err(fault) => return Err(InputFault::Text(fault)),
    }
}
