//! The command `replay`: a schedule of sessions over a host, run in memory, and what it shows.
ghost use Rattle.std.specs.Prelude.{◌≡◌, ◌≢◌, ◌≤◌, ℕ, map, string_bytes};
ghost use Rattle.outside.specs.Faults.{Rose};
ghost use Rattle.line_text.specs.Inputs.{HasRead};
ghost use Rattle.schedule_text.specs.Generator.{generated};
ghost use Rattle.schedule_text.specs.Inputs.{IsUndecided};
ghost use Rattle.replay_cmd.specs.Trace.{summary_text, trace_text};
ghost use Rattle.wopi_program.specs.Replay.{AskReplays, InputReplays, ReplayEnds, Replays};
ghost use Rattle.wopi_program.specs.Words.{IsRow};

use crate::edit::{note_edit, refuse_script};
use crate::replay_words::{ReplayAsk, replay_words};
use crate::telling::say;
use crate::{Command, Meant, Outside};
use line_text::InputFault;
use outside::{Clock, Dialer, Folder, Listener, Log, Sink, Source};
use replay_cmd::{Straight, World, summary_text, trace_text};
use schedule_text::{Schedule, ScheduleFault, generate, read_schedule};
use std::alloc::Global;

/// Runs a schedule, writes what each of its events showed and how it left the files, and gives the
/// status.
fn write_trace<K: Sink>(alloc: Global, schedule: &Schedule, output: &mut K) -> u8
    ensures replays { Replays K.held trace_text schedule.now result output.old output.new }
    ensures cause { result ≡ 4 → Rose (K.write_faults output.old) (K.write_faults output.new) }
{
    let Ok(world) = World::run(alloc, schedule, &mut Straight) else {
        return 6;
    };
    let Ok(text) = trace_text(alloc, &world) else {
        return 6;
    };
    say(output, text.as_slice())
}

/// Runs a schedule, writes how much was sent, answered, refused and saved and how it left the files,
/// and gives the status.
fn write_summary<K: Sink>(alloc: Global, schedule: &Schedule, output: &mut K) -> u8
    ensures replays { Replays K.held summary_text schedule.now result output.old output.new }
    ensures cause { result ≡ 4 → Rose (K.write_faults output.old) (K.write_faults output.new) }
{
    let Ok(world) = World::run(alloc, schedule, &mut Straight) else {
        return 6;
    };
    let Ok(text) = summary_text(alloc, &world) else {
        return 6;
    };
    say(output, text.as_slice())
}

/// Runs the schedule that the whole input is, or tells its first bad line, and gives the status.
fn replay_input<S: Source, K: Sink, F: Folder, N: Listener, D: Dialer, C: Clock, G: Log>(
    alloc: Global,
    outside: &mut Outside<S, K, F, N, D, C, G>,
) -> u8
    ensures replays { InputReplays ⟦<Outside<S, K, F, N, D, C, G> as Meant<S, K, F, N, D, C, G, N::Link>>⟧.meanings result outside.old outside.new }
    ensures read_cause { result ≡ 3 → Rose (S.read_faults outside.old.input) (S.read_faults outside.new.input) }
    ensures read_cut { result ≡ 3 → HasRead (S.left outside.old.input) (S.left outside.new.input) IsUndecided }
    ensures read_fine { result ≢ 3 → S.read_faults outside.new.input ≡ S.read_faults outside.old.input }
    ensures write_cause { result ≡ 4 → Rose (K.write_faults outside.old.output) (K.write_faults outside.new.output) }
    ensures others { outside.new ≡ record outside.old { input = outside.new.input; output = outside.new.output } }
{
    match read_schedule(alloc, &mut outside.input) {
        Ok(schedule) => return write_trace(alloc, &schedule, &mut outside.output),
        Err(InputFault::Text(ScheduleFault::BadLine { line })) => {
            return refuse_script(alloc, &mut outside.output, line);
        }
        Err(InputFault::Text(ScheduleFault::Memory)) => return 6,
        Err(InputFault::Read) => return 3,
    }
}

/// Runs the schedule that is made from two numbers, and gives the status.
fn replay_generated<K: Sink>(alloc: Global, seed: u64, count: u32, output: &mut K) -> u8
    requires { count ≤ 10000 }
    ensures replays { Replays K.held summary_text (generated seed count) result output.old output.new }
    ensures cause { result ≡ 4 → Rose (K.write_faults output.old) (K.write_faults output.new) }
{
    let Ok(schedule) = generate(alloc, seed, count) else {
        return 6;
    };
    write_summary(alloc, &schedule, output)
}

/// Runs the schedule that is asked for, and gives the status.
fn replay<S: Source, K: Sink, F: Folder, N: Listener, D: Dialer, C: Clock, G: Log>(
    alloc: Global,
    ask: ReplayAsk,
    outside: &mut Outside<S, K, F, N, D, C, G>,
) -> u8
    requires { (seed : ℕ) (count : ℕ) → ask ≡ ReplayAsk.Generated seed count → count ≤ 10000 }
    ensures replays { AskReplays ⟦<Outside<S, K, F, N, D, C, G> as Meant<S, K, F, N, D, C, G, N::Link>>⟧.meanings ask result outside.old outside.new }
    ensures read_cause { result ≡ 3 → Rose (S.read_faults outside.old.input) (S.read_faults outside.new.input) }
    ensures read_cut { result ≡ 3 → HasRead (S.left outside.old.input) (S.left outside.new.input) IsUndecided }
    ensures read_fine { result ≢ 3 → S.read_faults outside.new.input ≡ S.read_faults outside.old.input }
    ensures write_cause { result ≡ 4 → Rose (K.write_faults outside.old.output) (K.write_faults outside.new.output) }
    ensures others { outside.new ≡ record outside.old { input = outside.new.input; output = outside.new.output } }
{
    match ask {
        ReplayAsk::Input => return replay_input(alloc, outside),
        ReplayAsk::Generated { seed, count } => {
            return replay_generated(alloc, seed, count, &mut outside.output);
        }
    }
}

/// Runs the schedule that the words ask for: the one that the input is, whose trace it writes, or one
/// that is made from two numbers, whose summary it writes.
#[tactic(auto, using(crate::proofs::ReplayRows::few_events))]
pub fn run_replay<S: Source, K: Sink, F: Folder, N: Listener, D: Dialer, C: Clock, G: Log>(
    alloc: Global,
    words: &[String],
    outside: &mut Outside<S, K, F, N, D, C, G>,
) -> u8
    requires { IsRow (map string_bytes words.now) Command.Replay }
    ensures { ReplayEnds ⟦<Outside<S, K, F, N, D, C, G> as Meant<S, K, F, N, D, C, G, N::Link>>⟧.meanings (map string_bytes words.now) result outside.old outside.new }
{
    let Some(ask) = replay_words(words) else {
        unreachable!()
    };
    let status = replay(alloc, ask, outside);
    note_edit(&mut outside.notes, status);
    status
}
