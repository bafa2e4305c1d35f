//! Playing a source: the keyboard is a person.
ghost use Rattle.std.specs.Prelude.{◌≤◌, vec_len};
ghost use Rattle.tb_engine_streams.specs.Uses.{use_of};
ghost use Rattle.tb_engine_play.specs.Plays.{LeavesOfFile, PlaysFile, PlayFaults, RunsTyped, Shows, WritesFileBeforeReading};
ghost use Rattle.tb_compiled.specs.Compiled.{prg_of};
ghost use Rattle.tb_engine_sources.specs.Output.{ShowsSources};
ghost use Rattle.tb_engine_sources.specs.Playing.{TellsLeft, TellsPlay};
ghost use Rattle.tb_engine_play.specs.Lines.{most_typed};

use crate::notes::{EndNote, end_note};
use std::alloc::Global;
use std::io::{Read, Write};
use tb_compiled::Compiled;
use tb_engine_play::{Played, PlayedFile, play_to_end};
use tb_engine_streams::Tracked;
use tb_engines::Outcome;

/// A program that was played: how that ended, and what the machine told then.
#[derive(Debug, Drop)]
pub struct NotedPlay {
    pub played: Played,
    pub note: Option<EndNote>,
}

/// Plays the PRG file of a program that `read_source` answered, as `play_to_end` does.
///
/// What was written is the source's output on the keyboard text that was typed: all of it if the program returned or
/// waits for a key, and a prefix at the limit of events; and at a fault that on what was typed up to there.
pub fn play_compiled<R: Read, W: Write>(
    alloc: Global,
    file: &[u8],
    keys: &mut Tracked<R>,
    writer: &mut Tracked<W>,
    limit: u64,
) -> PlayedFile
    ensures dialogue { PlaysFile limit file.now result.played.outcome result.played.typed.items
        (use_of R.remaining keys.old keys.new) (use_of W.contents writer.old writer.new) }
    ensures written_first { WritesFileBeforeReading limit file.now
        (use_of R.remaining keys.old keys.new) (use_of W.contents writer.old writer.new) }
    ensures whole { Shows (RunsTyped file.now) result.played.outcome result.played.typed.items (use_of W.contents writer.old writer.new) }
    ensures output { ShowsSources file.now result.played.outcome result.played.typed.items (use_of W.contents writer.old writer.new) }
    ensures left { LeavesOfFile limit file.now result.played.outcome result.played.typed.items result.machine }
    ensures within { vec_len result.played.typed ≤ most_typed }
    ensures faults { PlayFaults result.played.outcome (use_of R.remaining keys.old keys.new) (use_of W.contents writer.old writer.new) }
{
    play_to_end(alloc, file, keys, writer, limit)
}

// What the machine tells that played a program, where playing ended.
fn left_note(left: &PlayedFile, program: &Compiled) -> Option<EndNote>
    ensures { TellsLeft program.now left.now.played.outcome left.now.machine result }
{
    match (left.played.outcome, &left.machine) {
        (Outcome::Ended(_), Some(machine)) => end_note(machine, program),
        _ => None,
    }
}

/// Plays a program as `play_compiled` plays its PRG file. The answer tells at which line it stopped or waits, or by which
/// fault its program ended.
pub fn play_noted<R: Read, W: Write>(
    alloc: Global,
    program: &Compiled,
    keys: &mut Tracked<R>,
    writer: &mut Tracked<W>,
    limit: u64,
) -> NotedPlay
    ensures dialogue { PlaysFile limit (prg_of program.now) result.played.outcome result.played.typed.items
        (use_of R.remaining keys.old keys.new) (use_of W.contents writer.old writer.new) }
    ensures written_first { WritesFileBeforeReading limit (prg_of program.now)
        (use_of R.remaining keys.old keys.new) (use_of W.contents writer.old writer.new) }
    ensures whole { Shows (RunsTyped (prg_of program.now)) result.played.outcome result.played.typed.items (use_of W.contents writer.old writer.new) }
    ensures output { ShowsSources (prg_of program.now) result.played.outcome result.played.typed.items (use_of W.contents writer.old writer.new) }
    ensures note { TellsPlay limit program.now result.played.outcome result.played.typed.items result.note }
    ensures within { vec_len result.played.typed ≤ most_typed }
    ensures faults { PlayFaults result.played.outcome (use_of R.remaining keys.old keys.new) (use_of W.contents writer.old writer.new) }
{
    let left = play_compiled(alloc, program.prg(), keys, writer, limit);
    let note = left_note(&left, program);
    NotedPlay {
        played: left.played,
        note,
    }
}
