//! Playing a PRG file.
ghost use Rattle.std.specs.Prelude.{◌≡◌, ◌≤◌, [], vec_len};
ghost use Rattle.tb_engine_streams.specs.Uses.{use_of};
ghost use Rattle.tb_engine_play.specs.Plays.{IsStarted, LeavesOfFile, PlaysFile, PlayFaults, RunsTyped, Shows, WritesFileBeforeReading};
ghost use Rattle.tb_engine_play.specs.Lines.{most_typed};

use crate::talk::{Played, play};
use std::alloc::Global;
use std::io::{Read, Write};
use tb_engine_streams::Tracked;
use tb_engines::{NoText, deliver, start_file};
use tb_kernal::{Keyboard, Machine};

// The machine at the start of a PRG file, with nothing typed.
fn start(alloc: Global, file: &[u8]) -> Result<Machine, NoText>
    ensures { IsStarted file.now result }
{
    let keyboard = Keyboard {
        text: Vec::new(alloc),
        answers: Vec::new(alloc),
    };
    start_file(alloc, file, keyboard)
}

/// A PRG file that was played.
#[derive(Drop)]
pub struct PlayedFile {
    pub played: Played,
    /// The machine at the end, if it started.
    pub machine: Option<Machine>,
}

/// Plays a PRG file: its machine starts as `run_prg` starts it, with a quiet ROM, and is played by `play`. Nothing is
/// written if the file is refused.
///
/// What was written is the host form of what that machine sends in one run whose keyboard text is all that was typed:
/// so `run_prg` on that text, and a limit that is large enough, writes the same.
pub fn play_to_end<R: Read, W: Write>(
    alloc: Global,
    file: &[u8],
    keys: &mut Tracked<R>,
    writer: &mut Tracked<W>,
    limit: u64,
) -> PlayedFile
    ensures dialogue { PlaysFile limit file.now result.played.outcome result.played.typed.items
        (use_of R.remaining keys.old keys.new) (use_of W.contents writer.old writer.new) }
    ensures written_first { WritesFileBeforeReading limit file.now
        (use_of R.remaining keys.old keys.new) (use_of W.contents writer.old writer.new) }
    ensures whole { Shows (RunsTyped file.now) result.played.outcome result.played.typed.items (use_of W.contents writer.old writer.new) }
    ensures left { LeavesOfFile limit file.now result.played.outcome result.played.typed.items result.machine }
    ensures within { vec_len result.played.typed ≤ most_typed }
    ensures faults { PlayFaults result.played.outcome (use_of R.remaining keys.old keys.new) (use_of W.contents writer.old writer.new) }
{
    match start(alloc, file) {
        Ok(mut machine) => {
            let played = play(alloc, &mut machine, keys, writer, limit);
            PlayedFile {
                played,
                machine: Some(machine),
            }
        }
        Err(stop) => PlayedFile {
            played: Played {
                outcome: deliver(writer, Err(stop)),
                typed: Vec::new(alloc),
            },
            machine: None,
        },
    }
}

/// Plays a PRG file as `play_to_end` does, and lets the machine go.
pub fn play_file<R: Read, W: Write>(
    alloc: Global,
    file: &[u8],
    keys: &mut Tracked<R>,
    writer: &mut Tracked<W>,
    limit: u64,
) -> Played
    ensures dialogue { PlaysFile limit file.now result.outcome result.typed.items
        (use_of R.remaining keys.old keys.new) (use_of W.contents writer.old writer.new) }
    ensures written_first { WritesFileBeforeReading limit file.now
        (use_of R.remaining keys.old keys.new) (use_of W.contents writer.old writer.new) }
    ensures whole { Shows (RunsTyped file.now) result.outcome result.typed.items (use_of W.contents writer.old writer.new) }
    ensures within { vec_len result.typed ≤ most_typed }
    ensures faults { PlayFaults result.outcome (use_of R.remaining keys.old keys.new) (use_of W.contents writer.old writer.new) }
{
    play_to_end(alloc, file, keys, writer, limit).played
}
