//! Playing a PRG file on the screen.
ghost use Rattle.std.specs.Prelude.{[], ◌≤◌, vec_len};
ghost use Rattle.tb_engine_streams.specs.Uses.{use_of};
ghost use Rattle.tb_engines.specs.Programs.{StartsPrg};
ghost use Rattle.tb_engine_play.specs.Lines.{most_typed};
ghost use Rattle.tb_engine_screen.specs.Files.{PlaysFile, WritesFileBeforeReading};
ghost use Rattle.tb_engine_screen.specs.Talks.{PlayFaults};

use crate::talk::play_on_screen;
use std::alloc::Global;
use std::io::{Read, Write};
use tb_engine_play::Played;
use tb_engine_streams::Tracked;
use tb_engines::{NoText, Outcome, start_file};
use tb_kernal::{Keyboard, Machine};

// The machine at the start of a PRG file, with nothing typed.
fn start(alloc: Global, file: &[u8]) -> Result<Machine, NoText>
    ensures { StartsPrg [] [] file.now result }
{
    let keyboard = Keyboard {
        text: Vec::new(alloc),
        answers: Vec::new(alloc),
    };
    start_file(alloc, file, keyboard)
}

/// Plays a PRG file on the screen: its machine starts as `play_file` of tb_engine_play starts it, and is played by
/// `play_on_screen`. Nothing is written if the file is refused.
pub fn play_file_on_screen<R: Read, W: Write>(
    alloc: Global,
    file: &[u8],
    keys: &mut Tracked<R>,
    writer: &mut Tracked<W>,
    limit: u64,
) -> Played
    ensures dialogue { PlaysFile limit file.now result.outcome result.typed.items
        (use_of R.remaining keys.old keys.new) (use_of W.contents writer.old writer.new) }
    ensures written_first { WritesFileBeforeReading limit file.now
        (use_of R.remaining keys.old keys.new) (use_of W.contents writer.old writer.new) }
    ensures within { vec_len result.typed ≤ most_typed }
    ensures faults { PlayFaults result.outcome (use_of R.remaining keys.old keys.new) (use_of W.contents writer.old writer.new) }
{
    match start(alloc, file) {
        Ok(mut machine) => play_on_screen(alloc, &mut machine, keys, writer, limit),
        Err(stop) => Played {
            outcome: Outcome::from(stop),
            typed: Vec::new(alloc),
        },
    }
}
