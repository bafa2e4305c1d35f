//! A machine that is talked to, and its screen.
ghost use Rattle.std.specs.Prelude.{◌≡◌, ◌≤◌, [], drop, vec_len};
ghost use Rattle.tb_engine_streams.specs.Uses.{use_of};
ghost use Rattle.tb_machine_screen.specs.Contents.{first_content};
ghost use Rattle.tb_engine_play.specs.Lines.{most_typed};
ghost use Rattle.tb_engine_play.specs.Plays.{PlayFaults as TalkFaults};
ghost use Rattle.tb_engine_play.specs.Talks.{is_waiting};
ghost use Rattle.tb_engine_screen.specs.Talks.{GoesOn, LeaveFaults, Leaves, PlayFaults, Plays, PlaysAndLeaves, WritesBeforeReading};

use crate::hearing::hear;
use std::alloc::Global;
use std::io::{Read, Write};
use tb_engine_play::{MOST_TYPED, Played};
use tb_engine_streams::{Tracked, write_output};
use tb_engines::{End, Outcome, end_of};
use tb_kernal::{Machine, Quiet, Status, run};
use tb_machine_screen::{Screen, closing, frame};

// Whether the machine waits for a key.
fn is_waiting(status: Status) -> bool
    ensures { result ≡ is_waiting status }
{
    matches!(status, Status::Waits)
}

// What a machine sent after the first `written` bytes.
fn sent_after(machine: &Machine, written: usize) -> &[u8]
    ensures { result.now ≡ drop written machine.now.sent }
{
    machine.sent().get(written..).unwrap_or(&[])
}

// Runs a machine for at most `limit` events, prints what it sent meanwhile, and writes the frame of the screen.
fn go_on<W: Write>(
    alloc: Global,
    machine: &mut Machine,
    screen: &mut Screen,
    writer: &mut Tracked<W>,
    limit: u64,
) -> Result<Status, Outcome>
    ensures { GoesOn limit machine.old screen.old result machine.new screen.new
        (use_of W.contents writer.old writer.new) }
{
    let written = machine.sent().len();
    let status = run(machine, &mut Quiet, limit)?;
    screen.print_all(sent_after(machine, written));
    let text = frame(alloc, screen)?;
    match write_output(writer, text.as_bytes()) {
        Ok(()) => Ok(status),
        Err(_) => Err(Outcome::WriteFault),
    }
}

// Runs and hears in turn, until the machine stops or no line is left to be typed.
fn talk<R: Read, W: Write>(
    alloc: Global,
    machine: &mut Machine,
    keys: &mut Tracked<R>,
    writer: &mut Tracked<W>,
    limit: u64,
    typed: &mut Vec<u8>,
) -> Outcome
    requires { typed.old.items ≡ [] }
    ensures dialogue { Plays limit machine.old result typed.new.items
        (use_of R.remaining keys.old keys.new) (W.contents writer.old.stream) (W.contents writer.new.stream) }
    ensures written_first { WritesBeforeReading limit machine.old
        (use_of R.remaining keys.old keys.new) (use_of W.contents writer.old writer.new) }
    ensures within { vec_len typed.new ≤ most_typed }
    ensures faults { TalkFaults result (use_of R.remaining keys.old keys.new) (use_of W.contents writer.old writer.new) }
{
    let mut screen = Screen::new();
    'talking: while typed.len() <= MOST_TYPED {
        let status = match go_on(alloc, machine, &mut screen, writer, limit) {
            Ok(status) => status,
            Err(outcome) => return outcome,
        };
        if !is_waiting(status) {
            return Outcome::Ended(end_of(status, machine.regs().pc));
        }
        match hear(alloc, machine, &mut screen, keys, typed) {
            Ok(true) => {}
            Ok(false) => return Outcome::Ended(End::WaitsForKey),
            Err(outcome) => return outcome,
        }
    }
    unreachable!()
}

// Leaves the terminal by this text, unless it takes no text any more.
fn leave<W: Write>(writer: &mut Tracked<W>, outcome: Outcome, text: &[u8]) -> Outcome
    ensures text { Leaves outcome result text.now (W.contents writer.old.stream) (W.contents writer.new.stream) }
    ensures faults { LeaveFaults outcome result (use_of W.contents writer.old writer.new) }
{
    match outcome {
        Outcome::WriteFault => outcome,
        Outcome::Ended(_) | Outcome::Refused(_) | Outcome::ReadFault | Outcome::NoMemory => {
            match write_output(writer, text) {
                Ok(()) => outcome,
                Err(_) => Outcome::WriteFault,
            }
        }
    }
}

/// Plays a machine to which nothing is typed yet, on a blank screen. It runs until it waits for a key, stops or has taken
/// `limit` events; then what it sent is printed on the screen, and the screen's frame is written and flushed. If it
/// waits, a line is read and typed (its letters as capitals, then a return), shown on the screen as the machine's editor
/// shows it, and it runs on, until no line is left. At the end the terminal is left.
///
/// No byte of a line is taken before the frame of all that the machine had sent by then is written, however playing ends.
pub fn play_on_screen<R: Read, W: Write>(
    alloc: Global,
    machine: &mut Machine,
    keys: &mut Tracked<R>,
    writer: &mut Tracked<W>,
    limit: u64,
) -> Played
    ensures dialogue { PlaysAndLeaves limit machine.old result.outcome result.typed.items
        (use_of R.remaining keys.old keys.new) (use_of W.contents writer.old writer.new) }
    ensures written_first { WritesBeforeReading limit machine.old
        (use_of R.remaining keys.old keys.new) (use_of W.contents writer.old writer.new) }
    ensures within { vec_len result.typed ≤ most_typed }
    ensures faults { PlayFaults result.outcome (use_of R.remaining keys.old keys.new) (use_of W.contents writer.old writer.new) }
{
    let mut typed = Vec::new(alloc);
    let Ok(last) = closing(alloc) else {
        return Played {
            outcome: Outcome::NoMemory,
            typed,
        };
    };
    let outcome = talk(alloc, machine, keys, writer, limit, &mut typed);
    Played {
        outcome: leave(writer, outcome, last.as_bytes()),
        typed,
    }
}
