//! A machine that is talked to.
ghost use Rattle.std.specs.Prelude.{◌≡◌, ◌≤◌, [], IfOk, vec_len};
ghost use Rattle.tb_engine_streams.specs.Uses.{use_of};
ghost use Rattle.tb_engine_play.specs.Talks.{is_waiting, Goes, Hears, LeavesRest, Plays, WritesBeforeReading};
ghost use Rattle.tb_engine_play.specs.Plays.{PlayFaults, Records};
ghost use Rattle.tb_engine_play.specs.Lines.{most_typed};

use crate::lines::{MOST_TYPED, read_keys};
use std::alloc::{AllocError, Global};
use std::io::{Read, Write};
use tb_basic_text::Notation;
use tb_engine_streams::{Tracked, key_file};
use tb_engines::{End, Outcome, end_of, run_writing};
use tb_kernal::{Machine, Quiet, Status, Unwatched};

/// How playing ended, and all that was typed.
#[derive(Debug, Drop)]
pub struct Played {
    pub outcome: Outcome,
    /// The bytes that were handed to the keyboard, in order.
    pub typed: Vec<u8>,
}

impl Played {
    /// The text of the key file that records what was typed. There is one only if playing ended: no stream failed, and
    /// memory was found.
    pub fn recorded(&self, alloc: Global) -> Result<Option<Vec<u8>>, AllocError>
        ensures { IfOk result (Records self.now.outcome self.now.typed.items) }
    {
        match self.outcome {
            Outcome::Ended(_) => Ok(Some(key_file(alloc, self.typed.as_slice())?)),
            Outcome::Refused(_) | Outcome::ReadFault | Outcome::WriteFault | Outcome::NoMemory => {
                Ok(None)
            }
        }
    }
}

// Whether the machine waits for a key.
fn is_waiting(status: Status) -> bool
    ensures { result ≡ is_waiting status }
{
    matches!(status, Status::Waits)
}

// Runs a machine for at most `limit` events, and writes what it sends as it comes.
fn go_on<W: Write>(
    machine: &mut Machine,
    writer: &mut Tracked<W>,
    limit: u64,
) -> Result<Status, Outcome>
    ensures { Goes limit machine.old result machine.new (use_of W.contents writer.old writer.new) }
{
    let run = run_writing(
        machine,
        &mut Quiet,
        limit,
        writer,
        &mut Unwatched,
        Notation::Plain,
    )?;
    if run.is_written {
        Ok(run.status)
    } else {
        Err(Outcome::WriteFault)
    }
}

// Reads a line and types it; answers whether there was one.
fn hear<R: Read>(
    alloc: Global,
    machine: &mut Machine,
    keys: &mut Tracked<R>,
    typed: &mut Vec<u8>,
) -> Result<bool, Outcome>
    requires { vec_len typed.old ≤ most_typed }
    ensures { Hears machine.old typed.old.items result machine.new typed.new.items (use_of R.remaining keys.old keys.new) }
{
    let Some(line) = read_keys(alloc, keys, MOST_TYPED - typed.len())? else {
        return Ok(false);
    };
    machine.type_text(line.as_slice())?;
    typed.extend_from_slice(line.as_slice())?;
    Ok(true)
}

// Runs and hears in turn, until the machine stops or no line is left to be typed.
fn talk<R: Read, W: Write>(
    alloc: Global,
    machine: &mut Machine,
    keys: &mut Tracked<R>,
    writer: &mut Tracked<W>,
    limit: u64,
    typed: &mut Vec<u8>,
) -> Outcome
    requires nothing_typed { typed.old.items ≡ [] }
    requires nothing_sent { machine.old.sent ≡ [] }
    ensures dialogue { Plays limit machine.old result typed.new.items
        (use_of R.remaining keys.old keys.new) (use_of W.contents writer.old writer.new) }
    ensures written_first { WritesBeforeReading limit machine.old
        (use_of R.remaining keys.old keys.new) (use_of W.contents writer.old writer.new) }
    ensures left { LeavesRest limit machine.old result typed.new.items machine.new }
    ensures within { vec_len typed.new ≤ most_typed }
    ensures faults { PlayFaults result (use_of R.remaining keys.old keys.new) (use_of W.contents writer.old writer.new) }
{
    'talking: while typed.len() <= MOST_TYPED {
        let status = match go_on(machine, writer, limit) {
            Ok(status) => status,
            Err(outcome) => return outcome,
        };
        if !is_waiting(status) {
            return Outcome::Ended(end_of(status, machine.regs().pc));
        }
        match hear(alloc, machine, keys, typed) {
            Ok(true) => {}
            Ok(false) => return Outcome::Ended(End::WaitsForKey),
            Err(outcome) => return outcome,
        }
    }
    unreachable!()
}

/// Plays a machine to which nothing is typed yet and which has sent nothing. It runs until it waits for a key, stops or
/// has taken `limit` events; what it sends is written in the host form as it comes (`run_writing`). If it waits, a line is
/// read and typed (its letters as capitals, then a return), and it runs on, until no line is left.
///
/// No byte of a line is taken before all that the machine had sent by then is written, however playing ends. Of what was
/// sent the machine that is left may have forgotten the beginning.
pub fn play<R: Read, W: Write>(
    alloc: Global,
    machine: &mut Machine,
    keys: &mut Tracked<R>,
    writer: &mut Tracked<W>,
    limit: u64,
) -> Played
    requires { machine.old.sent ≡ [] }
    ensures dialogue { Plays limit machine.old result.outcome result.typed.items
        (use_of R.remaining keys.old keys.new) (use_of W.contents writer.old writer.new) }
    ensures written_first { WritesBeforeReading limit machine.old
        (use_of R.remaining keys.old keys.new) (use_of W.contents writer.old writer.new) }
    ensures left { LeavesRest limit machine.old result.outcome result.typed.items machine.new }
    ensures within { vec_len result.typed ≤ most_typed }
    ensures faults { PlayFaults result.outcome (use_of R.remaining keys.old keys.new) (use_of W.contents writer.old writer.new) }
{
    let mut typed = Vec::new(alloc);
    let outcome = talk(alloc, machine, keys, writer, limit, &mut typed);
    Played { outcome, typed }
}
