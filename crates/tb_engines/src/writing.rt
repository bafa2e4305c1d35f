//! Runs whose output is written as it comes.
ghost use Rattle.std.specs.Prelude.{◌≡◌, ◌≤◌, IfOk, OnErr, drop, length};
ghost use Rattle.std.specs.Io.KnownBytes.{Keeps};
ghost use Rattle.tb_kernal.specs.Machine.{state_of};
ghost use Rattle.tb_engine_streams.specs.Uses.{use_of, NeverFails};
ghost use Rattle.tb_engines.specs.Writing.{RanStretch, RanWriting};

use std::alloc::AllocError;
use std::io::Write;
use tb_basic_text::Notation;
use tb_engine_streams::{Tracked, write_shown};
use tb_kernal::{Machine, Outside, STRETCH, Status, Watch, run};

/// How many of the last bytes that were sent a machine keeps after they were written: more than a fault's text has.
const KEPT_SENT: usize = 16;

/// The room of which a stretch can't run out, whatever was kept of those before it.
const ROOM: usize = STRETCH as usize + KEPT_SENT;

/// How a machine stands after some events, and whether all that it sent is written.
#[derive(Clone, Copy, PartialEq, Eq, Debug, Drop)]
pub struct WrittenRun {
    pub status: Status,
    pub is_written: bool,
}

// What a machine sent after the first `before` bytes.
fn sent_after(machine: &Machine, before: usize) -> &[u8]
    requires { before ≤ length machine.now.sent }
    ensures { result.now ≡ drop before machine.now.sent }
{
    &machine.sent()[before..]
}

/// Lets the events of an outside happen, as `run` does, and then writes what the machine sent meanwhile, as a notation
/// shows it (`write_shown`), unless the writer has failed before. Of what was sent the machine keeps the last bytes, and
/// has room for more. It takes no memory.
pub fn run_stretch<O: Outside, W: Write>(
    machine: &mut Machine,
    outside: &mut O,
    limit: u64,
    writer: &mut Tracked<W>,
    is_written: bool,
    notation: Notation,
) -> WrittenRun
    requires room { limit ≤ machine.old.room }
    ensures { RanStretch O.gives outside.old machine.old limit result.status outside.new machine.new
        notation is_written result.is_written (use_of W.contents writer.old writer.new) }
{
    let before = machine.sent().len();
    let status = match run(machine, outside, limit) {
        Ok(status) => status,
        Err(_) => unreachable!(),
    };
    let is_written = is_written
        && write_shown(writer, sent_after(machine, before), notation).is_ok();
    machine.forget_sent(KEPT_SENT);
    WrittenRun { status, is_written }
}

/// Lets the events of an outside happen, as `run` does, in stretches of `STRETCH` events; after each what was sent in it is
/// written, as `run_stretch` says, and a watch hears how many events were taken. Where the writer fails, the run goes on,
/// and nothing more is written. Room for what a stretch may send is asked for before the first event: AllocError comes only
/// if that was refused, and then nothing happened.
pub fn run_writing<O: Outside, W: Write, V: Watch>(
    machine: &mut Machine,
    outside: &mut O,
    limit: u64,
    writer: &mut Tracked<W>,
    watch: &mut V,
    notation: Notation,
) -> Result<WrittenRun, AllocError>
    ensures ran { IfOk result (λ run. RanWriting O.gives V.hears outside.old machine.old watch.old limit run.status
        outside.new machine.new watch.new notation run.is_written (use_of W.contents writer.old writer.new)) }
    ensures refused { OnErr result ((machine.new ≡ machine.old) × (writer.new ≡ writer.old)) }
{
    machine.reserve(ROOM)?;
    watch.began();
    let mut left = limit;
    let mut is_written = true;
    'stretches: loop {
        let stretch = left.min(STRETCH);
        let run = run_stretch(machine, outside, stretch, writer, is_written, notation);
        if !run.status.is_running() || stretch == left {
            watch.ended();
            return Ok(run);
        }
        is_written = run.is_written;
        left -= stretch;
        watch.took(limit - left);
    }
}
