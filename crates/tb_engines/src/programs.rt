//! Running a PRG file.
ghost use Rattle.std.specs.Prelude.{◌≡◌, []};
ghost use Rattle.tb_kernal.specs.Machine.{state_of, status};
ghost use Rattle.tb_kernal.specs.Hearing.{hearing_of};
ghost use Rattle.tb_engine_streams.specs.Uses.{use_of, TakesInput};
ghost use Rattle.tb_engines.specs.Outcomes.{Answers, AnswersInput, Faults};
ghost use Rattle.tb_engines.specs.Delivery.{DeliveryFaults};
ghost use Rattle.tb_engines.specs.Ends.{ByOutcome, LeavesRun, OfRun, TellsFile, end_place};
ghost use Rattle.tb_engines.specs.Programs.{end_of, plain_settings_of, RunsOn, RunsPrg};

use crate::loading::start_file;
use crate::outcome::{End, Outcome};
use crate::writing::run_writing;
use std::alloc::Global;
use std::io::{Read, Write};
use tb_basic_text::Notation;
use tb_engine_streams::{Tracked, read_input};
use tb_kernal::{Keyboard, Machine, Outside, Status, Unwatched, Watch};

/// What a program is run with: its keyboard, and the most events that it may take.
#[derive(Drop)]
pub struct RunSettings {
    pub keyboard: Keyboard,
    pub limit: u64,
}

/// A run of a PRG file: how it ended, and where the program counter was then, unless the program returned.
#[derive(Debug, Drop)]
pub struct PrgRun {
    pub outcome: Outcome,
    pub place: Option<u16>,
}

/// How a run ends, by the status of its machine and its PC.
pub fn end_of(status: Status, pc: u16) -> End
    ensures { result ≡ end_of status pc }
{
    match status {
        Status::Returned => End::Done,
        Status::Waits => End::WaitsForKey,
        Status::Running => End::StepLimit,
        Status::Wrong(wrong) => End::WentWrong { wrong, pc },
    }
}

/// Runs a machine that has sent nothing, and writes what it sends as it comes, as a notation shows it. A watch hears
/// meanwhile how many events were taken, which changes nothing.
pub fn run_machine<O: Outside, W: Write, V: Watch>(
    machine: &mut Machine,
    limit: u64,
    outside: &mut O,
    writer: &mut Tracked<W>,
    watch: &mut V,
    notation: Notation,
) -> Outcome
    requires { machine.old.sent ≡ [] }
    ensures answers { Answers (RunsOn O.gives outside.old machine.old limit notation) result
        (W.contents writer.old.stream) (W.contents writer.new.stream) }
    ensures left { LeavesRun O.gives outside.old limit (hearing_of V.hears watch.old watch.new) machine.old result machine.new }
    ensures faults { DeliveryFaults result (use_of W.contents writer.old writer.new) }
{
    match run_writing(machine, outside, limit, writer, watch, notation) {
        Ok(run) if run.is_written => Outcome::Ended(end_of(run.status, machine.regs().pc)),
        Ok(_) => Outcome::WriteFault,
        Err(_) => Outcome::NoMemory,
    }
}

// Where a machine is after its run, unless its program returned or memory ran out.
fn place_after(outcome: Outcome, machine: &Machine) -> Option<u16>
    ensures { OfRun outcome (end_place (status (state_of machine.now)) machine.now.regs.pc) result }
{
    match (outcome, machine.status()) {
        (
            Outcome::Ended(_) | Outcome::WriteFault,
            Status::Running | Status::Waits | Status::Wrong(_),
        ) => Some(machine.regs().pc),
        (Outcome::Ended(_) | Outcome::WriteFault, Status::Returned)
        | (Outcome::Refused(_) | Outcome::ReadFault | Outcome::NoMemory, _) => None,
    }
}

/// Runs a PRG file beside an outside, within the limit, and writes the host form of what it sends as it comes. The
/// machine starts with all bytes 0 but the program's and its return address, registers and flags 0, S `$F0`, and
/// PC at the load address, or at `$080D` where that is `$0801`. The answer tells where PC was at the end, unless the
/// program returned. A watch hears meanwhile how many events were taken, which changes nothing.
pub fn run_prg_watched<R: Read, W: Write, O: Outside, V: Watch>(
    alloc: Global,
    reader: &mut Tracked<R>,
    writer: &mut Tracked<W>,
    run: RunSettings,
    outside: &mut O,
    watch: &mut V,
) -> PrgRun
    ensures answers { AnswersInput (RunsPrg (plain_settings_of O.gives outside.old run.keyboard run.limit)) result.outcome
        (use_of R.remaining reader.old reader.new) (use_of W.contents writer.old writer.new) }
    ensures place { ByOutcome (TellsFile (plain_settings_of O.gives outside.old run.keyboard run.limit) (hearing_of V.hears watch.old watch.new) (use_of R.remaining reader.old reader.new))
        result.outcome result.place }
    ensures faults { Faults result.outcome (use_of R.remaining reader.old reader.new) (use_of W.contents writer.old writer.new) }
    ensures taken { TakesInput (use_of R.remaining reader.old reader.new) }
{
    let file = match read_input(alloc, reader) {
        Ok(file) => file,
        Err(error) => return PrgRun {
            outcome: Outcome::from(error),
            place: None,
        },
    };
    let mut machine = match start_file(alloc, file.as_slice(), run.keyboard) {
        Ok(machine) => machine,
        Err(stop) => return PrgRun {
            outcome: Outcome::from(stop),
            place: None,
        },
    };
    let outcome = run_machine(
        &mut machine,
        run.limit,
        outside,
        writer,
        watch,
        Notation::Plain,
    );
    PrgRun {
        outcome,
        place: place_after(outcome, &machine),
    }
}

/// Runs a PRG file as `run_prg_watched` does, and nobody hears of it.
pub fn run_prg<R: Read, W: Write, O: Outside>(
    alloc: Global,
    reader: &mut Tracked<R>,
    writer: &mut Tracked<W>,
    keyboard: Keyboard,
    limit: u64,
    outside: &mut O,
) -> Outcome
    ensures answers { AnswersInput (RunsPrg (plain_settings_of O.gives outside.old keyboard limit)) result
        (use_of R.remaining reader.old reader.new) (use_of W.contents writer.old writer.new) }
    ensures faults { Faults result (use_of R.remaining reader.old reader.new) (use_of W.contents writer.old writer.new) }
    ensures taken { TakesInput (use_of R.remaining reader.old reader.new) }
{
    let run = RunSettings { keyboard, limit };
    run_prg_watched(alloc, reader, writer, run, outside, &mut Unwatched).outcome
}
