//! What helps with how a job ended, for a person at a terminal.
ghost use Rattle.std.specs.Prelude.{◌≡◌};
ghost use Rattle.tb_program_endings.specs.Helping as helping;

use crate::ending::Ending;
use crate::runs::Ran;
use crate::tests::TestOutcome;
use tb_assembly_engine::TextOutcome;
use tb_compiled::CompileError;
use tb_engine_check::CheckOutcome;
use tb_engine_disk::{DiskOutcome, DiskRefusal};
use tb_engine_sources::EndNote;
use tb_engines::{End, Outcome, Refusal};
use tb_program_files::{FormatOutcome, RenumberOutcome, RenumberRefusal};
use tb_program_jobs::{Failure, Job};

/// What helps, if anything does.
#[derive(Clone, Copy, Debug, Drop)]
pub enum Help {
    Nothing,
    /// Why the file that was asked for last could not be read or written.
    File,
    /// Why each source that is checked can't be read.
    Sources,
    /// Which two files are one.
    Clash,
    /// Which line of the label file that was read last is no label.
    Labels(usize),
    /// Where the source is refused, or what compiles it.
    Source(CompileError),
    /// Where the text is refused.
    Text(Refusal),
    /// Why the file that was read last is no PRG file that can be run.
    Prg(Refusal),
    /// Why no disk is made of the files.
    Disk(DiskRefusal),
    /// That the file that was written last replaced another one.
    Replaced,
    /// What a machine tells of its end.
    End(EndNote),
}

// A player who gives no more keys needs no help.
fn of_end(is_played: bool, end: End) -> Help
    ensures { result ≡ helping.of_end is_played end }
{
    match end {
        End::WaitsForKey if is_played => Help::Nothing,
        End::WaitsForKey => Help::End(EndNote::Waits(None)),
        End::StepLimit => Help::End(EndNote::Running(None)),
        End::Done | End::WentWrong { .. } => Help::Nothing,
    }
}

// What helps with the outcome of an engine.
fn of_outcome(is_played: bool, outcome: Outcome) -> Help
    ensures { result ≡ helping.of_outcome is_played outcome }
{
    match outcome {
        Outcome::Ended(end) => of_end(is_played, end),
        Outcome::Refused(Refusal::Source(error)) => Help::Source(error),
        Outcome::Refused(Refusal::TextLine(line)) => Help::Text(Refusal::TextLine(line)),
        Outcome::Refused(Refusal::Item(error)) => Help::Text(Refusal::Item(error)),
        Outcome::Refused(Refusal::Prg(error)) => Help::Prg(Refusal::Prg(error)),
        Outcome::Refused(Refusal::NotRam) => Help::Prg(Refusal::NotRam),
        Outcome::ReadFault | Outcome::WriteFault => Help::File,
        Outcome::NoMemory => Help::Nothing,
    }
}

// What helps with a run.
fn of_run(is_played: bool, ran: &Ran) -> Help
    ensures { result ≡ helping.of_run is_played ran.now }
{
    match ran {
        Ran::Source(run) => match run.note {
            Some(note) => Help::End(note),
            None => of_outcome(is_played, run.report.outcome),
        },
        Ran::Plain(outcome, _) => of_outcome(is_played, *outcome),
    }
}

// What helps with a disk.
fn of_disk(outcome: DiskOutcome) -> Help
    ensures { result ≡ helping.of_disk outcome }
{
    match outcome {
        DiskOutcome::Ended(_) => Help::Replaced,
        DiskOutcome::Refused(refusal) => Help::Disk(refusal),
        DiskOutcome::ReadFault | DiskOutcome::WriteFault => Help::File,
        DiskOutcome::NoMemory => Help::Nothing,
    }
}

// What helps with a source that is renumbered.
fn of_renumbering(outcome: &RenumberOutcome) -> Help
    ensures { result ≡ helping.of_renumbering outcome.now }
{
    match outcome {
        RenumberOutcome::Refused(RenumberRefusal::Source(refusal)) => {
            of_outcome(false, Outcome::Refused(*refusal))
        }
        RenumberOutcome::ReadFault | RenumberOutcome::WriteFault => Help::File,
        _ => Help::Nothing,
    }
}

// What helps with an ending.
fn of_ending(is_played: bool, ending: &Ending) -> Help
    ensures { result ≡ helping.of_ending is_played ending.now }
{
    match ending {
        Ending::Run(ran) => of_run(is_played, ran),
        Ending::Report(report) => of_outcome(is_played, report.outcome),
        Ending::Disk(outcome) => of_disk(*outcome),
        Ending::Renumber(outcome) => of_renumbering(outcome),
        Ending::Check(CheckOutcome::ReadFault) => Help::Sources,
        Ending::Format(FormatOutcome::ReadFault | FormatOutcome::WriteFault)
        | Ending::Text(TextOutcome::ReadFault | TextOutcome::WriteFault)
        | Ending::Test(TestOutcome::ReadFault | TestOutcome::WriteFault) => Help::File,
        Ending::Check(_)
        | Ending::Format(_)
        | Ending::Text(_)
        | Ending::Test(_)
        | Ending::Server(_)
        | Ending::Adapter(_) => Help::Nothing,
    }
}

/// What helps with how a job ended, or with why it did not begin.
pub fn help_for(job: &Job, done: &Result<Ending, Failure>) -> Help
    ensures { result ≡ helping.help_for job.now done.now }
{
    match done {
        Ok(ending) => of_ending(job.is_played(), ending),
        Err(Failure::SameFile) => Help::Clash,
        Err(Failure::BadLabels(line)) => Help::Labels(*line),
        Err(Failure::ReadFault) => Help::File,
        Err(_) => Help::Nothing,
    }
}
