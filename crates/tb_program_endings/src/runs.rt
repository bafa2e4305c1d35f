//! How a run ended.
ghost use Rattle.std.specs.Prelude.{◌≡◌};
ghost use Rattle.tb_program_endings.specs.Statuses.{shown_fault, status_of_ran};

use tb_engine_sources::{EndNote, NotedRun, strict_status};
use tb_engines::Outcome;

/// How a run ended.
#[derive(Debug, Drop)]
pub enum Ran {
    /// Of a source that was run or played, with what its machine told at the end.
    Source(NotedRun),
    /// Of a PRG file, and the name of the place where it stopped, if it has one; or of what could not be opened.
    Plain(Outcome, Option<String>),
}

impl Ran {
    /// The exit status of the program. In a strict run a fault has its own.
    pub fn status(&self, is_strict: bool) -> u8
        ensures { result ≡ status_of_ran is_strict self.now }
    {
        match self {
            Ran::Source(run) if is_strict => strict_status(run.report.outcome, run.note),
            Ran::Source(run) => run.report.status(),
            Ran::Plain(outcome, _) => outcome.status(),
        }
    }
}

/// What is told of a play: the fault by which it ended, where it ended. A player needs no other note.
pub fn shown_fault(outcome: Outcome, note: Option<EndNote>) -> Option<EndNote>
    ensures { result ≡ shown_fault outcome note }
{
    match (outcome, note) {
        (Outcome::Ended(_), Some(EndNote::Fault(_))) => note,
        _ => None,
    }
}
