//! How a call of an engine ended, with the warnings of the program that it compiled.
ghost use Rattle.std.specs.Prelude.{◌≡◌, []};
ghost use Rattle.tb_engines.specs.Outcomes.{status_of};

use crate::outcome::Outcome;
use std::alloc::Global;
use std::fmt;
use tb_basic_meaning::Warning;

/// How a call of an engine ended, and what there is to warn of.
#[derive(Debug, Drop)]
pub struct Report {
    pub outcome: Outcome,
    /// The jumps to lines that aren't there, of the program that was compiled; none where none was.
    pub warnings: Vec<Warning>,
}

impl Report {
    /// An outcome with no warnings.
    pub fn new(alloc: Global, outcome: Outcome) -> Report
        ensures outcome { result.outcome ≡ outcome }
        ensures warnings { result.warnings.items ≡ [] }
    {
        Report {
            outcome,
            warnings: Vec::new(alloc),
        }
    }

    /// The exit status of the program.
    pub fn status(&self) -> u8
        ensures { result ≡ status_of self.now.outcome }
    {
        self.outcome.status()
    }
}

/// What standard error says of warnings: a line of each.
#[derive(Clone, Copy, Debug, Drop)]
pub struct Warnings<'a>(pub &'a [Warning]);

impl fmt::Display for Warnings<'_> {
    fn fmt<W: fmt::Write>(&self, f: &mut fmt::Formatter<W>) -> fmt::Result {
        for warning in self.0 {
            writeln!(
                f,
                "tbc: warning: line {}: no line {}",
                warning.line, warning.target
            )?;
        }
        Ok(())
    }
}

/// The whole text for standard error, with its line ends. Warnings are shown where a text was written.
impl fmt::Display for Report {
    fn fmt<W: fmt::Write>(&self, f: &mut fmt::Formatter<W>) -> fmt::Result {
        if let Outcome::Ended(_) = self.outcome {
            Warnings(self.warnings.as_slice()).fmt(f)?;
        }
        if self.status() == 0 {
            return Ok(());
        }
        writeln!(f, "tbc: {}", self.outcome)
    }
}
