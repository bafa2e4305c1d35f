//! How a job ended.
ghost use Rattle.std.specs.Prelude.{◌≡◌};
ghost use Rattle.tb_program_endings.specs.Statuses.{status_of_ending};

use crate::runs::Ran;
use crate::tests::TestOutcome;
use std::fmt::{self, Write};
use tb_assembly_engine::TextOutcome;
use tb_dap_adapter::AdapterOutcome;
use tb_engine_check::CheckOutcome;
use tb_engine_disk::DiskOutcome;
use tb_engine_sources::NotedRun;
use tb_engines::Report;
use tb_lsp_server::ServerOutcome;
use tb_program_files::{FormatOutcome, RenumberOutcome};

/// How a job ended.
#[derive(Debug, Drop)]
pub enum Ending {
    /// A call of an engine, with its warnings.
    Report(Report),
    /// A run.
    Run(Ran),
    /// A test of transcripts.
    Test(TestOutcome),
    /// The making of a disk.
    Disk(DiskOutcome),
    /// A check of sources.
    Check(CheckOutcome),
    /// The formatting of a source.
    Format(FormatOutcome),
    /// The renumbering of a source.
    Renumber(RenumberOutcome),
    /// The assembling of a text.
    Text(TextOutcome),
    /// The serving of an editor by a language server.
    Server(ServerOutcome),
    /// The serving of an editor by a debug adapter.
    Adapter(AdapterOutcome),
}

impl Ending {
    /// The exit status of the program. In a strict run a fault has its own.
    pub fn status(&self, is_strict: bool) -> u8
        ensures { result ≡ status_of_ending is_strict self.now }
    {
        match self {
            Ending::Report(report) => report.status(),
            Ending::Run(ran) => ran.status(is_strict),
            Ending::Test(outcome) => outcome.status(),
            Ending::Disk(outcome) => outcome.status(),
            Ending::Check(outcome) => outcome.status(),
            Ending::Format(outcome) => outcome.status(),
            Ending::Renumber(outcome) => outcome.status(),
            Ending::Text(outcome) => outcome.status(),
            Ending::Server(outcome) => outcome.status(),
            Ending::Adapter(outcome) => outcome.status(),
        }
    }
}

// Text behind `tbc: `, which stands before its first piece.
#[derive(Drop)]
struct Line<'a, W> {
    f: &'a mut fmt::Formatter<W>,
    is_empty: bool,
}

impl<W: fmt::Write> fmt::Write for Line<'_, W> {
    fn write_str(&mut self, piece: &str) -> fmt::Result {
        if piece.is_empty() {
            return Ok(());
        }
        if self.is_empty {
            self.is_empty = false;
            self.f.write_str("tbc: ")?;
        }
        self.f.write_str(piece)
    }
}

// A line of what there is to say of an outcome; none if that is nothing.
fn write_line<T: fmt::Display, W: fmt::Write>(
    outcome: &T,
    f: &mut fmt::Formatter<W>,
) -> fmt::Result {
    let mut line = Line { f, is_empty: true };
    write!(line, "{outcome}")?;
    if line.is_empty {
        Ok(())
    } else {
        line.f.write_str("\n")
    }
}

/// The whole text for standard error, with its line ends.
impl fmt::Display for Ending {
    fn fmt<W: fmt::Write>(&self, f: &mut fmt::Formatter<W>) -> fmt::Result {
        match self {
            Ending::Report(report) | Ending::Run(Ran::Source(NotedRun { report, .. })) => {
                report.fmt(f)
            }
            Ending::Run(Ran::Plain(outcome, _)) => write_line(outcome, f),
            Ending::Test(outcome) => write_line(outcome, f),
            Ending::Disk(outcome) => write_line(outcome, f),
            Ending::Check(outcome) => write_line(outcome, f),
            Ending::Format(outcome) => write_line(outcome, f),
            Ending::Renumber(outcome) => write_line(outcome, f),
            Ending::Text(outcome) => write_line(outcome, f),
            Ending::Server(outcome) => write_line(outcome, f),
            Ending::Adapter(outcome) => write_line(outcome, f),
        }
    }
}
