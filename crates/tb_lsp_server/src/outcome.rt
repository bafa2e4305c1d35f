//! How a server ended.
use std::fmt;
use tb_editor_frames::BadFrame;
use tb_engine_streams::{ExitStatus, Outcome, status};

/// How a server ended that was asked to, or whose input has ended.
#[derive(Clone, Copy, PartialEq, Eq, Debug, Drop)]
pub enum Served {
    /// It was shut down before.
    Ended,
    /// It was not shut down before.
    NotShutDown,
}

/// How a server ended.
pub type ServerOutcome = Outcome<Served, BadFrame>;

impl ExitStatus for Served {
    ghost use Rattle.tb_lsp_server.specs.Outcomes.{status_of};

    ghost exit_status = { status_of };

    fn status(&self) -> u8 {
        match self {
            Served::Ended => status::DONE,
            Served::NotShutDown => status::REFUSED,
        }
    }
}

impl fmt::Display for Served {
    fn fmt<W: fmt::Write>(&self, _f: &mut fmt::Formatter<W>) -> fmt::Result {
        Ok(())
    }
}
