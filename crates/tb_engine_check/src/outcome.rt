//! How a check of sources ended.
use std::fmt;
use tb_engine_streams::{ExitStatus, NoRefusal, Outcome, status};

/// What a check of sources found. It is said already.
#[derive(Clone, Copy, PartialEq, Eq, Debug, Drop)]
pub enum Checked {
    /// Each source is compiled.
    Accepted,
    /// A source is not compiled.
    Refused,
}

/// How a check of sources ended. At `ReadFault` a source could not be read, and the whole text was written; at
/// `NoMemory` what there is to say of the sources before.
pub type CheckOutcome = Outcome<Checked, NoRefusal>;

impl ExitStatus for Checked {
    ghost use Rattle.tb_engine_check.specs.Outcomes.{status_of};

    ghost exit_status = { status_of };

    fn status(&self) -> u8 {
        match self {
            Checked::Accepted => status::DONE,
            Checked::Refused => status::REFUSED,
        }
    }
}

impl fmt::Display for Checked {
    fn fmt<W: fmt::Write>(&self, _f: &mut fmt::Formatter<W>) -> fmt::Result {
        Ok(())
    }
}
