//! What came of transcripts.
ghost use Rattle.std.specs.Prelude.{◌≡◌};
ghost use Rattle.tb_program_endings.specs.Statuses.{end_of_tests, status_of_test};

use std::fmt;
use tb_engine_streams::{ExitStatus, NoRefusal, Outcome, status};

/// What came of transcripts. It is told already.
#[derive(Clone, Copy, PartialEq, Eq, Debug, Drop)]
pub enum TestEnd {
    /// Each passed.
    Passed,
    /// One did not pass.
    Failed,
    /// A file could not be read or written.
    Fault,
}

/// How a test ended.
pub type TestOutcome = Outcome<TestEnd, NoRefusal>;

impl TestEnd {
    /// What came of them, by how many did not pass, and whether a file could not be read or written.
    pub fn of(failed: usize, has_fault: bool) -> TestEnd
        ensures { result ≡ end_of_tests failed has_fault }
    {
        if has_fault {
            TestEnd::Fault
        } else if 0 < failed {
            TestEnd::Failed
        } else {
            TestEnd::Passed
        }
    }
}

impl ExitStatus for TestEnd {
    ghost exit_status = { status_of_test };

    fn status(&self) -> u8 {
        match self {
            TestEnd::Passed => status::DONE,
            TestEnd::Failed => status::REFUSED,
            TestEnd::Fault => status::FAULT,
        }
    }
}

impl fmt::Display for TestEnd {
    fn fmt<W: fmt::Write>(&self, _f: &mut fmt::Formatter<W>) -> fmt::Result {
        Ok(())
    }
}
