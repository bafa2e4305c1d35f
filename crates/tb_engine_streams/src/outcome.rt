//! How a call ended that reads, makes and writes: its exit status, and what standard error says of it.
ghost use Rattle.std.specs.Prelude.{◌≡◌, ℕ};
ghost use Rattle.tb_engine_streams.specs.Outcomes.{ended_by, of_input, status_of};

use crate::status;
use crate::stream::InputError;
use std::alloc::AllocError;
use std::convert::Infallible;
use std::fmt;

/// What is said where a file or a stream could not be read.
pub const READ_FAULT: &str = "read fault";

/// What is said where a file or a stream could not be written.
pub const WRITE_FAULT: &str = "write fault";

/// What is said where memory ran out.
pub const OUT_OF_MEMORY: &str = "out of memory";

/// What has an exit status.
pub trait ExitStatus {
    // the exit status
    ghost exit_status: { Self → ℕ };

    /// The exit status of the program.
    fn status(&self) -> u8
        ensures { result ≡ exit_status self.now };
}

/// How a call ended. At `Ended` all that it made was written, at `WriteFault` a prefix of it, and else nothing.
#[derive(Clone, Copy, PartialEq, Eq, Debug, Drop)]
pub enum Outcome<E, R> {
    /// The whole text was written.
    Ended(E),
    /// An input was refused. It is never want of memory.
    Refused(R),
    /// A reader failed, or gave too many bytes.
    ReadFault,
    /// A writer failed.
    WriteFault,
    /// A growth was refused.
    NoMemory,
}

/// Why a call made nothing that can be written.
pub type Failure<R> = Outcome<Infallible, R>;

/// All is done.
#[derive(Clone, Copy, PartialEq, Eq, Debug, Drop)]
pub struct Done;

impl ExitStatus for Done {
    ghost use Rattle.tb_engine_streams.specs.Numbers.{DONE};

    ghost exit_status = { λ _. DONE };

    fn status(&self) -> u8 {
        status::DONE
    }
}

impl fmt::Display for Done {
    fn fmt<W: fmt::Write>(&self, _f: &mut fmt::Formatter<W>) -> fmt::Result {
        Ok(())
    }
}

/// For calls that refuse no input. None of them answers it.
#[derive(Clone, Copy, PartialEq, Eq, Debug, Drop)]
pub struct NoRefusal;

impl ExitStatus for NoRefusal {
    ghost use Rattle.tb_engine_streams.specs.Numbers.{REFUSED};

    ghost exit_status = { λ _. REFUSED };

    fn status(&self) -> u8 {
        status::REFUSED
    }
}

impl fmt::Display for NoRefusal {
    fn fmt<W: fmt::Write>(&self, _f: &mut fmt::Formatter<W>) -> fmt::Result {
        Ok(())
    }
}

impl<E: ExitStatus, R: ExitStatus> Outcome<E, R> {
    /// The exit status of the program.
    pub fn status(&self) -> u8
        ensures { result ≡ status_of E.exit_status R.exit_status self.now }
    {
        match self {
            Outcome::Ended(end) => end.status(),
            Outcome::Refused(refusal) => refusal.status(),
            Outcome::ReadFault | Outcome::WriteFault => status::FAULT,
            Outcome::NoMemory => status::NO_MEMORY,
        }
    }
}

impl<E, R> Outcome<E, R> {
    /// How a call ends by what it did, or by why it made nothing.
    pub fn of(done: Result<E, Failure<R>>) -> Outcome<E, R>
        ensures { result ≡ ended_by done }
    {
        match done {
            Ok(end) => Outcome::Ended(end),
            Err(Failure::Refused(refusal)) => Outcome::Refused(refusal),
            Err(Failure::ReadFault) => Outcome::ReadFault,
            Err(Failure::WriteFault) => Outcome::WriteFault,
            Err(Failure::NoMemory) => Outcome::NoMemory,
            Err(Failure::Ended(never)) => match never {},
        }
    }
}

/// What standard error says of it, in a line after `tbc: `. Where it says nothing there is no line.
impl<E: fmt::Display, R: fmt::Display> fmt::Display for Outcome<E, R> {
    fn fmt<W: fmt::Write>(&self, f: &mut fmt::Formatter<W>) -> fmt::Result {
        match self {
            Outcome::Ended(end) => end.fmt(f),
            Outcome::Refused(refusal) => refusal.fmt(f),
            Outcome::ReadFault => f.write_str(READ_FAULT),
            Outcome::WriteFault => f.write_str(WRITE_FAULT),
            Outcome::NoMemory => f.write_str(OUT_OF_MEMORY),
        }
    }
}

impl<E, R> From<AllocError> for Outcome<E, R> {
    ghost use Rattle.tb_engine_streams.specs.declared.outcome.Outcome.TheVariants.{NoMemory};

    ghost from_gives = { λ _ outcome. outcome ≡ NoMemory };

    fn from(_error: AllocError) -> Outcome<E, R> {
        Outcome::NoMemory
    }
}

impl<E, R> From<InputError> for Outcome<E, R> {
    ghost from_gives = { λ error outcome. outcome ≡ of_input error };

    fn from(error: InputError) -> Outcome<E, R> {
        match error {
            InputError::Fault => Outcome::ReadFault,
            InputError::NoMemory => Outcome::NoMemory,
        }
    }
}
