//! Where a walk ended.
use tb_kernal::Status;

/// Where a walk to an address ended.
#[derive(Clone, Copy, PartialEq, Eq, Debug, Drop)]
pub enum Reached {
    /// PC is there, after at least one step.
    There,
    /// The machine isn't Running; this is how it stands.
    Stopped(Status),
    /// As many steps as the limit were taken.
    Limit,
}

/// Why a walk to a line was refused or broken off.
#[derive(Clone, Copy, PartialEq, Eq, Debug, Drop)]
pub enum StepError {
    /// The program has no such line.
    NoSuchLine,
    /// Memory ran out.
    NoMemory,
}
