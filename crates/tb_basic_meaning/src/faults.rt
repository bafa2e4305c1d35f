//! How a run stops.

use std::alloc::AllocError;

/// A fault that ends a run.
#[derive(Clone, Copy, PartialEq, Eq, Debug, Drop)]
pub enum Fault {
    Break,
    NoLine,
    DivisionByZero,
    RandomRange,
    ReturnsTooDeep,
    NoReturn,
    BadInput,
    PastLast,
}

impl Fault {
    ghost use Rattle.std.specs.Prelude.{◌≡◌, ◌<◌};
    ghost use Rattle.tb_basic_meaning.specs.Parts.{fault_of};

    /// Its number, from 0 to 7.
    pub fn number(self) -> u8
        ensures number { result ≡ fault_of self }
        ensures bound { result < 8 }
    {
        match self {
            Fault::Break => 0,
            Fault::NoLine => 1,
            Fault::DivisionByZero => 2,
            Fault::RandomRange => 3,
            Fault::ReturnsTooDeep => 4,
            Fault::NoReturn => 5,
            Fault::BadInput => 6,
            Fault::PastLast => 7,
        }
    }
}

/// Why a run does not go on.
#[derive(Clone, Copy, PartialEq, Eq, Debug, Drop)]
pub enum RunStop {
    Ended,
    Waits,
    /// A fault at this line.
    Fault(Fault, u16),
    NoMemory,
}

impl From<AllocError> for RunStop {
    ghost use Rattle.std.specs.Prelude.{◌≡◌};
    ghost use Rattle.tb_basic_meaning.specs.declared.faults.RunStop.TheVariants.{NoMemory};

    ghost from_gives = { λ _ e. e ≡ NoMemory };

    fn from(_: AllocError) -> Self {
        RunStop::NoMemory
    }
}
