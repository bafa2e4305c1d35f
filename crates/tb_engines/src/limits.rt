//! How many events a run takes at most. Commands and editors offer the same.
ghost use Rattle.tb_engines.specs.Numbers.{ConstantsAreNumbers};

/// The most events that a run may be given.
pub const MOST_EVENTS: u32 = 1_000_000_000;

/// How many events a run may take if nothing else is asked for.
pub const USUAL_EVENTS: u32 = 10_000_000;

/// Each constant is the number that the definitions have for it.
pub fn constants_are_numbers()
    ensures { ConstantsAreNumbers }
{}
