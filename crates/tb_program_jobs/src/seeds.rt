//! The seeds that the clock gives.
ghost use Rattle.std.specs.Prelude.{◌≡◌, ◌≤◌};
ghost use Rattle.tb_program_jobs.specs.Numbers.{CLOCK_SEEDS};
ghost use Rattle.tb_program_jobs.specs.Seeds.{clock_seed};

/// How many seeds the clock gives: 1 to this one.
pub const CLOCK_SEEDS: u16 = 65535;

/// The seed that is made of a time in milliseconds.
pub fn clock_seed(milliseconds: u128) -> u16
    ensures value { result ≡ clock_seed milliseconds }
    ensures least { 1 ≤ result }
    ensures most { result ≤ CLOCK_SEEDS }
{
    (milliseconds % u128::from(CLOCK_SEEDS)) as u16 + 1
}
