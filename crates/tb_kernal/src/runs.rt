//! Who hears of a run, and how often.
ghost use Rattle.std.specs.Prelude.{◌≡◌};
ghost use Rattle.tb_kernal.specs.Hearing.{Began, Ended, Telling, Took};

/// How many events a run takes before it tells again: about a thousandth of a second.
pub const STRETCH: u64 = 65_536;

/// Whoever waits for the end of a run.
pub trait Watch {
    // what it is before it hears something, what it hears, and what it is then
    ghost hears: { Self → Telling → Self → Type 0 };

    /// Hears that a run begins.
    fn began(&mut self)
        ensures { hears self.old Began self.new };

    /// Hears how many events a run has taken so far.
    fn took(&mut self, events: u64)
        ensures { hears self.old (Took events) self.new };

    /// Hears that the run has ended.
    fn ended(&mut self)
        ensures { hears self.old Ended self.new };
}

/// Nobody.
#[derive(Clone, Copy, PartialEq, Eq, Debug, Drop)]
pub struct Unwatched;

impl Watch for Unwatched {
    ghost hears = { λ before _ after. after ≡ before };

    fn began(&mut self) {}

    fn took(&mut self, _events: u64) {}

    fn ended(&mut self) {}
}
