//! How far a long run is, for a person at a terminal.
ghost use Rattle.std.specs.Prelude.{◌≡◌, false, None};

use std::time::{Clock, Duration};
use tb_kernal::Watch;

/// For how many seconds nothing is told.
const PATIENCE: u64 = 2;

const MILLION: u64 = 1_000_000;

/// As many events pass before more is told: a tenth of a second, or less.
const BETWEEN: u64 = 8_388_608;

/// A line of standard error that tells how far a run is, and is taken away again. Nobody can be told that standard error
/// fails.
#[derive(Drop)]
pub struct Progress<'a, R> {
    rt: &'a R,
    limit: u64,
    is_told: bool,
    /// When the run began, if it is told.
    began: Option<Duration>,
    /// After how many events more is told.
    next: u64,
    is_shown: bool,
}

impl<'a, R: Clock> Progress<'a, R> {
    /// The progress of runs of at most `limit` events, if it is told at all.
    pub fn new(rt: &'a R, limit: u64, is_told: bool) -> Progress<'a, R> {
        Progress {
            rt,
            limit,
            is_told,
            began: None,
            next: 0,
            is_shown: false,
        }
    }
}

impl<R: Clock> Progress<'_, R> {
    // Whether somebody has waited long enough. Nobody waits for a run that is not told.
    fn is_due(&self) -> bool
        ensures { self.now.began ≡ None → result ≡ false }
    {
        match (self.began, self.rt.monotonic()) {
            (Some(began), Ok(now)) => now.saturating_sub(began).as_secs() >= PATIENCE,
            _ => false,
        }
    }
}

impl<R: Clock + Eprint> Watch for Progress<'_, R> {
    ghost use Rattle.tb_program_host.specs.Progress.{Hears};

    ghost hears = { Hears };

    fn began(&mut self) {
        self.next = 0;
        self.began = if self.is_told {
            self.rt.monotonic().ok()
        } else {
            None
        };
    }

    fn took(&mut self, events: u64) {
        if events < self.next {
            return;
        }
        self.next = events.saturating_add(BETWEEN);
        if self.is_due() {
            let (done, all) = (events / MILLION, self.limit / MILLION);
            let _ = eprint!(self.rt; "\rtbc: {done} of {all} million events");
            self.is_shown = true;
        }
    }

    fn ended(&mut self) {
        if self.is_shown {
            let _ = eprint!(self.rt; "\r\x1b[K");
            self.is_shown = false;
        }
    }
}
