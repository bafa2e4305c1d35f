//! Readers and writers whose failures are counted.
ghost use Rattle.std.specs.Prelude.{◌≡◌, ◌<◌, ◌≤◌, IfOk, is_err, length};
ghost use Rattle.std.specs.Io.{ReadsAtMost};
ghost use Rattle.std.specs.Io.KnownBytes.{Keeps, ReadConsumes, WriteAppends};
ghost use Rattle.tb_engine_streams.specs.Streams.{counted};

use std::io::{Read, Write};

/// The other end failed.
#[derive(Clone, Copy, PartialEq, Eq, Debug, Drop)]
pub struct StreamFailure;

/// A reader or a writer, with the number of its calls that failed, modulo 2^64. Since the count grows at each
/// failure, it tells those of one call of an engine from earlier ones. Only `pull`, `push` and `flush` count, each
/// by what the stream answered.
#[derive(Drop)]
pub struct Tracked<T> {
    pub stream: T,
    failures: u64,
}

impl<T> Tracked<T> {
    ghost use Rattle.tb_engine_streams.specs.Failures.{failures_of};

    /// A stream of which no call has failed.
    pub fn new(stream: T) -> Tracked<T>
        ensures stream { result.stream ≡ stream }
        ensures fresh { failures_of result ≡ 0 }
    {
        Tracked {
            stream,
            failures: 0,
        }
    }

    /// How many of its calls failed, modulo 2^64.
    pub fn failures(&self) -> u64
        ensures { result ≡ failures_of self.now }
    {
        self.failures
    }
}

impl<R: Read> Tracked<R> {
    ghost use Rattle.tb_engine_streams.specs.Failures.{failures_of};

    /// One read: the number of bytes put into `buf`. Every error of the reader counts, `Interrupted` too.
    pub fn pull(&mut self, buf: &mut [u8]) -> Result<usize, StreamFailure>
        ensures bound { ReadsAtMost result buf.new }
        ensures bytes { ReadConsumes (R.remaining self.old.stream) (R.remaining self.new.stream) result
            buf.new }
        ensures noted { failures_of self.new ≡ counted (failures_of self.old) (is_err result) }
    {
        match self.stream.read(buf) {
            Ok(count) => Ok(count),
            Err(_) => {
                self.failures = self.failures.wrapping_add(1);
                Err(StreamFailure)
            }
        }
    }
}

impl<W: Write> Tracked<W> {
    ghost use Rattle.tb_engine_streams.specs.Failures.{failures_of};

    /// One write of a text that isn't empty: the number of bytes taken. Every error of the writer counts, and so
    /// does a write that takes nothing.
    pub fn push(&mut self, text: &[u8]) -> Result<usize, StreamFailure>
        requires { 0 < length text.now }
        ensures bound { IfOk result (λ n. (0 < n) × (n ≤ length text.now)) }
        ensures bytes { WriteAppends (W.contents self.old.stream) (W.contents self.new.stream) result
            text.now }
        ensures noted { failures_of self.new ≡ counted (failures_of self.old) (is_err result) }
    {
        match self.stream.write(text) {
            Ok(count) if 0 < count => Ok(count),
            _ => {
                self.failures = self.failures.wrapping_add(1);
                Err(StreamFailure)
            }
        }
    }

    /// Hands on what a buffer holds.
    pub fn flush(&mut self) -> Result<(), StreamFailure>
        ensures bytes { Keeps (W.contents self.old.stream) (W.contents self.new.stream) }
        ensures noted { failures_of self.new ≡ counted (failures_of self.old) (is_err result) }
    {
        match self.stream.flush() {
            Ok(()) => Ok(()),
            Err(_) => {
                self.failures = self.failures.wrapping_add(1);
                Err(StreamFailure)
            }
        }
    }
}
