//! A whole input, and a whole output.
ghost use Rattle.std.specs.Prelude.{◌≡◌, ◌<◌, ◌≤◌, IfOk, OnOk, OnErr, is_err, vec_len};
ghost use Rattle.std.specs.Io.KnownBytes.{Appends, Consumes};
ghost use Rattle.tb_engine_streams.specs.Streams.{most_input, counted, Reads, AppendsPrefix};
ghost use Rattle.tb_engine_streams.specs.Inputs.{InputFaults, ReadsUpTo};
ghost use Rattle.tb_engine_streams.specs.Failures.{failures_of};
ghost use Rattle.tb_engine_streams.specs.Uses.{use_of, TakesInput};

use crate::tracked::{StreamFailure, Tracked};
use std::alloc::Global;
use std::io::{Read, Write};

/// The most bytes that an engine takes from a reader.
pub const MOST_INPUT: usize = 1_048_576;

const CHUNK: usize = 4096;

/// Why an input could not be read.
#[derive(Clone, Copy, PartialEq, Eq, Debug, Drop)]
pub enum InputError {
    /// The reader failed, or gave more than `MOST_INPUT` bytes.
    Fault,
    /// Memory ran out.
    NoMemory,
}

/// Reads all that a reader gives, at most `most` bytes; `None` if it gives more.
#[tactic(auto, using(crate::proofs::Counting::counted_differs))]
pub fn read_up_to<R: Read>(
    alloc: Global,
    reader: &mut Tracked<R>,
    most: usize,
) -> Result<Option<Vec<u8>>, InputError>
    requires { most < 4294967296 }
    ensures { ReadsUpTo most result (R.remaining reader.old.stream) (R.remaining reader.new.stream)
        (failures_of reader.old) (failures_of reader.new) }
{
    let mut input = Vec::new(alloc);
    let mut chunk = [0u8; CHUNK];
    'reading: while input.len() <= most {
        let room = CHUNK.min(most + 1 - input.len());
        let count = match reader.pull(&mut chunk[..room]) {
            Ok(count) => count,
            Err(_) => return Err(InputError::Fault),
        };
        if count == 0 {
            return Ok(Some(input));
        }
        if input.extend_from_slice(&chunk[..count]).is_err() {
            return Err(InputError::NoMemory);
        }
    }
    Ok(None)
}

/// Reads all that a reader gives, at most `MOST_INPUT` bytes; more are a fault.
pub fn read_input<R: Read>(alloc: Global, reader: &mut Tracked<R>) -> Result<Vec<u8>, InputError>
    ensures whole { IfOk result (λ input. Reads (R.remaining reader.old.stream) input.items) }
    ensures within { IfOk result (λ input. vec_len input ≤ most_input) }
    ensures fault { InputFaults result (R.remaining reader.old.stream)
        (failures_of reader.old) (failures_of reader.new) }
    ensures taken { TakesInput (use_of R.remaining reader.old reader.new) }
    ensures consumed { IfOk result (λ input. Consumes (R.remaining reader.old.stream)
        (R.remaining reader.new.stream) input.items) }
{
    read_up_to(alloc, reader, MOST_INPUT)?.ok_or(InputError::Fault)
}

/// Writes a text, all of it or up to where the writer failed.
pub fn write_output<W: Write>(writer: &mut Tracked<W>, text: &[u8]) -> Result<(), StreamFailure>
    ensures whole { OnOk result (Appends (W.contents writer.old.stream) (W.contents writer.new.stream)
        text.now) }
    ensures prefix { OnErr result (AppendsPrefix (W.contents writer.old.stream)
        (W.contents writer.new.stream) text.now) }
    ensures noted { failures_of writer.new ≡ counted (failures_of writer.old) (is_err result) }
{
    let mut rest = text;
    'writing: while !rest.is_empty() {
        let count = writer.push(rest)?;
        rest = &rest[count..];
    }
    writer.flush()
}
