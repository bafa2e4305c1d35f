//! Lines that are read one by one.
ghost use Rattle.std.specs.Prelude.{◌≡◌, ◌≤◌};
ghost use Rattle.tb_engine_streams.specs.Failures.{failures_of};
ghost use Rattle.tb_engine_streams.specs.Lines.{without_return, ReadsLine};
ghost use Rattle.tb_engine_streams.specs.Streams.{most_input};

use crate::stream::InputError;
use crate::tracked::Tracked;
use std::alloc::Global;
use std::io::Read;

/// A line without the 13 of its end.
pub fn without_return(line: &[u8]) -> &[u8]
    ensures { result.now ≡ without_return line.now }
{
    match line.split_last() {
        Some((b'\r', rest)) => rest,
        _ => line,
    }
}

/// The next line without its 10, read byte by byte, so that nothing after it is taken; `None` if the input has ended. A
/// line of more than `most` bytes is a fault.
pub fn read_line<R: Read>(
    alloc: Global,
    reader: &mut Tracked<R>,
    most: usize,
) -> Result<Option<Vec<u8>>, InputError>
    requires { most ≤ most_input }
    ensures { ReadsLine result most (R.remaining reader.old.stream) (R.remaining reader.new.stream)
        (failures_of reader.old) (failures_of reader.new) }
{
    let mut line = Vec::new(alloc);
    let mut byte = [0u8; 1];
    'reading: while line.len() <= most {
        let count = match reader.pull(&mut byte) {
            Ok(count) => count,
            Err(_) => return Err(InputError::Fault),
        };
        if count == 0 {
            return Ok(if line.is_empty() { None } else { Some(line) });
        }
        if byte[0] == b'\n' {
            return Ok(Some(line));
        }
        if line.push(byte[0]).is_err() {
            return Err(InputError::NoMemory);
        }
    }
    Err(InputError::Fault)
}
