//! Lines of a header.
ghost use Rattle.std.specs.Prelude.{◌≡◌, ◌≤◌};
ghost use Rattle.tb_engine_streams.specs.Failures.{failures_of};
ghost use Rattle.tb_editor_frames.specs.Lines.{ReadsLine};

use crate::reading::FrameError;
use std::alloc::Global;
use std::io::Read;
use tb_engine_streams::Tracked;

/// The most bytes of a line, without its 10.
pub const MOST_LINE: usize = 256;

/// The next line without its 10, read byte by byte, so that nothing after it is taken; `None` if the input has ended
/// before it. One that is cut off or too long is no line.
pub fn read_line<R: Read>(
    alloc: Global,
    reader: &mut Tracked<R>,
) -> Result<Option<Vec<u8>>, FrameError>
    ensures { ReadsLine result (R.remaining reader.old.stream) (R.remaining reader.new.stream)
        (failures_of reader.old) (failures_of reader.new) }
{
    let mut line = Vec::new(alloc);
    let mut byte = [0u8; 1];
    'reading: while line.len() <= MOST_LINE {
        let count = match reader.pull(&mut byte) {
            Ok(count) => count,
            Err(_) => return Err(FrameError::Fault),
        };
        if count == 0 {
            return if line.is_empty() {
                Ok(None)
            } else {
                Err(FrameError::Bad)
            };
        }
        if byte[0] == b'\n' {
            return Ok(Some(line));
        }
        if line.push(byte[0]).is_err() {
            return Err(FrameError::NoMemory);
        }
    }
    Err(FrameError::Bad)
}
