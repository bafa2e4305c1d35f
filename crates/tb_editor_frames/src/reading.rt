//! Frames that are read one by one.
ghost use Rattle.std.specs.Prelude.{◌≡◌, ◌≤◌, vec_len};
ghost use Rattle.tb_engine_streams.specs.Failures.{failures_of};
ghost use Rattle.tb_editor_frames.specs.Frames.{PassesBytes, ReadsBytes, ReadsFrame, ReadsHeader, SaysLength, TakesHeaderLine, line_of};

use crate::header::{Field, read_field};
use crate::lines::read_line;
use std::alloc::Global;
use std::io::Read;
use tb_engine_streams::{Tracked, without_return};

/// The most lines of a header, the empty one counted.
pub const MOST_LINES: usize = 16;

/// The most bytes of a content that is taken.
pub const MOST_CONTENT: usize = 8_388_608;

const CHUNK: usize = 4096;

/// What a frame brings.
#[derive(Debug, Drop)]
pub enum Frame {
    Content(Vec<u8>),
    /// More bytes than are taken; they were passed over.
    TooLong(u64),
}

/// Why no frame could be had.
#[derive(Clone, Copy, Debug, PartialEq, Eq, Drop)]
pub enum FrameError {
    /// The reader failed.
    Fault,
    /// What it gave is no frame, or was cut off.
    Bad,
    /// A growth was refused.
    NoMemory,
}

// A line of a header, without its end.
#[derive(Debug, Drop)]
enum Line {
    /// The header has ended.
    Empty,
    Field(Field),
    /// The input has ended.
    End,
}

// What a line of a header says.
fn line_of(line: &[u8]) -> Line
    ensures { result ≡ line_of line.now }
{
    let line = without_return(line);
    if line.is_empty() {
        Line::Empty
    } else {
        Line::Field(read_field(line))
    }
}

// The length after one more line, which is refused where it says a bad one.
fn length_after(field: Field, found: Option<u64>) -> Result<Option<u64>, FrameError>
    ensures { SaysLength field found result }
{
    match field {
        Field::Length(length) => Ok(Some(length)),
        Field::Other => Ok(found),
        Field::BadLength => Err(FrameError::Bad),
    }
}

// Reads a line of a header.
fn next_line<R: Read>(alloc: Global, reader: &mut Tracked<R>) -> Result<Line, FrameError>
    ensures { TakesHeaderLine result (R.remaining reader.old.stream) (R.remaining reader.new.stream)
        (failures_of reader.old) (failures_of reader.new) }
{
    match read_line(alloc, reader) {
        Ok(None) => Ok(Line::End),
        Ok(Some(line)) => Ok(line_of(line.as_slice())),
        Err(error) => Err(error),
    }
}

// Reads the lines of a header: how many bytes its content has; nothing where the input has ended before it.
fn read_header<R: Read>(alloc: Global, reader: &mut Tracked<R>) -> Result<Option<u64>, FrameError>
    ensures { ReadsHeader result (R.remaining reader.old.stream) (R.remaining reader.new.stream)
        (failures_of reader.old) (failures_of reader.new) }
{
    let mut found = None;
    for count in 0..MOST_LINES {
        let line = match next_line(alloc, reader) {
            Ok(line) => line,
            Err(error) => return Err(error),
        };
        match line {
            Line::Field(field) => found = match length_after(field, found) {
                Ok(length) => length,
                Err(error) => return Err(error),
            },
            Line::Empty => {
                return match found {
                    Some(length) => Ok(Some(length)),
                    None => Err(FrameError::Bad),
                };
            }
            Line::End => {
                return if count == 0 {
                    Ok(None)
                } else {
                    Err(FrameError::Bad)
                };
            }
        }
    }
    Err(FrameError::Bad)
}

// Reads so many bytes.
fn read_bytes<R: Read>(
    alloc: Global,
    reader: &mut Tracked<R>,
    length: usize,
) -> Result<Vec<u8>, FrameError>
    requires { length ≤ MOST_CONTENT }
    ensures { ReadsBytes length result (R.remaining reader.old.stream) (R.remaining reader.new.stream)
        (failures_of reader.old) (failures_of reader.new) }
{
    let mut content = Vec::new(alloc);
    let mut chunk = [0u8; CHUNK];
    'reading: while content.len() < length {
        let room = CHUNK.min(length - content.len());
        let count = match reader.pull(&mut chunk[..room]) {
            Ok(count) => count,
            Err(_) => return Err(FrameError::Fault),
        };
        if count == 0 {
            return Err(FrameError::Bad);
        }
        if content.extend_from_slice(&chunk[..count]).is_err() {
            return Err(FrameError::NoMemory);
        }
    }
    Ok(content)
}

// Passes over so many bytes.
fn pass_bytes<R: Read>(reader: &mut Tracked<R>, length: u64) -> Result<(), FrameError>
    ensures { PassesBytes length result (R.remaining reader.old.stream) (R.remaining reader.new.stream)
        (failures_of reader.old) (failures_of reader.new) }
{
    let mut left = length;
    let mut chunk = [0u8; CHUNK];
    'passing: while left > 0 {
        let room = (CHUNK as u64).min(left) as usize;
        let count = match reader.pull(&mut chunk[..room]) {
            Ok(count) => count,
            Err(_) => return Err(FrameError::Fault),
        };
        if count == 0 {
            return Err(FrameError::Bad);
        }
        left -= count as u64;
    }
    Ok(())
}

/// Reads the next frame, whose content has at most `MOST_CONTENT` bytes; a longer one is passed over. Nothing after it is
/// taken. `None` where the input has ended before it.
pub fn read_frame<R: Read>(
    alloc: Global,
    reader: &mut Tracked<R>,
) -> Result<Option<Frame>, FrameError>
    ensures { ReadsFrame result (R.remaining reader.old.stream) (R.remaining reader.new.stream)
        (failures_of reader.old) (failures_of reader.new) }
{
    let length = match read_header(alloc, reader) {
        Ok(Some(length)) => length,
        Ok(None) => return Ok(None),
        Err(error) => return Err(error),
    };
    if length <= MOST_CONTENT as u64 {
        match read_bytes(alloc, reader, length as usize) {
            Ok(content) => Ok(Some(Frame::Content(content))),
            Err(error) => Err(error),
        }
    } else {
        match pass_bytes(reader, length) {
            Ok(()) => Ok(Some(Frame::TooLong(length))),
            Err(error) => Err(error),
        }
    }
}
