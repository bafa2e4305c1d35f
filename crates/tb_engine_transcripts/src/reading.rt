//! How a transcript is read.
ghost use Rattle.std.specs.Prelude.{◌≡◌, ◌<◌, ◌+◌, length, IfOk, Ok};
ghost use Rattle.tb_basic_text.specs.Lines.{lines_of_file};
ghost use Rattle.tb_engine_transcripts.specs.Contents.{content_of, IsWritable};
ghost use Rattle.tb_engine_transcripts.specs.Reading as spec;
ghost use Rattle.tb_engine_transcripts.specs.Reading.{Reads, Takes, state_of};

use crate::header::read_header;
use crate::marks::{ESCAPE, OPTION, TYPED, behind};
use crate::reasons::{BadLine, Reason, Unread};
use crate::transcript::{RunEnd, Transcript, Turn};
use std::alloc::Global;
use std::mem;
use tb_basic_text::next_line;

/// What was read below the header: turns, and what was sent since the last of them, each line with its end.
#[derive(Drop)]
struct Reading {
    turns: Vec<Turn>,
    sent: Vec<u8>,
}

// A line that was sent, without what it is escaped by.
fn unescaped(line: &[u8]) -> &[u8]
    ensures { result.now ≡ spec.unescaped line.now }
{
    match behind(ESCAPE, line) {
        Some(rest) => rest,
        None => line,
    }
}

// Takes a line that was typed.
fn push_typed(alloc: Global, reading: &mut Reading, typed: &[u8]) -> Result<(), Unread>
    ensures { Takes (Ok (spec.with_typed (state_of reading.old) typed.now)) result (state_of reading.new) }
{
    let typed = Vec::from_slice(alloc, typed)?;
    reading.sent.pop();
    let sent = mem::replace(&mut reading.sent, Vec::new(alloc));
    match reading.turns.push(Turn { sent, typed }) {
        Ok(()) => Ok(()),
        Err(_) => Err(Unread::NoMemory),
    }
}

// Takes a line that was sent.
fn push_sent(reading: &mut Reading, line: &[u8]) -> Result<(), Unread>
    ensures { Takes (Ok (spec.with_sent (state_of reading.old) line.now)) result (state_of reading.new) }
{
    reading.sent.extend_from_slice(unescaped(line))?;
    match reading.sent.push(b'\n') {
        Ok(()) => Ok(()),
        Err(_) => Err(Unread::NoMemory),
    }
}

// Takes a line below the header.
fn push_line(alloc: Global, reading: &mut Reading, number: usize, line: &[u8]) -> Result<(), Unread>
    ensures { Takes (spec.with_line number (state_of reading.old) line.now) result (state_of reading.new) }
{
    if let Some(typed) = behind(TYPED, line) {
        return push_typed(alloc, reading, typed);
    }
    if behind(OPTION, line).is_some() {
        return Err(Unread::Bad(BadLine {
            line: number,
            why: Reason::BelowOutput,
        }));
    }
    push_sent(reading, line)
}

// Whether a line says that the output ends without a line's end, if so much is left below it.
fn ends_open(line: &[u8], below: &[u8]) -> bool
    ensures { result ≡ spec.ends_open line.now (lines_of_file below.now) }
{
    below.is_empty() && line == ESCAPE
}

// Reads what stands below the header, from the line with a number on.
fn read_below(alloc: Global, number: usize, text: &[u8]) -> Result<Reading, Unread>
    requires { number + length text.now < 18446744073709551615 }
    ensures { Reads (spec.below number spec.begun (lines_of_file text.now)) state_of result }
{
    let mut reading = Reading {
        turns: Vec::new(alloc),
        sent: Vec::new(alloc),
    };
    let mut number = number;
    let mut rest = text;
    while let Some((line, below)) = next_line(rest) {
        if ends_open(line, below) {
            reading.sent.pop();
            return Ok(reading);
        }
        push_line(alloc, &mut reading, number, line)?;
        number += 1;
        rest = below;
    }
    Ok(reading)
}

/// What a transcript says: the one of a text, or its first line that is bad and why.
pub fn read_transcript(alloc: Global, text: &[u8]) -> Result<Transcript, Unread>
    ensures value { Reads (spec.read text.now) content_of result }
    // It can come of a run.
    ensures writable { IfOk result (λ t. IsWritable (content_of t)) }
{
    let begun = match read_header(text) {
        Ok(begun) => begun,
        Err(bad) => return Err(Unread::Bad(bad)),
    };
    let reading = read_below(alloc, begun.number, begun.rest)?;
    Ok(Transcript {
        options: begun.header.options,
        end: begun.header.end.unwrap_or(RunEnd::Returned),
        turns: reading.turns,
        last: reading.sent,
    })
}
