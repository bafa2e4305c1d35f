//! The canonical text of a transcript.
ghost use Rattle.std.specs.Prelude.{◌≡◌, ◌≢◌, ◌∷◌, [], ◌++◌, ◌<◌, ◌≤◌, length, flat_map, map, string_bytes, IfOk, MatchOption, Ok};
ghost use Rattle.std.specs.Fmt.{decimal};
ghost use Rattle.tb_words.specs.Texts.{AppendsBytes};
ghost use Rattle.tb_engine_transcripts.specs.Contents.{content_of, turn_of, IsWritable};
ghost use Rattle.tb_engine_transcripts.specs.Reading.{read};
ghost use Rattle.tb_engine_transcripts.specs.Writing as spec;
ghost use Rattle.tb_engine_transcripts.specs.Writing.{ended, text_of};

use crate::marks::{ESCAPE, OPTION, TYPED, behind};
use crate::options::{AT, ENDS, FAULT, FIT, LIMIT, PETSCII, RUDE, RUNS, SEED, WAITS};
use crate::transcript::{RunEnd, RunOptions, Transcript, Turn};
use std::alloc::{AllocError, Global};

/// Appends pieces, one after the other.
pub fn push_pieces(text: &mut Vec<u8>, pieces: &[&[u8]]) -> Result<(), AllocError>
    ensures { AppendsBytes result text.old text.new (flat_map (λ p. p.now) pieces.now) }
{
    for piece in pieces {
        text.extend_from_slice(piece)?;
    }
    Ok(())
}

// Appends a line of these pieces, with its end.
fn push_ended(text: &mut Vec<u8>, pieces: &[&[u8]]) -> Result<(), AllocError>
    ensures { AppendsBytes result text.old text.new (ended (flat_map (λ p. p.now) pieces.now)) }
{
    push_pieces(text, pieces)?;
    text.extend_from_slice(b"\n")
}

// A number in decimal.
fn number_text(alloc: Global, number: u32) -> Result<String, AllocError>
    ensures { IfOk result (λ text. string_bytes text ≡ decimal number) }
{
    format!(in alloc; "{number}")
}

// Appends the line of an option that has a number, if it is asked for.
fn push_number(
    alloc: Global,
    text: &mut Vec<u8>,
    word: &[u8],
    number: Option<u32>,
) -> Result<(), AllocError>
    ensures { AppendsBytes result text.old text.new (flat_map ended (spec.number_lines word.now number)) }
{
    match number {
        Some(number) => {
            let digits = number_text(alloc, number)?;
            push_ended(text, &[OPTION, word, digits.as_bytes()])
        }
        None => Ok(()),
    }
}

// Appends the line of an option that has a number of 16 bits, if it is asked for.
fn push_word(
    alloc: Global,
    text: &mut Vec<u8>,
    word: &[u8],
    number: Option<u16>,
) -> Result<(), AllocError>
    ensures { AppendsBytes result text.old text.new (flat_map ended (spec.number_lines word.now number)) }
{
    match number {
        Some(number) => push_number(alloc, text, word, Some(u32::from(number))),
        None => Ok(()),
    }
}

// Appends the line of an option that has no number, if it is asked for.
fn push_flag(text: &mut Vec<u8>, word: &[u8], asked: bool) -> Result<(), AllocError>
    ensures { AppendsBytes result text.old text.new (flat_map ended (spec.flag_lines word.now asked)) }
{
    if asked {
        push_ended(text, &[OPTION, word])
    } else {
        Ok(())
    }
}

/// Appends the line of an end, without the line's end.
pub fn push_end(alloc: Global, text: &mut Vec<u8>, end: RunEnd) -> Result<(), AllocError>
    ensures { AppendsBytes result text.old text.new (spec.end_line end) }
{
    match end {
        RunEnd::Returned => push_pieces(text, &[OPTION, ENDS]),
        RunEnd::Waits => push_pieces(text, &[OPTION, WAITS]),
        RunEnd::Runs => push_pieces(text, &[OPTION, RUNS]),
        RunEnd::Fault(code, line) => {
            let code = number_text(alloc, u32::from(code))?;
            let line = number_text(alloc, u32::from(line))?;
            push_pieces(text, &[OPTION, FAULT, code.as_bytes(), AT, line.as_bytes()])
        }
    }
}

// Appends the lines of what is asked for.
fn push_options(alloc: Global, text: &mut Vec<u8>, options: RunOptions) -> Result<(), AllocError>
    ensures { AppendsBytes result text.old text.new (flat_map ended (spec.option_lines options)) }
{
    push_word(alloc, text, SEED, options.seed)?;
    push_flag(text, FIT, options.fits)?;
    push_flag(text, PETSCII, options.signs)?;
    push_number(alloc, text, LIMIT, options.limit)?;
    push_word(alloc, text, RUDE, options.rude)
}

// Appends a line that was sent, escaped if need be.
fn push_line(text: &mut Vec<u8>, line: &[u8]) -> Result<(), AllocError>
    ensures { AppendsBytes result text.old text.new (ended (spec.marked line.now)) }
{
    if needs_escape(line) {
        push_ended(text, &[ESCAPE, line])
    } else {
        push_ended(text, &[line])
    }
}

// Whether a line that was sent would be read as something else.
fn needs_escape(line: &[u8]) -> bool
    ensures { result ≡ spec.needs_escape line.now }
{
    behind(OPTION, line).is_some()
        || behind(TYPED, line).is_some()
        || behind(ESCAPE, line).is_some()
}

// What stands before the first byte 10, and what stands behind it. `None` if there is none.
fn first_piece(text: &[u8]) -> Option<(&[u8], &[u8])>
    ensures { MatchOption result (spec.pieces text.now ≡ text.now ∷ [])
        (λ p. (spec.pieces text.now ≡ p.0.now ∷ spec.pieces p.1.now) × (length p.1.now < length text.now)) }
{
    for (i, byte) in text.iter().enumerate() {
        if *byte == b'\n' {
            return Some((&text[..i], &text[i + 1..]));
        }
    }
    None
}

// Appends the lines of what was sent before a line that was typed.
fn push_sent(text: &mut Vec<u8>, sent: &[u8]) -> Result<(), AllocError>
    ensures { AppendsBytes result text.old text.new (flat_map ended (spec.sent_lines sent.now)) }
{
    if sent.is_empty() {
        return Ok(());
    }
    let mut rest = sent;
    while let Some((piece, below)) = first_piece(rest) {
        push_line(text, piece)?;
        rest = below;
    }
    push_line(text, rest)
}

// Appends the lines of a turn.
fn push_turn(text: &mut Vec<u8>, turn: &Turn) -> Result<(), AllocError>
    ensures { AppendsBytes result text.old text.new (flat_map ended (spec.turn_lines (turn_of turn.now))) }
{
    push_sent(text, turn.sent.as_slice())?;
    push_ended(text, &[TYPED, turn.typed.as_slice()])
}

// Appends the lines of what was sent last.
fn push_last(text: &mut Vec<u8>, sent: &[u8]) -> Result<(), AllocError>
    ensures { AppendsBytes result text.old text.new (flat_map ended (spec.last_lines (spec.pieces sent.now))) }
{
    let mut rest = sent;
    while let Some((piece, below)) = first_piece(rest) {
        push_line(text, piece)?;
        rest = below;
    }
    if rest.is_empty() {
        return Ok(());
    }
    push_line(text, rest)?;
    push_ended(text, &[ESCAPE])
}

/// Appends what a transcript has below its header.
pub fn push_output(text: &mut Vec<u8>, transcript: &Transcript) -> Result<(), AllocError>
    ensures { AppendsBytes result text.old text.new (flat_map ended (spec.output_lines (content_of transcript.now))) }
{
    push_turns(text, transcript.turns.as_slice())?;
    push_last(text, transcript.last.as_slice())
}

// Appends the lines of turns.
fn push_turns(text: &mut Vec<u8>, turns: &[Turn]) -> Result<(), AllocError>
    ensures { AppendsBytes result text.old text.new (flat_map ended (flat_map spec.turn_lines (map turn_of turns.now))) }
{
    for turn in turns {
        push_turn(text, turn)?;
    }
    Ok(())
}

/// The canonical text of a transcript: what is asked for, the end, and what was sent and typed.
pub fn transcript_text(alloc: Global, transcript: &Transcript) -> Result<Vec<u8>, AllocError>
    ensures value { IfOk result (λ text. text.items ≡ text_of (content_of transcript.now)) }
    // Read again it is the same.
    ensures reads { IfOk result (λ text. IsWritable (content_of transcript.now) → read text.items ≡ Ok (content_of transcript.now)) }
{
    let mut text = Vec::new(alloc);
    push_options(alloc, &mut text, transcript.options)?;
    push_end(alloc, &mut text, transcript.end)?;
    text.extend_from_slice(b"\n")?;
    push_output(&mut text, transcript)?;
    Ok(text)
}
