//! Where a run differs from what was wanted.
ghost use Rattle.std.specs.Prelude.{◌≡◌, ◌↔◌, ◌≤◌, ◌<◌, ◌+◌, ◌-◌, ◌++◌, ◌∷◌, [], IfOk, length, map, flat_map, take, string_bytes, option_map, None};
ghost use Rattle.tb_basic_text.specs.Lines.{lines_of_file};
ghost use Rattle.tb_words.specs.Texts.{AppendsBytes};
ghost use Rattle.tb_engine_transcripts.specs.Comparing.{IsSame};
ghost use Rattle.tb_engine_transcripts.specs.Contents.{content_of};
ghost use Rattle.tb_engine_transcripts.specs.Differing as spec;
ghost use Rattle.tb_engine_transcripts.specs.Differing.{found};
ghost use Rattle.tb_engine_transcripts.specs.Writing.{ended, end_line, option_lines, output_text};

use crate::comparing::{is_same, is_same_output, same_turns};
use crate::transcript::{Difference, RunEnd, RunOptions, Transcript};
use crate::writing::{push_end, push_output, push_pieces};
use std::alloc::{AllocError, Global};
use tb_basic_text::next_line;

/// How many lines are shown before those that differ.
const CONTEXT: usize = 3;

/// How many lines are shown of each text from the first one that differs on.
const SHOWN: usize = 4;

// How many bytes at the front are the same.
fn alike_bytes(one: &[u8], other: &[u8]) -> usize
    ensures { result ≡ spec.alike_bytes one.now other.now }
{
    let mut count = 0;
    let mut rest = other;
    for byte in one {
        match rest {
            [next, behind @ ..] if *byte == *next => {
                count += 1;
                rest = behind;
            }
            _ => return count,
        }
    }
    count
}

// How many lines at the front are the same.
fn alike_lines(one: &[&[u8]], other: &[&[u8]]) -> usize
    ensures value { result ≡ spec.alike_lines (map (λ l. l.now) one.now) (map (λ l. l.now) other.now) }
    ensures one { result ≤ length one.now }
    ensures other { result ≤ length other.now }
{
    let mut count = 0;
    let mut rest = other;
    for line in one {
        match rest {
            [next, behind @ ..] if *line == *next => {
                count += 1;
                rest = behind;
            }
            _ => return count,
        }
    }
    count
}

// What was sent in a turn, or after the last one.
fn sent_at(transcript: &Transcript, turn: usize) -> &[u8]
    ensures { result.now ≡ spec.sent_at (content_of transcript.now) turn }
{
    if turn < transcript.turns.len() {
        transcript.turns[turn].sent.as_slice()
    } else {
        transcript.last.as_slice()
    }
}

// The lines of a text.
fn lines(alloc: Global, text: &[u8]) -> Result<Vec<&[u8]>, AllocError>
    ensures { IfOk result (λ lines. map (λ l. l.now) lines.items ≡ lines_of_file text.now) }
{
    let mut lines = Vec::new(alloc);
    let mut rest = text;
    while let Some((line, below)) = next_line(rest) {
        lines.push(line)?;
        rest = below;
    }
    Ok(lines)
}

// The first lines, as many as are shown.
fn few<'a>(lines: &'a [&'a [u8]]) -> &'a [&'a [u8]]
    ensures { map (λ l. l.now) result.now ≡ take 4 (map (λ l. l.now) lines.now) }
{
    if lines.len() > SHOWN {
        &lines[..SHOWN]
    } else {
        lines
    }
}

// The number of a hunk's first line: the one behind as many, or the last of those if there is none.
fn start(before: usize, count: usize) -> usize
    requires { before < 18446744073709551615 }
    ensures { result ≡ spec.start before count }
{
    if count == 0 { before } else { before + 1 }
}

// Which lines of a text a hunk has, by how many are before it and how many it has.
fn range_text(alloc: Global, lines: (usize, usize)) -> Result<String, AllocError>
    requires { lines.0 < 18446744073709551615 }
    ensures { IfOk result (λ text. string_bytes text ≡ spec.range_text lines) }
{
    let first = start(lines.0, lines.1);
    let count = lines.1;
    format!(in alloc; "{first},{count}")
}

// The line that a hunk begins with.
fn hunk_head(
    alloc: Global,
    wanted: (usize, usize),
    ran: (usize, usize),
) -> Result<Vec<u8>, AllocError>
    requires wanted { wanted.0 < 18446744073709551615 }
    requires ran { ran.0 < 18446744073709551615 }
    ensures { IfOk result (λ text. text.items ≡ spec.hunk_head wanted ran) }
{
    let wanted_lines = range_text(alloc, wanted)?;
    let ran_lines = range_text(alloc, ran)?;
    let mut text = Vec::new(alloc);
    push_pieces(
        &mut text,
        &[
            b"@@ -",
            wanted_lines.as_bytes(),
            b" +",
            ran_lines.as_bytes(),
            b" @@\n",
        ],
    )?;
    Ok(text)
}

// Appends lines with a byte before each.
fn push_lines(text: &mut Vec<u8>, mark: &[u8], lines: &[&[u8]]) -> Result<(), AllocError>
    ensures { AppendsBytes result text.old text.new (flat_map (spec.marked mark.now) (map (λ l. l.now) lines.now)) }
{
    for line in lines {
        text.extend_from_slice(mark)?;
        text.extend_from_slice(line)?;
        text.extend_from_slice(b"\n")?;
    }
    Ok(())
}

// How many lines a header has.
fn header_length(options: RunOptions) -> usize
    ensures { result ≡ length (option_lines options) + 1 }
{
    let with_seed = if options.seed.is_some() { 2 } else { 1 };
    let with_fit = if options.fits {
        with_seed + 1
    } else {
        with_seed
    };
    let with_signs = if options.signs {
        with_fit + 1
    } else {
        with_fit
    };
    let with_limit = if options.limit.is_some() {
        with_signs + 1
    } else {
        with_signs
    };
    if options.rude.is_some() {
        with_limit + 1
    } else {
        with_limit
    }
}

// A hunk: the number of lines before it in both texts, the lines that are alike, those that are wanted and the run's.
fn hunk(
    alloc: Global,
    before: (usize, usize),
    context: &[&[u8]],
    wanted: &[&[u8]],
    ran: &[&[u8]],
) -> Result<Vec<u8>, AllocError>
    requires wanted { before.0 < 18446744073709551615 }
    requires ran { before.1 < 18446744073709551615 }
    ensures { IfOk result (λ text. text.items ≡ spec.hunk before (map (λ l. l.now) context.now) (map (λ l. l.now) wanted.now) (map (λ l. l.now) ran.now)) }
{
    let wanted_count = context.len() + wanted.len();
    let ran_count = context.len() + ran.len();
    let mut text = hunk_head(alloc, (before.0, wanted_count), (before.1, ran_count))?;
    push_lines(&mut text, b" ", context)?;
    push_lines(&mut text, b"-", wanted)?;
    push_lines(&mut text, b"+", ran)?;
    Ok(text)
}

// What a transcript has below its header.
fn output_text(alloc: Global, transcript: &Transcript) -> Result<Vec<u8>, AllocError>
    ensures { IfOk result (λ text. text.items ≡ output_text (content_of transcript.now)) }
{
    let mut text = Vec::new(alloc);
    push_output(&mut text, transcript)?;
    Ok(text)
}

// The hunk of what was sent and typed.
fn output_hunk(alloc: Global, wanted: &Transcript, ran: &Transcript) -> Result<Vec<u8>, AllocError>
    ensures { IfOk result (λ text. text.items ≡ spec.output_hunk (content_of wanted.now) (content_of ran.now)) }
{
    let wanted_text = output_text(alloc, wanted)?;
    let ran_text = output_text(alloc, ran)?;
    let wanted_lines = lines(alloc, wanted_text.as_slice())?;
    let ran_lines = lines(alloc, ran_text.as_slice())?;
    lines_hunk(
        alloc,
        (header_length(wanted.options), header_length(ran.options)),
        wanted_lines.as_slice(),
        ran_lines.as_slice(),
    )
}

// The hunk where lines first differ, by how many lines stand above them.
fn lines_hunk(
    alloc: Global,
    above: (usize, usize),
    wanted: &[&[u8]],
    ran: &[&[u8]],
) -> Result<Vec<u8>, AllocError>
    requires wanted { above.0 ≤ 6 }
    requires ran { above.1 ≤ 6 }
    ensures { IfOk result (λ text. text.items ≡ spec.lines_hunk above (map (λ l. l.now) wanted.now) (map (λ l. l.now) ran.now)) }
{
    let alike = alike_lines(wanted, ran);
    let first = alike.saturating_sub(CONTEXT);
    hunk(
        alloc,
        (above.0 + first, above.1 + first),
        &wanted[first..alike],
        few(&wanted[alike..]),
        few(&ran[alike..]),
    )
}

// The line of an end.
fn end_line(alloc: Global, end: RunEnd) -> Result<Vec<u8>, AllocError>
    ensures { IfOk result (λ text. text.items ≡ end_line end) }
{
    let mut text = Vec::new(alloc);
    push_end(alloc, &mut text, end)?;
    Ok(text)
}

// The hunk of both ends.
fn end_hunk(alloc: Global, wanted: &Transcript, ran: &Transcript) -> Result<Vec<u8>, AllocError>
    ensures { IfOk result (λ text. text.items ≡ spec.end_hunk (content_of wanted.now) (content_of ran.now)) }
{
    let wanted_end = end_line(alloc, wanted.end)?;
    let ran_end = end_line(alloc, ran.end)?;
    hunk(
        alloc,
        (
            header_length(wanted.options) - 1,
            header_length(ran.options) - 1,
        ),
        &[],
        &[wanted_end.as_slice()],
        &[ran_end.as_slice()],
    )
}

// The hunk of a difference: that of what was sent and typed if it differs, else that of both ends.
fn hunk_of(alloc: Global, wanted: &Transcript, ran: &Transcript) -> Result<Vec<u8>, AllocError>
    ensures { IfOk result (λ text. text.items ≡ spec.hunk_of (content_of wanted.now) (content_of ran.now)) }
{
    if is_same_output(wanted, ran) {
        end_hunk(alloc, wanted, ran)
    } else {
        output_hunk(alloc, wanted, ran)
    }
}

/// Where a run first differs from what was wanted. `None` if and only if it doesn't.
pub fn difference(
    alloc: Global,
    wanted: &Transcript,
    ran: &Transcript,
) -> Result<Option<Difference>, AllocError>
    ensures value { IfOk result (λ d. option_map found d ≡ spec.difference (content_of wanted.now) (content_of ran.now)) }
    ensures same { IfOk result (λ d. (d ≡ None) ↔ IsSame (content_of wanted.now) (content_of ran.now)) }
{
    if is_same(wanted, ran) {
        return Ok(None);
    }
    let turn = same_turns(wanted.turns.as_slice(), ran.turns.as_slice());
    let alike = alike_bytes(sent_at(wanted, turn), sent_at(ran, turn));
    let text = hunk_of(alloc, wanted, ran)?;
    Ok(Some(Difference { turn, alike, text }))
}
