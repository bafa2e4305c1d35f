//! Which lines no transcript reached, as a text and as a page.
ghost use Rattle.std.specs.Prelude.{◌≡◌, IfOk, OnOk, flat_map, map, string_bytes};
ghost use Rattle.std.specs.Fmt.{decimal};
ghost use Rattle.tb_engine_profile_table.specs.Cells.{escaped};
ghost use Rattle.tb_basic_source.specs.Lines.{pair_of};
ghost use Rattle.tb_engine_test.specs.Covering.{covered_of, coverage_page, line_row, missed, missed_words, opening_of, section, share, share_text, share_words, source_line, source_rows, source_text};
ghost use Rattle.tb_engine_test.specs.Reaching.{plus};

use crate::page::{
    BEGUN, FOOT, HEAD, LINE, LINE_END, NEVER, NOT_REACHED, ROWS, ROWS_END, SECTION, SHARE,
};
use crate::reaching::{Reach, plus, reached_in};
use std::alloc::{AllocError, Global};
use tb_basic_source::{Numbered, numbered_lines, text_of};
use tb_engine_profile_table::push_all_escaped;

/// A source, and how often its lines were begun over all its transcripts.
#[derive(Drop)]
pub struct Coverage {
    pub name: String,
    pub source: Vec<u8>,
    pub lines: Vec<Reach>,
}

impl Coverage {
    /// One more transcript's counts.
    pub fn add(&mut self, alloc: Global, more: &[Reach]) -> Result<(), AllocError>
        ensures { OnOk result (covered_of self.new ≡ record (covered_of self.old) { lines = plus (covered_of self.old).lines more.now }) }
    {
        self.lines = plus(alloc, &self.lines, more)?;
        Ok(())
    }
}

// How many of a hundred lines were reached; all if there are none.
fn share(reached: usize, all: usize) -> u128
    ensures { result ≡ share reached all }
{
    if all == 0 {
        100
    } else {
        (reached as u128) * 100 / (all as u128)
    }
}

// So many of all lines, and their share.
fn share_words(alloc: Global, reached: usize, all: usize, share: u128) -> Result<String, AllocError>
    ensures { IfOk result (λ text. string_bytes text ≡ share_words reached all share) }
{
    Ok(format!(in alloc; "{reached} of {all} lines reached ({share} %)")?)
}

// How many lines were reached, in words.
fn share_text(alloc: Global, reached: usize, all: usize) -> Result<String, AllocError>
    ensures { IfOk result (λ text. string_bytes text ≡ share_text reached all) }
{
    share_words(alloc, reached, all, share(reached, all))
}

// The pieces of a text, one after the other.
fn joined(alloc: Global, pieces: &[&[u8]]) -> Result<Vec<u8>, AllocError>
    ensures { IfOk result (λ text. text.items ≡ flat_map (λ p. p.now) pieces.now) }
{
    pieces.concat(alloc)
}

// The numbers of the lines that were not reached, each behind a space.
fn missed_numbers(alloc: Global, lines: &[Reach]) -> Result<Vec<u8>, AllocError>
    ensures { IfOk result (λ text. text.items ≡ flat_map missed lines.now) }
{
    let mut text = Vec::new(alloc);
    for line in lines {
        if line.times == 0 {
            let number = line.number;
            text.extend_from_slice(format!(in alloc; " {number}")?.as_bytes())?;
        }
    }
    Ok(text)
}

// What stands before these numbers; nothing if there are none.
fn missed_words(lines: &[Reach]) -> &'static [u8]
    ensures { result.now ≡ missed_words lines.now }
{
    if reached_in(lines) < lines.len() {
        NOT_REACHED
    } else {
        b""
    }
}

// What is told of a source, by its parts.
fn source_line(
    alloc: Global,
    name: &[u8],
    share: &[u8],
    words: &[u8],
    missed: &[u8],
) -> Result<Vec<u8>, AllocError>
    ensures { IfOk result (λ text. text.items ≡ source_line name.now share.now words.now missed.now) }
{
    let pieces: [&[u8]; 6] = [name, b": ", share, words, missed, b"\n"];
    joined(alloc, &pieces)
}

// What is told of a source: how many of its lines were reached, and which were not.
fn source_text(alloc: Global, of: &Coverage) -> Result<Vec<u8>, AllocError>
    ensures { IfOk result (λ text. text.items ≡ source_text (covered_of of.now)) }
{
    let share = share_text(alloc, reached_in(&of.lines), of.lines.len())?;
    let missed = missed_numbers(alloc, &of.lines)?;
    let words = missed_words(&of.lines);
    source_line(alloc, of.name.as_bytes(), share.as_bytes(), words, &missed)
}

/// Which lines no transcript reached, source by source.
pub fn coverage_text(alloc: Global, sources: &[Coverage]) -> Result<Vec<u8>, AllocError>
    ensures { IfOk result (λ text. text.items ≡ flat_map source_text (map covered_of sources.now)) }
{
    let mut text = Vec::new(alloc);
    for source in sources {
        text.extend_from_slice(source_text(alloc, source)?.as_slice())?;
    }
    Ok(text)
}

// How the row of a line begins, by how often the line was begun.
fn opening_of(times: u64) -> &'static [u8]
    ensures { result.now ≡ opening_of times }
{
    if times == 0 { NEVER } else { BEGUN }
}

// A text in HTML.
fn escaped_text(alloc: Global, text: &[u8]) -> Result<Vec<u8>, AllocError>
    ensures { IfOk result (λ shown. shown.items ≡ flat_map escaped text.now) }
{
    let mut shown = Vec::new(alloc);
    push_all_escaped(&mut shown, text)?;
    Ok(shown)
}

// How often a line was begun, in digits.
fn times_text(alloc: Global, times: u64) -> Result<String, AllocError>
    ensures { IfOk result (λ text. string_bytes text ≡ decimal times) }
{
    Ok(format!(in alloc; "{times}")?)
}

// The row of a line: how often it was begun, and the line.
fn line_row(alloc: Global, written: &[Numbered<'_>], line: Reach) -> Result<Vec<u8>, AllocError>
    ensures { IfOk result (λ row. row.items ≡ line_row (map pair_of written.now) line) }
{
    let times = times_text(alloc, line.times)?;
    let shown = escaped_text(alloc, text_of(written, line.number))?;
    let pieces: [&[u8]; 5] = [
        opening_of(line.times),
        times.as_bytes(),
        LINE,
        shown.as_slice(),
        LINE_END,
    ];
    joined(alloc, &pieces)
}

// The rows of a source's lines.
fn line_rows(
    alloc: Global,
    written: &[Numbered<'_>],
    lines: &[Reach],
) -> Result<Vec<u8>, AllocError>
    ensures { IfOk result (λ rows. rows.items ≡ flat_map (line_row (map pair_of written.now)) lines.now) }
{
    let mut rows = Vec::new(alloc);
    for line in lines {
        rows.extend_from_slice(line_row(alloc, written, *line)?.as_slice())?;
    }
    Ok(rows)
}

// The rows of the lines of a source.
fn source_rows(alloc: Global, of: &Coverage) -> Result<Vec<u8>, AllocError>
    ensures { IfOk result (λ rows. rows.items ≡ source_rows (covered_of of.now)) }
{
    let written = numbered_lines(alloc, &of.source)?;
    line_rows(alloc, &written, &of.lines)
}

// The part of a page that shows a source.
fn section(alloc: Global, of: &Coverage) -> Result<Vec<u8>, AllocError>
    ensures { IfOk result (λ text. text.items ≡ section (covered_of of.now)) }
{
    let name = escaped_text(alloc, of.name.as_bytes())?;
    let share = share_text(alloc, reached_in(&of.lines), of.lines.len())?;
    let rows = source_rows(alloc, of)?;
    let pieces: [&[u8]; 7] = [
        SECTION,
        name.as_slice(),
        SHARE,
        share.as_bytes(),
        ROWS,
        rows.as_slice(),
        ROWS_END,
    ];
    joined(alloc, &pieces)
}

// The parts of a page that show sources.
fn sections(alloc: Global, sources: &[Coverage]) -> Result<Vec<u8>, AllocError>
    ensures { IfOk result (λ text. text.items ≡ flat_map section (map covered_of sources.now)) }
{
    let mut text = Vec::new(alloc);
    for source in sources {
        text.extend_from_slice(section(alloc, source)?.as_slice())?;
    }
    Ok(text)
}

/// The page of sources: each with its lines, and how often each was begun.
pub fn coverage_page(alloc: Global, sources: &[Coverage]) -> Result<Vec<u8>, AllocError>
    ensures { IfOk result (λ page. page.items ≡ coverage_page (map covered_of sources.now)) }
{
    let sections = sections(alloc, sources)?;
    let pieces: [&[u8]; 3] = [HEAD, sections.as_slice(), FOOT];
    joined(alloc, &pieces)
}
