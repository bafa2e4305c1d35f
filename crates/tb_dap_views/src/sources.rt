//! The file of the source that is debugged, and which of its lines give the program its lines.
ghost use Rattle.std.specs.Prelude.{◌≡◌, ◌≤◌, IfOk, Some, None, length, map, option_map};
ghost use Rattle.serde_json.specs.View.{view};
ghost use Rattle.tb_compiled.specs.Compiled.{pair_of, starts_of};
ghost use Rattle.tb_editor_navigation.specs.Remarks as remarks;
ghost use Rattle.tb_basic_names.specs.Lines.{does};
ghost use Rattle.tb_basic_names.specs.Sources.{edits_of};
ghost use Rattle.tb_dap_views.specs.Sources as spec;

use serde_json::Value;
use std::alloc::{AllocError, Global};
use tb_basic_names::{Line, Source};
use tb_compiled::{Compiled, LineStart};
use tb_dap_values::source_value;
use tb_editor_navigation::shown;

/// The file of a source, and the program that it was compiled to.
#[derive(Drop)]
pub struct SourceFile<'a> {
    pub path: &'a str,
    pub source: Source<'a>,
    pub program: &'a Compiled,
}

/// A line of the file that gives the program a line.
#[derive(Clone, Copy, Debug, PartialEq, Eq, Drop)]
pub struct Breakable {
    /// The program's line.
    pub number: u16,
    /// The line's place in the file, from 0.
    pub place: usize,
}

/// What follows the last slash of a path.
pub fn last_part(path: &[u8]) -> &[u8]
    ensures { result.now ≡ spec.last_part path.now path.now }
{
    let mut found = path;
    for (i, byte) in path.iter().enumerate() {
        if *byte == b'/' {
            found = &path[i + 1..];
        }
    }
    found
}

// Whether a path ends in a slash and another path.
fn ends_in(path: &[u8], other: &[u8]) -> bool
    ensures { result ≡ spec.ends_in path.now other.now }
{
    if path.len() <= other.len() {
        return false;
    }
    let before = path.len() - other.len();
    path[before - 1] == b'/' && &path[before..] == other
}

/// Whether two paths are taken for those of one file: they are the same, or one ends in a slash and the other.
pub fn is_same_file(one: &[u8], other: &[u8]) -> bool
    ensures { result ≡ spec.is_same_file one.now other.now }
{
    one == other || ends_in(one, other) || ends_in(other, one)
}

// A text without the spaces before it.
fn behind_spaces(text: &[u8]) -> &[u8]
    ensures { result.now ≡ remarks.behind_spaces text.now }
{
    for (i, byte) in text.iter().enumerate() {
        if *byte != b' ' {
            return &text[i..];
        }
    }
    &[]
}

// How many bytes of a text are before its last spaces.
fn end_of(text: &[u8]) -> usize
    ensures value { result ≡ remarks.end_from 0 0 text.now }
    ensures within { result ≤ length text.now }
{
    let mut end = 0;
    for (i, byte) in text.iter().enumerate() {
        if *byte != b' ' {
            end = i + 1;
        }
    }
    end
}

/// A text without the spaces at its ends.
pub fn trimmed(text: &[u8]) -> &[u8]
    ensures { result.now ≡ remarks.trimmed text.now }
{
    let text = behind_spaces(text);
    &text[..end_of(text)]
}

// The text of a line, without spaces at its ends.
fn line_text<'a>(line: Option<&Line<'a>>) -> &'a str
    ensures { result.now ≡ spec.line_text (option_map (λ l. l.now) line.entry) }
{
    match line {
        Some(line) => shown(trimmed(line.text)),
        None => "",
    }
}

// The number of a line, if it is good and has one.
fn line_number(line: Option<&Line<'_>>) -> Option<u16>
    ensures { result ≡ spec.line_number (option_map (λ l. l.now) line.entry) }
{
    match line {
        Some(line) => line.number(),
        None => None,
    }
}

// A line of a file of `count` lines by its place, counted from 1; 0 for none.
fn counted(count: usize, place: Option<usize>) -> u64
    ensures { result ≡ spec.counted count place }
{
    match place {
        Some(place) if place < count => place as u64 + 1,
        _ => 0,
    }
}

// The last of these lines below a number, or one that was found before.
fn below(found: Option<u16>, starts: &[LineStart], number: u16) -> Option<u16>
    ensures { result ≡ spec.below found (map pair_of starts.now) number }
{
    match starts {
        [] => found,
        [first, rest @ ..] => if first.number < number {
            below(Some(first.number), rest, number)
        } else {
            below(found, rest, number)
        },
    }
}

// The number of the last of these lines, or one that was found before.
fn last_number(found: Option<u16>, starts: &[LineStart]) -> Option<u16>
    ensures { result ≡ spec.last_number found (map pair_of starts.now) }
{
    match starts {
        [] => found,
        [first, rest @ ..] => last_number(Some(first.number), rest),
    }
}

/// The line before another one; before none it is the last one.
pub fn before(starts: &[LineStart], line: Option<u16>) -> Option<u16>
    ensures { result ≡ spec.before (map pair_of starts.now) line }
{
    match line {
        Some(number) => below(None, starts, number),
        None => last_number(None, starts),
    }
}

impl<'a> SourceFile<'a> {
    /// The file, as messages name it.
    pub fn value(&self, alloc: Global) -> Result<Value, AllocError>
        ensures { IfOk result (λ v. view v ≡ spec.source_of self.now) }
    {
        let name = shown(last_part(self.path.as_bytes()));
        source_value(alloc, name, self.path)
    }

    /// The line of the file that gives the program a line, counted from 1; 0 if there is none.
    pub fn line_of(&self, number: u16) -> u64
        ensures { result ≡ spec.line_of self.now number }
    {
        counted(self.source.lines.len(), self.source.standing(number))
    }

    // The line at a place.
    fn line_at(&self, place: Option<usize>) -> Option<&Line<'a>>
        ensures { option_map (λ l. l.now) result ≡ spec.line_at self.now.source.lines.items place }
    {
        match place {
            Some(place) => self.source.lines.get(place),
            None => None,
        }
    }

    /// The line of the file that gives the program a line, without spaces at its ends.
    pub fn text_of(&self, number: u16) -> &'a str
        ensures { result.now ≡ spec.text_of self.now number }
    {
        line_text(self.line_at(self.source.standing(number)))
    }

    /// The number of the line at a place, if it gives the program its line.
    pub fn standing_at(&self, place: usize) -> Option<u16>
        ensures { result ≡ spec.standing_at self.now place }
    {
        match line_number(self.line_at(Some(place))) {
            Some(number) if self.source.stands(place, number) => Some(number),
            _ => None,
        }
    }

    /// The first line from a place on that gives the program a line.
    pub fn breakable(&self, from: usize) -> Option<Breakable>
        ensures { result ≡ spec.breakable self.now from }
    {
        for place in from..self.source.lines.len() {
            if let Some(number) = self.standing_at(place) {
                return Some(Breakable { number, place });
            }
        }
        None
    }
}
