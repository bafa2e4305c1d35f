//! Spans of a line: what stands at a place, and the line itself.
ghost use Rattle.std.specs.Prelude.{◌≡◌, ◌≤◌, drop, length, take};
ghost use Rattle.tb_basic_places.specs.Spans.{between, continued, digits, end_from, is_letter, last_word, letters, line_span, piece, place_span, spaces, standing, tail, whole_span, with_dollar, word_span};

use crate::columns::column;

/// Some of a line: from one column of it to another.
#[derive(Clone, Copy, Debug, PartialEq, Eq, Drop)]
pub struct Span {
    /// The line, from 0.
    pub line: usize,
    pub start: usize,
    pub end: usize,
}

fn is_letter(byte: u8) -> bool
    ensures { result ≡ is_letter byte }
{
    matches!(byte, b'A'..=b'Z' | b'a'..=b'z')
}

// How many letters a text begins with.
fn letters(text: &[u8]) -> usize
    ensures value { result ≡ letters text.now }
    ensures within { result ≤ length text.now }
{
    for (i, byte) in text.iter().enumerate() {
        if !is_letter(*byte) {
            return i;
        }
    }
    text.len()
}

// How many digits a text begins with.
fn digits(text: &[u8]) -> usize
    ensures value { result ≡ digits text.now }
    ensures within { result ≤ length text.now }
{
    for (i, byte) in text.iter().enumerate() {
        if !matches!(*byte, b'0'..=b'9') {
            return i;
        }
    }
    text.len()
}

// How many bytes at the beginning of a text go on with a character.
fn continued(text: &[u8]) -> usize
    ensures value { result ≡ continued text.now }
    ensures within { result ≤ length text.now }
{
    for (i, byte) in text.iter().enumerate() {
        if !matches!(*byte, 128..=191) {
            return i;
        }
    }
    text.len()
}

// How many spaces a text begins with.
fn spaces(text: &[u8]) -> usize
    ensures value { result ≡ spaces text.now }
    ensures within { result ≤ length text.now }
{
    for (i, byte) in text.iter().enumerate() {
        if *byte != b' ' {
            return i;
        }
    }
    text.len()
}

// How many bytes are before the last spaces of a text.
fn end_of(text: &[u8]) -> usize
    ensures value { result ≡ end_from 0 0 text.now }
    ensures within { result ≤ length text.now }
{
    let mut end = 0;
    for (i, byte) in text.iter().enumerate() {
        if *byte != b' ' {
            end = i + 1;
        }
    }
    end
}

// So many bytes of a text, and one more where `$` follows.
fn with_dollar(text: &[u8], count: usize) -> usize
    requires { count ≤ length text.now }
    ensures value { result ≡ with_dollar text.now count }
    ensures within { result ≤ length text.now }
{
    match &text[count..] {
        [b'$', ..] => count + 1,
        _ => count,
    }
}

// How many bytes stand at the beginning of a text: letters and a `$` directly after them, digits, or else a character.
fn standing(text: &[u8]) -> usize
    ensures value { result ≡ standing text.now }
    ensures within { result ≤ length text.now }
{
    match text {
        [] => 0,
        [first, rest @ ..] => {
            if is_letter(*first) {
                with_dollar(text, letters(text))
            } else if matches!(*first, b'0'..=b'9') {
                digits(text)
            } else {
                1 + continued(rest)
            }
        }
    }
}

/// From one byte of a line, which is counted from 1, to another.
pub fn between(line: usize, text: &[u8], start: usize, end: usize) -> Span
    ensures { result ≡ between line text.now start end }
{
    let end = end.min(text.len());
    let start = start.min(text.len());
    Span {
        line: line.saturating_sub(1),
        start: column(&text[..start]),
        end: column(&text[..end]),
    }
}

/// So many bytes of a line, which is counted from 1, from one on.
pub fn piece(line: usize, text: &[u8], start: usize, count: usize) -> Span
    ensures { result ≡ piece line text.now start count }
{
    let start = start.min(text.len());
    between(line, text, start, start + count.min(text.len() - start))
}

/// The rest of a line, which is counted from 1, from one byte on without the spaces at its end.
pub fn tail(line: usize, text: &[u8], start: usize) -> Span
    ensures { result ≡ tail line text.now start }
{
    between(line, text, start, end_of(text))
}

/// What stands at a column of a line, both counted from 1.
pub fn place_span(line: usize, text: &[u8], column_of_byte: usize) -> Span
    ensures { result ≡ place_span line text.now column_of_byte }
{
    let start = column_of_byte.saturating_sub(1).min(text.len());
    let end = start + standing(&text[start..]);
    between(line, text, start, end)
}

// Where the letters at the end of a text begin.
fn last_word(text: &[u8]) -> usize
    ensures value { result ≡ last_word 0 0 text.now }
    ensures within { result ≤ length text.now }
{
    let mut start = 0;
    for (i, byte) in text.iter().enumerate() {
        if !is_letter(*byte) {
            start = i + 1;
        }
    }
    start
}

/// The letters round a column of a line, both counted from 1.
pub fn word_span(line: usize, text: &[u8], column_of_byte: usize) -> Span
    ensures { result ≡ word_span line text.now column_of_byte }
{
    let at = column_of_byte.saturating_sub(1).min(text.len());
    let start = last_word(&text[..at]);
    let end = at + letters(&text[at..]);
    between(line, text, start, end)
}

/// A line, counted from 1, without the spaces at its ends.
pub fn line_span(line: usize, text: &[u8]) -> Span
    ensures { result ≡ line_span line text.now }
{
    let start = spaces(text);
    let end = end_of(text).max(start);
    between(line, text, start, end)
}

/// The place of what is said of a whole source: its beginning.
pub fn whole_span() -> Span
    ensures { result ≡ whole_span }
{
    Span {
        line: 0,
        start: 0,
        end: 0,
    }
}
