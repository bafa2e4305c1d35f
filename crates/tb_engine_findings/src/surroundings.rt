//! The code around a place of a line, and what is asked of it.
ghost use Rattle.std.specs.Prelude.{◌≡◌, ◌≤◌, false, IfOk, drop, length, take};
ghost use Rattle.tb_engine_findings.specs.Surroundings as spec;

use crate::patterns::is_in;
use std::alloc::{AllocError, Global};

/// The code around a place: without spaces, and with nothing between the quotes of a text.
#[derive(Drop)]
pub struct Surroundings {
    pub before: Vec<u8>,
    pub behind: Vec<u8>,
    /// Whether no letter is right before the place.
    pub begins_word: bool,
}

/// What may be asked of the code around a place.
#[derive(Clone, Copy, Drop)]
pub enum Situation {
    Anywhere,
    /// PRINT was there.
    InPrint,
    /// PRINT was there, and no letter is right before the place.
    AtItem,
    /// PRINT was there, and one byte is left.
    LastInPrint,
    /// An IF has no relation behind it, and no letter is right before the place.
    WithoutRelation,
    /// No parenthesis is open.
    Closed,
    /// All parentheses that are open are closed behind the place.
    ClosedLater,
    /// A parenthesis that is open is not closed behind the place.
    NeverClosed,
}

/// The code around a place of a line in upper case, from 0.
pub fn code_around(alloc: Global, line: &[u8], place: usize) -> Result<Surroundings, AllocError>
    ensures { IfOk result (λ around. spec.around_of around ≡ spec.code_around line.now place) }
{
    let (front, rest) = divided(line, place);
    Ok(Surroundings {
        before: code_of(alloc, front)?,
        behind: code_of(alloc, rest)?,
        begins_word: begins_word(front),
    })
}

// A line before a place and from it on.
fn divided(line: &[u8], place: usize) -> (&[u8], &[u8])
    ensures front { result.0.now ≡ take place line.now }
    ensures rest { result.1.now ≡ drop place line.now }
{
    if place <= line.len() {
        (&line[..place], &line[place..])
    } else {
        (line, b"")
    }
}

// Whether no letter is at the end of a text.
fn begins_word(text: &[u8]) -> bool
    ensures { result ≡ spec.begins_word text.now }
{
    match text {
        [.., last] => !last.is_ascii_uppercase(),
        [] => true,
    }
}

// A text without spaces, and with nothing between its quotes.
fn code_of(alloc: Global, text: &[u8]) -> Result<Vec<u8>, AllocError>
    ensures { IfOk result (λ code. code.items ≡ spec.code_of false text.now) }
{
    let mut code = Vec::new(alloc);
    let mut is_text = false;
    for byte in text {
        if *byte == b'"' {
            is_text = !is_text;
            code.push(*byte)?;
        } else if !(is_text || *byte == b' ') {
            code.push(*byte)?;
        }
    }
    Ok(code)
}

impl Situation {
    ghost use Rattle.std.specs.Prelude.{◌≡◌};
    ghost use Rattle.tb_engine_findings.specs.Surroundings as spec;

    /// Whether it is the one around a place.
    pub fn holds(self, around: &Surroundings) -> bool
        ensures { result ≡ spec.holds self (spec.around_of around.now) }
    {
        match self {
            Situation::Anywhere => true,
            Situation::InPrint => is_in_print(&around.before),
            Situation::AtItem => is_in_print(&around.before) && around.begins_word,
            Situation::LastInPrint => is_in_print(&around.before) && around.behind.len() == 1,
            Situation::WithoutRelation => lacks_relation(&around.before) && around.begins_word,
            Situation::Closed => opened(&around.before) == 0,
            Situation::ClosedLater => {
                0 < opened(&around.before) && opened(&around.before) <= closed(&around.behind)
            }
            Situation::NeverClosed => closed(&around.behind) < opened(&around.before),
        }
    }
}

// Whether code has a PRINT, or a PR that can't be the name P and a letter.
fn is_in_print(code: &[u8]) -> bool
    ensures { result ≡ spec.is_in_print code.now }
{
    is_in(b"PRINT", code) || is_in(b"dPR", code)
}

// Whether an IF has no relation behind it.
fn lacks_relation(code: &[u8]) -> bool
    ensures { result ≡ spec.lacks_relation code.now }
{
    match code {
        [_, rest @ ..] => (code.starts_with(b"IF") && !is_in(b"r", rest)) || lacks_relation(rest),
        [] => false,
    }
}

// How many of the parentheses of code are open at its end, if none is closed that was not opened.
fn opened(code: &[u8]) -> usize
    ensures { result ≡ spec.opened code.now }
{
    count_of(b'(', code).saturating_sub(count_of(b')', code))
}

// How many more parentheses code closes than it opens.
fn closed(code: &[u8]) -> usize
    ensures { result ≡ spec.closed code.now }
{
    count_of(b')', code).saturating_sub(count_of(b'(', code))
}

fn count_of(byte: u8, code: &[u8]) -> usize
    ensures value { result ≡ spec.count_of byte code.now }
    ensures within { result ≤ length code.now }
{
    match code {
        [first, rest @ ..] if *first == byte => count_of(byte, rest) + 1,
        [_, rest @ ..] => count_of(byte, rest),
        [] => 0,
    }
}
