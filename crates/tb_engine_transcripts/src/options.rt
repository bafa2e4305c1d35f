//! What a line of the header asks for.
ghost use Rattle.std.specs.Prelude.{◌≡◌, ◌≤◌, length};
ghost use Rattle.tb_engine_transcripts.specs.Options as spec;

use crate::marks::{behind, number};
use crate::reasons::Reason;
use crate::transcript::RunEnd;

pub const SEED: &[u8] = b"seed ";

pub const FIT: &[u8] = b"fit";

pub const PETSCII: &[u8] = b"petscii";

pub const LIMIT: &[u8] = b"limit ";

pub const RUDE: &[u8] = b"rude ";

pub const ENDS: &[u8] = b"ends";

pub const WAITS: &[u8] = b"waits";

pub const RUNS: &[u8] = b"runs";

pub const FAULT: &[u8] = b"fault ";

/// What stands between a fault's code and its line.
pub const AT: &[u8] = b" at ";

/// The most that a limit is.
const MOST_LIMIT: u32 = 1_000_000_000;

/// The most that a seed and the number of a line are.
const MOST_WORD: u32 = 65_535;

/// The most that a fault's code is.
const MOST_CODE: u32 = 255;

/// What a line of the header asks for.
#[derive(Clone, Copy, Drop)]
pub enum Asked {
    Seed(u16),
    Fit,
    Petscii,
    Limit(u32),
    Rude(u16),
    End(RunEnd),
}

/// What the text of an option or an end asks for, or why it asks for nothing.
pub fn asked_by(text: &[u8]) -> Result<Asked, Reason>
    ensures { result ≡ spec.asked_by text.now }
{
    if let Some(asked) = plain(text) {
        Ok(asked)
    } else if let Some(digits) = behind(SEED, text) {
        seed(digits)
    } else if let Some(digits) = behind(LIMIT, text) {
        limit(digits)
    } else if let Some(digits) = behind(RUDE, text) {
        rude(digits)
    } else if let Some(rest) = behind(FAULT, text) {
        fault(rest)
    } else {
        Err(Reason::UnknownOption)
    }
}

// What a text without a number asks for.
fn plain(text: &[u8]) -> Option<Asked>
    ensures { result ≡ spec.plain text.now }
{
    if text == FIT {
        Some(Asked::Fit)
    } else if text == PETSCII {
        Some(Asked::Petscii)
    } else if text == ENDS {
        Some(Asked::End(RunEnd::Returned))
    } else if text == WAITS {
        Some(Asked::End(RunEnd::Waits))
    } else if text == RUNS {
        Some(Asked::End(RunEnd::Runs))
    } else {
        None
    }
}

fn seed(digits: &[u8]) -> Result<Asked, Reason>
    ensures { result ≡ spec.seed digits.now }
{
    match number(MOST_WORD, digits) {
        Some(n) => Ok(Asked::Seed(n as u16)),
        None => Err(Reason::NoSeed),
    }
}

fn limit(digits: &[u8]) -> Result<Asked, Reason>
    ensures { result ≡ spec.limit digits.now }
{
    match number(MOST_LIMIT, digits) {
        Some(n) if 0 < n => Ok(Asked::Limit(n)),
        _ => Err(Reason::NoLimit),
    }
}

fn rude(digits: &[u8]) -> Result<Asked, Reason>
    ensures { result ≡ spec.rude digits.now }
{
    match number(MOST_WORD, digits) {
        Some(n) => Ok(Asked::Rude(n as u16)),
        None => Err(Reason::NoRude),
    }
}

// How many bytes stand before the first space.
fn space_at(text: &[u8]) -> usize
    ensures value { result ≡ spec.space_at text.now }
    ensures within { result ≤ length text.now }
{
    for (i, byte) in text.iter().enumerate() {
        if *byte == b' ' {
            return i;
        }
    }
    text.len()
}

// The line of a fault, from the space before `at` on.
fn line_of(text: &[u8]) -> Option<u16>
    ensures { result ≡ spec.line_of text.now }
{
    match number(MOST_WORD, behind(AT, text)?) {
        Some(line) => Some(line as u16),
        None => None,
    }
}

fn fault(text: &[u8]) -> Result<Asked, Reason>
    ensures { result ≡ spec.fault text.now }
{
    let (code, rest) = text.split_at(space_at(text));
    match (number(MOST_CODE, code), line_of(rest)) {
        (Some(code), Some(line)) => Ok(Asked::End(RunEnd::Fault(code as u8, line))),
        _ => Err(Reason::NoFault),
    }
}
