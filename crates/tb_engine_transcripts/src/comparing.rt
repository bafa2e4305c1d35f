//! Whether two transcripts are the same, and how far.
ghost use Rattle.std.specs.Prelude.{◌≡◌, ◌↔◌, ◌≤◌, map, length, IsTrue};
ghost use Rattle.tb_engine_transcripts.specs.Comparing as spec;
ghost use Rattle.tb_engine_transcripts.specs.Comparing.{IsSame};
ghost use Rattle.tb_engine_transcripts.specs.Contents.{content_of, turn_of};

use crate::transcript::{RunEnd, Transcript, Turn};

// Whether the same was sent and typed in two turns.
fn is_same_turn(one: &Turn, other: &Turn) -> bool
    ensures { result ≡ spec.is_same_turn (turn_of one.now) (turn_of other.now) }
{
    one.sent.as_slice() == other.sent.as_slice() && one.typed.as_slice() == other.typed.as_slice()
}

/// How many turns at the front are the same.
pub fn same_turns(one: &[Turn], other: &[Turn]) -> usize
    ensures value { result ≡ spec.same_turns (map turn_of one.now) (map turn_of other.now) }
    ensures within { result ≤ length one.now }
{
    let mut count = 0;
    let mut rest = other;
    for turn in one {
        match rest {
            [next, behind @ ..] if is_same_turn(turn, next) => {
                count += 1;
                rest = behind;
            }
            _ => return count,
        }
    }
    count
}

// Whether two ends are the same.
fn is_same_end(one: RunEnd, other: RunEnd) -> bool
    ensures { result ≡ spec.is_same_end one other }
{
    match (one, other) {
        (RunEnd::Returned, RunEnd::Returned) => true,
        (RunEnd::Waits, RunEnd::Waits) => true,
        (RunEnd::Runs, RunEnd::Runs) => true,
        (RunEnd::Fault(code, line), RunEnd::Fault(other_code, other_line)) => {
            code == other_code && line == other_line
        }
        _ => false,
    }
}

/// Whether the same was sent and typed in two transcripts.
pub fn is_same_output(one: &Transcript, other: &Transcript) -> bool
    ensures { result ≡ spec.is_same_output (content_of one.now) (content_of other.now) }
{
    one.turns.len() == other.turns.len()
        && same_turns(one.turns.as_slice(), other.turns.as_slice()) == one.turns.len()
        && one.last.as_slice() == other.last.as_slice()
}

/// Whether both sent the same at each turn, had the same typed, and ended alike. What is asked for is not compared.
pub fn is_same(one: &Transcript, other: &Transcript) -> bool
    ensures value { result ≡ spec.is_same (content_of one.now) (content_of other.now) }
    ensures same { IsTrue result ↔ IsSame (content_of one.now) (content_of other.now) }
{
    is_same_output(one, other) && is_same_end(one.end, other.end)
}
