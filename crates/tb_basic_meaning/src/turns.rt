//! Reading numbers for INPUT.
ghost use Rattle.std.specs.Prelude.{◌≡◌, ◌≤◌};
ghost use Rattle.tb_basic_meaning.specs.Input.{turn, with_digit, number_end, Nothing};
ghost use Rattle.tb_basic_meaning.specs.Turns.{reading_of, IsTurn, IsReading};

use crate::evaluation::negated;

/// What has been read of a number.
#[derive(Clone, Copy, PartialEq, Eq, Debug, Drop)]
pub enum Reading {
    Nothing,
    /// A sign, and whether it is a minus.
    Sign(bool),
    /// Whether a minus comes before the digits, and their value modulo 65,536.
    Digits(bool, u16),
}

/// How a turn of INPUT ends.
#[derive(Clone, Copy, PartialEq, Eq, Debug, Drop)]
pub enum Turn<'a> {
    /// A number, whether the line stays open, and what is left of the text.
    Got(u16, bool, &'a [u8]),
    /// A byte that does not belong there.
    Bad,
    /// The text ends.
    Dry,
}

/// One turn over a text: reads one number.
pub fn take_number(text: &[u8]) -> Turn<'_>
    ensures { IsTurn (turn Nothing text.now) result }
{
    let mut reading = Reading::Nothing;
    for (index, byte) in text.iter().enumerate() {
        match *byte {
            b' ' => {}
            b'0'..=b'9' => reading = with_digit(reading, *byte - b'0'),
            b'+' | b'-' => match reading {
                Reading::Nothing => reading = Reading::Sign(*byte == b'-'),
                _ => return Turn::Bad,
            },
            b',' | b'\r' => return number_end(reading, *byte == b',', &text[index + 1..]),
            _ => return Turn::Bad,
        }
    }
    Turn::Dry
}

fn with_digit(reading: Reading, digit: u8) -> Reading
    requires { digit ≤ 9 }
    ensures { IsReading (with_digit (reading_of reading) digit) result }
{
    match reading {
        Reading::Nothing => Reading::Digits(false, u16::from(digit)),
        Reading::Sign(negative) => Reading::Digits(negative, u16::from(digit)),
        Reading::Digits(negative, number) => {
            Reading::Digits(
                negative,
                number.wrapping_mul(10).wrapping_add(u16::from(digit)),
            )
        }
    }
}

// The end of a number, at a comma, where the line stays open, or at a carriage return.
fn number_end(reading: Reading, stays_open: bool, rest: &[u8]) -> Turn<'_>
    ensures { IsTurn (number_end (reading_of reading) stays_open rest.now) result }
{
    match reading {
        Reading::Nothing | Reading::Sign(_) => Turn::Bad,
        Reading::Digits(negative, number) => {
            let value = if negative { negated(number) } else { number };
            Turn::Got(value, stays_open, rest)
        }
    }
}
