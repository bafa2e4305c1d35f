//! The stepper's commands, as lines spell them.
ghost use Rattle.std.specs.Prelude.{◌≡◌};
ghost use Rattle.tb_debug_stepping.specs.Commands.{asked_of, asked_in, alone, with_text, line_in, needs_source};

use tb_debug_commands::{number, variable};
use tb_words::Letter;

/// The most digits of a line number.
const MOST_DIGITS: usize = 5;

/// What a line asks for.
#[derive(Clone, Copy, PartialEq, Eq, Debug, Drop)]
pub enum Command<'a> {
    /// `s`: one step.
    Step,
    /// `b`: one step back.
    Back,
    /// `g N`: to the line of that number.
    Go(u16),
    /// `v X`: the value of a variable.
    Variable(Letter),
    /// `e EXPR`: the value of what is to be an expression.
    Value(&'a [u8]),
    /// `d`: how many notes the return list has.
    Depth,
    /// `q`: the end.
    Quit,
    /// Any other line.
    Unknown,
}

impl Command<'_> {
    /// Whether only a source tells what is asked for.
    pub fn needs_source(&self) -> bool
        ensures { result ≡ needs_source (asked_of self.now) }
    {
        match self {
            Command::Go(_) | Command::Variable(_) | Command::Value(_) | Command::Depth => true,
            Command::Step | Command::Back | Command::Quit | Command::Unknown => false,
        }
    }
}

/// The command that a line is. There is one space after the letter of a command with a word, and a number has one to
/// five digits and a value up to 65,535.
pub fn read_command(line: &[u8]) -> Command<'_>
    ensures { asked_of result ≡ asked_in line.now }
{
    match line {
        [letter] => alone(*letter),
        [letter, b' ', text @ ..] => with_text(*letter, text),
        _ => Command::Unknown,
    }
}

// A command of one letter.
fn alone<'a>(letter: u8) -> Command<'a>
    ensures { asked_of result ≡ alone letter }
{
    match letter {
        b's' => Command::Step,
        b'b' => Command::Back,
        b'd' => Command::Depth,
        b'q' => Command::Quit,
        _ => Command::Unknown,
    }
}

// A command with a word.
fn with_text(letter: u8, text: &[u8]) -> Command<'_>
    ensures { asked_of result ≡ with_text letter text.now }
{
    match letter {
        b'g' => match line_in(text) {
            Some(line) => Command::Go(line),
            None => Command::Unknown,
        },
        b'v' => match variable(text) {
            Some(letter) => Command::Variable(letter),
            None => Command::Unknown,
        },
        b'e' => Command::Value(text),
        _ => Command::Unknown,
    }
}

// The number that one to five digits spell, up to 65,535.
fn line_in(digits: &[u8]) -> Option<u16>
    ensures { result ≡ line_in digits.now }
{
    let number = number(digits, MOST_DIGITS)?;
    if number <= 65_535 {
        Some(number as u16)
    } else {
        None
    }
}
