//! The debugger's commands, as lines spell them.
ghost use Rattle.std.specs.Prelude.{◌≡◌, ◌≤◌, ◌<◌, length, option_map, IfSome};
ghost use Rattle.tb_debug_commands.specs.Parts.{number_of};
ghost use Rattle.tb_basic_grammar.specs.Grammar.{word_of};
ghost use Rattle.tb_debug_commands.specs.Commands.{asked_of, asked_in, alone, words, with_text, with_number, counting};
ghost use Rattle.tb_debug_commands.specs.Commands.{spelled, letter_for, behind};
ghost use Rattle.tb_debug_commands.specs.Commands.{memory_in, memory_at, address_of, digit_of, most_digits};
ghost use Rattle.tb_debug_commands.specs.Commands.{asked_after, asked_without_source, at_address, last_move, place_at};

use crate::parts::{number, variable};
use tb_words::Letter;

/// The most digits of a number.
const MOST_DIGITS: usize = 18;

/// The most bytes that are shown of memory.
const MOST_BYTES: u64 = 256;

/// How many bytes are shown if a line doesn't say.
const BYTES: u64 = 16;

/// What a line asks for.
#[derive(Clone, Copy, PartialEq, Eq, Debug, Drop)]
pub enum Command<'a> {
    /// `n [K]`: on by K lines.
    Next(u64),
    /// `p [K]`: back by K lines.
    Previous(u64),
    /// `b`: lists the breakpoints.
    Breakpoints,
    /// `b N`: sets or clears a breakpoint.
    Breakpoint(u16),
    /// `c`: on to a stop.
    Continue,
    /// `rc`: back to a stop.
    ReverseContinue,
    /// `j`: on over a GOSUB.
    Over,
    /// `u`: on out of a subroutine.
    Finish,
    /// `w X`: sets or clears a watch.
    Watch(Letter),
    /// `f`: faults stop `c`, or no longer.
    Faults,
    /// `g N`: on to a line.
    ToLine(u16),
    /// `t M`: to a time.
    ToTime(u64),
    /// `l`: lists the source round the place.
    ListHere,
    /// `l N`: lists the source round a line.
    List(u16),
    /// `v`: the variables that are not 0.
    Variables,
    /// `v X`: the value of a variable.
    Variable(Letter),
    /// `e EXPR`: the value of what is to be an expression.
    Value(&'a [u8]),
    /// `r`: the return list.
    Returns,
    /// `o`: all output so far.
    Output,
    /// `k TEXT`: types a text and a return.
    Type(&'a [u8]),
    /// `s [K]`: on by K events.
    Step(u64),
    /// `x`: the registers.
    Registers,
    /// `m ADDR [K]`: bytes of memory.
    Memory { at: u16, count: u16 },
    /// `i`: the code here.
    Code,
    /// `h`: help.
    Help,
    /// `q`: the end.
    Quit,
    /// Any other line.
    Unknown,
}

/// The command that a line is. There is one space between words; a number has one to 18 digits.
pub fn read_command(line: &[u8]) -> Command<'_>
    ensures { asked_of result ≡ asked_in line.now }
{
    match (letter_for(line), line) {
        (Some((letter, rest)), _) => spelled(letter, rest),
        (None, [letter, rest @ ..]) => spelled(*letter, rest),
        (None, []) => Command::Unknown,
    }
}

/// The command that a line is after a move: if the line is empty, the move once more.
pub fn read_after<'a>(last: Option<Command<'a>>, line: &'a [u8]) -> Command<'a>
    ensures { asked_of result ≡ asked_after (option_map asked_of last.entry) line.now }
{
    match (last, line) {
        (Some(command), []) => command,
        _ => read_command(line),
    }
}

/// The command that a line is after a move without a source, where each address is a line: `b $ADDR` or `g $ADDR`.
pub fn read_without_source<'a>(last: Option<Command<'a>>, line: &'a [u8]) -> Command<'a>
    ensures { asked_of result ≡ asked_without_source (option_map asked_of last.entry) line.now }
{
    match at_address(line) {
        Some(command) => command,
        None => read_after(last, line),
    }
}

/// The move that an empty line repeats after a command: the command, if it is one, or else the one before it.
pub fn last_move<'a>(last: Option<Command<'a>>, command: Command<'_>) -> Option<Command<'a>>
    ensures { option_map asked_of result ≡ last_move (option_map asked_of last.entry) (asked_of command.entry) }
{
    match command {
        Command::Next(lines) => Some(Command::Next(lines)),
        Command::Previous(lines) => Some(Command::Previous(lines)),
        Command::Continue => Some(Command::Continue),
        Command::ReverseContinue => Some(Command::ReverseContinue),
        Command::Over => Some(Command::Over),
        Command::Finish => Some(Command::Finish),
        Command::ToLine(line) => Some(Command::ToLine(line)),
        Command::ToTime(time) => Some(Command::ToTime(time)),
        Command::Step(events) => Some(Command::Step(events)),
        _ => last,
    }
}

// The command that a line is at an address.
fn at_address<'a>(line: &[u8]) -> Option<Command<'a>>
    ensures { option_map asked_of result ≡ at_address line.now }
{
    match line {
        [letter, b' ', b'$', a, b, c, d] => match address(*a, *b, *c, *d) {
            Some(address) => place_at(*letter, address),
            None => None,
        },
        _ => None,
    }
}

// A breakpoint at an address, or a way to it.
fn place_at<'a>(letter: u8, address: u16) -> Option<Command<'a>>
    ensures { option_map asked_of result ≡ place_at letter address }
{
    match letter {
        b'b' => Some(Command::Breakpoint(address)),
        b'g' => Some(Command::ToLine(address)),
        _ => None,
    }
}

// The letter for which a line has a word, and what follows that word.
fn letter_for(line: &[u8]) -> Option<(u8, &[u8])>
    ensures { option_map (λ p. (p.0, p.1.now)) result ≡ letter_for line.now }
{
    if let Some(rest) = behind(b"next", line) {
        return Some((b'n', rest));
    }
    if let Some(rest) = behind(b"back", line) {
        return Some((b'p', rest));
    }
    if let Some(rest) = behind(b"help", line) {
        return Some((b'h', rest));
    }
    if let Some(rest) = behind(b"quit", line) {
        return Some((b'q', rest));
    }
    if let Some(rest) = behind(b"over", line) {
        return Some((b'j', rest));
    }
    if let Some(rest) = behind(b"finish", line) {
        return Some((b'u', rest));
    }
    match behind(b"continue", line) {
        Some(rest) => Some((b'c', rest)),
        None => None,
    }
}

// What follows a word at the beginning of a line.
fn behind<'a>(word: &[u8], line: &'a [u8]) -> Option<&'a [u8]>
    ensures { option_map (λ rest. rest.now) result ≡ behind word.now line.now }
{
    match word {
        [] => Some(line),
        [first, word @ ..] => match line {
            [] => None,
            [next, line @ ..] => if *first == *next {
                behind(word, line)
            } else {
                None
            },
        },
    }
}

// A letter, and the rest of its line.
fn spelled(letter: u8, rest: &[u8]) -> Command<'_>
    ensures { asked_of result ≡ spelled letter rest.now }
{
    match rest {
        [] => alone(letter),
        [next, text @ ..] => words(letter, *next, text),
    }
}

// A letter and a text with a space between them, or `rc`.
fn words(letter: u8, next: u8, text: &[u8]) -> Command<'_>
    ensures { asked_of result ≡ words letter next text.now }
{
    if next == b' ' {
        with_text(letter, text)
    } else if letter == b'r' && next == b'c' && text.is_empty() {
        Command::ReverseContinue
    } else {
        Command::Unknown
    }
}

// A command of one letter.
fn alone<'a>(letter: u8) -> Command<'a>
    ensures { asked_of result ≡ alone letter }
{
    match letter {
        b'n' => Command::Next(1),
        b'p' => Command::Previous(1),
        b'b' => Command::Breakpoints,
        b'c' => Command::Continue,
        b'j' => Command::Over,
        b'u' => Command::Finish,
        b'f' => Command::Faults,
        b'l' => Command::ListHere,
        b'v' => Command::Variables,
        b'r' => Command::Returns,
        b'o' => Command::Output,
        b'k' => Command::Type(&[]),
        b's' => Command::Step(1),
        b'x' => Command::Registers,
        b'i' => Command::Code,
        b'h' => Command::Help,
        b'q' => Command::Quit,
        _ => Command::Unknown,
    }
}

// A command with a text after its letter.
fn with_text(letter: u8, text: &[u8]) -> Command<'_>
    ensures { asked_of result ≡ with_text letter text.now }
{
    match letter {
        b'e' => Command::Value(text),
        b'k' => Command::Type(text),
        b'm' => memory(text),
        b'v' => match variable(text) {
            Some(letter) => Command::Variable(letter),
            None => Command::Unknown,
        },
        b'w' => match variable(text) {
            Some(letter) => Command::Watch(letter),
            None => Command::Unknown,
        },
        _ => with_number(letter, text),
    }
}

// A command with a number.
fn with_number<'a>(letter: u8, text: &[u8]) -> Command<'a>
    ensures { asked_of result ≡ with_number letter (number_of most_digits text.now) }
{
    match number(text, MOST_DIGITS) {
        Some(number) => counting(letter, number),
        None => Command::Unknown,
    }
}

fn counting<'a>(letter: u8, number: u64) -> Command<'a>
    ensures { asked_of result ≡ counting letter number }
{
    match letter {
        b'n' => Command::Next(number),
        b'p' => Command::Previous(number),
        b't' => Command::ToTime(number),
        b's' => Command::Step(number),
        b'b' => Command::Breakpoint(line_number(number)),
        b'g' => Command::ToLine(line_number(number)),
        b'l' => Command::List(line_number(number)),
        _ => Command::Unknown,
    }
}

// A number that no line has is taken for each larger one.
fn line_number(number: u64) -> u16
    ensures { result ≡ word_of number }
{
    if number <= 65_535 {
        number as u16
    } else {
        u16::MAX
    }
}

// An address, and how many bytes.
fn memory<'a>(text: &[u8]) -> Command<'a>
    ensures { asked_of result ≡ memory_in text.now }
{
    match text {
        [a, b, c, d] => bytes_at(address(*a, *b, *c, *d), Some(BYTES)),
        [a, b, c, d, b' ', count @ ..] => bytes_at(
            address(*a, *b, *c, *d),
            number(count, MOST_DIGITS),
        ),
        _ => Command::Unknown,
    }
}

fn bytes_at<'a>(address: Option<u16>, count: Option<u64>) -> Command<'a>
    ensures { asked_of result ≡ memory_at address count }
{
    match (address, count) {
        (Some(at), Some(count)) if 1 <= count && count <= MOST_BYTES => Command::Memory {
            at,
            count: count as u16,
        },
        _ => Command::Unknown,
    }
}

// The number that four hexadecimal digits spell, in either case.
fn address(a: u8, b: u8, c: u8, d: u8) -> Option<u16>
    ensures { result ≡ address_of a b c d }
{
    let first = digit(a)?;
    let second = digit(b)?;
    let third = digit(c)?;
    let fourth = digit(d)?;
    Some(4096 * first + 256 * second + 16 * third + fourth)
}

fn digit(byte: u8) -> Option<u16>
    ensures digit { result ≡ digit_of byte }
    ensures few { IfSome result (λ k. k < 16) }
{
    match byte {
        b'0'..=b'9' => Some(u16::from(byte - b'0')),
        b'A'..=b'F' => Some(u16::from(byte - b'A' + 10)),
        b'a'..=b'f' => Some(u16::from(byte - b'a' + 10)),
        _ => None,
    }
}
