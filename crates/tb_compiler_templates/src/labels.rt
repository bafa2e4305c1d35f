//! The addresses of a program's code that have a label.
ghost use Rattle.std.specs.Prelude.{◌≡◌, ◌<◌, ◌≤◌, ◌+◌, ◌∷◌, ◌++◌, []};
ghost use Rattle.arrayvec.specs.ArrayVec.{array_vec_len};
ghost use Rattle.tb_words.specs.Hexadecimal.{four_digits};
ghost use Rattle.tb_compiler_templates.specs.Labels.{label_of, letter_of, named};

use arrayvec::ArrayVec;
use tb_asm::Name;
use tb_words::hex_digits;

/// An address inside the code of a group.
#[derive(Clone, Copy, Debug, PartialEq, Eq, Drop)]
pub enum Inner {
    /// A text.
    Text,
    /// What follows a text, or what is done in line.
    Behind,
    /// What a branch skips to.
    Skip,
}

/// An address that code goes to or reads.
#[derive(Clone, Copy, Debug, PartialEq, Eq, Drop)]
pub enum Target {
    /// The line of this number.
    Line(u16),
    /// An address in the code of a group: the line's number and the group's index, from 1 on.
    Inside(Inner, u16, u16),
    /// Where the branch of the poll goes in the line of this number: to what is done for the STOP key, or past it.
    Polled(u16),
    /// Fault 7, after the last line.
    Past,
    /// The search in the line table.
    Find,
    /// The line table.
    Table,
}

/// The label of a target: `L` or `B` and hexadecimal digits, or a word.
pub fn label(target: Target) -> Name
    ensures { result ≡ label_of target }
{
    match target {
        Target::Line(line) => numbered_label(b'L', line),
        Target::Inside(inner, line, group) => inner_label(inner, line, group),
        Target::Polled(line) => numbered_label(b'B', line),
        Target::Past => word_label(b'P', b'A', b'S', b'T'),
        Target::Find => word_label(b'S', b'E', b'E', b'K'),
        Target::Table => word_label(b'T', b'R', b'O', b'W'),
    }
}

// Appends the four digits of a word.
fn push_digits(letters: &mut ArrayVec<u8, 31>, word: u16)
    requires { array_vec_len letters.old ≤ 20 }
    ensures digits { letters.new.items ≡ letters.old.items ++ four_digits word [] }
    ensures longer { array_vec_len letters.new ≡ array_vec_len letters.old + 4 }
{
    let [first, second, third, fourth] = hex_digits(word);
    letters.push(first);
    letters.push(second);
    letters.push(third);
    letters.push(fourth);
}

// A letter and a line's number.
fn numbered_label(letter: u8, line: u16) -> Name
    ensures { result ≡ named (letter ∷ four_digits line []) }
{
    let mut letters = ArrayVec::new();
    letters.push(letter);
    push_digits(&mut letters, line);
    Name { letters }
}

fn inner_label(inner: Inner, line: u16, group: u16) -> Name
    ensures { result ≡ named (76 ∷ four_digits line (four_digits group (letter_of inner ∷ []))) }
{
    let mut letters = ArrayVec::new();
    letters.push(b'L');
    push_digits(&mut letters, line);
    push_digits(&mut letters, group);
    letters.push(letter(inner));
    Name { letters }
}

// The letter of an address inside a line's code.
fn letter(inner: Inner) -> u8
    ensures { result ≡ letter_of inner }
{
    match inner {
        Inner::Skip => b'S',
        Inner::Text => b'T',
        Inner::Behind => b'U',
    }
}

fn word_label(first: u8, second: u8, third: u8, fourth: u8) -> Name
    ensures { result ≡ named (first ∷ second ∷ third ∷ fourth ∷ []) }
{
    let mut letters = ArrayVec::new();
    letters.push(first);
    letters.push(second);
    letters.push(third);
    letters.push(fourth);
    Name { letters }
}
