//! What may be offered: words, and the numbers of the lines that stand.
ghost use Rattle.std.specs.Prelude.{◌≡◌, ◌++◌, IfOk, OnOk, map};
ghost use Rattle.tb_basic_names.specs.Sources.{edits_of};
ghost use Rattle.tb_basic_names.specs.Lines.{does};
ghost use Rattle.tb_lsp_edits.specs.Candidates as spec;

use std::alloc::{AllocError, Global};
use tb_basic_names::{Line, Source};

/// A word that may be offered.
#[derive(Clone, Copy, Drop)]
pub enum Word {
    Let,
    Print,
    Input,
    If,
    Then,
    Goto,
    Gosub,
    Return,
    End,
    Rem,
    Random,
}

/// What may be offered.
#[derive(Clone, Copy, Drop)]
pub enum Candidate {
    Word(Word),
    /// The number of a line that stands.
    Number(u16),
}

/// All words, in the order in which they are offered.
const WORDS: [Candidate; 11] = [
    Candidate::Word(Word::Let),
    Candidate::Word(Word::Print),
    Candidate::Word(Word::Input),
    Candidate::Word(Word::If),
    Candidate::Word(Word::Then),
    Candidate::Word(Word::Goto),
    Candidate::Word(Word::Gosub),
    Candidate::Word(Word::Return),
    Candidate::Word(Word::End),
    Candidate::Word(Word::Rem),
    Candidate::Word(Word::Random),
];

impl Word {
    /// How it is spelled.
    pub fn spelling(self) -> &'static str
        ensures { result.now ≡ spec.spelling self }
    {
        match self {
            Word::Let => "LET",
            Word::Print => "PRINT",
            Word::Input => "INPUT",
            Word::If => "IF",
            Word::Then => "THEN",
            Word::Goto => "GOTO",
            Word::Gosub => "GOSUB",
            Word::Return => "RETURN",
            Word::End => "END",
            Word::Rem => "REM",
            Word::Random => "RND",
        }
    }

    /// What is written of it: a space behind it, but of RETURN and END; of RND a parenthesis.
    pub fn written(self) -> &'static str
        ensures { result.now ≡ spec.written self }
    {
        match self {
            Word::Let => "LET ",
            Word::Print => "PRINT ",
            Word::Input => "INPUT ",
            Word::If => "IF ",
            Word::Then => "THEN ",
            Word::Goto => "GOTO ",
            Word::Gosub => "GOSUB ",
            Word::Return => "RETURN",
            Word::End => "END",
            Word::Rem => "REM ",
            Word::Random => "RND(",
        }
    }
}

// Appends the number of the line at a place, if it stands.
fn push_number(
    source: &Source<'_>,
    place: usize,
    line: &Line<'_>,
    found: &mut Vec<Candidate>,
) -> Result<(), AllocError>
    ensures { OnOk result (found.new.items ≡ found.old.items ++ spec.number_at (edits_of source.now.lines.items) place (does line.now.edit)) }
{
    if let Some(number) = line.number() {
        if source.stands(place, number) {
            found.push(Candidate::Number(number))?;
        }
    }
    Ok(())
}

/// What may be offered: the words, and then the numbers of the lines that stand, as they stand in the file.
pub fn candidates(alloc: Global, source: &Source<'_>) -> Result<Vec<Candidate>, AllocError>
    ensures { IfOk result (λ found. found.items ≡ spec.candidates source.now.lines.items) }
{
    let mut found = Vec::from_slice(alloc, &WORDS)?;
    for (i, line) in source.lines.iter().enumerate() {
        push_number(source, i, line, &mut found)?;
    }
    Ok(found)
}
