//! Where variables stand in a line, and what is done with them.
ghost use Rattle.std.specs.Prelude.{◌≡◌, IfOk};
ghost use Rattle.tb_basic_names.specs.Variables.{after, gets, variable_at, variables_of};

use std::alloc::{AllocError, Global};
use tb_basic_grammar::Keyword;
use tb_parser::{Token, TokenKind};

/// What is done with the variable that may come next.
#[derive(Clone, Copy, Drop)]
pub enum Mode {
    /// LET gives it a value.
    Sets,
    Reads,
    /// INPUT gives it a value, and all that follow.
    Inputs,
}

/// A variable of a line.
#[derive(Clone, Copy, Drop)]
pub struct Variable {
    /// Its capital letter.
    pub name: u8,
    /// Which byte of the line it is, from 0.
    pub place: usize,
    /// Whether it gets a value.
    pub gets: bool,
}

impl Mode {
    fn gets(self) -> bool
        ensures { result ≡ gets self }
    {
        match self {
            Mode::Sets | Mode::Inputs => true,
            Mode::Reads => false,
        }
    }

    // What is done with the next variable behind a token.
    fn after(self, kind: TokenKind) -> Mode
        ensures { result ≡ after self kind }
    {
        match (self, kind) {
            (Mode::Inputs, _) => Mode::Inputs,
            (_, TokenKind::Keyword(Keyword::Input)) => Mode::Inputs,
            (
                _,
                TokenKind::Operator
                | TokenKind::Relation
                | TokenKind::Open
                | TokenKind::Comma
                | TokenKind::Semicolon
                | TokenKind::Keyword(
                    Keyword::Print | Keyword::Pr | Keyword::If | Keyword::Goto | Keyword::Gosub,
                ),
            ) => Mode::Reads,
            (_, _) => Mode::Sets,
        }
    }
}

fn variable_at(mode: Mode, token: &Token<'_>) -> Option<Variable>
    ensures { result ≡ variable_at mode token.now }
{
    match (token.kind, token.text) {
        (TokenKind::Variable, [letter, ..]) => Some(Variable {
            name: letter.to_ascii_uppercase(),
            place: token.column.saturating_sub(1),
            gets: mode.gets(),
        }),
        _ => None,
    }
}

/// The variables of a line with these tokens, in order.
pub fn variables_of(alloc: Global, tokens: &[Token<'_>]) -> Result<Vec<Variable>, AllocError>
    ensures { IfOk result (λ found. found.items ≡ variables_of tokens.now) }
{
    let mut found = Vec::new(alloc);
    let mut mode = Mode::Sets;
    for token in tokens {
        if let Some(variable) = variable_at(mode, token) {
            found.push(variable)?;
        }
        mode = mode.after(token.kind);
    }
    Ok(found)
}
