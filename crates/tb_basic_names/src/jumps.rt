//! Jumps with constant targets.
ghost use Rattle.std.specs.Prelude.{◌≡◌, ◌<◌, length, IfSome};
ghost use Rattle.tb_basic_syntax.specs.PlainData.{statement_of};
ghost use Rattle.tb_basic_names.specs.Jumps.{is_jump_word, jump_by, jump_in, jump_word};
ghost use Rattle.tb_basic_names.specs.Lines.{does};

use crate::lines::Line;
use tb_basic_grammar::Keyword;
use tb_basic_meaning::constant;
use tb_basic_syntax::Statement;
use tb_parser::{Token, TokenKind};

/// A jump to a number that is the same each time.
#[derive(Clone, Copy, Drop)]
pub struct Jump {
    pub target: u16,
    /// Whether it comes back: a GOSUB.
    pub returns: bool,
}

/// The jump of a statement, if its target is constant.
pub fn jump_of(statement: &Statement) -> Option<Jump>
    ensures { result ≡ jump_by (statement_of statement.now) }
{
    let (target, returns) = tb_basic_syntax::jump_of(statement)?;
    let target = constant(target)?;
    Some(Jump { target, returns })
}

fn is_jump_word(kind: TokenKind) -> bool
    ensures { result ≡ is_jump_word kind }
{
    matches!(
        kind,
        TokenKind::Keyword(Keyword::Goto) | TokenKind::Keyword(Keyword::Gosub)
    )
}

/// Which token is the first GOTO or GOSUB: all behind it are the expression.
pub fn jump_word(tokens: &[Token<'_>]) -> Option<usize>
    ensures place { result ≡ jump_word tokens.now }
    ensures within { IfSome result (λ i. i < length tokens.now) }
{
    for (i, token) in tokens.iter().enumerate() {
        if is_jump_word(token.kind) {
            return Some(i);
        }
    }
    None
}

impl Line<'_> {
    /// The jump of a good line, if its target is constant.
    pub fn jump(&self) -> Option<Jump>
        ensures { result ≡ jump_in (does self.now.edit) }
    {
        jump_of(self.statement()?)
    }
}
