//! Statements.
ghost use Rattle.std.specs.Prelude.{◌≡◌, ◌↔◌, IsTrue};
ghost use Rattle.std.specs.Cmp.{on_per};
ghost use Rattle.tb_basic_syntax.specs.PlainData.{item_of, statement_of};
ghost use Rattle.tb_basic_syntax.specs.Same.{answers_lawful, is_same, items, statements};

use crate::expressions::Expr;
use std::boxed::Box;
use tb_words::{Letter, Rel};

/// What PRINT sends one after the other.
#[derive(Debug, Drop)]
pub enum PrintItem {
    /// The bytes of a text, in upper case.
    Text(Vec<u8>),
    Value(Expr),
    /// A comma: spaces up to the next zone of eight columns. A semicolon leaves nothing.
    Zone,
}

/// What a line does.
#[derive(Debug, Drop)]
pub enum Statement {
    Let(Letter, Expr),
    /// The items in order, and whether a carriage return follows (no separator comes last).
    Print(Vec<PrintItem>, bool),
    Input(Vec<Letter>),
    If(Expr, Rel, Expr, Box<Statement>),
    Goto(Expr),
    Gosub(Expr),
    Return,
    End,
    Remark,
}

impl PartialEq for PrintItem {
    ghost eq = { λ a b. is_same items (item_of a) (item_of b) };

    ghost laws = { on_per item_of (answers_lawful items) };

    #[tactic(auto, using(crate::specs::Same::answers))]
    fn eq(&self, other: &PrintItem) -> bool
        ensures same { IsTrue result ↔ (item_of self.now ≡ item_of other.now) }
    {
        match (self, other) {
            (PrintItem::Text(t), PrintItem::Text(u)) => t.as_slice() == u.as_slice(),
            (PrintItem::Value(e), PrintItem::Value(f)) => e == f,
            (PrintItem::Zone, PrintItem::Zone) => true,
            _ => false,
        }
    }
}

impl PartialEq for Statement {
    ghost eq = { λ a b. is_same statements (statement_of a) (statement_of b) };

    ghost laws = { on_per statement_of (answers_lawful statements) };

    fn eq(&self, other: &Statement) -> bool
        ensures same { IsTrue result ↔ (statement_of self.now ≡ statement_of other.now) }
    {
        is_same(self, other)
    }
}

#[tactic(auto, using(crate::specs::Same::answers, crate::proofs::Lists::items_answers, crate::proofs::Lists::letters_answers))]
fn is_same(a: &Statement, b: &Statement) -> bool
    ensures answer { result ≡ is_same statements (statement_of a.now) (statement_of b.now) }
    ensures same { IsTrue result ↔ (statement_of a.now ≡ statement_of b.now) }
{
    match (a, b) {
        (Statement::Let(x, e), Statement::Let(y, f)) => x == y && e == f,
        (Statement::Print(items, ends), Statement::Print(others, end)) => {
            ends == end && items == others
        }
        (Statement::Input(letters), Statement::Input(others)) => letters == others,
        (Statement::If(l, rel, r, then), Statement::If(m, other, s, also)) => {
            l == m && rel == other && r == s && is_same(then, also)
        }
        (Statement::Goto(e), Statement::Goto(f)) => e == f,
        (Statement::Gosub(e), Statement::Gosub(f)) => e == f,
        (Statement::Return, Statement::Return) => true,
        (Statement::End, Statement::End) => true,
        (Statement::Remark, Statement::Remark) => true,
        _ => false,
    }
}
