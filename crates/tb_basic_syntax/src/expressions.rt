//! Expressions.
ghost use Rattle.std.specs.Prelude.{◌≡◌, ◌↔◌, IsTrue};
ghost use Rattle.std.specs.Cmp.{on_per};
ghost use Rattle.tb_basic_syntax.specs.PlainData.{expression_of};
ghost use Rattle.tb_basic_syntax.specs.Same.{answers_lawful, expressions, is_same};

use std::boxed::Box;
use tb_words::Letter;

/// What joins two operands.
#[derive(Clone, Copy, Debug, PartialEq, Eq, Drop)]
pub enum Operator {
    Add,
    Subtract,
    Multiply,
    Divide,
}

/// An expression. Parentheses and a plus in front leave nothing in it.
#[derive(Debug, Drop)]
pub enum Expr {
    /// A literal, 0 to 65,535.
    Number(u16),
    Variable(Letter),
    /// A minus in front.
    Negate(Box<Expr>),
    Binary(Operator, Box<Expr>, Box<Expr>),
    /// RND, with its bound.
    Random(Box<Expr>),
}

impl PartialEq for Expr {
    ghost eq = { λ a b. is_same expressions (expression_of a) (expression_of b) };

    ghost laws = { on_per expression_of (answers_lawful expressions) };

    fn eq(&self, other: &Expr) -> bool
        ensures same { IsTrue result ↔ (expression_of self.now ≡ expression_of other.now) }
    {
        is_same(self, other)
    }
}

#[tactic(auto, using(crate::specs::Same::answers))]
fn is_same(a: &Expr, b: &Expr) -> bool
    ensures answer { result ≡ is_same expressions (expression_of a.now) (expression_of b.now) }
    ensures same { IsTrue result ↔ (expression_of a.now ≡ expression_of b.now) }
{
    match (a, b) {
        (Expr::Number(n), Expr::Number(m)) => n == m,
        (Expr::Variable(x), Expr::Variable(y)) => x == y,
        (Expr::Negate(e), Expr::Negate(f)) => is_same(e, f),
        (Expr::Binary(op, l, r), Expr::Binary(other, m, s)) => {
            op == other && is_same(l, m) && is_same(r, s)
        }
        (Expr::Random(e), Expr::Random(f)) => is_same(e, f),
        _ => false,
    }
}
