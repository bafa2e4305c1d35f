//! How many slots expressions need, and why a program needs too many.
ghost use Rattle.std.specs.Prelude.{◌≡◌, map, min};
ghost use Rattle.tb_basic_syntax.specs.PlainData.{expression_of, item_of, statement_of};
ghost use Rattle.tb_basic_meaning.specs.Need.{need, items_need, statement_need};

use std::alloc::AllocError;
use tb_basic_syntax::{Expr, PrintItem, Statement};

/// How many slots there are.
pub const SLOT_COUNT: u8 = 16;

/// Why a program has no slot code.
#[derive(Clone, Copy, PartialEq, Eq, Debug, Drop)]
pub enum LowerError {
    /// An expression of this line, the lowest such line, needs more slots than there are.
    TooDeep(u16),
    /// Memory ran out.
    NoMemory,
}

impl From<AllocError> for LowerError {
    ghost use Rattle.std.specs.Prelude.{◌≡◌};
    ghost use Rattle.tb_basic_meaning.specs.declared.needs.LowerError.TheVariants.{NoMemory};

    ghost from_gives = { λ _ e. e ≡ NoMemory };

    fn from(_: AllocError) -> Self {
        LowerError::NoMemory
    }
}

// How many slots an expression needs, up to 17.
fn need(e: &Expr) -> u8
    ensures { result ≡ min (need (expression_of e.now)) 17 }
{
    match e {
        Expr::Number(_) | Expr::Variable(_) => 1,
        Expr::Negate(e) | Expr::Random(e) => need(e),
        Expr::Binary(_, l, r) => need(l).max(need(r).min(SLOT_COUNT) + 1),
    }
}

fn items_need(items: &[PrintItem]) -> u8
    ensures { result ≡ min (items_need (map item_of items.now)) 17 }
{
    let mut most = 0;
    for item in items {
        if let PrintItem::Value(e) = item {
            most = need(e).max(most);
        }
    }
    most
}

/// How many slots the expressions of a statement need at most, up to 17.
pub fn statement_need(s: &Statement) -> u8
    ensures { result ≡ min (statement_need (statement_of s.now)) 17 }
{
    match s {
        Statement::Let(_, e) | Statement::Goto(e) | Statement::Gosub(e) => need(e),
        Statement::Print(items, _) => items_need(items),
        Statement::If(l, _, r, s) => need(l).max(need(r)).max(statement_need(s)),
        Statement::Input(_) | Statement::Return | Statement::End | Statement::Remark => 0,
    }
}
