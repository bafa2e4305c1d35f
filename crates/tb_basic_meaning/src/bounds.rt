//! The bounds of RND in a statement.
ghost use Rattle.std.specs.Prelude.{◌≡◌, ◌++◌, IfOk, OnOk};
ghost use Rattle.tb_basic_meaning.specs.Bounds as spec;
ghost use Rattle.tb_basic_syntax.specs.PlainData.{expression_of, statement_of};

use crate::evaluation::constant;
use std::alloc::{AllocError, Global};
use tb_basic_syntax::{Expr, Statement, expressions_of};

/// The bounds of RND in a statement, in the order of the words, so each before those inside it; `None` for one that
/// isn't constant.
pub fn statement_bounds(
    alloc: Global,
    statement: &Statement,
) -> Result<Vec<Option<u16>>, AllocError>
    ensures { IfOk result (λ bounds. bounds.items ≡ spec.statement_bounds (statement_of statement.now)) }
{
    let expressions = expressions_of(alloc, statement)?;
    let mut bounds = Vec::new(alloc);
    for e in &expressions {
        expression_bounds(e, &mut bounds)?;
    }
    Ok(bounds)
}

fn expression_bounds(e: &Expr, bounds: &mut Vec<Option<u16>>) -> Result<(), AllocError>
    ensures { OnOk result (bounds.new.items ≡ bounds.old.items ++ spec.expression_bounds (expression_of e.now)) }
{
    match e {
        Expr::Number(_) | Expr::Variable(_) => Ok(()),
        Expr::Negate(e) => expression_bounds(e, bounds),
        Expr::Binary(_, left, right) => {
            expression_bounds(left, bounds)?;
            expression_bounds(right, bounds)
        }
        Expr::Random(bound) => {
            bounds.push(constant(bound))?;
            expression_bounds(bound, bounds)
        }
    }
}
