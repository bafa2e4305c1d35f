//! Parts of a statement, also behind its IFs.
ghost use Rattle.std.specs.Prelude.{◌≡◌, ◌++◌, IfOk, OnOk, flat_map, map, option_map};
ghost use Rattle.tb_basic_syntax.specs.Parts as spec;
ghost use Rattle.tb_basic_syntax.specs.PlainData.{expression_of, item_of, statement_of};

use crate::expressions::Expr;
use crate::statements::{PrintItem, Statement};
use std::alloc::{AllocError, Global};

/// The target of the GOTO or GOSUB in a statement, and whether it comes back, as a GOSUB does.
pub fn jump_of(statement: &Statement) -> Option<(&Expr, bool)>
    ensures { option_map (λ jump. (expression_of jump.0.now, jump.1)) result ≡ spec.jump_of (statement_of statement.now) }
{
    match statement {
        Statement::Goto(target) => Some((target, false)),
        Statement::Gosub(target) => Some((target, true)),
        Statement::If(_, _, _, statement) => jump_of(statement),
        _ => None,
    }
}

/// The expressions of a statement, in their order.
pub fn expressions_of(alloc: Global, statement: &Statement) -> Result<Vec<&Expr>, AllocError>
    ensures { IfOk result (λ found. map (λ e. expression_of e.now) found.items ≡ spec.expressions_of (statement_of statement.now)) }
{
    let mut found = Vec::new(alloc);
    push_expressions(statement, &mut found)?;
    Ok(found)
}

fn push_expressions<'s>(
    statement: &'s Statement,
    found: &mut Vec<&'s Expr>,
) -> Result<(), AllocError>
    ensures { OnOk result (map (λ e. expression_of e.now) found.new.items
        ≡ map (λ e. expression_of e.now) found.old.items ++ spec.expressions_of (statement_of statement.now)) }
{
    match statement {
        Statement::Let(_, e) | Statement::Goto(e) | Statement::Gosub(e) => {
            found.push(e)?;
            Ok(())
        }
        Statement::Print(items, _) => push_values(items, found),
        Statement::If(left, _, right, statement) => {
            found.push(left)?;
            found.push(right)?;
            push_expressions(statement, found)
        }
        Statement::Input(_) | Statement::Return | Statement::End | Statement::Remark => Ok(()),
    }
}

fn push_values<'s>(items: &'s [PrintItem], found: &mut Vec<&'s Expr>) -> Result<(), AllocError>
    ensures { OnOk result (map (λ e. expression_of e.now) found.new.items
        ≡ map (λ e. expression_of e.now) found.old.items ++ flat_map spec.item_expressions (map item_of items.now)) }
{
    for item in items {
        if let PrintItem::Value(e) = item {
            found.push(e)?;
        }
    }
    Ok(())
}
