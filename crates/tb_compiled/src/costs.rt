//! What a program costs: a bound on the bytes of its code and line table.
ghost use Rattle.std.specs.Prelude.{◌≡◌, ◌+◌, ◌<◌, map};
ghost use Rattle.tb_basic_syntax.specs.PlainData.{expression_of, item_of, statement_of, lines_of};
ghost use Rattle.tb_basic_meaning.specs.Cost.{items_cost};
ghost use Rattle.tb_basic_meaning.specs.Cost as cost;

use tb_basic_syntax::{Expr, PrintItem, Program, Statement};

/// The cost of a program in bytes, if it can be counted in 32 bits.
pub fn cost(program: &Program) -> u32
    requires { cost.cost (lines_of program.now) < 4294967296 }
    ensures { result ≡ cost.cost (lines_of program.now) }
{
    let mut sum = 64;
    for (_, statement) in program.lines() {
        sum += line_cost(statement);
    }
    sum
}

/// What a line with this statement costs in bytes, if it can be counted in 32 bits.
pub fn line_cost(statement: &Statement) -> u32
    requires { 36 + cost.statement_cost (statement_of statement.now) < 4294967296 }
    ensures { result ≡ 36 + cost.statement_cost (statement_of statement.now) }
{
    36 + statement_cost(statement)
}

// What a statement costs.
fn statement_cost(statement: &Statement) -> u32
    requires { cost.statement_cost (statement_of statement.now) < 4294967296 }
    ensures { result ≡ cost.statement_cost (statement_of statement.now) }
{
    match statement {
        Statement::Let(_, e) => 48 * nodes(e),
        Statement::Print(items, _) => items_cost(items),
        Statement::Input(letters) => 32 * letters.len() as u32,
        Statement::If(left, _, right, statement) => {
            64 + 48 * nodes(left) + 48 * nodes(right) + statement_cost(statement)
        }
        Statement::Goto(e) | Statement::Gosub(e) => 48 + 48 * nodes(e),
        Statement::Return => 48,
        Statement::End | Statement::Remark => 0,
    }
}

// What the items of PRINT cost.
fn items_cost(items: &[PrintItem]) -> u32
    requires { items_cost (map item_of items.now) < 4294967296 }
    ensures { result ≡ items_cost (map item_of items.now) }
{
    match items {
        [] => 0,
        [first, rest @ ..] => item_cost(first) + items_cost(rest),
    }
}

fn item_cost(item: &PrintItem) -> u32
    requires { cost.item_cost (item_of item.now) < 4294967296 }
    ensures { result ≡ cost.item_cost (item_of item.now) }
{
    match item {
        PrintItem::Text(text) => 24 + text.len() as u32,
        PrintItem::Value(e) => 24 + 48 * nodes(e),
        PrintItem::Zone => 0,
    }
}

// How many operators, numbers and variables an expression has.
fn nodes(e: &Expr) -> u32
    requires { cost.nodes (expression_of e.now) < 4294967296 }
    ensures { result ≡ cost.nodes (expression_of e.now) }
{
    match e {
        Expr::Number(_) | Expr::Variable(_) => 1,
        Expr::Negate(e) | Expr::Random(e) => 1 + nodes(e),
        Expr::Binary(_, left, right) => 1 + nodes(left) + nodes(right),
    }
}
