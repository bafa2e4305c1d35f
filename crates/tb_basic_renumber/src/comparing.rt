//! Whether a program is another one renumbered.
ghost use Rattle.std.specs.Prelude.{◌≡◌, true, IfSome, IsSome, IsTrue};
ghost use Rattle.tb_basic_syntax.specs.PlainData.{expression_of, statement_of, lines_of};
ghost use Rattle.tb_basic_syntax.specs.Source.{numbers};
ghost use Rattle.tb_basic_renumber.specs.Renumbered.{are_low, moved, moved_target, new_number, renumbered};

use crate::numbering::Numbering;
use tb_basic_meaning::constant;
use tb_basic_syntax::{Expr, Program, Statement};

/// Whether the second program is the first one renumbered.
pub fn is_renumbered(numbering: &Numbering, old: &Program, new: &Program) -> bool
    ensures sound { IsTrue result → lines_of new.now ≡ renumbered numbering.now.first numbering.now.step (lines_of old.now) }
    // True comes wherever it is, if no line gets a number above the highest.
    ensures whole { are_low numbering.now.first numbering.now.step (numbers (lines_of old.now)) ≡ true
        → lines_of new.now ≡ renumbered numbering.now.first numbering.now.step (lines_of old.now) → IsTrue result }
{
    let mut rest = new.lines();
    for (number, statement) in old.lines() {
        let Some((new_number, new_statement)) = rest.next() else {
            return false;
        };
        if moved(numbering, old, *number) != Some(*new_number)
            || !is_moved(numbering, old, statement, new_statement)
        {
            return false;
        }
    }
    rest.next().is_none()
}

// The new number of a line, where it is not above the highest. A number of no line stays.
fn moved(numbering: &Numbering, program: &Program, number: u16) -> Option<u16>
    ensures value { IfSome result
        (λ new. new ≡ new_number numbering.now.first numbering.now.step (numbers (lines_of program.now)) number) }
    ensures found { are_low numbering.now.first numbering.now.step (numbers (lines_of program.now)) ≡ true → IsSome result }
{
    match numbering.new_number(program, number) {
        Some(new) => Some(new),
        None => if numbering.fits(program) {
            Some(number)
        } else {
            None
        },
    }
}

// Whether the second statement is the first one, of a program, with its jump's target renumbered.
fn is_moved(numbering: &Numbering, program: &Program, old: &Statement, new: &Statement) -> bool
    ensures sound { IsTrue result → statement_of new.now ≡ moved
        (new_number numbering.now.first numbering.now.step (numbers (lines_of program.now))) (statement_of old.now) }
    ensures whole { are_low numbering.now.first numbering.now.step (numbers (lines_of program.now)) ≡ true → statement_of new.now ≡ moved
        (new_number numbering.now.first numbering.now.step (numbers (lines_of program.now))) (statement_of old.now) → IsTrue result }
{
    match (old, new) {
        (Statement::If(l, rel, r, statement), Statement::If(m, other, s, moved)) => {
            rel == other && m == l && s == r && is_moved(numbering, program, statement, moved)
        }
        (Statement::Goto(e), Statement::Goto(f)) => is_moved_target(numbering, program, e, f),
        (Statement::Gosub(e), Statement::Gosub(f)) => is_moved_target(numbering, program, e, f),
        _ => new == old,
    }
}

// Whether the second expression is the new number of the line that the first one is the old number of. One that is not
// constant stays.
fn is_moved_target(numbering: &Numbering, program: &Program, old: &Expr, new: &Expr) -> bool
    ensures sound { IsTrue result → expression_of new.now ≡ moved_target
        (new_number numbering.now.first numbering.now.step (numbers (lines_of program.now))) (expression_of old.now) }
    ensures whole { are_low numbering.now.first numbering.now.step (numbers (lines_of program.now)) ≡ true → expression_of new.now ≡ moved_target
        (new_number numbering.now.first numbering.now.step (numbers (lines_of program.now))) (expression_of old.now) → IsTrue result }
{
    let Some(target) = constant(old) else {
        return new == old;
    };
    let Expr::Number(number) = new else {
        return false;
    };
    moved(numbering, program, target) == Some(*number)
}
