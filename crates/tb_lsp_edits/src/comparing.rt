//! Whether what a line does is what another one does, renamed.
ghost use Rattle.std.specs.Prelude.{◌≡◌, ◌↔◌, IsTrue, map};
ghost use Rattle.tb_basic_syntax.specs.PlainData.{expression_of, item_of, letters_of, statement_of};
ghost use Rattle.tb_words.specs.Letters.{letter_index};
ghost use Rattle.tb_parser.specs.Answers.{edit_of};
ghost use Rattle.tb_lsp_edits.specs.Renamed as spec;

use crate::letters::Letters;
use tb_basic_syntax::{Expr, PrintItem, Statement};
use tb_parser::LineEdit;
use tb_words::Letter;

fn is_renamed_letter(letters: Letters, old: Letter, new: Letter) -> bool
    ensures { IsTrue result ↔ (letter_index new ≡ spec.renamed_letter letters (letter_index old)) }
{
    new.index() == letters.renamed(old.index())
}

fn is_renamed_expression(letters: Letters, old: &Expr, new: &Expr) -> bool
    ensures { IsTrue result ↔ (expression_of new.now ≡ spec.renamed_expression (spec.renamed_letter letters) (expression_of old.now)) }
{
    match (old, new) {
        (Expr::Number(n), Expr::Number(m)) => n == m,
        (Expr::Variable(x), Expr::Variable(y)) => is_renamed_letter(letters, *x, *y),
        (Expr::Negate(e), Expr::Negate(f)) => is_renamed_expression(letters, e, f),
        (Expr::Binary(op, l, r), Expr::Binary(other, m, s)) => {
            op == other
                && is_renamed_expression(letters, l, m)
                && is_renamed_expression(letters, r, s)
        }
        (Expr::Random(e), Expr::Random(f)) => is_renamed_expression(letters, e, f),
        _ => false,
    }
}

fn is_renamed_item(letters: Letters, old: &PrintItem, new: &PrintItem) -> bool
    ensures { IsTrue result ↔ (item_of new.now ≡ spec.renamed_item (spec.renamed_letter letters) (item_of old.now)) }
{
    match (old, new) {
        (PrintItem::Text(t), PrintItem::Text(u)) => t.as_slice() == u.as_slice(),
        (PrintItem::Value(e), PrintItem::Value(f)) => is_renamed_expression(letters, e, f),
        (PrintItem::Zone, PrintItem::Zone) => true,
        _ => false,
    }
}

fn are_renamed_items(letters: Letters, old: &[PrintItem], new: &[PrintItem]) -> bool
    ensures { IsTrue result ↔ (map item_of new.now ≡ map (spec.renamed_item (spec.renamed_letter letters)) (map item_of old.now)) }
{
    match old {
        [] => new.is_empty(),
        [first, rest @ ..] => match new {
            [] => false,
            [other, others @ ..] => {
                is_renamed_item(letters, first, other) && are_renamed_items(letters, rest, others)
            }
        },
    }
}

fn are_renamed_letters(letters: Letters, old: &[Letter], new: &[Letter]) -> bool
    ensures { IsTrue result ↔ (letters_of new.now ≡ map (spec.renamed_letter letters) (letters_of old.now)) }
{
    match old {
        [] => new.is_empty(),
        [first, rest @ ..] => match new {
            [] => false,
            [other, others @ ..] => {
                is_renamed_letter(letters, *first, *other)
                    && are_renamed_letters(letters, rest, others)
            }
        },
    }
}

fn is_renamed_statement(letters: Letters, old: &Statement, new: &Statement) -> bool
    ensures { IsTrue result ↔ (statement_of new.now ≡ spec.renamed (spec.renamed_letter letters) (statement_of old.now)) }
{
    match (old, new) {
        (Statement::Let(x, e), Statement::Let(y, f)) => {
            is_renamed_letter(letters, *x, *y) && is_renamed_expression(letters, e, f)
        }
        (Statement::Print(items, ends), Statement::Print(others, end)) => {
            ends == end && are_renamed_items(letters, items, others)
        }
        (Statement::Input(xs), Statement::Input(ys)) => are_renamed_letters(letters, xs, ys),
        (Statement::If(l, rel, r, statement), Statement::If(m, other, s, renamed)) => {
            rel == other
                && is_renamed_expression(letters, l, m)
                && is_renamed_expression(letters, r, s)
                && is_renamed_statement(letters, statement, renamed)
        }
        (Statement::Goto(e), Statement::Goto(f)) => is_renamed_expression(letters, e, f),
        (Statement::Gosub(e), Statement::Gosub(f)) => is_renamed_expression(letters, e, f),
        (Statement::Return, Statement::Return) => true,
        (Statement::End, Statement::End) => true,
        (Statement::Remark, Statement::Remark) => true,
        _ => false,
    }
}

/// Whether what the second line does is what the first one does, renamed.
pub fn is_renamed_edit(letters: Letters, old: &LineEdit, new: &LineEdit) -> bool
    ensures { IsTrue result ↔ (edit_of new.now ≡ spec.renamed_edit (spec.renamed_letter letters) (edit_of old.now)) }
{
    match (old, new) {
        (LineEdit::Nothing, LineEdit::Nothing) => true,
        (LineEdit::Set(n, statement), LineEdit::Set(m, renamed)) => {
            n == m && is_renamed_statement(letters, statement, renamed)
        }
        (LineEdit::Delete(n), LineEdit::Delete(m)) => n == m,
        _ => false,
    }
}
