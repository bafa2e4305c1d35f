//! From programs to slot code.
ghost use Rattle.std.specs.Prelude.{◌≡◌, ◌+◌, ◌≤◌, Some, None, IfOk, IfErr, OnOk, [], ◌∷◌, ◌++◌, ℕ, map};
ghost use Rattle.tb_basic_syntax.specs.PlainData.{expression_of, item_of, letters_of, statement_of, lines_of};
ghost use Rattle.tb_basic_syntax.specs.Source as source;
ghost use Rattle.tb_basic_meaning.specs.Need.{need, item_need, items_need, statement_need, too_deep};
ghost use Rattle.tb_lower.specs.Lowered.{value_code, item_code, items_code, inputs_code, statement_code, list_code, program_code};
ghost use Rattle.tb_lower.specs.Follows.{Follows};
ghost use Rattle.tb_basic_syntax.specs.Texts.{HasShortTexts};
ghost use Rattle.tb_lower.specs.Ranges.{IsCodeInRange};
ghost use Rattle.tb_lower.specs.Refusals.{IsRefusal};
ghost use Rattle.tb_lower.specs.PlainData.{instr_of, slot_line_of, code_of};

use crate::slot_code::{SlotCode, SlotInstr, SlotLine};
use std::alloc::{AllocError, Global};
use tb_basic_meaning::{LowerError, SLOT_COUNT, constant, statement_need};
use tb_basic_syntax::{Expr, PrintItem, Program, Statement};
use tb_words::Letter;

// No shorter than the lists of most lines.
const USUAL_LENGTH: usize = 8;

/// The slot code that does what the program does, or the lowest line whose expression needs more than 16 slots. Constant
/// parts of expressions, which have no variable, no RND and no division by zero, are computed, and a constant target is a
/// direct jump. Whether an expression needs too many slots is judged on the expression as written.
#[tactic(auto, using(crate::proofs::Ranged::in_range))]
pub fn lower(alloc: Global, program: &Program) -> Result<SlotCode, LowerError>
    ensures lowered { IfOk result (λ code. code_of code ≡ program_code (lines_of program.now)) }
    ensures follows { IfOk result (λ code. Follows (lines_of program.now) (code_of code)) }
    ensures in_range { IfOk result (λ code. (limit : ℕ) → HasShortTexts limit (lines_of program.now) → IsCodeInRange limit (code_of code)) }
    ensures accepted { IfOk result (λ code. too_deep (lines_of program.now) ≡ None) }
    ensures refused { IfErr result (λ e. IsRefusal (lines_of program.now) e) }
{
    let lines = lower_lines(alloc, program)?;
    Ok(SlotCode::new(lines))
}

fn lower_lines(alloc: Global, program: &Program) -> Result<Vec<SlotLine>, LowerError>
    ensures lowered { IfOk result (λ lines. code_of lines.items ≡ program_code (lines_of program.now)) }
    ensures accepted { IfOk result (λ lines. too_deep (lines_of program.now) ≡ None) }
    ensures refused { IfErr result (λ e. IsRefusal (lines_of program.now) e) }
{
    let mut lines = Vec::new(alloc);
    for (number, statement) in program.lines() {
        if statement_need(statement) > SLOT_COUNT {
            return Err(LowerError::TooDeep(*number));
        }
        let line = lower_line(alloc, *number, statement)?;
        push_line(&mut lines, line)?;
    }
    Ok(lines)
}

fn push_line(lines: &mut Vec<SlotLine>, line: SlotLine) -> Result<(), AllocError>
    ensures { OnOk result (lines.new.items ≡ lines.old.items ++ line ∷ []) }
{
    lines.push(line)?;
    Ok(())
}

fn lower_line(alloc: Global, number: u16, statement: &Statement) -> Result<SlotLine, AllocError>
    requires { statement_need (statement_of statement.now) ≤ 16 }
    ensures { IfOk result (λ line. slot_line_of line ≡ record { number = number; content = list_code (statement_of statement.now) }) }
{
    let mut code = Vec::with_capacity(alloc, USUAL_LENGTH)?;
    put(&mut code, SlotInstr::Poll)?;
    put_statement(&mut code, statement)?;
    Ok(SlotLine { number, code })
}

// One more instruction. A push that may fail hands it back, and so copies it once more.
fn put(code: &mut Vec<SlotInstr>, instr: SlotInstr) -> Result<(), AllocError>
    ensures { OnOk result (map instr_of code.new.items ≡ map instr_of code.old.items ++ instr_of instr ∷ []) }
{
    code.reserve(1)?;
    code.push_reserved(instr);
    Ok(())
}

fn put_value(code: &mut Vec<SlotInstr>, e: &Expr, slot: u8) -> Result<(), AllocError>
    requires { slot + need (expression_of e.now) ≤ 16 }
    ensures { OnOk result (map instr_of code.new.items ≡ map instr_of code.old.items ++ value_code (expression_of e.now) slot) }
{
    if let Some(value) = constant(e) {
        return put(code, SlotInstr::Put(slot, value));
    }
    match e {
        Expr::Number(n) => put(code, SlotInstr::Put(slot, *n)),
        Expr::Variable(x) => put(code, SlotInstr::Load(slot, *x)),
        Expr::Negate(e) => {
            put_value(code, e, slot)?;
            put(code, SlotInstr::Negate(slot))
        }
        Expr::Binary(op, l, r) => {
            put_value(code, l, slot)?;
            put_value(code, r, slot + 1)?;
            put(code, SlotInstr::Compute(*op, slot))
        }
        Expr::Random(e) => {
            put_value(code, e, slot)?;
            put(code, SlotInstr::Random(slot))
        }
    }
}

fn put_item(code: &mut Vec<SlotInstr>, item: &PrintItem) -> Result<(), AllocError>
    requires { item_need (item_of item.now) ≤ 16 }
    ensures { OnOk result (map instr_of code.new.items ≡ map instr_of code.old.items ++ item_code (item_of item.now)) }
{
    match item {
        PrintItem::Text(text) => put(code, SlotInstr::SendText(text.clone()?)),
        PrintItem::Value(e) => {
            put_value(code, e, 0)?;
            put(code, SlotInstr::SendNumber)
        }
        PrintItem::Zone => put(code, SlotInstr::SendZone),
    }
}

fn put_items(code: &mut Vec<SlotInstr>, items: &[PrintItem]) -> Result<(), AllocError>
    requires { items_need (map item_of items.now) ≤ 16 }
    ensures { OnOk result (map instr_of code.new.items ≡ map instr_of code.old.items ++ items_code (map item_of items.now)) }
{
    for item in items {
        put_item(code, item)?;
    }
    Ok(())
}

fn put_inputs(code: &mut Vec<SlotInstr>, letters: &[Letter]) -> Result<(), AllocError>
    ensures { OnOk result (map instr_of code.new.items ≡ map instr_of code.old.items ++ inputs_code (letters_of letters.now)) }
{
    for x in letters {
        put(code, SlotInstr::Input(*x))?;
    }
    Ok(())
}

fn put_goto(code: &mut Vec<SlotInstr>, target: &Expr) -> Result<(), AllocError>
    requires { need (expression_of target.now) ≤ 16 }
    ensures { OnOk result (map instr_of code.new.items ≡ map instr_of code.old.items ++ statement_code
        (source.Goto (expression_of target.now))) }
{
    if let Some(number) = constant(target) {
        return put(code, SlotInstr::JumpTo(number));
    }
    put_value(code, target, 0)?;
    put(code, SlotInstr::Jump)
}

fn put_gosub(code: &mut Vec<SlotInstr>, target: &Expr) -> Result<(), AllocError>
    requires { need (expression_of target.now) ≤ 16 }
    ensures { OnOk result (map instr_of code.new.items ≡ map instr_of code.old.items ++ statement_code
        (source.Gosub (expression_of target.now))) }
{
    if let Some(number) = constant(target) {
        return put(code, SlotInstr::CallTo(number));
    }
    put_value(code, target, 0)?;
    put(code, SlotInstr::Call)
}

fn put_statement(code: &mut Vec<SlotInstr>, s: &Statement) -> Result<(), AllocError>
    requires { statement_need (statement_of s.now) ≤ 16 }
    ensures { OnOk result (map instr_of code.new.items ≡ map instr_of code.old.items ++ statement_code (statement_of s.now)) }
{
    match s {
        Statement::Let(x, e) => {
            put_value(code, e, 0)?;
            put(code, SlotInstr::Store(*x))
        }
        Statement::Print(items, ends_line) => {
            put_items(code, items)?;
            if *ends_line {
                put(code, SlotInstr::SendNewline)
            } else {
                Ok(())
            }
        }
        Statement::Input(letters) => put_inputs(code, letters),
        Statement::If(l, rel, r, s) => {
            put_value(code, l, 0)?;
            put(code, SlotInstr::Hold)?;
            put_value(code, r, 0)?;
            put(code, SlotInstr::LeaveUnless(*rel))?;
            put_statement(code, s)
        }
        Statement::Goto(e) => put_goto(code, e),
        Statement::Gosub(e) => put_gosub(code, e),
        Statement::Return => put(code, SlotInstr::Return),
        Statement::End => put(code, SlotInstr::End),
        Statement::Remark => Ok(()),
    }
}
