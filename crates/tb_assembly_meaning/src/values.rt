//! The value of an expression.
ghost use Rattle.std.specs.Prelude.{◌≡◌, pos};
ghost use Rattle.tb_assembly_text.specs.Expressions.{mark_of, marks_of, sum_of};
ghost use Rattle.tb_assembly_meaning.specs.Names.{named};
ghost use Rattle.tb_assembly_meaning.specs.Values.{binary_value, bits_value, checked, natural, on_one, on_two, or_overflow, pushed, quotient, run, shifted, stepped, unary_value, value, value_named};
ghost use Rattle.tb_assembly_meaning.specs.Answers.{Answers, Steps};

use crate::faults::{MeaningError, Wrong, bad};
use crate::symbols::{Symbols, symbol};
use std::alloc::Global;
use std::collections::LinkedList;
use tb_assembly_text::{Action, Binary, Expression, Name, Step, Unary};

// A number of 32 bits, if there is one.
fn checked(value: Option<i32>) -> Result<i32, Wrong>
    ensures { result ≡ or_overflow value }
{
    value.ok_or(Wrong::Overflow)
}

// A number of which single bits are asked.
fn natural(value: i32) -> Result<u32, Wrong>
    ensures { result ≡ natural value }
{
    match u32::try_from(value) {
        Ok(number) => Ok(number),
        Err(_) => Err(Wrong::Negative),
    }
}

// A number of 31 bits.
fn whole(number: u32) -> Result<i32, Wrong>
    ensures { result ≡ checked (pos number) }
{
    match i32::try_from(number) {
        Ok(value) => Ok(value),
        Err(_) => Err(Wrong::Overflow),
    }
}

// What an operator before its operand makes of it.
fn unary_value(operator: Unary, value: i32) -> Result<i32, Wrong>
    ensures { result ≡ unary_value operator value }
{
    match operator {
        Unary::Negative => checked(value.checked_neg()),
        Unary::Low => Ok(value.rem_euclid(256)),
        Unary::High => Ok(value.div_euclid(256).rem_euclid(256)),
    }
}

fn quotient(left: i32, right: i32) -> Result<i32, Wrong>
    ensures { result ≡ quotient left right }
{
    if right == 0 {
        Err(Wrong::DivisionByZero)
    } else {
        checked(left.checked_div(right))
    }
}

// What an operator makes of single bits.
fn bits_value(operator: Binary, left: u32, right: u32) -> Result<i32, Wrong>
    ensures { result ≡ bits_value operator left right }
{
    match operator {
        Binary::And => whole(left & right),
        Binary::Or => whole(left | right),
        Binary::Xor => whole(left ^ right),
        _ => shifted(operator, left, right),
    }
}

// A number whose bits are moved.
fn shifted(operator: Binary, left: u32, right: u32) -> Result<i32, Wrong>
    ensures { result ≡ shifted operator left right }
{
    if right > 31 {
        return Err(Wrong::ShiftTooFar);
    }
    match operator {
        Binary::ShiftLeft => match left.checked_mul(1u32 << right) {
            Some(number) => whole(number),
            None => Err(Wrong::Overflow),
        },
        _ => whole(left >> right),
    }
}

// What an operator makes of its operands.
fn binary_value(operator: Binary, left: i32, right: i32) -> Result<i32, Wrong>
    ensures { result ≡ binary_value operator left right }
{
    match operator {
        Binary::Add => checked(left.checked_add(right)),
        Binary::Subtract => checked(left.checked_sub(right)),
        Binary::Multiply => checked(left.checked_mul(right)),
        Binary::Divide => quotient(left, right),
        _ => bits_value(operator, natural(left)?, natural(right)?),
    }
}

// The value of a name.
fn value_named(symbols: &Symbols, name: &Name) -> Result<i32, Wrong>
    ensures { result ≡ value_named (named symbols.now.entries name.now.letters.items) }
{
    match symbol(symbols, name) {
        Some(Some(value)) => Ok(value),
        Some(None) => Err(Wrong::NotYetKnown),
        None => Err(Wrong::UnknownName),
    }
}

fn push(
    stack: &mut LinkedList<i32>,
    column: usize,
    value: Result<i32, Wrong>,
) -> Result<(), MeaningError>
    ensures { Steps (pushed column value stack.old) result stack.new }
{
    match value {
        Ok(value) => match stack.push_front(value) {
            Ok(()) => Ok(()),
            Err(_) => Err(MeaningError::NoMemory),
        },
        Err(wrong) => Err(bad(column, wrong)),
    }
}

fn step_unary(
    stack: &mut LinkedList<i32>,
    column: usize,
    operator: Unary,
) -> Result<(), MeaningError>
    ensures { Steps (on_one column operator stack.old) result stack.new }
{
    match stack.pop_front() {
        Some(value) => push(stack, column, unary_value(operator, value)),
        None => Ok(()),
    }
}

fn step_binary(
    stack: &mut LinkedList<i32>,
    column: usize,
    operator: Binary,
) -> Result<(), MeaningError>
    ensures { Steps (on_two column operator stack.old) result stack.new }
{
    let Some(right) = stack.pop_front() else {
        return Ok(());
    };
    let Some(left) = stack.pop_front() else {
        return Ok(());
    };
    push(stack, column, binary_value(operator, left, right))
}

// One step, which changes the stack.
fn take_step(
    symbols: &Symbols,
    here: i32,
    stack: &mut LinkedList<i32>,
    step: &Step,
) -> Result<(), MeaningError>
    ensures { Steps (stepped (named symbols.now.entries) here (mark_of step.now) stack.old) result stack.new }
{
    match &step.action {
        Action::Number(number) => push(stack, step.column, whole(*number)),
        Action::Name(name) => push(stack, step.column, value_named(symbols, name)),
        Action::Here => push(stack, step.column, Ok(here)),
        Action::Unary(operator) => step_unary(stack, step.column, *operator),
        Action::Binary(operator) => step_binary(stack, step.column, *operator),
    }
}

// Takes steps one after the other.
fn run_steps(
    symbols: &Symbols,
    here: i32,
    stack: &mut LinkedList<i32>,
    steps: &[Step],
) -> Result<(), MeaningError>
    ensures { Steps (run (named symbols.now.entries) here (marks_of steps.now) stack.old) result stack.new }
{
    for step in steps {
        match take_step(symbols, here, stack, step) {
            Ok(()) => {}
            Err(error) => return Err(error),
        }
    }
    Ok(())
}

/// The value of an expression in a statement at an address, with what names stand for.
pub fn value(
    alloc: Global,
    symbols: &Symbols,
    here: i32,
    expression: &Expression,
) -> Result<i32, MeaningError>
    ensures { Answers (value (named symbols.now.entries) here (sum_of expression.now)) result }
{
    let mut stack = LinkedList::new(alloc);
    match run_steps(symbols, here, &mut stack, &expression.steps) {
        Ok(()) => Ok(stack.pop_front().unwrap_or(0)),
        Err(error) => Err(error),
    }
}
