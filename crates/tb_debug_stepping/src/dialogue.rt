//! Commands that a stepper answers.
ghost use Rattle.std.specs.Prelude.{◌≡◌, IfOk};
ghost use Rattle.tb_debug_stepping.specs.Commands.{asked_of};
ghost use Rattle.tb_debug_stepping.specs.Lines.{lines_of};
ghost use Rattle.tb_debug_stepping.specs.Dialogue.{registers_of, SaysStep, SaysBack, SaysGo, SaysValue, Performs, Responds, Dialogue};

use crate::answer::Answer;
use crate::command::{Command, read_command};
use crate::lines::next_line;
use std::alloc::{AllocError, Global};
use tb_debug_inspection::{value_of_text, variables};
use tb_kernal::Outside;
use tb_stepper::{Reached, StepError, Stepper};

/// Does what a command asks for, and answers it; there is no answer to `Quit`. A walk to a line takes at most `limit`
/// steps. What only a source tells is answered by `NoSource` without one.
///
/// After AllocError all is as before, but for a walk: then the machine is as after the steps so far.
pub fn respond<O: Outside + Drop>(
    alloc: Global,
    stepper: &mut Stepper<'_, O>,
    command: Command<'_>,
    limit: u64,
) -> Result<Option<Answer>, AllocError>
    ensures { Responds O.gives limit stepper.old (asked_of command.entry) result stepper.new }
{
    if command.needs_source() && !stepper.has_source() {
        return Ok(Some(Answer::NoSource));
    }
    perform(alloc, stepper, command, limit)
}

// Does what a command asks for, and answers it, with or without a source.
fn perform<O: Outside + Drop>(
    alloc: Global,
    stepper: &mut Stepper<'_, O>,
    command: Command<'_>,
    limit: u64,
) -> Result<Option<Answer>, AllocError>
    ensures { Performs O.gives limit stepper.old (asked_of command.entry) result stepper.new }
{
    let answer = match command {
        Command::Step => step(stepper)?,
        Command::Back => back(stepper),
        Command::Go(line) => go(stepper, line, limit)?,
        Command::Variable(letter) => Answer::Value(Ok(stepper.variable(letter))),
        Command::Value(text) => value(alloc, stepper, text)?,
        Command::Depth => Answer::Depth(stepper.depth()),
        Command::Quit => return Ok(None),
        Command::Unknown => Answer::What,
    };
    Ok(Some(answer))
}

// How the machine stands.
fn registers<O: Outside + Drop>(stepper: &Stepper<'_, O>) -> Answer
    ensures { result ≡ registers_of stepper.now }
{
    Answer::Registers {
        regs: stepper.machine().regs(),
        line: stepper.line(),
        status: stepper.machine().status(),
    }
}

fn step<O: Outside + Drop>(stepper: &mut Stepper<'_, O>) -> Result<Answer, AllocError>
    ensures { SaysStep O.gives stepper.old result stepper.new }
{
    stepper.step()?;
    Ok(registers(stepper))
}

fn back<O: Outside + Drop>(stepper: &mut Stepper<'_, O>) -> Answer
    ensures { SaysBack stepper.old result stepper.new }
{
    match stepper.back() {
        Ok(()) => registers(stepper),
        Err(_) => Answer::NothingBack,
    }
}

fn go<O: Outside + Drop>(
    stepper: &mut Stepper<'_, O>,
    line: u16,
    limit: u64,
) -> Result<Answer, AllocError>
    ensures { SaysGo O.gives limit line stepper.old result stepper.new }
{
    match stepper.to_line(line, limit) {
        Ok(Reached::There) => Ok(Answer::At(line)),
        Ok(Reached::Stopped(status)) => Ok(Answer::Stands(status)),
        Ok(Reached::Limit) => Ok(Answer::Limit),
        Err(StepError::NoSuchLine) => Ok(Answer::NoSuchLine),
        Err(StepError::NoMemory) => Err(AllocError),
    }
}

fn value<O: Outside + Drop>(
    alloc: Global,
    stepper: &Stepper<'_, O>,
    text: &[u8],
) -> Result<Answer, AllocError>
    ensures { IfOk result (SaysValue stepper.now text.now) }
{
    let variables = variables(stepper.machine().memory());
    match value_of_text(alloc, text, &variables)? {
        Some(value) => Ok(Answer::Value(value)),
        None => Ok(Answer::What),
    }
}

/// The answers to commands, each a line, up to `q` or the end.
pub fn answers<O: Outside + Drop>(
    alloc: Global,
    stepper: &mut Stepper<'_, O>,
    commands: &[u8],
    limit: u64,
) -> Result<Vec<u8>, AllocError>
    ensures { IfOk result (λ text. Dialogue O.gives limit stepper.old (lines_of commands.now) text.items stepper.new) }
{
    let mut text = Vec::new(alloc);
    let mut rest = commands;
    'answering: while let Some((line, left)) = next_line(rest) {
        let Some(answer) = respond(alloc, stepper, read_command(line), limit)? else {
            return Ok(text);
        };
        if answer.push_line(alloc, &mut text).is_err() {
            return Err(AllocError);
        }
        rest = left;
    }
    Ok(text)
}
