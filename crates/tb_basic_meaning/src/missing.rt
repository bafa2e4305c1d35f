//! Warnings: jumps to constant lines that are missing.
ghost use Rattle.std.specs.Prelude.{◌≡◌, ◌++◌, [], ◌∷◌, IfOk, OnOk, map, option_map};
ghost use Rattle.tb_words.specs.Words.{word_of};
ghost use Rattle.tb_basic_syntax.specs.PlainData.{statement_of, lines_of};
ghost use Rattle.tb_basic_syntax.specs.Source.{numbers};
ghost use Rattle.tb_basic_meaning.specs.Missing.{missing_target, missing_targets};

use crate::evaluation::constant;
use crate::places::has_line;
use std::alloc::{AllocError, Global};
use tb_basic_syntax::{Program, Statement, jump_of};

/// A GOTO or GOSUB at this line has a constant target, and there is no line of that number.
#[derive(Clone, Copy, PartialEq, Eq, Debug, Drop)]
pub struct Warning {
    pub line: u16,
    pub target: i16,
}

/// The warnings of a program in the order of lines. Fails only if memory runs out.
pub fn warnings(alloc: Global, program: &Program) -> Result<Vec<Warning>, AllocError>
    ensures { IfOk result (λ found. map (λ w. (w.line, word_of w.target)) found.items ≡ missing_targets (lines_of program.now)) }
{
    let mut warnings = Vec::new(alloc);
    for (line, statement) in program.lines() {
        if let Some(target) = missing_target(program, statement) {
            warnings.push(Warning {
                line: *line,
                target,
            })?;
        }
    }
    Ok(warnings)
}

// The constant target of a statement's jump, if there is no line of its number.
fn missing_target(program: &Program, statement: &Statement) -> Option<i16>
    ensures { option_map word_of result ≡ missing_target (numbers (lines_of program.now)) (statement_of statement.now) }
{
    let (target, _) = jump_of(statement)?;
    let number = constant(target)?;
    if has_line(program, number) {
        return None;
    }
    Some(number.cast_signed())
}
