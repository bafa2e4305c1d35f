//! Jumps that can't be renumbered.
ghost use Rattle.std.specs.Prelude.{◌≡◌};
ghost use Rattle.tb_basic_syntax.specs.PlainData.{statement_of, lines_of};
ghost use Rattle.tb_basic_syntax.specs.Source.{numbers};
ghost use Rattle.tb_basic_renumber.specs.Jumps.{first_fault, statement_fault};

use tb_basic_meaning::constant;
use tb_basic_syntax::{Program, Statement, jump_of};

/// Why a jump can't be renumbered.
#[derive(Clone, Copy, PartialEq, Eq, Debug, Drop)]
pub enum JumpFault {
    /// Its expression isn't constant: it may go anywhere.
    Computed,
    /// There is no line of this number, a word.
    NoLine(u16),
}

/// The lowest line with a jump that can't be renumbered, and why; `None` if there is none.
pub fn jump_fault(program: &Program) -> Option<(u16, JumpFault)>
    ensures { result ≡ first_fault (numbers (lines_of program.now)) (lines_of program.now) }
{
    for (line, statement) in program.lines() {
        if let Some(fault) = statement_fault(program, statement) {
            return Some((*line, fault));
        }
    }
    None
}

#[tactic(auto, using(tb_basic_meaning::proofs::Found::found_line))]
fn statement_fault(program: &Program, statement: &Statement) -> Option<JumpFault>
    ensures { result ≡ statement_fault (numbers (lines_of program.now)) (statement_of statement.now) }
{
    let (target, _) = jump_of(statement)?;
    let Some(number) = constant(target) else {
        return Some(JumpFault::Computed);
    };
    if program.has(number) {
        None
    } else {
        Some(JumpFault::NoLine(number))
    }
}
