//! What a line of a file does to the program.
ghost use Rattle.std.specs.Prelude.{◌≡◌, IfErr, OnOk};
ghost use Rattle.tb_basic_syntax.specs.PlainData.{lines_of};
ghost use Rattle.tb_parser.specs.Answers.{edit_of};
ghost use Rattle.tb_parser.specs.Files.{edited};
ghost use Rattle.tb_parser.specs.Refusals.{out_of_memory};

use crate::errors::SourceError;
use tb_basic_syntax::{Program, Statement};

/// What a line does to the program.
#[derive(Drop)]
pub enum LineEdit {
    /// A blank line.
    Nothing,
    /// A line with a statement, which becomes the entry of its number.
    Set(u16, Statement),
    /// A bare number, which loses its entry.
    Delete(u16),
}

/// Applies the edit to the program. Fails only if memory runs out.
#[tactic(auto, using(crate::proofs::Maps::lines_of_insert, crate::proofs::Maps::lines_of_remove))]
pub fn apply(program: &mut Program, edit: LineEdit) -> Result<(), SourceError>
    ensures ok { OnOk result (lines_of program.new ≡ edited (edit_of edit) (lines_of program.old)) }
    ensures err { IfErr result (λ e. e ≡ out_of_memory) }
{
    match edit {
        LineEdit::Nothing => {}
        LineEdit::Set(number, statement) => program.set(number, statement)?,
        LineEdit::Delete(number) => program.delete(number),
    }
    Ok(())
}
