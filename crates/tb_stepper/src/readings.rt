//! What a program's data are in the present machine.
ghost use Rattle.std.specs.Prelude.{◌≡◌};
ghost use Rattle.tb_memmap.specs.Bytes.{at};
ghost use Rattle.tb_cpu.specs.Operands.{word_in};
ghost use Rattle.tb_words.specs.Words.{word_of};
ghost use Rattle.tb_words.specs.Letters.{letter_index};
ghost use Rattle.tb_basic_syntax.specs.PlainData.{expression_of};
ghost use Rattle.tb_compiled_kept.specs.Addresses.{NOTES};
ghost use Rattle.tb_basic_meaning.specs.Evaluation.{IsEvaluation};
ghost use Rattle.tb_debug_inspection.specs.Readings.{variable_in, variables_in};

use crate::stepper::Stepper;
use tb_basic_meaning::{EvalError, eval};
use tb_basic_syntax::Expr;
use tb_debug_inspection::{depth, variable, variables};
use tb_kernal::Outside;
use tb_words::Letter;

impl<'a, O: Outside + Drop> Stepper<'a, O> {
    /// The value of a variable: the word at `$C000` and twice the letter's index, low byte first,
    /// read as signed.
    pub fn variable(&self, letter: Letter) -> i16
        ensures { word_of result ≡ variable_in (at self.now.machine.memory) (letter_index letter) }
    {
        variable(self.machine().memory(), letter)
    }

    /// The value of an expression over the variables, or why it has none.
    pub fn value_of(&self, e: &Expr) -> Result<i16, EvalError>
        ensures { IsEvaluation (expression_of e.now) (variables_in (at self.now.machine.memory)) result }
    {
        eval(e, &variables(self.machine().memory()))
    }

    /// How many GOSUBs wait for their RETURN: the word at `NOTES`.
    pub fn depth(&self) -> u16
        ensures { result ≡ word_in (at self.now.machine.memory) NOTES }
    {
        depth(self.machine().memory())
    }
}
