//! Words, statements, edits of a program, and its slot code.
ghost use Rattle.std.specs.Prelude.{◌≡◌, ◌≢◌, ◌↔◌, ℕ, ℤ, pos, IsTrue, IfOk, IfErr, MatchOption, OnOk, Option};
ghost use Rattle.tb_words.specs.Signed.{Holds, IsDivision, wrapped};
ghost use Rattle.tb_words.specs.Words.{holds as holds_on, quotient, word_of};
ghost use Rattle.tb_basic_syntax.specs.PlainData.{lines_of, statement_of};
ghost use Rattle.tb_basic_syntax.specs.Source.{Statement as SourceStatement};
ghost use Rattle.tb_basic_grammar.specs.ReadValues as shown;
ghost use Rattle.tb_basic_grammar.specs.Statements.{States};
ghost use Rattle.tb_parser.specs.Answers.{edit_of};
ghost use Rattle.tb_parser.specs.Files.{edited};
ghost use Rattle.tb_parser.specs.Refusals.{out_of_memory};
ghost use Rattle.tb_lower.specs.Follows.{Follows};
ghost use Rattle.tb_lower.specs.PlainData.{code_of};

use std::alloc::Global;
use tb_basic_grammar::{ReadError, ReadStatement, read_statement};
use tb_basic_meaning::LowerError;
use tb_lower::{SlotLine, lower};
use tb_parser::{LineEdit, Program, SourceError, apply};
use tb_words::{Rel, div_rem, holds};

/// Calls `read_statement`.
pub fn statement_of(alloc: Global, text: &[u8]) -> Result<ReadStatement, ReadError>
    ensures found { IfOk result (λ r. States text.now (statement_of r.statement) r.large) }
    ensures only { (s : SourceStatement) (large : Option ℕ) → States text.now s large
        → shown.Answers result (λ r. (statement_of r.statement ≡ s) × (r.large ≡ large)) }
{
    read_statement(alloc, text)
}

/// Calls `apply`.
pub fn edit_applied(program: &mut Program, edit: LineEdit) -> Result<(), SourceError>
    ensures ok { OnOk result (lines_of program.new ≡ edited (edit_of edit) (lines_of program.old)) }
    ensures err { IfErr result (λ e. e ≡ out_of_memory) }
{
    apply(program, edit)
}

/// The lists of a program, of which nothing is said but that they have the program's runs.
pub fn following_lists(alloc: Global, program: &Program) -> Result<Vec<SlotLine>, LowerError>
    ensures { IfOk result (λ lists. Follows (lines_of program.now) (code_of lists.items)) }
{
    Ok(lower(alloc, program)?.into_lines())
}

/// Calls `div_rem`.
pub fn quotient_of(n: i16, d: i16) -> Option<(i16, i16)>
    ensures signed { MatchOption result (d ≡ pos 0)
        (λ p. (q : ℤ) × IsDivision n d q p.1 × (p.0 ≡ wrapped q)) }
    ensures on_words { MatchOption result (word_of d ≡ 0)
        (λ p. (word_of d ≢ 0) × (word_of p.0 ≡ quotient (word_of n) (word_of d))) }
{
    div_rem(n, d)
}

/// Calls `holds`.
pub fn are_related(rel: Rel, a: i16, b: i16) -> bool
    ensures signed { IsTrue result ↔ Holds rel a b }
    ensures on_words { result ≡ holds_on rel (word_of a) (word_of b) }
{
    holds(rel, a, b)
}
