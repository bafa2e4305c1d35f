//! What a compiler promises.
ghost use Rattle.std.specs.Prelude.{IfOk};
ghost use Rattle.tb_parser.specs.Files.{Outcome};
ghost use Rattle.tb_basic_text.specs.Lines.{lines_of_file};
ghost use Rattle.tb_parser.specs.Signed.{LackSigns};
ghost use Rattle.tb_compiled.specs.Answers.{HasOutcome, LinesMake, OutcomeAnswer, SourceMakes};
ghost use Rattle.tb_compiled.specs.Promise.{Own};
ghost use Rattle.tb_compiled.specs.Theorem.{KeepsSourceIn, MarksLinesIn};

use crate::compiled::Compiled;
use crate::settings::CompileSettings;
use std::alloc::Global;
use tb_compiled_errors::CompileError;

/// A compiler: from a source text to a PRG file.
pub trait Compile {
    /// What it says of its programs beside what any compiler does, and how many bytes a program's code and line table take.
    ghost own: { Own };

    /// The PRG file of a source text, with the addresses of its lines. Refused, in this order: a text that is not a
    /// program, an expression that needs more than 16 slots, a program that is too large; or memory runs out.
    fn compile(
        &self,
        alloc: Global,
        source: &[u8],
        settings: CompileSettings,
    ) -> Result<Compiled, CompileError>
        // What the file's lines make is answered,
        ensures found { HasOutcome own settings source.now result }
        // and whatever they make is what is answered.
        ensures only { (outcome : Outcome) → SourceMakes settings.notation source.now outcome → OutcomeAnswer own settings outcome result }
        // If no text has a brace or a bracket, what the lines make without signs is answered.
        ensures plain { LackSigns (lines_of_file source.now) → (outcome : Outcome) → LinesMake source.now outcome → OutcomeAnswer own settings outcome result }
        // A compiled file's code, loaded at $0801, keeps the program that its source makes, whatever the ROM does.
        ensures keeps { IfOk result (KeepsSourceIn settings.notation settings.seed source.now) }
        // When it comes to the address that start_of answers for a line, the program begins that line, in the same state.
        ensures marks { IfOk result (MarksLinesIn settings.notation settings.seed source.now) };
}
