//! From a source text to a PRG file.
ghost use Rattle.std.specs.Prelude.{◌≤◌, ◌<◌, Ok, IfErr, IfOk, length};
ghost use Rattle.tb_basic_syntax.specs.PlainData.{lines_of};
ghost use Rattle.tb_basic_syntax.specs.Source.{numbers, Rises};
ghost use Rattle.tb_basic_meaning.specs.Cost as cost;
ghost use Rattle.tb_lower.specs.PlainData.{code_of};
ghost use Rattle.tb_lower.specs.Refusals.{IsRefusal};
ghost use Rattle.tb_parser.specs.Files.{AreStated, Outcome};
ghost use Rattle.tb_basic_text.specs.Lines.{lines_of_file};
ghost use Rattle.tb_parser.specs.Signed.{LackSigns};
ghost use Rattle.tb_compiled.specs.declared.compiled.Compiled.{Compiled};
ghost use Rattle.tb_compiled.specs.Answers.{GivesSame, HasOutcome, LinesMake, OutcomeAnswer, ProgramAnswer, SourceMakes};
ghost use Rattle.tb_codegen.specs.Coded.{IsSlotCode};
ghost use Rattle.tb_codegen.specs.Templates.{templates};
ghost use Rattle.tb_compiled.specs.Refusals.{IsExcess};
ghost use Rattle.tb_compiled.specs.Settings.{by_cost, by_memory};
ghost use Rattle.tb_compiled.specs.Theorem.{KeepsItsSource, KeepsProgram, KeepsSourceIn, MarksItsLines, MarksLinesIn, MarksProgram};

use crate::linking::linked;
use std::alloc::Global;
use tb_basic_meaning::LowerError;
use tb_basic_syntax::Program;
use tb_compiled::{Compile, CompileError, CompileSettings, Compiled, MOST_COST, SizeLimit, cost};
use tb_lower::{SlotCode, lower};
use tb_parser::parse_in;

/// What a program is compiled with.
#[derive(Clone, Copy, Debug, PartialEq, Eq, Drop)]
pub struct Options {
    /// The first RND state, any word.
    pub seed: u16,
}

/// The compiler of Tiny BASIC, as the tools use it.
#[derive(Clone, Copy, Drop)]
pub struct TinyBasic;

impl Compile for TinyBasic {
    ghost own = { templates };

    fn compile(
        &self,
        alloc: Global,
        source: &[u8],
        settings: CompileSettings,
    ) -> Result<Compiled, CompileError> {
        compile_within(alloc, source, settings)
    }
}

/// The PRG file of a source text, with the addresses of its lines. Refused, in this order: a text that is not a program,
/// an expression that needs more than 16 slots, a cost above [`MOST_COST`]; or memory runs out.
pub fn compile(alloc: Global, source: &[u8], options: Options) -> Result<Compiled, CompileError>
    // What the file's lines make is answered,
    ensures found { HasOutcome templates (by_cost options.seed) source.now result }
    // and whatever they make is what is answered.
    ensures only { (outcome : Outcome) → LinesMake source.now outcome → OutcomeAnswer templates (by_cost options.seed) outcome result }
    // A compiled file's code, loaded at $0801, keeps the program that its source makes, whatever the ROM does.
    ensures keeps { IfOk result (KeepsItsSource options.seed source.now) }
    // When it comes to the address that start_of answers for a line, the program begins that line, in the same state.
    ensures marks { IfOk result (MarksItsLines options.seed source.now) }
{
    compile_within(alloc, source, CompileSettings::by_cost(options.seed))
}

/// The PRG file of a source text, as `compile` makes it, but refused as too large only if its code and line table end
/// past `$9FFF`, whatever the program costs. The number of that refusal is the bytes that they take from `$0C00` on; if
/// they don't end below 65,536, it is 62,464, which they take at least.
pub fn compile_to_fit(
    alloc: Global,
    source: &[u8],
    options: Options,
) -> Result<Compiled, CompileError>
    // What the file's lines make is answered,
    ensures found { HasOutcome templates (by_memory options.seed) source.now result }
    // and whatever they make is what is answered.
    ensures only { (outcome : Outcome) → LinesMake source.now outcome → OutcomeAnswer templates (by_memory options.seed) outcome result }
    // If `compile` answers a program, it is the same one.
    ensures same { (compiled : Compiled) → HasOutcome templates (by_cost options.seed) source.now (Ok compiled) → GivesSame compiled result }
    // A compiled file's code, loaded at $0801, keeps the program that its source makes, whatever the ROM does.
    ensures keeps { IfOk result (KeepsItsSource options.seed source.now) }
    // When it comes to the address that start_of answers for a line, the program begins that line, in the same state.
    ensures marks { IfOk result (MarksItsLines options.seed source.now) }
{
    compile_within(alloc, source, CompileSettings::by_memory(options.seed))
}

/// The PRG file of a source text, refused as too large by either limit, and with or without signs: `compile` and
/// `compile_to_fit` in one.
pub fn compile_within(
    alloc: Global,
    source: &[u8],
    settings: CompileSettings,
) -> Result<Compiled, CompileError>
    ensures found { HasOutcome templates settings source.now result }
    ensures only { (outcome : Outcome) → SourceMakes settings.notation source.now outcome → OutcomeAnswer templates settings outcome result }
    // If no text has a brace or a bracket, what the lines make without signs is answered.
    ensures plain { LackSigns (lines_of_file source.now) → (outcome : Outcome) → LinesMake source.now outcome → OutcomeAnswer templates settings outcome result }
    ensures keeps { IfOk result (KeepsSourceIn settings.notation settings.seed source.now) }
    ensures marks { IfOk result (MarksLinesIn settings.notation settings.seed source.now) }
{
    let program = parse_in(alloc, settings.notation, source)?;
    compile_program(alloc, &program, settings)
}

// The PRG file of a program, if it is not too large.
fn compile_program(
    alloc: Global,
    program: &Program,
    settings: CompileSettings,
) -> Result<Compiled, CompileError>
    requires stated { AreStated (lines_of program.now) }
    requires rising { Rises 1 32768 (numbers (lines_of program.now)) }
    ensures answer { ProgramAnswer templates settings (lines_of program.now) result }
    ensures keeps { 1 ≤ length (lines_of program.now) → IfOk result (KeepsProgram settings.seed (lines_of program.now)) }
    ensures marks { 1 ≤ length (lines_of program.now) → IfOk result (MarksProgram settings.seed (lines_of program.now)) }
{
    let code = slot_code(alloc, program)?;
    match excess(program, settings.size) {
        Some(cost) => Err(CompileError::TooLarge(cost)),
        None => linked(alloc, program, &code, settings.seed),
    }
}

// What a program costs, if that is more than it may.
fn excess(program: &Program, size: SizeLimit) -> Option<u32>
    requires { cost.cost (lines_of program.now) < 4294967296 }
    ensures { IsExcess size (lines_of program.now) result }
{
    match size {
        SizeLimit::Cost => {
            let cost = cost(program);
            if cost > MOST_COST { Some(cost) } else { None }
        }
        SizeLimit::Memory => None,
    }
}

// A program's slot code.
fn slot_code(alloc: Global, program: &Program) -> Result<SlotCode, LowerError>
    requires stated { AreStated (lines_of program.now) }
    requires rising { Rises 1 32768 (numbers (lines_of program.now)) }
    ensures code { IfOk result (λ code. IsSlotCode (lines_of program.now) (code_of code)) }
    ensures refused { IfErr result (λ e. IsRefusal (lines_of program.now) e) }
{
    lower(alloc, program)
}
