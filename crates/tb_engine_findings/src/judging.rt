//! Whether a source is compiled, and if not, all the reasons.
ghost use Rattle.std.specs.Prelude.{◌≡◌, ◌≢◌, ◌<◌, ◌↔◌, [], None, Ok, IfOk, IsTrue};
ghost use Rattle.tb_basic_syntax.specs.PlainData.{lines_of};
ghost use Rattle.tb_basic_meaning.specs.Cost as costs;
ghost use Rattle.tb_engine_findings.specs.Agreement.{Agrees};
ghost use Rattle.tb_compiled.specs.Answers.{SourceMakes};
ghost use Rattle.tb_compiled.specs.Refusals.{IsExcess};
ghost use Rattle.tb_compiled.specs.declared.settings.SizeLimit.TheVariants.{Cost, Memory};
ghost use Rattle.tb_engine_findings.specs.Verdicts.{HasFaults, Judges, JudgesLines, JudgesProgram, MakesShallow, TellsSizeOf, deep_lines};

use crate::lines::read_lines;
use crate::settings::CheckSettings;
use std::alloc::{AllocError, Global};
use tb_basic_meaning::{SLOT_COUNT, statement_need};
use tb_basic_syntax::Program;
use tb_compiled::{Compile, CompileError, CompileSettings, MOST_COST, Notation, SizeLimit, cost};
use tb_parser::SourceError;

/// What is wrong with a program.
#[derive(Drop)]
pub struct ProgramFaults {
    /// The numbers of the lines with an expression that is too deep.
    pub deep: Vec<u16>,
    /// What tells the program's size, if that is too much: its cost; or, by the memory, the bytes that its code and line
    /// table take, which only a program without such lines has.
    pub too_large: Option<u32>,
}

impl ProgramFaults {
    // Whether nothing is wrong.
    fn is_empty(&self) -> bool
        ensures { IsTrue result ↔ ((self.now.deep.items ≡ []) × (self.now.too_large ≡ None)) }
    {
        self.deep.is_empty() && self.too_large.is_none()
    }
}

/// What becomes of a source.
#[derive(Drop)]
pub enum Verdict {
    /// These lines are bad.
    BadLines(Vec<SourceError>),
    /// No line is left at the end.
    Empty,
    /// This is wrong with its program.
    Refused(ProgramFaults),
    /// It is compiled: its program.
    Accepted(Program),
}

/// The seed that sizes are measured with: with any other they are the same.
const SEED: u16 = 1;

/// Judges a source. Fails only if memory runs out.
pub fn judge<K: Compile>(
    compiler: &K,
    alloc: Global,
    source: &[u8],
    settings: CheckSettings,
) -> Result<Verdict, AllocError>
    ensures judged { IfOk result (Judges K.own settings source.now) }
    // What the compiler answers agrees with it.
    ensures agrees { IfOk result (Agrees K.own settings source.now) }
{
    let lines = read_lines(alloc, source, settings.notation)?;
    verdict_on(compiler, alloc, source, lines.bad, lines.program, settings)
}

/// Judges the bad lines of a source and the program that its other lines make.
pub fn verdict_on<K: Compile>(
    compiler: &K,
    alloc: Global,
    source: &[u8],
    bad: Vec<SourceError>,
    program: Program,
    settings: CheckSettings,
) -> Result<Verdict, AllocError>
    requires small { bad.items ≡ [] → costs.cost (lines_of program) < 4294967296 }
    requires made { bad.items ≡ [] → program ≢ [] → SourceMakes settings.notation source.now (Ok (lines_of program)) }
    ensures { IfOk result (JudgesLines K.own settings.size bad.items program) }
{
    if !bad.is_empty() {
        Ok(Verdict::BadLines(bad))
    } else if program.is_empty() {
        Ok(Verdict::Empty)
    } else {
        judge_program(compiler, alloc, source, program, settings)
    }
}

fn judge_program<K: Compile>(
    compiler: &K,
    alloc: Global,
    source: &[u8],
    program: Program,
    settings: CheckSettings,
) -> Result<Verdict, AllocError>
    requires small { costs.cost (lines_of program) < 4294967296 }
    requires made { SourceMakes settings.notation source.now (Ok (lines_of program)) }
    ensures { IfOk result (JudgesProgram K.own settings.size (lines_of program)) }
{
    let faults = faults_of(compiler, alloc, source, &program, settings)?;
    Ok(if faults.is_empty() {
        Verdict::Accepted(program)
    } else {
        Verdict::Refused(faults)
    })
}

fn faults_of<K: Compile>(
    compiler: &K,
    alloc: Global,
    source: &[u8],
    program: &Program,
    settings: CheckSettings,
) -> Result<ProgramFaults, AllocError>
    requires small { costs.cost (lines_of program.now) < 4294967296 }
    requires made { SourceMakes settings.notation source.now (Ok (lines_of program.now)) }
    ensures { IfOk result (HasFaults K.own settings.size (lines_of program.now)) }
{
    let deep = deep_lines(alloc, program)?;
    let too_large = match settings.size {
        SizeLimit::Cost => excess(program),
        SizeLimit::Memory if deep.is_empty() => overrun(
            compiler,
            alloc,
            source,
            settings.notation,
        )?,
        SizeLimit::Memory => None,
    };
    Ok(ProgramFaults { deep, too_large })
}

// The lines with an expression that is too deep.
fn deep_lines(alloc: Global, program: &Program) -> Result<Vec<u16>, AllocError>
    ensures { IfOk result (λ deep. deep.items ≡ deep_lines (lines_of program.now)) }
{
    let mut deep = Vec::new(alloc);
    for (number, statement) in program.lines() {
        if statement_need(statement) > SLOT_COUNT {
            deep.push(*number)?;
        }
    }
    Ok(deep)
}

// What a program costs, if that is too much.
fn excess(program: &Program) -> Option<u32>
    requires { costs.cost (lines_of program.now) < 4294967296 }
    ensures { IsExcess Cost (lines_of program.now) result }
{
    let cost = cost(program);
    if cost > MOST_COST { Some(cost) } else { None }
}

// The bytes that a source's program takes, if those are too many. What the compiler promises is of sources, so the source
// is read once more.
fn overrun<K: Compile>(
    compiler: &K,
    alloc: Global,
    source: &[u8],
    notation: Notation,
) -> Result<Option<u32>, AllocError>
    requires { MakesShallow notation source.now }
    ensures { IfOk result (TellsSizeOf K.own notation Memory source.now) }
{
    let settings = CompileSettings {
        seed: SEED,
        size: SizeLimit::Memory,
        notation,
    };
    match compiler.compile(alloc, source, settings) {
        Ok(_) => Ok(None),
        Err(CompileError::TooLarge(bytes)) => Ok(Some(bytes)),
        Err(CompileError::NoMemory) => Err(AllocError),
        Err(CompileError::Source(_)) => unreachable!(),
        Err(CompileError::Lower(_)) => unreachable!(),
    }
}
