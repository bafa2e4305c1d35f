//! From slot code to a PRG file.
ghost use Rattle.std.specs.Prelude.{◌≡◌, ◌≤◌, ◌+◌, IfOk, IfErr, Some, is_some, length, map, true};
ghost use Rattle.tb_asm.specs.Layout.{address_in};
ghost use Rattle.tb_basic_syntax.specs.PlainData.{lines_of};
ghost use Rattle.tb_basic_syntax.specs.Source.{numbers};
ghost use Rattle.tb_lower.specs.PlainData.{code_of};
ghost use Rattle.tb_runtime16.specs.Addresses.{PROLOGUE_AT};
ghost use Rattle.tb_assembly_settling.specs.Settled.{IsLaid};
ghost use Rattle.tb_compiler_templates.specs.Labels.{label_of};
ghost use Rattle.tb_compiler_program.specs.Program.{program_code};
ghost use Rattle.tb_codegen.specs.Compiled.{AreKnown, IsLinked, starts_in};
ghost use Rattle.tb_compiled.specs.Compiled.{pair_of};
ghost use Rattle.tb_codegen.specs.Coded.{IsListed, IsSlotCode, IsTooLong};
ghost use Rattle.tb_compiled.specs.Refusals.{told_of};
ghost use Rattle.tb_compiled.specs.Theorem.{KeepsProgram, MarksProgram};

use std::alloc::{AllocError, Global};
use tb_asm::{AsmErrorKind, Image};
use tb_assembly_settling::assemble_settled;
use tb_basic_meaning::warnings;
use tb_basic_syntax::Program;
use tb_compiled::{CompileError, Compiled, LineStart};
use tb_compiled_kept::LINES_AT;
use tb_compiler_program::program_items;
use tb_compiler_templates::{Target, label};
use tb_lower::{SlotCode, SlotLine};
use tb_prg::write;
use tb_runtime16::BLOCK_AT;

/// The bytes from the block's address on up to `$9FFF`.
const ROOM: usize = 0xA000 - BLOCK_AT as usize;

/// The bytes of the block.
const BEFORE_LINES: usize = (LINES_AT - BLOCK_AT) as usize;

/// What is told of code that does not end below 65,536: it takes this many bytes at least.
const MOST_TOLD: usize = 0x1_0000 - LINES_AT as usize;

// The PRG file of a program, if its code and line table end by `$9FFF`.
pub fn linked(
    alloc: Global,
    program: &Program,
    code: &SlotCode,
    seed: u16,
) -> Result<Compiled, CompileError>
    requires { IsSlotCode (lines_of program.now) (code_of code.now) }
    ensures compiled { IfOk result (IsLinked seed (lines_of program.now)) }
    ensures keeps { 1 ≤ length (lines_of program.now) → IfOk result (KeepsProgram seed (lines_of program.now)) }
    ensures marks { 1 ≤ length (lines_of program.now) → IfOk result (MarksProgram seed (lines_of program.now)) }
    ensures refused { IfErr result (IsTooLong seed (code_of code.now)) }
{
    let image = fitted(alloc, code, seed)?;
    let prg = write(alloc, &image)?;
    let starts = line_starts(alloc, &image, code.lines())?;
    let table = label_address(&image, Target::Table);
    Ok(Compiled::new(prg, starts, table, warnings(alloc, program)?))
}

// The image of slot code, if it ends by `$9FFF`.
fn fitted(alloc: Global, code: &SlotCode, seed: u16) -> Result<Image, CompileError>
    requires { IsListed (code_of code.now) }
    ensures laid { IfOk result (λ image. IsLaid PROLOGUE_AT (program_code seed (code_of code.now)) image.at
        image.bytes.items image.labels.entries) }
    ensures fits { IfOk result (λ image. PROLOGUE_AT + length image.bytes.items ≤ 0xA000) }
    ensures refused { IfErr result (IsTooLong seed (code_of code.now)) }
{
    let items = program_items(alloc, seed, code)?;
    match assemble_settled(alloc, BLOCK_AT, &items) {
        Ok(image) => {
            if image.bytes.len() > ROOM {
                return Err(CompileError::TooLarge(told(image.bytes.len() - BEFORE_LINES)));
            }
            Ok(image)
        }
        Err(e) => match e.kind {
            AsmErrorKind::NoMemory => Err(CompileError::NoMemory),
            _ => Err(CompileError::TooLarge(told(MOST_TOLD))),
        },
    }
}

// The number that a refusal tells of code that takes more bytes than there are.
fn told(bytes: usize) -> u32
    ensures { result ≡ told_of bytes }
{
    if bytes < MOST_TOLD {
        bytes as u32
    } else {
        MOST_TOLD as u32
    }
}

// The address of a label of the image.
fn label_address(image: &Image, target: Target) -> u16
    requires { is_some (address_in image.now.labels.entries (label_of target)) ≡ true }
    ensures { address_in image.now.labels.entries (label_of target) ≡ Some result }
{
    let Some(at) = image.address_of(&label(target)) else {
        unreachable!()
    };
    at
}

// Where the code of each line begins.
fn line_starts(
    alloc: Global,
    image: &Image,
    lines: &[SlotLine],
) -> Result<Vec<LineStart>, AllocError>
    requires { AreKnown image.now.labels.entries (numbers (code_of lines.now)) }
    ensures { IfOk result (λ starts. map pair_of starts.items ≡ starts_in image.now.labels.entries (numbers (code_of lines.now))) }
{
    let mut starts = Vec::new(alloc);
    for line in lines {
        let number = line.number;
        let at = label_address(image, Target::Line(number));
        starts.push(LineStart { number, at })?;
    }
    Ok(starts)
}
