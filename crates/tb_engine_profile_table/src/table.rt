//! The table of a profile.
ghost use Rattle.std.specs.Prelude.{◌≡◌, IfOk, map, flat_map};
ghost use Rattle.tb_words.specs.Texts.{AppendsBytes};
ghost use Rattle.tb_engine_profile_table.specs.Lines.{line_pair};
ghost use Rattle.tb_engine_profile_table.specs.Figures.{percent, right, share};
ghost use Rattle.tb_engine_profile_table.specs.Table.{counts, figures_of, figures_text, line_text, named, numbered, sum_of, table_of};

use crate::figures::{percent, push_column, push_right, share};
use crate::lines::Line;
use crate::rows::{Row, Whole};
use std::alloc::{AllocError, Global};
use tb_basic_source::push_shown;

/// The figures of a row: how often its line was begun, and the instructions and cycles that it took.
#[derive(Clone, Copy, Drop)]
pub struct Figures {
    pub times: u128,
    pub instructions: u64,
    pub cycles: u64,
}

const HEAD: &[u8] = b" line      times instructions        cycles   share  statement\n";

/// The widths of the columns of times, instructions, cycles and share.
const TIMES: usize = 11;

const INSTRUCTIONS: usize = 13;

const CYCLES: usize = 14;

const SHARE: usize = 8;

/// The width of the column of a line's number.
const NUMBER: usize = 5;

/// The figures of a row.
pub fn figures_of(row: &Row) -> Figures
    ensures { result ≡ figures_of row.now }
{
    Figures {
        times: u128::from(row.times),
        instructions: row.instructions,
        cycles: row.cycles,
    }
}

/// The row of the sum: the times of all lines, and the instructions and cycles of the whole run.
pub fn sum_of(whole: &Whole, lines: &[Line<'_>]) -> Figures
    ensures { result ≡ sum_of whole.now (map line_pair lines.now) }
{
    let mut times = 0u128;
    for line in lines {
        times += u128::from(line.row.times);
    }
    Figures {
        times,
        instructions: whole.instructions,
        cycles: whole.cycles,
    }
}

// Appends the times, instructions and cycles of a row, each in its column.
#[tactic(auto, unfolding(crate::specs::Table::counts))]
fn push_counts(alloc: Global, text: &mut Vec<u8>, figures: &Figures) -> Result<(), AllocError>
    ensures { AppendsBytes result text.old text.new (counts figures.now) }
{
    push_column(alloc, text, TIMES, figures.times)?;
    push_column(alloc, text, INSTRUCTIONS, u128::from(figures.instructions))?;
    push_column(alloc, text, CYCLES, u128::from(figures.cycles))
}

// Appends the share of all cycles, in its column.
fn push_share(alloc: Global, text: &mut Vec<u8>, cycles: u64, all: u64) -> Result<(), AllocError>
    ensures { AppendsBytes result text.old text.new (right 8 (percent (share cycles all))) }
{
    push_right(text, SHARE, percent(alloc, share(cycles, all))?.as_bytes())
}

// Appends the name of a row, and its figures after it.
#[tactic(auto, unfolding(crate::specs::Table::figures_text))]
fn push_figures(
    alloc: Global,
    text: &mut Vec<u8>,
    name: &[u8],
    figures: &Figures,
    all: u64,
) -> Result<(), AllocError>
    ensures { AppendsBytes result text.old text.new (figures_text name.now figures.now all) }
{
    push_right(text, NUMBER, name)?;
    push_counts(alloc, text, figures)?;
    push_share(alloc, text, figures.cycles, all)
}

// Appends the number of a line, and its figures.
#[tactic(auto, unfolding(crate::specs::Table::numbered))]
fn push_numbered(alloc: Global, text: &mut Vec<u8>, row: &Row, all: u64) -> Result<(), AllocError>
    ensures { AppendsBytes result text.old text.new (numbered row.now all) }
{
    let number = format!(in alloc; "{}", row.line)?;
    push_figures(alloc, text, number.as_bytes(), &figures_of(row), all)
}

// Appends the row of a line.
#[tactic(auto, unfolding(crate::specs::Table::line_text))]
fn push_line(alloc: Global, text: &mut Vec<u8>, line: &Line<'_>, all: u64) -> Result<(), AllocError>
    ensures { AppendsBytes result text.old text.new (line_text all (line_pair line.now)) }
{
    push_numbered(alloc, text, &line.row, all)?;
    text.extend_from_slice(b"  ")?;
    push_shown(text, line.statement)?;
    text.extend_from_slice(b"\n")
}

// Appends the rows of lines.
fn push_lines(
    alloc: Global,
    text: &mut Vec<u8>,
    lines: &[Line<'_>],
    all: u64,
) -> Result<(), AllocError>
    ensures { AppendsBytes result text.old text.new (flat_map (line_text all) (map line_pair lines.now)) }
{
    for line in lines {
        push_line(alloc, text, line, all)?;
    }
    Ok(())
}

// Appends a row without a statement.
#[tactic(auto, unfolding(crate::specs::Table::named))]
fn push_named(
    alloc: Global,
    text: &mut Vec<u8>,
    name: &[u8],
    figures: &Figures,
    all: u64,
) -> Result<(), AllocError>
    ensures { AppendsBytes result text.old text.new (named name.now figures.now all) }
{
    push_figures(alloc, text, name, figures, all)?;
    text.extend_from_slice(b"\n")
}

// Appends the whole table.
fn push_table(
    alloc: Global,
    text: &mut Vec<u8>,
    whole: &Whole,
    lines: &[Line<'_>],
) -> Result<(), AllocError>
    ensures { AppendsBytes result text.old text.new (table_of whole.now (map line_pair lines.now)) }
{
    text.extend_from_slice(HEAD)?;
    push_named(
        alloc,
        text,
        b"start",
        &figures_of(&whole.start),
        whole.cycles,
    )?;
    push_lines(alloc, text, lines, whole.cycles)?;
    push_named(alloc, text, b"sum", &sum_of(whole, lines), whole.cycles)
}

/// The table as a text: a row for what came before the first line, one for each line, and one for the whole run. Fails
/// only if memory runs out.
pub fn table_text(alloc: Global, whole: &Whole, lines: &[Line<'_>]) -> Result<Vec<u8>, AllocError>
    ensures { IfOk result (λ text. text.items ≡ table_of whole.now (map line_pair lines.now)) }
{
    let mut text = Vec::new(alloc);
    push_table(alloc, &mut text, whole, lines)?;
    Ok(text)
}
