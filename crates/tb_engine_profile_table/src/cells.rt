//! The cells and rows of a page.
ghost use Rattle.std.specs.Prelude.{◌≡◌, ◌<◌, ◌^◌, flat_map};
ghost use Rattle.tb_words.specs.Texts.{AppendsBytes};
ghost use Rattle.tb_engine_profile_table.specs.Cells.{bar, bar_cell, cell, cells, each_cell, escaped, opening, row_text, share_cell, shade, source};
ghost use Rattle.tb_engine_profile_table.specs.Cells.{sum_row, text_row};

use crate::figures::{each, percent, push_grouped, push_number, share};
use crate::rows::Row;
use crate::table::{Figures, figures_of};
use std::alloc::{AllocError, Global};
use tb_basic_source::shown;

/// What the figures of a row are compared with: the cycles of the whole run, and those of the row that took most.
#[derive(Clone, Copy, Drop)]
pub struct Scale {
    pub all: u64,
    pub largest: u64,
}

/// Appends a byte of a text, escaped if HTML would read it otherwise.
#[tactic(auto, unfolding(crate::specs::Cells::escaped))]
pub fn push_escaped(text: &mut Vec<u8>, byte: u8) -> Result<(), AllocError>
    ensures { AppendsBytes result text.old text.new (escaped byte) }
{
    match byte {
        b'&' => text.extend_from_slice(b"&amp;"),
        b'<' => text.extend_from_slice(b"&lt;"),
        b'>' => text.extend_from_slice(b"&gt;"),
        b'"' => text.extend_from_slice(b"&quot;"),
        b'\'' => text.extend_from_slice(b"&#39;"),
        other => text.extend_from_slice(&[shown(other)]),
    }
}

/// Appends the bytes of a text, each escaped if need be.
pub fn push_all_escaped(text: &mut Vec<u8>, bytes: &[u8]) -> Result<(), AllocError>
    ensures { AppendsBytes result text.old text.new (flat_map escaped bytes.now) }
{
    for byte in bytes {
        push_escaped(text, *byte)?;
    }
    Ok(())
}

/// Appends the cell of a statement.
pub fn push_source(text: &mut Vec<u8>, statement: &[u8]) -> Result<(), AllocError>
    ensures { AppendsBytes result text.old text.new (source statement.now) }
{
    text.extend_from_slice(b"<td class=\"source\">")?;
    push_all_escaped(text, statement)?;
    text.extend_from_slice(b"</td>")
}

// Appends the cell of a number, its thousands marked.
#[tactic(auto, unfolding(crate::specs::Cells::cell))]
fn push_cell(alloc: Global, text: &mut Vec<u8>, number: u128) -> Result<(), AllocError>
    ensures { AppendsBytes result text.old text.new (cell number) }
{
    text.extend_from_slice(b"<td>")?;
    push_grouped(alloc, text, number)?;
    text.extend_from_slice(b"</td>")
}

// Appends the cell of the cycles of each time, which is empty if there are none.
#[tactic(auto, unfolding(crate::specs::Cells::each_cell))]
fn push_each(alloc: Global, text: &mut Vec<u8>, cycles: u64, times: u128) -> Result<(), AllocError>
    ensures { AppendsBytes result text.old text.new (each_cell cycles times) }
{
    if times == 0 {
        text.extend_from_slice(b"<td></td>")
    } else {
        push_cell(alloc, text, each(cycles, times))
    }
}

// Appends the cells of times, instructions, cycles, and cycles a time.
#[tactic(auto, unfolding(crate::specs::Cells::cells))]
fn push_cells(alloc: Global, text: &mut Vec<u8>, figures: &Figures) -> Result<(), AllocError>
    ensures { AppendsBytes result text.old text.new (cells figures.now) }
{
    push_cell(alloc, text, figures.times)?;
    push_cell(alloc, text, u128::from(figures.instructions))?;
    push_cell(alloc, text, u128::from(figures.cycles))?;
    push_each(alloc, text, figures.cycles, figures.times)
}

// Appends the cell of the share of all cycles.
fn push_share(alloc: Global, text: &mut Vec<u8>, thousandths: u128) -> Result<(), AllocError>
    ensures { AppendsBytes result text.old text.new (share_cell thousandths) }
{
    text.extend_from_slice(b"<td>")?;
    text.extend_from_slice(percent(alloc, thousandths)?.as_bytes())?;
    text.extend_from_slice(b"</td>")
}

// Appends a cell with a bar, which is ten em long for the row that took most.
#[tactic(auto, unfolding(crate::specs::Cells::bar))]
fn push_bar(alloc: Global, text: &mut Vec<u8>, part: u128) -> Result<(), AllocError>
    ensures { AppendsBytes result text.old text.new (bar part) }
{
    text.extend_from_slice(b"<td class=\"bar\"><span style=\"width: ")?;
    push_number(alloc, text, part / 100)?;
    text.extend_from_slice(b".")?;
    push_number(alloc, text, part % 100 / 10)?;
    text.extend_from_slice(b"em\"></span></td>")
}

// Appends the cell of a row's bar; words are there if the line never ran.
#[tactic(auto, unfolding(crate::specs::Cells::bar_cell))]
fn push_bar_cell(
    alloc: Global,
    text: &mut Vec<u8>,
    times: u64,
    part: u128,
) -> Result<(), AllocError>
    ensures { AppendsBytes result text.old text.new (bar_cell times part) }
{
    if times == 0 {
        text.extend_from_slice(b"<td class=\"bar\">never ran</td>")
    } else {
        push_bar(alloc, text, part)
    }
}

// Appends the class of a row: its shade, from 0 (no cycles) to 9 (the most), or that its line never ran.
#[tactic(auto, unfolding(crate::specs::Cells::shade))]
fn push_shade(alloc: Global, text: &mut Vec<u8>, times: u64, part: u128) -> Result<(), AllocError>
    requires { part < 2 ^ 80 }
    ensures { AppendsBytes result text.old text.new (shade times part) }
{
    if times == 0 {
        return text.extend_from_slice(b"never");
    }
    text.extend_from_slice(b"h")?;
    push_number(alloc, text, (part * 9 + 999) / 1000)
}

// Appends the beginning of a row: its class and its name.
fn push_opening(
    alloc: Global,
    text: &mut Vec<u8>,
    times: u64,
    part: u128,
    name: &[u8],
) -> Result<(), AllocError>
    requires { part < 2 ^ 80 }
    ensures { AppendsBytes result text.old text.new (opening times part name.now) }
{
    text.extend_from_slice(b"<tr class=\"")?;
    push_shade(alloc, text, times, part)?;
    text.extend_from_slice(b"\"><th scope=\"row\">")?;
    text.extend_from_slice(name)?;
    text.extend_from_slice(b"</th>")
}

/// Appends a row up to its statement: its name, its figures and its bar.
#[tactic(auto, unfolding(crate::specs::Cells::row_text))]
pub fn push_row(
    alloc: Global,
    text: &mut Vec<u8>,
    name: &[u8],
    row: &Row,
    scale: Scale,
) -> Result<(), AllocError>
    ensures { AppendsBytes result text.old text.new (row_text name.now row.now scale) }
{
    let part = share(row.cycles, scale.largest);
    push_opening(alloc, text, row.times, part, name)?;
    push_cells(alloc, text, &figures_of(row))?;
    push_share(alloc, text, share(row.cycles, scale.all))?;
    push_bar_cell(alloc, text, row.times, part)
}

/// Appends a row of a number.
pub fn push_sum(
    alloc: Global,
    text: &mut Vec<u8>,
    name: &[u8],
    number: u128,
) -> Result<(), AllocError>
    ensures { AppendsBytes result text.old text.new (sum_row name.now number) }
{
    text.extend_from_slice(b"<tr><th scope=\"row\">")?;
    text.extend_from_slice(name)?;
    text.extend_from_slice(b"</th>")?;
    push_cell(alloc, text, number)?;
    text.extend_from_slice(b"</tr>\n")
}

/// Appends a row of a text.
pub fn push_text_row(text: &mut Vec<u8>, name: &[u8], said: &[u8]) -> Result<(), AllocError>
    ensures { AppendsBytes result text.old text.new (text_row name.now said.now) }
{
    text.extend_from_slice(b"<tr><th scope=\"row\">")?;
    text.extend_from_slice(name)?;
    text.extend_from_slice(b"</th><td class=\"text\">")?;
    push_all_escaped(text, said)?;
    text.extend_from_slice(b"</td></tr>\n")
}
