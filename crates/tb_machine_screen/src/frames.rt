//! Frames: the text that shows a screen.
ghost use Rattle.std.specs.Prelude.{◌≡◌, ◌≤◌, ◌++◌, ◌∷◌, [], IfOk, OnOk, length, string_bytes};
ghost use Rattle.tb_machine_screen.specs.Frames as frames;
ghost use Rattle.tb_machine_screen.specs.Frames.{Shows};
ghost use Rattle.tb_machine_screen.specs.Looks.{pen_of, pen_for};
ghost use Rattle.tb_machine_screen.specs.Strokes.{spelled_all};
ghost use Rattle.tb_machine_screen.specs.Terminals.{Terminal, after};

use crate::glyphs::{fore_of, glyph_of};
use crate::strokes::{Pen, Stroke};
use crate::{COLUMNS, Cell, CharacterSet, Colour, ROWS, Screen};
use std::alloc::{AllocError, Global};

// Appends the text of a stroke.
#[tactic(auto, using(crate::proofs::Spelling::spelled_one))]
fn push(text: &mut String, alloc: Global, stroke: Stroke) -> Result<(), AllocError>
    ensures { OnOk result (string_bytes text.new ≡ string_bytes text.old ++ spelled_all (stroke ∷ [])) }
{
    text.push_str(&format!(in alloc; "{stroke}")?)
}

// The pen for a colour of the machine.
fn pen_for(colour: Colour, reverse: bool) -> Pen
    ensures { result ≡ pen_for colour reverse }
{
    Pen {
        fore: fore_of(colour),
        reverse,
    }
}

// The pen of a cell.
fn pen_of(cell: Cell) -> Pen
    ensures { result ≡ pen_of cell }
{
    pen_for(cell.colour, 128 <= cell.code)
}

// Whether two pens are the same.
fn is_same(used: Pen, pen: Pen) -> bool
    ensures { result ≡ frames.same_pen used pen }
{
    used.fore == pen.fore && used.reverse == pen.reverse
}

// Appends the strokes of a cell, where a pen is in use.
#[tactic(auto, using(crate::proofs::Spelling::spelled_more), unfolding(crate::specs::Frames::taken_up))]
fn push_cell(
    text: &mut String,
    alloc: Global,
    set: CharacterSet,
    used: Pen,
    cell: Cell,
) -> Result<(), AllocError>
    ensures { OnOk result (string_bytes text.new ≡ string_bytes text.old ++ spelled_all (frames.one_cell set used cell)) }
{
    let pen = pen_of(cell);
    if !is_same(used, pen) {
        push(text, alloc, Stroke::Paint(pen))?;
    }
    push(text, alloc, Stroke::Put(glyph_of(cell.code, set)))
}

// Appends the strokes of cells in a row, where the pen of each row's beginning is in use.
#[tactic(auto, using(crate::proofs::Spelling::spelled_more), unfolding(crate::specs::Frames::cell_strokes))]
fn push_cells(
    text: &mut String,
    alloc: Global,
    set: CharacterSet,
    cells: &[Cell],
) -> Result<(), AllocError>
    ensures { OnOk result (string_bytes text.new ≡ string_bytes text.old ++ spelled_all (frames.cell_strokes set frames.first_pen cells.now)) }
{
    let mut used = pen_for(Colour::LightBlue, false);
    for cell in cells {
        push_cell(text, alloc, set, used, *cell)?;
        used = pen_of(*cell);
    }
    Ok(())
}

// Appends the strokes of a row.
#[tactic(auto, using(crate::proofs::Spelling::spelled_more))]
fn push_row(
    text: &mut String,
    alloc: Global,
    row: u8,
    set: CharacterSet,
    cells: &[Cell],
) -> Result<(), AllocError>
    ensures { OnOk result (string_bytes text.new ≡ string_bytes text.old ++ spelled_all (frames.one_row row set cells.now)) }
{
    push(text, alloc, Stroke::MoveTo { row, column: 0 })?;
    push(
        text,
        alloc,
        Stroke::Paint(pen_for(Colour::LightBlue, false)),
    )?;
    push_cells(text, alloc, set, cells)
}

// Appends the strokes of all rows.
#[tactic(auto, using(crate::proofs::Spelling::spelled_more), unfolding(crate::specs::Frames::row_strokes))]
fn push_rows(
    text: &mut String,
    alloc: Global,
    set: CharacterSet,
    cells: &[Cell],
) -> Result<(), AllocError>
    requires { length cells.now ≡ 1000 }
    ensures { OnOk result (string_bytes text.new ≡ string_bytes text.old ++ spelled_all (frames.row_strokes 25 set cells.now)) }
{
    for row in 0..ROWS {
        let start = row * COLUMNS;
        push_row(text, alloc, row as u8, set, &cells[start..start + COLUMNS])?;
    }
    Ok(())
}

/// The text after which a terminal of at least 40 columns shows the screen, whatever it showed before. Fails only if
/// memory runs out.
#[tactic(auto, using(crate::proofs::Spelling::spelled_more, crate::proofs::Rows::frame_shows), unfolding(crate::specs::Frames::frame_strokes))]
pub fn frame(alloc: Global, screen: &Screen) -> Result<String, AllocError>
    ensures text { IfOk result (λ t. string_bytes t ≡ frames.frame_of screen.now) }
    ensures shown { OnOk result ((t : Terminal) → 40 ≤ t.width → Shows screen.now (after (frames.frame_strokes screen.now) t)) }
{
    let mut text = String::new(alloc);
    push(&mut text, alloc, Stroke::Plain)?;
    push(&mut text, alloc, Stroke::Clear)?;
    push_rows(&mut text, alloc, screen.set(), screen.cells())?;
    push(
        &mut text,
        alloc,
        Stroke::MoveTo {
            row: screen.row() as u8,
            column: screen.column() as u8,
        },
    )?;
    push(
        &mut text,
        alloc,
        Stroke::Paint(pen_for(screen.colour(), screen.reverse())),
    )?;
    Ok(text)
}

/// The text that leaves a terminal in its own colours, with the cursor below the screen. Fails only if memory runs out.
#[tactic(auto, using(crate::proofs::Spelling::spelled_more))]
pub fn closing(alloc: Global) -> Result<String, AllocError>
    ensures { IfOk result (λ t. string_bytes t ≡ frames.closing_of) }
{
    let mut text = String::new(alloc);
    push(&mut text, alloc, Stroke::Plain)?;
    push(&mut text, alloc, Stroke::MoveTo { row: 24, column: 0 })?;
    text.push_str("\r\n")?;
    Ok(text)
}
