//! Lines: a row, or two of which the second goes on the line of the first.
ghost use Rattle.std.specs.Prelude.{◌≡◌, ◌<◌, ◌≤◌, ◌+◌, ◌*◌, true};
ghost use Rattle.tb_machine_screen.specs.Lines as lines;

use super::{COLUMNS, ROWS, Screen};
use crate::cells::blank;
use crate::shifting::{open, scroll};

// Whether a row goes on the line above.
#[tactic(auto, unfolding(crate::specs::Lines::is_joined))]
pub fn is_joined(screen: &Screen, row: usize) -> bool
    ensures value { result ≡ lines.is_joined row screen.now }
    ensures within { result ≡ true → row < 25 }
{
    row < ROWS && screen.joined[row]
}

// The place of the cursor.
#[tactic(auto, unfolding(crate::specs::Lines::place))]
pub fn place(screen: &Screen) -> usize
    ensures value { result ≡ lines.place screen.now }
    ensures within { result < 1000 }
    ensures in_row { result ≤ screen.now.row * 40 + 39 }
{
    screen.row * COLUMNS + screen.column
}

// The last row of the cursor's line.
#[tactic(auto, unfolding(crate::specs::Lines::last_row))]
fn last_row(screen: &Screen) -> usize
    ensures value { result ≡ lines.last_row screen.now }
    ensures within { result < 25 }
    ensures after { screen.now.row ≤ result }
{
    if is_joined(screen, screen.row + 1) {
        screen.row + 1
    } else {
        screen.row
    }
}

// The last place of the cursor's line.
#[tactic(auto, unfolding(crate::specs::Lines::line_end))]
pub fn line_end(screen: &Screen) -> usize
    ensures value { result ≡ lines.line_end screen.now }
    ensures within { result < 1000 }
    ensures after { screen.now.row * 40 + 39 ≤ result }
{
    last_row(screen) * COLUMNS + (COLUMNS - 1)
}

// Whether the cursor's line has two rows.
#[tactic(auto, unfolding(crate::specs::Lines::has_two_rows))]
pub fn has_two_rows(screen: &Screen) -> bool
    ensures { result ≡ lines.has_two_rows screen.now }
{
    is_joined(screen, screen.row) || is_joined(screen, screen.row + 1)
}

// Scrolls by a row.
#[tactic(auto, unfolding(crate::specs::Lines::row_scrolled))]
fn scroll_row(screen: &mut Screen)
    ensures { screen.new ≡ lines.row_scrolled screen.old }
{
    scroll(&mut screen.cells, COLUMNS, blank(screen.colour));
    scroll(&mut screen.joined, 1, false);
}

// Scrolls by the line at the top: how many rows it has.
#[tactic(auto, unfolding(crate::specs::Lines::line_scrolled, crate::specs::Lines::top_rows))]
fn scroll_line(screen: &mut Screen) -> usize
    ensures new { screen.new ≡ lines.line_scrolled screen.old }
    ensures value { result ≡ lines.top_rows screen.old }
    ensures some { (1 ≤ result) × (result ≤ 2) }
{
    let joined = is_joined(screen, 1);
    scroll_row(screen);
    if joined {
        scroll_row(screen);
        2
    } else {
        1
    }
}

// One row down, in the same column; at the bottom the screen scrolls first.
#[tactic(auto, unfolding(crate::specs::Lines::on_row_below, crate::specs::Lines::in_row))]
pub fn row_below(screen: &mut Screen)
    ensures { screen.new ≡ lines.on_row_below screen.old }
{
    if screen.row + 1 < ROWS {
        screen.row += 1;
    } else {
        let rows = scroll_line(screen);
        screen.row = ROWS - rows;
    }
}

// To the first row of the next line, in the same column.
#[tactic(auto, unfolding(crate::specs::Lines::on_next_line, crate::specs::Lines::in_row))]
pub fn next_line(screen: &mut Screen)
    ensures { screen.new ≡ lines.on_next_line screen.old }
{
    screen.row = last_row(screen);
    row_below(screen);
}

// Gives the cursor's line of one row a second one, below the cursor; what was there moves down. At the bottom the screen
// scrolls.
#[tactic(auto, unfolding(crate::specs::Lines::row_opened, crate::specs::Lines::in_row, crate::specs::Lines::row_put_below))]
pub fn open_row(screen: &mut Screen)
    ensures { screen.new ≡ lines.row_opened screen.old }
{
    if screen.row == ROWS - 1 {
        let rows = scroll_line(screen);
        screen.row = ROWS - 1 - rows;
    }
    let below = screen.row + 1;
    open(
        &mut screen.cells,
        below * COLUMNS,
        COLUMNS,
        blank(screen.colour),
    );
    open(&mut screen.joined, below, 1, true);
}

// One place on, after a character was shown: a line of one row gets a second one, a line of two is left.
#[tactic(auto, unfolding(crate::specs::Lines::advanced, crate::specs::Lines::at_left))]
pub fn advance(screen: &mut Screen)
    ensures { screen.new ≡ lines.advanced screen.old }
{
    if screen.column + 1 < COLUMNS {
        screen.column += 1;
        return;
    }
    if !has_two_rows(screen) {
        open_row(screen);
    }
    screen.column = 0;
    row_below(screen);
}
