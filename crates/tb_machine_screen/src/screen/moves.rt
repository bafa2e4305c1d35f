//! Moves of the cursor, and what DEL and INST do.
ghost use Rattle.std.specs.Prelude.{◌≡◌};
ghost use Rattle.tb_machine_screen.specs.Moves as moves;

use super::lines::{has_two_rows, line_end, open_row, place, row_below};
use super::{COLUMNS, PLACES, ROWS, Screen};
use crate::cells::{SPACE, blank};
use crate::shifting::{pull, push};

// To the top left.
#[tactic(auto, unfolding(crate::specs::Moves::at_home))]
pub fn home(screen: &mut Screen)
    ensures { screen.new ≡ moves.at_home screen.old }
{
    screen.row = 0;
    screen.column = 0;
}

// Blanks all, and goes to the top left.
#[tactic(auto, unfolding(crate::specs::Moves::cleared))]
pub fn clear(screen: &mut Screen)
    ensures { screen.new ≡ moves.cleared screen.old }
{
    screen.cells = [blank(screen.colour); PLACES];
    screen.joined = [false; ROWS];
    home(screen);
}

// One row up; from the top nowhere.
#[tactic(auto, unfolding(crate::specs::Moves::on_row_above, crate::specs::Lines::in_row))]
pub fn up(screen: &mut Screen)
    ensures { screen.new ≡ moves.on_row_above screen.old }
{
    if 0 < screen.row {
        screen.row -= 1;
    }
}

// One place to the left: from the left edge to the right edge of the row above, from the top left nowhere.
#[tactic(auto, unfolding(crate::specs::Moves::on_left))]
pub fn left(screen: &mut Screen)
    ensures { screen.new ≡ moves.on_left screen.old }
{
    if 0 < screen.column {
        screen.column -= 1;
    } else if 0 < screen.row {
        screen.row -= 1;
        screen.column = COLUMNS - 1;
    }
}

// One place to the right: from the right edge to the left edge of the row below.
#[tactic(auto, unfolding(crate::specs::Moves::on_right, crate::specs::Lines::at_left))]
pub fn right(screen: &mut Screen)
    ensures { screen.new ≡ moves.on_right screen.old }
{
    if screen.column + 1 < COLUMNS {
        screen.column += 1;
    } else {
        screen.column = 0;
        row_below(screen);
    }
}

// Takes away what stands left of the cursor: the rest of the line comes after.
#[tactic(auto, unfolding(crate::specs::Moves::deleted))]
pub fn delete(screen: &mut Screen)
    ensures { screen.new ≡ moves.deleted screen.old }
{
    if screen.row == 0 && screen.column == 0 {
        return;
    }
    left(screen);
    let at = place(screen);
    let end = line_end(screen);
    pull(&mut screen.cells, at, end, blank(screen.colour));
}

// Puts a space at the cursor: the rest of the line moves on.
#[tactic(auto, unfolding(crate::specs::Moves::space_inserted))]
fn insert_space(screen: &mut Screen)
    ensures { screen.new ≡ moves.space_inserted screen.old }
{
    let at = place(screen);
    let end = line_end(screen);
    push(&mut screen.cells, at, end, blank(screen.colour));
    screen.inserts = screen.inserts.wrapping_add(1);
}

// Whether a space can be inserted within the line: it ends in one, after the cursor.
#[tactic(auto, unfolding(crate::specs::Moves::has_room))]
fn has_room(screen: &Screen) -> bool
    ensures { result ≡ moves.has_room screen.now }
{
    let end = line_end(screen);
    place(screen) != end && screen.cells[end].code == SPACE
}

// Opens space for a byte at the cursor. A full line of one row gets a second one, a full line of two stays.
#[tactic(auto, unfolding(crate::specs::Moves::inserted))]
pub fn insert(screen: &mut Screen)
    ensures { screen.new ≡ moves.inserted screen.old }
{
    if has_room(screen) {
        insert_space(screen);
    } else if !has_two_rows(screen) {
        open_row(screen);
        insert_space(screen);
    }
}
