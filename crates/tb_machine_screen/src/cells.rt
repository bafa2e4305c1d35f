//! What stands at one place of the screen.
ghost use Rattle.std.specs.Prelude.{◌≡◌};
ghost use Rattle.tb_machine_screen.specs.Cells as cells;

use crate::colours::Colour;

/// The screen code of a space.
pub const SPACE: u8 = 32;

/// What stands at one place.
#[derive(Clone, Copy, PartialEq, Eq, Debug)]
pub struct Cell {
    /// The screen code, reversed from 128 on.
    pub code: u8,
    pub colour: Colour,
}

/// A space of this colour.
pub fn blank(colour: Colour) -> Cell
    ensures { result ≡ cells.blank colour }
{
    Cell {
        code: SPACE,
        colour,
    }
}
