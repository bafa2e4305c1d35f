//! The screen with its cursor and modes.
ghost use Rattle.std.specs.Prelude.{◌≡◌, ◌<◌, length};
ghost use Rattle.tb_machine_screen.specs.Contents.{Content, first_content};
ghost use Rattle.tb_machine_screen.specs.Numbers.{COLUMNS, PLACES, ROWS};

mod lines;
mod moves;
mod printing;

use crate::cells::{Cell, blank};
use crate::colours::{CharacterSet, Colour};
use std::marker::Model;

/// How many cells a row has.
pub const COLUMNS: usize = 40;

/// How many rows there are.
pub const ROWS: usize = 25;

/// How many cells there are.
pub const PLACES: usize = 1000;

/// The screen, the place of its cursor, and how the next byte is shown.
#[derive(Drop)]
pub struct Screen {
    // Row by row.
    cells: [Cell; PLACES],
    // Whether each row goes on the line of the row above.
    joined: [bool; ROWS],
    // Where the cursor is.
    row: usize,
    column: usize,
    // The colour of characters from now on.
    colour: Colour,
    // Whether characters are reversed.
    reverse: bool,
    // Whether control bytes are shown, after a quotation mark.
    quoted: bool,
    // How many more bytes are shown, after INST opened space for them.
    inserts: u8,
    // What screen codes stand for.
    set: CharacterSet,
}

impl Model for Screen {
    ghost use Rattle.std.specs.Prelude.{◌<◌};
    ghost use Rattle.tb_machine_screen.specs.Contents.{Content};

    ghost Value = { Content };

    ghost view = { λ s. record {
      cells = s.cells;
      joined = s.joined;
      row = s.row;
      column = s.column;
      colour = s.colour;
      reverse = s.reverse;
      quoted = s.quoted;
      inserts = s.inserts;
      set = s.set;
    } };

    ghost invariant = { λ s. (s.row < 25) × (s.column < 40) };
}

impl Screen {
    /// A blank screen with the cursor at its top left; characters are light blue.
    #[tactic(auto, unfolding(crate::specs::Contents::first_content))]
    pub fn new() -> Screen
        ensures { result ≡ first_content }
    {
        Screen {
            cells: [blank(Colour::LightBlue); PLACES],
            joined: [false; ROWS],
            row: 0,
            column: 0,
            colour: Colour::LightBlue,
            reverse: false,
            quoted: false,
            inserts: 0,
            set: CharacterSet::Graphics,
        }
    }

    /// The cells, row by row.
    pub fn cells(&self) -> &[Cell]
        ensures value { result.now ≡ self.now.cells }
        ensures all { length result.now ≡ PLACES }
    {
        &self.cells
    }

    /// The cursor's row, counted from 0.
    pub fn row(&self) -> usize
        ensures value { result ≡ self.now.row }
        ensures within { result < ROWS }
    {
        self.row
    }

    /// The cursor's column, counted from 0.
    pub fn column(&self) -> usize
        ensures value { result ≡ self.now.column }
        ensures within { result < COLUMNS }
    {
        self.column
    }

    /// The colour of characters from now on.
    pub fn colour(&self) -> Colour
        ensures { result ≡ self.now.colour }
    {
        self.colour
    }

    /// Whether characters are reversed from now on.
    pub fn reverse(&self) -> bool
        ensures { result ≡ self.now.reverse }
    {
        self.reverse
    }

    /// What screen codes stand for.
    pub fn set(&self) -> CharacterSet
        ensures { result ≡ self.now.set }
    {
        self.set
    }
}
