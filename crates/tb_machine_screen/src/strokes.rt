//! Strokes: what is said to a terminal, and how it is spelled.
ghost use Rattle.std.specs.Prelude.{◌≡◌, Some};
ghost use Rattle.tb_machine_screen.specs.Strokes.{spelled};

use crate::glyphs::BACKGROUND;
use std::fmt;

/// How characters are written on the machine's blue: their colour, among the terminal's 256, and whether both are
/// exchanged.
#[derive(Clone, Copy, Debug)]
pub struct Pen {
    pub fore: u8,
    pub reverse: bool,
}

/// What is said to a terminal.
#[derive(Clone, Copy, Debug)]
pub enum Stroke {
    /// Characters are written in the terminal's own colours (SGR 0).
    Plain,
    /// All is blank (ED 2).
    Clear,
    /// The cursor goes to a row and a column, both counted from 0 (CUP).
    MoveTo { row: u8, column: u8 },
    /// Characters are written by a pen (SGR 38, 48 and 7).
    Paint(Pen),
    /// A character, in UTF-8.
    Put(char),
}

/// The text that says it to the terminal.
impl fmt::Display for Stroke {
    ghost output = { λ s. Some (spelled s) };

    #[tactic(auto, unfolding(crate::specs::Strokes::spelled))]
    fn fmt<W: fmt::Write>(&self, f: &mut fmt::Formatter<W>) -> fmt::Result {
        match self {
            Stroke::Plain => f.write_str("\x1b[0m"),
            Stroke::Clear => f.write_str("\x1b[2J"),
            Stroke::MoveTo { row, column } => {
                let (row, column) = (u16::from(*row) + 1, u16::from(*column) + 1);
                write!(f, "\x1b[{row};{column}H")
            }
            Stroke::Paint(pen) => {
                let fore = pen.fore;
                if pen.reverse {
                    write!(f, "\x1b[0;38;5;{fore};48;5;{BACKGROUND};7m")
                } else {
                    write!(f, "\x1b[0;38;5;{fore};48;5;{BACKGROUND}m")
                }
            }
            Stroke::Put(character) => f.write_char(*character),
        }
    }
}
