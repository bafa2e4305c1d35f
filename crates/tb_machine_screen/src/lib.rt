//! The screen of the Commodore 64 as the KERNAL's editor keeps it: 25 rows of 40 cells, each a screen code with a
//! colour, and the cursor. With it go the colour, reverse, quote and insert mode in which the next byte is shown.
//! `Screen::print` takes one byte that CHROUT sends. And the text that shows a screen at a terminal.
//!
//! The definition is `specs/Printing.antt`, over `specs/Signs.antt` (what a byte is), `specs/Lines.antt` (lines of one
//! or two rows) and `specs/Moves.antt`. `print` makes of a screen exactly what `printed` says of the byte, and
//! `print_all` of bytes in their order; `Screen::new` is the blank screen. No call takes memory, and none fails. That
//! the definition is the machine's, worked screens and a model of its own show (`tools/screen_model.py`).
//!
//! `frame` gives a text of control sequences and characters (`text`). `specs/Terminals.antt` says what a terminal does
//! with each of them. After them a terminal of at least 40 columns shows the screen, whatever it showed before
//! (`shown`). Each cell is in its place with its colour, all else is blank, and the cursor is where the screen has it.
//! It fails only if memory runs out. `closing` answers the text that ends a picture. Only tests show which character
//! stands for which graphic sign.
#![tactic(auto)]

mod cells;
mod colours;
mod frames;
mod glyphs;
mod looks;
mod numbers;
mod screen;
mod shifting;
mod signs;
mod strokes;

pub use cells::{Cell, SPACE};
pub use colours::{CharacterSet, Colour};
pub use frames::{closing, frame};
pub use glyphs::{BACKGROUND, GRAPHICS, LETTERS, fore_of, glyph_of};
pub use looks::texts_look_alike;
pub use numbers::constants_are_numbers;
pub use screen::{COLUMNS, PLACES, ROWS, Screen};
pub use signs::{Sign, code_of, sign_of};
pub use strokes::{Pen, Stroke};
