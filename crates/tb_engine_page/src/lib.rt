//! A program's web page: one file that anybody opens in a browser, and plays.
//!
//! - `source_page` is the page of a source's program, and `prg_page` that of a PRG file, byte for byte (`specs/Pages`).
//!   Between fixed texts stand the title, the first state of RND, the PRG file in hexadecimal digits, and the characters
//!   of the screen's codes. Then comes a row for each line: its number, its address and its text. All that comes from
//!   outside is escaped. Both fail only if memory runs out.
//! - `title_of` is the title that is asked for, or else the name of the file without its ending.
//! - The fixed texts are constants of `src/texts.rt`, which `tools/pack/page_texts.py` makes of the files in `web/`: the
//!   style, and the machine, the screen and the page in JavaScript. Nothing is promised of these. They are tested by
//!   `tools/try/page_machine.sh` and `tools/try/page_browser.sh`.
#![tactic(auto)]

mod pages;
mod pieces;
mod texts;

pub use pages::{prg_page, source_page, title_of};
