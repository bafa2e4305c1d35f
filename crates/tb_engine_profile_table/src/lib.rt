//! Profiles as a table and as a page: what the lines of a program took on a run, each line's statement, and the texts.
//! And as a table by address, for a program without a source.
//!
//! - `profile` is a run whose rows are those of its steps. If no two lines begin at one place, the rows and what came
//!   before the first line are together the whole run, in instructions and in cycles (`AddsUp`).
//! - `texts_of` answers the table and the page byte for byte. The page (`page_of` of `specs/Page`) says what the run
//!   was given and how it ended (`Facts`), the sums, and the figures of each row. `&`, `<`, `>` and quotes are
//!   escaped. Its head, style and foot are constants of `src/page.rt`, of which nothing is promised.
//! - `push_all_escaped` and `push_escaped` append texts as HTML reads them (`escaped`).
//! - `profile_addresses` has a row for each address and always adds up (`ProfilesAddresses`). `addresses_text` is its
//!   table, with the instructions that a memory holds (`addresses_table`).
#![tactic(auto)]

mod about;
mod addresses;
mod cells;
mod figures;
mod lines;
mod numbers;
mod page;
mod rows;
mod table;
mod texts;

pub use about::About;
pub use addresses::{addresses_text, profile_addresses};
pub use cells::{push_all_escaped, push_escaped};
pub use figures::CYCLES_A_SECOND;
pub use numbers::constants_are_numbers;
pub use rows::{Row, Start, Table, Whole, profile};
pub use texts::{Texts, texts_of};
