//! Edits of a source, as a language server answers them: what may be written at a place, a variable with another letter,
//! and the tidy text.
//!
//! `completion` answers each keyword and line number that begins with what is typed (`IsTyped`) and fits (`Offers`).
//! Numbers of lines are offered behind GOTO and GOSUB alone. A candidate fits if it makes the line good up to there. A
//! word also fits if the line is good once the shortest follows that may follow it (`at_least` of `specs/Offered`).
//! None is offered with which the line is bad otherwise than in its syntax. No definition says where a fault of syntax
//! stands. So in other places, as at RND in the condition of an IF, a word may be offered or not.
//!
//! The text with another letter for a variable is read again and compared with the program renamed, before it is
//! answered.
//!
//! `prepare` is place and letter of the variable at a place. `rename` answers the first refusal that holds
//! (`refusal_of` of `specs/Rename`), or the edits of all places of the variable in good lines. Then each line reads as
//! the line with the letter renamed, as a tree, and the new lines make the program of the good lines, renamed
//! (`IsRenaming`). That the new text would read otherwise is a refusal of its own, which comes only where some line
//! does (`Changes`). That none ever does is not proved. `renamed_lines_make_the_renamed_program` is the law.
//!
//! `formatting` has one edit for each line of a source that is another one in its tidy text, which says the same on
//! each line by the clause of `tidy_text` (`Tidies`).
#![tactic(auto)]

mod candidates;
mod comparing;
mod continued;
mod edits;
mod items;
mod laws;
mod letters;
mod lines;
mod offered;
mod prepared;
mod renaming;
mod typed;

pub use edits::formatting;
pub use items::completion;
pub use laws::renamed_lines_make_the_renamed_program;
pub use letters::{Letters, letter_of};
pub use prepared::prepare;
pub use renaming::rename;
