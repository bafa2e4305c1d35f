//! An assembler text with all that it includes: its PRG file, its labels and its listing, or all that is wrong with
//! it.
//!
//! `assemble_texts` answers the text of tb_assembly_report if anything is wrong, and else what is made (`Answers`,
//! `AnswersRead`). The PRG file is the load address and the image that `assemble` of tb_asm gives the items of the
//! text's meaning. The labels are those of the text at their places, and the listing assembles to the image
//! (`GivesBack`). With `--long` all this is so of the settled statements (`IsReadAs`).
#![tactic(auto)]

mod assembling;
mod findings;
mod labels;
mod listing;
mod names;

pub use assembling::{Assembled, Assembly, AssemblyError, Manner, assemble_texts};
pub use tb_assembly_files::SourceFile;
