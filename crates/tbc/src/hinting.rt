//! A hint for a person at a terminal: a first word that is no command may be a source.
use crate::words;
use std::rt::Env;
use tb_engine_files::is_source_name;
use tb_program_command_line::Failure;
use tb_program_commands::say;
use tb_program_endings::Note;

/// Says how a source is run, if the first word is one in place of a command.
pub fn hint<R: Env + Eprint + AllocGlobal>(rt: &R, failure: &Failure) {
    let (Failure::Words(_), Ok(words)) = (failure, words(rt)) else {
        return;
    };
    if let Some(word) = words.first().filter(|word| is_source_name(word.as_str())) {
        say(rt, Note::Source(word.as_str()));
    }
}
