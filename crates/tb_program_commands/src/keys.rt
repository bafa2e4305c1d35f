//! What is typed: digits, a text or a key file.
use std::rt::Files;
use tb_engine_streams::{key_list, read_key_file};
use tb_kernal::Keyboard;
use tb_program_files::opened;
use tb_program_host::Host;
use tb_program_jobs::{Failure, Settings, Typed, typed_keys};

/// The keyboard of a run. What the words say is looked at before the key file is opened.
pub fn keyboard<R: Files + Print + Input + AllocGlobal>(
    host: &mut Host<'_, R>,
    settings: &Settings,
) -> Result<Keyboard, Failure> {
    let alloc = host.rt.alloc();
    let answers = key_list(alloc, settings.answers.as_str())?;
    let text = match &settings.keys {
        Typed::Digits(digits) => key_list(alloc, digits.as_str())?,
        Typed::File(path) => keys_in(host, path.as_str())?,
        Typed::Text(text) => typed_keys(alloc, text.as_str())?,
    };
    Ok(Keyboard { text, answers })
}

fn keys_in<R: Files + Print + Input + AllocGlobal>(
    host: &mut Host<'_, R>,
    path: &str,
) -> Result<Vec<u8>, Failure> {
    let opened = opened(host, path);
    host.asked_for_keys();
    let mut file = opened.map_err(Failure::of_unopened)?;
    Ok(read_key_file(host.rt.alloc(), &mut file)?)
}
