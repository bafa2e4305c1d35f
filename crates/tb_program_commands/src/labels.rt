//! Label files, which name addresses of a PRG file.
use std::rt::Files;
use tb_assembly_labels::{Label, place_of, read_labels};
use tb_engine_streams::read_input;
use tb_program_files::opened;
use tb_program_host::Host;
use tb_program_jobs::Failure;

/// Reads the labels of a file, none if there is no file.
pub fn labels_in<R: Files + Print + Input + AllocGlobal>(
    host: &mut Host<'_, R>,
    path: Option<&str>,
) -> Result<Vec<Label>, Failure> {
    let alloc = host.rt.alloc();
    let Some(path) = path else {
        return Ok(Vec::new(alloc));
    };
    let mut file = opened(host, path).map_err(Failure::of_unopened)?;
    let text = read_input(alloc, &mut file)?;
    Ok(read_labels(alloc, text.as_slice())?)
}

/// The place at an address, by its label and how far it is after it. Nothing if no label is before it, or without memory.
pub fn named_place<R: AllocGlobal>(rt: &R, labels: &[Label], address: u16) -> Option<String> {
    let place = place_of(labels, address)?;
    format!(in rt.alloc(); "{place}").ok()
}
