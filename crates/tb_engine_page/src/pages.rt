//! The page of a program, in HTML.
ghost use Rattle.std.specs.Prelude.{◌≡◌, [], IfOk, option_map};
ghost use Rattle.tb_compiled.specs.Compiled.{prg_of, starts_of};
ghost use Rattle.tb_engine_page.specs.Pages.{page_of, source_page, source_rows, title_of};

use crate::pieces::{characters, joined, rows_in, titled};
use crate::texts::{CHARACTERS, FOOT, HEAD, LINES, MIDDLE, PROGRAM, STYLE};
use std::alloc::{AllocError, Global};
use std::path::Path;
use tb_basic_source::numbered_lines;
use tb_compiled::Compiled;
use tb_words::decimal_digits;

/// The title of a page: the one that is asked for, or else the last part of the file's path without its ending.
pub fn title_of<'a>(asked: Option<&'a str>, path: &'a str) -> &'a str
    ensures { result.now ≡ title_of (option_map (λ t. t.now) asked.entry) path.entry.now }
{
    match asked {
        Some(title) => title,
        None => Path::new(path).file_stem().unwrap_or(path),
    }
}

// The rows of a source's lines, each where its code begins.
fn source_rows(alloc: Global, source: &[u8], program: &Compiled) -> Result<Vec<u8>, AllocError>
    ensures { IfOk result (λ rows. rows.items ≡ source_rows source.now (starts_of program.now)) }
{
    let written = numbered_lines(alloc, source)?;
    rows_in(alloc, &written, program.starts())
}

// The page of a PRG file, with the first state of RND and the rows of lines in HTML.
fn page_of(
    alloc: Global,
    title: &str,
    seed: &[u8],
    prg: &[u8],
    rows: &[u8],
) -> Result<Vec<u8>, AllocError>
    ensures { IfOk result (λ page. page.items ≡ page_of title.now seed.now prg.now rows.now) }
{
    let title = titled(alloc, title)?;
    let program = hex::encode(alloc, prg)?;
    let characters = characters(alloc)?;
    let pieces: [&[u8]; 13] = [
        HEAD,
        title.as_slice(),
        STYLE,
        title.as_slice(),
        MIDDLE,
        seed,
        PROGRAM,
        program.as_bytes(),
        CHARACTERS,
        characters.as_slice(),
        LINES,
        rows,
        FOOT,
    ];
    joined(alloc, &pieces)
}

/// The page of the program that a source was compiled to with a first state of RND. It has a row for each line.
pub fn source_page(
    alloc: Global,
    title: &str,
    seed: u16,
    source: &[u8],
    program: &Compiled,
) -> Result<Vec<u8>, AllocError>
    ensures { IfOk result (λ page. page.items ≡ source_page title.now seed source.now program.now) }
{
    let rows = source_rows(alloc, source, program)?;
    let seed = decimal_digits(seed);
    page_of(alloc, title, seed.as_slice(), program.prg(), &rows)
}

/// The page of a PRG file. It has no rows, and no first state of RND.
pub fn prg_page(alloc: Global, title: &str, prg: &[u8]) -> Result<Vec<u8>, AllocError>
    ensures { IfOk result (λ page. page.items ≡ page_of title.now [] prg.now []) }
{
    page_of(alloc, title, &[], prg, &[])
}
