//! What mends a sign that stands for nothing: another name in place of its own.
ghost use Rattle.std.specs.Prelude.{◌≡◌, IfOk, option_map, string_bytes};
ghost use Rattle.std.specs.Option.{option_and_then};
ghost use Rattle.std.specs.Str.{str_eq_ignore_ascii_case};
ghost use Rattle.tb_basic_signs.specs.Names.{name_of};
ghost use Rattle.tb_lsp_fixes.specs.Signs as spec;
ghost use Rattle.tb_lsp_fixes.specs.Writing.{seen};

use crate::fixes::{Fix, behind, writes};
use std::alloc::{AllocError, Global};
use tb_basic_places::piece;
use tb_basic_signs::{after_count, name_of, written_name};

// A name with the brace that closes its sign.
fn closed(alloc: Global, name: &str) -> Result<String, AllocError>
    ensures { IfOk result (λ text. string_bytes text ≡ spec.closed name.now) }
{
    format!(in alloc; "{name}}}")
}

// Whether a name is written, in either case.
fn is_written(written: &[u8], name: &str) -> bool
    ensures { result ≡ str_eq_ignore_ascii_case written.now name.now }
{
    written.eq_ignore_ascii_case(name.as_bytes())
}

// What is written in place of a sign's name, by the byte behind it.
fn mended(
    alloc: Global,
    written: &[u8],
    name: &str,
    behind: Option<u8>,
) -> Result<Option<String>, AllocError>
    ensures { IfOk result (λ new. option_map string_bytes new ≡ spec.mended written.now name.now behind) }
{
    match behind {
        Some(b'}') if is_written(written, name) => Ok(None),
        Some(b'}') => Ok(Some(String::from_str(alloc, name)?)),
        Some(b'"') | None => Ok(Some(closed(alloc, name)?)),
        Some(_) => Ok(None),
    }
}

// A name in place of that of a sign of a line, by what follows its count.
fn writes_by(
    alloc: Global,
    line: usize,
    text: &[u8],
    rest: &[u8],
    name: &str,
) -> Result<Option<Fix>, AllocError>
    ensures { IfOk result (λ fix. option_map seen fix ≡ spec.writes_by line text.now rest.now name.now) }
{
    let written = written_name(rest);
    let behind = rest.get(written.len()).copied();
    let Some(new) = mended(alloc, written, name, behind)? else {
        return Ok(None);
    };
    let closed = closed(alloc, name)?;
    let title = format!(in alloc; "Write {{{closed}")?;
    let start = text.len().saturating_sub(rest.len());
    let span = piece(line, text, start, written.len());
    writes(alloc, title.as_str(), span, new.as_str())
}

// A name in place of that of the sign whose brace stands at a place of a line.
fn writes_sign(
    alloc: Global,
    line: usize,
    text: &[u8],
    place: usize,
    name: &str,
) -> Result<Option<Fix>, AllocError>
    ensures { IfOk result (λ fix. option_map seen fix ≡ spec.writes_sign line text.now place name.now) }
{
    writes_by(alloc, line, text, after_count(behind(text, place)), name)
}

/// The name of a control character in place of that of the sign whose brace stands at a place of a line.
pub fn writes_near(
    alloc: Global,
    line: usize,
    text: &[u8],
    place: usize,
    byte: u8,
) -> Result<Option<Fix>, AllocError>
    ensures { IfOk result (λ fix. option_map seen fix ≡ option_and_then (spec.writes_sign line text.now place) (name_of byte)) }
{
    match name_of(byte) {
        Some(name) => writes_sign(alloc, line, text, place, name),
        None => Ok(None),
    }
}
