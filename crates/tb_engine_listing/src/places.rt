//! The places of a program, as labels of assembled items.
ghost use Rattle.std.specs.Prelude.{◌≡◌, map, IfOk, MatchBool};
ghost use Rattle.tb_compiled.specs.Compiled.{pair_of};
ghost use Rattle.tb_engine_listing.specs.Labels.{all_routines, block_labels, line_label, routine_label};
ghost use Rattle.tb_engine_listing.specs.Places.{AreNamed, IsNamed, image_labels};

use crate::label_file::{ROUTINES, name};
use std::alloc::{AllocError, Global};
use tb_asm::{Image, Name};
use tb_compiled::LineStart;
use tb_runtime16::{BLOCK_AT, SEND_AT, entry};

/// Whether each place of a program has its label at its address. Fails if memory runs out.
pub fn has_places(
    alloc: Global,
    image: &Image,
    starts: &[LineStart],
    table: u16,
) -> Result<bool, AllocError>
    ensures { IfOk result (λ has. MatchBool has
        (AreNamed image.now.labels.entries (image_labels (map pair_of starts.now) table))
        (¬ (AreNamed image.now.labels.entries (image_labels (map pair_of starts.now) table)))) }
{
    if !has_block(image) {
        return Ok(false);
    }
    if !has_label(image, b"line_table", table) {
        return Ok(false);
    }
    has_lines(alloc, image, starts)
}

fn has_block(image: &Image) -> bool
    ensures { MatchBool result (AreNamed image.now.labels.entries block_labels)
        (¬ (AreNamed image.now.labels.entries block_labels)) }
{
    has_label(image, b"prologue", BLOCK_AT)
        && has_label(image, b"send", SEND_AT)
        && has_routines(image)
}

// Whether a name is the label of an address.
fn has_label(image: &Image, name: &[u8], at: u16) -> bool
    ensures { MatchBool result (IsNamed image.now.labels.entries (name.now, at))
        (¬ (IsNamed image.now.labels.entries (name.now, at))) }
{
    match Name::read(name) {
        Some(name) => image.address_of(&name) == Some(at),
        None => false,
    }
}

fn has_routines(image: &Image) -> bool
    ensures { MatchBool result (AreNamed image.now.labels.entries (map routine_label all_routines))
        (¬ (AreNamed image.now.labels.entries (map routine_label all_routines))) }
{
    for routine in ROUTINES {
        if !has_label(image, name(routine), entry(routine)) {
            return false;
        }
    }
    true
}

fn has_lines(alloc: Global, image: &Image, starts: &[LineStart]) -> Result<bool, AllocError>
    ensures { IfOk result (λ has. MatchBool has
        (AreNamed image.now.labels.entries (map line_label (map pair_of starts.now)))
        (¬ (AreNamed image.now.labels.entries (map line_label (map pair_of starts.now))))) }
{
    for start in starts {
        if !has_line(alloc, image, start.number, start.at)? {
            return Ok(false);
        }
    }
    Ok(true)
}

fn has_line(alloc: Global, image: &Image, number: u16, at: u16) -> Result<bool, AllocError>
    ensures { IfOk result (λ has. MatchBool has (IsNamed image.now.labels.entries (line_label (number, at)))
        (¬ (IsNamed image.now.labels.entries (line_label (number, at))))) }
{
    let name = format!(in alloc; "line{number}")?;
    Ok(has_label(image, name.as_bytes(), at))
}
