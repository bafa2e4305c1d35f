//! Words that are the name of a command but for two neighbours that changed places. (Of three letters that is too little
//! alike for `clap`.)
ghost use Rattle.std.specs.Prelude.{◌≡◌, IfOk, map, option_map};
ghost use Rattle.tb_program_command_line.specs.Swaps.{first_swapped, is_swapped};

use crate::commands::{CommandRow, rows};
use std::alloc::{AllocError, Global};
use strsim::{levenshtein, osa_distance};

// Whether a word is a name but for two neighbours that changed places: one exchange, or two changes.
fn is_swapped(alloc: Global, word: &str, name: &str) -> Result<bool, AllocError>
    ensures { IfOk result (λ is. is ≡ is_swapped word.now name.now) }
{
    Ok(osa_distance(alloc, word, name)? == 1 && levenshtein(alloc, word, name)? == 2)
}

// The first of these commands whose name a word is but for such an exchange.
fn swapped_command(
    alloc: Global,
    rows: &[CommandRow],
    word: &str,
) -> Result<Option<&'static str>, AllocError>
    ensures { IfOk result (λ name. option_map (λ n. n.now) name ≡ first_swapped word.now (map (λ r. r.name.now) rows.now)) }
{
    for row in rows {
        if is_swapped(alloc, word, row.name)? {
            return Ok(Some(row.name));
        }
    }
    Ok(None)
}

/// What is said of a first word that is the name of a command but for such an exchange, as `clap` says it of other words.
pub fn swap_text(alloc: Global, word: &str) -> Result<Option<String>, AllocError> {
    let Some(name) = swapped_command(alloc, rows(), word)? else {
        return Ok(None);
    };
    let text = format!(in alloc;
        "error: unrecognized subcommand '{word}'\n\n  tip: a similar subcommand exists: '{name}'\n\nUsage: tbc <COMMAND>\n\nFor more information, try '--help'.\n"
    )?;
    Ok(Some(text))
}
