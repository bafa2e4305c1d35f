//! Where the machine's screen can be shown.
ghost use Rattle.std.specs.Prelude.{◌≡◌};
ghost use Rattle.tb_program_jobs.specs.Terminals.{is_below, screen_at};

use crate::failure::Failure;
use tb_machine_screen::{COLUMNS, ROWS};

// Whether a number is known, and below another one.
fn is_below(told: Option<usize>, least: usize) -> bool
    ensures { result ≡ is_below told least }
{
    match told {
        Some(told) => told < least,
        None => false,
    }
}

/// Whether the machine's screen can be shown on standard output: if that is a terminal, which is not known to have fewer
/// columns or lines.
pub fn room_for_screen(
    is_terminal: bool,
    columns: Option<usize>,
    lines: Option<usize>,
) -> Result<(), Failure>
    ensures { result ≡ screen_at is_terminal columns lines }
{
    if !is_terminal {
        return Err(Failure::NoTerminal);
    }
    if is_below(columns, COLUMNS) || is_below(lines, ROWS) {
        return Err(Failure::SmallTerminal);
    }
    Ok(())
}
