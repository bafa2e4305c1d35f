//! A line that is typed, and shown as the machine's editor shows it.
ghost use Rattle.std.specs.Prelude.{◌≡◌, ◌≤◌, vec_len};
ghost use Rattle.tb_engine_streams.specs.Failures.{failures_of};
ghost use Rattle.tb_engine_streams.specs.Uses.{use_of};
ghost use Rattle.tb_engine_play.specs.Lines.{ReadsKeys, most_typed};
ghost use Rattle.tb_engine_screen.specs.Screens.{echoed};
ghost use Rattle.tb_engine_screen.specs.Talks.{Hears};

use std::alloc::Global;
use std::io::Read;
use tb_engine_play::{MOST_TYPED, keys_of_text};
use tb_engine_streams::{InputError, Tracked, read_line, without_return};
use tb_engines::Outcome;
use tb_kernal::Machine;
use tb_machine_screen::Screen;

// What the next line hands to the keyboard: its letters as capitals, and a return; None if the input has ended. It is a
// fault if that is more than `room` bytes.
fn read_keys<R: Read>(
    alloc: Global,
    reader: &mut Tracked<R>,
    room: usize,
) -> Result<Option<Vec<u8>>, InputError>
    requires { room ≤ most_typed }
    ensures { ReadsKeys result room (R.remaining reader.old.stream) (R.remaining reader.new.stream)
        (failures_of reader.old) (failures_of reader.new) }
{
    let Some(line) = read_line(alloc, reader, room)? else {
        return Ok(None);
    };
    let Ok(keys) = keys_of_text(alloc, without_return(line.as_slice())) else {
        return Err(InputError::NoMemory);
    };
    if keys.len() > room {
        return Err(InputError::Fault);
    }
    Ok(Some(keys))
}

// Shows keys that are typed. The return at their end moves no cursor: the program's own does.
fn echo(screen: &mut Screen, keys: &[u8])
    ensures { screen.new ≡ echoed keys.now screen.old }
{
    screen.print_all(&keys[..keys.len().saturating_sub(1)]);
}

/// Reads a line, types it and shows it; answers whether there was one.
pub fn hear<R: Read>(
    alloc: Global,
    machine: &mut Machine,
    screen: &mut Screen,
    keys: &mut Tracked<R>,
    typed: &mut Vec<u8>,
) -> Result<bool, Outcome>
    requires { vec_len typed.old ≤ most_typed }
    ensures { Hears machine.old screen.old typed.old.items result machine.new screen.new typed.new.items
        (use_of R.remaining keys.old keys.new) }
{
    let Some(line) = read_keys(alloc, keys, MOST_TYPED - typed.len())? else {
        return Ok(false);
    };
    machine.type_text(line.as_slice())?;
    typed.extend_from_slice(line.as_slice())?;
    echo(screen, line.as_slice());
    Ok(true)
}
