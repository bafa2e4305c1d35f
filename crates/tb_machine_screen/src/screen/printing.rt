//! What one byte that CHROUT sends does to the screen.
ghost use Rattle.std.specs.Prelude.{◌≡◌};
ghost use Rattle.tb_machine_screen.specs.Printing as printing;

use super::Screen;
use super::lines::{advance, next_line, place, row_below};
use super::moves::{clear, delete, home, insert, left, right, up};
use crate::cells::Cell;
use crate::signs::{Sign, code_of, sign_of};

/// The bit of reversed screen codes.
const REVERSED: u8 = 128;

// Shows a byte at the cursor, which goes on.
#[tactic(auto, unfolding(crate::specs::Printing::shown, crate::specs::Printing::shown_code))]
fn show(screen: &mut Screen, byte: u8)
    ensures { screen.new ≡ printing.shown byte screen.old }
{
    let code = code_of(byte);
    let at = place(screen);
    screen.cells[at] = Cell {
        code: if screen.reverse {
            code | REVERSED
        } else {
            code
        },
        colour: screen.colour,
    };
    screen.inserts = screen.inserts.saturating_sub(1);
    advance(screen);
}

// Ends the line and all modes but the colour.
#[tactic(auto, unfolding(crate::specs::Printing::returned))]
fn return_to_left(screen: &mut Screen)
    ensures { screen.new ≡ printing.returned screen.old }
{
    screen.column = 0;
    screen.reverse = false;
    screen.quoted = false;
    screen.inserts = 0;
    next_line(screen);
}

// Does what a byte says that isn't shown.
#[tactic(auto, unfolding(crate::specs::Printing::acted))]
fn act(screen: &mut Screen, sign: Sign)
    ensures { screen.new ≡ printing.acted sign screen.old }
{
    match sign {
        Sign::CarriageReturn => return_to_left(screen),
        Sign::Delete => delete(screen),
        Sign::Insert => insert(screen),
        Sign::Home => home(screen),
        Sign::Clear => clear(screen),
        Sign::Down => row_below(screen),
        Sign::Up => up(screen),
        Sign::Left => left(screen),
        Sign::Right => right(screen),
        Sign::ReverseOn => screen.reverse = true,
        Sign::ReverseOff => screen.reverse = false,
        Sign::Paint(colour) => screen.colour = colour,
        Sign::Switch(set) => screen.set = set,
        Sign::Quote | Sign::Character | Sign::Nothing => {}
    }
}

// Whether a byte is shown in place of being done.
#[tactic(auto, unfolding(crate::specs::Printing::is_shown))]
fn is_shown(screen: &Screen, sign: Sign) -> bool
    ensures { result ≡ printing.is_shown sign screen.now }
{
    match sign {
        Sign::Quote | Sign::Character => true,
        Sign::CarriageReturn => false,
        Sign::Delete => 0 < screen.inserts,
        Sign::Insert => screen.quoted,
        Sign::Home
        | Sign::Clear
        | Sign::Down
        | Sign::Up
        | Sign::Left
        | Sign::Right
        | Sign::ReverseOn
        | Sign::ReverseOff
        | Sign::Paint(_)
        | Sign::Switch(_)
        | Sign::Nothing => screen.quoted || 0 < screen.inserts,
    }
}

// Turns quote mode on or off at a quotation mark.
#[tactic(auto, unfolding(crate::specs::Printing::requoted))]
fn requote(screen: &mut Screen, sign: Sign)
    ensures { screen.new ≡ printing.requoted sign screen.old }
{
    if let Sign::Quote = sign {
        screen.quoted = !screen.quoted;
    }
}

// Ends quote mode where INST made space for more.
#[tactic(auto, unfolding(crate::specs::Printing::settled))]
fn settle(screen: &mut Screen)
    ensures { screen.new ≡ printing.settled screen.old }
{
    if 0 < screen.inserts {
        screen.quoted = false;
    }
}

impl Screen {
    /// Prints a byte that CHROUT sends: a character is shown at the cursor, and a control byte is done, or shown in quote
    /// mode or after INST.
    #[tactic(auto, unfolding(crate::specs::Printing::printed, crate::specs::Printing::printed_as))]
    pub fn print(&mut self, byte: u8)
        ensures { self.new ≡ printing.printed byte self.old }
    {
        let sign = sign_of(byte);
        requote(self, sign);
        if is_shown(self, sign) {
            show(self, byte);
        } else {
            act(self, sign);
        }
        settle(self);
    }

    /// Prints bytes, the first one first.
    #[tactic(auto, unfolding(crate::specs::Printing::all_printed))]
    pub fn print_all(&mut self, bytes: &[u8])
        ensures { self.new ≡ printing.all_printed bytes.now self.old }
    {
        for byte in bytes {
            self.print(*byte);
        }
    }
}
