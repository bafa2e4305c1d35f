//! The characters and colours of a terminal that stand for those of the machine.
ghost use Rattle.std.specs.Prelude.{◌≡◌};
ghost use Rattle.tb_machine_screen.specs.Looks as looks;

use crate::{CharacterSet, Colour};

/// The characters that stand for screen codes 0 to 127 in the set of capitals and graphics. Where Unicode's Basic
/// Multilingual Plane doesn't have the machine's, one that looks like it stands for it.
pub static GRAPHICS: [char; 128] = [
    '@', 'A', 'B', 'C', 'D', 'E', 'F', 'G', 'H', 'I', 'J', 'K', 'L', 'M', 'N', 'O', //
    'P', 'Q', 'R', 'S', 'T', 'U', 'V', 'W', 'X', 'Y', 'Z', '[', '£', ']', '↑', '←', //
    ' ', '!', '"', '#', '$', '%', '&', '\'', '(', ')', '*', '+', ',', '-', '.', '/', //
    '0', '1', '2', '3', '4', '5', '6', '7', '8', '9', ':', ';', '<', '=', '>', '?', //
    '─', '♠', '│', '─', '─', '▔', '─', '│', '│', '╮', '╰', '╯', '⌞', '╲', '╱', '⌜', //
    '⌝', '●', '_', '♥', '▏', '╭', '╳', '○', '♣', '▕', '♦', '┼', '░', '│', 'π', '◥', //
    ' ', '▌', '▄', '▔', '▁', '▏', '▒', '▕', '░', '◤', '▕', '├', '▗', '└', '┐', '▂', //
    '┌', '┴', '┬', '┤', '▎', '▍', '▐', '▔', '▀', '▃', '⌟', '▖', '▝', '┘', '▘', '▚', //
];

/// The characters of screen codes in the set of small letters and capitals.
pub static LETTERS: [char; 128] = [
    '@', 'a', 'b', 'c', 'd', 'e', 'f', 'g', 'h', 'i', 'j', 'k', 'l', 'm', 'n', 'o', //
    'p', 'q', 'r', 's', 't', 'u', 'v', 'w', 'x', 'y', 'z', '[', '£', ']', '↑', '←', //
    ' ', '!', '"', '#', '$', '%', '&', '\'', '(', ')', '*', '+', ',', '-', '.', '/', //
    '0', '1', '2', '3', '4', '5', '6', '7', '8', '9', ':', ';', '<', '=', '>', '?', //
    '─', 'A', 'B', 'C', 'D', 'E', 'F', 'G', 'H', 'I', 'J', 'K', 'L', 'M', 'N', 'O', //
    'P', 'Q', 'R', 'S', 'T', 'U', 'V', 'W', 'X', 'Y', 'Z', '┼', '░', '│', '▒', '▧', //
    ' ', '▌', '▄', '▔', '▁', '▏', '▒', '▕', '░', '▨', '▕', '├', '▗', '└', '┐', '▂', //
    '┌', '┴', '┬', '┤', '▎', '▍', '▐', '▔', '▀', '▃', '✓', '▖', '▝', '┘', '▘', '▚', //
];

/// The colour behind all characters: blue, which the machine starts with.
pub const BACKGROUND: u8 = 19;

/// The character that stands for a screen code, without its highest bit, which reverses it.
#[tactic(auto, unfolding(crate::specs::Looks::glyph_of))]
pub fn glyph_of(code: u8, set: CharacterSet) -> char
    ensures { result ≡ looks.glyph_of code set }
{
    let place = usize::from(code % 128);
    match set {
        CharacterSet::Graphics => GRAPHICS[place],
        CharacterSet::Letters => LETTERS[place],
    }
}

/// The colour of a terminal that stands for one of the machine, among its 256.
#[tactic(auto, unfolding(crate::specs::Looks::fore_of))]
pub fn fore_of(colour: Colour) -> u8
    ensures { result ≡ looks.fore_of colour }
{
    match colour {
        Colour::Black => 16,
        Colour::White => 231,
        Colour::Red => 88,
        Colour::Cyan => 116,
        Colour::Purple => 96,
        Colour::Green => 71,
        Colour::Blue => 19,
        Colour::Yellow => 227,
        Colour::Orange => 94,
        Colour::Brown => 58,
        Colour::LightRed => 167,
        Colour::DarkGrey => 239,
        Colour::Grey => 243,
        Colour::LightGreen => 157,
        Colour::LightBlue => 63,
        Colour::LightGrey => 249,
    }
}
