//! Numbers and variables, as lines spell them.
ghost use Rattle.std.specs.Prelude.{◌≡◌};
ghost use Rattle.tb_debug_commands.specs.Parts.{index_of, variable_in, number_behind, number_of};

use tb_words::Letter;

/// The variable that a text names.
pub fn variable(text: &[u8]) -> Option<Letter>
    ensures { index_of result ≡ variable_in text.now }
{
    match text {
        [name] => Letter::read(*name),
        _ => None,
    }
}

/// The number that digits spell, at least one and no more than `most`.
pub fn number(digits: &[u8], most: usize) -> Option<u64>
    ensures { result ≡ number_of most digits.now }
{
    if digits.is_empty() || digits.len() > most {
        return None;
    }
    number_behind(0, digits)
}

// A number with more digits after it.
fn number_behind(number: u64, digits: &[u8]) -> Option<u64>
    ensures { result ≡ number_behind number digits.now }
{
    match digits {
        [] => Some(number),
        [digit, rest @ ..] => {
            if !digit.is_ascii_digit() {
                return None;
            }
            let number = number
                .checked_mul(10)?
                .checked_add(u64::from(*digit - b'0'))?;
            number_behind(number, rest)
        }
    }
}
