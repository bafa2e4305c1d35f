//! What begins lines, and the numbers in them.
ghost use Rattle.std.specs.Prelude.{◌≡◌, ◌≤◌, length, option_map, IfSome};
ghost use Rattle.tb_engine_transcripts.specs.Marks as spec;

/// What a line of the header begins with.
pub const OPTION: &[u8] = b"# ";

/// What a line that was typed begins with.
pub const TYPED: &[u8] = b"> ";

/// What a line that was sent may begin with.
pub const ESCAPE: &[u8] = b"\\";

/// What follows a word at the front of a text. `None` if the word isn't there.
pub fn behind<'a>(word: &[u8], text: &'a [u8]) -> Option<&'a [u8]>
    ensures value { option_map (λ rest. rest.now) result ≡ spec.behind word.now text.now }
    ensures within { IfSome result (λ rest. length rest.now ≤ length text.now) }
{
    let [letter, letters @ ..] = word else {
        return Some(text);
    };
    match text {
        [byte, rest @ ..] if *byte == *letter => behind(letters, rest),
        _ => None,
    }
}

/// The number that a text spells in decimal, without a zero before it, if it is at most this.
pub fn number(most: u32, text: &[u8]) -> Option<u32>
    ensures value { result ≡ spec.number most text.now }
    ensures bound { IfSome result (λ n. n ≤ most) }
{
    match text {
        [] => None,
        [b'0', _, ..] => None,
        _ => number_from(most, 0, text),
    }
}

// The number that some digits spell, and these behind them, if it is at most this.
fn number_from(most: u32, begun: u32, digits: &[u8]) -> Option<u32>
    requires { begun ≤ most }
    ensures value { result ≡ spec.number_from most begun digits.now }
    ensures bound { IfSome result (λ n. n ≤ most) }
{
    match digits {
        [] => Some(begun),
        [digit @ b'0'..=b'9', rest @ ..] => {
            let longer = 10 * u64::from(begun) + u64::from(*digit - b'0');
            if longer <= u64::from(most) {
                number_from(most, longer as u32, rest)
            } else {
                None
            }
        }
        _ => None,
    }
}
