//! Where the words of a source begin that ask for options.
ghost use Rattle.std.specs.Prelude.{◌≡◌, ◌≤◌, length, option_map, IfSome};
ghost use Rattle.tb_basic_options.specs.Remarks as spec;

/// What stands before the words, behind the number of their line.
const MARK: &[u8] = b"REMTBC:";

/// What a line has behind `REM TBC:`. Spaces and the case of letters don't count, as before any remark.
pub fn words_behind(line: &[u8]) -> Option<&[u8]>
    ensures value { option_map (λ words. words.now) result ≡ spec.words_behind line.now }
    ensures within { IfSome result (λ words. length words.now ≤ length line.now) }
{
    behind(MARK, behind_number(line))
}

// A line behind its number.
fn behind_number(line: &[u8]) -> &[u8]
    ensures value { result.now ≡ spec.behind_number line.now }
    ensures within { length result.now ≤ length line.now }
{
    match line {
        [b' ' | b'0'..=b'9', rest @ ..] => behind_number(rest),
        _ => line,
    }
}

// A text behind a word, which may have spaces before each of its letters.
fn behind<'a>(word: &[u8], text: &'a [u8]) -> Option<&'a [u8]>
    ensures value { option_map (λ rest. rest.now) result ≡ spec.behind word.now text.now }
    ensures within { IfSome result (λ rest. length rest.now ≤ length text.now) }
{
    let [letter, letters @ ..] = word else {
        return Some(text);
    };
    match text {
        [b' ', rest @ ..] => behind(word, rest),
        [byte, rest @ ..] if byte.to_ascii_uppercase() == *letter => behind(letters, rest),
        _ => None,
    }
}
