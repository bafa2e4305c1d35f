//! How a file is cut into lines.
ghost use Rattle.std.specs.Prelude.{◌≡◌, ◌∷◌, [], ◌<◌, false, length, IsTrue, MatchOption};
ghost use Rattle.tb_basic_text.specs.Lines.{lines_from, starts_with_end};

/// The most bytes that a line of a source has, and that it stands for.
pub const LONGEST_LINE: usize = 255;

const _: () = prove!(LONGEST_LINE == 255);

/// The first line without its end, and what is left after that end, which is a byte 10, a byte 13, or both, 13
/// first. `None` if the text is empty.
pub fn next_line(text: &[u8]) -> Option<(&[u8], &[u8])>
    ensures { MatchOption result (text.now ≡ [])
        (λ p. (lines_from false text.now ≡ p.0.now ∷ lines_from false p.1.now) × (length p.1.now < length text.now)) }
{
    if text.is_empty() {
        return None;
    }
    for (i, byte) in text.iter().enumerate() {
        if matches!(*byte, b'\n' | b'\r') {
            return Some((&text[..i], behind_end(&text[i..])));
        }
    }
    Some((text, &[]))
}

// What is left after the line's end at the front of a text.
#[tactic(auto, unfolding(crate::specs::Lines::lines_from))]
fn behind_end(text: &[u8]) -> &[u8]
    requires { IsTrue (starts_with_end text.now) }
    ensures lines { lines_from false text.now ≡ [] ∷ lines_from false result.now }
    ensures shorter { length result.now < length text.now }
{
    match text {
        [b'\r', b'\n', rest @ ..] => rest,
        [_, rest @ ..] => rest,
        [] => text,
    }
}
