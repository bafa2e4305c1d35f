//! The lines of a text.
ghost use Rattle.std.specs.Prelude.{◌≡◌, ◌∷◌, ◌<◌, [], length, MatchOption};
ghost use Rattle.tb_debug_stepping.specs.Lines.{lines_of};

/// The first line of a text and what comes after it; none of an empty text. A line ends at a byte 10 or at the end of
/// the text.
///
/// A byte 13 ends no line here: the commands of `step` are a format of their own, whose lines end at 10 alone. That is
/// why this isn't the reader of a source's lines (`tb_basic_text::next_line`), which come from many editors and end at
/// 10, 13 or both, nor that of lines from a stream (`tb_engine_streams::read_line`), which takes a reader's bytes one
/// by one, and leaves it to the caller to take a 13 off (`without_return`).
pub fn next_line(text: &[u8]) -> Option<(&[u8], &[u8])>
    ensures { MatchOption result (text.now ≡ []) (λ p. (lines_of text.now ≡ p.0.now ∷ lines_of p.1.now)
        × (length p.1.now < length text.now)) }
{
    if text.is_empty() {
        return None;
    }
    for (i, byte) in text.iter().enumerate() {
        if *byte == b'\n' {
            return Some((&text[..i], &text[i + 1..]));
        }
    }
    Some((text, &[]))
}
