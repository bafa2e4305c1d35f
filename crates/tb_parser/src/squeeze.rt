//! A line without its spaces and in upper case.
ghost use Rattle.std.specs.Prelude.{◌≡◌, ◌+◌, ◌++◌, ◌<◌, ◌∷◌, [], ℕ, OnOk, map};
ghost use Rattle.tb_parser.specs.Squeezed.{after, is_dropped, is_in_code, shown, squeezed_from};
ghost use Rattle.tb_parser.specs.declared.squeeze.Mode.TheVariants.{Code};

use std::alloc::AllocError;

/// What part of a line the next byte is in, by the bytes before it.
#[derive(Clone, Copy)]
pub(crate) enum Mode {
    Code,
    /// In code after an R, with at most spaces between.
    CodeR,
    /// In code after an R and an E, with at most spaces between.
    CodeRe,
    /// In a text: after its first quote.
    Text,
    Remark,
}

impl Mode {
    /// The mode after a byte.
    pub fn after(self, byte: u8) -> Mode
        ensures { result ≡ after self byte }
    {
        match (self, byte) {
            (Mode::Remark, _) => Mode::Remark,
            (Mode::Text, b'"') => Mode::Code,
            (Mode::Text, _) => Mode::Text,
            (_, b' ') => self,
            (_, b'"') => Mode::Text,
            (Mode::CodeRe, b'M' | b'm') => Mode::Remark,
            (Mode::CodeR, b'E' | b'e') => Mode::CodeRe,
            (_, b'R' | b'r') => Mode::CodeR,
            _ => Mode::Code,
        }
    }

    /// Whether a byte here is outside texts and remarks.
    pub fn is_in_code(self) -> bool
        ensures { result ≡ is_in_code self }
    {
        matches!(self, Mode::Code | Mode::CodeR | Mode::CodeRe)
    }
}

/// A byte of a squeezed line.
#[derive(Clone, Copy)]
pub(crate) struct Placed {
    pub byte: u8,
    /// Its column in the line, from 1; that of its sign, if it belongs to one.
    pub column: usize,
    /// Whether it is outside texts and remarks. The quote that opens a text is.
    pub in_code: bool,
}

/// Whether a byte is a space outside texts and remarks.
pub(crate) fn drops(mode: Mode, byte: u8) -> bool
    ensures { result ≡ is_dropped mode byte }
{
    byte == b' ' && mode.is_in_code()
}

/// A byte as it is kept: in upper case, but unchanged in a remark.
pub(crate) fn show(mode: Mode, byte: u8) -> u8
    ensures { result ≡ shown mode byte }
{
    match mode {
        Mode::Remark => byte,
        _ => byte.to_ascii_uppercase(),
    }
}

/// The line without spaces and in upper case outside texts and remarks. A text keeps its spaces, a remark is unchanged.
// It takes the place of what `placed` held. There is room for the whole line, so no byte asks for any.
pub(crate) fn squeeze(placed: &mut Vec<Placed>, line: &[u8]) -> Result<(), AllocError>
    ensures { OnOk result (placed.new.items ≡ squeezed_from Code 1 line.now) }
{
    placed.clear();
    placed.reserve(line.len())?;
    let mut mode = Mode::Code;
    for (i, byte) in line.iter().enumerate() {
        if !drops(mode, *byte) {
            placed.push_reserved(Placed {
                byte: show(mode, *byte),
                column: i + 1,
                in_code: mode.is_in_code(),
            });
        }
        mode = mode.after(*byte);
    }
    Ok(())
}

/// The bytes alone, in the place of what `bytes` held.
#[tactic(auto, using(std::proofs::lemmas::List::map_more))]
pub(crate) fn copy_bytes(placed: &[Placed], bytes: &mut Vec<u8>) -> Result<(), AllocError>
    ensures { OnOk result (bytes.new.items ≡ map (λ p. p.byte) placed.now) }
{
    bytes.clear();
    bytes.reserve(placed.len())?;
    for one in placed {
        bytes.push_reserved(one.byte);
    }
    Ok(())
}
