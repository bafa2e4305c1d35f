//! Bytes as they are shown.
ghost use Rattle.std.specs.Prelude.{◌≡◌, map, replicate, take};
ghost use Rattle.tb_words.specs.Texts.{AppendsBytes};
ghost use Rattle.tb_basic_source.specs.ShownBytes.{shown};

use std::alloc::AllocError;

/// The most bytes of a line that are shown.
pub const MOST_SHOWN: usize = 120;

/// A byte as it is shown: `?` for a byte below 32 or above 126.
pub fn shown(byte: u8) -> u8
    ensures { result ≡ shown byte }
{
    if byte < 32 || 126 < byte { b'?' } else { byte }
}

/// Appends bytes as they are shown.
pub fn push_shown(text: &mut Vec<u8>, bytes: &[u8]) -> Result<(), AllocError>
    ensures { AppendsBytes result text.old text.new (map shown bytes.now) }
{
    for byte in bytes {
        text.push(shown(*byte))?;
    }
    Ok(())
}

/// Appends `count` spaces.
pub fn push_spaces(text: &mut Vec<u8>, count: usize) -> Result<(), AllocError>
    ensures { AppendsBytes result text.old text.new (replicate count 32) }
{
    let size = text.len();
    text.resize(size.saturating_add(count), b' ')
}

/// The bytes of a line that are shown: the first `MOST_SHOWN`.
pub fn cut(line: &[u8]) -> &[u8]
    ensures { result.now ≡ take 120 line.now }
{
    if line.len() > MOST_SHOWN {
        &line[..MOST_SHOWN]
    } else {
        line
    }
}
