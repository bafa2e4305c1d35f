//! The text in which the bytes that a program sent are shown on the host.
ghost use Rattle.std.specs.Prelude.{◌≡◌, ◌≤◌, ◌∷◌, ◌++◌, [], IfOk, OnErr, OnOk, is_err, length};
ghost use Rattle.std.specs.Io.KnownBytes.{Appends};
ghost use Rattle.tb_engine_streams.specs.Failures.{failures_of};
ghost use Rattle.tb_engine_streams.specs.HostForm.{host_byte, host_form_of, shown_as, shown_byte, sign_byte};
ghost use Rattle.tb_engine_streams.specs.Streams.{counted, AppendsPrefix};

use crate::stream::write_output;
use crate::tracked::{StreamFailure, Tracked};
use arrayvec::ArrayVec;
use std::alloc::{AllocError, Global};
use std::io::Write;
use tb_basic_signs::name_of;
use tb_basic_text::Notation;
use tb_words::hex_digits;

/// The most bytes in which one sent byte is shown: as `{orng}`.
const WIDEST: usize = 6;

/// As many sent bytes are shown by one write, in a text that has room for them.
const AT_ONCE: usize = 1024;

const ROOM: usize = WIDEST * AT_ONCE;

// A text of one byte.
fn one(byte: u8) -> ArrayVec<u8, WIDEST>
    ensures { result.items ≡ byte ∷ [] }
{
    let mut text = ArrayVec::new();
    text.push(byte);
    text
}

// At most four bytes, in braces.
fn braced(inside: &[u8]) -> ArrayVec<u8, WIDEST>
    requires { length inside.now ≤ 4 }
    ensures { result.items ≡ 123 ∷ inside.now ++ 125 ∷ [] }
{
    let mut text = one(b'{');
    match text.try_extend_from_slice(inside) {
        Ok(()) => text.push(b'}'),
        Err(_) => unreachable!(),
    }
    text
}

// The text that shows a byte in host form.
fn host_byte(byte: u8) -> ArrayVec<u8, WIDEST>
    ensures { result.items ≡ host_byte byte }
{
    match byte {
        13 => one(b'\n'),
        32..=90 => one(byte),
        _ => {
            let [_, _, high, low] = hex_digits(u16::from(byte));
            braced(&[high, low])
        }
    }
}

// The text that shows a byte as a source with signs has it.
fn sign_byte(byte: u8) -> ArrayVec<u8, WIDEST>
    ensures { result.items ≡ sign_byte byte }
{
    match (byte, name_of(byte)) {
        (b'[' | b']', _) => one(byte),
        (_, Some(name)) => braced(name.as_bytes()),
        (_, None) => host_byte(byte),
    }
}

// The text that shows a byte by a notation.
fn shown_byte(byte: u8, notation: Notation) -> ArrayVec<u8, WIDEST>
    ensures { result.items ≡ shown_byte notation byte }
{
    match notation {
        Notation::Plain => host_byte(byte),
        Notation::Signs => sign_byte(byte),
    }
}

/// The host form of sent bytes: carriage returns become line feeds, bytes 32 to 90 are kept, and any other byte becomes
/// `{XX}`. Fails only if memory runs out.
pub fn host_form(alloc: Global, sent: &[u8]) -> Result<Vec<u8>, AllocError>
    ensures { IfOk result (λ text. text.items ≡ host_form_of sent.now) }
{
    let mut text = Vec::new(alloc);
    for byte in sent {
        text.extend_from_slice(host_byte(*byte).as_slice())?;
    }
    Ok(text)
}

// How a few sent bytes are shown, which takes no memory.
fn short_form(sent: &[u8], notation: Notation) -> ArrayVec<u8, ROOM>
    requires { length sent.now ≤ 1024 }
    ensures { result.items ≡ shown_as notation sent.now }
{
    let mut text = ArrayVec::new();
    for byte in sent {
        match text.try_extend_from_slice(shown_byte(*byte, notation).as_slice()) {
            Ok(()) => {}
            Err(_) => unreachable!(),
        }
    }
    text
}

/// Writes sent bytes as they are shown by a notation, all of them or up to where the writer failed. Without signs that is the
/// host form; with signs a byte that has a name is `{name}`, and `[` and `]` are themselves. It takes no memory.
pub fn write_shown<W: Write>(
    writer: &mut Tracked<W>,
    sent: &[u8],
    notation: Notation,
) -> Result<(), StreamFailure>
    ensures whole { OnOk result (Appends (W.contents writer.old.stream) (W.contents writer.new.stream)
        (shown_as notation sent.now)) }
    ensures prefix { OnErr result (AppendsPrefix (W.contents writer.old.stream)
        (W.contents writer.new.stream) (shown_as notation sent.now)) }
    ensures noted { failures_of writer.new ≡ counted (failures_of writer.old) (is_err result) }
{
    let mut rest = sent;
    'showing: while !rest.is_empty() {
        let (now, later) = rest.split_at(rest.len().min(AT_ONCE));
        write_output(writer, short_form(now, notation).as_slice())?;
        rest = later;
    }
    Ok(())
}
