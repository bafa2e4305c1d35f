//! Calls on source texts, and on the bytes that programs send and take.
use crate::failure::Failure;
use std::alloc::Global;
use std::fmt::Debug;
use tb_basic_meaning::warnings;
use tb_codegen::{Options, compile};
use tb_compiled::{Compiled, Notation};
use tb_engine_findings::bad_lines;
use tb_engine_listing::{Made, make};
use tb_engine_streams::{host_form, key_list};
use tb_lower::{SlotCode, lower};
use tb_parser::{Program, Token, parse, parse_expr, tokens};

/// A source that sends a text.
pub const GREETING: &[u8] = b"10 PRINT \"HELLO\"\n20 END\n";

/// The sources of the worked rows: one that sends a text, and those that go to a line that is there or not there, by a
/// computed target or a constant one.
/// computed target or a constant one.
pub const SOURCES: [&[u8]; 5] = [
    GREETING,
    b"10 A=4\n20 GOTO 10*A\n30 PRINT \"NO\"\n40 END\n",
    b"10 A=5\n20 GOTO 10*A\n30 PRINT \"NO\"\n40 END\n",
    b"10 A=4\n20 GOTO 10-20\n30 PRINT \"NO\"\n40 END\n",
    b"10 GOTO 99\n",
];

/// The keyboard texts of the worked rows, as they are typed in.
const KEY_LISTS: [&str; 6] = ["332c202d340d", "37303030302c300d", "350d", "58", "0d", "31"];

/// A call that is made on each source.
#[derive(Clone, Copy, Drop)]
pub enum SourceCall {
    Compile,
    Make,
    Parse,
    Lower,
    Warnings,
}

/// A source that has good lines between bad ones.
const BAD: &[u8] = b"10 PRINT 1\n20 PRINT (1\n30 END\n40 FOR I=1\n";

/// A source that sets a variable.
pub const ASSIGNMENT: &[u8] = b"10 A=5\n20 END\n";

/// A compiled source, with the seed that a program has by default.
pub fn compiled(alloc: Global, source: &[u8]) -> Result<Compiled, Failure> {
    Ok(compile(alloc, source, Options { seed: 1 })?)
}

/// Appends bytes as hexadecimal digits, on a line.
pub fn show_bytes(text: &mut String, bytes: &[u8]) -> Result<(), Failure> {
    for byte in bytes {
        write!(text, "{byte:02X}")?;
    }
    text.push('\n')?;
    Ok(())
}

/// Appends bytes of ASCII as they are.
pub fn show_letters(text: &mut String, bytes: &[u8]) -> Result<(), Failure> {
    for byte in bytes {
        text.push(char::from(*byte))?;
    }
    Ok(())
}

fn show_value<T: Debug>(text: &mut String, value: &T) -> Result<(), Failure> {
    writeln!(text, "{value:?}")?;
    Ok(())
}

/// Appends each value on a line.
pub fn show_each<T: Debug>(text: &mut String, values: &[T]) -> Result<(), Failure> {
    for value in values {
        show_value(text, value)?;
    }
    Ok(())
}

fn show_host_form_of(alloc: Global, sent: &[u8], text: &mut String) -> Result<(), Failure> {
    let form = host_form(alloc, sent)?;
    show_letters(text, form.as_slice())
}

/// Shows what `host_form` makes of bytes.
pub fn show_host_form(alloc: Global, text: &mut String) -> Result<(), Failure> {
    for sent in [b"HELLO\r".as_slice(), b"\r!1 AT 20\r"] {
        show_host_form_of(alloc, sent, text)?;
    }
    Ok(())
}

fn show_key_list_of(alloc: Global, digits: &str, text: &mut String) -> Result<(), Failure> {
    let keys = key_list(alloc, digits)?;
    show_bytes(text, keys.as_slice())
}

/// Shows what `key_list` makes of the keyboard texts of the worked rows.
pub fn show_key_list(alloc: Global, text: &mut String) -> Result<(), Failure> {
    for digits in KEY_LISTS {
        show_key_list_of(alloc, digits, text)?;
    }
    Ok(())
}

fn show_starts(compiled: &Compiled, text: &mut String) -> Result<(), Failure> {
    for line in [10, 20, 30, 40] {
        if let Some(at) = compiled.start_of(line) {
            writeln!(text, "{line} at {at:04X}")?;
        }
    }
    Ok(())
}

fn show_compiled(compiled: &Compiled, text: &mut String) -> Result<(), Failure> {
    show_bytes(text, compiled.prg())?;
    show_each(text, compiled.warnings())?;
    show_starts(compiled, text)
}

fn show_compile_of(alloc: Global, source: &[u8], text: &mut String) -> Result<(), Failure> {
    let compiled = compiled(alloc, source)?;
    show_compiled(&compiled, text)
}

fn show_made(program: &Compiled, made: &Made, text: &mut String) -> Result<(), Failure> {
    show_bytes(text, program.prg())?;
    for beside in [&made.labels, &made.listing, &made.map] {
        show_letters(text, beside)?;
    }
    show_each(text, program.warnings())
}

fn show_make_of(alloc: Global, source: &[u8], text: &mut String) -> Result<(), Failure> {
    let program = compile(alloc, source, Options { seed: 1 })?;
    let made = make(alloc, source, Notation::Plain, &program)?;
    show_made(&program, &made, text)
}

/// Shows what `bad_lines` finds.
pub fn show_bad_lines(alloc: Global, text: &mut String) -> Result<(), Failure> {
    let found = bad_lines(alloc, BAD, Notation::Plain)?;
    show_each(text, &found)
}

fn show_program(program: &Program, text: &mut String) -> Result<(), Failure> {
    for (number, statement) in program.lines() {
        writeln!(text, "{number} {statement:?}")?;
    }
    Ok(())
}

fn show_parse_of(alloc: Global, source: &[u8], text: &mut String) -> Result<(), Failure> {
    let program = parse(alloc, source)?;
    show_program(&program, text)
}

/// Shows what `parse_expr` answers.
pub fn show_parse_expr(alloc: Global, text: &mut String) -> Result<(), Failure> {
    let expression = parse_expr(alloc, b"A*2-1")?;
    show_value(text, &expression)
}

fn show_token_texts(found: &[Token<'_>], text: &mut String) -> Result<(), Failure> {
    for token in found {
        show_letters(text, token.text)?;
        text.push('\n')?;
    }
    Ok(())
}

/// Shows what `tokens` answers.
pub fn show_tokens(alloc: Global, text: &mut String) -> Result<(), Failure> {
    let found = tokens(alloc, b"10 GO TO 5")?;
    show_token_texts(found.as_slice(), text)
}

fn lowered(alloc: Global, source: &[u8]) -> Result<SlotCode, Failure> {
    let program = parse(alloc, source)?;
    Ok(lower(alloc, &program)?)
}

fn show_lower_of(alloc: Global, source: &[u8], text: &mut String) -> Result<(), Failure> {
    let code = lowered(alloc, source)?;
    show_each(text, code.lines())
}

fn show_warned(alloc: Global, program: &Program, text: &mut String) -> Result<(), Failure> {
    let found = warnings(alloc, program)?;
    writeln!(text, "{} warnings", found.len())?;
    show_each(text, found.as_slice())
}

fn show_warnings_of(alloc: Global, source: &[u8], text: &mut String) -> Result<(), Failure> {
    let program = parse(alloc, source)?;
    show_warned(alloc, &program, text)
}

impl SourceCall {
    fn show_of(self, alloc: Global, source: &[u8], text: &mut String) -> Result<(), Failure> {
        match self {
            SourceCall::Compile => show_compile_of(alloc, source, text),
            SourceCall::Make => show_make_of(alloc, source, text),
            SourceCall::Parse => show_parse_of(alloc, source, text),
            SourceCall::Lower => show_lower_of(alloc, source, text),
            SourceCall::Warnings => show_warnings_of(alloc, source, text),
        }
    }
}

/// Makes a call on each source.
pub fn show_sources(alloc: Global, call: SourceCall, text: &mut String) -> Result<(), Failure> {
    for source in SOURCES {
        call.show_of(alloc, source, text)?;
    }
    Ok(())
}
