//! What is told of transcripts that were run.
ghost use Rattle.std.specs.Prelude.{◌≡◌, ◌+◌, ◌<◌, ◌^◌, true, IfOk, option_map, string_bytes};
ghost use Rattle.tb_engine_test.specs.Telling.{in_line, opening, remarks, summary, told, told_as_tap, told_plainly, updated};
ghost use Rattle.tb_words.specs.Texts.{AppendsBytes};

use crate::places::Differs;
use std::alloc::{AllocError, Global};
use tb_engine_transcripts::TestForm;

/// What is told first: the version of the Test Anything Protocol, or nothing.
pub fn opening(form: TestForm) -> &'static str
    ensures { result.now ≡ opening form }
{
    match form {
        TestForm::Text => "",
        TestForm::Tap => "TAP version 13\n",
    }
}

// In which line of the source the program was.
fn in_line(alloc: Global, line: Option<u16>) -> Result<String, AllocError>
    ensures { IfOk result (λ text. string_bytes text ≡ in_line line) }
{
    match line {
        Some(line) => Ok(format!(in alloc; "line {line} was running\n")?),
        None => Ok(String::new(alloc)),
    }
}

// What is told in words: `ok` and the name, or `not ok` with the line that was running and the difference.
fn told_plainly(alloc: Global, name: &str, differs: Option<&Differs>) -> Result<Vec<u8>, AllocError>
    ensures { IfOk result (λ text. text.items ≡ told_plainly name.now (option_map (λ d. d.now) differs.entry)) }
{
    let mut text = Vec::new(alloc);
    match differs {
        None => text.extend_from_slice(format!(in alloc; "ok {name}\n")?.as_bytes())?,
        Some(differs) => {
            text.extend_from_slice(format!(in alloc; "not ok {name}\n")?.as_bytes())?;
            text.extend_from_slice(in_line(alloc, differs.line)?.as_bytes())?;
            text.extend_from_slice(differs.text.as_slice())?;
        }
    }
    Ok(text)
}

// Appends lines as remarks of the protocol.
fn push_remarks(text: &mut Vec<u8>, lines: &[u8]) -> Result<(), AllocError>
    ensures { AppendsBytes result text.old text.new (remarks true lines.now) }
{
    let mut is_first = true;
    for byte in lines {
        if is_first {
            text.extend_from_slice(b"# ")?;
        }
        text.push(*byte)?;
        is_first = *byte == b'\n';
    }
    Ok(())
}

// What is told by the protocol: the number and the name, and the difference as remarks.
fn told_as_tap(
    alloc: Global,
    number: usize,
    name: &str,
    differs: Option<&Differs>,
) -> Result<Vec<u8>, AllocError>
    ensures { IfOk result (λ text. text.items ≡ told_as_tap number name.now (option_map (λ d. d.now) differs.entry)) }
{
    let mut text = Vec::new(alloc);
    match differs {
        None => text.extend_from_slice(format!(in alloc; "ok {number} - {name}\n")?.as_bytes())?,
        Some(differs) => {
            text.extend_from_slice(format!(in alloc; "not ok {number} - {name}\n")?.as_bytes())?;
            push_remarks(&mut text, in_line(alloc, differs.line)?.as_bytes())?;
            push_remarks(&mut text, differs.text.as_slice())?;
        }
    }
    Ok(text)
}

/// What is told of a transcript by its number and name.
pub fn told(
    alloc: Global,
    form: TestForm,
    number: usize,
    name: &str,
    differs: Option<&Differs>,
) -> Result<Vec<u8>, AllocError>
    ensures { IfOk result (λ text. text.items ≡ told form number name.now (option_map (λ d. d.now) differs.entry)) }
{
    match form {
        TestForm::Text => told_plainly(alloc, name, differs),
        TestForm::Tap => told_as_tap(alloc, number, name, differs),
    }
}

/// What is told of a transcript that was written anew.
pub fn updated(
    alloc: Global,
    form: TestForm,
    number: usize,
    name: &str,
) -> Result<String, AllocError>
    ensures { IfOk result (λ text. string_bytes text ≡ updated form number name.now) }
{
    match form {
        TestForm::Text => Ok(format!(in alloc; "updated {name}\n")?),
        TestForm::Tap => Ok(format!(in alloc; "ok {number} - {name} # updated\n")?),
    }
}

/// Lines as remarks of the Test Anything Protocol.
pub fn remarks(alloc: Global, lines: &[u8]) -> Result<Vec<u8>, AllocError>
    ensures { IfOk result (λ text. text.items ≡ remarks true lines.now) }
{
    let mut text = Vec::new(alloc);
    push_remarks(&mut text, lines)?;
    Ok(text)
}

/// What is told last: how many passed and failed, or the protocol's plan.
pub fn summary(
    alloc: Global,
    form: TestForm,
    passed: usize,
    failed: usize,
) -> Result<String, AllocError>
    requires { passed + failed < 2 ^ 63 }
    ensures { IfOk result (λ text. string_bytes text ≡ summary form passed failed) }
{
    match form {
        TestForm::Text => Ok(format!(in alloc; "{passed} passed, {failed} failed\n")?),
        TestForm::Tap => {
            let all = passed + failed;
            Ok(format!(in alloc; "1..{all}\n")?)
        }
    }
}
