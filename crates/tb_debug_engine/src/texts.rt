//! The texts of answers.
ghost use Rattle.std.specs.Prelude.{◌≡◌, ◌+◌, ◌^◌, ◌<◌, flat_map, length, map, min, true, IfOk};
ghost use Rattle.tb_words.specs.Texts.{AppendsBytes};
ghost use Rattle.tb_basic_source.specs.Lines.{pair_of};
ghost use Rattle.tb_debug_inspection.specs.Texts.{registers_text, value_text};
ghost use Rattle.tb_debug_engine.specs.Lists.{written};
ghost use Rattle.tb_debug_engine.specs.Sources.{shown_of};
ghost use Rattle.tb_debug_engine.specs.Texts as texts;
ghost use Rattle.tb_debug_engine.specs.Texts.{address_line, barred_from, byte_text, bytes_text, code_text, faults_text, or_none, location_text};
ghost use Rattle.tb_debug_engine.specs.Texts.{return_text, row_text, sent_text, stand_text, standing_text, unless_zero};
ghost use Rattle.tb_debug_engine.specs.Texts.{variable_text, variables_from, what_text};

use crate::labels::{push_place, standing};
use crate::lists::{push_list, push_written};
use crate::sources::Written;
use hex::encode_upper;
use std::alloc::{AllocError, Global};
use tb_basic_source::Numbered;
use tb_cpu::Regs;
use tb_debug::{Answer, Location, Stand, Value};
use tb_debug_inspection::{
    LIMIT, NO_SUCH_LINE, WHAT, push_address, push_registers, push_value, status_text,
};
use tb_disasm::{Line, Listing};
use tb_engine_streams::host_form;
use tb_engines::end_of;
use tb_kernal::Status;

// What is said, text by text.
const STOPS_AT_FAULTS: &[u8] = b"stops at faults";

const GOES_THROUGH_FAULTS: &[u8] = b"goes through faults";

const UNKNOWN: &[u8] = b"what? (h lists the commands)";

const NO_SOURCE: &[u8] = b"no source";

/// How many bytes of memory are shown on a line.
const ROW: usize = 16;

/// The name of the first variable.
const FIRST_NAME: u8 = b'A';

/// The index of the last variable in the alphabet.
const LAST_NAMED: usize = 25;

/// The table of commands.
const HELP: &[u8] = b"n [K]      on by K lines
p [K]      back by K lines
c          on to a breakpoint or behind a line that changes what is watched
rc         back to a breakpoint or to a line that changed what is watched
j          on to the next line, over a GOSUB with all it does, or as c
u          on out of the subroutine, or as c
b [N]      breakpoint at line N on or off; all breakpoints
w X        watch on variable X on or off
f          stop of c at the line that faults on or off
g N        on to line N
t M        to time M, when M lines are done
l [N]      source round the place, or round line N
v [X]      variables that are not 0, or variable X
e EXPR     value of an expression
r          lines to return to, the newest first
o          all output so far
k TEXT     types TEXT and a return
s [K]      on by K machine steps
x          registers
m ADDR [K] K bytes of memory, ADDR four hexadecimal digits
i          machine code here
h          this help
q          end
";

// Appends a text in a line of its own.
fn push_line(text: &mut Vec<u8>, shown: &[u8]) -> Result<(), AllocError>
    ensures { AppendsBytes result text.old text.new (texts.line shown.now) }
{
    text.extend_from_slice(shown)?;
    text.push(b'\n')?;
    Ok(())
}

// Appends the value of an expression, or why it has none, in a line of its own.
fn push_value_line(text: &mut Vec<u8>, value: Value) -> Result<(), AllocError>
    ensures { AppendsBytes result text.old text.new (texts.line (value_text value)) }
{
    push_value(text, value)?;
    text.push(b'\n')?;
    Ok(())
}

// Appends registers, the line in whose code the program counter lies and how the machine stands, in a line of its own.
fn push_registers_line(
    alloc: Global,
    text: &mut Vec<u8>,
    regs: Regs,
    line: Option<u16>,
    status: Status,
) -> Result<(), AllocError>
    ensures { AppendsBytes result text.old text.new (texts.line (registers_text regs line status)) }
{
    push_registers(alloc, text, regs, line, status)?;
    text.push(b'\n')?;
    Ok(())
}

// Appends a text, or `none` if it is empty.
fn push_or_none(text: &mut Vec<u8>, shown: &[u8]) -> Result<(), AllocError>
    ensures { AppendsBytes result text.old text.new (or_none shown.now) }
{
    match shown {
        [] => text.extend_from_slice(b"none\n"),
        _ => text.extend_from_slice(shown),
    }
}

// Appends what was sent in the host form, each line after `| `.
fn push_sent(alloc: Global, text: &mut Vec<u8>, sent: &[u8]) -> Result<(), AllocError>
    ensures { AppendsBytes result text.old text.new (sent_text sent.now) }
{
    let form = host_form(alloc, sent)?;
    push_barred(text, form.as_slice())
}

// Appends a text, each line after `| `, and the end of the last line if it has none.
fn push_barred(text: &mut Vec<u8>, form: &[u8]) -> Result<(), AllocError>
    ensures { AppendsBytes result text.old text.new (barred_from true form.now) }
{
    let mut begins = true;
    for byte in form {
        if begins {
            text.extend_from_slice(b"| ")?;
        }
        begins = *byte == b'\n';
        text.push(*byte)?;
    }
    if !begins {
        text.push(b'\n')?;
    }
    Ok(())
}

// Appends how a machine stands: if it went wrong, as `run` says it.
fn push_status(alloc: Global, text: &mut Vec<u8>, status: Status, pc: u16) -> Result<(), AllocError>
    ensures { AppendsBytes result text.old text.new (texts.line (standing_text status pc)) }
{
    match status {
        Status::Running | Status::Waits | Status::Returned => {
            push_line(text, status_text(status).as_bytes())
        }
        Status::Wrong(_) => {
            let end = end_of(status, pc);
            text.extend_from_slice(format!(in alloc; "{end}\n")?.as_bytes())
        }
    }
}

// Appends the line at which the run is, `start` before the first one, the instruction without a source, or how the machine
// stands.
fn push_location(
    alloc: Global,
    text: &mut Vec<u8>,
    lines: &[Numbered<'_>],
    location: Location,
    instruction: Vec<Line>,
) -> Result<(), AllocError>
    ensures { AppendsBytes result text.old text.new (location_text (map pair_of lines.now) location instruction.items) }
{
    match location {
        Location::Instruction => push_code(alloc, text, instruction),
        Location::Line(number) => push_written(text, lines, number),
        Location::Opening => text.extend_from_slice(b"start\n"),
        Location::Ended { status, pc } => push_status(alloc, text, status, pc),
    }
}

// Appends what was sent since the last stop, whether the limit ended the way here, and where the run is.
fn push_stand(
    alloc: Global,
    text: &mut Vec<u8>,
    lines: &[Numbered<'_>],
    stand: Stand,
) -> Result<(), AllocError>
    ensures { AppendsBytes result text.old text.new (stand_text (map pair_of lines.now) stand) }
{
    push_sent(alloc, text, stand.sent.as_slice())?;
    if stand.is_limit {
        push_line(text, LIMIT)?;
    }
    push_location(alloc, text, lines, stand.location, stand.instruction)
}

// The lines with a breakpoint, as they are written.
fn breakpoints_text(
    alloc: Global,
    lines: &[Numbered<'_>],
    numbers: &[u16],
) -> Result<Vec<u8>, AllocError>
    ensures { IfOk result (λ text. text.items ≡ flat_map (written (map pair_of lines.now)) numbers.now) }
{
    let mut text = Vec::new(alloc);
    for number in numbers {
        push_written(&mut text, lines, *number)?;
    }
    Ok(text)
}

// The addresses with a breakpoint, in lines of their own.
fn addresses_text(alloc: Global, addresses: &[u16]) -> Result<Vec<u8>, AllocError>
    ensures { IfOk result (λ text. text.items ≡ flat_map address_line addresses.now) }
{
    let mut text = Vec::new(alloc);
    for address in addresses {
        push_address_line(alloc, &mut text, *address)?;
    }
    Ok(text)
}

// Appends an address after `$`, in a line of its own.
fn push_address_line(alloc: Global, text: &mut Vec<u8>, address: u16) -> Result<(), AllocError>
    ensures { AppendsBytes result text.old text.new (address_line address) }
{
    text.push(b'$')?;
    push_address(alloc, text, address)?;
    text.push(b'\n')?;
    Ok(())
}

// The name of the variable at an index in the alphabet.
fn name_at(index: usize) -> u8
    ensures { result ≡ 65 + min index 25 }
{
    FIRST_NAME + index.min(LAST_NAMED) as u8
}

// Appends a variable and its value in a line of its own.
fn push_variable(text: &mut Vec<u8>, index: usize, value: i16) -> Result<(), AllocError>
    ensures { AppendsBytes result text.old text.new (variable_text index value) }
{
    text.push(name_at(index))?;
    text.push(b'=')?;
    push_value_line(text, Ok(value))?;
    Ok(())
}

// Appends a variable and its value, unless that is 0.
fn push_unless_zero(text: &mut Vec<u8>, index: usize, value: i16) -> Result<(), AllocError>
    ensures { AppendsBytes result text.old text.new (unless_zero index value) }
{
    if value == 0 {
        return Ok(());
    }
    push_variable(text, index, value)?;
    Ok(())
}

// Appends the variables from an index on that aren't 0.
fn push_variables(text: &mut Vec<u8>, index: usize, values: &[i16]) -> Result<(), AllocError>
    requires { index + length values.now < 2 ^ 63 }
    ensures { AppendsBytes result text.old text.new (variables_from index values.now) }
{
    match values {
        [] => Ok(()),
        [value, rest @ ..] => {
            push_unless_zero(text, index, *value)?;
            push_variables(text, index + 1, rest)?;
            Ok(())
        }
    }
}

// The variables that aren't 0.
fn variables_text(alloc: Global, values: &[i16]) -> Result<Vec<u8>, AllocError>
    ensures { IfOk result (λ text. text.items ≡ variables_from 0 values.now) }
{
    let mut text = Vec::new(alloc);
    push_variables(&mut text, 0, values)?;
    Ok(text)
}

// Appends a line to return to, or `past`.
fn push_return(
    text: &mut Vec<u8>,
    lines: &[Numbered<'_>],
    line: Option<u16>,
) -> Result<(), AllocError>
    ensures { AppendsBytes result text.old text.new (return_text (map pair_of lines.now) line) }
{
    match line {
        Some(number) => push_written(text, lines, number),
        None => text.extend_from_slice(b"past\n"),
    }
}

// The lines to return to, the newest first.
fn returns_text(
    alloc: Global,
    lines: &[Numbered<'_>],
    noted: &[Option<u16>],
) -> Result<Vec<u8>, AllocError>
    ensures { IfOk result (λ text. text.items ≡ flat_map (return_text (map pair_of lines.now)) noted.now) }
{
    let mut text = Vec::new(alloc);
    for line in noted {
        push_return(&mut text, lines, *line)?;
    }
    Ok(text)
}

// What was sent, each line after `| `.
fn sent_text(alloc: Global, sent: &[u8]) -> Result<Vec<u8>, AllocError>
    ensures { IfOk result (λ text. text.items ≡ sent_text sent.now) }
{
    let mut text = Vec::new(alloc);
    push_sent(alloc, &mut text, sent)?;
    Ok(text)
}

// Appends a byte in two hexadecimal digits, or `--` for a closed address.
fn push_byte(alloc: Global, text: &mut Vec<u8>, byte: Option<u8>) -> Result<(), AllocError>
    ensures { AppendsBytes result text.old text.new (byte_text byte) }
{
    match byte {
        Some(byte) => {
            text.push(b' ')?;
            text.extend_from_slice(encode_upper(alloc, [byte])?.as_bytes())
        }
        None => text.extend_from_slice(b" --"),
    }
}

// Appends the end of a line of bytes and the address of the next one, if a line is full after `count` bytes.
fn push_row(alloc: Global, text: &mut Vec<u8>, count: usize, address: u16) -> Result<(), AllocError>
    ensures { AppendsBytes result text.old text.new (row_text count address) }
{
    if count % ROW != 0 {
        return Ok(());
    }
    if 0 < count {
        text.push(b'\n')?;
    }
    push_address(alloc, text, address)
}

// Appends bytes of memory from an address on, which `count` bytes precede.
fn push_bytes(
    alloc: Global,
    text: &mut Vec<u8>,
    count: usize,
    address: u16,
    bytes: &[Option<u8>],
) -> Result<(), AllocError>
    requires { count + length bytes.now < 2 ^ 63 }
    ensures { AppendsBytes result text.old text.new (bytes_text count address bytes.now) }
{
    match bytes {
        [] => Ok(()),
        [byte, rest @ ..] => {
            push_row(alloc, text, count, address)?;
            push_byte(alloc, text, *byte)?;
            push_bytes(alloc, text, count + 1, address.wrapping_add(1), rest)
        }
    }
}

// Appends bytes of memory from an address on, 16 in a line.
fn push_memory(
    alloc: Global,
    text: &mut Vec<u8>,
    at: u16,
    bytes: &[Option<u8>],
) -> Result<(), AllocError>
    ensures { AppendsBytes result text.old text.new (texts.line (bytes_text 0 at bytes.now)) }
{
    push_bytes(alloc, text, 0, at, bytes)?;
    text.push(b'\n')?;
    Ok(())
}

// Appends lines of code as a listing, or `--` if there are none.
fn push_code(alloc: Global, text: &mut Vec<u8>, lines: Vec<Line>) -> Result<(), AllocError>
    ensures { AppendsBytes result text.old text.new (code_text lines.items) }
{
    if lines.is_empty() {
        return text.extend_from_slice(b"--\n");
    }
    text.extend_from_slice(Listing { lines }.text(alloc)?.as_slice())
}

// Appends whether faults stop the run then, in a line of its own.
fn push_faults(text: &mut Vec<u8>, is_set: bool) -> Result<(), AllocError>
    ensures { AppendsBytes result text.old text.new (texts.line (faults_text is_set)) }
{
    if is_set {
        push_line(text, STOPS_AT_FAULTS)
    } else {
        push_line(text, GOES_THROUGH_FAULTS)
    }
}

// Appends the answer to a line that is no command, or to a text that is no expression, in a line of its own: with what
// helps, or without.
fn push_what(text: &mut Vec<u8>, hints: bool) -> Result<(), AllocError>
    ensures { AppendsBytes result text.old text.new (texts.line (what_text hints)) }
{
    if hints {
        push_line(text, UNKNOWN)
    } else {
        push_line(text, WHAT)
    }
}

/// Appends the text of an answer: lines, each ended by 10. With `hints`, `what?` is followed by what helps. A place by a
/// label comes last.
pub fn push_answer(
    alloc: Global,
    text: &mut Vec<u8>,
    source: &Written<'_>,
    hints: bool,
    answer: Answer,
) -> Result<(), AllocError>
    ensures { AppendsBytes result text.old text.new (shown_of hints source.now answer) }
{
    let at = standing(&answer);
    push_text(alloc, text, source, hints, answer)?;
    push_place(alloc, text, source.labels, at)
}

// Appends the text of an answer without a place.
fn push_text(
    alloc: Global,
    text: &mut Vec<u8>,
    source: &Written<'_>,
    hints: bool,
    answer: Answer,
) -> Result<(), AllocError>
    ensures { AppendsBytes result text.old text.new (texts.text_of hints (map pair_of source.now.lines.items) source.now.numbers.items answer) }
{
    let lines = source.lines.as_slice();
    match answer {
        Answer::Stop(stand) => push_stand(alloc, text, lines, stand),
        Answer::Breakpoints(numbers) => {
            push_or_none(text, &breakpoints_text(alloc, lines, &numbers)?)
        }
        Answer::Addresses(addresses) => push_or_none(text, &addresses_text(alloc, &addresses)?),
        Answer::List { around, here } => push_list(text, lines, &source.numbers, around, here),
        Answer::Variables(values) => push_or_none(text, &variables_text(alloc, &values)?),
        Answer::Variable { index, value } => push_variable(text, index, value),
        Answer::Returns(noted) => push_or_none(text, &returns_text(alloc, lines, &noted)?),
        Answer::Output(sent) => push_or_none(text, &sent_text(alloc, &sent)?),
        Answer::Memory { at, bytes } => push_memory(alloc, text, at, &bytes),
        Answer::Code(code) => push_code(alloc, text, code),
        Answer::Help => text.extend_from_slice(HELP),
        Answer::Faults(is_set) => push_faults(text, is_set),
        Answer::Set => text.extend_from_slice(b"set\n"),
        Answer::Cleared => text.extend_from_slice(b"cleared\n"),
        Answer::Typed => text.extend_from_slice(b"typed\n"),
        Answer::Registers { regs, line, status } => {
            push_registers_line(alloc, text, regs, line, status)
        }
        Answer::Value(value) => push_value_line(text, value),
        Answer::NoSuchLine => push_line(text, NO_SUCH_LINE),
        Answer::NoSource => push_line(text, NO_SOURCE),
        Answer::What => push_what(text, hints),
    }
}
