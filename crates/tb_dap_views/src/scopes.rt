//! What the scopes of a frame show: variables, registers, and the run.
ghost use Rattle.std.specs.Prelude.{◌≡◌, ◌++◌, ◌∷◌, [], ◌+◌, ◌<◌, ◌≤◌, IfOk, OnOk, length, map, option_map};
ghost use Rattle.serde_json.specs.View.{view};
ghost use Rattle.tb_dap_views.specs.Scopes as spec;

use crate::texts::{address_text, byte_text, reference};
use serde_json::{Value, json};
use std::alloc::{AllocError, Global};
use tb_compiled_kept::VARS;
use tb_cpu::Regs;
use tb_dap_values::{named_value, variable_value, variables_body};
use tb_debug::{Debugger, Variables};
use tb_debug_inspection::status_text;
use tb_kernal::Status;

// The variable at an index in the alphabet, with its value.
fn variable_at(alloc: Global, index: usize, value: i16) -> Result<Value, AllocError>
    requires { index < 26 }
    ensures { IfOk result (λ v. view v ≡ spec.variable_of index value) }
{
    let letter = char::from(b'A' + index as u8);
    let name = format!(in alloc; "{letter}")?;
    let shown = format!(in alloc; "{value}")?;
    let address = reference(alloc, u32::from(VARS) + 2 * index as u32)?;
    variable_value(alloc, &name, &shown, &address)
}

fn push_variable(
    alloc: Global,
    values: &mut Vec<Value>,
    index: usize,
    value: i16,
) -> Result<(), AllocError>
    requires { index < 26 }
    ensures { OnOk result (map view values.new.items ≡ map view values.old.items ++ spec.variable_of index value ∷ []) }
{
    values.push(variable_at(alloc, index, value)?)?;
    Ok(())
}

// Appends variables, of which the first has this index in the alphabet.
fn push_variables(
    alloc: Global,
    values: &mut Vec<Value>,
    index: usize,
    variables: &[i16],
) -> Result<(), AllocError>
    requires { index + length variables.now ≤ 26 }
    ensures { OnOk result (map view values.new.items ≡ map view values.old.items ++ spec.variables_from index variables.now) }
{
    match variables {
        [] => Ok(()),
        [first, rest @ ..] => {
            push_variable(alloc, values, index, *first)?;
            push_variables(alloc, values, index + 1, rest)
        }
    }
}

/// The variables.
pub fn variables_value(alloc: Global, variables: &Variables) -> Result<Value, AllocError>
    ensures { IfOk result (λ v. view v ≡ spec.variables_of variables.now) }
{
    let mut values = Vec::new(alloc);
    push_variables(alloc, &mut values, 0, variables)?;
    variables_body(alloc, values)
}

// A register of a byte.
fn byte_value(alloc: Global, name: &str, byte: u8) -> Result<Value, AllocError>
    ensures { IfOk result (λ v. view v ≡ spec.byte_of name.now byte) }
{
    let shown = byte_text(alloc, byte)?;
    named_value(alloc, name, &shown)
}

// The program counter.
fn pc_value(alloc: Global, pc: u16) -> Result<Value, AllocError>
    ensures { IfOk result (λ v. view v ≡ spec.pc_of pc) }
{
    let shown = address_text(alloc, pc)?;
    named_value(alloc, "PC", &shown)
}

/// The registers.
pub fn registers_value(alloc: Global, regs: Regs) -> Result<Value, AllocError>
    ensures { IfOk result (λ v. view v ≡ spec.registers_of regs) }
{
    let pc = pc_value(alloc, regs.pc)?;
    let a = byte_value(alloc, "A", regs.a)?;
    let x = byte_value(alloc, "X", regs.x)?;
    let y = byte_value(alloc, "Y", regs.y)?;
    let s = byte_value(alloc, "S", regs.s)?;
    let p = byte_value(alloc, "P", regs.flags.to_byte())?;
    json!(in alloc; {"variables": [pc, a, x, y, s, p]})
}

// How many lines are done, or were begun.
fn time_value(alloc: Global, time: u64) -> Result<Value, AllocError>
    ensures { IfOk result (λ v. view v ≡ spec.time_of time) }
{
    let shown = format!(in alloc; "{time}")?;
    named_value(alloc, "time", &shown)
}

/// The run: how many lines are done, or were begun, and how the machine stands.
pub fn run_value(alloc: Global, time: u64, status: Status) -> Result<Value, AllocError>
    ensures { IfOk result (λ v. view v ≡ spec.run_of time status) }
{
    let time = time_value(alloc, time)?;
    let status = named_value(alloc, "status", status_text(status))?;
    json!(in alloc; {"variables": [time, status]})
}

/// What a scope of a run shows, by the number that asks for it; none where it is no scope's.
pub fn scope_value(
    alloc: Global,
    debugger: &Debugger<'_>,
    scope: u64,
) -> Result<Option<Value>, AllocError>
    ensures { IfOk result (λ v. option_map view v ≡ spec.scope_of debugger.now scope) }
{
    match scope {
        1 => Ok(Some(variables_value(alloc, &debugger.variables())?)),
        2 => Ok(Some(registers_value(alloc, debugger.machine().regs())?)),
        3 => {
            let status = debugger.machine().status();
            Ok(Some(run_value(alloc, debugger.begun(), status)?))
        }
        _ => Ok(None),
    }
}
