//! Bodies of answers and events.
ghost use Rattle.std.specs.Prelude.{◌≡◌, IfOk};
ghost use Rattle.serde_json.specs.View.{items_view, view};
ghost use Rattle.tb_dap_values.specs.Bodies as spec;

use serde_json::{Value, json};
use std::alloc::{AllocError, Global};

/// What the adapter supports.
pub fn capabilities_body(alloc: Global) -> Result<Value, AllocError>
    ensures { IfOk result (λ v. view v ≡ spec.capabilities_body) }
{
    json!(in alloc; {
        "supportsConfigurationDoneRequest": true,
        "supportsDataBreakpoints": true,
        "supportsDisassembleRequest": true,
        "supportsEvaluateForHovers": true,
        "supportsReadMemoryRequest": true,
        "supportsStepBack": true,
        "supportsSteppingGranularity": true,
        "supportsTerminateRequest": true
    })
}

/// A text that is written in a category.
pub fn output_body(alloc: Global, category: &str, text: &str) -> Result<Value, AllocError>
    ensures { IfOk result (λ v. view v ≡ spec.output_body category.now text.now) }
{
    json!(in alloc; {"category": category, "output": text})
}

/// That a run stopped, and why.
pub fn stopped_body(alloc: Global, reason: &str, description: &str) -> Result<Value, AllocError>
    ensures { IfOk result (λ v. view v ≡ spec.stopped_body reason.now description.now) }
{
    json!(in alloc; {
        "allThreadsStopped": true,
        "description": description,
        "reason": reason,
        "threadId": 1
    })
}

/// That a run stopped at the breakpoint of a line.
pub fn stopped_at_body(alloc: Global, description: &str, line: u16) -> Result<Value, AllocError>
    ensures { IfOk result (λ v. view v ≡ spec.stopped_at_body description.now line) }
{
    json!(in alloc; {
        "allThreadsStopped": true,
        "description": description,
        "hitBreakpointIds": [line],
        "reason": "breakpoint",
        "threadId": 1
    })
}

/// That a run goes on.
pub fn continued_body(alloc: Global) -> Result<Value, AllocError>
    ensures { IfOk result (λ v. view v ≡ spec.continued_body) }
{
    json!(in alloc; {"threadId": 1})
}

/// That a run goes on with all its threads.
pub fn all_continued_body(alloc: Global) -> Result<Value, AllocError>
    ensures { IfOk result (λ v. view v ≡ spec.all_continued_body) }
{
    json!(in alloc; {"allThreadsContinued": true})
}

/// How a run ended.
pub fn exited_body(alloc: Global, code: u8) -> Result<Value, AllocError>
    ensures { IfOk result (λ v. view v ≡ spec.exited_body code) }
{
    json!(in alloc; {"exitCode": code})
}

/// The only thread.
pub fn threads_body(alloc: Global, name: &str) -> Result<Value, AllocError>
    ensures { IfOk result (λ v. view v ≡ spec.threads_body name.now) }
{
    json!(in alloc; {"threads": [{"id": 1, "name": name}]})
}

/// A file.
pub fn source_value(alloc: Global, name: &str, path: &str) -> Result<Value, AllocError>
    ensures { IfOk result (λ v. view v ≡ spec.source_value name.now path.now) }
{
    json!(in alloc; {"name": name, "path": path})
}

/// The frame before the first line, with where its code is.
pub fn start_value(alloc: Global, address: &str) -> Result<Value, AllocError>
    ensures { IfOk result (λ v. view v ≡ spec.start_value address.now) }
{
    json!(in alloc; {
        "column": 0,
        "id": 1,
        "instructionPointerReference": address,
        "line": 0,
        "name": "start"
    })
}

/// A frame at a line of a file, with where its code is, and the line as it is written.
pub fn frame_value(
    alloc: Global,
    id: u64,
    line: u64,
    text: &str,
    address: &str,
    source: Value,
) -> Result<Value, AllocError>
    ensures { IfOk result (λ v. view v ≡ spec.frame_value id line text.now address.now (view source)) }
{
    json!(in alloc; {
        "column": 1,
        "id": id,
        "instructionPointerReference": address,
        "line": line,
        "name": text,
        "source": source
    })
}

/// Frames, of so many in all.
pub fn stack_body(alloc: Global, frames: Vec<Value>, count: usize) -> Result<Value, AllocError>
    ensures { IfOk result (λ v. view v ≡ spec.stack_body (items_view frames.items) count) }
{
    let frames = Value::Array(frames);
    json!(in alloc; {"stackFrames": frames, "totalFrames": count})
}

// A scope, by a name and the number that asks for what it shows.
fn scope_value(alloc: Global, name: &str, reference: u64) -> Result<Value, AllocError>
    ensures { IfOk result (λ v. view v ≡ spec.scope_value name.now reference) }
{
    json!(in alloc; {"expensive": false, "name": name, "variablesReference": reference})
}

/// A variable of the program, with its value and where it is.
pub fn variable_value(
    alloc: Global,
    name: &str,
    value: &str,
    address: &str,
) -> Result<Value, AllocError>
    ensures { IfOk result (λ v. view v ≡ spec.variable_value name.now value.now address.now) }
{
    json!(in alloc; {
        "evaluateName": name,
        "memoryReference": address,
        "name": name,
        "type": "word",
        "value": value,
        "variablesReference": 0
    })
}

/// Anything else that has a name and a text.
pub fn named_value(alloc: Global, name: &str, value: &str) -> Result<Value, AllocError>
    ensures { IfOk result (λ v. view v ≡ spec.named_value name.now value.now) }
{
    json!(in alloc; {"name": name, "value": value, "variablesReference": 0})
}

/// What a scope shows.
pub fn variables_body(alloc: Global, values: Vec<Value>) -> Result<Value, AllocError>
    ensures { IfOk result (λ v. view v ≡ spec.variables_body (items_view values.items)) }
{
    let values = Value::Array(values);
    json!(in alloc; {"variables": values})
}

/// The value of an expression.
pub fn value_body(alloc: Global, value: &str) -> Result<Value, AllocError>
    ensures { IfOk result (λ v. view v ≡ spec.value_body value.now) }
{
    json!(in alloc; {"result": value, "type": "word", "variablesReference": 0})
}

/// That something was typed.
pub fn typed_body(alloc: Global) -> Result<Value, AllocError>
    ensures { IfOk result (λ v. view v ≡ spec.typed_body) }
{
    json!(in alloc; {"result": "typed", "variablesReference": 0})
}

/// Bytes from an address on in base64, and how many more can't be read.
pub fn memory_body(
    alloc: Global,
    address: &str,
    bytes: &str,
    unreadable: u64,
) -> Result<Value, AllocError>
    ensures { IfOk result (λ v. view v ≡ spec.memory_body address.now bytes.now unreadable) }
{
    json!(in alloc; {"address": address, "data": bytes, "unreadableBytes": unreadable})
}

/// What each frame shows.
pub fn scopes_body(alloc: Global) -> Result<Value, AllocError>
    ensures { IfOk result (λ v. view v ≡ spec.scopes_body) }
{
    let variables = scope_value(alloc, "Variables", 1)?;
    let registers = scope_value(alloc, "Registers", 2)?;
    let run = scope_value(alloc, "Run", 3)?;
    json!(in alloc; {"scopes": [variables, registers, run]})
}
