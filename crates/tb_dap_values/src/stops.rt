//! Breakpoints and watches, as they are answered.
ghost use Rattle.std.specs.Prelude.{◌≡◌, IfOk};
ghost use Rattle.serde_json.specs.View.{items_view, view};
ghost use Rattle.tb_dap_values.specs.Stops as spec;

use serde_json::{Value, json};
use std::alloc::{AllocError, Global};

// What is said, text by text.
const NO_VARIABLE: &str = "no variable";

/// A breakpoint that is set at a line of a file.
pub fn verified_value(alloc: Global, id: u16, line: u64, source: Value) -> Result<Value, AllocError>
    ensures { IfOk result (λ v. view v ≡ spec.verified_value id line (view source)) }
{
    json!(in alloc; {"id": id, "line": line, "source": source, "verified": true})
}

/// A breakpoint that is not set, and why.
pub fn unverified_value(alloc: Global, why: &str) -> Result<Value, AllocError>
    ensures { IfOk result (λ v. view v ≡ spec.unverified_value why.now) }
{
    json!(in alloc; {"message": why, "verified": false})
}

/// A watch that is set.
pub fn watched_value(alloc: Global) -> Result<Value, AllocError>
    ensures { IfOk result (λ v. view v ≡ spec.watched_value) }
{
    json!(in alloc; {"verified": true})
}

/// Breakpoints, in the order in which they were asked for.
pub fn breakpoints_body(alloc: Global, values: Vec<Value>) -> Result<Value, AllocError>
    ensures { IfOk result (λ v. view v ≡ spec.breakpoints_body (items_view values.items)) }
{
    let values = Value::Array(values);
    json!(in alloc; {"breakpoints": values})
}

/// That a variable can be watched.
pub fn watchable_body(alloc: Global, name: &str) -> Result<Value, AllocError>
    ensures { IfOk result (λ v. view v ≡ spec.watchable_body name.now) }
{
    json!(in alloc; {
        "accessTypes": ["write"],
        "canPersist": true,
        "dataId": name,
        "description": name
    })
}

/// That something can't be watched.
pub fn unwatchable_body(alloc: Global) -> Result<Value, AllocError>
    ensures { IfOk result (λ v. view v ≡ spec.unwatchable_body) }
{
    json!(in alloc; {"dataId": null, "description": NO_VARIABLE})
}
