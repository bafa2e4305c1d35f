//! Bytes of a run's memory.
ghost use Rattle.std.specs.Prelude.{◌≡◌, ◌≤◌, IfOk};
ghost use Rattle.serde_json.specs.View.{view};
ghost use Rattle.tb_memmap.specs.Bytes.{at};
ghost use Rattle.tb_kernal.specs.Machine.{state_of};
ghost use Rattle.tb_dap_views.specs.Memory as spec;

use crate::texts::reference;
use base64::engine::general_purpose::STANDARD;
use serde_json::Value;
use std::alloc::{AllocError, Global};
use tb_dap_values::memory_body;
use tb_debug::Debugger;
use tb_memmap::Memory;

/// How many places there are.
const PLACES: u64 = 65_536;

/// A place or an index so many on or back; none before the first one. Farther on than 65,536 is all the same.
pub fn shifted(place: u32, offset: i64) -> Option<u32>
    requires { place ≤ 131072 }
    ensures { result ≡ spec.shifted place offset }
{
    if offset < 0 {
        let back = offset.unsigned_abs();
        if back <= u64::from(place) {
            Some(place - back as u32)
        } else {
            None
        }
    } else {
        Some(place + (offset as u64).min(PLACES) as u32)
    }
}

/// The bytes from a place on, `count` at most, up to the first place that is closed or outside.
pub fn readable(
    alloc: Global,
    memory: &Memory,
    place: u32,
    count: u64,
) -> Result<Vec<u8>, AllocError>
    ensures { IfOk result (λ bytes. bytes.items ≡ spec.readable (spec.many place count) (at memory.now) place) }
{
    let mut bytes = Vec::new(alloc);
    for index in 0..count.min(PLACES.saturating_sub(u64::from(place))) {
        match memory.read((place + index as u32) as u16) {
            Ok(byte) => bytes.push(byte)?,
            Err(_) => return Ok(bytes),
        }
    }
    Ok(bytes)
}

// The bytes that can be read from a place on that may be none.
fn bytes_from(
    alloc: Global,
    memory: &Memory,
    place: Option<u32>,
    count: u64,
) -> Result<Vec<u8>, AllocError>
    ensures { IfOk result (λ bytes. bytes.items ≡ spec.bytes_from (at memory.now) place count) }
{
    match place {
        Some(place) => readable(alloc, memory, place, count),
        None => Ok(Vec::new(alloc)),
    }
}

/// The memory of a run from a place on, and how many of `count` bytes can't be read; before the first place none can.
pub fn memory_value(
    alloc: Global,
    debugger: &Debugger<'_>,
    place: Option<u32>,
    count: u64,
) -> Result<Value, AllocError>
    ensures { IfOk result (λ v. view v ≡ spec.memory_of (state_of debugger.now.present.machine).mem place count) }
{
    let bytes = bytes_from(alloc, debugger.machine().memory(), place, count)?;
    let address = reference(alloc, place.unwrap_or(0))?;
    let text = STANDARD.encode(alloc, &bytes)?;
    memory_body(
        alloc,
        &address,
        &text,
        count.saturating_sub(bytes.len() as u64),
    )
}
