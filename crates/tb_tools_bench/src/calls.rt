//! Each call that may run out of memory, on the input of its worked row.
mod assembly;
mod machines;
mod sources;

use crate::failure::Failure;
use machines::StepperCall;
use sources::SourceCall;
use std::alloc::Global;

/// Makes the call of a name, and appends its answer to a text.
pub fn show(alloc: Global, name: &str, text: &mut String) -> Result<(), Failure> {
    match name {
        "host_form" => sources::show_host_form(alloc, text),
        "key_list" => sources::show_key_list(alloc, text),
        "compile" => sources::show_sources(alloc, SourceCall::Compile, text),
        "make" => sources::show_sources(alloc, SourceCall::Make, text),
        "bad_lines" => sources::show_bad_lines(alloc, text),
        "parse" => sources::show_sources(alloc, SourceCall::Parse, text),
        "parse_expr" => sources::show_parse_expr(alloc, text),
        "tokens" => sources::show_tokens(alloc, text),
        "lower" => sources::show_sources(alloc, SourceCall::Lower, text),
        "warnings" => sources::show_sources(alloc, SourceCall::Warnings, text),
        "assemble" => assembly::show_assemble(alloc, text),
        "settle" => assembly::show_settle(alloc, text),
        "assemble_settled" => assembly::show_assemble_settled(alloc, text),
        "read_text" => assembly::show_read_text(alloc, text),
        "write" => assembly::show_write(alloc, text),
        "disassemble" => assembly::show_disassemble(alloc, text),
        "Listing::text" => assembly::show_listing_text(alloc, text),
        "disk" => assembly::show_disk(alloc, text),
        "Memory::new" => machines::show_memory(alloc, text),
        "reserve" => machines::show_reserve(alloc, text),
        "type_text" => machines::show_type_text(alloc, text),
        "run" => machines::show_run(alloc, text),
        "Stepper::new" => machines::show_stepper(alloc, StepperCall::New, text),
        "step" => machines::show_stepper(alloc, StepperCall::Step, text),
        "to_line" => machines::show_stepper(alloc, StepperCall::ToLine, text),
        _ => Err(Failure::NoSuchWord),
    }
}
