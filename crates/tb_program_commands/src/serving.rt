//! Serving an editor: its messages come from standard input, and each is answered on standard output before the next one
//! is read.
use crate::checking::sources_of;
use std::io;
use std::rt::Files;
use std::time::Clock;
use tb_codegen::TinyBasic;
use tb_compiled::Notation;
use tb_dap_adapter::{AdapterOutcome, Usual};
use tb_engine_streams::Tracked;
use tb_lsp_server::ServerOutcome;
use tb_program_host::{Host, drawn_seed};

/// Serves an editor as its language server of a version, which reads the texts of sources in a notation.
pub fn serve_editor<R: Print + Input + AllocGlobal>(
    rt: &R,
    version: &'static str,
    notation: Notation,
) -> ServerOutcome {
    let mut messages = Tracked::new(rt.reader());
    let mut answers = Tracked::new(io::writer(rt));
    tb_lsp_server::serve(
        &TinyBasic,
        rt.alloc(),
        version,
        notation,
        &mut messages,
        &mut answers,
    )
}

/// Serves an editor as its debug adapter. The source that it launches is opened when that is asked for; its texts are read
/// in this notation, if nothing else is asked for. The clock is read before all.
pub fn serve_debugger<R: Files + Clock + Print + Input + AllocGlobal>(
    host: &Host<'_, R>,
    notation: Notation,
) -> AdapterOutcome {
    let rt = host.rt;
    let mut messages = Tracked::new(rt.reader());
    let mut answers = Tracked::new(io::writer(rt));
    let mut sources = sources_of(host);
    let usual = Usual {
        notation,
        clock: drawn_seed(rt),
    };
    tb_dap_adapter::serve(
        &TinyBasic,
        rt.alloc(),
        usual,
        &mut sources,
        &mut messages,
        &mut answers,
    )
}
