//! The dialogue with an editor.
ghost use Rattle.std.specs.Prelude.{◌≡◌, IfOk};
ghost use Rattle.tb_editor_dialogue.specs.Dialogue.{streams};
ghost use Rattle.tb_lsp_server.specs.Dialogue.{IsTurn, RepliesTo, ServesNew};
ghost use Rattle.tb_lsp_server.specs.Outcomes.{end_of};
ghost use Rattle.tb_engine_streams.specs.Failures.{failures_of};

use crate::life::Stage;
use crate::outcome::{Served, ServerOutcome};
use crate::server::{Reply, Server};
use std::alloc::{AllocError, Global};
use std::io::{Read, Write};
use tb_basic_text::Notation;
use tb_compiled::Compile;
use tb_editor_dialogue::{Heard, Talker, Turn, converse};
use tb_editor_frames::frame_of;
use tb_editor_messages::{Refusal, failure};
use tb_engine_streams::Tracked;

// A server, with the compiler that it asks.
#[derive(Drop)]
struct Serving<'a, K> {
    compiler: &'a K,
    server: Server,
}

// How a server ends that is asked to, or whose input ends.
fn end_of(stage: Stage) -> Served
    ensures { result ≡ end_of stage }
{
    match stage {
        Stage::Shut => Served::Ended,
        Stage::New | Stage::Ready => Served::NotShutDown,
    }
}

// What is said to what is heard.
fn reply_to<K: Compile>(
    compiler: &K,
    alloc: Global,
    server: &mut Server,
    heard: &Heard,
) -> Result<Reply, AllocError>
    ensures { IfOk result (λ reply. RepliesTo K.own heard.now server.old reply server.new) }
{
    match heard {
        Heard::Value(value) => server.take(compiler, alloc, value),
        Heard::NoJson => Ok(Reply::Content(failure(alloc, None, Refusal::NoJson)?)),
        Heard::TooLarge => Ok(Reply::Content(failure(alloc, None, Refusal::TooLarge)?)),
    }
}

// The turn of a reply, by the server's stage then.
fn turn_of(alloc: Global, reply: Reply, stage: Stage) -> Result<Turn<Served>, AllocError>
    ensures { IfOk result (IsTurn reply stage) }
{
    match reply {
        Reply::Nothing => Ok(Turn {
            frames: None,
            end: None,
        }),
        Reply::Content(content) => {
            let frame = frame_of(alloc, content.as_slice())?;
            Ok(Turn {
                frames: Some(frame),
                end: None,
            })
        }
        Reply::Exit => Ok(Turn {
            frames: None,
            end: Some(end_of(stage)),
        }),
    }
}

impl<K: Compile> Talker for Serving<'_, K> {
    ghost use Rattle.tb_lsp_server.specs.Dialogue.{Answers, EndsAs};

    type End = Served;

    ghost takes = { λ s heard result t. Answers K.own s.server heard result t.server };

    ghost ends = { λ s end. EndsAs s.server end };

    fn take(&mut self, alloc: Global, heard: &Heard) -> Result<Turn<Served>, AllocError> {
        let reply = reply_to(self.compiler, alloc, &mut self.server, heard)?;
        turn_of(alloc, reply, self.server.stage)
    }

    fn end(&self) -> Served {
        end_of(self.server.stage)
    }
}

/// Reads messages and answers each before the next one is read, up to the end. Sources are read in the notation.
pub fn serve<K: Compile, R: Read, W: Write>(
    compiler: &K,
    alloc: Global,
    version: &'static str,
    notation: Notation,
    reader: &mut Tracked<R>,
    writer: &mut Tracked<W>,
) -> ServerOutcome
    ensures { ServesNew K.own version.now notation
        (streams (R.remaining reader.old.stream) (failures_of reader.old) (W.contents writer.old.stream) (failures_of writer.old))
        result
        (streams (R.remaining reader.new.stream) (failures_of reader.new) (W.contents writer.new.stream) (failures_of writer.new)) }
{
    let mut serving = Serving {
        compiler,
        server: Server::new(alloc, version, notation),
    };
    converse(alloc, &mut serving, reader, writer)
}
