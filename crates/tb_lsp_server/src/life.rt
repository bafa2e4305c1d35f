//! The life of a server: what is done with requests at each stage of it.
ghost use Rattle.std.specs.Prelude.{◌≡◌};
ghost use Rattle.serde_json.specs.View.{view};
ghost use Rattle.tb_lsp_server.specs.Life.{answered, decision_of};

use serde_json::Value;
use tb_editor_messages::Refusal;
use tb_lsp_answers::{Request, request_of};

/// How far a server's life is.
#[derive(Clone, Copy, Debug, PartialEq, Eq, Drop)]
pub enum Stage {
    /// It was not initialized.
    New,
    Ready,
    /// It was shut down.
    Shut,
}

/// What is done with a request.
#[derive(Clone, Copy, Drop)]
pub enum Decision {
    /// It tells what it can do, and is ready.
    Begin,
    /// It shuts down.
    End,
    /// This is asked of a text.
    Answer(Request),
    Refuse(Refusal),
}

// What is done with a request on a text, if it is known.
fn answered(request: Option<Request>) -> Decision
    ensures { result ≡ answered request }
{
    match request {
        Some(request) => Decision::Answer(request),
        None => Decision::Refuse(Refusal::UnknownMethod),
    }
}

/// What is done with a request at a stage, by its method and params.
pub fn decide(stage: Stage, method: &str, params: &Value) -> Decision
    ensures { result ≡ decision_of stage method.now (view params.now) }
{
    match stage {
        Stage::New => match method {
            "initialize" => Decision::Begin,
            _ => Decision::Refuse(Refusal::NotInitialized),
        },
        Stage::Ready => match method {
            "initialize" => Decision::Refuse(Refusal::Initialized),
            "shutdown" => Decision::End,
            _ => answered(request_of(method, params)),
        },
        Stage::Shut => Decision::Refuse(Refusal::ShutDown),
    }
}
