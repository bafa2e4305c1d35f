//! What requests ask for.
ghost use Rattle.std.specs.Prelude.{◌≡◌};
ghost use Rattle.tb_dap_values.specs.Requests as spec;

/// What a request asks for.
#[derive(Clone, Copy, Debug, PartialEq, Eq, Drop)]
pub enum Command {
    Initialize,
    Launch,
    ConfigurationDone,
    Disconnect,
    Terminate,
    Pause,
    Move(Movement),
    SetBreakpoints,
    DataBreakpointInfo,
    SetDataBreakpoints,
    SetExceptionBreakpoints,
    Threads,
    StackTrace,
    Scopes,
    Variables,
    Evaluate,
    ReadMemory,
    Disassemble,
    /// What would change the run.
    Change,
}

/// How a run is moved.
#[derive(Clone, Copy, Debug, PartialEq, Eq, Drop)]
pub enum Movement {
    Continue,
    StepIn,
    Next,
    StepOut,
    StepBack,
    ReverseContinue,
}

/// What a request asks for, by its name.
pub fn command_of(name: &str) -> Option<Command>
    ensures { result ≡ spec.command_of name.now }
{
    match name {
        "initialize" => Some(Command::Initialize),
        "launch" => Some(Command::Launch),
        "configurationDone" => Some(Command::ConfigurationDone),
        "disconnect" => Some(Command::Disconnect),
        "terminate" => Some(Command::Terminate),
        "pause" => Some(Command::Pause),
        "setBreakpoints" => Some(Command::SetBreakpoints),
        "dataBreakpointInfo" => Some(Command::DataBreakpointInfo),
        "setDataBreakpoints" => Some(Command::SetDataBreakpoints),
        "setExceptionBreakpoints" => Some(Command::SetExceptionBreakpoints),
        "threads" => Some(Command::Threads),
        "stackTrace" => Some(Command::StackTrace),
        "scopes" => Some(Command::Scopes),
        "variables" => Some(Command::Variables),
        "evaluate" => Some(Command::Evaluate),
        "readMemory" => Some(Command::ReadMemory),
        "disassemble" => Some(Command::Disassemble),
        "setVariable" | "setExpression" | "writeMemory" => Some(Command::Change),
        _ => match movement_of(name) {
            Some(movement) => Some(Command::Move(movement)),
            None => None,
        },
    }
}

// A movement by its name.
fn movement_of(name: &str) -> Option<Movement>
    ensures { result ≡ spec.movement_of name.now }
{
    match name {
        "continue" => Some(Movement::Continue),
        "stepIn" => Some(Movement::StepIn),
        "next" => Some(Movement::Next),
        "stepOut" => Some(Movement::StepOut),
        "stepBack" => Some(Movement::StepBack),
        "reverseContinue" => Some(Movement::ReverseContinue),
        _ => None,
    }
}
