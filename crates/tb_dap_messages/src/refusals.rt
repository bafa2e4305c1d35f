//! Why a message or a request is refused.
ghost use Rattle.std.specs.Prelude.{◌≡◌};
ghost use Rattle.tb_dap_messages.specs.Refusals.{text_of};

use tb_editor_messages::{INITIALIZED, NO_JSON, NO_MESSAGE, NOT_INITIALIZED, TOO_LARGE};

// What else is said, text by text.
const UNKNOWN_COMMAND: &str = "unknown command";

const BAD_ARGUMENTS: &str = "bad arguments";

const NOT_LAUNCHED: &str = "not launched";

const LAUNCHED: &str = "launched already";

const NOT_STARTED: &str = "not started";

const STARTED: &str = "started already";

const BAD_KEYS: &str = "bad key list";

const READ_FAULT: &str = "read fault";

const TOO_MUCH_TYPED: &str = "too much is typed";

const NO_CHANGE: &str = "a run can't be changed: type other keys, or launch with another seed";

/// Why a message or a request is refused.
#[derive(Clone, Copy, Debug, PartialEq, Eq, Drop)]
pub enum Refusal {
    /// A content is no JSON.
    NoJson,
    /// A content has too many bytes.
    TooLarge,
    /// A content is no message.
    NoMessage,
    UnknownCommand,
    /// The arguments have not the form that the command asks for.
    BadArguments,
    /// Nothing can be asked yet.
    NotInitialized,
    Initialized,
    /// No program is debugged yet.
    NotLaunched,
    Launched,
    /// The run was not begun yet.
    NotStarted,
    Started,
    /// The run can't be moved any more.
    Terminated,
    /// The keys are no list of bytes in hexadecimal digits.
    BadKeys,
    /// The program's file can't be read.
    ReadFault,
    /// No more can be typed.
    TooMuchTyped,
    /// A run that was changed is no run of the program.
    NoChange,
}

impl Refusal {
    /// What is said of it.
    pub fn text(self) -> &'static str
        ensures { result.now ≡ text_of self }
    {
        match self {
            Refusal::NoJson => NO_JSON,
            Refusal::TooLarge => TOO_LARGE,
            Refusal::NoMessage => NO_MESSAGE,
            Refusal::UnknownCommand => UNKNOWN_COMMAND,
            Refusal::BadArguments => BAD_ARGUMENTS,
            Refusal::NotInitialized => NOT_INITIALIZED,
            Refusal::Initialized => INITIALIZED,
            Refusal::NotLaunched => NOT_LAUNCHED,
            Refusal::Launched => LAUNCHED,
            Refusal::NotStarted => NOT_STARTED,
            Refusal::Started => STARTED,
            Refusal::Terminated => "terminated",
            Refusal::BadKeys => BAD_KEYS,
            Refusal::ReadFault => READ_FAULT,
            Refusal::TooMuchTyped => TOO_MUCH_TYPED,
            Refusal::NoChange => NO_CHANGE,
        }
    }
}
