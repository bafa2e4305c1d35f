//! Why a message is refused.
ghost use Rattle.std.specs.Prelude.{◌≡◌};
ghost use Rattle.tb_editor_messages.specs.Refusals.{code_of, text_of};

/// What is said of a content that is no JSON.
pub const NO_JSON: &str = "no JSON";

/// What is said of a content that has too many bytes.
pub const TOO_LARGE: &str = "message too large";

/// What is said of a content that is no message.
pub const NO_MESSAGE: &str = "no message";

/// What is said of a request that comes before the first one.
pub const NOT_INITIALIZED: &str = "not initialized";

/// What is said of a first request that comes again.
pub const INITIALIZED: &str = "initialized already";

// What else is said, text by text.
const SHUT_DOWN: &str = "shut down";

const UNKNOWN_METHOD: &str = "unknown method";

const BAD_PARAMS: &str = "bad params";

const NOT_OPEN: &str = "text not open";

const NO_VARIABLE: &str = "no variable here";

const NOT_A_LETTER: &str = "not a letter";

const BAD_LINE: &str = "bad line in the text";

const LETTER_IN_USE: &str = "letter in use";

const READS_OTHERWISE: &str = "the new text reads otherwise";

/// Why a message is refused.
#[derive(Clone, Copy, Debug, PartialEq, Eq, Drop)]
pub enum Refusal {
    /// Its content is no JSON.
    NoJson,
    /// Its content has too many bytes.
    TooLarge,
    /// It is no message.
    NoMessage,
    /// Nothing can be asked yet.
    NotInitialized,
    /// The server is ready already.
    Initialized,
    /// Nothing can be asked any more.
    ShutDown,
    UnknownMethod,
    /// Its params have not the form that its method asks for.
    BadParams,
    /// The text that it names is not open.
    NotOpen,
    /// No variable is where it asks.
    NoVariable,
    /// The new name of a variable is not one letter.
    NotALetter,
    /// A line of the text is bad.
    BadLine,
    /// The new name of a variable is that of another one.
    LetterInUse,
    /// The new text would be another program.
    ReadsOtherwise,
}

impl Refusal {
    /// The code of the error that answers it.
    pub fn code(self) -> i64
        ensures { result ≡ code_of self }
    {
        match self {
            Refusal::NoJson => -32700,
            Refusal::TooLarge | Refusal::NoMessage => -32600,
            Refusal::NotInitialized => -32002,
            Refusal::Initialized | Refusal::ShutDown => -32600,
            Refusal::UnknownMethod => -32601,
            Refusal::BadParams | Refusal::NotOpen | Refusal::NotALetter => -32602,
            Refusal::NoVariable | Refusal::BadLine => -32803,
            Refusal::LetterInUse | Refusal::ReadsOtherwise => -32803,
        }
    }

    /// What the error says.
    pub fn text(self) -> &'static str
        ensures { result.now ≡ text_of self }
    {
        match self {
            Refusal::NoJson => NO_JSON,
            Refusal::TooLarge => TOO_LARGE,
            Refusal::NoMessage => NO_MESSAGE,
            Refusal::NotInitialized => NOT_INITIALIZED,
            Refusal::Initialized => INITIALIZED,
            Refusal::ShutDown => SHUT_DOWN,
            Refusal::UnknownMethod => UNKNOWN_METHOD,
            Refusal::BadParams => BAD_PARAMS,
            Refusal::NotOpen => NOT_OPEN,
            Refusal::NoVariable => NO_VARIABLE,
            Refusal::NotALetter => NOT_A_LETTER,
            Refusal::BadLine => BAD_LINE,
            Refusal::LetterInUse => LETTER_IN_USE,
            Refusal::ReadsOtherwise => READS_OTHERWISE,
        }
    }
}
