//! The files of the system that the program runs on. `-` is standard input or standard output.
ghost use Rattle.std.specs.Prelude.{⊤, ◌≡◌, ◌&&◌, IfOk, not};
ghost use Rattle.tb_engine_streams.specs.Failures.{failures_of};

use crate::putting::save_at;
use crate::system::{
    Found, MOST_LINKS, Source, end_of_links, look, look_at, made_in_folder, source_at,
};
use std::alloc::{AllocError, Global};
use std::io;
use std::io::Cursor;
use std::path::Path;
use std::rt::Files;
use tb_engine_files::{FileSystem, Look, Place, Trouble, Unput};
use tb_engine_streams::{InputError, Tracked, read_input};
use tb_program_reasons::Purpose;

/// The files of the system, and which of them was asked for last.
#[derive(Drop)]
pub struct Host<'a, R> {
    pub rt: &'a R,
    /// Whether a person at a terminal is told more than scripts are.
    pub notes: bool,
    /// Whether standard output is a terminal.
    pub shows: bool,
    /// How many were opened for reading.
    pub opened: usize,
    /// None as well if memory didn't suffice for its path.
    pub last: Option<Asked>,
    // What a file held that was read ahead.
    ahead: Option<Result<Vec<u8>, InputError>>,
}

/// A file that was asked for.
#[derive(Drop)]
pub struct Asked {
    pub path: String,
    pub purpose: Purpose,
    /// The error of opening it, or of writing it.
    pub error: Option<io::ErrorKind>,
    /// Whether what it held is in the file of this name with `~`, since it was written over and that broke off.
    pub is_kept: bool,
    /// Whether a file that was there was replaced.
    pub is_replaced: bool,
}

impl<'a, R> Host<'a, R> {
    pub fn new(rt: &'a R, notes: bool, shows: bool) -> Host<'a, R> {
        Host {
            rt,
            notes,
            shows,
            opened: 0,
            last: None,
            ahead: None,
        }
    }
}

impl<R> Host<'_, R> {
    /// Whether a person is told how far a long run is. Where its output is shown, that tells enough.
    pub fn tells_progress(&self) -> bool
        ensures { result ≡ self.now.notes && not self.now.shows }
    {
        self.notes && !self.shows
    }

    /// The file that was asked for last is one of what is typed.
    pub fn asked_for_keys(&mut self) {
        if let Some(asked) = &mut self.last {
            asked.purpose = Purpose::Keys;
        }
    }
}

impl<R: AllocGlobal> Host<'_, R> {
    fn asks(&mut self, path: &str, purpose: Purpose, error: Option<io::ErrorKind>) {
        self.last = match String::from_str(self.rt.alloc(), path) {
            Ok(path) => Some(Asked {
                path,
                purpose,
                error,
                is_kept: false,
                is_replaced: false,
            }),
            Err(_) => None,
        };
    }
}

impl<R: Files + Input + Print + AllocGlobal> Host<'_, R> {
    /// Reads a file that is opened next, and not before: then what was read is there once more, or its fault. Nothing is
    /// shown of a file that can't be read.
    pub fn read_ahead(&mut self, path: &str) -> &[u8] {
        // (a file that can't be opened now is asked for again)
        if let Ok(mut file) = self.open(path) {
            self.ahead = Some(read_input(self.rt.alloc(), &mut file));
        }
        match &self.ahead {
            Some(Ok(text)) => text.as_slice(),
            Some(Err(_)) | None => &[],
        }
    }
}

// What was read ahead, as it is opened.
fn again<R: Files + Input>(read: Result<Vec<u8>, InputError>) -> Result<Tracked<Source<R>>, Trouble>
    ensures { IfOk result (λ input. failures_of input ≡ 0) }
{
    match read {
        Ok(text) => Ok(Tracked::new(Source::Ahead(Cursor::new(text)))),
        Err(InputError::Fault) => Err(Trouble::Fault),
        Err(InputError::NoMemory) => Err(Trouble::NoMemory),
    }
}

impl<R: Files + Input + Print + AllocGlobal> FileSystem for Host<'_, R> {
    type Input = Source<R>;

    ghost leads = { λ _ _ _. ⊤ };

    ghost shows = { λ _ _ _. ⊤ };

    ghost does = { λ _ _ _. ⊤ };

    ghost holds = { λ _ _ _. ⊤ };

    fn place(&self, alloc: Global, path: &str) -> Result<Place, AllocError> {
        let end = end_of_links(self.rt, alloc, Path::new(path), MOST_LINKS)?;
        match look(self.rt, path)? {
            Found::File(node) => Ok(Place::File(node, end.into_string())),
            Found::Nothing => made_in_folder(self.rt, alloc, end.as_path()),
            Found::Other => Ok(Place::Elsewhere),
        }
    }

    fn look(&self, alloc: Global, path: &str) -> Result<Option<Look>, AllocError> {
        look_at(self.rt, alloc, path)
    }

    fn open(&mut self, path: &str) -> Result<Tracked<Source<R>>, Trouble> {
        if let Some(read) = self.ahead.take() {
            return again(read);
        }
        match source_at(self.rt, path) {
            Ok(source) => {
                self.asks(path, Purpose::Input, None);
                self.opened = self.opened.saturating_add(1);
                Ok(Tracked::new(source))
            }
            Err(error) => {
                self.asks(path, Purpose::Input, Some(error.kind()));
                Err(trouble(error.kind()))
            }
        }
    }

    fn close(&mut self, _path: &str, _input: Tracked<Source<R>>)
        ensures { ⊤ }
    {}

    fn save(&mut self, path: &str, bytes: &[u8]) -> Result<(), Trouble> {
        match save_at(self.rt, path, bytes) {
            Ok(is_replaced) => {
                self.asks(path, Purpose::Output, None);
                if let Some(asked) = &mut self.last {
                    asked.is_replaced = is_replaced;
                }
                Ok(())
            }
            Err(Unput::AsBefore(error)) => {
                self.asks(path, Purpose::Output, Some(error));
                Err(trouble(error))
            }
            Err(Unput::Kept(error)) => {
                self.asks(path, Purpose::Output, Some(error));
                if let Some(asked) = &mut self.last {
                    asked.is_kept = true;
                }
                Err(trouble(error))
            }
        }
    }
}

fn trouble(error: io::ErrorKind) -> Trouble {
    match error {
        io::ErrorKind::OutOfMemory => Trouble::NoMemory,
        _ => Trouble::Fault,
    }
}
