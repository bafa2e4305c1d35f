//! The calls of the system: what a path leads to, what a file holds, and the single steps of replacing one. That each does
//! what it is named for is trusted.
ghost use Rattle.std.specs.Prelude.{⊤};

use std::alloc::{AllocError, Global};
use std::fs::{File, Metadata};
use std::io::{Cursor, ErrorKind, Read, Write};
use std::os::unix::fs::MetadataExt;
use std::path::{Path, PathBuf};
use std::rt::Files;
use std::time::Clock;
use std::{fs, io};
use tb_engine_files::{Folder, Look, MOST_LOOK, Node, Place, STANDARD};
use tb_program_jobs::clock_seed;
use tb_program_reasons::Told;

/// The most links that lead one to the next.
pub const MOST_LINKS: u32 = 40;

// Standard output takes what is written behind what its file has.
const STANDARD_OUTPUT: &str = "/dev/stdout";

/// What a path leads to.
#[derive(Clone, Copy, PartialEq, Eq, Drop)]
pub enum Found {
    File(Node),
    Nothing,
    /// No regular file, or nobody knows.
    Other,
}

/// Looks at what a path leads to, and opens nothing.
pub fn look<R: Files>(rt: &R, path: &str) -> Result<Found, AllocError> {
    match fs::metadata(rt, path) {
        Ok(found) if found.is_file() => Ok(Found::File(node(&found))),
        Err(error) if error.kind() == ErrorKind::NotFound => Ok(Found::Nothing),
        Err(error) if error.kind() == ErrorKind::OutOfMemory => Err(AllocError),
        Ok(_) | Err(_) => Ok(Found::Other),
    }
}

/// The numbers by which a system knows a file.
pub fn node(found: &Metadata) -> Node {
    Node {
        device: found.dev(),
        number: found.ino(),
    }
}

/// Where a path leads in the end: links are followed, also one that leads nowhere yet.
pub fn end_of_links<R: Files>(
    rt: &R,
    alloc: Global,
    path: Path<'_>,
    links: u32,
) -> Result<PathBuf, AllocError> {
    if 0 < links {
        match rt.read_link(alloc, path.as_os_str()) {
            Ok(target) => {
                let folder = path.parent().unwrap_or(Path::new(""));
                let target = folder.join(alloc, target.as_path())?;
                return end_of_links(rt, alloc, target.as_path(), links - 1);
            }
            Err(error) if error.kind() == ErrorKind::OutOfMemory => return Err(AllocError),
            Err(_) => {}
        }
    }
    path.to_path_buf(alloc)
}

/// Whether a path leads to nothing, not even to a link.
pub fn leads_nowhere<R: Files>(rt: &R, path: Path<'_>) -> bool {
    fs::symlink_metadata(rt, path).is_err()
}

/// Where a path leads to at which nothing is: a new file of a folder, if that is there.
pub fn made_in_folder<R: Files>(
    rt: &R,
    alloc: Global,
    path: Path<'_>,
) -> Result<Place, AllocError> {
    let Some(name) = path.file_name() else {
        return Ok(Place::Elsewhere);
    };
    let folder = match path.parent() {
        Some(folder) if !folder.as_os_str().is_empty() => folder,
        _ => Path::new("."),
    };
    match fs::metadata(rt, folder) {
        Ok(found) => Ok(Place::Missing(node(&found), String::from_str(alloc, name)?)),
        Err(_) => Ok(Place::Elsewhere),
    }
}

/// Looks at the regular file to which a path leads, if there is one. One that can't be read shows no byte.
pub fn look_at<R: Files>(rt: &R, alloc: Global, path: &str) -> Result<Option<Look>, AllocError> {
    match fs::metadata(rt, path) {
        Ok(found) if found.is_file() && path != STANDARD_OUTPUT => Ok(Some(Look {
            size: found.len(),
            beginning: beginning_of(rt, alloc, path)?,
        })),
        Err(error) if error.kind() == ErrorKind::OutOfMemory => Err(AllocError),
        Ok(_) | Err(_) => Ok(None),
    }
}

// The first bytes of a file, as many as can be read.
fn beginning_of<R: Files>(rt: &R, alloc: Global, path: &str) -> Result<Vec<u8>, AllocError> {
    let mut beginning = Vec::new(alloc);
    let Ok(mut file) = fs::open(rt, path) else {
        return Ok(beginning);
    };
    let mut chunk = [0u8; MOST_LOOK];
    if let Ok(count) = file.read(&mut chunk) {
        beginning.extend_from_slice(&chunk[..count])?;
    }
    Ok(beginning)
}

/// The clock's seed, if the clock can be read.
pub fn drawn_seed<R: Clock>(rt: &R) -> Option<u16> {
    match rt.since_1970() {
        Ok(time) => Some(clock_seed(time.as_millis())),
        Err(_) => None,
    }
}

/// What the system tells of a file. Only a regular file is opened, since another one may have to be waited for.
pub fn told_of<R: Files>(rt: &R, path: &str) -> Told {
    let found = match fs::metadata(rt, path) {
        Ok(found) => found,
        Err(error) => return Told::failed(error.kind()),
    };
    if found.is_file() {
        if let Err(error) = fs::open(rt, path) {
            return Told::failed(error.kind());
        }
    }
    Told {
        error: None,
        is_folder: found.is_dir(),
        length: found.len(),
    }
}

/// A file that is opened for reading, standard input, or what was read before.
#[derive(Drop)]
pub enum Source<R: Files + Input> {
    File(R::File),
    Standard(R::Reader),
    Ahead(Cursor<Vec<u8>>),
}

impl<R: Files + Input> Read for Source<R> {
    fn read(&mut self, buf: &mut [u8]) -> io::Result<usize> {
        match self {
            Source::File(file) => file.read(buf),
            Source::Standard(reader) => reader.read(buf),
            Source::Ahead(text) => text.read(buf),
        }
    }
}

/// Opens a file for reading, or takes standard input.
pub fn source_at<R: Files + Input>(rt: &R, path: &str) -> io::Result<Source<R>> {
    if path == STANDARD {
        Ok(Source::Standard(rt.reader()))
    } else {
        Ok(Source::File(fs::open(rt, path)?))
    }
}

/// The files that the system has.
#[derive(Clone, Copy)]
pub struct SystemFolder<'a, R> {
    pub rt: &'a R,
}

impl<R: Files> Folder for SystemFolder<'_, R> {
    type Error = ErrorKind;

    ghost does = { λ _ _ _. ⊤ };

    fn create(&mut self, path: &str) -> Result<(), ErrorKind> {
        match File::create_new(self.rt, path) {
            Ok(_) => Ok(()),
            Err(error) => Err(error.kind()),
        }
    }

    fn write(&mut self, path: &str, bytes: &[u8]) -> Result<(), ErrorKind> {
        match fs::create(self.rt, path) {
            Ok(file) => write_whole(file, bytes),
            Err(error) => Err(error.kind()),
        }
    }

    fn copy(&mut self, from: &str, to: &str) -> Result<(), ErrorKind> {
        match fs::copy(self.rt, from, to) {
            Ok(_) => Ok(()),
            Err(error) => Err(error.kind()),
        }
    }

    fn dress(&mut self, like: &str, path: &str) -> Result<(), ErrorKind> {
        dress(self.rt, like, path).map_err(|error| error.kind())
    }

    fn rename(&mut self, from: &str, to: &str) -> Result<(), ErrorKind> {
        fs::rename(self.rt, from, to).map_err(|error| error.kind())
    }

    fn remove(&mut self, path: &str) -> Result<(), ErrorKind> {
        fs::remove_file(self.rt, path).map_err(|error| error.kind())
    }
}

// Gives a file the owner, the group and the permissions of another one, if that is there.
fn dress<R: Files>(rt: &R, like: &str, path: &str) -> io::Result<()> {
    let old = match fs::metadata(rt, like) {
        Ok(found) => found,
        Err(error) if error.kind() == ErrorKind::NotFound => return Ok(()),
        Err(error) => return Err(error),
    };
    let new = fs::metadata(rt, path)?;
    if old.uid() != new.uid() || old.gid() != new.gid() {
        rt.chown(path, Some(old.uid()), Some(old.gid()))?;
    }
    fs::set_permissions(rt, path, old.permissions())
}

/// Writes bytes to a stream, or up to where that fails.
pub fn write_whole<W: Write + Drop>(mut stream: W, bytes: &[u8]) -> Result<(), ErrorKind> {
    match stream.write_all(bytes) {
        Ok(()) => stream.flush().map_err(|error| error.kind()),
        Err(error) => Err(error.kind()),
    }
}
