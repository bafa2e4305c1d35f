//! The transcripts that are in a folder.
use std::alloc::AllocError;
use std::fs;
use std::io::{self, ErrorKind};
use std::rt::Files;
use tb_program_jobs::is_transcript;

/// The most folders that are looked into.
const MOST_FOLDERS: u32 = 65536;

/// What is at a path, or nobody knows.
#[derive(Clone, Copy, PartialEq, Eq, Debug, Drop)]
pub enum Kept {
    Nothing,
    Folder,
    Other,
}

/// Looks at what a path leads to, and opens nothing.
pub fn kept_at<R: Files>(rt: &R, path: &str) -> Result<Kept, AllocError> {
    match fs::metadata(rt, path) {
        Ok(found) if found.is_dir() => Ok(Kept::Folder),
        Err(error) if error.kind() == ErrorKind::NotFound => Ok(Kept::Nothing),
        Err(error) if error.kind() == ErrorKind::OutOfMemory => Err(AllocError),
        Ok(_) | Err(_) => Ok(Kept::Other),
    }
}

// What is in a folder: its own folders, and transcripts. A link to a folder is neither.
fn look_into<R: Files + AllocGlobal + Clone + Drop>(
    rt: &R,
    folder: &str,
    folders: &mut Vec<String>,
    found: &mut Vec<String>,
) -> io::Result<()> {
    for entry in fs::read_dir(rt, folder)? {
        let entry = entry?;
        let path = entry.path();
        let path = path.as_os_str();
        if entry.file_type()?.is_dir() {
            folders.push(String::from_str(rt.alloc(), path)?)?;
        } else if is_transcript(path) && kept_at(rt, path)? == Kept::Other {
            found.push(String::from_str(rt.alloc(), path)?)?;
        }
    }
    Ok(())
}

/// The transcripts of a folder and of those in it, in the order of their names. A link to a folder is not followed.
pub fn transcripts_in<R: Files + AllocGlobal + Clone + Drop>(
    rt: &R,
    folder: &str,
) -> io::Result<Vec<String>> {
    let mut found = Vec::new(rt.alloc());
    let mut folders = Vec::new(rt.alloc());
    folders.push(String::from_str(rt.alloc(), folder)?)?;
    for _ in 0..MOST_FOLDERS {
        let Some(next) = folders.pop() else {
            found.sort_unstable();
            return Ok(found);
        };
        look_into(rt, next.as_str(), &mut folders, &mut found)?;
    }
    Err(io::Error::from(ErrorKind::InvalidFilename))
}
