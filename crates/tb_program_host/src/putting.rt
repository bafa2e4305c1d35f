//! Where a text is put that takes a file's place.
use crate::system::{
    Found, MOST_LINKS, SystemFolder, end_of_links, leads_nowhere, look, write_whole,
};
use std::alloc::{AllocError, Global};
use std::io;
use std::io::ErrorKind;
use std::path::{Path, PathBuf};
use std::rt::Files;
use tb_engine_files::{Folder, PutNames, STANDARD, Unput, put};

/// The beginnings of names for new files beside an old one: as many may be there, left by programs that were ended.
const BEGINNINGS: [&str; 8] = [
    ".tbc0-", ".tbc1-", ".tbc2-", ".tbc3-", ".tbc4-", ".tbc5-", ".tbc6-", ".tbc7-",
];

/// Longer names are not taken into those of new files.
const MOST_NAME: usize = 200;

/// Puts bytes in the place of the file at a path, or makes it, and answers whether it was there. What is no regular file takes
/// them as a stream.
pub fn save_at<R: Files + Print + AllocGlobal>(
    rt: &R,
    path: &str,
    bytes: &[u8],
) -> Result<bool, Unput<ErrorKind>> {
    let mut folder = SystemFolder { rt };
    if path == STANDARD {
        write_whole(io::writer(rt), bytes).map_err(Unput::AsBefore)?;
        return Ok(false);
    }
    match find_target(rt, rt.alloc(), path) {
        Ok(Some(target)) => {
            put(&mut folder, target.names(), target.is_there, bytes)?;
            Ok(target.is_there)
        }
        Ok(None) => {
            folder.write(path, bytes).map_err(Unput::AsBefore)?;
            Ok(false)
        }
        Err(AllocError) => Err(Unput::AsBefore(ErrorKind::OutOfMemory)),
    }
}

// A regular file that is replaced, or one that is made.
#[derive(Drop)]
struct Target {
    file: PathBuf,
    beside: PathBuf,
    kept: String,
    is_there: bool,
}

impl Target {
    fn names(&self) -> PutNames<'_> {
        PutNames {
            file: self.file.as_path().as_os_str(),
            beside: self.beside.as_path().as_os_str(),
            kept: self.kept.as_str(),
        }
    }
}

// The file that a path leads to. None if it is no regular file, or if nobody knows where it lies.
fn find_target<R: Files>(rt: &R, alloc: Global, path: &str) -> Result<Option<Target>, AllocError> {
    let found = look(rt, path)?;
    let file = end_of_links(rt, alloc, Path::new(path), MOST_LINKS)?;
    // The path of an open file may lead to one that has another name by now, or none.
    if found == Found::Other || look(rt, file.as_path().as_os_str())? != found {
        return Ok(None);
    }
    let beside = unused(rt, alloc, file.as_path())?;
    let mut kept = String::from_str(alloc, file.as_path().as_os_str())?;
    kept.push_str("~")?;
    Ok(Some(Target {
        file,
        beside,
        kept,
        is_there: found != Found::Nothing,
    }))
}

// A path beside a file that leads to nothing, if one is found soon.
fn unused<R: Files>(rt: &R, alloc: Global, file: Path<'_>) -> Result<PathBuf, AllocError> {
    let folder = file.parent().unwrap_or(Path::new(""));
    let name = match file.file_name() {
        Some(name) if name.len() <= MOST_NAME => name,
        _ => "",
    };
    let mut path = folder.to_path_buf(alloc)?;
    for beginning in BEGINNINGS {
        let mut new = String::from_str(alloc, beginning)?;
        new.push_str(name)?;
        path = folder.join(alloc, new.as_str())?;
        if leads_nowhere(rt, path.as_path()) {
            return Ok(path);
        }
    }
    Ok(path)
}
