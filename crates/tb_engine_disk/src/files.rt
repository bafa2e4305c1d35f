//! The files for a disk, and its image.
ghost use Rattle.std.specs.Prelude.{◌≡◌, [], map, ◌+◌, ◌≤◌, ◌↔◌, IsTrue, IfOk, MatchBool, MatchResult};
ghost use Rattle.tb_memmap.specs.Bytes.{IsOpenRange};
ghost use Rattle.tb_engine_disk.specs.Files.{entry_of, entry_in, entries, IsUsed, NamesNext, Adds, IsImageOf, HasNoImage};
ghost use Rattle.tb_engine_disk.specs.Programs.{Judges};

use crate::names::{disk_name, file_name};
use crate::outcome::{DiskFailure, DiskRefusal};
use std::alloc::{AllocError, Global};
use tb_engine_files::is_text;
use tb_machine_disk::{DiskError, File, Name, disk};
use tb_memmap::is_open_at;

/// The load address of a program with a BASIC line.
const BASIC_START: u16 = 0x0801;

// A file that was taken in, with its name on the disk.
#[derive(Drop)]
struct Taken {
    name: Name,
    bytes: Vec<u8>,
}

/// PRG files for a disk, in order, no two with one name.
#[derive(Drop)]
pub struct DiskFiles {
    files: Vec<Taken>,
}

// The files as the maker of disks takes them.
fn files_in(alloc: Global, taken: &[Taken]) -> Result<Vec<File<'_>>, AllocError>
    ensures { IfOk result (λ files. map entry_in files.items ≡ map entry_of taken.now) }
{
    let mut files = Vec::new(alloc);
    for file in taken {
        files.push(File {
            name: file.name,
            bytes: file.bytes.as_slice(),
        })?;
    }
    Ok(files)
}

// Whether each of `count` addresses from `at` on is one of RAM.
fn is_in_ram(at: u16, count: usize) -> bool
    requires { at + count ≤ 65536 }
    ensures { IsTrue result ↔ IsOpenRange at count }
{
    for k in 0..count {
        if !is_open_at((usize::from(at) + k) as u16) {
            return false;
        }
    }
    true
}

// Whether the bytes of a file are a PRG file that belongs on a disk.
fn judged(file: &[u8]) -> Result<(), DiskRefusal>
    ensures { Judges file.now result }
{
    let program = match tb_prg::read(file) {
        Ok(program) => program,
        Err(error) => return Err(DiskRefusal::Prg(error)),
    };
    if is_text(file) {
        return Err(DiskRefusal::Text);
    }
    if program.at != BASIC_START && !is_in_ram(program.at, program.bytes.len()) {
        return Err(DiskRefusal::NotRam);
    }
    Ok(())
}

impl DiskFiles {
    /// No files.
    pub fn new(alloc: Global) -> DiskFiles
        ensures { entries result ≡ [] }
    {
        DiskFiles {
            files: Vec::new(alloc),
        }
    }

    // Whether one of the files has this name.
    fn has(&self, name: &Name) -> bool
        ensures { MatchBool result (IsUsed self.now name.now.field) (¬ (IsUsed self.now name.now.field)) }
    {
        for file in &self.files {
            if file.name.field == name.field {
                return true;
            }
        }
        false
    }

    /// The name on the disk of a file with this path, which is to come next. Refused if it is no name of a disk's file,
    /// or if an earlier file has it.
    pub fn name(&self, alloc: Global, path: &str) -> Result<Name, DiskFailure>
        ensures { NamesNext self.now path.now result }
    {
        let name = file_name(alloc, path)?;
        if self.has(&name) {
            return Err(DiskFailure::Refused(DiskRefusal::NameTwice));
        }
        Ok(name)
    }

    /// Takes in the bytes of a file under a name, after the files so far. Refused if one of these has the name, and then if
    /// it is no program that belongs on a disk; on any error the files are let go.
    pub fn add(mut self, name: Name, bytes: Vec<u8>) -> Result<DiskFiles, DiskFailure>
        ensures { Adds self name bytes.items result }
    {
        if self.has(&name) {
            return Err(DiskFailure::Refused(DiskRefusal::NameTwice));
        }
        if let Err(refusal) = judged(bytes.as_slice()) {
            return Err(DiskFailure::Refused(refusal));
        }
        match self.files.push(Taken { name, bytes }) {
            Ok(()) => Ok(self),
            Err(_) => Err(DiskFailure::NoMemory),
        }
    }

    /// The image of the disk with the files; the disk is named by a path.
    pub fn image(&self, alloc: Global, path: &str) -> Result<Vec<u8>, DiskFailure>
        ensures { MatchResult result (λ image. IsImageOf self.now path.now image.items) (HasNoImage self.now) }
    {
        let title = disk_name(alloc, path)?;
        let files = files_in(alloc, self.files.as_slice())?;
        match disk(alloc, &title, files.as_slice()) {
            Ok(image) => Ok(image),
            Err(DiskError::Full) => Err(DiskFailure::Refused(DiskRefusal::Full)),
            Err(DiskError::NoMemory) => Err(DiskFailure::NoMemory),
        }
    }
}
