//! Disk images of PRG files.
ghost use Rattle.std.specs.Prelude.{◌≡◌, ◌≢◌, ◌∷◌, [], false, map, string_bytes, IfErr, IfOk};
ghost use Rattle.tb_engine_disk.specs.Files.{entries};
ghost use Rattle.tb_engine_streams.specs.declared.outcome.Outcome.TheVariants.{Refused};
ghost use Rattle.tb_engine_files.specs.Deeds.{IsNoFault, Transfers};
ghost use Rattle.tb_engine_files.specs.Names.{ends_as, image_ending, standard};
ghost use Rattle.tb_program_files.specs.Memory.{Joins};
ghost use Rattle.tb_program_files.specs.Texts.{IsDiskWith, MakesDisk, OneText};

use crate::saving::only;
use std::alloc::{AllocError, Global};
use tb_engine_disk::{DiskFailure, DiskFiles, DiskOutcome, DiskRefusal};
use tb_engine_files::{FileSystem, STANDARD, Work, is_image_name, transfer};
use tb_engine_streams::Done;

// The files for a disk that were taken in.
#[derive(Drop)]
struct Disk<'a> {
    alloc: Global,
    out: &'a str,
    taken: DiskFiles,
}

// Files with one more behind them, which has these bytes.
#[tactic(auto, using(crate::proofs::Fair::fair))]
fn added(
    alloc: Global,
    files: DiskFiles,
    path: &str,
    bytes: Vec<u8>,
) -> Result<DiskFiles, DiskFailure>
    ensures joined { IfOk result (λ new. Joins (entries files) path.now bytes.items (entries new)) }
    ensures refused { IfErr result IsNoFault }
{
    let name = files.name(alloc, path)?;
    files.add(name, bytes)
}

// The image of a disk with files, as the texts of all outputs.
#[tactic(auto, using(crate::proofs::Fair::fair))]
fn imaged(alloc: Global, files: &DiskFiles, out: &str) -> Result<(Done, Vec<Vec<u8>>), DiskFailure>
    ensures made { IfOk result (λ made. OneText (IsDiskWith out.now (entries files.now)) (map (λ t. t.items) made.1.items)) }
    ensures refused { IfErr result IsNoFault }
{
    let image = files.image(alloc, out)?;
    Ok((Done, only(alloc, image)?))
}

impl Work for Disk<'_> {
    type End = Done;

    type Refusal = DiskRefusal;

    ghost takes = { λ w path bytes v. Joins (entries w.taken) path bytes (entries v.taken) × (v.out ≡ w.out) };

    ghost makes = { λ w _ texts. OneText (IsDiskWith w.out.now (entries w.taken)) texts };

    // A file's name is looked at before the file is opened.
    #[tactic(auto, using(crate::proofs::Fair::fair))]
    fn look_at(&self, path: &str) -> Result<(), DiskFailure> {
        self.taken.name(self.alloc, path)?;
        Ok(())
    }

    fn take(&mut self, path: &str, text: Vec<u8>) -> Result<(), DiskFailure> {
        let taken = std::mem::replace(&mut self.taken, DiskFiles::new(self.alloc));
        self.taken = added(self.alloc, taken, path, text)?;
        Ok(())
    }

    fn make(&mut self) -> Result<(Done, Vec<Vec<u8>>), DiskFailure> {
        imaged(self.alloc, &self.taken, self.out)
    }
}

// Paths as they are handed on.
fn paths_of(alloc: Global, paths: &[String]) -> Result<Vec<&str>, AllocError>
    ensures { IfOk result (λ texts. map (λ p. p.now) texts.items ≡ map string_bytes paths.now) }
{
    let mut texts = Vec::new(alloc);
    for path in paths {
        texts.push(path.as_str())?;
    }
    Ok(texts)
}

// Makes the image of a disk of PRG files, and writes it.
#[tactic(auto, using(crate::proofs::Undone::undone))]
fn write_disk<F: FileSystem>(
    alloc: Global,
    files: &mut F,
    out: &str,
    paths: &[String],
) -> DiskOutcome
    ensures { Transfers F.does F.holds (MakesDisk (map string_bytes paths.now) out.now)
        files.old (map string_bytes paths.now) (out.now ∷ []) result files.new }
{
    let Ok(inputs) = paths_of(alloc, paths) else {
        return DiskOutcome::NoMemory;
    };
    let mut work = Disk {
        alloc,
        out,
        taken: DiskFiles::new(alloc),
    };
    transfer(alloc, files, &mut work, inputs.as_slice(), &[out])
}

/// Makes a disk image of PRG files, and writes it. Its path must end as that of an image, or be that of standard output.
#[tactic(auto, using(crate::proofs::Undone::undone))]
pub fn disk_file<F: FileSystem>(
    alloc: Global,
    files: &mut F,
    out: &str,
    paths: &[String],
) -> DiskOutcome
    // Each file is opened after those before it, and then the image of the disk with all of them is written.
    ensures files { Transfers F.does F.holds (MakesDisk (map string_bytes paths.now) out.now)
        files.old (map string_bytes paths.now) (out.now ∷ []) result files.new }
    // If it isn't named so, no file is opened.
    ensures named { ends_as out.now image_ending ≡ false → out.now ≢ standard
        → (result ≡ Refused DiskRefusal.BadName) × (files.new ≡ files.old) }
{
    if out != STANDARD && !is_image_name(out) {
        return DiskOutcome::Refused(DiskRefusal::BadName);
    }
    write_disk(alloc, files, out, paths)
}
