//! A text takes a file's place whole: it is written beside the file, and then renamed over it. Where that can't be done, the
//! file is copied beside itself first, and then written over.
ghost use Rattle.tb_engine_files.specs.Putting.{Step, Creates, Writes, Copies, Dresses, Renames, Removes, is_done};
ghost use Rattle.tb_engine_files.specs.Putting.{Puts, PutsBeside, PutsOver, TakesPlace, WritesOver, NothingIsLost};

/// The files of a folder, by the single steps in which one of them is replaced. A step that fails leaves all as it was, but a
/// write or a copy that breaks off: its file may then hold anything.
pub trait Folder {
    /// Why a step was not done.
    type Error: Drop;

    // what a step makes of the files, done or not
    ghost does: { Self → Step → Self → Type 0 };

    /// Makes an empty file where none is.
    fn create(&mut self, path: &str) -> Result<(), Self::Error>
        ensures { does self.old (Creates path.now (is_done result)) self.new };

    /// Writes bytes over what a file holds.
    fn write(&mut self, path: &str, bytes: &[u8]) -> Result<(), Self::Error>
        ensures { does self.old (Writes path.now bytes.now (is_done result)) self.new };

    /// Copies what a file holds over what another one holds.
    fn copy(&mut self, from: &str, to: &str) -> Result<(), Self::Error>
        ensures { does self.old (Copies from.now to.now (is_done result)) self.new };

    /// Gives a file the owner and the permissions of another one, if that is there.
    fn dress(&mut self, like: &str, path: &str) -> Result<(), Self::Error>
        ensures { does self.old (Dresses like.now path.now (is_done result)) self.new };

    /// Gives a file another name, at once. A file of that name is gone then.
    fn rename(&mut self, from: &str, to: &str) -> Result<(), Self::Error>
        ensures { does self.old (Renames from.now to.now (is_done result)) self.new };

    /// Takes a file away.
    fn remove(&mut self, path: &str) -> Result<(), Self::Error>
        ensures { does self.old (Removes path.now (is_done result)) self.new };
}

/// A file, and two other paths of its folder.
#[derive(Clone, Copy)]
pub struct PutNames<'a> {
    /// The file that is replaced, or made.
    pub file: &'a str,
    /// Where the new file is written.
    pub beside: &'a str,
    /// Where the old one is kept while it is written over.
    pub kept: &'a str,
}

/// Why a text was not put in a file's place.
#[derive(Debug, Drop)]
pub enum Unput<E> {
    /// The file is as it was.
    AsBefore(E),
    /// What the file held is in the file in which it was kept.
    Kept(E),
}

/// Puts a text in a file's place, or makes the file, if it isn't there.
pub fn put<F: Folder>(
    folder: &mut F,
    names: PutNames<'_>,
    is_there: bool,
    bytes: &[u8],
) -> Result<(), Unput<F::Error>>
    ensures { Puts F.does folder.old names.entry is_there bytes.now result folder.new }
{
    match put_beside(folder, names, bytes) {
        Ok(()) => Ok(()),
        Err(_) if is_there => put_over(folder, names, bytes),
        Err(error) => Err(Unput::AsBefore(error)),
    }
}

// Writes the text beside the file, and renames it over that.
fn put_beside<F: Folder>(folder: &mut F, names: PutNames<'_>, bytes: &[u8]) -> Result<(), F::Error>
    ensures { PutsBeside F.does folder.old names.entry bytes.now result folder.new }
{
    folder.create(names.beside)?;
    match take_place(folder, names, bytes) {
        Ok(()) => Ok(()),
        Err(error) => {
            // If it can't be taken away either, it does no harm.
            let _ = folder.remove(names.beside);
            Err(error)
        }
    }
}

// Fills the new file, which is there, and renames it over the old one.
fn take_place<F: Folder>(folder: &mut F, names: PutNames<'_>, bytes: &[u8]) -> Result<(), F::Error>
    ensures { TakesPlace F.does folder.old names.entry bytes.now result folder.new }
{
    folder.write(names.beside, bytes)?;
    folder.dress(names.file, names.beside)?;
    folder.rename(names.beside, names.file)
}

// Keeps what the file holds, and writes the text over it.
fn put_over<F: Folder>(
    folder: &mut F,
    names: PutNames<'_>,
    bytes: &[u8],
) -> Result<(), Unput<F::Error>>
    ensures { PutsOver F.does folder.old names.entry bytes.now result folder.new }
{
    if let Err(error) = folder.create(names.kept) {
        return Err(Unput::AsBefore(error));
    }
    if let Err(error) = folder.copy(names.file, names.kept) {
        let _ = folder.remove(names.kept);
        return Err(Unput::AsBefore(error));
    }
    write_over(folder, names, bytes)
}

// Writes the text over the file, of which a copy was made. If that breaks off, the copy is put back.
fn write_over<F: Folder>(
    folder: &mut F,
    names: PutNames<'_>,
    bytes: &[u8],
) -> Result<(), Unput<F::Error>>
    ensures { WritesOver F.does folder.old names.entry bytes.now result folder.new }
{
    if let Err(error) = folder.write(names.file, bytes) {
        if folder.copy(names.kept, names.file).is_err() {
            return Err(Unput::Kept(error));
        }
        let _ = folder.remove(names.kept);
        return Err(Unput::AsBefore(error));
    }
    let _ = folder.remove(names.kept);
    Ok(())
}

/// While a text is put in a file's place, and however that ends, the file holds what it held or all of the text, or what it
/// held is in the file in which it is kept. All other files that were there hold what they held.
#[tactic(auto, using(crate::proofs::Safe::nothing_is_lost))]
pub fn nothing_is_lost()
    ensures { NothingIsLost }
{}
