//! Commands that read files and write others: nothing is opened for writing before all that is to be written was made.
ghost use Rattle.std.specs.Prelude.{◌≡◌, ℕ, List, [], ◌∷◌, map, IfErr, IfOk, OnOk};
ghost use Rattle.tb_engine_files.specs.Deeds.{BreaksOff, Did, Holds, IsNoFault, Makes, MakesNothing, OfOne, Product, ReadsAll, ReadsFile, Refuses, TakesAll, Transfers, Works, Writes, bytes_in, read_with, saved};

use crate::system::{FileSystem, Trouble};
use std::alloc::Global;
use tb_engine_streams::{Failure, InputError, Outcome, read_input};

/// What makes the texts of all outputs of the bytes of one input.
pub trait Maker {
    /// How the command ends if all is written.
    type End: Drop;

    /// Why nothing is made.
    type Refusal;

    // what is made of bytes: how the command ends, with the texts, or why there are none
    ghost makes: { Self → List ℕ → Product Self.End Self.Refusal → Type 0 };

    /// Makes the texts of all outputs, in order.
    fn make(&mut self, text: Vec<u8>) -> Result<(Self::End, Vec<Vec<u8>>), Failure<Self::Refusal>>
        ensures { Makes (makes self.old text.items) result };
}

/// The work of a command: it takes its inputs in, one after the other, and makes the texts of all its outputs.
pub trait Work {
    /// How the command ends if all is written.
    type End: Drop;

    /// Why nothing is made.
    type Refusal;

    // what it is after it took in the input at a path, by the bytes of that
    ghost takes: { Self → List ℕ → List ℕ → Self → Type 0 };

    // how the command ends, and the texts that are made of what was taken in
    ghost makes: { Self → Self.End → List (List ℕ) → Type 0 };

    /// What is said of an input by its path alone, before it is opened.
    fn look_at(&self, path: &str) -> Result<(), Failure<Self::Refusal>>
        ensures { IfErr result IsNoFault };

    /// Takes the input at a path in.
    fn take(&mut self, path: &str, text: Vec<u8>) -> Result<(), Failure<Self::Refusal>>
        ensures taken { OnOk result (takes self.old path.now text.items self.new) }
        ensures refused { IfErr result IsNoFault };

    /// Makes the texts of all outputs, in order.
    fn make(&mut self) -> Result<(Self::End, Vec<Vec<u8>>), Failure<Self::Refusal>>
        ensures made { IfOk result (λ made. makes self.old made.0 (map (λ t. t.items) made.1.items)) }
        ensures refused { IfErr result IsNoFault };
}

/// All that the file at a path holds. It is a fault if the file can't be opened or a read of it fails, or if it holds more
/// than `MOST_INPUT` bytes.
pub fn read_file<F: FileSystem>(
    alloc: Global,
    files: &mut F,
    path: &str,
) -> Result<Vec<u8>, InputError>
    ensures { ReadsFile F.does F.holds files.old path.now (bytes_in result) files.new }
{
    let mut input = match files.open(path) {
        Ok(input) => input,
        Err(Trouble::Fault) => return Err(InputError::Fault),
        Err(Trouble::NoMemory) => return Err(InputError::NoMemory),
    };
    let text = read_input(alloc, &mut input);
    files.close(path, input);
    text
}

// Reads an input whole, and takes it in.
fn take_one<F: FileSystem, W: Work>(
    alloc: Global,
    files: &mut F,
    work: &mut W,
    path: &str,
) -> Result<(), Failure<W::Refusal>>
    ensures taken { OnOk result ((bytes : List ℕ) × Holds F.holds files.old path.now bytes
        × Did F.does files.old (read_with 0 path.now) files.new × W.takes work.old path.now bytes work.new) }
    ensures broken { IfErr result (λ why. MakesNothing F.does F.holds files.old (path.now ∷ []) why files.new) }
{
    work.look_at(path)?;
    let text = read_file(alloc, files, path)?;
    work.take(path, text)
}

// Reads the inputs one after the other, and takes each in before the next one is opened.
#[tactic(auto, using(crate::proofs::Orders::orders))]
fn take_all<F: FileSystem, W: Work>(
    alloc: Global,
    files: &mut F,
    work: &mut W,
    inputs: &[&str],
) -> Result<(), Failure<W::Refusal>>
    ensures taken { OnOk result ((all : List (List ℕ)) × ReadsAll F.does F.holds files.old (map (λ p. p.now) inputs.now) all files.new
        × TakesAll W.takes work.old (map (λ p. p.now) inputs.now) all work.new) }
    ensures broken { IfErr result (λ why. MakesNothing F.does F.holds files.old (map (λ p. p.now) inputs.now) why files.new) }
{
    match inputs {
        [] => Ok(()),
        [first, rest @ ..] => {
            take_one(alloc, files, work, first)?;
            take_all(alloc, files, work, rest)
        }
    }
}

// Writes each output whole before the next one, up to the first that can't be written.
#[tactic(auto, using(crate::proofs::Orders::orders))]
fn save_all<F: FileSystem>(
    files: &mut F,
    outputs: &[&str],
    texts: &[Vec<u8>],
) -> Result<(), Trouble>
    ensures done { OnOk result (Did F.does files.old (saved (map (λ p. p.now) outputs.now) (map (λ t. t.items) texts.now)) files.new) }
    ensures broken { IfErr result (λ why. BreaksOff F.does why files.old
        (saved (map (λ p. p.now) outputs.now) (map (λ t. t.items) texts.now)) files.new) }
{
    let [path, paths @ ..] = outputs else {
        return Ok(());
    };
    let [text, texts @ ..] = texts else {
        return Ok(());
    };
    files.save(path, text.as_slice())?;
    save_all(files, paths, texts)
}

// Writes all that was made, and ends as it was made to end.
fn save_made<F: FileSystem, E: Drop, R>(
    files: &mut F,
    outputs: &[&str],
    made: (E, Vec<Vec<u8>>),
) -> Outcome<E, R>
    ensures { Writes F.does files.old (map (λ p. p.now) outputs.now) made.0 (map (λ t. t.items) made.1.items) result files.new }
{
    let (end, texts) = made;
    match save_all(files, outputs, texts.as_slice()) {
        Ok(()) => Outcome::Ended(end),
        Err(Trouble::Fault) => Outcome::WriteFault,
        Err(Trouble::NoMemory) => Outcome::NoMemory,
    }
}

/// Does the work of a command: it reads the inputs in order, makes the texts of all outputs, and then writes them in order.
/// If something is wrong before all is made, nothing is opened for writing. A read fault is one of an input, and a write
/// fault one of an output.
pub fn transfer<F: FileSystem, W: Work>(
    alloc: Global,
    files: &mut F,
    work: &mut W,
    inputs: &[&str],
    outputs: &[&str],
) -> Outcome<W::End, W::Refusal>
    ensures { Transfers F.does F.holds (Works W.takes W.makes work.old (map (λ p. p.now) inputs.now))
        files.old (map (λ p. p.now) inputs.now) (map (λ p. p.now) outputs.now) result files.new }
{
    if let Err(failure) = take_all(alloc, files, work, inputs) {
        return Outcome::of(Err(failure));
    }
    match work.make() {
        Ok(made) => save_made(files, outputs, made),
        Err(failure) => Outcome::of(Err(failure)),
    }
}

/// Does the work of a command that has one input: it reads it, makes the texts of all outputs of its bytes, and then
/// writes them in order. It fails as `transfer` does.
pub fn convert<F: FileSystem, M: Maker>(
    alloc: Global,
    files: &mut F,
    maker: &mut M,
    input: &str,
    outputs: &[&str],
) -> Outcome<M::End, M::Refusal>
    ensures transfers { Transfers F.does F.holds (OfOne (M.makes maker.old))
        files.old (input.now ∷ []) (map (λ p. p.now) outputs.now) result files.new }
    ensures refuses { Refuses F.holds (M.makes maker.old) files.old input.now result }
{
    let text = match read_file(alloc, files, input) {
        Ok(text) => text,
        Err(error) => return Outcome::from(error),
    };
    match maker.make(text) {
        Ok(made) => save_made(files, outputs, made),
        Err(failure) => Outcome::of(Err(failure)),
    }
}

/// Puts the text that is made of a file in the place of the file's own. It is the one way in which a command writes what
/// it reads, or a source that is there: the file is opened for writing only after the text was made, and only if one is
/// made.
pub fn replace<F: FileSystem, M: Maker>(
    alloc: Global,
    files: &mut F,
    maker: &mut M,
    path: &str,
) -> Outcome<M::End, M::Refusal>
    ensures transfers { Transfers F.does F.holds (OfOne (M.makes maker.old))
        files.old (path.now ∷ []) (path.now ∷ []) result files.new }
    ensures refuses { Refuses F.holds (M.makes maker.old) files.old path.now result }
{
    convert(alloc, files, maker, path, &[path])
}
