//! What names stand for.
ghost use Rattle.std.specs.Prelude.{◌≡◌, IfErr, IfOk, OnOk};
ghost use Rattle.tb_assembly_meaning.specs.Names.{named, with_name};

use crate::bytes::push_bytes;
use crate::faults::MeaningError;
use indexmap::IndexMap;
use std::alloc::Global;
use tb_assembly_text::Name;

/// What each name stands for: a value, or nothing that is known.
pub type Symbols = IndexMap<Name, Option<i32>>;

/// What a name stands for, if there is such a name.
pub fn symbol(symbols: &Symbols, name: &Name) -> Option<Option<i32>>
    ensures { result ≡ named symbols.now.entries name.now.letters.items }
{
    symbols.get(name).copied()
}

// A name once more.
fn copied(alloc: Global, name: &Name) -> Result<Name, MeaningError>
    ensures same { IfOk result (λ n. n.letters.items ≡ name.now.letters.items) }
    ensures memory { IfErr result (λ e. e ≡ MeaningError.NoMemory) }
{
    let mut letters = Vec::new(alloc);
    push_bytes(&mut letters, &name.letters)?;
    Ok(Name { letters })
}

// Lets a name stand for something from now on.
fn insert(symbols: &mut Symbols, key: Name, value: Option<i32>) -> Result<(), MeaningError>
    ensures named { OnOk result (named symbols.new.entries ≡ with_name (named symbols.old.entries) key.letters.items value) }
    ensures memory { IfErr result (λ e. e ≡ MeaningError.NoMemory) }
{
    match symbols.insert(key, value) {
        Ok(_) => Ok(()),
        Err(_) => Err(MeaningError::NoMemory),
    }
}

/// Lets a name stand for something from now on.
pub fn name_value(
    alloc: Global,
    symbols: &mut Symbols,
    name: &Name,
    value: Option<i32>,
) -> Result<(), MeaningError>
    ensures named { OnOk result (named symbols.new.entries ≡ with_name (named symbols.old.entries) name.now.letters.items value) }
    ensures memory { IfErr result (λ e. e ≡ MeaningError.NoMemory) }
{
    let key = copied(alloc, name)?;
    insert(symbols, key, value)
}
