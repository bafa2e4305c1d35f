//! A program's data in a machine's memory.
ghost use Rattle.std.specs.Prelude.{◌≡◌, ◌+◌, ◌<◌, ◌≤◌, map};
ghost use Rattle.tb_memmap.specs.Bytes.{at};
ghost use Rattle.tb_cpu.specs.Operands.{word_from, word_in};
ghost use Rattle.tb_words.specs.Numbers.{LETTERS};
ghost use Rattle.tb_words.specs.Letters.{letter_index};
ghost use Rattle.tb_words.specs.Words.{word_of};
ghost use Rattle.tb_basic_meaning.specs.Control.{deepest};
ghost use Rattle.tb_compiled_kept.specs.Addresses as addresses;
ghost use Rattle.tb_debug_inspection.specs.Readings.{return_in, value_in, values_in, variable_in, variables_in};

use tb_compiled_kept::{NOTES, RETURN_HIGH, RETURN_LOW, VARS};
use tb_memmap::Memory;
use tb_words::{LETTERS, Letter};

/// The values of A to Z.
pub type Variables = [i16; LETTERS];

// The byte at an address among a program's data.
fn byte(memory: &Memory, address: u16) -> u8
    requires { (0xc000 ≤ address) × (address < 0xd000) }
    ensures { result ≡ at memory.now address }
{
    memory.open_byte(address)
}

// A word from its bytes.
fn word_from(low: u8, high: u8) -> u16
    ensures { result ≡ word_from low high }
{
    u16::from(high) << 8 | u16::from(low)
}

// The word at an address among a program's data, low byte first.
fn word(memory: &Memory, address: u16) -> u16
    requires { (0xc000 ≤ address) × (address < 0xcfff) }
    ensures { result ≡ word_in (at memory.now) address }
{
    word_from(byte(memory, address), byte(memory, address + 1))
}

// The value of the variable at an index in the alphabet.
fn value(memory: &Memory, index: usize) -> i16
    requires { index < LETTERS }
    ensures word { word_of result ≡ variable_in (at memory.now) index }
    ensures value { result ≡ value_in (at memory.now) index }
{
    word(memory, VARS + 2 * index as u16).cast_signed()
}

/// The value of a variable: the word at `$C000` and twice the letter's index, low byte first, read as signed.
pub fn variable(memory: &Memory, letter: Letter) -> i16
    ensures word { word_of result ≡ variable_in (at memory.now) (letter_index letter) }
    ensures value { result ≡ value_in (at memory.now) (letter_index letter) }
{
    value(memory, letter.index())
}

/// The values of all variables.
pub fn variables(memory: &Memory) -> Variables
    ensures words { map word_of result ≡ variables_in (at memory.now) }
    ensures values { result ≡ values_in (at memory.now) }
{
    let mut values = [0; LETTERS];
    for index in 0..LETTERS {
        values[index] = value(memory, index);
    }
    values
}

/// How many returns the return list holds, one for each GOSUB that waits for its RETURN: the word at `NOTES`. A program
/// that runs has at most 500 there; another memory may have any word.
pub fn depth(memory: &Memory) -> u16
    ensures { result ≡ word_in (at memory.now) addresses.NOTES }
{
    word(memory, NOTES)
}

/// A return by its index in the return list: the address to which a RETURN goes. The oldest is at 0.
pub fn return_address(memory: &Memory, index: u16) -> u16
    requires { index < deepest }
    ensures { result ≡ return_in (at memory.now) index }
{
    word_from(
        byte(memory, RETURN_LOW + index),
        byte(memory, RETURN_HIGH + index),
    )
}
