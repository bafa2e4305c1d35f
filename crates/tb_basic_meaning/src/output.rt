//! What a run sends.
ghost use Rattle.std.specs.Prelude.{◌≡◌, ◌++◌, ◌∷◌, [], ◌≤◌, OnOk, vec_len};
ghost use Rattle.tb_words.specs.Words.{digits_of};
ghost use Rattle.tb_basic_meaning.specs.Control.{column_after, zone, fault_text};
ghost use Rattle.tb_basic_meaning.specs.Parts.{fault_of};

use crate::faults::Fault;
use std::alloc::{AllocError, Global};
use tb_words::digits;

/// The bytes sent so far, and how many of them since the last carriage return.
#[derive(Drop)]
pub struct Output {
    pub sent: Vec<u8>,
    pub column: usize,
    ghost in_sent: { column ≤ vec_len sent },
}

impl Output {
    /// An output with nothing sent.
    pub fn new(alloc: Global) -> Self
        ensures sent { result.sent.items ≡ [] }
        ensures column { result.column ≡ 0 }
    {
        Output {
            sent: Vec::new(alloc),
            column: 0,
        }
    }

    /// Sends a byte. All sending fails only if memory runs out.
    pub fn send(&mut self, byte: u8) -> Result<(), AllocError>
        ensures sent { OnOk result (self.new.sent.items ≡ self.old.sent.items ++ byte ∷ []) }
        ensures column { OnOk result (self.new.column ≡ column_after self.old.column (byte ∷ [])) }
    {
        self.sent.push(byte)?;
        self.column = if byte == b'\r' { 0 } else { self.column + 1 };
        Ok(())
    }

    /// Sends bytes.
    pub fn send_all(&mut self, bytes: &[u8]) -> Result<(), AllocError>
        ensures sent { OnOk result (self.new.sent.items ≡ self.old.sent.items ++ bytes.now) }
        ensures column { OnOk result (self.new.column ≡ column_after self.old.column bytes.now) }
    {
        for byte in bytes {
            self.send(*byte)?;
        }
        Ok(())
    }

    /// Sends a word in decimal, read as signed: -32768 to 32767.
    pub fn send_number(&mut self, word: u16) -> Result<(), AllocError>
        ensures sent { OnOk result (self.new.sent.items ≡ self.old.sent.items ++ digits_of word) }
        ensures column { OnOk result (self.new.column ≡ column_after self.old.column (digits_of word)) }
    {
        let text = digits(word.cast_signed());
        self.send_all(text.as_slice())
    }

    /// Sends 1 to 8 spaces, up to the next zone of eight columns.
    pub fn send_zone(&mut self) -> Result<(), AllocError>
        ensures sent { OnOk result (self.new.sent.items ≡ self.old.sent.items ++ zone self.old.column) }
        ensures column { OnOk result (self.new.column ≡ column_after self.old.column (zone self.old.column)) }
    {
        let spaces = [b' '; 8];
        self.send_all(&spaces[self.column % 8..])
    }

    /// Sends the text of a fault at a line.
    pub fn send_fault(&mut self, fault: Fault, number: u16) -> Result<(), AllocError>
        ensures { OnOk result (self.new.sent.items ≡ self.old.sent.items ++ fault_text (fault_of fault) number) }
    {
        self.send_all(b"\r!")?;
        self.send(b'0' + fault.number())?;
        self.send_all(b" AT ")?;
        self.send_number(number)?;
        self.send(b'\r')
    }
}
