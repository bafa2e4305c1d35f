//! The documented instructions of the NMOS 6502: opcodes, mnemonics and addressing modes.
//!
//! The table of 151 rows is `rows` in `specs/Opcodes.antt`, grouped by mnemonic. The code has a table of its own, in
//! the order of the opcodes: the proof compares the two, and a test compares both with the table rebuilt from the
//! opcodes' bit structure. `decode`, `encode` and `length` are the list of rows. `table_laws`: no opcode and no pair
//! of mnemonic and mode occurs twice, and `decode` and `encode` are inverse to each other. No call takes memory.
#![tactic(auto)]

ghost use Rattle.std.specs.Prelude.{◌≡◌, ◌<◌, ◌≢◌, ℕ, Some, None, MatchOption, IsTrue, ◌↔◌};
ghost use Rattle.tb_opcodes.specs.Opcodes.{decoded, encoded, length_of};
ghost use Rattle.tb_opcodes.specs.declared.Mode.TheVariants.{Implied, Accumulator, Immediate, ZeroPage, ZeroPageX, ZeroPageY};
ghost use Rattle.tb_opcodes.specs.declared.Mode.TheVariants.{IndirectX, IndirectY, Relative, Absolute, AbsoluteX, AbsoluteY, Indirect};
ghost use Rattle.tb_opcodes.specs.Table.{IsTable};

/// The 56 mnemonics of the MCS6500 Programming Manual.
#[derive(Clone, Copy, PartialEq, Eq, Debug, Drop)]
pub enum Mnemonic {
    /// Add to A with carry.
    Adc,
    /// AND with A.
    And,
    /// Shift left, one bit.
    Asl,
    /// Branch if C is clear.
    Bcc,
    /// Branch if C is set.
    Bcs,
    /// Branch if Z is set.
    Beq,
    /// Test bits with A.
    Bit,
    /// Branch if N is set.
    Bmi,
    /// Branch if Z is clear.
    Bne,
    /// Branch if N is clear.
    Bpl,
    /// Force break.
    Brk,
    /// Branch if V is clear.
    Bvc,
    /// Branch if V is set.
    Bvs,
    /// Clear the carry.
    Clc,
    /// Clear decimal mode.
    Cld,
    /// Clear the interrupt disable.
    Cli,
    /// Clear the overflow.
    Clv,
    /// Compare with A.
    Cmp,
    /// Compare with X.
    Cpx,
    /// Compare with Y.
    Cpy,
    /// Decrement memory.
    Dec,
    /// Decrement X.
    Dex,
    /// Decrement Y.
    Dey,
    /// Exclusive OR with A.
    Eor,
    /// Increment memory.
    Inc,
    /// Increment X.
    Inx,
    /// Increment Y.
    Iny,
    /// Jump.
    Jmp,
    /// Jump, saving the return address.
    Jsr,
    /// Load A.
    Lda,
    /// Load X.
    Ldx,
    /// Load Y.
    Ldy,
    /// Shift right, one bit.
    Lsr,
    /// No operation.
    Nop,
    /// OR with A.
    Ora,
    /// Push A.
    Pha,
    /// Push the status.
    Php,
    /// Pull A.
    Pla,
    /// Pull the status.
    Plp,
    /// Rotate left, one bit.
    Rol,
    /// Rotate right, one bit.
    Ror,
    /// Return from interrupt.
    Rti,
    /// Return from subroutine.
    Rts,
    /// Subtract from A with borrow.
    Sbc,
    /// Set the carry.
    Sec,
    /// Set decimal mode.
    Sed,
    /// Set the interrupt disable.
    Sei,
    /// Store A.
    Sta,
    /// Store X.
    Stx,
    /// Store Y.
    Sty,
    /// Transfer A to X.
    Tax,
    /// Transfer A to Y.
    Tay,
    /// Transfer S to X.
    Tsx,
    /// Transfer X to A.
    Txa,
    /// Transfer X to S.
    Txs,
    /// Transfer Y to A.
    Tya,
}

/// The 13 addressing modes.
#[derive(Clone, Copy, PartialEq, Eq, Debug, Drop)]
pub enum Mode {
    /// No operand.
    Implied,
    /// A itself.
    Accumulator,
    /// The byte after the opcode.
    Immediate,
    /// A byte of page zero.
    ZeroPage,
    /// Page zero, X added modulo 256.
    ZeroPageX,
    /// Page zero, Y added modulo 256.
    ZeroPageY,
    /// Through a pointer of page zero whose address has X added: `(zp,X)`.
    IndirectX,
    /// Through a pointer of page zero, Y added to what it holds: `(zp),Y`.
    IndirectY,
    /// A signed distance from the next instruction.
    Relative,
    /// A word, low byte first.
    Absolute,
    /// A word, X added.
    AbsoluteX,
    /// A word, Y added.
    AbsoluteY,
    /// Through a pointer anywhere, of JMP alone: `(abs)`.
    Indirect,
}

/// The mnemonic and the mode of an opcode; `None` if the byte is not one of the 151 documented
/// opcodes.
// Inlined, so that the processor reaches an instruction by one jump over the opcode.
#[inline(always)]
#[tactic(auto, unfolding(crate::specs::Opcodes::decoded))]
pub fn decode(opcode: u8) -> Option<(Mnemonic, Mode)>
    ensures { result ≡ decoded opcode }
{
    let instruction = match opcode {
        0x00 => (Mnemonic::Brk, Mode::Implied),
        0x01 => (Mnemonic::Ora, Mode::IndirectX),
        0x05 => (Mnemonic::Ora, Mode::ZeroPage),
        0x06 => (Mnemonic::Asl, Mode::ZeroPage),
        0x08 => (Mnemonic::Php, Mode::Implied),
        0x09 => (Mnemonic::Ora, Mode::Immediate),
        0x0a => (Mnemonic::Asl, Mode::Accumulator),
        0x0d => (Mnemonic::Ora, Mode::Absolute),
        0x0e => (Mnemonic::Asl, Mode::Absolute),
        0x10 => (Mnemonic::Bpl, Mode::Relative),
        0x11 => (Mnemonic::Ora, Mode::IndirectY),
        0x15 => (Mnemonic::Ora, Mode::ZeroPageX),
        0x16 => (Mnemonic::Asl, Mode::ZeroPageX),
        0x18 => (Mnemonic::Clc, Mode::Implied),
        0x19 => (Mnemonic::Ora, Mode::AbsoluteY),
        0x1d => (Mnemonic::Ora, Mode::AbsoluteX),
        0x1e => (Mnemonic::Asl, Mode::AbsoluteX),
        0x20 => (Mnemonic::Jsr, Mode::Absolute),
        0x21 => (Mnemonic::And, Mode::IndirectX),
        0x24 => (Mnemonic::Bit, Mode::ZeroPage),
        0x25 => (Mnemonic::And, Mode::ZeroPage),
        0x26 => (Mnemonic::Rol, Mode::ZeroPage),
        0x28 => (Mnemonic::Plp, Mode::Implied),
        0x29 => (Mnemonic::And, Mode::Immediate),
        0x2a => (Mnemonic::Rol, Mode::Accumulator),
        0x2c => (Mnemonic::Bit, Mode::Absolute),
        0x2d => (Mnemonic::And, Mode::Absolute),
        0x2e => (Mnemonic::Rol, Mode::Absolute),
        0x30 => (Mnemonic::Bmi, Mode::Relative),
        0x31 => (Mnemonic::And, Mode::IndirectY),
        0x35 => (Mnemonic::And, Mode::ZeroPageX),
        0x36 => (Mnemonic::Rol, Mode::ZeroPageX),
        0x38 => (Mnemonic::Sec, Mode::Implied),
        0x39 => (Mnemonic::And, Mode::AbsoluteY),
        0x3d => (Mnemonic::And, Mode::AbsoluteX),
        0x3e => (Mnemonic::Rol, Mode::AbsoluteX),
        0x40 => (Mnemonic::Rti, Mode::Implied),
        0x41 => (Mnemonic::Eor, Mode::IndirectX),
        0x45 => (Mnemonic::Eor, Mode::ZeroPage),
        0x46 => (Mnemonic::Lsr, Mode::ZeroPage),
        0x48 => (Mnemonic::Pha, Mode::Implied),
        0x49 => (Mnemonic::Eor, Mode::Immediate),
        0x4a => (Mnemonic::Lsr, Mode::Accumulator),
        0x4c => (Mnemonic::Jmp, Mode::Absolute),
        0x4d => (Mnemonic::Eor, Mode::Absolute),
        0x4e => (Mnemonic::Lsr, Mode::Absolute),
        0x50 => (Mnemonic::Bvc, Mode::Relative),
        0x51 => (Mnemonic::Eor, Mode::IndirectY),
        0x55 => (Mnemonic::Eor, Mode::ZeroPageX),
        0x56 => (Mnemonic::Lsr, Mode::ZeroPageX),
        0x58 => (Mnemonic::Cli, Mode::Implied),
        0x59 => (Mnemonic::Eor, Mode::AbsoluteY),
        0x5d => (Mnemonic::Eor, Mode::AbsoluteX),
        0x5e => (Mnemonic::Lsr, Mode::AbsoluteX),
        0x60 => (Mnemonic::Rts, Mode::Implied),
        0x61 => (Mnemonic::Adc, Mode::IndirectX),
        0x65 => (Mnemonic::Adc, Mode::ZeroPage),
        0x66 => (Mnemonic::Ror, Mode::ZeroPage),
        0x68 => (Mnemonic::Pla, Mode::Implied),
        0x69 => (Mnemonic::Adc, Mode::Immediate),
        0x6a => (Mnemonic::Ror, Mode::Accumulator),
        0x6c => (Mnemonic::Jmp, Mode::Indirect),
        0x6d => (Mnemonic::Adc, Mode::Absolute),
        0x6e => (Mnemonic::Ror, Mode::Absolute),
        0x70 => (Mnemonic::Bvs, Mode::Relative),
        0x71 => (Mnemonic::Adc, Mode::IndirectY),
        0x75 => (Mnemonic::Adc, Mode::ZeroPageX),
        0x76 => (Mnemonic::Ror, Mode::ZeroPageX),
        0x78 => (Mnemonic::Sei, Mode::Implied),
        0x79 => (Mnemonic::Adc, Mode::AbsoluteY),
        0x7d => (Mnemonic::Adc, Mode::AbsoluteX),
        0x7e => (Mnemonic::Ror, Mode::AbsoluteX),
        0x81 => (Mnemonic::Sta, Mode::IndirectX),
        0x84 => (Mnemonic::Sty, Mode::ZeroPage),
        0x85 => (Mnemonic::Sta, Mode::ZeroPage),
        0x86 => (Mnemonic::Stx, Mode::ZeroPage),
        0x88 => (Mnemonic::Dey, Mode::Implied),
        0x8a => (Mnemonic::Txa, Mode::Implied),
        0x8c => (Mnemonic::Sty, Mode::Absolute),
        0x8d => (Mnemonic::Sta, Mode::Absolute),
        0x8e => (Mnemonic::Stx, Mode::Absolute),
        0x90 => (Mnemonic::Bcc, Mode::Relative),
        0x91 => (Mnemonic::Sta, Mode::IndirectY),
        0x94 => (Mnemonic::Sty, Mode::ZeroPageX),
        0x95 => (Mnemonic::Sta, Mode::ZeroPageX),
        0x96 => (Mnemonic::Stx, Mode::ZeroPageY),
        0x98 => (Mnemonic::Tya, Mode::Implied),
        0x99 => (Mnemonic::Sta, Mode::AbsoluteY),
        0x9a => (Mnemonic::Txs, Mode::Implied),
        0x9d => (Mnemonic::Sta, Mode::AbsoluteX),
        0xa0 => (Mnemonic::Ldy, Mode::Immediate),
        0xa1 => (Mnemonic::Lda, Mode::IndirectX),
        0xa2 => (Mnemonic::Ldx, Mode::Immediate),
        0xa4 => (Mnemonic::Ldy, Mode::ZeroPage),
        0xa5 => (Mnemonic::Lda, Mode::ZeroPage),
        0xa6 => (Mnemonic::Ldx, Mode::ZeroPage),
        0xa8 => (Mnemonic::Tay, Mode::Implied),
        0xa9 => (Mnemonic::Lda, Mode::Immediate),
        0xaa => (Mnemonic::Tax, Mode::Implied),
        0xac => (Mnemonic::Ldy, Mode::Absolute),
        0xad => (Mnemonic::Lda, Mode::Absolute),
        0xae => (Mnemonic::Ldx, Mode::Absolute),
        0xb0 => (Mnemonic::Bcs, Mode::Relative),
        0xb1 => (Mnemonic::Lda, Mode::IndirectY),
        0xb4 => (Mnemonic::Ldy, Mode::ZeroPageX),
        0xb5 => (Mnemonic::Lda, Mode::ZeroPageX),
        0xb6 => (Mnemonic::Ldx, Mode::ZeroPageY),
        0xb8 => (Mnemonic::Clv, Mode::Implied),
        0xb9 => (Mnemonic::Lda, Mode::AbsoluteY),
        0xba => (Mnemonic::Tsx, Mode::Implied),
        0xbc => (Mnemonic::Ldy, Mode::AbsoluteX),
        0xbd => (Mnemonic::Lda, Mode::AbsoluteX),
        0xbe => (Mnemonic::Ldx, Mode::AbsoluteY),
        0xc0 => (Mnemonic::Cpy, Mode::Immediate),
        0xc1 => (Mnemonic::Cmp, Mode::IndirectX),
        0xc4 => (Mnemonic::Cpy, Mode::ZeroPage),
        0xc5 => (Mnemonic::Cmp, Mode::ZeroPage),
        0xc6 => (Mnemonic::Dec, Mode::ZeroPage),
        0xc8 => (Mnemonic::Iny, Mode::Implied),
        0xc9 => (Mnemonic::Cmp, Mode::Immediate),
        0xca => (Mnemonic::Dex, Mode::Implied),
        0xcc => (Mnemonic::Cpy, Mode::Absolute),
        0xcd => (Mnemonic::Cmp, Mode::Absolute),
        0xce => (Mnemonic::Dec, Mode::Absolute),
        0xd0 => (Mnemonic::Bne, Mode::Relative),
        0xd1 => (Mnemonic::Cmp, Mode::IndirectY),
        0xd5 => (Mnemonic::Cmp, Mode::ZeroPageX),
        0xd6 => (Mnemonic::Dec, Mode::ZeroPageX),
        0xd8 => (Mnemonic::Cld, Mode::Implied),
        0xd9 => (Mnemonic::Cmp, Mode::AbsoluteY),
        0xdd => (Mnemonic::Cmp, Mode::AbsoluteX),
        0xde => (Mnemonic::Dec, Mode::AbsoluteX),
        0xe0 => (Mnemonic::Cpx, Mode::Immediate),
        0xe1 => (Mnemonic::Sbc, Mode::IndirectX),
        0xe4 => (Mnemonic::Cpx, Mode::ZeroPage),
        0xe5 => (Mnemonic::Sbc, Mode::ZeroPage),
        0xe6 => (Mnemonic::Inc, Mode::ZeroPage),
        0xe8 => (Mnemonic::Inx, Mode::Implied),
        0xe9 => (Mnemonic::Sbc, Mode::Immediate),
        0xea => (Mnemonic::Nop, Mode::Implied),
        0xec => (Mnemonic::Cpx, Mode::Absolute),
        0xed => (Mnemonic::Sbc, Mode::Absolute),
        0xee => (Mnemonic::Inc, Mode::Absolute),
        0xf0 => (Mnemonic::Beq, Mode::Relative),
        0xf1 => (Mnemonic::Sbc, Mode::IndirectY),
        0xf5 => (Mnemonic::Sbc, Mode::ZeroPageX),
        0xf6 => (Mnemonic::Inc, Mode::ZeroPageX),
        0xf8 => (Mnemonic::Sed, Mode::Implied),
        0xf9 => (Mnemonic::Sbc, Mode::AbsoluteY),
        0xfd => (Mnemonic::Sbc, Mode::AbsoluteX),
        0xfe => (Mnemonic::Inc, Mode::AbsoluteX),
        _ => return None,
    };
    Some(instruction)
}

/// The number of bytes of an instruction in a mode, from 1 to 3. BRK counts one.
pub fn length(mode: Mode) -> u8
    ensures { result ≡ length_of mode }
{
    match mode {
        Mode::Implied | Mode::Accumulator => 1,
        Mode::Absolute | Mode::AbsoluteX | Mode::AbsoluteY | Mode::Indirect => 3,
        _ => 2,
    }
}

/// The opcode of a mnemonic in a mode; `None` if the mnemonic does not have that mode.
pub fn encode(mnemonic: Mnemonic, mode: Mode) -> Option<u8>
    ensures { result ≡ encoded mnemonic mode }
{
    match mode {
        Mode::Implied => encode_implied(mnemonic),
        Mode::Accumulator => encode_accumulator(mnemonic),
        Mode::Immediate => encode_immediate(mnemonic),
        Mode::ZeroPage => encode_zero_page(mnemonic),
        Mode::ZeroPageX => encode_zero_page_x(mnemonic),
        Mode::ZeroPageY => encode_zero_page_y(mnemonic),
        Mode::IndirectX => encode_indirect_x(mnemonic),
        Mode::IndirectY => encode_indirect_y(mnemonic),
        Mode::Relative => encode_relative(mnemonic),
        Mode::Absolute => encode_absolute(mnemonic),
        Mode::AbsoluteX => encode_absolute_x(mnemonic),
        Mode::AbsoluteY => encode_absolute_y(mnemonic),
        Mode::Indirect => encode_indirect(mnemonic),
    }
}

// Its opcode without an operand.
#[tactic(auto, unfolding(crate::specs::Opcodes::encoded))]
fn encode_implied(mnemonic: Mnemonic) -> Option<u8>
    ensures { result ≡ encoded mnemonic Implied }
{
    let opcode = match mnemonic {
        Mnemonic::Brk => 0x00,
        Mnemonic::Clc => 0x18,
        Mnemonic::Cld => 0xd8,
        Mnemonic::Cli => 0x58,
        Mnemonic::Clv => 0xb8,
        Mnemonic::Dex => 0xca,
        Mnemonic::Dey => 0x88,
        Mnemonic::Inx => 0xe8,
        Mnemonic::Iny => 0xc8,
        Mnemonic::Nop => 0xea,
        Mnemonic::Pha => 0x48,
        Mnemonic::Php => 0x08,
        Mnemonic::Pla => 0x68,
        Mnemonic::Plp => 0x28,
        Mnemonic::Rti => 0x40,
        Mnemonic::Rts => 0x60,
        Mnemonic::Sec => 0x38,
        Mnemonic::Sed => 0xf8,
        Mnemonic::Sei => 0x78,
        Mnemonic::Tax => 0xaa,
        Mnemonic::Tay => 0xa8,
        Mnemonic::Tsx => 0xba,
        Mnemonic::Txa => 0x8a,
        Mnemonic::Txs => 0x9a,
        Mnemonic::Tya => 0x98,
        _ => return None,
    };
    Some(opcode)
}

// Its opcode on A itself.
#[tactic(auto, unfolding(crate::specs::Opcodes::encoded))]
fn encode_accumulator(mnemonic: Mnemonic) -> Option<u8>
    ensures { result ≡ encoded mnemonic Accumulator }
{
    let opcode = match mnemonic {
        Mnemonic::Asl => 0x0a,
        Mnemonic::Lsr => 0x4a,
        Mnemonic::Rol => 0x2a,
        Mnemonic::Ror => 0x6a,
        _ => return None,
    };
    Some(opcode)
}

// Its opcode with a byte of its own.
#[tactic(auto, unfolding(crate::specs::Opcodes::encoded))]
fn encode_immediate(mnemonic: Mnemonic) -> Option<u8>
    ensures { result ≡ encoded mnemonic Immediate }
{
    let opcode = match mnemonic {
        Mnemonic::Adc => 0x69,
        Mnemonic::And => 0x29,
        Mnemonic::Cmp => 0xc9,
        Mnemonic::Cpx => 0xe0,
        Mnemonic::Cpy => 0xc0,
        Mnemonic::Eor => 0x49,
        Mnemonic::Lda => 0xa9,
        Mnemonic::Ldx => 0xa2,
        Mnemonic::Ldy => 0xa0,
        Mnemonic::Ora => 0x09,
        Mnemonic::Sbc => 0xe9,
        _ => return None,
    };
    Some(opcode)
}

// Its opcode on page zero.
#[tactic(auto, unfolding(crate::specs::Opcodes::encoded))]
fn encode_zero_page(mnemonic: Mnemonic) -> Option<u8>
    ensures { result ≡ encoded mnemonic ZeroPage }
{
    let opcode = match mnemonic {
        Mnemonic::Adc => 0x65,
        Mnemonic::And => 0x25,
        Mnemonic::Asl => 0x06,
        Mnemonic::Bit => 0x24,
        Mnemonic::Cmp => 0xc5,
        Mnemonic::Cpx => 0xe4,
        Mnemonic::Cpy => 0xc4,
        Mnemonic::Dec => 0xc6,
        Mnemonic::Eor => 0x45,
        Mnemonic::Inc => 0xe6,
        Mnemonic::Lda => 0xa5,
        Mnemonic::Ldx => 0xa6,
        Mnemonic::Ldy => 0xa4,
        Mnemonic::Lsr => 0x46,
        Mnemonic::Ora => 0x05,
        Mnemonic::Rol => 0x26,
        Mnemonic::Ror => 0x66,
        Mnemonic::Sbc => 0xe5,
        Mnemonic::Sta => 0x85,
        Mnemonic::Stx => 0x86,
        Mnemonic::Sty => 0x84,
        _ => return None,
    };
    Some(opcode)
}

// Its opcode on page zero, X added.
#[tactic(auto, unfolding(crate::specs::Opcodes::encoded))]
fn encode_zero_page_x(mnemonic: Mnemonic) -> Option<u8>
    ensures { result ≡ encoded mnemonic ZeroPageX }
{
    let opcode = match mnemonic {
        Mnemonic::Adc => 0x75,
        Mnemonic::And => 0x35,
        Mnemonic::Asl => 0x16,
        Mnemonic::Cmp => 0xd5,
        Mnemonic::Dec => 0xd6,
        Mnemonic::Eor => 0x55,
        Mnemonic::Inc => 0xf6,
        Mnemonic::Lda => 0xb5,
        Mnemonic::Ldy => 0xb4,
        Mnemonic::Lsr => 0x56,
        Mnemonic::Ora => 0x15,
        Mnemonic::Rol => 0x36,
        Mnemonic::Ror => 0x76,
        Mnemonic::Sbc => 0xf5,
        Mnemonic::Sta => 0x95,
        Mnemonic::Sty => 0x94,
        _ => return None,
    };
    Some(opcode)
}

// Its opcode on page zero, Y added.
#[tactic(auto, unfolding(crate::specs::Opcodes::encoded))]
fn encode_zero_page_y(mnemonic: Mnemonic) -> Option<u8>
    ensures { result ≡ encoded mnemonic ZeroPageY }
{
    let opcode = match mnemonic {
        Mnemonic::Ldx => 0xb6,
        Mnemonic::Stx => 0x96,
        _ => return None,
    };
    Some(opcode)
}

// Its opcode through a pointer of page zero, X added before.
#[tactic(auto, unfolding(crate::specs::Opcodes::encoded))]
fn encode_indirect_x(mnemonic: Mnemonic) -> Option<u8>
    ensures { result ≡ encoded mnemonic IndirectX }
{
    let opcode = match mnemonic {
        Mnemonic::Adc => 0x61,
        Mnemonic::And => 0x21,
        Mnemonic::Cmp => 0xc1,
        Mnemonic::Eor => 0x41,
        Mnemonic::Lda => 0xa1,
        Mnemonic::Ora => 0x01,
        Mnemonic::Sbc => 0xe1,
        Mnemonic::Sta => 0x81,
        _ => return None,
    };
    Some(opcode)
}

// Its opcode through a pointer of page zero, Y added after.
#[tactic(auto, unfolding(crate::specs::Opcodes::encoded))]
fn encode_indirect_y(mnemonic: Mnemonic) -> Option<u8>
    ensures { result ≡ encoded mnemonic IndirectY }
{
    let opcode = match mnemonic {
        Mnemonic::Adc => 0x71,
        Mnemonic::And => 0x31,
        Mnemonic::Cmp => 0xd1,
        Mnemonic::Eor => 0x51,
        Mnemonic::Lda => 0xb1,
        Mnemonic::Ora => 0x11,
        Mnemonic::Sbc => 0xf1,
        Mnemonic::Sta => 0x91,
        _ => return None,
    };
    Some(opcode)
}

// Its opcode with a distance.
#[tactic(auto, unfolding(crate::specs::Opcodes::encoded))]
fn encode_relative(mnemonic: Mnemonic) -> Option<u8>
    ensures { result ≡ encoded mnemonic Relative }
{
    let opcode = match mnemonic {
        Mnemonic::Bcc => 0x90,
        Mnemonic::Bcs => 0xb0,
        Mnemonic::Beq => 0xf0,
        Mnemonic::Bmi => 0x30,
        Mnemonic::Bne => 0xd0,
        Mnemonic::Bpl => 0x10,
        Mnemonic::Bvc => 0x50,
        Mnemonic::Bvs => 0x70,
        _ => return None,
    };
    Some(opcode)
}

// Its opcode with an address.
#[tactic(auto, unfolding(crate::specs::Opcodes::encoded))]
fn encode_absolute(mnemonic: Mnemonic) -> Option<u8>
    ensures { result ≡ encoded mnemonic Absolute }
{
    let opcode = match mnemonic {
        Mnemonic::Adc => 0x6d,
        Mnemonic::And => 0x2d,
        Mnemonic::Asl => 0x0e,
        Mnemonic::Bit => 0x2c,
        Mnemonic::Cmp => 0xcd,
        Mnemonic::Cpx => 0xec,
        Mnemonic::Cpy => 0xcc,
        Mnemonic::Dec => 0xce,
        Mnemonic::Eor => 0x4d,
        Mnemonic::Inc => 0xee,
        Mnemonic::Jmp => 0x4c,
        Mnemonic::Jsr => 0x20,
        Mnemonic::Lda => 0xad,
        Mnemonic::Ldx => 0xae,
        Mnemonic::Ldy => 0xac,
        Mnemonic::Lsr => 0x4e,
        Mnemonic::Ora => 0x0d,
        Mnemonic::Rol => 0x2e,
        Mnemonic::Ror => 0x6e,
        Mnemonic::Sbc => 0xed,
        Mnemonic::Sta => 0x8d,
        Mnemonic::Stx => 0x8e,
        Mnemonic::Sty => 0x8c,
        _ => return None,
    };
    Some(opcode)
}

// Its opcode with an address, X added.
#[tactic(auto, unfolding(crate::specs::Opcodes::encoded))]
fn encode_absolute_x(mnemonic: Mnemonic) -> Option<u8>
    ensures { result ≡ encoded mnemonic AbsoluteX }
{
    let opcode = match mnemonic {
        Mnemonic::Adc => 0x7d,
        Mnemonic::And => 0x3d,
        Mnemonic::Asl => 0x1e,
        Mnemonic::Cmp => 0xdd,
        Mnemonic::Dec => 0xde,
        Mnemonic::Eor => 0x5d,
        Mnemonic::Inc => 0xfe,
        Mnemonic::Lda => 0xbd,
        Mnemonic::Ldy => 0xbc,
        Mnemonic::Lsr => 0x5e,
        Mnemonic::Ora => 0x1d,
        Mnemonic::Rol => 0x3e,
        Mnemonic::Ror => 0x7e,
        Mnemonic::Sbc => 0xfd,
        Mnemonic::Sta => 0x9d,
        _ => return None,
    };
    Some(opcode)
}

// Its opcode with an address, Y added.
#[tactic(auto, unfolding(crate::specs::Opcodes::encoded))]
fn encode_absolute_y(mnemonic: Mnemonic) -> Option<u8>
    ensures { result ≡ encoded mnemonic AbsoluteY }
{
    let opcode = match mnemonic {
        Mnemonic::Adc => 0x79,
        Mnemonic::And => 0x39,
        Mnemonic::Cmp => 0xd9,
        Mnemonic::Eor => 0x59,
        Mnemonic::Lda => 0xb9,
        Mnemonic::Ldx => 0xbe,
        Mnemonic::Ora => 0x19,
        Mnemonic::Sbc => 0xf9,
        Mnemonic::Sta => 0x99,
        _ => return None,
    };
    Some(opcode)
}

// Its opcode through a pointer anywhere.
#[tactic(auto, unfolding(crate::specs::Opcodes::encoded))]
fn encode_indirect(mnemonic: Mnemonic) -> Option<u8>
    ensures { result ≡ encoded mnemonic Indirect }
{
    match mnemonic {
        Mnemonic::Jmp => Some(0x6c),
        _ => None,
    }
}

/// The laws of the table, for those who build on it: `decode` and `encode` are its 151 rows, and
/// inverse to each other. The call does nothing.
#[tactic(auto, using(crate::proofs::Table::table))]
pub fn table_laws()
    ensures { IsTable }
{}
