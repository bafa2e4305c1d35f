//! The names of the mnemonics.
ghost use Rattle.std.specs.Prelude.{◌≡◌};
ghost use Rattle.tb_asm.specs.Mnemonics.{name_of, mnemonic_of};

use tb_opcodes::Mnemonic;

// Each mnemonic once.
const MNEMONICS: [Mnemonic; 56] = [
    Mnemonic::Adc,
    Mnemonic::And,
    Mnemonic::Asl,
    Mnemonic::Bcc,
    Mnemonic::Bcs,
    Mnemonic::Beq,
    Mnemonic::Bit,
    Mnemonic::Bmi,
    Mnemonic::Bne,
    Mnemonic::Bpl,
    Mnemonic::Brk,
    Mnemonic::Bvc,
    Mnemonic::Bvs,
    Mnemonic::Clc,
    Mnemonic::Cld,
    Mnemonic::Cli,
    Mnemonic::Clv,
    Mnemonic::Cmp,
    Mnemonic::Cpx,
    Mnemonic::Cpy,
    Mnemonic::Dec,
    Mnemonic::Dex,
    Mnemonic::Dey,
    Mnemonic::Eor,
    Mnemonic::Inc,
    Mnemonic::Inx,
    Mnemonic::Iny,
    Mnemonic::Jmp,
    Mnemonic::Jsr,
    Mnemonic::Lda,
    Mnemonic::Ldx,
    Mnemonic::Ldy,
    Mnemonic::Lsr,
    Mnemonic::Nop,
    Mnemonic::Ora,
    Mnemonic::Pha,
    Mnemonic::Php,
    Mnemonic::Pla,
    Mnemonic::Plp,
    Mnemonic::Rol,
    Mnemonic::Ror,
    Mnemonic::Rti,
    Mnemonic::Rts,
    Mnemonic::Sbc,
    Mnemonic::Sec,
    Mnemonic::Sed,
    Mnemonic::Sei,
    Mnemonic::Sta,
    Mnemonic::Stx,
    Mnemonic::Sty,
    Mnemonic::Tax,
    Mnemonic::Tay,
    Mnemonic::Tsx,
    Mnemonic::Txa,
    Mnemonic::Txs,
    Mnemonic::Tya,
];

/// The mnemonic that upper-case letters spell; `None` if they spell none.
pub fn mnemonic(word: &[u8]) -> Option<Mnemonic>
    ensures { result ≡ mnemonic_of word.now }
{
    for mnemonic in MNEMONICS {
        if name(mnemonic).as_slice() == word {
            return Some(mnemonic);
        }
    }
    None
}

/// The name of a mnemonic: three upper-case letters.
pub fn name(mnemonic: Mnemonic) -> [u8; 3]
    ensures { result ≡ name_of mnemonic }
{
    match mnemonic {
        Mnemonic::Adc => *b"ADC",
        Mnemonic::And => *b"AND",
        Mnemonic::Asl => *b"ASL",
        Mnemonic::Bcc => *b"BCC",
        Mnemonic::Bcs => *b"BCS",
        Mnemonic::Beq => *b"BEQ",
        Mnemonic::Bit => *b"BIT",
        Mnemonic::Bmi => *b"BMI",
        Mnemonic::Bne => *b"BNE",
        Mnemonic::Bpl => *b"BPL",
        Mnemonic::Brk => *b"BRK",
        Mnemonic::Bvc => *b"BVC",
        Mnemonic::Bvs => *b"BVS",
        Mnemonic::Clc => *b"CLC",
        Mnemonic::Cld => *b"CLD",
        Mnemonic::Cli => *b"CLI",
        Mnemonic::Clv => *b"CLV",
        Mnemonic::Cmp => *b"CMP",
        Mnemonic::Cpx => *b"CPX",
        Mnemonic::Cpy => *b"CPY",
        Mnemonic::Dec => *b"DEC",
        Mnemonic::Dex => *b"DEX",
        Mnemonic::Dey => *b"DEY",
        Mnemonic::Eor => *b"EOR",
        Mnemonic::Inc => *b"INC",
        Mnemonic::Inx => *b"INX",
        Mnemonic::Iny => *b"INY",
        Mnemonic::Jmp => *b"JMP",
        Mnemonic::Jsr => *b"JSR",
        Mnemonic::Lda => *b"LDA",
        Mnemonic::Ldx => *b"LDX",
        Mnemonic::Ldy => *b"LDY",
        Mnemonic::Lsr => *b"LSR",
        Mnemonic::Nop => *b"NOP",
        Mnemonic::Ora => *b"ORA",
        Mnemonic::Pha => *b"PHA",
        Mnemonic::Php => *b"PHP",
        Mnemonic::Pla => *b"PLA",
        Mnemonic::Plp => *b"PLP",
        Mnemonic::Rol => *b"ROL",
        Mnemonic::Ror => *b"ROR",
        Mnemonic::Rti => *b"RTI",
        Mnemonic::Rts => *b"RTS",
        Mnemonic::Sbc => *b"SBC",
        Mnemonic::Sec => *b"SEC",
        Mnemonic::Sed => *b"SED",
        Mnemonic::Sei => *b"SEI",
        Mnemonic::Sta => *b"STA",
        Mnemonic::Stx => *b"STX",
        Mnemonic::Sty => *b"STY",
        Mnemonic::Tax => *b"TAX",
        Mnemonic::Tay => *b"TAY",
        Mnemonic::Tsx => *b"TSX",
        Mnemonic::Txa => *b"TXA",
        Mnemonic::Txs => *b"TXS",
        Mnemonic::Tya => *b"TYA",
    }
}
