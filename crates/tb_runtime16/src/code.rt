//! The block's machine code, the one table of its bytes: a line is an instruction, by its offset from the routine's entry.
//! Each routine is a macro that puts its bytes after those that it is given, and hands them to the next one: so one table
//! makes the block and each routine by itself.
//! Addresses inside the block are those of `targets`, which follow from the routines' lengths.
ghost use Rattle.std.specs.Prelude.{◌≡◌, ◌≤◌, ◌+◌, length};
ghost use Rattle.tb_runtime16.specs.Addresses.{PROLOGUE_AT};
ghost use Rattle.tb_compiled_kept.specs.Addresses.{LINES_AT};
ghost use Rattle.tb_runtime16.specs.Block.{block_bytes};

use crate::addresses::{
    BLOCK_LENGTH, DIVIDE_LENGTH, FAULT_LENGTH, FAULT_LINE_LENGTH, INPUT_LENGTH, MULTIPLY_LENGTH,
    NUMBER_LENGTH, POLL_LENGTH, POP_LENGTH, PROLOGUE_LENGTH, PUSH_LENGTH, RANDOM_LENGTH,
    SEARCH_LENGTH, SEND_LENGTH, TEXT_LENGTH, ZONE_LENGTH,
};
use crate::targets::{
    DECIMAL, FAULT, LINES, NEGATE, NUMBER, OPPOSITE, PLAIN, ROUNDS, SEARCH, SEND, SIZES, STORE,
    UNSIGNED,
};

// The prologue: decimal mode off, $C000 to $C03D cleared, S kept at HOME_S, and on to the first line.
macro_rules! prologue {
    ([$($before:tt)*] $next:ident $($others:ident)*) => {
        $next!([$($before)*
        0xd8, // 0: CLD
        0xa2, 0x3d, // 1: LDX #$3D
        0xa9, 0x00, // 3: LDA #$00
        0x9d, 0x00, 0xc0, // 5 CLEAR: STA VARS,X
        0xca, // 8: DEX
        0x10, 0xfa, // 9: BPL CLEAR
        0xba, // 11: TSX
        0x8e, 0x37, 0xc0, // 12: STX HOME_S
        0x4c, LINES.0, LINES.1, // 15: JMP LINES_AT
        ] $($others)*)
    };
}

// Send: the byte in A goes to CHROUT, and COLUMN is one more, or 0 after a 13.
macro_rules! send {
    ([$($before:tt)*] $next:ident $($others:ident)*) => {
        $next!([$($before)*
        0xc9, 0x0d, // 0 SEND: CMP #$0D
        0xd0, 0x05, // 2: BNE SEND1
        0xa2, 0xff, // 4: LDX #$FF
        0x8e, 0x34, 0xc0, // 6: STX COLUMN
        0xee, 0x34, 0xc0, // 9 SEND1: INC COLUMN
        0x4c, 0xd2, 0xff, // 12: JMP CHROUT
        ] $($others)*)
    };
}

// Divide: the quotient of the signed words at LEFT and RIGHT into LEFT, the remainder's size into RESULT; fault 2 if
// RIGHT is 0.
macro_rules! divide {
    ([$($before:tt)*] $next:ident $($others:ident)*) => {
        $next!([$($before)*
        0x24, 0xfd, // 0 DIVIDE: BIT RIGHT
        0x30, 0x0a, // 2: BMI DIVIDEANY
        0xa5, 0xfc, // 4: LDA LEFT+1
        0xc5, 0xfd, // 6: CMP RIGHT
        0xb0, 0x04, // 8: BCS DIVIDEANY
        0xa6, 0xfe, // 10: LDX RIGHT+1
        0xf0, 0x55, // 12: BEQ BYTEFEW
        0xa5, 0xfd, // 14 DIVIDEANY: LDA RIGHT
        0x05, 0xfe, // 16: ORA RIGHT+1
        0xf0, 0x19, // 18: BEQ DIVIDEZERO
        0xa5, 0xfc, // 20: LDA LEFT+1
        0x45, 0xfe, // 22: EOR RIGHT+1
        0x10, 0x18, // 24: BPL DIVIDESIZES
        0x20, SIZES.0, SIZES.1, // 26: JSR DIVIDESIZES
        0xa2, 0x00, // 29 NEGATELEFT: LDX #$00
        0x38, // 31 NEGATE: SEC
        0xa9, 0x00, // 32: LDA #$00
        0xf5, 0xfb, // 34: SBC LEFT,X
        0x95, 0xfb, // 36: STA LEFT,X
        0xa9, 0x00, // 38: LDA #$00
        0xf5, 0xfc, // 40: SBC LEFT+1,X
        0x95, 0xfc, // 42: STA LEFT+1,X
        0x60, // 44: RTS
        0xa9, 0x02, // 45 DIVIDEZERO: LDA #$02
        0x4c, FAULT.0, FAULT.1, // 47: JMP FAULT
        0xa5, 0xfc, // 50 DIVIDESIZES: LDA LEFT+1
        0x10, 0x03, // 52: BPL DIVIDEBY
        0x20, OPPOSITE.0, OPPOSITE.1, // 54: JSR NEGATELEFT
        0xa5, 0xfe, // 57 DIVIDEBY: LDA RIGHT+1
        0x10, 0x05, // 59: BPL UNSIGNED
        0xa2, 0x02, // 61: LDX #$02
        0x20, NEGATE.0, NEGATE.1, // 63: JSR NEGATE
        0xa2, 0x00, // 66 UNSIGNED: LDX #$00
        0xe4, 0xfe, // 68: CPX RIGHT+1
        0xd0, 0x55, // 70: BNE WIDE
        0xa5, 0xfc, // 72: LDA LEFT+1
        0xc5, 0xfd, // 74: CMP RIGHT
        0xa4, 0xfd, // 76: LDY RIGHT
        0x30, 0x47, // 78: BMI WIDEHALF
        0x90, 0x11, // 80: BCC BYTEFEW
        0xa6, 0xfb, // 82: LDX LEFT
        0x85, 0xfb, // 84: STA LEFT
        0xa9, 0x00, // 86: LDA #$00
        0x20, ROUNDS.0, ROUNDS.1, // 88: JSR ROUNDS
        0xa4, 0xfb, // 91: LDY LEFT
        0x86, 0xfb, // 93: STX LEFT
        0x84, 0xfc, // 95: STY LEFT+1
        0xd0, 0x02, // 97: BNE ROUNDS
        0x86, 0xfc, // 99 BYTEFEW: STX LEFT+1
        0xa0, 0x02, // 101 ROUNDS: LDY #$02
        0x26, 0xfb, // 103 ROUND: ROL LEFT
        0x2a, // 105: ROL A
        0xc5, 0xfd, // 106: CMP RIGHT
        0x90, 0x02, // 108: BCC ROUND2
        0xe5, 0xfd, // 110: SBC RIGHT
        0x26, 0xfb, // 112 ROUND2: ROL LEFT
        0x2a, // 114: ROL A
        0xc5, 0xfd, // 115: CMP RIGHT
        0x90, 0x02, // 117: BCC ROUND3
        0xe5, 0xfd, // 119: SBC RIGHT
        0x26, 0xfb, // 121 ROUND3: ROL LEFT
        0x2a, // 123: ROL A
        0xc5, 0xfd, // 124: CMP RIGHT
        0x90, 0x02, // 126: BCC ROUND4
        0xe5, 0xfd, // 128: SBC RIGHT
        0x26, 0xfb, // 130 ROUND4: ROL LEFT
        0x2a, // 132: ROL A
        0xc5, 0xfd, // 133: CMP RIGHT
        0x90, 0x02, // 135: BCC ROUNDEND
        0xe5, 0xfd, // 137: SBC RIGHT
        0x88, // 139 ROUNDEND: DEY
        0xd0, 0xd9, // 140: BNE ROUND
        0x26, 0xfb, // 142: ROL LEFT
        0x8d, 0x66, 0xc0, // 144: STA RESULT
        0x8c, 0x67, 0xc0, // 147: STY RESULT+1
        0x60, // 150: RTS
        0x90, 0x04, // 151 WIDEHALF: BCC WIDE
        0xe5, 0xfd, // 153: SBC RIGHT
        0x85, 0xfc, // 155: STA LEFT+1
        0x8a, // 157 WIDE: TXA
        0xa2, 0x08, // 158: LDX #$08
        0x26, 0xfb, // 160 WIDENEXT: ROL LEFT
        0x26, 0xfc, // 162: ROL LEFT+1
        0x2a, // 164: ROL A
        0xc5, 0xfe, // 165: CMP RIGHT+1
        0x90, 0x12, // 167: BCC WIDELESS
        0xd0, 0x06, // 169: BNE WIDEMORE
        0xa4, 0xfc, // 171: LDY LEFT+1
        0xc4, 0xfd, // 173: CPY RIGHT
        0x90, 0x0a, // 175: BCC WIDELESS
        0xa8, // 177 WIDEMORE: TAY
        0xa5, 0xfc, // 178: LDA LEFT+1
        0xe5, 0xfd, // 180: SBC RIGHT
        0x85, 0xfc, // 182: STA LEFT+1
        0x98, // 184: TYA
        0xe5, 0xfe, // 185: SBC RIGHT+1
        0xca, // 187 WIDELESS: DEX
        0xd0, 0xe2, // 188: BNE WIDENEXT
        0x26, 0xfb, // 190: ROL LEFT
        0x8d, 0x67, 0xc0, // 192: STA RESULT+1
        0xa5, 0xfc, // 195: LDA LEFT+1
        0x8d, 0x66, 0xc0, // 197: STA RESULT
        0x8a, // 200: TXA
        0x2a, // 201: ROL A
        0x85, 0xfc, // 202: STA LEFT+1
        0x60, // 204: RTS
        ] $($others)*)
    };
}

// Random: stores the next RND state, 25,173 times the last one and 13,849, and gives it modulo RIGHT in RESULT; fault 3
// if RIGHT is below 1. Four turns of 4 times the word and the state, from 98 times the state's low byte.
macro_rules! random {
    ([$($before:tt)*] $next:ident $($others:ident)*) => {
        $next!([$($before)*
        0xa5, 0xfe, // 0 RANDOM: LDA RIGHT+1
        0x30, 0x04, // 2: BMI RANDOMBAD
        0x05, 0xfd, // 4: ORA RIGHT
        0xd0, 0x05, // 6: BNE RANDOMGO
        0xa9, 0x03, // 8 RANDOMBAD: LDA #$03
        0x4c, FAULT.0, FAULT.1, // 10: JMP FAULT
        0xad, 0x36, 0xc0, // 13 RANDOMGO: LDA SEEDED
        0xd0, 0x0a, // 16: BNE RANDOMSTORED
        0xa5, 0xfc, // 18: LDA LEFT+1
        0x8d, 0x39, 0xc0, // 20: STA SEED+1
        0xa5, 0xfb, // 23: LDA LEFT
        0x8d, 0x38, 0xc0, // 25: STA SEED
        0xad, 0x38, 0xc0, // 28 RANDOMSTORED: LDA SEED
        0x85, 0xfb, // 31: STA LEFT
        0xa2, 0x04, // 33: LDX #$04
        0x0a, // 35: ASL A
        0x18, // 36: CLC
        0x65, 0xfb, // 37: ADC LEFT
        0x0a, // 39: ASL A
        0x0a, // 40: ASL A
        0x0a, // 41: ASL A
        0x0a, // 42: ASL A
        0x18, // 43: CLC
        0x65, 0xfb, // 44: ADC LEFT
        0x0a, // 46: ASL A
        0x0a, // 47 RANDOMTURN: ASL A
        0x26, 0xfc, // 48: ROL LEFT+1
        0x0a, // 50: ASL A
        0x26, 0xfc, // 51: ROL LEFT+1
        0x18, // 53: CLC
        0x65, 0xfb, // 54: ADC LEFT
        0xa8, // 56: TAY
        0xa5, 0xfc, // 57: LDA LEFT+1
        0x6d, 0x39, 0xc0, // 59: ADC SEED+1
        0x85, 0xfc, // 62: STA LEFT+1
        0x98, // 64: TYA
        0xca, // 65: DEX
        0xd0, 0xeb, // 66: BNE RANDOMTURN
        0xe8, // 68: INX
        0x8e, 0x36, 0xc0, // 69: STX SEEDED
        0x18, // 72: CLC
        0x69, 0x19, // 73: ADC #$19
        0x8d, 0x38, 0xc0, // 75: STA SEED
        0x85, 0xfb, // 78: STA LEFT
        0xa5, 0xfc, // 80: LDA LEFT+1
        0x69, 0x36, // 82: ADC #$36
        0x8d, 0x39, 0xc0, // 84: STA SEED+1
        0x85, 0xfc, // 87: STA LEFT+1
        0x4c, UNSIGNED.0, UNSIGNED.1, // 89: JMP UNSIGNED
        ] $($others)*)
    };
}

// Multiply: LEFT times RIGHT, modulo 65,536, into RESULT, with the sum so far in A and Y.
macro_rules! multiply {
    ([$($before:tt)*] $next:ident $($others:ident)*) => {
        $next!([$($before)*
        0xa9, 0x00, // 0 MULTIPLY: LDA #$00
        0xa8, // 2: TAY
        0x46, 0xfe, // 3 MULTIPLY1: LSR RIGHT+1
        0x66, 0xfd, // 5: ROR RIGHT
        0x90, 0x09, // 7: BCC MULTIPLY2
        0x18, // 9: CLC
        0x65, 0xfb, // 10: ADC LEFT
        0xaa, // 12: TAX
        0x98, // 13: TYA
        0x65, 0xfc, // 14: ADC LEFT+1
        0xa8, // 16: TAY
        0x8a, // 17: TXA
        0x06, 0xfb, // 18 MULTIPLY2: ASL LEFT
        0x26, 0xfc, // 20: ROL LEFT+1
        0xa6, 0xfd, // 22: LDX RIGHT
        0xd0, 0xe9, // 24: BNE MULTIPLY1
        0xa6, 0xfe, // 26: LDX RIGHT+1
        0xd0, 0xe5, // 28: BNE MULTIPLY1
        0x8d, 0x66, 0xc0, // 30: STA RESULT
        0x8c, 0x67, 0xc0, // 33: STY RESULT+1
        0x60, // 36: RTS
        ] $($others)*)
    };
}

// Number: sends the signed word at LEFT in decimal. A word of 768 or more is divided by 100, and its quotient sent before
// its rest.
macro_rules! number {
    ([$($before:tt)*] $next:ident $($others:ident)*) => {
        $next!([$($before)*
        0xa5, 0xfc, // 0 NUMBER: LDA LEFT+1
        0x10, 0x08, // 2: BPL NUMBERPLAIN
        0xa9, 0x2d, // 4: LDA #$2D
        0x20, PLAIN.0, PLAIN.1, // 6: JSR SEND1
        0x20, OPPOSITE.0, OPPOSITE.1, // 9: JSR NEGATELEFT
        0xa5, 0xfb, // 12 NUMBERPLAIN: LDA LEFT
        0xa4, 0xfc, // 14: LDY LEFT+1
        0xf0, 0x17, // 16: BEQ NUMBERBYTE
        0xc0, 0x03, // 18: CPY #$03
        0x90, 0x1b, // 20: BCC HUNDREDS
        0xa2, 0x64, // 22: LDX #$64
        0x86, 0xfd, // 24: STX RIGHT
        0xa2, 0x00, // 26: LDX #$00
        0x86, 0xfe, // 28: STX RIGHT+1
        0x20, UNSIGNED.0, UNSIGNED.1, // 30: JSR UNSIGNED
        0x20, DECIMAL.0, DECIMAL.1, // 33: JSR NUMBERPLAIN
        0xad, 0x66, 0xc0, // 36: LDA RESULT
        0x10, 0x1d, // 39: BPL TENS
        0xc9, 0x0a, // 41 NUMBERBYTE: CMP #$0A
        0x90, 0x2b, // 43: BCC LASTDIGIT
        0xc9, 0x64, // 45: CMP #$64
        0x90, 0x15, // 47: BCC TENS
        0xa2, 0x2f, // 49 HUNDREDS: LDX #$2F
        0x38, // 51 HUNDREDSAGAIN: SEC
        0xe8, // 52 HUNDREDSTAKE: INX
        0xe9, 0x64, // 53: SBC #$64
        0xb0, 0xfb, // 55: BCS HUNDREDSTAKE
        0x88, // 57: DEY
        0x10, 0xf7, // 58: BPL HUNDREDSAGAIN
        0x69, 0x64, // 60: ADC #$64
        0x85, 0xfb, // 62: STA LEFT
        0x8a, // 64: TXA
        0x20, PLAIN.0, PLAIN.1, // 65: JSR SEND1
        0xa5, 0xfb, // 68: LDA LEFT
        0xa2, 0x2f, // 70 TENS: LDX #$2F
        0x38, // 72: SEC
        0xe8, // 73 TENSTAKE: INX
        0xe9, 0x0a, // 74: SBC #$0A
        0xb0, 0xfb, // 76: BCS TENSTAKE
        0x69, 0x0a, // 78: ADC #$0A
        0x85, 0xfb, // 80: STA LEFT
        0x8a, // 82: TXA
        0x20, PLAIN.0, PLAIN.1, // 83: JSR SEND1
        0xa5, 0xfb, // 86: LDA LEFT
        0x09, 0x30, // 88 LASTDIGIT: ORA #$30
        0x4c, PLAIN.0, PLAIN.1, // 90: JMP SEND1
        ] $($others)*)
    };
}

// Text: sends the LENGTH bytes from the address in POINTER on.
macro_rules! text {
    ([$($before:tt)*] $next:ident $($others:ident)*) => {
        $next!([$($before)*
        0xad, 0x6c, 0xc0, // 0 TEXT: LDA LENGTH
        0xf0, 0x12, // 3: BEQ TEXT3
        0xa0, 0x00, // 5 TEXT1: LDY #$00
        0xb1, 0xfb, // 7: LDA (POINTER),Y
        0x20, SEND.0, SEND.1, // 9: JSR SEND
        0xe6, 0xfb, // 12: INC POINTER
        0xd0, 0x02, // 14: BNE TEXT2
        0xe6, 0xfc, // 16: INC POINTER+1
        0xce, 0x6c, 0xc0, // 18 TEXT2: DEC LENGTH
        0xd0, 0xee, // 21: BNE TEXT1
        0x60, // 23 TEXT3: RTS
        ] $($others)*)
    };
}

// Zone: sends spaces, at least one, up to the next column that 8 divides.
macro_rules! zone {
    ([$($before:tt)*] $next:ident $($others:ident)*) => {
        $next!([$($before)*
        0xa9, 0x20, // 0 ZONE: LDA #$20
        0x20, PLAIN.0, PLAIN.1, // 2: JSR SEND1
        0xad, 0x34, 0xc0, // 5: LDA COLUMN
        0x29, 0x07, // 8: AND #$07
        0xd0, 0xf4, // 10: BNE ZONE
        0x60, // 12: RTS
        ] $($others)*)
    };
}

// Input: one variable's turn of INPUT, its value into RESULT; fault 6 if no number can be read.
macro_rules! input {
    ([$($before:tt)*] $next:ident $($others:ident)*) => {
        $next!([$($before)*
        0xad, 0x35, 0xc0, // 0 INPUT: LDA OPEN
        0xd0, 0x0d, // 3: BNE INPUT1
        0xa9, 0x3f, // 5: LDA #$3F
        0x20, SEND.0, SEND.1, // 7: JSR SEND
        0xa9, 0x20, // 10: LDA #$20
        0x20, SEND.0, SEND.1, // 12: JSR SEND
        0xee, 0x35, 0xc0, // 15: INC OPEN
        0xa9, 0x00, // 18 INPUT1: LDA #$00
        0x85, 0xfb, // 20: STA LEFT
        0x85, 0xfc, // 22: STA LEFT+1
        0x85, 0xfd, // 24: STA RIGHT
        0x85, 0xfe, // 26: STA RIGHT+1
        0x20, 0xcf, 0xff, // 28 READ: JSR CHRIN
        0xc9, 0x20, // 31: CMP #$20
        0xf0, 0xf9, // 33: BEQ READ
        0xc9, 0x2b, // 35: CMP #$2B
        0xf0, 0x3a, // 37: BEQ SIGN
        0xc9, 0x2d, // 39: CMP #$2D
        0xf0, 0x36, // 41: BEQ SIGN
        0xc9, 0x2c, // 43: CMP #$2C
        0xf0, 0x41, // 45: BEQ DONE
        0xc9, 0x0d, // 47: CMP #$0D
        0xf0, 0x3d, // 49: BEQ DONE
        0xe9, 0x30, // 51: SBC #$30
        0xc9, 0x0a, // 53: CMP #$0A
        0xb0, 0x32, // 55: BCS BAD
        0xa8, // 57: TAY
        0xa6, 0xfc, // 58: LDX LEFT+1
        0xa5, 0xfb, // 60: LDA LEFT
        0x0a, // 62: ASL A
        0x26, 0xfc, // 63: ROL LEFT+1
        0x0a, // 65: ASL A
        0x26, 0xfc, // 66: ROL LEFT+1
        0x18, // 68: CLC
        0x65, 0xfb, // 69: ADC LEFT
        0x85, 0xfb, // 71: STA LEFT
        0x8a, // 73: TXA
        0x65, 0xfc, // 74: ADC LEFT+1
        0x06, 0xfb, // 76: ASL LEFT
        0x2a, // 78: ROL A
        0x85, 0xfc, // 79: STA LEFT+1
        0x98, // 81: TYA
        0x18, // 82: CLC
        0x65, 0xfb, // 83: ADC LEFT
        0x85, 0xfb, // 85: STA LEFT
        0x90, 0x02, // 87: BCC DIGIT
        0xe6, 0xfc, // 89: INC LEFT+1
        0xa9, 0x02, // 91 DIGIT: LDA #$02
        0x85, 0xfd, // 93: STA RIGHT
        0xd0, 0xbb, // 95: BNE READ
        0xa4, 0xfd, // 97 SIGN: LDY RIGHT
        0xd0, 0x06, // 99: BNE BAD
        0x85, 0xfe, // 101: STA RIGHT+1
        0xe6, 0xfd, // 103: INC RIGHT
        0xd0, 0xb1, // 105: BNE READ
        0xa9, 0x06, // 107 BAD: LDA #$06
        0x4c, FAULT.0, FAULT.1, // 109: JMP FAULT
        0xa8, // 112 DONE: TAY
        0x46, 0xfd, // 113: LSR RIGHT
        0xf0, 0xf6, // 115: BEQ BAD
        0xa5, 0xfe, // 117: LDA RIGHT+1
        0xc9, 0x2d, // 119: CMP #$2D
        0xd0, 0x03, // 121: BNE DONE1
        0x20, OPPOSITE.0, OPPOSITE.1, // 123: JSR NEGATELEFT
        0xa5, 0xfb, // 126 DONE1: LDA LEFT
        0x8d, 0x66, 0xc0, // 128: STA RESULT
        0xa5, 0xfc, // 131: LDA LEFT+1
        0x8d, 0x67, 0xc0, // 133: STA RESULT+1
        0xc0, 0x0d, // 136: CPY #$0D
        0xd0, 0x07, // 138: BNE DONE2
        0xce, 0x35, 0xc0, // 140: DEC OPEN
        0x98, // 143: TYA
        0x4c, SEND.0, SEND.1, // 144: JMP SEND
        0x60, // 147 DONE2: RTS
        ] $($others)*)
    };
}

// Search: the address of the line whose number is at WANTED, by TABLE and COUNT, into RESULT; fault 1 if there is none.
macro_rules! search {
    ([$($before:tt)*] $next:ident $($others:ident)*) => {
        $next!([$($before)*
        0xad, 0x6b, 0xc0, // 0 SEARCH: LDA COUNT+1
        0xd0, 0x07, // 3: BNE SEARCH_WIDE
        0xad, 0x6a, 0xc0, // 5: LDA COUNT
        0xc9, 0x40, // 8: CMP #$40
        0x90, 0x5b, // 10: BCC SEARCH_SHORT
        0xad, 0x6b, 0xc0, // 12 SEARCH_WIDE: LDA COUNT+1
        0x4a, // 15: LSR A
        0x8d, 0x6f, 0xc0, // 16: STA SCRATCH+1
        0x85, 0xfc, // 19: STA POINTER+1
        0xad, 0x6a, 0xc0, // 21: LDA COUNT
        0x6a, // 24: ROR A
        0x8d, 0x6e, 0xc0, // 25: STA SCRATCH
        0x0a, // 28: ASL A
        0x26, 0xfc, // 29: ROL POINTER+1
        0x0a, // 31: ASL A
        0x26, 0xfc, // 32: ROL POINTER+1
        0x18, // 34: CLC
        0x65, 0xfd, // 35: ADC TABLE
        0x85, 0xfb, // 37: STA POINTER
        0xa5, 0xfc, // 39: LDA POINTER+1
        0x65, 0xfe, // 41: ADC TABLE+1
        0x85, 0xfc, // 43: STA POINTER+1
        0xa0, 0x00, // 45: LDY #$00
        0xad, 0x68, 0xc0, // 47: LDA WANTED
        0xd1, 0xfb, // 50: CMP (POINTER),Y
        0xc8, // 52: INY
        0xad, 0x69, 0xc0, // 53: LDA WANTED+1
        0xf1, 0xfb, // 56: SBC (POINTER),Y
        0x90, 0x1c, // 58: BCC SEARCH_LOWER
        0xa5, 0xfb, // 60: LDA POINTER
        0x85, 0xfd, // 62: STA TABLE
        0xa5, 0xfc, // 64: LDA POINTER+1
        0x85, 0xfe, // 66: STA TABLE+1
        0xad, 0x6a, 0xc0, // 68: LDA COUNT
        0xed, 0x6e, 0xc0, // 71: SBC SCRATCH
        0x8d, 0x6a, 0xc0, // 74: STA COUNT
        0xad, 0x6b, 0xc0, // 77: LDA COUNT+1
        0xed, 0x6f, 0xc0, // 80: SBC SCRATCH+1
        0x8d, 0x6b, 0xc0, // 83: STA COUNT+1
        0xb0, 0xa8, // 86: BCS SEARCH
        0xad, 0x6e, 0xc0, // 88 SEARCH_LOWER: LDA SCRATCH
        0x8d, 0x6a, 0xc0, // 91: STA COUNT
        0xad, 0x6f, 0xc0, // 94: LDA SCRATCH+1
        0x8d, 0x6b, 0xc0, // 97: STA COUNT+1
        0x4c, SEARCH.0, SEARCH.1, // 100: JMP SEARCH
        0xa0, 0x00, // 103 SEARCH_SHORT: LDY #$00
        0x84, 0xfb, // 105: STY POINTER
        0x4a, // 107 SEARCH_HALVE: LSR A
        0xf0, 0x29, // 108: BEQ SEARCH_LAST
        0xaa, // 110: TAX
        0x0a, // 111: ASL A
        0x0a, // 112: ASL A
        0x18, // 113: CLC
        0x65, 0xfb, // 114: ADC POINTER
        0xa8, // 116: TAY
        0xad, 0x68, 0xc0, // 117: LDA WANTED
        0xd1, 0xfd, // 120: CMP (TABLE),Y
        0xc8, // 122: INY
        0xad, 0x69, 0xc0, // 123: LDA WANTED+1
        0xf1, 0xfd, // 126: SBC (TABLE),Y
        0x90, 0x0f, // 128: BCC SEARCH_FRONT
        0x88, // 130: DEY
        0x84, 0xfb, // 131: STY POINTER
        0x86, 0xfc, // 133: STX POINTER+1
        0xad, 0x6a, 0xc0, // 135: LDA COUNT
        0xe5, 0xfc, // 138: SBC POINTER+1
        0x8d, 0x6a, 0xc0, // 140: STA COUNT
        0xb0, 0xda, // 143: BCS SEARCH_HALVE
        0x8e, 0x6a, 0xc0, // 145 SEARCH_FRONT: STX COUNT
        0x8a, // 148: TXA
        0xd0, 0xd4, // 149: BNE SEARCH_HALVE
        0xa4, 0xfb, // 151 SEARCH_LAST: LDY POINTER
        0xb1, 0xfd, // 153: LDA (TABLE),Y
        0xcd, 0x68, 0xc0, // 155: CMP WANTED
        0xd0, 0x15, // 158: BNE SEARCH_NONE
        0xc8, // 160: INY
        0xb1, 0xfd, // 161: LDA (TABLE),Y
        0xcd, 0x69, 0xc0, // 163: CMP WANTED+1
        0xd0, 0x0d, // 166: BNE SEARCH_NONE
        0xc8, // 168: INY
        0xb1, 0xfd, // 169: LDA (TABLE),Y
        0x8d, 0x66, 0xc0, // 171: STA RESULT
        0xc8, // 174: INY
        0xb1, 0xfd, // 175: LDA (TABLE),Y
        0x8d, 0x67, 0xc0, // 177: STA RESULT+1
        0x60, // 180: RTS
        0xa9, 0x01, // 181 SEARCH_NONE: LDA #$01
        0x4c, FAULT.0, FAULT.1, // 183: JMP FAULT
        ] $($others)*)
    };
}

// Push: the word at LEFT onto the return list; fault 4 if that is full.
macro_rules! push {
    ([$($before:tt)*] $next:ident $($others:ident)*) => {
        $next!([$($before)*
        0xae, 0x3c, 0xc0, // 0 PUSH: LDX NOTES
        0xad, 0x3d, 0xc0, // 3: LDA NOTES+1
        0xd0, 0x13, // 6: BNE PUSH_FAR
        0xa5, 0xfb, // 8: LDA LEFT
        0x9d, 0x00, 0xc1, // 10: STA RETURN_LOW,X
        0xa5, 0xfc, // 13: LDA LEFT+1
        0x9d, 0x00, 0xc3, // 15: STA RETURN_HIGH,X
        0xee, 0x3c, 0xc0, // 18 PUSH_COUNT: INC NOTES
        0xd0, 0x03, // 21: BNE PUSH_END
        0xee, 0x3d, 0xc0, // 23: INC NOTES+1
        0x60, // 26 PUSH_END: RTS
        0xe0, 0xf4, // 27 PUSH_FAR: CPX #$F4
        0xb0, 0x0c, // 29: BCS PUSH_FULL
        0xa5, 0xfb, // 31: LDA LEFT
        0x9d, 0x00, 0xc2, // 33: STA RETURN_LOW+256,X
        0xa5, 0xfc, // 36: LDA LEFT+1
        0x9d, 0x00, 0xc4, // 38: STA RETURN_HIGH+256,X
        0x90, 0xe7, // 41: BCC PUSH_COUNT
        0xa9, 0x04, // 43 PUSH_FULL: LDA #$04
        0x4c, FAULT.0, FAULT.1, // 45: JMP FAULT
        ] $($others)*)
    };
}

// Pop: the newest return off the return list into RESULT; fault 5 if there is none.
macro_rules! pop {
    ([$($before:tt)*] $next:ident $($others:ident)*) => {
        $next!([$($before)*
        0xae, 0x3c, 0xc0, // 0 POP: LDX NOTES
        0xd0, 0x08, // 3: BNE POP_LOW
        0xad, 0x3d, 0xc0, // 5: LDA NOTES+1
        0xf0, 0x22, // 8: BEQ POP_NONE
        0xce, 0x3d, 0xc0, // 10: DEC NOTES+1
        0xca, // 13 POP_LOW: DEX
        0x8e, 0x3c, 0xc0, // 14: STX NOTES
        0xad, 0x3d, 0xc0, // 17: LDA NOTES+1
        0xd0, 0x0d, // 20: BNE POP_FAR
        0xbc, 0x00, 0xc3, // 22: LDY RETURN_HIGH,X
        0xbd, 0x00, 0xc1, // 25: LDA RETURN_LOW,X
        0x8d, 0x66, 0xc0, // 28 POP_STORE: STA RESULT
        0x8c, 0x67, 0xc0, // 31: STY RESULT+1
        0x60, // 34: RTS
        0xbc, 0x00, 0xc4, // 35 POP_FAR: LDY RETURN_HIGH+256,X
        0xbd, 0x00, 0xc2, // 38: LDA RETURN_LOW+256,X
        0x4c, STORE.0, STORE.1, // 41: JMP POP_STORE
        0xa9, 0x05, // 44 POP_NONE: LDA #$05
        0x4c, FAULT.0, FAULT.1, // 46: JMP FAULT
        ] $($others)*)
    };
}

// The entry of Fault that takes the line's number in X and Y, and goes on into Fault.
macro_rules! fault_line {
    ([$($before:tt)*] $next:ident $($others:ident)*) => {
        $next!([$($before)*
        0x8e, 0x3a, 0xc0, // 0 FAULTLINE: STX LINE
        0x8c, 0x3b, 0xc0, // 3: STY LINE+1
        ] $($others)*)
    };
}

// Fault: from any depth, sends the text of the fault whose number is in A, at the line in LINE, and ends the program.
macro_rules! fault {
    ([$($before:tt)*] $next:ident $($others:ident)*) => {
        $next!([$($before)*
        0x18, // 0 FAULT: CLC
        0x69, 0x30, // 1: ADC #$30
        0x8d, 0x6d, 0xc0, // 3: STA BYTE
        0xae, 0x37, 0xc0, // 6: LDX HOME_S
        0x9a, // 9: TXS
        0xa9, 0x0d, // 10: LDA #$0D
        0x20, SEND.0, SEND.1, // 12: JSR SEND
        0xa9, 0x21, // 15: LDA #$21
        0x20, SEND.0, SEND.1, // 17: JSR SEND
        0xad, 0x6d, 0xc0, // 20: LDA BYTE
        0x20, SEND.0, SEND.1, // 23: JSR SEND
        0xa9, 0x20, // 26: LDA #$20
        0x20, SEND.0, SEND.1, // 28: JSR SEND
        0xa9, 0x41, // 31: LDA #$41
        0x20, SEND.0, SEND.1, // 33: JSR SEND
        0xa9, 0x54, // 36: LDA #$54
        0x20, SEND.0, SEND.1, // 38: JSR SEND
        0xa9, 0x20, // 41: LDA #$20
        0x20, SEND.0, SEND.1, // 43: JSR SEND
        0xad, 0x3a, 0xc0, // 46: LDA LINE
        0x85, 0xfb, // 49: STA LEFT
        0xad, 0x3b, 0xc0, // 51: LDA LINE+1
        0x85, 0xfc, // 54: STA LEFT+1
        0x20, NUMBER.0, NUMBER.1, // 56: JSR NUMBER
        0xa9, 0x0d, // 59: LDA #$0D
        0x4c, SEND.0, SEND.1, // 61: JMP SEND
        ] $($others)*)
    };
}

// Poll: asks GETIN once; fault 0 if it gives 3, the STOP key.
macro_rules! poll {
    ([$($before:tt)*] $next:ident $($others:ident)*) => {
        $next!([$($before)*
        0x20, 0xe4, 0xff, // 0 POLL: JSR GETIN
        0xc9, 0x03, // 3: CMP #$03
        0xf0, 0x01, // 5: BEQ POLL1
        0x60, // 7: RTS
        0xa9, 0x00, // 8 POLL1: LDA #$00
        0x4c, FAULT.0, FAULT.1, // 10: JMP FAULT
        ] $($others)*)
    };
}

// The bytes that were put together, as an array.
macro_rules! array {
    ([$($bytes:tt)*]) => {
        [$($bytes)*]
    };
}

// The block: its routines one after another.
static BLOCK: [u8; BLOCK_LENGTH] = prologue!(
    [] send divide random multiply number text zone input search push pop fault_line fault poll array
);

// Each routine by itself.
pub const PROLOGUE_BYTES: [u8; PROLOGUE_LENGTH] = prologue!([] array);

pub const SEND_BYTES: [u8; SEND_LENGTH] = send!([] array);

pub const DIVIDE_BYTES: [u8; DIVIDE_LENGTH] = divide!([] array);

pub const RANDOM_BYTES: [u8; RANDOM_LENGTH] = random!([] array);

pub const MULTIPLY_BYTES: [u8; MULTIPLY_LENGTH] = multiply!([] array);

pub const NUMBER_BYTES: [u8; NUMBER_LENGTH] = number!([] array);

pub const TEXT_BYTES: [u8; TEXT_LENGTH] = text!([] array);

pub const ZONE_BYTES: [u8; ZONE_LENGTH] = zone!([] array);

pub const INPUT_BYTES: [u8; INPUT_LENGTH] = input!([] array);

pub const SEARCH_BYTES: [u8; SEARCH_LENGTH] = search!([] array);

pub const PUSH_BYTES: [u8; PUSH_LENGTH] = push!([] array);

pub const POP_BYTES: [u8; POP_LENGTH] = pop!([] array);

pub const FAULT_LINE_BYTES: [u8; FAULT_LINE_LENGTH] = fault_line!([] array);

pub const FAULT_BYTES: [u8; FAULT_LENGTH] = fault!([] array);

pub const POLL_BYTES: [u8; POLL_LENGTH] = poll!([] array);

/// The routines that every program has: the bytes from `$080D` on, which begin with the prologue's CLD and end before `$0C00`.
/// They are the same for every program.
pub fn block() -> &'static [u8]
    ensures bytes { result.now ≡ block_bytes }
    ensures fits { PROLOGUE_AT + length result.now ≤ LINES_AT }
{
    &BLOCK
}
