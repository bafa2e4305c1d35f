//! A program in machine code, proved from its start to its return.
ghost use Rattle.tb_machine_reaching.specs.Hello.{Prints, SendsText, hello_text};

/// Machine code for $080D, 48 bytes: it sends HELLO and a return, and goes back to the ROM.
///
/// The routine at $081F sends as many bytes as $C000 says, 0 to 255, from the address in $FB and $FC on.
pub const HELLO: [u8; 48] = [
    0xd8, // 080D CLD
    0xa9, 0x37, // 080E LDA #$37
    0x85, 0xfb, // 0810 STA $FB
    0xa9, 0x08, // 0812 LDA #$08
    0x85, 0xfc, // 0814 STA $FC
    0xa9, 0x06, // 0816 LDA #6
    0x8d, 0x00, 0xc0, // 0818 STA $C000
    0x20, 0x1f, 0x08, // 081B JSR $081F
    0x60, // 081E RTS
    0xad, 0x00, 0xc0, // 081F LDA $C000
    0xf0, 0x12, // 0822 BEQ $0836
    0xa0, 0x00, // 0824 LDY #0
    0xb1, 0xfb, // 0826 LDA ($FB),Y
    0x20, 0xd2, 0xff, // 0828 JSR CHROUT
    0xe6, 0xfb, // 082B INC $FB
    0xd0, 0x02, // 082D BNE $0831
    0xe6, 0xfc, // 082F INC $FC
    0xce, 0x00, 0xc0, // 0831 DEC $C000
    0xd0, 0xee, // 0834 BNE $0824
    0x60, // 0836 RTS
    b'H', b'E', b'L', b'L', b'O', 13, // 0837
];

/// The routine in [`HELLO`] sends the text that it is pointed to, from its entry to its return, whatever the ROM does.
pub fn sends_text()
    ensures { SendsText HELLO }
{}

/// [`HELLO`] sends its line and returns, from every start, whatever the ROM does.
pub fn prints_hello()
    ensures { Prints HELLO hello_text 66 }
{}
