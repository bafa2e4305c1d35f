//! Texts that both assemblers read: laws, each the contract of a function that does nothing.
ghost use Rattle.tb_assembly_laws.specs.Laws.{ImagesAgree, LinesAgree, LowAddressesAreNumbers, ShortenedAgree};

/// Each line of a text that `tbc asm` reads is one that `tbc assemble` reads.
pub fn lines_agree()
    ensures { LinesAgree }
{}

/// Where `tbc asm` makes an image of a text, `tbc assemble` makes the same one, but for addresses that take one byte.
pub fn images_agree()
    ensures { ImagesAgree }
{}

/// Where addresses take one byte that `tbc asm` lays as two, `tbc assemble` makes the image of the items with one.
pub fn shortened_agree()
    ensures { ShortenedAgree }
{}

/// In an image that begins at `$0100` or above, only a number that is written with four digits and is below 256 may take
/// one byte here and two there.
pub fn low_addresses_are_numbers()
    ensures { LowAddressesAreNumbers }
{}
