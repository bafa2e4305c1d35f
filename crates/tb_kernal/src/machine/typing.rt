//! Typing while the machine pauses.
ghost use Rattle.std.specs.Prelude.{◌≡◌, OnOk, OnErr};
ghost use Rattle.tb_kernal.specs.Machine.{state_of};
ghost use Rattle.tb_kernal.specs.Typing.{with_typed, with_more};

use crate::machine::Machine;
use std::alloc::AllocError;

impl Machine {
    /// Puts bytes after the keyboard's text, so that a machine that waits for a key goes on. AllocError
    /// comes only if the allocator refused; then nothing changes.
    #[tactic(auto, using(crate::proofs::Typing::typed_is_more))]
    pub fn type_text(&mut self, bytes: &[u8]) -> Result<(), AllocError>
        ensures typed { OnOk result (self.new ≡ with_typed self.old bytes.now) }
        ensures more { OnOk result (state_of self.new ≡ with_more bytes.now (state_of self.old)) }
        ensures refused { OnErr result (self.new ≡ self.old) }
    {
        self.keyboard.text.extend_from_slice(bytes)
    }
}
