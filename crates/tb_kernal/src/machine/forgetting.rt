//! Room that is made of what was sent long ago.
ghost use Rattle.std.specs.Prelude.{◌≡◌, ◌+◌, length};
ghost use Rattle.tb_kernal.specs.Sending.{last_of};

use crate::machine::Machine;

impl Machine {
    /// Forgets what was sent but for the last bytes, at most `most` of them. There is room for as many bytes more.
    pub fn forget_sent(&mut self, most: usize)
        ensures rest { self.new ≡ record self.old { sent = last_of most self.old.sent; room = self.new.room } }
        ensures room { self.new.room + length self.new.sent ≡ self.old.room + length self.old.sent }
    {
        let gone = self.sent.len().saturating_sub(most);
        self.sent.as_mut_slice().copy_within(gone.., 0);
        self.sent.truncate(self.sent.len() - gone);
        self.room += gone;
    }
}
