//! A memory with the same bytes.
ghost use Rattle.std.specs.Prelude.{◌≡◌, IfOk};

use crate::memory::Memory;
use std::alloc::{AllocError, Global};

impl Memory {
    /// A new memory with the same bytes. Fails with AllocError only if the allocator refuses.
    pub fn copied(&self, alloc: Global) -> Result<Memory, AllocError>
        ensures { IfOk result (λ m. m ≡ self.now) }
    {
        let bytes = Vec::from_slice(alloc, self.bytes.as_slice())?;
        Ok(Memory { bytes })
    }
}
