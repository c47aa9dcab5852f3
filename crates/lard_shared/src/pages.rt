//! Where packets lie: pages of one length, which are filled one after the other.

ghost use Rattle.std.specs.Prelude.{◌≡◌, IfOk};

use crate::Shared;
use bytes::BytesMut;
use lard_base::NoMemory;
use std::alloc::Global;

/// How many bytes a page has, unless it holds one run of bytes that is longer.
const PAGE_BYTES: usize = 1 << 20;

/// The rest of the last page. A page stands as long as somebody owns a part of it.
#[derive(Debug, Drop)]
pub struct Pages {
    rest: BytesMut,
}

impl Pages {
    /// No page. It takes no memory yet.
    pub fn new(alloc: Global) -> Pages {
        Pages {
            rest: BytesMut::new(alloc),
        }
    }

    /// Keeps a copy of the slice behind what the last page holds, where it fits there; else it begins a page, of 2^20
    /// bytes or of the slice's length where that is more. `NoMemory` where memory runs out.
    pub fn keep(&mut self, bytes: &[u8]) -> Result<Shared, NoMemory>
        ensures { IfOk result (λ kept. kept ≡ bytes.now) }
    {
        // what was not kept the last time, for want of memory
        self.rest.truncate(0);
        if self.rest.capacity() < bytes.len() {
            let alloc = *self.rest.allocator();
            self.rest = BytesMut::with_capacity(alloc, bytes.len().max(PAGE_BYTES))?;
        }
        self.rest.extend_from_slice(bytes)?;
        let kept = self.rest.freeze_to(bytes.len())?;
        Ok(Shared::from_bytes(kept))
    }
}
