// Pages of an image.
ghost use Rattle.std.specs.Prelude.{◌≡◌, ◌<◌, ◌*◌, IfOk, length, slice_set};
ghost use Rattle.dsr_overlay.specs.Overlays.{page_of};

use dsr_ir::NoMemory;
use std::alloc::Global;
use std::marker::Model;

/// How many bytes a page has. The last one of an image may have fewer.
pub const PAGE: usize = 4096;

/// The bytes of a page.
pub fn page_in(bytes: &[u8], number: usize) -> &[u8]
    requires { 4096 * number < length bytes.now }
    ensures { result.now ≡ page_of 4096 bytes.now number }
{
    let start = PAGE * number;
    let end = start + PAGE.min(bytes.len() - start);
    &bytes[start..end]
}

/// A page that is owned.
#[derive(Drop)]
pub struct Page {
    bytes: Vec<u8>,
}

impl Model for Page {
    ghost use Rattle.std.specs.Prelude.{ℕ, List};

    ghost Value = { List ℕ };

    ghost view = { λ p. p.bytes.items };
}

impl Page {
    /// A copy of these bytes.
    pub fn copy(alloc: Global, bytes: &[u8]) -> Result<Page, NoMemory>
        ensures { IfOk result (λ page. page ≡ bytes.now) }
    {
        Ok(Page {
            bytes: Vec::from_slice(alloc, bytes)?,
        })
    }

    pub fn bytes(&self) -> &[u8]
        ensures { result.now ≡ self.now }
    {
        &self.bytes
    }

    pub fn set(&mut self, at: usize, byte: u8)
        requires { at < length self.old }
        ensures { self.new ≡ slice_set self.old at byte }
    {
        self.bytes[at] = byte;
    }
}
