ghost use Rattle.std.specs.Prelude.{◌≡◌, ◌+◌, ◌≤◌, ℕ, IfOk, length, slice_index};
ghost use Rattle.rv_word.specs.Memory.{placed};
ghost use Rattle.rv_mem.specs.Pages.{PAGE_SIZE, bytes_in};

use rv_word::NoMemory;
use std::alloc::Global;
use std::marker::Model;

/// How many bytes a page has.
pub(crate) const PAGE_SIZE: usize = 4096;

/// The bytes of a page.
#[derive(Drop)]
pub(crate) struct Page {
    bytes: Vec<u8>,
}

impl Model for Page {
    ghost use Rattle.std.specs.Prelude.{◌≡◌, ℕ, List, length};
    ghost use Rattle.rv_mem.specs.Pages.{PAGE_SIZE};

    ghost Value = { List ℕ };

    ghost view = { λ p. p.bytes.items };

    ghost invariant = { λ p. length p.bytes.items ≡ PAGE_SIZE };
}

impl Page {
    /// A page of zeros.
    pub(crate) fn new(alloc: Global) -> Result<Page, NoMemory>
        ensures zeros { IfOk result (λ page. (k : ℕ) → slice_index page k ≡ 0) }
        ensures len { IfOk result (λ page. length page ≡ PAGE_SIZE) }
    {
        Ok(Page {
            bytes: zeros(alloc, PAGE_SIZE)?,
        })
    }

    /// Its bytes, lent.
    pub(crate) fn as_slice(&self) -> &[u8]
        ensures { result.now ≡ self.now }
    {
        self.bytes.as_slice()
    }

    /// Puts bytes over those from a place on.
    #[inline(always)]
    pub(crate) fn put(&mut self, at: usize, bytes: &[u8])
        requires { at + length bytes.now ≤ PAGE_SIZE }
        ensures bytes { bytes_in self.new ≡ placed (bytes_in self.old) at bytes.now }
        ensures len { length self.new ≡ PAGE_SIZE }
    {
        self.bytes[at..at + bytes.len()].copy_from_slice(bytes);
    }
}

/// A list of `n` zeros.
fn zeros(alloc: Global, n: usize) -> Result<Vec<u8>, NoMemory>
    ensures len { IfOk result (λ v. length v.items ≡ n) }
    ensures items { IfOk result (λ v. (k : ℕ) → slice_index v.items k ≡ 0) }
{
    let mut items = Vec::new(alloc);
    items.resize(n, 0)?;
    Ok(items)
}
