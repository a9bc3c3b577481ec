ghost use Rattle.std.specs.Prelude.{◌≡◌, ◌+◌, ◌*◌, ◌/◌, ◌%◌, ◌≤◌, ◌<◌, ◌^◌, ℕ, [], length, slice_index, IfOk, OnOk, OnErr, IsTrue, Bool};
ghost use Rattle.rv_word.specs.Memory.{placed, zeros};
ghost use Rattle.rv_mem.specs.Pages.{PAGE_COUNT, PAGE_SIZE, AreMade, byte_of, entry, is_made, page_of};

use crate::page::{PAGE_SIZE, Page};
use rv_image::memory_map::DATA_END;
use rv_image::profile::SHADOW_SIZE_OF_HARTS;
use rv_word::NoMemory;
use std::alloc::Global;
use std::marker::Model;

/// How many pages data and the shadow of either version have together.
const PAGE_COUNT: usize = (DATA_END + SHADOW_SIZE_OF_HARTS) as usize / PAGE_SIZE;

/// Bytes in pages, of which those are kept that were made. A place is a byte's number, from 0 on.
#[derive(Drop)]
pub(crate) struct Pages {
    alloc: Global,
    table: Vec<u32>,
    pages: Vec<Page>,
}

impl Model for Pages {
    ghost use Rattle.rv_mem.specs.Pages.{ArePages, Paged};

    ghost Value = { Paged };

    ghost view = { λ p. record { table = p.table.items; pages = p.pages.items } };

    ghost invariant = { λ p. ArePages (record { table = p.table.items; pages = p.pages.items }) };
}

impl Pages {
    /// Pages of which none was made.
    pub(crate) fn new(alloc: Global) -> Result<Pages, NoMemory>
        ensures { IfOk result (λ pages. byte_of pages ≡ zeros) }
    {
        Ok(Pages {
            alloc,
            table: no_entries(alloc, PAGE_COUNT)?,
            pages: Vec::new(alloc),
        })
    }

    /// The bytes of a page: none where it was never made.
    #[tactic(auto, unfolding(crate::specs::Pages::page_of))]
    #[inline(always)]
    pub(crate) fn page(&self, number: usize) -> &[u8]
        requires { number < PAGE_COUNT }
        ensures page { result.now ≡ page_of self.now number }
        ensures len { length result.now ≤ PAGE_SIZE }
    {
        match self.table[number] {
            0 => &[],
            entry => self.pages[entry as usize - 1].as_slice(),
        }
    }

    /// The place among the pages of the page with a number, which is made if it never was.
    #[tactic(auto, unfolding(crate::specs::Pages::is_made))]
    #[inline(always)]
    fn made(&mut self, number: usize) -> Result<usize, NoMemory>
        requires { number < PAGE_COUNT }
        ensures bytes { byte_of self.new ≡ byte_of self.old }
        ensures place { IfOk result (λ place. entry self.new number ≡ place + 1) }
        ensures made { OnOk result (IsTrue (is_made self.new number)) }
        ensures wants { OnErr result (¬ IsTrue (is_made self.old number)) }
        ensures kept { (p : ℕ) → IsTrue (is_made self.old p) → IsTrue (is_made self.new p) }
    {
        let entry = self.entry(number);
        if entry > 0 {
            return Ok(entry - 1);
        }
        self.make(number)
    }

    /// The entry of the page with a number.
    fn entry(&self, number: usize) -> usize
        requires { number < PAGE_COUNT }
        ensures { result ≡ entry self.now number }
    {
        self.table[number] as usize
    }

    /// Makes the page with a number, which never was made, and answers its place among the pages. It is not inlined,
    /// which keeps a store small.
    #[tactic(auto, unfolding(crate::specs::Pages::is_made))]
    #[inline(never)]
    fn make(&mut self, number: usize) -> Result<usize, NoMemory>
        requires number { number < PAGE_COUNT }
        requires never { entry self.old number ≡ 0 }
        ensures bytes { byte_of self.new ≡ byte_of self.old }
        ensures place { IfOk result (λ place. entry self.new number ≡ place + 1) }
        ensures made { OnOk result (IsTrue (is_made self.new number)) }
        ensures kept { (p : ℕ) → IsTrue (is_made self.old p) → IsTrue (is_made self.new p) }
    {
        let place = self.pages.len();
        self.pages.push(Page::new(self.alloc)?)?;
        self.table[number] = (place + 1) as u32;
        Ok(place)
    }

    /// Makes the pages of `n` places, where they were never made.
    pub(crate) fn make_all(&mut self, at: usize, n: usize) -> Result<(), NoMemory>
        requires { at + n ≤ PAGE_COUNT * PAGE_SIZE }
        ensures bytes { byte_of self.new ≡ byte_of self.old }
        ensures made { OnOk result (AreMade self.new at n) }
        ensures wants { OnErr result (¬ AreMade self.old at n) }
        ensures kept { (p : ℕ) → IsTrue (is_made self.old p) → IsTrue (is_made self.new p) }
    {
        if n == 0 {
            return Ok(());
        }
        let last = (at + n - 1) / PAGE_SIZE;
        for number in at / PAGE_SIZE..last + 1 {
            let _place = self.made(number)?;
        }
        Ok(())
    }

    /// Puts bytes into the page at a place among those that were made.
    #[inline(always)]
    fn put_into(&mut self, place: usize, at: usize, bytes: &[u8])
        requires place { entry self.old (at / PAGE_SIZE) ≡ place + 1 }
        requires one { at % PAGE_SIZE + length bytes.now ≤ PAGE_SIZE }
        ensures bytes { byte_of self.new ≡ placed (byte_of self.old) at bytes.now }
        ensures kept { (p : ℕ) → IsTrue (is_made self.old p) → IsTrue (is_made self.new p) }
    {
        self.pages[place].put(at % PAGE_SIZE, bytes);
    }

    /// Puts bytes into one page that was made.
    fn put(&mut self, at: usize, bytes: &[u8])
        requires made { IsTrue (is_made self.old (at / PAGE_SIZE)) }
        requires one { at % PAGE_SIZE + length bytes.now ≤ PAGE_SIZE }
        ensures bytes { byte_of self.new ≡ placed (byte_of self.old) at bytes.now }
        ensures kept { (p : ℕ) → IsTrue (is_made self.old p) → IsTrue (is_made self.new p) }
    {
        let entry = self.table[at / PAGE_SIZE];
        self.put_into(entry as usize - 1, at, bytes);
    }

    /// Writes bytes into one page, which is made if it never was.
    #[inline(always)]
    pub(crate) fn write(&mut self, at: usize, bytes: &[u8]) -> Result<(), NoMemory>
        requires inside { at / PAGE_SIZE < PAGE_COUNT }
        requires one { at % PAGE_SIZE + length bytes.now ≤ PAGE_SIZE }
        ensures written { OnOk result (byte_of self.new ≡ placed (byte_of self.old) at bytes.now) }
        ensures wants { OnErr result (¬ IsTrue (is_made self.old (at / PAGE_SIZE))) }
        ensures refused { OnErr result (byte_of self.new ≡ byte_of self.old) }
        ensures kept { (p : ℕ) → IsTrue (is_made self.old p) → IsTrue (is_made self.new p) }
    {
        let place = self.made(at / PAGE_SIZE)?;
        self.put_into(place, at, bytes);
        Ok(())
    }

    /// Puts bytes into pages that were made, page by page.
    pub(crate) fn put_all(&mut self, at: usize, bytes: &[u8])
        requires made { AreMade self.old at (length bytes.now) }
        requires fits { at + length bytes.now < 2 ^ 64 }
        ensures bytes { byte_of self.new ≡ placed (byte_of self.old) at bytes.now }
        ensures kept { (p : ℕ) → IsTrue (is_made self.old p) → IsTrue (is_made self.new p) }
    {
        let mut done = 0;
        while done < bytes.len() {
            let n = (bytes.len() - done).min(PAGE_SIZE - (at + done) % PAGE_SIZE);
            self.put(at + done, &bytes[done..done + n]);
            done += n;
        }
    }
}

/// A table of `n` pages that were never made.
fn no_entries(alloc: Global, n: usize) -> Result<Vec<u32>, NoMemory>
    ensures len { IfOk result (λ v. length v.items ≡ n) }
    ensures items { IfOk result (λ v. (k : ℕ) → slice_index v.items k ≡ 0) }
{
    let mut entries = Vec::new(alloc);
    entries.resize(n, 0)?;
    Ok(entries)
}
