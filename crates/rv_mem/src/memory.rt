ghost use Rattle.std.specs.Prelude.{◌≡◌, ℕ, ◌+◌, ◌%◌, ◌≤◌, ◌<◌, ◌^◌, ◌↔◌, nat_le, IfOk, OnOk, OnErr, IsErr, IsErrAnd, IsErrOf, IsTrue, true, false, length, Result, slice_index};
ghost use Rattle.rv_image.specs.MemoryMap.{can_load, can_store, profile_of, DATA_START, DATA_END, CODE_START, CODE_SIZE};
ghost use Rattle.rv_word.specs.End.{IsFault};
ghost use Rattle.rv_word.specs.Memory.{placed, read, write, zeros};
ghost use Rattle.rv_image.specs.Image.{loaded};
ghost use Rattle.rv_image.specs.declared.version.ImageVersion.TheVariants.{OneHart};
ghost use Rattle.rv_mem.specs.Access.{IsAccessSize};
ghost use Rattle.rv_mem.specs.Cells.{memory_of, has_room, HasRoom, with_byte, AreBytes, place_of};
ghost use Rattle.rv_mem.specs.Pages.{PAGE_SIZE};

use crate::access::{is_loadable, is_paged, is_storable, is_within};
use crate::change::Change;
use crate::fault::{LoadFault, StoreFault};
use crate::little_endian::{double_word_at, half_word_at, rest, word_at};
use crate::page::PAGE_SIZE;
use crate::pages::Pages;
use rv_image::memory_map::{CODE_SIZE, CODE_START, DATA_END, DATA_START, SHADOW_START};
use rv_image::{Image, ImageVersion};
use rv_word::{End, NoMemory};
use std::alloc::Global;
use std::marker::Model;

/// The memory of the machine of an image's version, by which the shadow is larger or smaller. Code is
/// kept as the bytes that an image has, data and shadow in pages, each made at the first write to it.
#[derive(Drop)]
pub struct Memory {
    version: ImageVersion,
    code: Vec<u8>,
    pages: Pages,
}

impl Model for Memory {
    ghost use Rattle.rv_mem.specs.Cells.{Cells, IsWhole};

    ghost Value = { Cells };

    ghost view = { λ m. record { version = m.version; code = m.code.items; pages = m.pages } };

    ghost invariant = { λ m. IsWhole (record { version = m.version; code = m.code.items; pages = m.pages }) };
}

impl Memory {
    /// Memory of zeros, for images of version 1.
    pub fn new(alloc: Global) -> Result<Memory, NoMemory>
        ensures version { IfOk result (λ memory. memory.version ≡ OneHart) }
        ensures memory { IfOk result (λ memory. memory_of memory ≡ zeros) }
    {
        Memory::with_contents(alloc, ImageVersion::OneHart, &[], &[])
    }

    /// The memory in which a run of an image starts.
    pub fn load(alloc: Global, image: &Image) -> Result<Memory, NoMemory>
        ensures version { IfOk result (λ memory. memory.version ≡ image.now.version) }
        ensures memory { IfOk result (λ memory. memory_of memory ≡ loaded image.now) }
    {
        Memory::with_contents(alloc, image.version(), image.code(), image.init())
    }

    /// The memory of a version in which initialised data stand alone, without code.
    pub fn with_data(alloc: Global, version: ImageVersion, init: &[u8]) -> Result<Memory, NoMemory>
        requires { DATA_START + length init.now ≤ DATA_END }
        ensures version { IfOk result (λ memory. memory.version ≡ version) }
        ensures memory { IfOk result (λ memory. memory_of memory ≡ placed zeros DATA_START init.now) }
    {
        Memory::with_contents(alloc, version, &[], init)
    }

    /// The memory in which this code and these initialised data stand.
    fn with_contents(
        alloc: Global,
        version: ImageVersion,
        code: &[u8],
        init: &[u8],
    ) -> Result<Memory, NoMemory>
        requires code { length code.now ≤ CODE_SIZE }
        requires init { DATA_START + length init.now ≤ DATA_END }
        ensures version { IfOk result (λ memory. memory.version ≡ version) }
        ensures memory { IfOk result (λ memory. memory_of memory ≡ placed (placed zeros DATA_START init.now) CODE_START code.now) }
    {
        let mut memory = Memory::with_code(alloc, version, code)?;
        memory.write_bytes(DATA_START, init)?;
        Ok(memory)
    }

    /// The memory in which this code stands alone.
    fn with_code(alloc: Global, version: ImageVersion, code: &[u8]) -> Result<Memory, NoMemory>
        requires { length code.now ≤ CODE_SIZE }
        ensures version { IfOk result (λ memory. memory.version ≡ version) }
        ensures memory { IfOk result (λ memory. memory_of memory ≡ placed zeros CODE_START code.now) }
    {
        Ok(Memory {
            version,
            code: Vec::from_slice(alloc, code)?,
            pages: Pages::new(alloc)?,
        })
    }

    /// Tells a proof that each address holds a byte; nothing is computed.
    pub fn in_range(&self)
        ensures { AreBytes (memory_of self.now) }
    {
        let _ = &self.code;
    }

    /// What stands from an address to the end of its page, or of code, but for zeros at its end.
    #[inline(always)]
    fn rest_of_page(&self, addr: u64) -> &[u8]
        ensures within { (k : ℕ) → k < length result.now → slice_index result.now k ≡ memory_of self.now (addr + k) }
        ensures past { (k : ℕ) → addr % PAGE_SIZE + k < PAGE_SIZE → slice_index result.now k ≡ memory_of self.now (addr + k) }
    {
        if is_paged(self.version, addr) {
            let place = place(addr);
            rest(self.pages.page(place / PAGE_SIZE), place % PAGE_SIZE)
        } else if is_within(CODE_START, CODE_SIZE, addr, 1) {
            rest(&self.code, (addr - CODE_START) as usize)
        } else {
            &[]
        }
    }

    /// The byte at an address: 0 where nothing was written, and outside of all regions.
    #[inline(always)]
    pub fn byte(&self, addr: u64) -> u8
        ensures { result ≡ memory_of self.now addr }
    {
        self.rest_of_page(addr).first().copied().unwrap_or(0)
    }

    /// Makes the pages of the `len` bytes from `addr` on, where they were never made: no write there
    /// wants memory from then on. It takes time for the pages, and not for the bytes.
    pub fn reserve_pages(&mut self, addr: u64, len: u64) -> Result<(), NoMemory>
        requires { IsTrue (can_store (profile_of self.old.version) addr len) }
        ensures memory { memory_of self.new ≡ memory_of self.old }
        ensures room { OnOk result (HasRoom self.new addr len) }
        ensures wants { OnErr result (¬ HasRoom self.old addr len) }
        ensures version { self.new.version ≡ self.old.version }
        ensures kept { (k : ℕ) → IsTrue (has_room self.old k) → IsTrue (has_room self.new k) }
    {
        self.pages.make_all(place(addr), len as usize)
    }

    /// Sets bytes where there is room for them.
    pub fn set_all(&mut self, addr: u64, bytes: &[u8])
        requires room { HasRoom self.old addr (length bytes.now) }
        requires fits { addr + length bytes.now < 2 ^ 64 }
        ensures memory { memory_of self.new ≡ placed (memory_of self.old) addr bytes.now }
        ensures version { self.new.version ≡ self.old.version }
        ensures kept { (k : ℕ) → IsTrue (has_room self.old k) → IsTrue (has_room self.new k) }
    {
        self.pages.put_all(place(addr), bytes);
    }

    /// Writes the low `n` bytes of `value`, the lowest first. A write into data or shadow may want
    /// memory, unless its pages were made.
    #[inline(always)]
    pub fn write(&mut self, addr: u64, n: u8, value: u64) -> Result<(), End<StoreFault>>
        requires { IsAccessSize n }
        ensures written { OnOk result (memory_of self.new ≡ write n (memory_of self.old) addr value) }
        ensures fault { IsErrAnd result IsFault ↔ (can_store (profile_of self.old.version) addr n ≡ false) }
        ensures wants { IsErrOf result End.NoMemory → can_store (profile_of self.old.version) addr n ≡ true }
        ensures room { IsErrOf result End.NoMemory → ¬ HasRoom self.old addr n }
        ensures refused { OnErr result (memory_of self.new ≡ memory_of self.old) }
        ensures version { self.new.version ≡ self.old.version }
        ensures kept { (k : ℕ) → IsTrue (has_room self.old k) → IsTrue (has_room self.new k) }
    {
        if !is_storable(self.version, addr, n) {
            return Err(End::Fault(StoreFault));
        }
        let bytes = value.to_le_bytes();
        let bytes = &bytes[..usize::from(n)];
        if ends_in_page(addr, u64::from(n)) {
            self.write_in_page(addr, bytes)?;
        } else {
            self.reserve_pages(addr, u64::from(n))?;
            self.set_all(addr, bytes);
        }
        Ok(())
    }

    /// Writes bytes into one page.
    #[inline(always)]
    fn write_in_page(&mut self, addr: u64, bytes: &[u8]) -> Result<(), NoMemory>
        requires some { 0 < length bytes.now }
        requires one { addr % PAGE_SIZE + length bytes.now ≤ PAGE_SIZE }
        requires store { IsTrue (can_store (profile_of self.old.version) addr (length bytes.now)) }
        ensures written { OnOk result (memory_of self.new ≡ placed (memory_of self.old) addr bytes.now) }
        ensures wants { OnErr result (¬ HasRoom self.old addr (length bytes.now)) }
        ensures refused { OnErr result (memory_of self.new ≡ memory_of self.old) }
        ensures version { self.new.version ≡ self.old.version }
        ensures kept { (k : ℕ) → IsTrue (has_room self.old k) → IsTrue (has_room self.new k) }
    {
        self.pages.write(place(addr), bytes)
    }

    /// Writes bytes into data, all of them or none.
    pub fn write_bytes(&mut self, addr: u64, bytes: &[u8]) -> Result<(), NoMemory>
        requires { addr + length bytes.now ≤ DATA_END }
        ensures written { OnOk result (memory_of self.new ≡ placed (memory_of self.old) addr bytes.now) }
        ensures wants { OnErr result (¬ HasRoom self.old addr (length bytes.now)) }
        ensures refused { OnErr result (memory_of self.new ≡ memory_of self.old) }
        ensures version { self.new.version ≡ self.old.version }
        ensures kept { (k : ℕ) → IsTrue (has_room self.old k) → IsTrue (has_room self.new k) }
    {
        self.reserve_pages(addr, bytes.len() as u64)?;
        self.set_all(addr, bytes);
        Ok(())
    }

    /// The number in the `n` bytes from `addr` on, the lowest byte first.
    pub fn read(&self, addr: u64, n: u8) -> Result<u64, LoadFault>
        requires { IsAccessSize n }
        ensures value { IfOk result (λ value. value ≡ read n (memory_of self.now) addr) }
        ensures fault { IsErr result ↔ (can_load (profile_of self.now.version) addr n ≡ false) }
    {
        match n {
            1 => self.load_byte(addr),
            2 => self.load_half_word(addr),
            4 => self.load_word(addr),
            _ => self.load_double_word(addr),
        }
    }

    /// The byte at an address, where it may be loaded.
    #[inline(always)]
    pub fn load_byte(&self, addr: u64) -> Result<u64, LoadFault>
        ensures value { IfOk result (λ value. value ≡ read 1 (memory_of self.now) addr) }
        ensures fault { IsErr result ↔ (can_load (profile_of self.now.version) addr 1 ≡ false) }
    {
        if is_loadable(self.version, addr, 1) {
            Ok(u64::from(self.byte(addr)))
        } else {
            Err(LoadFault)
        }
    }

    /// The half-word at an address, where it may be loaded.
    #[inline(always)]
    pub fn load_half_word(&self, addr: u64) -> Result<u64, LoadFault>
        ensures value { IfOk result (λ value. value ≡ read 2 (memory_of self.now) addr) }
        ensures fault { IsErr result ↔ (can_load (profile_of self.now.version) addr 2 ≡ false) }
    {
        if is_loadable(self.version, addr, 2) {
            Ok(u64::from(self.half_word(addr)))
        } else {
            Err(LoadFault)
        }
    }

    /// The word at an address, where it may be loaded.
    #[inline(always)]
    pub fn load_word(&self, addr: u64) -> Result<u64, LoadFault>
        ensures value { IfOk result (λ value. value ≡ read 4 (memory_of self.now) addr) }
        ensures fault { IsErr result ↔ (can_load (profile_of self.now.version) addr 4 ≡ false) }
    {
        if is_loadable(self.version, addr, 4) {
            Ok(u64::from(self.word(addr)))
        } else {
            Err(LoadFault)
        }
    }

    /// The double word at an address, where it may be loaded.
    #[inline(always)]
    pub fn load_double_word(&self, addr: u64) -> Result<u64, LoadFault>
        ensures value { IfOk result (λ value. value ≡ read 8 (memory_of self.now) addr) }
        ensures fault { IsErr result ↔ (can_load (profile_of self.now.version) addr 8 ≡ false) }
    {
        if is_loadable(self.version, addr, 8) {
            Ok(self.double_word(addr))
        } else {
            Err(LoadFault)
        }
    }

    /// The half-word at an address.
    #[inline(always)]
    fn half_word(&self, addr: u64) -> u16
        requires { addr < 2 ^ 63 }
        ensures { result ≡ read 2 (memory_of self.now) addr }
    {
        let bytes = self.rest_of_page(addr);
        if bytes.len() >= 2 {
            half_word_at(bytes, 0)
        } else {
            self.half_word_beyond(addr)
        }
    }

    /// The same where the page has no such bytes from there on: it never was made, or the last of them are in the next one.
    #[inline(never)]
    fn half_word_beyond(&self, addr: u64) -> u16
        requires { addr < 2 ^ 63 }
        ensures { result ≡ read 2 (memory_of self.now) addr }
    {
        let bytes = self.rest_of_page(addr);
        if bytes.is_empty() && ends_in_page(addr, 2) {
            0
        } else {
            u16::from(self.byte(addr)) + (u16::from(self.byte(addr + 1)) << 8)
        }
    }

    /// The word at an address.
    #[inline(always)]
    pub fn word(&self, addr: u64) -> u32
        requires { addr < 2 ^ 62 }
        ensures { result ≡ read 4 (memory_of self.now) addr }
    {
        let bytes = self.rest_of_page(addr);
        if bytes.len() >= 4 {
            word_at(bytes, 0)
        } else {
            self.word_beyond(addr)
        }
    }

    /// The same where the page has no such bytes from there on: it never was made, or the last of them are in the next one.
    #[inline(never)]
    fn word_beyond(&self, addr: u64) -> u32
        requires { addr < 2 ^ 62 }
        ensures { result ≡ read 4 (memory_of self.now) addr }
    {
        let bytes = self.rest_of_page(addr);
        if bytes.is_empty() && ends_in_page(addr, 4) {
            0
        } else {
            u32::from(self.half_word(addr)) + (u32::from(self.half_word(addr + 2)) << 16)
        }
    }

    /// The double word at an address.
    #[inline(always)]
    pub fn double_word(&self, addr: u64) -> u64
        requires { addr < 2 ^ 61 }
        ensures { result ≡ read 8 (memory_of self.now) addr }
    {
        let bytes = self.rest_of_page(addr);
        if bytes.len() >= 8 {
            double_word_at(bytes, 0)
        } else {
            self.double_word_beyond(addr)
        }
    }

    /// The same where the page has no such bytes from there on: it never was made, or the last of them are in the next one.
    #[inline(never)]
    fn double_word_beyond(&self, addr: u64) -> u64
        requires { addr < 2 ^ 61 }
        ensures { result ≡ read 8 (memory_of self.now) addr }
    {
        let bytes = self.rest_of_page(addr);
        if bytes.is_empty() && ends_in_page(addr, 8) {
            0
        } else {
            u64::from(self.word(addr)) + (u64::from(self.word(addr + 4)) << 32)
        }
    }

    /// Sets one data byte.
    pub fn change(&mut self, change: Change) -> Result<(), NoMemory>
        ensures changed { OnOk result (memory_of self.new ≡ with_byte (memory_of self.old) change.0 change.1) }
        ensures refused { OnErr result (memory_of self.new ≡ memory_of self.old) }
        ensures wants { OnErr result (¬ IsTrue (has_room self.old change.0)) }
        ensures version { self.new.version ≡ self.old.version }
        ensures kept { (k : ℕ) → IsTrue (has_room self.old k) → IsTrue (has_room self.new k) }
    {
        self.write_bytes(change.addr(), &[change.byte()])
    }
}

/// The place of an address of data or shadow in the pages.
fn place(addr: u64) -> usize
    ensures { result ≡ place_of addr }
{
    if addr < DATA_END {
        addr as usize
    } else {
        (DATA_END + addr.saturating_sub(SHADOW_START)) as usize
    }
}

/// Whether the `n` bytes from `addr` on are in one page.
fn ends_in_page(addr: u64, n: u64) -> bool
    requires { n ≤ PAGE_SIZE }
    ensures { result ≡ nat_le (addr % PAGE_SIZE + n) PAGE_SIZE }
{
    addr % PAGE_SIZE as u64 <= PAGE_SIZE as u64 - n
}
