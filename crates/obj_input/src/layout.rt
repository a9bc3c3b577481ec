//! Where the sections of data and the common blocks stand.

ghost use Rattle.std.specs.Prelude.{◌≡◌, ◌+◌, ◌*◌, ◌^◌, ◌<◌, ◌≤◌, length, IfOk, slice_index_or};
ghost use Rattle.obj_input.specs.Input.{section_count};
ghost use Rattle.obj_input.specs.Listed.{listed};
ghost use Rattle.obj_input.specs.InOrder.{AreSmall};
ghost use Rattle.obj_input.specs.DataLayout.{address_by, after, after_if, aligned, block_address, blocks_reach, data_end, init_end, data_layout_of, section_address, zeros_end};

use crate::input::Input;
use crate::parts::{Block, Sort};
use crate::section::Section;
use rv_image::memory_map::DATA_START;
use rv_word::NoMemory;
use std::alloc::Global;
use std::marker::Model;

/// The next address that is a multiple of an alignment; an alignment of 0 is one of 1.
fn aligned(at: u128, align: u64) -> u128
    requires { at < 2 ^ 127 }
    ensures value { result ≡ aligned at align }
    ensures bound { result < at + 2 ^ 64 }
{
    let align = u128::from(align.max(1));
    (at + (align - 1)) / align * align
}

/// Where what has this size and alignment ends, if it stands behind `at`.
fn after(at: u128, size: u64, align: u64) -> u128
    requires { at < 2 ^ 127 }
    ensures value { result ≡ after at size align }
    ensures bound { result ≤ at + 2 ^ 65 }
{
    aligned(at, align) + u128::from(size)
}

/// Where a section ends, if it counts.
fn after_if(counts: bool, at: u128, section: &Section) -> u128
    requires { at < 2 ^ 127 }
    ensures value { result ≡ after_if counts at section.now.size section.now.align }
    ensures bound { result ≤ at + 2 ^ 65 }
{
    if counts {
        after(at, section.size(), section.align())
    } else {
        at
    }
}

/// Where the sections with bytes in the file end.
#[tactic(auto, unfolding(crate::specs::DataLayout::init_end))]
fn init_end(input: &Input) -> u128
    ensures value { result ≡ init_end input.now }
    ensures bound { result ≤ 2 ^ 98 }
{
    let mut at = u128::from(DATA_START);
    for k in 0..input.section_count() {
        let section = input.section(k);
        at = after_if(section.is_data(), at, section);
    }
    at
}

/// Where the sections without bytes in the file end.
#[tactic(auto, unfolding(crate::specs::DataLayout::zeros_end))]
fn zeros_end(input: &Input, start: u128) -> u128
    requires start { start ≡ init_end input.now }
    requires small { start ≤ 2 ^ 98 }
    ensures value { result ≡ zeros_end input.now }
    ensures bound { result ≤ 2 ^ 99 }
{
    let mut at = start;
    for k in 0..input.section_count() {
        let section = input.section(k);
        at = after_if(section.is_zeros(), at, section);
    }
    at
}

/// The address of a section.
fn address(section: &Section, init: u128, rest: u128) -> u128
    requires init { init < 2 ^ 127 }
    requires rest { rest < 2 ^ 127 }
    ensures value { result ≡ address_by section.now.sort init rest section.now.align }
    ensures bound { result < init + rest + 2 ^ 64 }
{
    match section.sort() {
        Sort::Data => aligned(init, section.align()),
        Sort::Zeros => aligned(rest, section.align()),
        _ => 0,
    }
}

/// The addresses of all sections.
fn section_addresses(alloc: Global, input: &Input, start: u128) -> Result<Vec<u128>, NoMemory>
    requires start { start ≡ init_end input.now }
    requires small { start ≤ 2 ^ 98 }
    ensures value { IfOk result (λ v. v.items ≡ listed (section_address input.now) (section_count input.now)) }
    ensures small { IfOk result (λ v. AreSmall v.items) }
{
    let mut init = u128::from(DATA_START);
    let mut rest = start;
    let mut addresses = Vec::new(alloc);
    for k in 0..input.section_count() {
        let section = input.section(k);
        addresses.push(address(section, init, rest))?;
        init = after_if(section.is_data(), init, section);
        rest = after_if(section.is_zeros(), rest, section);
    }
    Ok(addresses)
}

/// The addresses of all blocks, and where they end.
#[derive(Drop)]
struct Placed {
    addresses: Vec<u128>,
    end: u128,
}

/// The addresses of all blocks, and where they end.
fn placed_blocks(alloc: Global, input: &Input, start: u128) -> Result<Placed, NoMemory>
    requires start { start ≡ zeros_end input.now }
    requires small { start ≤ 2 ^ 99 }
    ensures addresses { IfOk result (λ p. p.addresses.items ≡ listed (block_address input.now) (length input.now.blocks)) }
    ensures small { IfOk result (λ p. AreSmall p.addresses.items) }
    ensures end { IfOk result (λ p. p.end ≡ data_end input.now) }
    ensures end_small { IfOk result (λ p. p.end < 2 ^ 126) }
{
    let mut end = start;
    let mut addresses = Vec::new(alloc);
    for block in input.blocks() {
        addresses.push(aligned(end, block.align))?;
        end = after(end, block.size, block.align);
    }
    Ok(Placed { addresses, end })
}

/// The address with this index, and this one where there is none.
fn address_at(addresses: &[u128], index: u64, otherwise: u128) -> u128
    requires addresses { AreSmall addresses.now }
    requires otherwise { otherwise < 2 ^ 126 }
    ensures value { result ≡ slice_index_or addresses.now index otherwise }
    ensures small { result < 2 ^ 126 }
{
    addresses.get(index as usize).copied().unwrap_or(otherwise)
}

/// Where data stand: from `DATA_START` on the sections with bytes in the file, then those without, then the blocks. No
/// address wraps; whether they fit into memory is not asked here.
#[derive(Drop)]
pub struct DataLayout {
    sections: Vec<u128>,
    blocks: Vec<u128>,
    init_end: u128,
    data_end: u128,
}

impl Model for DataLayout {
    ghost use Rattle.obj_input.specs.DataLayout.{DataLayoutParts};
    ghost use Rattle.obj_input.specs.InOrder.{AreAddresses};

    ghost Value = { DataLayoutParts };

    ghost view = { λ l. record { sections = l.sections.items; blocks = l.blocks.items; init_end = l.init_end; data_end = l.data_end } };

    ghost invariant = { λ l. AreAddresses l.sections.items l.blocks.items l.data_end };
}

impl DataLayout {
    /// Where the data of an input stand.
    #[tactic(auto, unfolding(crate::specs::DataLayout::data_layout_of))]
    pub fn of(alloc: Global, input: &Input) -> Result<DataLayout, NoMemory>
        ensures { IfOk result (λ l. l ≡ data_layout_of input.now) }
    {
        let init_end = init_end(input);
        let sections = section_addresses(alloc, input, init_end)?;
        let placed = placed_blocks(alloc, input, zeros_end(input, init_end))?;
        Ok(DataLayout {
            sections,
            blocks: placed.addresses,
            init_end,
            data_end: placed.end,
        })
    }

    /// The address of the section with this index; 0 of one that is no data or not there.
    pub fn section(&self, k: u32) -> u128
        ensures value { result ≡ slice_index_or self.now.sections k 0 }
        ensures small { result < 2 ^ 126 }
    {
        address_at(&self.sections, u64::from(k), 0)
    }

    /// The address of the common block with this index; of one that is not there where all data end.
    pub fn block(&self, c: u64) -> u128
        ensures value { result ≡ slice_index_or self.now.blocks c self.now.data_end }
        ensures small { result < 2 ^ 126 }
    {
        address_at(&self.blocks, c, self.data_end)
    }

    /// Where the data with bytes in the file end.
    pub fn init_end(&self) -> u128
        ensures { result ≡ self.now.init_end }
    {
        self.init_end
    }

    /// Where all data end.
    pub fn data_end(&self) -> u128
        ensures { result ≡ self.now.data_end }
    {
        self.data_end
    }
}
