ghost use Rattle.std.specs.Prelude.{◌≡◌, ◌+◌, ◌*◌, ◌≤◌, ◌<◌, ◌^◌, ◌++◌, length, IfOk, OnOk, IsTrue, min};
ghost use Rattle.rv_image.specs.MemoryMap.{DATA_END, SHADOW_START};
ghost use Rattle.rv_mem.specs.Cells.{memory_of};
ghost use Rattle.rv_machine.specs.Harts.{harts_in, harts_share};
ghost use Rattle.cfi_rules.specs.Lines.{is_among};
ghost use Rattle.cfi_step.specs.Hostile.{first_slot, hart_zeros, holds_site, site_zeros, sites_from, slots_below, zeros_at, zeros_from, zeros_of_harts};

use cfi_script::Meddler;
use cfi_unit::handlers::MOST_PENDING;
use rv_image::memory_map::{DATA_END, PART_SIZE, SHADOW_START};
use rv_instr::Reg;
use rv_machine::{Change, Machine};
use rv_mem::Memory;
use rv_word::NoMemory;
use std::alloc::Global;

/// How many double words are looked at from x2 on.
const DOUBLE_WORDS: u64 = 512;

/// A meddler under which the harts step in turn. It zeroes each double word of data, of the 4,096 bytes from a
/// hart's x2 on, which holds a pending site of the hart. Addresses are sums modulo 2^64: behind the last comes the
/// first.
#[derive(Clone, Copy)]
pub struct Hostile;

/// The oldest slot of a hart.
fn first_slot(hart: u8) -> u64
    ensures { result ≡ first_slot hart }
{
    SHADOW_START + PART_SIZE * u64::from(hart) + 8
}

/// How many slots of a hart stand below an address.
fn slots_below(hart: u8, pointer: u64) -> u64
    ensures { result ≡ slots_below hart pointer }
{
    (pointer.saturating_sub(first_slot(hart)) / 8).min(MOST_PENDING)
}

/// The double words in the slots from an address on.
fn sites(alloc: Global, memory: &Memory, first: u64, count: u64) -> Result<Vec<u64>, NoMemory>
    requires first { first < 2 ^ 32 }
    requires count { count ≤ 8191 }
    ensures { IfOk result (λ sites. sites.items ≡ sites_from (memory_of memory.now) first count) }
{
    let mut sites = Vec::new(alloc);
    for k in 0..count {
        sites.push(memory.double_word(first + 8 * k))?;
    }
    Ok(sites)
}

fn is_among(value: u64, sites: &[u64]) -> bool
    ensures { result ≡ is_among value sites.now }
{
    sites.contains(&value)
}

/// Whether the double word at an address is data, and a site.
fn holds_site(memory: &Memory, sites: &[u64], address: u64) -> bool
    ensures value { result ≡ holds_site (memory_of memory.now) sites.now address }
    ensures in_data { IsTrue result → address + 8 ≤ DATA_END }
{
    if address > DATA_END - 8 {
        return false;
    }
    is_among(memory.double_word(address), sites)
}

/// Adds zeros for the double word at an address.
fn add_zeros(zeros: &mut Vec<Change>, address: u64) -> Result<(), NoMemory>
    requires { address + 8 ≤ DATA_END }
    ensures { OnOk result (zeros.new.items ≡ zeros.old.items ++ zeros_from address 8) }
{
    for k in 0..8 {
        match Change::new(address + k, 0) {
            Some(zero) => zeros.push(zero)?,
            None => unreachable!(),
        }
    }
    Ok(())
}

/// Adds zeros for the double word at an address, if it is data and a site.
fn add_if_site(
    zeros: &mut Vec<Change>,
    memory: &Memory,
    sites: &[u64],
    address: u64,
) -> Result<(), NoMemory>
    ensures { OnOk result (zeros.new.items ≡ zeros.old.items ++ zeros_at (memory_of memory.now) sites.now address) }
{
    if holds_site(memory, sites, address) {
        return add_zeros(zeros, address);
    }
    Ok(())
}

/// Adds zeros for the double words from an address on that are sites.
fn add_site_zeros(
    zeros: &mut Vec<Change>,
    memory: &Memory,
    sites: &[u64],
    from: u64,
) -> Result<(), NoMemory>
    ensures { OnOk result (zeros.new.items ≡ zeros.old.items ++ site_zeros (memory_of memory.now) sites.now from 512) }
{
    let mut address = from;
    let mut left = DOUBLE_WORDS;
    while left > 0 {
        add_if_site(zeros, memory, sites, address)?;
        address = address.wrapping_add(8);
        left -= 1;
    }
    Ok(())
}

/// Adds zeros for the sites of a hart.
fn add_hart_zeros(
    alloc: Global,
    zeros: &mut Vec<Change>,
    seen: &Machine,
    hart: u8,
) -> Result<(), NoMemory>
    requires { hart < length seen.now.resting }
    ensures { OnOk result (zeros.new.items ≡ zeros.old.items
        ++ hart_zeros (harts_share seen.now).memory hart (harts_in seen.now hart)) }
{
    let count = slots_below(hart, seen.reg(hart, Reg::of(3)));
    let sites = sites(alloc, seen.mem(), first_slot(hart), count)?;
    add_site_zeros(zeros, seen.mem(), &sites, seen.reg(hart, Reg::of(2)))
}

/// Adds zeros for the sites of all harts.
fn add_zeros_of_harts(
    alloc: Global,
    zeros: &mut Vec<Change>,
    seen: &Machine,
) -> Result<(), NoMemory>
    ensures { OnOk result (zeros.new.items ≡ zeros.old.items
        ++ zeros_of_harts (harts_share seen.now).memory (harts_in seen.now) 0 (length seen.now.resting)) }
{
    for hart in 0..seen.harts() {
        add_hart_zeros(alloc, zeros, seen, hart)?;
    }
    Ok(())
}

impl Meddler for Hostile {
    ghost use Rattle.cfi_step.specs.Hostile.{hostile_plan};

    ghost plan = { λ hostile. hostile_plan };

    fn hart(&mut self, step: u64, seen: &Machine) -> u8 {
        (step % u64::from(seen.harts())) as u8
    }

    fn meddle(
        &mut self,
        alloc: Global,
        _step: u64,
        seen: &Machine,
        into: &mut Vec<Change>,
    ) -> Result<(), NoMemory> {
        let mut zeros = Vec::new(alloc);
        add_zeros_of_harts(alloc, &mut zeros, seen)?;
        into.extend_from_slice(&zeros)?;
        Ok(())
    }
}
