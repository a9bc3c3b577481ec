//! Which stores go behind the mask of a store before them.

ghost use Rattle.std.specs.Prelude.{◌≡◌, ◌<◌, ◌≤◌, ◌+◌, ◌-◌, ◌%◌, ◌^◌, false, IfOk, Some, slice_index_or};
ghost use Rattle.rv_code.specs.Decode.{decoded};
ghost use Rattle.obj_program.specs.Program.{count, item_of};
ghost use Rattle.obj_program.specs.Sound.{is_own};
ghost use Rattle.cfi_map.specs.Groups.{AreDirectTargets, AreFirstStores, all_from, are_near, base_of, bounds_in, fits_mask, is_direct_target, is_forward, is_short, is_store, joins_in, level_of, may_share, members_after};

use cfi_leads::{Leads, mark};
use obj_input::ItemKind;
use obj_program::{Item, Items, Patch};
use rv_code::decode;
use rv_image::GraphVersion;
use rv_instr::{Immediate, Instr, Reg};
use rv_word::NoMemory;
use std::alloc::Global;
use std::marker::Model;

/// How many stores a group has at most.
pub const MOST_STORES: u64 = 16;
/// How far apart their offsets are at most.
const MOST_APART: u32 = 2047;

/// Where a store goes: its base register, and its offset counted from the least one.
#[derive(Clone, Copy)]
struct Spot {
    base: u8,
    level: u32,
}

/// Where a store with this base register and this offset goes.
fn spot_at(base: Reg, offset: Immediate<12>) -> Spot
    ensures base { result.base ≡ base }
    ensures level { result.level ≡ (offset + 2048) % 4096 }
    ensures small { result.level < 2 ^ 12 }
{
    Spot {
        base: base.number(),
        level: (offset.bits() + 2048) % 4096,
    }
}

/// Where an instruction goes that is a store.
fn spot_in(instr: Instr) -> Spot
    ensures base { result.base ≡ base_of (Some instr) }
    ensures level { result.level ≡ level_of (Some instr) }
    ensures small { result.level < 2 ^ 12 }
{
    match instr {
        Instr::Store(_, base, _, offset) => spot_at(base, offset),
        _ => Spot { base: 0, level: 0 },
    }
}

/// The same, if there is an instruction.
fn spot_of(instr: Option<Instr>) -> Spot
    ensures base { result.base ≡ base_of instr }
    ensures level { result.level ≡ level_of instr }
    ensures small { result.level < 2 ^ 12 }
{
    match instr {
        Some(instr) => spot_in(instr),
        None => Spot { base: 0, level: 0 },
    }
}

/// Whether two offsets are near.
fn are_near(one: u32, other: u32) -> bool
    requires one { one < 2 ^ 12 }
    requires other { other < 2 ^ 12 }
    ensures { result ≡ are_near one other }
{
    one <= other + MOST_APART && other <= one + MOST_APART
}

/// Whether a kind of place is a store's.
pub fn is_store(kind: ItemKind) -> bool
    ensures { result ≡ is_store kind }
{
    kind == ItemKind::Store
}

/// Whether an instruction has its own immediate.
fn is_own(patch: Patch) -> bool
    ensures { result ≡ is_own patch }
{
    matches!(patch, Patch::Own)
}

/// Whether the offset of a store's word is not negative.
fn is_forward(item: &Item) -> bool
    ensures { result ≡ is_forward item.now }
{
    spot_of(decode(item.word)).level >= 2048
}

/// Whether the mask of a store that begins a group is for offsets alone that are not negative, where there are such masks.
pub fn is_short(item: &Item) -> bool
    ensures { result ≡ is_short item.now }
{
    is_own(item.patch) && is_forward(item)
}

/// Whether one mask may serve the store at a place and another one.
fn may_share(items: &Items, other: Spot, j: u64) -> bool
    requires place { j < count items.now }
    requires small { other.level < 2 ^ 12 }
    ensures { result ≡ may_share (item_of items.now) other.base other.level j }
{
    let item = items.item(j);
    let spot = spot_of(decode(item.word));
    is_own(item.patch) && spot.base == other.base && are_near(spot.level, other.level)
}

/// Whether one mask may serve all stores from a place on and another one, up to that.
fn all_share(items: &Items, first: u64, k: u64, other: Spot) -> bool
    requires place { k < count items.now }
    requires first { first ≤ k }
    requires small { other.level < 2 ^ 12 }
    ensures { result ≡ all_from (may_share (item_of items.now) other.base other.level) first (k - first) }
{
    for j in first..k {
        if !may_share(items, other, j) {
            return false;
        }
    }
    true
}

/// Of each place whether a direct transfer goes there.
fn direct_targets(alloc: Global, items: &Items) -> Result<Vec<bool>, NoMemory>
    ensures { IfOk result (λ v. AreDirectTargets items.now v.items) }
{
    let count = items.count();
    let mut flags = vec![in alloc; false; count as usize]?;
    for k in 0..count {
        mark(&mut flags, items.item(k).target);
    }
    Ok(flags)
}

/// What tells which stores of a program may join those before them.
#[derive(Drop)]
pub struct Grouping<'a, 'b, 'c> {
    leads: &'c Leads<'a, 'b>,
    targets: Vec<bool>,
}

impl<'a, 'b, 'c> Model for Grouping<'a, 'b, 'c> {
    ghost use Rattle.cfi_leads.specs.Entered.{Entered};
    ghost use Rattle.cfi_map.specs.Groups.{AreDirectTargets};

    ghost Value = { Entered };

    ghost view = { λ g. g.leads.now };

    ghost invariant = { λ g. AreDirectTargets g.leads.now.program g.targets.items };
}

impl<'a, 'b, 'c> Grouping<'a, 'b, 'c> {
    /// That of a program with its closed graph that is entered at a place.
    pub fn of(alloc: Global, leads: &'c Leads<'a, 'b>) -> Result<Grouping<'a, 'b, 'c>, NoMemory>
        ensures { IfOk result (λ g. g ≡ leads.now) }
    {
        let targets = direct_targets(alloc, leads.items())?;
        Ok(Grouping { leads, targets })
    }

    /// The program, with what stands before the units of its places.
    pub fn leads(&self) -> &'c Leads<'a, 'b>
        ensures { result.now ≡ self.now }
    {
        self.leads
    }

    /// How many places the program has.
    fn count(&self) -> u64
        ensures { result ≡ count self.now.program }
    {
        self.leads.count()
    }

    /// Whether a direct transfer goes to a place.
    fn is_direct_target(&self, k: u64) -> bool
        ensures { result ≡ is_direct_target self.now.program k }
    {
        match self.targets.get(k as usize) {
            Some(flag) => *flag,
            None => false,
        }
    }

    /// Whether a relocation takes a place's address.
    fn is_taken(&self, k: u64) -> bool
        ensures { result ≡ slice_index_or self.now.closed.taken k false }
    {
        let closed = self.leads.closed();
        k < closed.places() && closed.taken(k)
    }

    /// Whether a place may be entered from elsewhere than the place before it.
    fn is_entered(&self, k: u64) -> bool
        ensures { result ≡ (bounds_in self.now).entered k }
    {
        k == self.leads.entry()
            || self.is_direct_target(k)
            || self.leads.closed().is_target(k)
            || self.is_taken(k)
    }

    /// Whether there are masks for offsets alone that are not negative.
    fn short_masks(&self) -> bool
        ensures { result ≡ (bounds_in self.now).short_masks }
    {
        self.leads.closed().version() == GraphVersion::CalleeSaves
    }

    /// Whether a store may go behind the mask of a group that begins at a place.
    fn fits_mask(&self, first: u64, item: &Item) -> bool
        requires { first < count self.now.program }
        ensures { result ≡ fits_mask (bounds_in self.now).short_masks (item_of self.now.program first) item.now }
    {
        !(self.short_masks() && is_short(&self.leads.item(first))) || is_forward(item)
    }

    /// Whether a store may join a group of so many stores right before it.
    pub fn may_join(&self, k: u64, n: u64) -> bool
        requires place { k < count self.now.program }
        requires inside { n ≤ k }
        ensures { result ≡ joins_in self.now k n }
    {
        let item = self.leads.item(k);
        n > 0
            && n < MOST_STORES
            && is_store(item.kind)
            && !self.is_entered(k)
            && is_own(item.patch)
            && self.fits_mask(k - n, &item)
            && all_share(self.leads.items(), k - n, k, spot_of(decode(item.word)))
    }

    /// How many stores a group has after a place, whose store may begin one, where it had so many before.
    pub fn members_after(&self, k: u64, whole: bool, before: u64) -> u64
        requires place { k < count self.now.program }
        requires inside { before ≤ k }
        ensures { result ≡ members_after (item_of self.now.program k).kind whole before }
    {
        let _count = self.leads.count();
        if !is_store(self.leads.item(k).kind) {
            return 0;
        }
        if whole { 1 } else { before + 1 }
    }

    /// Of each place whether it has its whole size, where each store that may join the group before it does.
    pub fn first_stores(&self, alloc: Global) -> Result<Vec<bool>, NoMemory>
        ensures { IfOk result (λ v. AreFirstStores self.now v.items) }
    {
        let mut firsts = Vec::new(alloc);
        let mut before = 0;
        for k in 0..self.count() {
            let first = !self.may_join(k, before);
            firsts.push(first)?;
            before = self.members_after(k, first, before);
        }
        Ok(firsts)
    }
}
