//! The groups of stores: how many stand behind the first, and the unit of them all.

ghost use Rattle.std.specs.Prelude.{◌≡◌, ◌+◌, ◌-◌, ◌<◌, ◌≤◌, ◌^◌, ℕ, Bool, true, false};
ghost use Rattle.obj_program.specs.Program.{count, item_of};
ghost use Rattle.cfi_map.specs.Groups.{is_store};
ghost use Rattle.obj_input.specs.declared.item_kind.ItemKind.TheVariants as is;
ghost use Rattle.cfi_unit.specs.declared.target_word.TargetWord.{TargetWord};
ghost use Rattle.cfi_unit.specs.Members.{FILLER};
ghost use Rattle.cfi_runs.specs.Distances.{field, level};
ghost use Rattle.cfi_graph.specs.Graph.{has_leaves};
ghost use Rattle.cfi_writer.specs.Units.{behind, group_at, is_later_at, least_at, low_at, low_by, mask_at, member_at, member_for, offset_at, offset_of, unit_of};

use crate::chosen::Chosen;
use cfi_map::{is_short, is_store};
use cfi_unit::{Mask, Member, Members, Unit};
use rv_instr::{Immediate, Instr, Reg, StoreOp};

/// The level of an offset's field: the offset as it is counted from -2048.
fn level(field: u32) -> u32
    requires { field < 2 ^ 12 }
    ensures { result ≡ level field }
{
    (field + 2048) % 4096
}

/// The field of the offset at a level.
fn field(level: u32) -> u32
    requires { level < 2 ^ 12 }
    ensures { result ≡ field level }
{
    (level + 2048) % 4096
}

/// The field of a store's offset; 0 of another instruction.
fn offset_of(instr: &Instr) -> u32
    ensures value { result ≡ offset_of instr.now }
    ensures small { result < 2 ^ 12 }
{
    match *instr {
        Instr::Store(_, _, _, offset) => offset.bits(),
        _ => 0,
    }
}

/// What stands for a member where none is.
fn filler() -> Member
    ensures { result ≡ FILLER }
{
    Member {
        op: StoreOp::Sb,
        value: Reg::of(0),
        distance: Immediate::of(0),
    }
}

/// A store as a member behind a mask for an offset of this level.
#[inline(always)]
fn member_for(instr: &Instr, low: u32) -> Member
    requires past { low ≤ level (offset_of instr.now) }
    requires near { level (offset_of instr.now) - low < 2 ^ 11 }
    ensures { result ≡ member_for low instr.now }
{
    match *instr {
        Instr::Store(op, _, value, offset) => Member {
            op,
            value,
            distance: Immediate::of(level(offset.bits()) - low),
        },
        _ => filler(),
    }
}

impl<'c, 'a, 'b> Chosen<'c, 'a, 'b> {
    /// Whether a place holds a later store of a group.
    pub(crate) fn is_later(&self, k: u64) -> bool
        requires { k < count self.now.layout.program }
        ensures { result ≡ is_later_at self.now k }
    {
        is_store(self.item(k).kind) && !self.is_whole(k)
    }

    /// How many stores stand behind the one of a place in its group.
    #[tactic(auto, using(crate::proofs::GroupLoops::none_left, crate::proofs::GroupLoops::one_more, crate::proofs::GroupLoops::all_left))]
    #[inline(always)]
    fn behind(&self, k: u64) -> u64
        requires { k < count self.now.layout.program }
        ensures { result ≡ behind self.now k }
    {
        let count = self.count();
        for j in k + 1..count {
            if !self.is_later(j) {
                return j - k - 1;
            }
        }
        count - k - 1
    }

    /// The level of the offset of the store at a place.
    #[tactic(auto, using(crate::proofs::GroupLoops::some_instr))]
    fn level(&self, k: u64) -> u32
        requires place { k < count self.now.layout.program }
        requires store { is_store (item_of self.now.layout.program k).kind ≡ true }
        ensures { result ≡ level (offset_at self.now k) }
    {
        match self.instr(k) {
            Some(instr) => level(offset_of(&instr)),
            None => 0,
        }
    }

    /// The least level of the stores of a group, of which so many stand behind the first.
    #[tactic(auto, using(crate::proofs::GroupLoops::inside_behind, crate::proofs::GroupLoops::next_low))]
    #[inline(always)]
    fn least(&self, k: u64, following: u64) -> u32
        requires place { k < count self.now.layout.program }
        requires store { is_store (item_of self.now.layout.program k).kind ≡ true }
        requires first { is_later_at self.now k ≡ false }
        requires following { following ≡ behind self.now k }
        ensures { result ≡ least_at self.now k }
    {
        let _count = self.count();
        let mut low = self.level(k);
        for i in 0..following {
            low = low.min(self.level(k + 1 + i));
        }
        low
    }

    /// The level of the offset of a mask before a group: a short one has none.
    #[inline(always)]
    fn low(&self, k: u64, following: u64, mask: Mask) -> u32
        requires place { k < count self.now.layout.program }
        requires store { is_store (item_of self.now.layout.program k).kind ≡ true }
        requires first { is_later_at self.now k ≡ false }
        requires following { following ≡ behind self.now k }
        ensures { result ≡ low_by mask (least_at self.now k) }
    {
        match mask {
            Mask::Short => level(0),
            Mask::Shifts | Mask::Long => self.least(k, following),
        }
    }

    /// How a group is masked that begins at a place where callees save the sites of calls.
    #[tactic(auto, using(crate::proofs::GroupLoops::mask_is))]
    pub(crate) fn lean_mask(&self, k: u64) -> Mask
        requires place { k < count self.now.layout.program }
        requires lean { has_leaves self.now.layout.closed.version ≡ true }
        ensures { result ≡ mask_at self.now k }
    {
        if is_short(&self.item(k)) {
            Mask::Short
        } else {
            Mask::Long
        }
    }

    /// The store of a place as a member behind a mask for an offset of this level.
    #[tactic(auto, using(crate::proofs::GroupLoops::some_instr))]
    #[inline(always)]
    fn member(&self, k: u64, low: u32) -> Member
        requires place { k < count self.now.layout.program }
        requires store { is_store (item_of self.now.layout.program k).kind ≡ true }
        requires past { low ≤ level (offset_at self.now k) }
        requires near { level (offset_at self.now k) - low < 2 ^ 11 }
        ensures { result ≡ member_at self.now low k }
    {
        match self.instr(k) {
            Some(instr) => member_for(&instr, low),
            None => filler(),
        }
    }

    /// The stores of a group, of which so many stand behind the first, as members behind a mask for an offset of this level.
    #[tactic(auto, using(crate::proofs::GroupLoops::inside_group, crate::proofs::GroupLoops::past_low, crate::proofs::GroupLoops::next_member, crate::proofs::GroupLoops::few_members))]
    #[inline(always)]
    fn members(&self, k: u64, following: u64, low: u32) -> Members
        requires place { k < count self.now.layout.program }
        requires store { is_store (item_of self.now.layout.program k).kind ≡ true }
        requires first { is_later_at self.now k ≡ false }
        requires following { following ≡ behind self.now k }
        requires low { low ≡ low_at self.now k }
        ensures { result ≡ (group_at self.now k).members }
    {
        let _count = self.count();
        let mut members = Members::new();
        for i in 0..following + 1 {
            members.push(self.member(k + i, low));
        }
        members
    }

    /// The unit of the group of stores that begins at a place, of which this is the instruction, behind this mask.
    #[tactic(auto, using(crate::proofs::GroupLoops::low_small))]
    #[inline(always)]
    pub(crate) fn stores(&self, k: u64, instr: &Instr, mask: Mask) -> Unit
        requires place { k < count self.now.layout.program }
        requires store { is_store (item_of self.now.layout.program k).kind ≡ true }
        requires first { is_later_at self.now k ≡ false }
        requires mask { mask ≡ mask_at self.now k }
        ensures { (whole : Bool) (target : ℕ) (which : TargetWord) (label : ℕ) →
            result ≡ unit_of self.now.layout.closed.calls is.Store instr.now whole target which label (group_at self.now k) }
    {
        let _count = self.count();
        match *instr {
            Instr::Store(_, base, _, _) => {
                let following = self.behind(k);
                let low = self.low(k, following, mask);
                Unit::Stores(
                    mask,
                    base,
                    Immediate::of(field(low)),
                    self.members(k, following, low),
                )
            }
            _ => Unit::Stop,
        }
    }
}
