//! The relocations that do something, by offset.

ghost use Rattle.std.specs.Prelude.{◌≡◌, ◌-◌, ◌<◌, ◌≤◌, ℕ, false, true, IfOk, drop, filter, length, map, take};
ghost use Rattle.std.specs.List.{AllWithin, list_any};
ghost use Rattle.std.specs.List.Sorted.{IsNonDecreasingBy};
ghost use Rattle.obj_input.specs.Relocation.{is_acting};
ghost use Rattle.obj_input.specs.Input.{acting_among};
ghost use Rattle.obj_input.specs.InOrder.{IsFoundIn, by_offset, has, is_high_use, is_pair_use, standing_at};

use crate::offsets::Offsets;
use crate::parts::Relocation;
use rv_word::NoMemory;
use std::alloc::Global;

/// Those that do something.
fn acting(alloc: Global, uses: &[Relocation]) -> Result<Vec<Relocation>, NoMemory>
    ensures { IfOk result (λ v. v.items ≡ filter is_acting uses.now) }
{
    Ok(
        uses.iter()
            .filter(|u| u.is_acting())
            .copied()
            .collect(alloc)?,
    )
}

/// Those that do something, by their offset; at one offset they keep the order of their table.
fn acting_in_order(alloc: Global, uses: &[Relocation]) -> Result<Vec<Relocation>, NoMemory>
    ensures in_order { IfOk result (λ v. IsNonDecreasingBy (λ u. u.offset) v.items) }
    ensures found { IfOk result (λ v. (at : ℕ) → standing_at at v.items ≡ acting_among uses.now at) }
{
    let mut acting = acting(alloc, uses)?;
    acting.sort_by_key(|u| u.offset)?;
    Ok(acting)
}

/// Whether these all do something and stand in the order of their offsets.
pub(crate) fn are_in_order(uses: &[Relocation]) -> bool
    ensures { result ≡ true → IsFoundIn uses.now uses.now }
{
    let mut last = 0;
    for u in uses {
        if u.is_acting() && last <= u.offset {
            last = u.offset;
        } else {
            return false;
        }
    }
    true
}

/// Those that do something, by their offset, where the table is not in order; else none.
pub(crate) fn acting_unless(
    alloc: Global,
    in_order: bool,
    uses: &[Relocation],
) -> Result<Vec<Relocation>, NoMemory>
    ensures { IfOk result (λ v. in_order ≡ false → IsFoundIn uses.now v.items) }
{
    if in_order {
        Ok(Vec::new(alloc))
    } else {
        let acting = acting_in_order(alloc, uses)?;
        Ok(acting)
    }
}

/// Those that do something, by their offset: the table where it is in order.
pub(crate) fn by_offset<'a>(
    in_order: bool,
    uses: &'a [Relocation],
    acting: &'a [Relocation],
) -> &'a [Relocation]
    ensures { result.now ≡ by_offset in_order uses.now acting.now }
{
    if in_order { uses } else { acting }
}

/// The offsets of those that name the target of a pair, in the order of their table.
fn offsets_of_pairs(alloc: Global, uses: &[Relocation]) -> Result<Vec<u64>, NoMemory>
    ensures { IfOk result (λ v. v.items ≡ map (λ u. u.offset) (filter is_pair_use uses.now)) }
{
    Ok(
        uses.iter()
            .filter(|u| u.kind().is_pair_target())
            .map(|u| u.offset)
            .collect(alloc)?,
    )
}

/// The offsets of those that are the high part of a distance, in the order of their table.
fn offsets_of_highs(alloc: Global, uses: &[Relocation]) -> Result<Vec<u64>, NoMemory>
    ensures { IfOk result (λ v. v.items ≡ map (λ u. u.offset) (filter is_high_use uses.now)) }
{
    Ok(
        uses.iter()
            .filter(|u| u.kind().is_relative_high())
            .map(|u| u.offset)
            .collect(alloc)?,
    )
}

/// The offsets of those that name the target of a pair.
pub(crate) fn pair_offsets(alloc: Global, uses: &[Relocation]) -> Result<Offsets, NoMemory>
    ensures { IfOk result (λ o. (at : ℕ) → has o at ≡ list_any is_pair_use (acting_among uses.now at)) }
{
    let offsets = offsets_of_pairs(alloc, uses)?;
    Ok(Offsets::of(offsets))
}

/// The offsets of those that are the high part of a distance.
pub(crate) fn high_offsets(alloc: Global, uses: &[Relocation]) -> Result<Offsets, NoMemory>
    ensures { IfOk result (λ o. (at : ℕ) → has o at ≡ list_any is_high_use (acting_among uses.now at)) }
{
    let offsets = offsets_of_highs(alloc, uses)?;
    Ok(Offsets::of(offsets))
}

/// How many stand below this offset.
fn count_below(uses: &[Relocation], offset: u64) -> usize
    requires { IsNonDecreasingBy (λ u. u.offset) uses.now }
    ensures below { AllWithin (λ u. u.offset < offset) uses.now 0 result }
    ensures from { AllWithin (λ u. offset ≤ u.offset) uses.now result (length uses.now) }
    ensures bound { result ≤ length uses.now }
{
    uses.partition_point(|u| u.offset < offset)
}

/// How many stand at this offset or below it.
fn count_to(uses: &[Relocation], offset: u64) -> usize
    requires { IsNonDecreasingBy (λ u. u.offset) uses.now }
    ensures to { AllWithin (λ u. u.offset ≤ offset) uses.now 0 result }
    ensures after { AllWithin (λ u. offset < u.offset) uses.now result (length uses.now) }
    ensures bound { result ≤ length uses.now }
{
    uses.partition_point(|u| u.offset <= offset)
}

/// Where those that stand at this offset begin and end.
fn bounds(uses: &[Relocation], offset: u64) -> (usize, usize)
    requires { IsNonDecreasingBy (λ u. u.offset) uses.now }
    ensures order { result.0 ≤ result.1 }
    ensures inside { result.1 ≤ length uses.now }
    ensures part { take (result.1 - result.0) (drop result.0 uses.now) ≡ standing_at offset uses.now }
{
    (count_below(uses, offset), count_to(uses, offset))
}

/// Those that stand at this offset.
pub(crate) fn standing_at(uses: &[Relocation], offset: u64) -> &[Relocation]
    requires { IsNonDecreasingBy (λ u. u.offset) uses.now }
    ensures { result.now ≡ standing_at offset uses.now }
{
    let (from, to) = bounds(uses, offset);
    &uses[from..to]
}
