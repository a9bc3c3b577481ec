//! The branches that are yet to be looked at while the long set is found.

ghost use Rattle.std.specs.Prelude.{
  ◌≡◌,
  ℕ,
  ◌+◌,
  ◌<◌,
  ◌≤◌,
  ◌^◌,
  true,
  false,
  IsTrue,
  List,
  IfOk,
  OnOk,
  Ok,
  Some,
  length,
  slice_get,
  slice_index,
};
ghost use Rattle.std.specs.List.{All};
ghost use Rattle.cfi_layout.specs.declared.short.Short.{Short};
ghost use Rattle.cfi_layout.specs.LongSet.{AreShorts};
ghost use Rattle.cfi_layout.specs.Starts.{flag};
ghost use Rattle.cfi_layout.specs.Lengthening.{
  gap,
  is_far,
  short_count,
  starts_with,
  Going,
  IsWidened,
  StayOnWay,
};

use crate::reach::gaps;
use crate::short::Short;
use rv_word::NoMemory;
use std::alloc::Global;

/// How many branches before a part, and how many after it, can lie over it and still reach: each one
/// between takes four bytes at least.
const NEAR: usize = 1024;

/// Counts a word more between each branch that lies over a part, and its target; puts those that are
/// too far away by that on the list of those to be made long.
fn widen(
    branches: &[Short],
    index: usize,
    distances: &mut Vec<u64>,
    work: &mut Vec<usize>,
) -> Result<(), NoMemory>
    requires index { index < length branches.now }
    requires counted { length distances.old.items ≡ length branches.now }
    requires indexes { All (λ i. i < length branches.now) work.old.items }
    ensures still { length distances.new.items ≡ length distances.old.items }
    ensures widened { OnOk result ((b : Short) → slice_get branches.now index ≡ Some b →
        IsWidened branches.now b.at distances.old.items distances.new.items) }
    ensures indexes { OnOk result (All (λ i. i < length branches.now) work.new.items) }
    ensures few { OnOk result (length work.new.items ≤ length work.old.items + length branches.now) }
{
    let part = branches[index].at;
    let end = branches.len().min(index.saturating_add(NEAR + 1));
    for i in index.saturating_sub(NEAR)..end {
        let branch = branches[i];
        if branch.spans(part) {
            let before = distances[i];
            let after = before.saturating_add(4);
            distances[i] = after;
            if !branch.is_far(before) && branch.is_far(after) {
                work.push(i)?;
            }
        }
    }
    Ok(())
}

/// Makes a branch long that is not, if it is known to be too far from its target; whether it did.
fn settle(
    branches: &[Short],
    index: usize,
    long: &mut Vec<bool>,
    distances: &mut Vec<u64>,
    work: &mut Vec<usize>,
) -> Result<bool, NoMemory>
    requires index { index < length branches.now }
    requires parts { (i : ℕ) (b : Short) → slice_get branches.now i ≡ Some b →
        b.at < length long.old.items }
    requires counted { length distances.old.items ≡ length branches.now }
    requires indexes { All (λ i. i < length branches.now) work.old.items }
    ensures long { length long.new.items ≡ length long.old.items }
    ensures still { length distances.new.items ≡ length distances.old.items }
    ensures indexes { OnOk result (All (λ i. i < length branches.now) work.new.items) }
    ensures way { OnOk result
        (StayOnWay branches.now long.old.items distances.old.items long.new.items distances.new.items) }
    ensures unchanged { result ≡ Ok false → (long.new.items ≡ long.old.items)
        × (distances.new.items ≡ distances.old.items) × (work.new.items ≡ work.old.items) }
    ensures settled { result ≡ Ok false → (b : Short) → slice_get branches.now index ≡ Some b →
        IsTrue (is_far b (slice_index distances.old.items index)) → IsTrue (flag long.old.items b.at) }
    ensures fewer { result ≡ Ok true → short_count long.new.items + 1 ≡ short_count long.old.items }
    ensures few { result ≡ Ok true → length work.new.items ≤ length work.old.items + length branches.now }
{
    let branch = branches[index];
    let part = branch.at as usize;
    if long[part] || !branch.is_far(distances[index]) {
        return Ok(false);
    }
    long[part] = true;
    widen(branches, index, distances, work)?;
    Ok(true)
}

/// Settles each branch, in their order; whether one was made long.
fn settle_each(
    branches: &[Short],
    long: &mut Vec<bool>,
    distances: &mut Vec<u64>,
    work: &mut Vec<usize>,
) -> Result<bool, NoMemory>
    requires parts { (i : ℕ) (b : Short) → slice_get branches.now i ≡ Some b →
        b.at < length long.old.items }
    requires counted { length distances.old.items ≡ length branches.now }
    requires indexes { All (λ i. i < length branches.now) work.old.items }
    ensures long { length long.new.items ≡ length long.old.items }
    ensures still { length distances.new.items ≡ length distances.old.items }
    ensures indexes { OnOk result (All (λ i. i < length branches.now) work.new.items) }
    ensures way { OnOk result
        (StayOnWay branches.now long.old.items distances.old.items long.new.items distances.new.items) }
    ensures unchanged { result ≡ Ok false → long.new.items ≡ long.old.items }
    ensures settled { result ≡ Ok false → (i : ℕ) (b : Short) → slice_get branches.now i ≡ Some b →
        IsTrue (is_far b (slice_index distances.old.items i)) → IsTrue (flag long.old.items b.at) }
    ensures fewer { result ≡ Ok true → short_count long.new.items < short_count long.old.items }
{
    let mut changed = false;
    for index in 0..branches.len() {
        if settle(branches, index, long, distances, work)? {
            changed = true;
        }
    }
    Ok(changed)
}

/// Settles the branches of a list until it is empty; each that is made long may add some.
fn settle_rest(
    branches: &[Short],
    long: &mut Vec<bool>,
    distances: &mut Vec<u64>,
    work: &mut Vec<usize>,
) -> Result<(), NoMemory>
    requires parts { (i : ℕ) (b : Short) → slice_get branches.now i ≡ Some b →
        b.at < length long.old.items }
    requires counted { length distances.old.items ≡ length branches.now }
    requires indexes { All (λ i. i < length branches.now) work.old.items }
    ensures long { length long.new.items ≡ length long.old.items }
    ensures way { OnOk result
        (StayOnWay branches.now long.old.items distances.old.items long.new.items distances.new.items) }
    ensures no_more { OnOk result (short_count long.new.items ≤ short_count long.old.items) }
{
    while let Some(index) = work.pop() {
        let _ = settle(branches, index, long, distances, work)?;
    }
    Ok(())
}

/// Makes long each branch that is too far from its target where parts start at these addresses, and
/// those that this brings too far; whether there was one.
pub(crate) fn lengthen(
    alloc: Global,
    branches: &[Short],
    starts: &[u64],
    long: &mut Vec<bool>,
) -> Result<bool, NoMemory>
    requires parts { (i : ℕ) (b : Short) → slice_get branches.now i ≡ Some b →
        (b.at < length long.old.items) × (b.target < length long.old.items) }
    requires starts { length starts.now ≡ length long.old.items + 1 }
    requires low { (k : ℕ) → slice_index starts.now k < 2 ^ 32 }
    ensures len { length long.new.items ≡ length long.old.items }
    ensures going { OnOk result ((from : ℕ) (sizes : List ℕ) → AreShorts branches.now sizes →
        Going from branches.now sizes long.old.items → starts.now ≡ starts_with from long.old.items sizes →
        Going from branches.now sizes long.new.items) }
    ensures unchanged { result ≡ Ok false → long.new.items ≡ long.old.items }
    ensures settled { result ≡ Ok false → (i : ℕ) (b : Short) → slice_get branches.now i ≡ Some b →
        IsTrue (is_far b (gap starts.now b)) → IsTrue (flag long.old.items b.at) }
    ensures fewer { result ≡ Ok true → short_count long.new.items < short_count long.old.items }
{
    let mut distances = gaps(alloc, starts, branches)?;
    let mut work = Vec::new(alloc);
    if !settle_each(branches, long, &mut distances, &mut work)? {
        return Ok(false);
    }
    settle_rest(branches, long, &mut distances, &mut work)?;
    Ok(true)
}
