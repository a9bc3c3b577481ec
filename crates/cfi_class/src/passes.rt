//! One pass over the sets: each set's targets get one number.

ghost use Rattle.std.specs.Prelude.{
  ◌≡◌,
  ◌<◌,
  ◌↔◌,
  ℕ,
  true,
  false,
  if◌then◌else◌,
  IfOk,
  OnOk,
  length,
  slice_index,
  slice_index_or,
};
ghost use Rattle.std.specs.Bool.{OnTrue};
ghost use Rattle.std.specs.List.{All, Contains};
ghost use Rattle.std.specs.List.Sorted.{IsStrictlyIncreasing};
ghost use Rattle.cfi_class.specs.Classes.{IsInSome};
ghost use Rattle.cfi_class.specs.Passes.{AreJoined, AreNumbers, IsMarked};

use crate::repeats::is_repeated;
use rv_word::{NoMemory, Places};
use std::alloc::Global;

/// The number of a target.
fn number_of(targets: &[u64], numbers: &[usize], target: u64) -> usize
    requires rising { IsStrictlyIncreasing targets.now }
    requires each { length numbers.now ≡ length targets.now }
    requires among { Contains targets.now target }
    requires in_range { All (λ number. number < length targets.now) numbers.now }
    ensures range { result < length targets.now }
    ensures value { (i : ℕ) → i < length targets.now → slice_index targets.now i ≡ target → result ≡ slice_index numbers.now i }
{
    match targets.binary_search(&target) {
        Ok(i) => numbers[i],
        Err(_) => 0,
    }
}

/// Whether all members of a set have this number.
fn agree(targets: &[u64], numbers: &[usize], set: &[u64], number: usize) -> bool
    requires rising { IsStrictlyIncreasing targets.now }
    requires each { length numbers.now ≡ length targets.now }
    requires among { (a : ℕ) → Contains set.now a → Contains targets.now a }
    requires in_range { All (λ number. number < length targets.now) numbers.now }
    ensures { OnTrue result (AreJoined set.now targets.now numbers.now numbers.now) }
{
    for target in set {
        if number_of(targets, numbers, *target) != number {
            return false;
        }
    }
    true
}

/// A table of all numbers, which marks those of a set's members.
fn marks(
    alloc: Global,
    targets: &[u64],
    numbers: &[usize],
    set: &[u64],
) -> Result<Vec<bool>, NoMemory>
    requires rising { IsStrictlyIncreasing targets.now }
    requires each { length numbers.now ≡ length targets.now }
    requires among { (a : ℕ) → Contains set.now a → Contains targets.now a }
    requires in_range { All (λ number. number < length targets.now) numbers.now }
    ensures len { IfOk result (λ v. length v.items ≡ length targets.now) }
    ensures marked { IfOk result (λ v. (number : ℕ) →
        (slice_index_or v.items number false ≡ true) ↔ IsMarked set.now targets.now numbers.now number) }
{
    let mut marked = vec![in alloc; false; targets.len()]?;
    for target in set {
        let number = number_of(targets, numbers, *target);
        marked[number] = true;
    }
    Ok(marked)
}

/// Puts one number in place of each that is marked.
fn renumber(numbers: &mut [usize], marked: &[bool], number: usize)
    requires { All (λ x. x < length marked.now) numbers.old }
    ensures len { length numbers.new ≡ length numbers.old }
    ensures value { (i : ℕ) → i < length numbers.old → slice_index numbers.new i
        ≡ (if slice_index_or marked.now (slice_index numbers.old i) false
        then number else slice_index numbers.old i) }
{
    for each in numbers.iter_mut() {
        if marked[*each] {
            *each = number;
        }
    }
}

/// Gives one number to the members of a set, and to each target that has the number of one.
fn join(alloc: Global, targets: &[u64], numbers: &mut [usize], set: &[u64]) -> Result<(), NoMemory>
    requires rising { IsStrictlyIncreasing targets.now }
    requires each { length numbers.old ≡ length targets.now }
    requires among { (a : ℕ) → Contains set.now a → Contains targets.now a }
    requires in_range { All (λ number. number < length targets.now) numbers.old }
    ensures { OnOk result (AreJoined set.now targets.now numbers.old numbers.new) }
{
    if set.is_empty() {
        return Ok(());
    }
    let first = number_of(targets, numbers, set[0]);
    if !agree(targets, numbers, set, first) {
        let marked = marks(alloc, targets, numbers, set)?;
        renumber(numbers, marked.as_slice(), first);
    }
    Ok(())
}

/// The numbers from 0 on.
fn indexes(alloc: Global, count: usize) -> Result<Vec<usize>, NoMemory>
    ensures len { IfOk result (λ v. length v.items ≡ count) }
    ensures value { IfOk result (λ v. (i : ℕ) → i < count → slice_index v.items i ≡ i) }
{
    let indexes = (0..count).collect(alloc)?;
    Ok(indexes)
}

/// A number for each target, the same for two where a chain of the sets joins them.
pub(crate) fn numbers_of(
    alloc: Global,
    sets: &[Places],
    targets: &[u64],
) -> Result<Vec<usize>, NoMemory>
    requires rising { IsStrictlyIncreasing targets.now }
    requires among { (a : ℕ) → IsInSome sets.now a → Contains targets.now a }
    ensures { IfOk result (λ v. AreNumbers sets.now targets.now (length sets.now) v.items) }
{
    let mut numbers = indexes(alloc, targets.len())?;
    for k in 0..sets.len() {
        if !is_repeated(sets, k) {
            join(alloc, targets, numbers.as_mut_slice(), sets[k].as_slice())?;
        }
    }
    Ok(numbers)
}
