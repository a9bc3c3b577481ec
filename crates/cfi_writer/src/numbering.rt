//! Labels for classes and for sites without targets.

ghost use Rattle.std.specs.Prelude.{◌≡◌, ℕ, ◌^◌, ◌<◌, IfOk, length, sum};
ghost use Rattle.std.specs.List.{All};
ghost use Rattle.std.specs.List.Sorted.{IsStrictlyIncreasing};
ghost use Rattle.rv_image.specs.MemoryMap.{CODE_SIZE};
ghost use Rattle.cfi_class.specs.Labels.{AreLabels};
ghost use Rattle.cfi_leads.specs.Entered.{entered_at};
ghost use Rattle.cfi_map.specs.LabelOf.{empty_classes, tagged};
ghost use Rattle.cfi_flow.specs.Labels.{used_labels};
ghost use Rattle.cfi_writer.specs.Chosen.{AreStarts};
ghost use Rattle.cfi_writer.specs.GraphOf.{IsGraphOf};
ghost use Rattle.cfi_map.specs.Sizes.{whole_sizes};

use cfi_class::labels;
use cfi_closed::{Closed, Side};
use cfi_flow::used_labels;
use obj_program::Items;
use rv_word::NoMemory;
use std::alloc::Global;

/// How many sites of a side have no targets.
fn empty_classes(side: &Side) -> u64
    ensures { result ≡ length (empty_classes side.now.sites) }
{
    let mut count = 0;
    for k in 0..side.sites() {
        if side.site(k).class.is_none() {
            count += 1;
        }
    }
    count
}

/// Of each side the index of its first label, where labels are given side after side, and then how many labels there are.
pub(crate) fn label_starts(alloc: Global, closed: &Closed) -> Result<Vec<u64>, NoMemory>
    requires { length (tagged closed.now.sides) < 2 ^ 63 }
    ensures { IfOk result (λ v. AreStarts closed.now.sides v.items) }
{
    let mut starts = Vec::new(alloc);
    let mut next = 0;
    for side in closed.sides() {
        starts.push(next)?;
        next += side.classes() + empty_classes(side);
    }
    starts.push(next)?;
    Ok(starts)
}

/// How many labels are given.
fn label_count(alloc: Global, closed: &Closed) -> Result<u64, NoMemory>
    requires { length (tagged closed.now.sides) < 2 ^ 63 }
    ensures { IfOk result (λ n. n ≡ length (tagged closed.now.sides)) }
{
    let starts = label_starts(alloc, closed)?;
    let all = starts.as_slice();
    Ok(all[closed.sides().len()])
}

/// The labels of a program's classes, and of its sites without targets, side after side, in each of the classes and then
/// of the sites in their order: for each the least number from 1 on that is none before it and that the program does not
/// have for itself. They are few, since the code of the program has room with every branch long.
pub fn class_labels(alloc: Global, items: &Items, closed: &Closed) -> Result<Vec<u32>, NoMemory>
    requires graph { IsGraphOf items.now closed.now }
    requires room { (entry : ℕ) × (sum (whole_sizes (entered_at items.now closed.now entry)) < CODE_SIZE) }
    ensures count { IfOk result (λ v. length v.items ≡ length (tagged closed.now.sides)) }
    ensures least { IfOk result (λ v. AreLabels (used_labels items.now) v.items) }
    ensures rising { IfOk result (λ v. IsStrictlyIncreasing v.items) }
    ensures below { IfOk result (λ v. All (λ label. label < 2 ^ 20) v.items) }
{
    let used = used_labels(alloc, items)?;
    let count = label_count(alloc, closed)?;
    labels(alloc, count as usize, used.as_slice())
}
