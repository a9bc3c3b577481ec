//! Which label a place or a site has.

ghost use Rattle.std.specs.Prelude.{◌≡◌, ◌<◌, ◌≤◌, ◌^◌, ℕ, if◌then◌else◌, IfOk, IfSome, drop, length, slice_get, slice_index};
ghost use Rattle.std.specs.List.{All};
ghost use Rattle.cfi_closed.specs.declared.side.Site.{Site};
ghost use Rattle.cfi_closed.specs.Closed.{has_site};
ghost use Rattle.cfi_map.specs.LabelOf.{class_count, label_at, site_label, site_number, tagged};
ghost use Rattle.cfi_writer.specs.Chosen.{AreStarts};

use cfi_closed::{Closed, Side};
use rv_word::NoMemory;
use std::alloc::Global;

/// The labels from an index on.
pub(crate) fn labels_from(labels: &[u32], from: u64) -> &[u32]
    requires { from ≤ length labels.now }
    ensures { result.now ≡ drop from labels.now }
{
    &labels[from as usize..]
}

/// The label with this index.
fn label_with(labels: &[u32], k: u64) -> Option<u32>
    requires { All (λ label. label < 2 ^ 20) labels.now }
    ensures value { result ≡ slice_get labels.now k }
    ensures small { IfSome result (λ label. label < 2 ^ 20) }
{
    labels.get(k as usize).copied()
}

/// The label of the class that has this place, if one has it, where the classes of a side have the first of these labels
/// in their order.
#[tactic(auto, using(crate::proofs::ClassLabels::label_found))]
pub(crate) fn label_at(side: &Side, labels: &[u32], place: u64) -> Option<u32>
    requires { All (λ label. label < 2 ^ 20) labels.now }
    ensures value { result ≡ label_at labels.now side.now.classes place }
    ensures small { IfSome result (λ label. label < 2 ^ 20) }
{
    match side.class_at(place) {
        Some(class) => label_with(labels, class),
        None => None,
    }
}

/// The label with this index; beyond their end it is 0.
pub(crate) fn label_or_zero(labels: &[u32], k: u64) -> u32
    ensures { result ≡ slice_index labels.now k }
{
    labels.get(k as usize).copied().unwrap_or(0)
}

/// Notes for the place of each site of a side the label that it asks for, where the side has so many labels, the first of
/// these.
fn note_sites(table: &mut Vec<u32>, side: &Side, labels: &[u32], count: u64)
    requires count { count ≡ class_count side.now }
    requires there { All (λ (s : Site). s.place < length table.old.items) side.now.sites }
    ensures size { length table.new.items ≡ length table.old.items }
    ensures each { (k : ℕ) → slice_index table.new.items k
        ≡ (if has_site k side.now then slice_index labels.now (site_number side.now.sites (length side.now.classes) k) else slice_index table.old.items k) }
{
    let mut next = count;
    for i in (0..side.sites()).rev() {
        let site = side.site(i);
        if site.class.is_none() {
            next -= 1;
        }
        table[site.place as usize] = label_or_zero(labels, site.class.unwrap_or(next));
    }
}

/// Of each place the label that its site asks for, where all classes have these labels, those of each side from its start
/// on; 0 where no site stands.
pub(crate) fn site_labels(
    alloc: Global,
    closed: &Closed,
    labels: &[u32],
    starts: &[u64],
) -> Result<Vec<u32>, NoMemory>
    requires starts { AreStarts closed.now.sides starts.now }
    requires counted { length labels.now ≡ length (tagged closed.now.sides) }
    ensures { IfOk result (λ v. (k : ℕ) → slice_index v.items k ≡ site_label labels.now closed.now.sides k) }
{
    let places = closed.places();
    let sides = closed.sides();
    let mut table = vec![in alloc; 0; places as usize]?;
    for j in (0..sides.len()).rev() {
        let from = starts[j];
        let own = labels_from(labels, from);
        note_sites(&mut table, &sides[j], own, starts[j + 1] - from);
    }
    Ok(table)
}
