ghost use Rattle.std.specs.Prelude.{◌≡◌, ℕ, ◌<◌, ◌≤◌, Bool, true, false, length, slice_index_or};
ghost use Rattle.obj_program.specs.Program.{AreInOrder, is_before, no_item, place_of};

use crate::packed::PackedItem;

/// How many places are before this section and offset.
fn count_before(items: &[PackedItem], section: u32, offset: u64) -> usize
    requires { AreInOrder items.now }
    ensures bound { result ≤ length items.now }
    ensures before { (k : ℕ) → k < result → is_before (slice_index_or items.now k no_item) section offset ≡ true }
    ensures from { (k : ℕ) → result ≤ k → k < length items.now → is_before (slice_index_or items.now k no_item) section offset ≡ false }
{
    items.partition_point(|item| item.is_before(section, u128::from(offset)))
}

/// The index of the place with this section and offset, in bytes, among places in their order.
pub fn place_in(items: &[PackedItem], section: u32, offset: u64) -> Option<u64>
    requires { AreInOrder items.now }
    ensures { result ≡ place_of items.now section offset }
{
    let k = count_before(items, section, offset);
    if k < items.len() && items[k].is_at(section, u128::from(offset)) {
        Some(k as u64)
    } else {
        None
    }
}
