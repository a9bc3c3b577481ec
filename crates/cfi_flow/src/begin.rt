//! Where functions begin.

ghost use Rattle.std.specs.Prelude.{◌≡◌, ◌<◌, ◌||◌, ℕ, false, IfOk, IfSome, length, slice_index_or};
ghost use Rattle.cfi_flow.specs.Marks.{AreBegun};
ghost use Rattle.cfi_flow.specs.Policy.{is_number};

use obj_program::Items;
use rv_word::NoMemory;
use std::alloc::Global;

/// Marks a place, if there is one.
fn mark(marks: &mut Vec<bool>, place: Option<u64>)
    requires { IfSome place (λ k. k < length marks.old.items) }
    ensures size { length marks.new.items ≡ length marks.old.items }
    ensures each { (k : ℕ) → slice_index_or marks.new.items k false ≡ (slice_index_or marks.old.items k false || is_number k place) }
{
    if let Some(k) = place {
        marks[k as usize] = true;
    }
}

/// As many marks as there are places, none set.
fn unmarked(alloc: Global, places: u64) -> Result<Vec<bool>, NoMemory>
    ensures size { IfOk result (λ v. length v.items ≡ places) }
    ensures each { IfOk result (λ v. (k : ℕ) → slice_index_or v.items k false ≡ false) }
{
    let mut marks = Vec::new(alloc);
    for _k in 0..places {
        marks.push(false)?;
    }
    Ok(marks)
}

/// Marks the places at which functions begin.
pub(crate) fn begun(alloc: Global, items: &Items) -> Result<Vec<bool>, NoMemory>
    ensures { IfOk result (λ v. AreBegun items.now items.now.funcs v.items) }
{
    let mut marks = unmarked(alloc, items.count())?;
    for j in 0..items.funcs() {
        let func = items.func(j);
        let place = items.place_of(func.section, func.offset);
        mark(&mut marks, place);
    }
    Ok(marks)
}
