//! The labels that a program has in its own instructions.

ghost use Rattle.std.specs.Prelude.{◌≡◌, IfOk};
ghost use Rattle.cfi_flow.specs.Labels.{is_gate, used_labels};

use obj_input::ItemKind;
use obj_program::Items;
use rv_word::NoMemory;
use std::alloc::Global;

/// Whether an instruction is `lui x0`.
fn is_gate(kind: ItemKind) -> bool
    ensures { result ≡ is_gate kind }
{
    kind == ItemKind::Gate
}

/// The labels that a program has for itself: what its instructions `lui x0` load, in their order. A label may come twice.
pub fn used_labels(alloc: Global, items: &Items) -> Result<Vec<u32>, NoMemory>
    ensures { IfOk result (λ v. v.items ≡ used_labels items.now) }
{
    let labels = items
        .places()
        .iter()
        .filter(|place| is_gate(place.kind()))
        .map(|place| place.word() >> 12)
        .collect(alloc)?;
    Ok(labels)
}
