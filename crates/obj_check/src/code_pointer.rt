ghost use Rattle.std.specs.Prelude.{◌≡◌, ◌<◌};
ghost use Rattle.std.specs.List.{list_all};
ghost use Rattle.obj_input.specs.Input.{acting_at, section_count, section_of};
ghost use Rattle.obj_check.specs.CodePointer.{is_wrong_pointer, pointer_found, pointer_in, points_right, slot_right, use_right};

use crate::fault::{ItemFault, found_at};
use least::{Found, nearest};
use obj_input::{Definition, Input, Relocation};

/// Whether a definition and an addend are no address in code, or a place.
fn points_right(input: &Input, definition: Definition, addend: i64) -> bool
    ensures { result ≡ points_right input.now definition addend }
{
    match definition {
        Definition::Within(section, value) => {
            let at = i128::from(value) + i128::from(addend);
            !(input.is_code(section) && !input.is_place_at(section, at))
        }
        _ => true,
    }
}

/// Whether the address of a relocation is none in code, or a place.
fn use_right(input: &Input, u: &Relocation) -> bool
    ensures { result ≡ use_right input.now u.now }
{
    points_right(input, u.definition, u.addend)
}

/// Whether the addresses of all these relocations are.
fn all_right(input: &Input, uses: &[Relocation]) -> bool
    ensures { result ≡ list_all (use_right input.now) uses.now }
{
    uses.iter().all(|u| use_right(input, u))
}

/// The relocations that do something at an offset of the section with this index, if it is there.
fn acting_at<'a>(input: &'a Input, k: u32, offset: u64) -> &'a [Relocation]
    ensures { result.now ≡ acting_at (section_of input.now k) offset }
{
    if k < input.section_count() {
        input.section(k).acting_at(offset)
    } else {
        &[]
    }
}

/// Whether the address in a slot of the table of addresses is none in code, or a place.
fn slot_right(input: &Input, definition: Definition) -> bool
    ensures { result ≡ slot_right input.now definition }
{
    match definition {
        Definition::Within(section, offset) => all_right(input, acting_at(input, section, offset)),
        _ => true,
    }
}

/// Whether the address of a relocation, which names no transfer's target, or the one in the slot that it names, is in code
/// and no place.
fn is_wrong_pointer(input: &Input, u: &Relocation) -> bool
    ensures { result ≡ is_wrong_pointer input.now u.now }
{
    u.is_acting() && !u.kind().is_transfer() && !use_right(input, u)
        || u.kind().is_table_high() && !slot_right(input, u.definition)
}

/// Such a relocation in the section with the index `k`, as a finding.
fn pointer_found(input: &Input, k: u32, u: &Relocation) -> Option<Found<ItemFault>>
    ensures { result ≡ pointer_found input.now k u.now }
{
    if is_wrong_pointer(input, u) {
        Some(found_at(k, u.offset, ItemFault::BadCodePointer(k, u.offset)))
    } else {
        None
    }
}

/// The nearest of the section with this index.
pub(crate) fn pointer_in(input: &Input, k: u32) -> Option<Found<ItemFault>>
    requires { k < section_count input.now }
    ensures { result ≡ pointer_in input.now k }
{
    nearest(input.section(k).uses(), |u| pointer_found(input, k, &u))
}
