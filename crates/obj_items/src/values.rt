//! What relocations refer to.

ghost use Rattle.std.specs.Prelude.{◌≡◌, ◌+◌, ◌+ℤ◌, ◌≤◌, ◌^◌, pos};
ghost use Rattle.obj_input.specs.DataLayout.{data_layout_of};
ghost use Rattle.obj_program.specs.Program.{AreInOrder};
ghost use Rattle.obj_items.specs.Values.{gate_value, place_at, section_value, use_value, value_of};

use obj_input::{DataLayout, Definition, Input, Relocation, natural};
use obj_program::{PackedItem, Value, place_in};

/// The place at this whole number of bytes of a section, among places in their order.
pub(crate) fn place_at(places: &[PackedItem], section: u32, at: i128) -> Option<u64>
    requires { AreInOrder places.now }
    ensures { result ≡ place_at places.now section at }
{
    place_in(places, section, natural(at)?)
}

/// The gate of a place; 0 where there is none.
fn gate_value(place: Option<u64>) -> Value
    ensures { result ≡ gate_value place }
{
    match place {
        Some(k) => Value::GateOf(k),
        None => Value::Number(0),
    }
}

/// A number with an addend.
fn sum(number: u128, addend: i64) -> Value
    requires { number ≤ 2 ^ 126 + 2 ^ 64 }
    ensures { result ≡ Value.Number (pos number +ℤ addend) }
{
    Value::Number(number as i128 + i128::from(addend))
}

/// What an offset in the section with this index refers to: a gate in code, and an address in data.
fn section_value(
    input: &Input,
    layout: &DataLayout,
    places: &[PackedItem],
    section: u32,
    value: u64,
    addend: i64,
) -> Value
    requires order { AreInOrder places.now }
    requires layout { layout.now ≡ data_layout_of input.now }
    ensures { result ≡ section_value input.now places.now section value addend }
{
    if input.is_code(section) {
        let at = i128::from(value) + i128::from(addend);
        gate_value(place_at(places, section, at))
    } else {
        let value = u128::from(value);
        sum(layout.section(section) + value, addend)
    }
}

/// What a definition with an addend refers to. A block that is not there stands where all data end, and what is defined
/// nowhere is 0.
fn value_of(
    input: &Input,
    layout: &DataLayout,
    places: &[PackedItem],
    definition: Definition,
    addend: i64,
) -> Value
    requires order { AreInOrder places.now }
    requires layout { layout.now ≡ data_layout_of input.now }
    ensures { result ≡ value_of input.now places.now definition addend }
{
    match definition {
        Definition::Zero => Value::Number(i128::from(addend)),
        Definition::Absolute(value) => sum(u128::from(value), addend),
        Definition::Within(section, value) => {
            section_value(input, layout, places, section, value, addend)
        }
        Definition::Common(block) => sum(layout.block(block), addend),
        Definition::Missing(_) => Value::Number(0),
    }
}

/// What a relocation refers to: its symbol with the addend.
pub(crate) fn use_value(
    input: &Input,
    layout: &DataLayout,
    places: &[PackedItem],
    u: &Relocation,
) -> Value
    requires order { AreInOrder places.now }
    requires layout { layout.now ≡ data_layout_of input.now }
    ensures { result ≡ use_value input.now places.now u.now }
{
    value_of(input, layout, places, u.definition, u.addend)
}
