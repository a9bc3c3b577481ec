//! Pairs that are none.

ghost use Rattle.std.specs.Prelude.{◌≡◌, ◌<◌, true, IfSome};
ghost use Rattle.obj_input.specs.Input.{is_code, section_count, section_of};
ghost use Rattle.obj_input.specs.Code.{word_count};
ghost use Rattle.obj_check.specs.BadPair.{auipc_in, bad_pair_in, has_relative_high, is_auipc_at, is_wrong_auipc, is_wrong_low, low_at, low_in, names_high, wrong_auipc};

use crate::fault::{ItemFault, found_at};
use least::{Found, first_below_u64, nearer, nearest};
use obj_input::{Definition, Input, Relocation, Section, is_auipc};

/// Whether the word of code with this index is an AUIPC without a relocation, or without the JALR that its relocation
/// asks for.
fn is_wrong_auipc(section: &Section, index: u64) -> bool
    requires code { is_code section.now ≡ true }
    requires below { index < word_count section.now }
    ensures { result ≡ is_wrong_auipc section.now index }
{
    is_auipc(&section.instr(index))
        && (section.acting_at(section.offset_of(index)).is_empty()
            || section.has_pair_target(index) && !section.is_pair(index))
}

/// The first such AUIPC.
fn wrong_auipc(section: &Section) -> Option<u64>
    ensures value { result ≡ wrong_auipc section.now }
    ensures below { IfSome result (λ index. index < word_count section.now) }
{
    if !section.is_code() {
        return None;
    }
    first_below_u64(section.word_count(), |index| is_wrong_auipc(section, index))
}

/// The same in the section with this index, as a finding.
fn auipc_in(input: &Input, k: u32) -> Option<Found<ItemFault>>
    requires { k < section_count input.now }
    ensures { result ≡ auipc_in input.now k }
{
    let section = input.section(k);
    let index = wrong_auipc(section)?;
    let offset = section.offset_of(index);
    Some(found_at(k, offset, ItemFault::BadPair(k, offset)))
}

/// Whether an AUIPC starts at this offset.
fn is_auipc_at(section: &Section, offset: u64) -> bool
    ensures { result ≡ is_auipc_at section.now offset }
{
    section.is_code() && section.is_start(offset) && is_auipc(&section.instr(offset / 4))
}

/// Whether an AUIPC with the high part of a distance starts at this offset.
fn has_relative_high(section: &Section, offset: u64) -> bool
    ensures { result ≡ has_relative_high section.now offset }
{
    is_auipc_at(section, offset) && section.has_high_part(offset)
}

/// Whether a symbol labels an AUIPC with a high part in the section with this index; one that is defined nowhere is
/// refused otherwise.
fn names_high(input: &Input, k: u32, definition: Definition) -> bool
    requires { k < section_count input.now }
    ensures { result ≡ names_high input.now k definition }
{
    match definition {
        Definition::Within(section, value) => {
            section == k && has_relative_high(input.section(k), value)
        }
        Definition::Missing(_) => true,
        _ => false,
    }
}

/// Whether a relocation is a low part without its high part.
fn is_wrong_low(input: &Input, k: u32, u: &Relocation) -> bool
    requires { k < section_count input.now }
    ensures { result ≡ is_wrong_low input.now k u.now }
{
    u.kind().is_relative_low() && (u.addend != 0 || !names_high(input, k, u.definition))
}

/// Such a relocation, as a finding.
fn low_at(input: &Input, k: u32, u: &Relocation) -> Option<Found<ItemFault>>
    requires { k < section_count input.now }
    ensures { result ≡ low_at input.now k u.now }
{
    if is_wrong_low(input, k, u) {
        Some(found_at(k, u.offset, ItemFault::BadPair(k, u.offset)))
    } else {
        None
    }
}

/// The nearest low part without its high part in the section with this index.
fn low_in(input: &Input, k: u32) -> Option<Found<ItemFault>>
    requires { k < section_count input.now }
    ensures { result ≡ low_in input.now k }
{
    nearest(input.section(k).uses(), |u| low_at(input, k, &u))
}

/// The nearest of both in the section with this index.
pub(crate) fn bad_pair_in(input: &Input, k: u32) -> Option<Found<ItemFault>>
    requires { k < section_count input.now }
    ensures { result ≡ bad_pair_in input.now k }
{
    nearer(auipc_in(input, k), low_in(input, k))
}
