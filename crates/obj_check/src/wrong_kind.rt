ghost use Rattle.std.specs.Prelude.{◌≡◌, ◌<◌};
ghost use Rattle.obj_input.specs.Input.{section_count};
ghost use Rattle.obj_check.specs.WrongKind.{is_for_code, is_for_data, is_wrong_kind, kind_in, kind_found};

use crate::fault::{ItemFault, found_at};
use least::{Found, nearest};
use obj_input::{Input, RelocKind, Relocation, Section};

/// Whether code takes relocations of this kind.
fn is_for_code(kind: RelocKind) -> bool
    ensures { result ≡ is_for_code kind }
{
    !matches!(kind, RelocKind::InData(_) | RelocKind::Unknown)
}

/// Whether data take relocations of this kind.
fn is_for_data(kind: RelocKind) -> bool
    ensures { result ≡ is_for_data kind }
{
    matches!(kind, RelocKind::Nothing | RelocKind::InData(_))
}

/// Whether a relocation is of a kind that its section does not take.
fn is_wrong_kind(section: &Section, u: &Relocation) -> bool
    ensures { result ≡ is_wrong_kind section.now u.now }
{
    if section.is_code() {
        !is_for_code(u.kind())
    } else {
        !is_for_data(u.kind())
    }
}

/// Such a relocation in the section with the index `k`, as a finding.
fn kind_found(section: &Section, k: u32, u: &Relocation) -> Option<Found<ItemFault>>
    ensures { result ≡ kind_found section.now k u.now }
{
    if is_wrong_kind(section, u) {
        Some(found_at(k, u.offset, ItemFault::RelocKind(k, u.offset, u.number)))
    } else {
        None
    }
}

/// The nearest of the section with this index.
pub(crate) fn kind_in(input: &Input, k: u32) -> Option<Found<ItemFault>>
    requires { k < section_count input.now }
    ensures { result ≡ kind_in input.now k }
{
    let section = input.section(k);
    nearest(section.uses(), |u| kind_found(section, k, &u))
}
