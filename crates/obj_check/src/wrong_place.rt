ghost use Rattle.std.specs.Prelude.{◌≡◌, ◌<◌, true};
ghost use Rattle.obj_input.specs.Input.{is_code, section_count};
ghost use Rattle.obj_input.specs.Code.{word_count};
ghost use Rattle.obj_check.specs.WrongPlace.{fits_on, has_form, has_right_addend, is_i_form, is_lui_of, is_store, is_upper_form, is_wrong_place, pair_has_form, place_found, place_in, stands, stands_in_code, stands_in_data, width, word_has_form};

use crate::fault::{ItemFault, found_at};
use least::{Found, nearest};
use obj_input::{Input, RelocKind, Relocation, Section};
use rv_instr::{Instr, Reg, UpperOp};

/// Whether an instruction is of the I form with an immediate of 12 bits.
fn is_i_form(instr: Instr) -> bool
    ensures { result ≡ is_i_form instr }
{
    matches!(
        instr,
        Instr::Jalr(..) | Instr::Load(..) | Instr::Immediate(..)
    )
}

/// Whether an instruction is a store.
fn is_store(instr: Instr) -> bool
    ensures { result ≡ is_store instr }
{
    matches!(instr, Instr::Store(..))
}

/// Whether this is a LUI that writes a register.
fn is_lui_of(op: UpperOp, rd: Reg) -> bool
    ensures { result ≡ is_lui_of op rd }
{
    match op {
        UpperOp::Lui => rd.number() != 0,
        UpperOp::Auipc => false,
    }
}

/// Whether an instruction is a LUI that writes a register.
fn is_upper_form(instr: Instr) -> bool
    ensures { result ≡ is_upper_form instr }
{
    match instr {
        Instr::Upper(op, rd, _) => is_lui_of(op, rd),
        _ => false,
    }
}

/// Whether an instruction of one word has the form that a relocation of this kind asks for.
fn has_form(kind: RelocKind, instr: Instr) -> bool
    ensures { result ≡ has_form kind instr }
{
    match kind {
        RelocKind::BranchTarget => matches!(instr, Instr::Branch(..)),
        RelocKind::JalTarget => matches!(instr, Instr::Jal(..)),
        RelocKind::RelativeHigh | RelocKind::TableHigh => {
            matches!(instr, Instr::Upper(UpperOp::Auipc, _, _))
        }
        RelocKind::High => is_upper_form(instr),
        RelocKind::LowI | RelocKind::RelativeLowI => is_i_form(instr),
        RelocKind::LowS | RelocKind::RelativeLowS => is_store(instr),
        _ => false,
    }
}

/// Whether a pair, which is an AUIPC with a target, has the form that a relocation of this kind asks for.
fn pair_has_form(kind: RelocKind) -> bool
    ensures { result ≡ pair_has_form kind }
{
    matches!(
        kind,
        RelocKind::PairTarget | RelocKind::RelativeHigh | RelocKind::TableHigh
    )
}

/// Whether a word is an instruction of the form that a relocation of this kind asks for.
fn word_has_form(kind: RelocKind, instr: Option<Instr>) -> bool
    ensures { result ≡ word_has_form kind instr }
{
    match instr {
        Some(instr) => has_form(kind, instr),
        None => false,
    }
}

/// Whether the instruction that starts at the word of code with this index has the form that such a relocation asks for.
fn fits_on(section: &Section, index: u64, kind: RelocKind) -> bool
    requires code { is_code section.now ≡ true }
    requires below { index < word_count section.now }
    ensures { result ≡ fits_on section.now index kind }
{
    if section.is_pair(index) {
        pair_has_form(kind)
    } else {
        word_has_form(kind, section.instr(index))
    }
}

/// Whether a relocation stands on an instruction of its form, and alone.
fn stands_in_code(section: &Section, u: &Relocation) -> bool
    ensures { result ≡ stands_in_code section.now u.now }
{
    section.acting_at(u.offset).len() == 1
        && section.is_start(u.offset)
        && fits_on(section, u.offset / 4, u.kind())
}

/// How many bytes of data a relocation of this kind changes.
fn width(kind: RelocKind) -> u64
    ensures { result ≡ width kind }
{
    match kind {
        RelocKind::InData(patch) => patch.size() as u64,
        _ => 0,
    }
}

/// Whether a relocation stands on bytes that are in the file.
fn stands_in_data(section: &Section, u: &Relocation) -> bool
    ensures { result ≡ stands_in_data section.now u.now }
{
    !section.is_zeros()
        && !(u128::from(section.size()) < u128::from(u.offset) + u128::from(width(u.kind())))
}

/// Whether a relocation stands where it may.
fn stands(section: &Section, u: &Relocation) -> bool
    ensures { result ≡ stands section.now u.now }
{
    if section.is_code() {
        stands_in_code(section, u)
    } else {
        stands_in_data(section, u)
    }
}

/// Whether a relocation adds no number to the address of a slot of the table of addresses.
fn has_right_addend(u: &Relocation) -> bool
    ensures { result ≡ has_right_addend u.now }
{
    !u.kind().is_table_high() || u.addend == 0
}

/// Whether a relocation does something where it may not stand, or with an addend that it may not have.
fn is_wrong_place(section: &Section, u: &Relocation) -> bool
    ensures { result ≡ is_wrong_place section.now u.now }
{
    u.is_acting() && !(stands(section, u) && has_right_addend(u))
}

/// Such a relocation in the section with the index `k`, as a finding.
fn place_found(section: &Section, k: u32, u: &Relocation) -> Option<Found<ItemFault>>
    ensures { result ≡ place_found section.now k u.now }
{
    if is_wrong_place(section, u) {
        Some(found_at(k, u.offset, ItemFault::RelocPlace(k, u.offset)))
    } else {
        None
    }
}

/// The nearest of the section with this index.
pub(crate) fn place_in(input: &Input, k: u32) -> Option<Found<ItemFault>>
    requires { k < section_count input.now }
    ensures { result ≡ place_in input.now k }
{
    let section = input.section(k);
    nearest(section.uses(), |u| place_found(section, k, &u))
}
