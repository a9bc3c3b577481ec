ghost use Rattle.std.specs.Prelude.{◌≡◌, ◌<◌, ◌||◌, true, IfSome};
ghost use Rattle.obj_input.specs.Input.{is_code, section_count};
ghost use Rattle.obj_input.specs.Code.{word_count};
ghost use Rattle.obj_check.specs.Reserved.{is_reserved_at, is_reserved_name, names_reserved, reserved_in, reserved_word, some_reserved};

use crate::fault::{ItemFault, found_at};
use least::{Found, first_below_u64};
use obj_input::{Input, Section};
use rv_instr::{Instr, Reg};

/// Whether the register of this number is reserved and named.
fn is_reserved_name(instr: &Instr, number: u32) -> bool
    requires { number < 32 }
    ensures { result ≡ is_reserved_name instr.now number }
{
    let reg = Reg::of(number);
    reg.is_reserved() && instr.names(reg)
}

/// Whether an instruction names one of the four registers that are reserved.
fn names_one_of_four(instr: &Instr) -> bool
    ensures { result ≡ (((is_reserved_name instr.now 3 || is_reserved_name instr.now 4) || is_reserved_name instr.now 30) || is_reserved_name instr.now 31) }
{
    is_reserved_name(instr, 3)
        || is_reserved_name(instr, 4)
        || is_reserved_name(instr, 30)
        || is_reserved_name(instr, 31)
}

/// Whether an instruction names a reserved register.
fn some_reserved(instr: &Instr) -> bool
    ensures { result ≡ some_reserved instr.now }
{
    names_one_of_four(instr)
}

/// Whether a word is an instruction that names a reserved register.
fn names_reserved(instr: Option<Instr>) -> bool
    ensures { result ≡ names_reserved instr }
{
    match instr {
        Some(instr) => some_reserved(&instr),
        None => false,
    }
}

/// Whether an instruction starts at the word of code with this index and names a reserved register.
fn is_reserved_at(section: &Section, index: u64) -> bool
    requires code { is_code section.now ≡ true }
    requires below { index < word_count section.now }
    ensures { result ≡ is_reserved_at section.now index }
{
    !section.is_inside(index)
        && (names_reserved(section.instr(index))
            || section.is_pair(index) && names_reserved(section.instr_after(index)))
}

/// The first instruction of a section of code that names a reserved register.
fn reserved_word(section: &Section) -> Option<u64>
    ensures value { result ≡ reserved_word section.now }
    ensures below { IfSome result (λ index. index < word_count section.now) }
{
    if !section.is_code() {
        return None;
    }
    first_below_u64(section.word_count(), |index| is_reserved_at(section, index))
}

/// The same in the section with this index, as a finding.
pub(crate) fn reserved_in(input: &Input, k: u32) -> Option<Found<ItemFault>>
    requires { k < section_count input.now }
    ensures { result ≡ reserved_in input.now k }
{
    let section = input.section(k);
    let index = reserved_word(section)?;
    let offset = section.offset_of(index);
    Some(found_at(k, offset, ItemFault::ReservedRegister(k, offset)))
}
