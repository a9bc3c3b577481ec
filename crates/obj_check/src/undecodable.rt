ghost use Rattle.std.specs.Prelude.{◌≡◌, ◌<◌, true, IfSome};
ghost use Rattle.obj_input.specs.Input.{is_code, section_count};
ghost use Rattle.obj_input.specs.Code.{word_count};
ghost use Rattle.obj_check.specs.Undecodable.{is_undecodable, undecodable_in, undecodable_word};

use crate::fault::{ItemFault, found_at};
use least::{Found, first_below_u64};
use obj_input::{Input, Section};

/// Whether the word of code with this index is no instruction.
fn is_undecodable(section: &Section, index: u64) -> bool
    requires { is_code section.now ≡ true }
    ensures { result ≡ is_undecodable section.now index }
{
    section.instr(index).is_none()
}

/// The first word of code that is no instruction.
fn undecodable_word(section: &Section) -> Option<u64>
    ensures value { result ≡ undecodable_word section.now }
    ensures code { IfSome result (λ index. is_code section.now ≡ true) }
    ensures below { IfSome result (λ index. index < word_count section.now) }
{
    if !section.is_code() {
        return None;
    }
    first_below_u64(section.word_count(), |index| is_undecodable(section, index))
}

/// The first word of the section with this index that is no instruction, if it is code.
pub(crate) fn undecodable_in(input: &Input, k: u32) -> Option<Found<ItemFault>>
    requires { k < section_count input.now }
    ensures { result ≡ undecodable_in input.now k }
{
    let section = input.section(k);
    let index = undecodable_word(section)?;
    let offset = section.offset_of(index);
    let word = section.word(index);
    Some(found_at(k, offset, ItemFault::Undecodable(k, offset, word)))
}
