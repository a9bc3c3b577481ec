ghost use Rattle.std.specs.Prelude.{◌≡◌, ◌<◌, true, IfSome};
ghost use Rattle.obj_input.specs.Input.{is_code, section_count, section_of};
ghost use Rattle.obj_input.specs.Code.{word_count};
ghost use Rattle.obj_check.specs.BadTransfer.{bad_transfer_in, is_wrong_transfer, wrong_transfer};

use crate::fault::{ItemFault, found_at};
use crate::kind::kind_at;
use crate::target::{direct_at, goes_right};
use least::{Found, first_below_u64};
use obj_input::Input;

/// Whether a transfer that no unit does, or one that goes where it may not, starts at the word with this index of the
/// section `k`, which is code.
fn is_wrong_transfer(input: &Input, k: u32, index: u64) -> bool
    requires there { k < section_count input.now }
    requires code { is_code (section_of input.now k) ≡ true }
    requires below { index < word_count (section_of input.now k) }
    ensures { result ≡ is_wrong_transfer input.now k index }
{
    let section = input.section(k);
    !section.is_inside(index)
        && (kind_at(section, index).is_none()
            || !goes_right(input, k, index, direct_at(section, index)))
}

/// The first wrong transfer of the section with this index, if it is code.
fn wrong_transfer(input: &Input, k: u32) -> Option<u64>
    requires { k < section_count input.now }
    ensures value { result ≡ wrong_transfer input.now k }
    ensures below { IfSome result (λ index. index < word_count (section_of input.now k)) }
{
    if !input.is_code(k) {
        return None;
    }
    first_below_u64(
        input.section(k).word_count(),
        |index| is_wrong_transfer(input, k, index),
    )
}

/// The same, as a finding.
pub(crate) fn bad_transfer_in(input: &Input, k: u32) -> Option<Found<ItemFault>>
    requires { k < section_count input.now }
    ensures { result ≡ bad_transfer_in input.now k }
{
    let index = wrong_transfer(input, k)?;
    let offset = input.section(k).offset_of(index);
    Some(found_at(k, offset, ItemFault::BadTransfer(k, offset)))
}
