ghost use Rattle.std.specs.Prelude.{◌≡◌, ◌<◌};
ghost use Rattle.obj_input.specs.Input.{section_count};
ghost use Rattle.obj_check.specs.Undefined.{missing_among, missing_at, missing_in, missing_in_use, missing_symbol, undefined};

use crate::fault::ItemFault;
use least::{least_below, least_below_u64};
use obj_input::{Definition, Input, Relocation};

/// The number of a symbol that is defined nowhere.
fn missing_symbol(definition: Definition) -> Option<u64>
    ensures { result ≡ missing_symbol definition }
{
    match definition {
        Definition::Missing(number) => Some(number),
        _ => None,
    }
}

/// The number of the symbol that a relocation that does something names, if that is defined nowhere.
fn missing_in_use(u: &Relocation) -> Option<u64>
    ensures { result ≡ missing_in_use u.now }
{
    if u.is_acting() {
        missing_symbol(u.definition)
    } else {
        None
    }
}

/// The same of the relocation with this index.
fn missing_at(uses: &[Relocation], index: u64) -> Option<u64>
    ensures { result ≡ missing_at uses.now index }
{
    missing_in_use(uses.get(index as usize)?)
}

/// The least number of some relocations.
fn missing_among(uses: &[Relocation]) -> Option<u64>
    ensures { result ≡ missing_among uses.now }
{
    least_below_u64(uses.len() as u64, |index| missing_at(uses, index))
}

/// The least number of the relocations of the section with this index.
fn missing_in(input: &Input, k: u32) -> Option<u64>
    requires { k < section_count input.now }
    ensures { result ≡ missing_in input.now k }
{
    missing_among(input.section(k).uses())
}

/// The least number of a symbol that a relocation names and that is defined nowhere.
#[tactic(auto, unfolding(crate::specs::Undefined::undefined))]
pub(crate) fn undefined(input: &Input) -> Option<ItemFault>
    ensures { result ≡ undefined input.now }
{
    let number = least_below(input.section_count(), |k| missing_in(input, k))?;
    Some(ItemFault::Undefined(number))
}
