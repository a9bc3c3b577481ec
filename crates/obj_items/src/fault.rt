ghost use Rattle.std.specs.Prelude.{◌≡◌, IfOk};
ghost use Rattle.obj_check.specs.Fault.{fault_of};
ghost use Rattle.obj_items.specs.FromObject.{input_of};

use crate::from_object::input_of;
use elf_object::Object;
use obj_check::{ItemFault, fault_of};
use rv_word::NoMemory;
use std::alloc::Global;

/// What is wrong with the instructions and relocations of an object.
pub fn fault_in(alloc: Global, object: &Object) -> Result<Option<ItemFault>, NoMemory>
    ensures { IfOk result (λ r. r ≡ fault_of (input_of object.now)) }
{
    let input = input_of(alloc, object)?;
    Ok(fault_of(&input))
}
