ghost use Rattle.std.specs.Prelude.{◌≡◌, IfOk};
ghost use Rattle.obj_items.specs.FitCode.{HasFitCode};
ghost use Rattle.obj_items.specs.FromObject.{input_of};

use elf_object::Object;
use obj_input::Input;
use obj_link::own_input;
use rv_word::NoMemory;
use std::alloc::Global;

/// The input that an object is. It borrows the bytes of the object's file.
#[tactic(auto, unfolding(crate::specs::FromObject::input_of))]
pub fn input_of<'a>(alloc: Global, object: &Object<'a>) -> Result<Input<'a>, NoMemory>
    ensures { IfOk result (λ i. i ≡ input_of object.now) }
{
    let input = own_input(alloc, object)?;
    Ok(input)
}

/// The code of an object is whole words, in sections whose indices have 16 bits.
pub(crate) fn code_fits(object: &Object)
    ensures { HasFitCode (input_of object.now) }
{
    let _sections = object.sections();
}
