//! The program that several objects are.

ghost use Rattle.std.specs.Prelude.{◌≡◌, [], map};
ghost use Rattle.cfi_harden.specs.Given.{joined};
ghost use Rattle.cfi_harden.specs.Joining.{AddsAll};
ghost use Rattle.cfi_harden.specs.Preparing.{Reads};

use obj_items::Join;
use obj_program::Items;
use refusals::Refusal;
use rv_word::End;
use std::alloc::Global;

/// Puts objects, one behind another, into a join that has none.
fn add_all<'a>(join: &mut Join<'a>, objects: &'a [Vec<u8>]) -> Result<(), End<Refusal>>
    requires { join.old ≡ [] }
    ensures { AddsAll (map (λ object. object.items) objects.now) result join.new }
{
    for object in objects {
        join.add(object.as_slice())?;
    }
    Ok(())
}

/// The program that several objects are, by the bytes of their files, or the first that stands against that.
#[tactic(auto, using(crate::proofs::Joining::not_added, crate::proofs::Joining::all_finished))]
pub fn joined_program<'a>(alloc: Global, objects: &'a [Vec<u8>]) -> Result<Items<'a>, End<Refusal>>
    ensures { Reads (joined (map (λ object. object.items) objects.now)) result }
{
    let mut join = Join::new(alloc);
    add_all(&mut join, objects)?;
    join.finish()
}
