ghost use Rattle.std.specs.Prelude.{◌≡◌, ℕ, None, IfOk, [], map};
ghost use Rattle.obj_input.specs.DataLayout.{data_layout_of};
ghost use Rattle.obj_check.specs.Fault.{fault_of};
ghost use Rattle.obj_program.specs.MapFit.{FitsMaps};
ghost use Rattle.obj_program.specs.Program.{AreInOrder, place_of};
ghost use Rattle.obj_program.specs.Sound.{IsSound};
ghost use Rattle.obj_items.specs.Contents.{AreContents};
ghost use Rattle.obj_items.specs.FitCode.{HasFitCode};
ghost use Rattle.obj_items.specs.FromObject.{input_of};
ghost use Rattle.obj_items.specs.Told.{IsTold};
ghost use Rattle.obj_items.specs.Links.{item_with};
ghost use Rattle.obj_items.specs.Outline.{outline};
ghost use Rattle.obj_items.specs.ProgramOf.{program_of};

use crate::bare::bare;
use crate::from_object::{code_fits, input_of};
use crate::init::init;
use crate::links::linked_places;
use crate::outline::{outline, room};
use crate::ranges::program_is_sound;
use crate::relocs::relocs;
use crate::taken::taken;
use elf_object::Object;
use obj_check::{ItemFault, fault_of};
use obj_input::{DataLayout, Input};
use obj_program::{InitialData, Items, PackedItem};
use rv_word::{End, NoMemory};
use std::alloc::Global;

/// What a program holds beside the symbols of its input and the relocations of data.
#[derive(Drop)]
struct Held<'a> {
    items: Vec<PackedItem>,
    init: InitialData<'a>,
    data_end: u128,
}

/// The places of an input, which are these, with what relocations make of them.
fn with_links(
    alloc: Global,
    input: &Input,
    layout: &DataLayout,
    places: Vec<PackedItem>,
) -> Result<Vec<PackedItem>, NoMemory>
    requires layout { layout.now ≡ data_layout_of input.now }
    requires places { places.items ≡ outline input.now }
    requires order { AreInOrder places.items }
    requires sound { IsSound (program_of input.now) }
    ensures value { IfOk result (λ v. v.items ≡ map (item_with input.now (outline input.now)) (outline input.now)) }
    ensures found { IfOk result (λ v. (section offset : ℕ) → place_of v.items section offset ≡ place_of (outline input.now) section offset) }
    ensures order { IfOk result (λ v. AreInOrder v.items) }
{
    let marks = taken(alloc, input, &places)?;
    Ok(linked_places(input, layout, places, &marks))
}

/// What the program of an input holds, whose places these are.
fn contents<'a>(
    alloc: Global,
    input: &Input<'a>,
    layout: &DataLayout,
    places: Vec<PackedItem>,
) -> Result<Held<'a>, NoMemory>
    requires layout { layout.now ≡ data_layout_of input.now }
    requires places { places.items ≡ outline input.now }
    requires order { AreInOrder places.items }
    requires sound { IsSound (program_of input.now) }
    ensures { IfOk result (AreContents input.now) }
{
    let items = with_links(alloc, input, layout, places)?;
    let init = init(alloc, input, layout)?;
    Ok(Held {
        items,
        init,
        data_end: layout.data_end(),
    })
}

/// What the program of an input without a fault holds.
fn contents_of<'a>(
    alloc: Global,
    input: &Input<'a>,
    room: Vec<PackedItem>,
) -> Result<Held<'a>, NoMemory>
    requires right { fault_of input.now ≡ None }
    requires fit { HasFitCode input.now }
    requires room { room.items ≡ [] }
    ensures contents { IfOk result (AreContents input.now) }
    ensures sound { IfOk result (λ _. IsSound (program_of input.now)) }
    ensures fits { IfOk result (λ _. FitsMaps (program_of input.now)) }
{
    let layout = DataLayout::of(alloc, input)?;
    let places = outline(room, input)?;
    program_is_sound(input, &places);
    contents(alloc, input, &layout, places)
}

/// The program of an input without a fault, whose places are put where there are none. What the input says of the
/// relocations of a section is let go when those of data are listed.
fn program_of<'a>(
    alloc: Global,
    input: Input<'a>,
    room: Vec<PackedItem>,
) -> Result<Items<'a>, NoMemory>
    requires right { fault_of input ≡ None }
    requires fit { HasFitCode input }
    requires room { room.items ≡ [] }
    ensures { IfOk result (λ p. p ≡ program_of input.entry) }
{
    let contents = contents_of(alloc, &input, room)?;
    let bare = bare(alloc, &input)?;
    let (sections, names, funcs) = input.into_parts();
    let relocations = relocs(alloc, sections, &bare, &contents.items)?;
    let Held {
        items,
        init,
        data_end,
    } = contents;
    Ok(Items::of(items, init, relocations, data_end, funcs, names))
}

/// The program of an input, where nothing is wrong with its instructions and relocations; else what is wrong: the first of
/// eight tests that fails anywhere, at its least section and offset. Room for all places is asked for before the tests, so
/// that an input whose sections of code share bytes, and have more places than there is room for, costs no time.
pub fn items_of<'a>(alloc: Global, input: Input<'a>) -> Result<Items<'a>, End<ItemFault>>
    requires { HasFitCode input }
    ensures { IsTold input.entry result }
{
    let room = room(alloc, &input)?;
    match fault_of(&input) {
        Some(fault) => Err(End::Fault(fault)),
        None => Ok(program_of(alloc, input, room)?),
    }
}

/// The program that an object is by itself, or what is wrong with its instructions and relocations. It borrows the object's
/// names and its data.
pub fn items<'a>(alloc: Global, object: &Object<'a>) -> Result<Items<'a>, End<ItemFault>>
    ensures { IsTold (input_of object.now) result }
{
    let input = input_of(alloc, object)?;
    code_fits(object);
    items_of(alloc, input)
}
