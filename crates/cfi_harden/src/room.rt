//! Whether data and code have room.

ghost use Rattle.std.specs.Prelude.{◌≡◌, ◌↔◌, ◌<◌, IsTrue};
ghost use Rattle.rv_image.specs.Form.{graph_version};
ghost use Rattle.obj_program.specs.Program.{count};
ghost use Rattle.cfi_harden.specs.Placing.{FitsOr};
ghost use Rattle.cfi_harden.specs.Room.{HasDataRoom};

use crate::prepared::Prepared;
use cfi_map::{Spacing, place_program};
use obj_program::Items;
use refusals::Refusal;
use rv_word::End;
use std::alloc::Global;

/// How many bytes of initialised data an image has room for, and the address before which data end: there the stack's room
/// begins.
pub const INIT_ROOM: u128 = 1 << 25;

pub const DATA_ROOM: u128 = 0x0ff0_0000;

/// Whether the data of a program have room.
pub fn has_data_room(items: &Items) -> bool
    ensures { IsTrue result ↔ HasDataRoom items.now }
{
    let extent = items.data_extent();
    extent.init <= INIT_ROOM && extent.end <= DATA_ROOM
}

/// A placement of a prepared program in which its data have room and no value leaves its range.
pub(crate) fn spaced_in_room<'a, 'b>(
    alloc: Global,
    prepared: &'a Prepared<'a, 'b>,
) -> Result<Spacing<'a, 'b>, End<Refusal>>
    requires version { prepared.now.closed.version ≡ graph_version prepared.now.form }
    requires entry { prepared.now.entry < count prepared.now.program }
    ensures { FitsOr prepared.now result }
{
    let items = prepared.items;
    let spacing = match place_program(
        alloc,
        prepared.form,
        items,
        &prepared.closed,
        prepared.entry,
    ) {
        Ok(spacing) => spacing,
        Err(End::Fault(large)) => return Err(End::Fault(Refusal::CodeTooLarge(large.bytes))),
        Err(End::NoMemory) => return Err(End::NoMemory),
    };
    if !has_data_room(items) {
        let extent = items.data_extent();
        return Err(End::Fault(Refusal::DataTooLarge(extent.init, extent.end)));
    }
    if let Some(place) = spacing.mapped().out_of_range() {
        return Err(End::Fault(Refusal::RelocRange(place.section, place.offset)));
    }
    Ok(spacing)
}
