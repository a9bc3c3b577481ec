//! The program of objects at a map, as `compare` needs it, or why there is none.

ghost use Rattle.std.specs.Prelude.{◌≡◌, MatchResult, Ok, Some, option_copied};
ghost use Rattle.rv_image.specs.Form.{graph_version};
ghost use Rattle.cfi_flow.specs.Entry.{entry_place};
ghost use Rattle.cfi_flow.specs.Policy.{instruction_at};
ghost use Rattle.cfi_harden.specs.Given.{Given};
ghost use Rattle.cfi_harden.specs.Room.{HasDataRoom};
ghost use Rattle.cfi_harden.specs.Prepared.{IsPrepared};
ghost use Rattle.cfi_harden.specs.Preparing.{Reads};
ghost use Rattle.cfi_harden.specs.Request.{Request};
ghost use Rattle.src_machine.specs.Beginning.{Ends};
ghost use Rattle.tool_objects.specs.Compare.{IsRoomy};
ghost use Rattle.tool_objects.specs.Comparing.{IsRoomyEnd};
ghost use Rattle.tool_objects.specs.Demonstration.{IsSourceOn};

use cfi_harden::{Prepared, has_data_room, prepare_program};
use cfi_map_text::Map;
use obj_program::Items;
use refusals::Refusal;
use rv_image::Form;
use rv_word::End;
use src_machine::{SourceFault, SourceRun};
use std::alloc::Global;

/// A prepared program, if its data have room.
fn with_room<'a, 'b>(prepared: Prepared<'a, 'b>) -> Result<Prepared<'a, 'b>, End<Refusal>>
    ensures { (request : Request) → IsPrepared request prepared.entry → MatchResult result (IsRoomy request) (IsRoomyEnd request) }
{
    if has_data_room(prepared.items) {
        return Ok(prepared);
    }
    let extent = prepared.items.data_extent();
    Err(End::Fault(Refusal::DataTooLarge(extent.init, extent.end)))
}

/// A program, prepared as it is run at a map of a form.
fn prepared<'a, 'b>(
    alloc: Global,
    form: Form,
    items: &'a Items<'b>,
    entry: &str,
    policy: Option<&[u8]>,
) -> Result<Prepared<'a, 'b>, End<Refusal>>
    ensures { (given : Given) → Reads given (Ok items.now)
        → MatchResult result (IsPrepared (record { form = form; given = given; entry = entry.now; policy = option_copied policy.entry }))
        (IsRoomyEnd (record { form = form; given = given; entry = entry.now; policy = option_copied policy.entry })) }
{
    prepare_program(alloc, form, items, entry, policy)
}

/// A program, as it is run at a map of a form, if its data have room.
pub(crate) fn roomy<'a, 'b>(
    alloc: Global,
    form: Form,
    items: &'a Items<'b>,
    entry: &str,
    policy: Option<&[u8]>,
) -> Result<Prepared<'a, 'b>, End<Refusal>>
    ensures { (given : Given) → Reads given (Ok items.now)
        → MatchResult result (IsRoomy (record { form = form; given = given; entry = entry.now; policy = option_copied policy.entry }))
        (IsRoomyEnd (record { form = form; given = given; entry = entry.now; policy = option_copied policy.entry })) }
{
    let prepared = prepared(alloc, form, items, entry, policy)?;
    with_room(prepared)
}

/// The section and the offset of the entry.
fn spot_of(prepared: &Prepared, entry: &str) -> (u32, u64)
    requires { entry_place prepared.now.program entry.now ≡ Some prepared.now.entry }
    ensures { instruction_at prepared.now.program (result.0, result.1) ≡ Some prepared.now.entry }
{
    prepared.items.find(entry.as_bytes()).unwrap()
}

/// A program at a map, from its start.
#[tactic(auto, using(crate::proofs::Sources::data_fits))]
pub(crate) fn source_on<'a, 'b>(
    alloc: Global,
    prepared: &'a Prepared<'a, 'b>,
    entry: &str,
    map: &Map,
    input: &[u8],
) -> Result<SourceRun<'a, 'b>, End<SourceFault>>
    requires version { prepared.now.closed.version ≡ graph_version map.now.form }
    requires room { HasDataRoom prepared.now.program }
    requires entry { entry_place prepared.now.program entry.now ≡ Some prepared.now.entry }
    ensures { MatchResult result (IsSourceOn prepared.now map.now input.now) (Ends prepared.now.program prepared.now.closed prepared.now.entry map.now) }
{
    let spot = spot_of(prepared, entry);
    SourceRun::new(alloc, prepared.items, &prepared.closed, map, spot, input)
}
