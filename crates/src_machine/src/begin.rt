//! A program at a map, made ready to run.

ghost use Rattle.std.specs.Prelude.{◌≡◌, ◌<◌, ◌≤◌, ◌+◌, ◌^◌, ℕ, List, None, Some, true, false, IfOk, IfErr, MatchResult, is_some, length, slice_index};
ghost use Rattle.rv_image.specs.Form.{graph_version};
ghost use Rattle.rv_image.specs.MemoryMap.{DATA_END, DATA_START, profile_of};
ghost use Rattle.rv_code.specs.SameMachine.{IsSameMachine};
ghost use Rattle.rv_code.specs.Decode.{decoded};
ghost use Rattle.obj_program.specs.DataAtMap.{init_size};
ghost use Rattle.obj_program.specs.Program.{count, is_end, item_of};
ghost use Rattle.cfi_map.specs.LegalMap.{IsLegalMap, gates_of};
ghost use Rattle.cfi_flow.specs.Policy.{instruction_at};
ghost use Rattle.src_machine.specs.Beginning.{Ends, IsBegun};
ghost use Rattle.src_machine.specs.Placed.{AreAt, AreRead};
ghost use Rattle.cfi_map.specs.GraphAtMap.{program_at};
ghost use Rattle.cfi_map.specs.Source.{first_astray, instr_here, source_start};
ghost use Rattle.src_machine.specs.State.{source_in};

use crate::legal::check_map;
use crate::placed::Placed;
use crate::run::SourceRun;
use crate::source_fault::SourceFault;
use crate::state::State;
use cfi_closed::Closed;
use cfi_leads::Leads;
use cfi_map::Mapped;
use cfi_map_text::{Map, MapLine};
use obj_input::ItemKind;
use obj_program::Items;
use rv_code::encode;
use rv_word::{End, NoMemory};
use std::alloc::Global;

/// The gates of a map's lines.
fn gates(alloc: Global, lines: &[MapLine]) -> Result<Vec<u64>, NoMemory>
    ensures { IfOk result (λ v. v.items ≡ gates_of lines.now) }
{
    let gates = lines.iter().map(|line| line.gate).collect(alloc)?;
    Ok(gates)
}

/// The word of an instruction with the value of its relocation; 0 at the end of a section.
fn word_of(mapped: &Mapped, k: u64) -> u32
    requires place { k < count mapped.now.program }
    requires range { first_astray mapped.now ≡ None }
    ensures { is_end (item_of mapped.now.program k).kind ≡ false → decoded result ≡ Some (instr_here mapped.now k) }
{
    if mapped.item(k).kind == ItemKind::End {
        0
    } else {
        encode(mapped.instr(k))
    }
}

/// The same of all places.
fn code(alloc: Global, mapped: &Mapped) -> Result<Vec<u32>, NoMemory>
    requires { first_astray mapped.now ≡ None }
    ensures { IfOk result (λ v. AreRead mapped.now (count mapped.now.program) v.items) }
{
    let mut code = Vec::new(alloc);
    for k in 0..mapped.count() {
        code.push(word_of(mapped, k))?;
    }
    Ok(code)
}

/// A program at a legal map, with the place where it is entered.
fn mapped<'a, 'b>(
    alloc: Global,
    leads: Leads<'a, 'b>,
    map: &Map,
) -> Result<Mapped<'a, 'b>, NoMemory>
    requires version { leads.closed.version ≡ graph_version map.now.form }
    requires legal { IsLegalMap leads.program leads.closed leads.entry map.now }
    requires entry { leads.entry < count leads.program }
    ensures { IfOk result (λ m. m ≡ program_at map.now.form leads.entry.program leads.entry.closed (gates_of map.now.lines) leads.entry.entry) }
{
    let gates = gates(alloc, map.as_slice())?;
    Mapped::of(alloc, map.form(), leads, gates)
}

/// The same with the words of its instructions.
fn placed<'a, 'b>(
    alloc: Global,
    leads: Leads<'a, 'b>,
    map: &Map,
) -> Result<Placed<'a, 'b>, End<SourceFault>>
    requires version { leads.closed.version ≡ graph_version map.now.form }
    requires legal { IsLegalMap leads.program leads.closed leads.entry map.now }
    requires entry { leads.entry < count leads.program }
    ensures { MatchResult result
        (λ p. AreAt leads.entry.program leads.entry.closed map.now leads.entry.entry p)
        (λ e. Ends leads.entry.program leads.entry.closed leads.entry.entry map.now e) }
{
    let mapped = mapped(alloc, leads, map)?;
    if let Some(place) = mapped.out_of_range() {
        return Err(End::Fault(SourceFault::RelocRange(place.section, place.offset)));
    }
    let code = code(alloc, &mapped)?;
    Ok(Placed { mapped, code })
}

/// The state in which a placed program starts.
fn start(alloc: Global, placed: &Placed, input: &[u8]) -> Result<State, NoMemory>
    requires range { first_astray placed.now ≡ None }
    requires data { DATA_START + init_size placed.now.program ≤ DATA_END }
    ensures state { IfOk result (λ st. source_in st ≡ source_start placed.now input.now) }
    ensures version { IfOk result (λ st. IsSameMachine (profile_of st.processor.memory.version) placed.now.profile) }
{
    let _count = placed.count();
    let init = placed.data(alloc)?;
    State::new(alloc, placed.form(), placed.entry(), &init, input)
}

/// The place with a section and an offset, in bytes.
fn place_of(items: &Items, section: u32, offset: u64) -> u64
    requires { is_some (instruction_at items.now (section, offset)) ≡ true }
    ensures value { instruction_at items.now (section, offset) ≡ Some result }
    ensures there { result < count items.now }
{
    items.place_of(section, offset).unwrap()
}

impl<'a, 'b> SourceRun<'a, 'b> {
    /// A run of a program at a map, which starts at the instruction with this section and offset, in bytes; the input is
    /// copied. The closed graph is that of the program for the form of the map.
    pub fn new(
        alloc: Global,
        items: &'a Items<'b>,
        closed: &'a Closed,
        map: &Map,
        entry: (u32, u64),
        input: &[u8],
    ) -> Result<SourceRun<'a, 'b>, End<SourceFault>>
        requires version { closed.now.version ≡ graph_version map.now.form }
        requires entry { is_some (instruction_at items.now (entry.0, entry.1)) ≡ true }
        requires data { DATA_START + init_size items.now ≤ DATA_END }
        ensures { (place : ℕ) → instruction_at items.now (entry.0, entry.1) ≡ Some place → MatchResult result
            (λ run. IsBegun items.now closed.now place map.now input.now run)
            (λ e. Ends items.now closed.now place map.now e) }
    {
        let entry = place_of(items, entry.0, entry.1);
        let leads = Leads::of(alloc, items, closed, entry)?;
        check_map(alloc, &leads, map)?;
        let placed = placed(alloc, leads, map)?;
        let state = start(alloc, &placed, input)?;
        Ok(SourceRun {
            placed,
            state,
            steps: 0,
        })
    }
}
