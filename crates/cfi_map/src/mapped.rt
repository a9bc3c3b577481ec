//! A program at a map.

ghost use Rattle.std.specs.Prelude.{◌≡◌, ◌<◌, ◌≤◌, ◌^◌, ℕ, true, false, IfOk, IfSome, Some, is_some, length, slice_index};
ghost use Rattle.std.specs.List.Sorted.{IsStrictlyIncreasing};
ghost use Rattle.rv_image.specs.Form.{graph_version, profile_for};
ghost use Rattle.rv_image.specs.MemoryMap.{IsProfile};
ghost use Rattle.obj_program.specs.AtMap.{instr_at};
ghost use Rattle.obj_program.specs.DataAtMap.{data_at, init_size};
ghost use Rattle.obj_program.specs.MapFit.{EndsLast};
ghost use Rattle.obj_program.specs.Program.{count, is_end, item_of};
ghost use Rattle.obj_program.specs.Sound.{IsSound};
ghost use Rattle.cfi_graph.specs.Graph.{has_leaves};
ghost use Rattle.cfi_leads.specs.Leads.{enters};
ghost use Rattle.cfi_map.specs.GraphAtMap.{arrival, arrival_by, entered_in, gate, program_at, word, words_at};
ghost use Rattle.cfi_map.specs.Placement.{words_from};
ghost use Rattle.cfi_map.specs.Source.{first_astray, instr_here};
ghost use Rattle.cfi_map.specs.Untame.{place_with_gate};

use cfi_closed::Closed;
use cfi_leads::Leads;
use least::Place;
use obj_program::{Item, Items};
use rv_image::unit_words::ENTER_WORDS;
use rv_image::{Form, GraphVersion};
use rv_instr::Instr;
use rv_word::{End, NoMemory};
use std::alloc::Global;
use std::marker::Model;

/// A program with its closed graph at a map, entered at one of its places. The gate of a place is the address that pointers to it
/// have; its word is the address of its unit, behind the words before that.
#[derive(Drop)]
pub struct Mapped<'a, 'b> {
    form: Form,
    leads: Leads<'a, 'b>,
    gates: Vec<u64>,
    words: Vec<u64>,
}

impl<'a, 'b> Model for Mapped<'a, 'b> {
    ghost use Rattle.cfi_map.specs.GraphAtMap.{ProgramAtMap, program_at};
    ghost use Rattle.cfi_map.specs.Mapped.{IsMapped};

    ghost Value = { ProgramAtMap };

    ghost view = { λ m. program_at m.form m.leads.program m.leads.closed m.gates.items m.leads.entry };

    ghost invariant = { λ m. IsMapped m.form (program_at m.form m.leads.program m.leads.closed m.gates.items m.leads.entry) m.words.items };
}

/// The words of places with these gates.
fn words_behind(alloc: Global, leads: &Leads, gates: &[u64]) -> Result<Vec<u64>, NoMemory>
    requires near { (k : ℕ) → slice_index gates.now k < 2 ^ 32 }
    requires counted { length gates.now ≡ count leads.now.program }
    ensures { IfOk result (λ v. v.items ≡ words_from leads.now 0 gates.now) }
{
    let mut words = Vec::new(alloc);
    for k in 0..gates.len() {
        words.push(gates[k] + u64::from(leads.size(k as u64)))?;
    }
    Ok(words)
}

/// The gate of the place with this index.
fn gate_at(gates: &[u64], k: u64) -> u64
    requires { k < length gates.now }
    ensures { result ≡ slice_index gates.now k }
{
    gates[k as usize]
}

/// How many gates are below an address.
fn count_below(gates: &[u64], address: u64) -> usize
    requires { IsStrictlyIncreasing gates.now }
    ensures bound { result ≤ length gates.now }
    ensures before { (k : ℕ) → k < result → slice_index gates.now k < address }
    ensures from { (k : ℕ) → result ≤ k → k < length gates.now → address ≤ slice_index gates.now k }
{
    gates.partition_point(|gate| *gate < address)
}

/// The place with a gate.
fn place_with_gate(gates: &[u64], address: u64) -> Option<u64>
    requires { IsStrictlyIncreasing gates.now }
    ensures value { result ≡ place_with_gate gates.now address }
    ensures there { IfSome result (λ k. k < length gates.now) }
{
    let k = count_below(gates, address);
    if k < gates.len() && gates[k] == address {
        Some(k as u64)
    } else {
        None
    }
}

impl<'a, 'b> Mapped<'a, 'b> {
    /// The program in a form at these gates of its places.
    pub fn of(
        alloc: Global,
        form: Form,
        leads: Leads<'a, 'b>,
        gates: Vec<u64>,
    ) -> Result<Mapped<'a, 'b>, NoMemory>
        requires version { leads.closed.version ≡ graph_version form }
        requires counted { length gates.items ≡ count leads.program }
        requires near { (k : ℕ) → slice_index gates.items k < 2 ^ 32 }
        requires rising { IsStrictlyIncreasing gates.items }
        requires entry { leads.entry < count leads.program }
        ensures { IfOk result (λ m. m ≡ program_at form leads.entry.program leads.entry.closed gates.items leads.entry.entry) }
    {
        let words = words_behind(alloc, &leads, gates.as_slice())?;
        Ok(Mapped {
            form,
            leads,
            gates,
            words,
        })
    }

    /// How many places the program has.
    pub fn count(&self) -> u64
        ensures value { result ≡ count self.now.program }
        ensures gates { length self.now.gates ≡ count self.now.program }
        ensures words { length (words_at self.now) ≡ count self.now.program }
        ensures near { (k : ℕ) → gate self.now k < 2 ^ 32 }
        ensures sound { IsSound self.now.program }
        ensures last { EndsLast self.now.program }
        ensures entry { self.now.entry < count self.now.program }
        ensures profile { IsProfile self.now.profile }
    {
        let items = self.leads.items();
        items.fits_maps();
        items.count()
    }

    /// The form in which it is written: the only one for images of its profile and for graphs of its closed graph's version.
    pub fn form(&self) -> Form
        ensures profile { self.now.profile ≡ profile_for result }
        ensures version { self.now.closed.version ≡ graph_version result }
    {
        self.form
    }

    /// The program.
    pub fn items(&self) -> &'a Items<'b>
        ensures { result.now ≡ self.now.program }
    {
        self.leads.items()
    }

    /// Its closed graph.
    pub fn closed(&self) -> &'a Closed
        ensures { result.now ≡ self.now.closed }
    {
        self.leads.closed()
    }

    /// The place where it is entered.
    pub fn entry(&self) -> u64
        ensures { result ≡ self.now.entry }
    {
        self.leads.entry()
    }

    /// The program without its gates, with what stands before the units of its places.
    pub fn leads(&self) -> &Leads<'a, 'b>
        ensures { result.now ≡ entered_in self.now }
    {
        &self.leads
    }

    /// The gates of its places.
    pub fn gates(&self) -> &[u64]
        ensures { result.now ≡ self.now.gates }
    {
        self.gates.as_slice()
    }

    /// The words of its places.
    pub fn words(&self) -> &[u64]
        ensures { result.now ≡ words_at self.now }
    {
        self.words.as_slice()
    }

    /// The place with this index.
    pub fn item(&self, k: u64) -> Item
        requires { k < count self.now.program }
        ensures { result ≡ item_of self.now.program k }
    {
        self.items().item(k)
    }

    /// The gate of a place.
    pub fn gate(&self, k: u64) -> u64
        requires { k < count self.now.program }
        ensures { result ≡ gate self.now k }
    {
        gate_at(&self.gates, k)
    }

    /// The word of a place.
    pub fn word(&self, k: u64) -> u64
        requires { k < count self.now.program }
        ensures value { result ≡ word self.now k }
        ensures near { result < 2 ^ 33 }
    {
        let _count = self.count();
        self.gate(k) + u64::from(self.leads.size(k))
    }

    /// Where calls arrive at a place where callees save sites.
    fn lean_arrival(&self, k: u64) -> u64
        requires place { k < count self.now.program }
        requires lean { has_leaves self.now.closed.version ≡ true }
        ensures value { result ≡ arrival_by GraphVersion.CalleeSaves (enters (entered_in self.now) k) (gate self.now k) (word self.now k) }
        ensures near { result < 2 ^ 33 }
    {
        if self.leads.enters(k) {
            self.word(k) - u64::from(4 * ENTER_WORDS)
        } else {
            self.word(k)
        }
    }

    /// Where calls arrive at a place: at its gate; where callees save sites, at what does so, or else at its unit.
    pub fn arrival(&self, k: u64) -> u64
        requires place { k < count self.now.program }
        ensures value { result ≡ arrival self.now k }
        ensures near { result < 2 ^ 33 }
    {
        let _count = self.count();
        match self.closed().version() {
            GraphVersion::OneLabel | GraphVersion::TwoLabels => self.gate(k),
            GraphVersion::CalleeSaves => self.lean_arrival(k),
        }
    }

    /// The instruction of a place, with the values of its relocations where they are in range; a section's end has none.
    pub fn instr(&self, k: u64) -> Instr
        requires place { k < count self.now.program }
        requires instruction { is_end (item_of self.now.program k).kind ≡ false }
        requires range { is_some (instr_at self.now.program self.now.gates (words_at self.now) k) ≡ true }
        ensures { result ≡ instr_here self.now k }
    {
        let _count = self.count();
        self.items()
            .instr_at(k, self.gates(), self.words())
            .unwrap()
    }

    /// Where a value first leaves the range of its relocation.
    pub fn out_of_range(&self) -> Option<Place>
        ensures { result ≡ first_astray self.now }
    {
        let _count = self.count();
        self.items().out_of_range(self.gates(), self.words())
    }

    /// The initialised data, with the values of their relocations where they are in range.
    pub fn data(&self, alloc: Global) -> Result<Vec<u8>, NoMemory>
        requires { is_some (data_at self.now.program self.now.gates) ≡ true }
        ensures value { IfOk result (λ v. data_at self.now.program self.now.gates ≡ Some v.items) }
        ensures length { IfOk result (λ v. length v.items ≡ init_size self.now.program) }
    {
        let _count = self.count();
        match self.items().data_at(alloc, self.gates()) {
            Ok(data) => Ok(data),
            Err(End::Fault(_)) => unreachable!(),
            Err(End::NoMemory) => Err(NoMemory),
        }
    }

    /// The place with a gate, if one has it.
    pub fn place_with_gate(&self, address: u64) -> Option<u64>
        ensures value { result ≡ place_with_gate self.now.gates address }
        ensures there { IfSome result (λ k. k < count self.now.program) }
    {
        let _count = self.count();
        place_with_gate(&self.gates, address)
    }
}
