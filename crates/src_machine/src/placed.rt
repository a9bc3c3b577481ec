ghost use Rattle.std.specs.Prelude.{◌≡◌, ◌<◌, ◌≤◌, ◌^◌, true, false, IfOk, IfSome, Some, is_some, length, option_and_then, slice_index};
ghost use Rattle.rv_image.specs.Form.{graph_version, profile_for};
ghost use Rattle.obj_program.specs.DataAtMap.{data_at, init_size};
ghost use Rattle.obj_program.specs.MapFit.{EndsLast};
ghost use Rattle.obj_program.specs.Program.{count, is_end, item_of};
ghost use Rattle.obj_program.specs.Sound.{IsSound};
ghost use Rattle.cfi_graph.specs.Graph.{has_leaves};
ghost use Rattle.cfi_map.specs.GraphAtMap.{gate, word};
ghost use Rattle.cfi_map.specs.Source.{instr_here};
ghost use Rattle.cfi_map.specs.Untame.{if_reached, place_with_gate};

use cfi_map::Mapped;
use obj_program::Item;
use rv_code::decode;
use rv_image::{Form, GraphVersion};
use rv_instr::Instr;
use rv_word::{NoMemory, Numbers};
use std::alloc::Global;
use std::marker::Model;

/// A program at a legal map, and the words of its instructions with the values of their relocations.
#[derive(Drop)]
pub(crate) struct Placed<'a, 'b> {
    pub(crate) mapped: Mapped<'a, 'b>,
    pub(crate) code: Vec<u32>,
}

impl<'a, 'b> Model for Placed<'a, 'b> {
    ghost use Rattle.cfi_map.specs.GraphAtMap.{ProgramAtMap};
    ghost use Rattle.src_machine.specs.Placed.{HoldsItsWords};

    ghost Value = { ProgramAtMap };

    ghost view = { λ p. p.mapped };

    ghost invariant = { λ p. HoldsItsWords p.mapped p.code.items };
}

/// The word of the place with this index.
fn word_at(code: &[u32], k: u64) -> u32
    requires { k < length code.now }
    ensures { result ≡ slice_index code.now k }
{
    code[k as usize]
}

impl<'a, 'b> Placed<'a, 'b> {
    /// How many places the program has.
    pub(crate) fn count(&self) -> u64
        ensures value { result ≡ count self.now.program }
        ensures gates { length self.now.gates ≡ count self.now.program }
        ensures sound { IsSound self.now.program }
        ensures last { EndsLast self.now.program }
        ensures entry { self.now.entry < count self.now.program }
    {
        self.mapped.count()
    }

    /// The form in which it is written.
    pub(crate) fn form(&self) -> Form
        ensures profile { self.now.profile ≡ profile_for result }
        ensures version { self.now.closed.version ≡ graph_version result }
    {
        self.mapped.form()
    }

    /// How many sides its closed graph has.
    pub(crate) fn sides(&self) -> u64
        ensures value { result ≡ length self.now.closed.sides }
        ensures few { result ≤ 2 }
    {
        self.mapped.closed().sides().len() as u64
    }

    /// Whether the base of a store is masked alone, where its offset is its own and not negative.
    pub(crate) fn has_short_masks(&self) -> bool
        ensures { result ≡ has_leaves self.now.closed.version }
    {
        self.mapped.closed().version() == GraphVersion::CalleeSaves
    }

    /// The numbers of the system calls that it may make, where it has a list of them.
    pub(crate) fn calls(&self) -> Option<Numbers>
        ensures { result ≡ self.now.closed.calls }
    {
        self.mapped.closed().calls()
    }

    /// The address to which it returns at its end.
    pub(crate) fn closing(&self) -> u64
        ensures value { result ≡ self.now.profile.closing }
        ensures near { result < 2 ^ 63 }
    {
        self.form().closing()
    }

    /// The place where it is entered.
    pub(crate) fn entry(&self) -> u64
        ensures { result ≡ self.now.entry }
    {
        self.mapped.entry()
    }

    /// The initialised data, with the values of their relocations where they are in range.
    pub(crate) fn data(&self, alloc: Global) -> Result<Vec<u8>, NoMemory>
        requires { is_some (data_at self.now.program self.now.gates) ≡ true }
        ensures value { IfOk result (λ v. data_at self.now.program self.now.gates ≡ Some v.items) }
        ensures length { IfOk result (λ v. length v.items ≡ init_size self.now.program) }
    {
        self.mapped.data(alloc)
    }

    /// The place with this index.
    pub(crate) fn item(&self, k: u64) -> Item
        requires { k < count self.now.program }
        ensures { result ≡ item_of self.now.program k }
    {
        self.mapped.item(k)
    }

    /// The gate of a place.
    pub(crate) fn gate(&self, k: u64) -> u64
        requires { k < count self.now.program }
        ensures { result ≡ gate self.now k }
    {
        self.mapped.gate(k)
    }

    /// The word of a place.
    pub(crate) fn word(&self, k: u64) -> u64
        requires { k < count self.now.program }
        ensures value { result ≡ word self.now k }
        ensures near { result < 2 ^ 63 }
    {
        self.mapped.word(k)
    }

    /// The instruction of a place, with the values of its relocations.
    pub(crate) fn instr(&self, k: u64) -> Instr
        requires place { k < count self.now.program }
        requires instruction { is_end (item_of self.now.program k).kind ≡ false }
        ensures { result ≡ instr_here self.now k }
    {
        decode(word_at(&self.code, k)).unwrap()
    }

    /// The place with this gate, where the site at the place `k` may go to it.
    pub(crate) fn place_reached(&self, k: u64, address: u64) -> Option<u64>
        ensures value { result ≡ option_and_then (if_reached self.now.closed k) (place_with_gate self.now.gates address) }
        ensures there { IfSome result (λ target. target < count self.now.program) }
    {
        let target = self.mapped.place_with_gate(address)?;
        if self.mapped.closed().reaches(k, target) {
            Some(target)
        } else {
            None
        }
    }
}
