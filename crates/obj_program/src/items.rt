ghost use Rattle.std.specs.Prelude.{◌≡◌, ◌<◌, length, slice_get, Some, true};
ghost use Rattle.obj_input.specs.Names.{find_spot};
ghost use Rattle.obj_program.specs.DataAtMap.{init_size};
ghost use Rattle.obj_program.specs.MapFit.{FitsMaps};
ghost use Rattle.obj_program.specs.Program.{count, item_of, place_of};
ghost use Rattle.obj_program.specs.Sound.{IsSound, is_patch};

use crate::initial_data::InitialData;
use crate::item::{Item, Patch};
use crate::packed::PackedItem;
use crate::packed_reloc::PackedReloc;
use crate::place::place_in;
use obj_input::{Func, Names};
use std::marker::Model;

/// How far data reach.
#[derive(Clone, Copy)]
pub struct Extent {
    /// How many bytes initialised data have, from `DATA_START` on.
    pub init: u128,
    /// The address where data end, those without bytes in the file among them.
    pub end: u128,
}

/// A program. Names and initialised data are borrowed from the object's file.
#[derive(Drop)]
pub struct Items<'a> {
    items: Vec<PackedItem>,
    init: InitialData<'a>,
    relocations: Vec<PackedReloc>,
    data_end: u128,
    funcs: Vec<Func>,
    names: Names<'a>,
}

impl<'a> Model for Items<'a> {
    ghost use Rattle.obj_program.specs.Program.{Program};
    ghost use Rattle.obj_program.specs.Sound.{IsSound};
    ghost use Rattle.obj_program.specs.MapFit.{FitsMaps};

    ghost Value = { Program };

    ghost view = { λ p. record { items = p.items.items; init = p.init; relocations = p.relocations.items; data_end = p.data_end; funcs = p.funcs.items; names = p.names } };

    ghost invariant = { λ p. IsSound (record { items = p.items.items; init = p.init; relocations = p.relocations.items; data_end = p.data_end; funcs = p.funcs.items; names = p.names })
        × FitsMaps (record { items = p.items.items; init = p.init; relocations = p.relocations.items; data_end = p.data_end; funcs = p.funcs.items; names = p.names }) };
}

impl<'a> Items<'a> {
    /// The program of these parts.
    pub fn of(
        items: Vec<PackedItem>,
        init: InitialData<'a>,
        relocations: Vec<PackedReloc>,
        data_end: u128,
        funcs: Vec<Func>,
        names: Names<'a>,
    ) -> Items<'a>
        requires sound { IsSound (record { items = items.items; init = init; relocations = relocations.items; data_end = data_end; funcs = funcs.items; names = names }) }
        requires fits { FitsMaps (record { items = items.items; init = init; relocations = relocations.items; data_end = data_end; funcs = funcs.items; names = names }) }
        ensures { result ≡ record { items = items.items; init = init.entry; relocations = relocations.items; data_end = data_end; funcs = funcs.items; names = names.entry } }
    {
        Items {
            items,
            init,
            relocations,
            data_end,
            funcs,
            names,
        }
    }

    /// How many places there are.
    pub fn count(&self) -> u64
        ensures value { result ≡ count self.now }
        ensures sound { IsSound self.now }
    {
        self.items.len() as u64
    }

    /// What a map asks of the program. Nothing is computed.
    pub fn fits_maps(&self)
        ensures { FitsMaps self.now }
    {
        let _items = &self.items;
    }

    /// The places in their order: sections by index, offsets rising.
    pub fn places(&self) -> &[PackedItem]
        ensures value { result.now ≡ self.now.items }
        ensures sound { IsSound self.now }
    {
        self.items.as_slice()
    }

    /// The place with this index.
    pub fn item(&self, k: u64) -> Item
        requires { k < count self.now }
        ensures { result ≡ item_of self.now k }
    {
        self.items[k as usize].item()
    }

    /// The initialised data before relocations.
    pub(crate) fn init(&self) -> &InitialData<'a>
        ensures { result.now ≡ self.now.init }
    {
        &self.init
    }

    /// The relocations of initialised data.
    pub(crate) fn relocations(&self) -> &[PackedReloc]
        ensures value { result.now ≡ self.now.relocations }
        ensures sound { IsSound self.now }
    {
        self.relocations.as_slice()
    }

    /// How far data reach.
    pub fn data_extent(&self) -> Extent
        ensures init { result.init ≡ init_size self.now }
        ensures end { result.end ≡ self.now.data_end }
    {
        Extent {
            init: self.init.len(),
            end: self.data_end,
        }
    }

    /// The patch of the place with this index. What it refers to is there.
    pub(crate) fn patch(&self, k: u64) -> Patch
        requires { k < count self.now }
        ensures value { result ≡ (item_of self.now k).patch }
        ensures there { is_patch self.now result ≡ true }
    {
        let _count = self.count();
        self.item(k).patch
    }

    /// Whether a relocation takes the address of the instruction with this index.
    pub fn pointed(&self, k: u64) -> bool
        requires { k < count self.now }
        ensures { result ≡ (item_of self.now k).taken }
    {
        self.item(k).taken
    }

    /// How many symbols of functions in code there are.
    pub fn funcs(&self) -> u64
        ensures { result ≡ length self.now.funcs }
    {
        self.funcs.len() as u64
    }

    /// The function with this index, in the order of the symbol table.
    pub fn func(&self, j: u64) -> Func
        requires { j < length self.now.funcs }
        ensures { slice_get self.now.funcs j ≡ Some result }
    {
        self.funcs[j as usize]
    }

    /// The index of the place with this section and offset, in bytes.
    pub fn place_of(&self, section: u32, offset: u64) -> Option<u64>
        ensures { result ≡ place_of self.now.items section offset }
    {
        place_in(&self.items, section, offset)
    }

    /// Where the first symbol of this name stands: the index of its section and its offset there, in bytes; none where no
    /// symbol has the name, or where that symbol stands in no section that is kept.
    pub fn find(&self, name: &[u8]) -> Option<(u32, u64)>
        ensures { result ≡ find_spot self.now.names name.now }
    {
        self.names.find(name)
    }
}
