ghost use Rattle.std.specs.Prelude.{◌≡◌, ◌<◌, ◌^◌, length, slice_get, Some, None};
ghost use Rattle.obj_input.specs.Input.{is_code, section_count, section_of};
ghost use Rattle.obj_input.specs.Code.{at_whole, is_place, is_start};

use crate::names::Names;
use crate::parts::{Block, Func};
use crate::section::Section;
use std::marker::Model;

/// All that is said of a program before its places are known.
#[derive(Drop)]
pub struct Input<'a> {
    sections: Vec<Section<'a>>,
    blocks: Vec<Block>,
    names: Names<'a>,
    funcs: Vec<Func>,
}

impl<'a> Model for Input<'a> {
    ghost use Rattle.std.specs.Prelude.{◌<◌, ◌^◌, length};
    ghost use Rattle.obj_input.specs.Input.{InputParts};
    ghost use Rattle.obj_input.specs.InOrder.{AreFew};

    ghost Value = { InputParts };

    ghost view = { λ i. record { sections = i.sections.items; blocks = i.blocks.items; names = i.names; funcs = i.funcs.items } };

    ghost invariant = { λ i. AreFew (length i.sections.items) (length i.blocks.items) };
}

impl<'a> Input<'a> {
    /// The input of these parts: the sections and blocks by their index, the names in the order in which they are looked
    /// for, and the functions in the order of their table.
    pub fn of(
        sections: Vec<Section<'a>>,
        blocks: Vec<Block>,
        names: Names<'a>,
        funcs: Vec<Func>,
    ) -> Input<'a>
        requires sections { length sections.items < 2 ^ 32 }
        requires blocks { length blocks.items < 2 ^ 60 }
        ensures { result ≡ record { sections = sections.entry.items; blocks = blocks.items; names = names.entry; funcs = funcs.items } }
    {
        Input {
            sections,
            blocks,
            names,
            funcs,
        }
    }

    /// How many sections there are.
    pub fn section_count(&self) -> u32
        ensures { result ≡ section_count self.now }
    {
        self.sections.len() as u32
    }

    /// The section with this index.
    pub fn section(&self, k: u32) -> &Section<'a>
        requires { k < section_count self.now }
        ensures { result.now ≡ section_of self.now k }
    {
        &self.sections[k as usize]
    }

    /// The common blocks.
    pub fn blocks(&self) -> &[Block]
        ensures value { result.now ≡ self.now.blocks }
        ensures few { length result.now < 2 ^ 60 }
    {
        self.blocks.as_slice()
    }

    /// The names in the order in which they are looked for.
    pub fn names(&self) -> &Names<'a>
        ensures { result.now ≡ self.now.names }
    {
        &self.names
    }

    /// The functions in code, in the order of their table.
    pub fn funcs(&self) -> &[Func]
        ensures { result.now ≡ self.now.funcs }
    {
        self.funcs.as_slice()
    }

    /// The sections by their index, the names, and the functions in code, in the order of their table; the blocks go.
    pub fn into_parts(self) -> (Vec<Section<'a>>, Names<'a>, Vec<Func>)
        ensures sections { result.0.items ≡ self.entry.sections }
        ensures few { length result.0.items < 2 ^ 32 }
        ensures names { result.1 ≡ self.entry.names }
        ensures funcs { result.2.items ≡ self.entry.funcs }
    {
        (self.sections, self.names, self.funcs)
    }

    /// Whether the section with this index is there and is code.
    pub fn is_code(&self, k: u32) -> bool
        ensures { result ≡ is_code (section_of self.now k) }
    {
        k < self.section_count() && self.section(k).is_code()
    }

    /// Whether an instruction of the section with this index starts at this whole number.
    pub fn is_start_at(&self, k: u32, at: i128) -> bool
        ensures { result ≡ at_whole (is_start (section_of self.now k)) at }
    {
        k < self.section_count() && self.section(k).is_start_at(at)
    }

    /// Whether this whole number is a place of the section with this index.
    pub fn is_place_at(&self, k: u32, at: i128) -> bool
        ensures { result ≡ at_whole (is_place (section_of self.now k)) at }
    {
        k < self.section_count() && self.section(k).is_place_at(at)
    }
}
