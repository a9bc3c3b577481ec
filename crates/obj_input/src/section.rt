ghost use Rattle.std.specs.Prelude.{◌≡◌, ◌++◌, [], true, length, replicate, IfOk};
ghost use Rattle.obj_input.specs.Input.{acting_at, has_bytes, is_code, is_data_sort, is_zeros_sort};
ghost use Rattle.obj_input.specs.InOrder.{IsAllLent, is_high_use, is_pair_use};
ghost use Rattle.obj_input.specs.declared.parts.Sort.TheVariants.{Data};
ghost use Rattle.std.specs.List.{list_any};

use crate::offsets::Offsets;
use crate::parts::{Relocation, Sort};
use crate::search::{
    acting_unless, are_in_order, by_offset, high_offsets, pair_offsets, standing_at,
};
use rv_word::NoMemory;
use std::alloc::Global;
use std::marker::Model;

/// A section with its relocations. Those that do something are found by their offset in a few steps: they are kept once
/// where the table has no others and is in the order of their offsets, and else twice.
#[derive(Drop)]
pub struct Section<'a> {
    sort: Sort,
    size: u64,
    align: u64,
    lent: &'a [u8],
    zeros: u64,
    uses: Vec<Relocation>,
    in_order: bool,
    acting: Vec<Relocation>,
    pairs: Offsets,
    highs: Offsets,
}

impl<'a> Model for Section<'a> {
    ghost use Rattle.std.specs.Prelude.{◌++◌, replicate};
    ghost use Rattle.obj_input.specs.Input.{SectionParts};
    ghost use Rattle.obj_input.specs.InOrder.{IsAllLent, IsKept, by_offset};

    ghost Value = { SectionParts };

    ghost view = { λ s. record { sort = s.sort; size = s.size; align = s.align; content = s.lent.now ++ replicate s.zeros 0; uses = s.uses.items } };

    ghost invariant = { λ s. IsAllLent s.sort s.zeros × IsKept (record { sort = s.sort; size = s.size; align = s.align; content = s.lent.now ++ replicate s.zeros 0; uses = s.uses.items }) (by_offset s.in_order s.uses.items s.acting.items) s.pairs s.highs };
}

impl<'a> Section<'a> {
    /// The section of these parts; `uses` are its relocations in the order of their table. Code and data have all their
    /// bytes, and the others none that count.
    pub fn of(
        alloc: Global,
        sort: Sort,
        size: u64,
        align: u64,
        content: &'a [u8],
        uses: Vec<Relocation>,
    ) -> Result<Section<'a>, NoMemory>
        requires { has_bytes sort ≡ true → length content.now ≡ size }
        ensures { IfOk result (λ s. s ≡ record { sort = sort; size = size; align = align; content = content.now; uses = uses.items }) }
    {
        let section = Section::of_bytes(alloc, sort, size, align, content, 0, uses)?;
        Ok(section)
    }

    /// The section of these parts, whose bytes are those that are lent and so many zeros.
    fn of_bytes(
        alloc: Global,
        sort: Sort,
        size: u64,
        align: u64,
        lent: &'a [u8],
        zeros: u64,
        uses: Vec<Relocation>,
    ) -> Result<Section<'a>, NoMemory>
        requires lent { IsAllLent sort zeros }
        requires whole { has_bytes sort ≡ true → length (lent.now ++ replicate zeros 0) ≡ size }
        ensures { IfOk result (λ s. s ≡ record { sort = sort; size = size; align = align; content = lent.now ++ replicate zeros 0; uses = uses.items }) }
    {
        let in_order = are_in_order(&uses);
        let acting = acting_unless(alloc, in_order, &uses)?;
        let pairs = pair_offsets(alloc, &uses)?;
        let highs = high_offsets(alloc, &uses)?;
        Ok(Section {
            sort,
            size,
            align,
            lent,
            zeros,
            uses,
            in_order,
            acting,
            pairs,
            highs,
        })
    }

    /// The section of data with this many bytes, which are zero and in no file; `uses` are its relocations in order.
    pub fn of_zeros(
        alloc: Global,
        size: u64,
        align: u64,
        uses: Vec<Relocation>,
    ) -> Result<Section<'a>, NoMemory>
        ensures { IfOk result (λ s. s ≡ record { sort = Data; size = size; align = align; content = replicate size 0; uses = uses.items }) }
    {
        let section = Section::of_bytes(alloc, Sort::Data, size, align, &[], size, uses)?;
        Ok(section)
    }

    /// The same section without its relocations.
    pub fn without_uses(&self, alloc: Global) -> Result<Section<'a>, NoMemory>
        ensures { IfOk result (λ s. s ≡ record { sort = self.now.sort; size = self.now.size; align = self.now.align; content = self.now.content; uses = [] }) }
    {
        let uses = Vec::new(alloc);
        let section = Section::of_bytes(
            alloc, self.sort, self.size, self.align, self.lent, self.zeros, uses,
        )?;
        Ok(section)
    }

    /// What it holds.
    pub fn sort(&self) -> Sort
        ensures { result ≡ self.now.sort }
    {
        self.sort
    }

    /// Whether it holds instructions.
    pub fn is_code(&self) -> bool
        ensures { result ≡ is_code self.now }
    {
        self.sort == Sort::Code
    }

    /// Whether it holds bytes that are in the file, and no instructions.
    pub fn is_data(&self) -> bool
        ensures { result ≡ is_data_sort self.now.sort }
    {
        self.sort == Sort::Data
    }

    /// Whether its bytes are not in the file.
    pub fn is_zeros(&self) -> bool
        ensures { result ≡ is_zeros_sort self.now.sort }
    {
        self.sort == Sort::Zeros
    }

    /// How many bytes it has.
    pub fn size(&self) -> u64
        ensures { result ≡ self.now.size }
    {
        self.size
    }

    /// What its address is to be a multiple of; 0 is 1.
    pub fn align(&self) -> u64
        ensures { result ≡ self.now.align }
    {
        self.align
    }

    /// Its bytes: those that are lent, and how many zeros are behind them. Code and data have all.
    pub fn bytes(&self) -> (&'a [u8], u64)
        ensures value { self.now.content ≡ result.0.now ++ replicate result.1 0 }
        ensures whole { has_bytes self.now.sort ≡ true → length self.now.content ≡ self.now.size }
    {
        (self.lent, self.zeros)
    }

    /// The bytes of code.
    pub(crate) fn code(&self) -> &'a [u8]
        requires { is_code self.now ≡ true }
        ensures value { result.now ≡ self.now.content }
        ensures whole { length result.now ≡ self.now.size }
    {
        self.lent
    }

    /// Its relocations in the order of their table.
    pub fn uses(&self) -> &[Relocation]
        ensures { result.now ≡ self.now.uses }
    {
        self.uses.as_slice()
    }

    /// The relocations that do something at this offset, in the order of their table.
    pub fn acting_at(&self, offset: u64) -> &[Relocation]
        ensures { result.now ≡ acting_at self.now offset }
    {
        standing_at(by_offset(self.in_order, &self.uses, &self.acting), offset)
    }

    /// Whether one that names the target of a pair stands at this offset.
    pub(crate) fn has_pair_use(&self, offset: u64) -> bool
        ensures { result ≡ list_any is_pair_use (acting_at self.now offset) }
    {
        self.pairs.has(offset)
    }

    /// Whether one that is the high part of a distance stands at this offset.
    pub(crate) fn has_high_use(&self, offset: u64) -> bool
        ensures { result ≡ list_any is_high_use (acting_at self.now offset) }
    {
        self.highs.has(offset)
    }
}
