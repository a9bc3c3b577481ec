ghost use Rattle.std.specs.Prelude.{◌≡◌};

use crate::item::DataReloc;
use crate::packed::{value_in, value_words};
use rv_reloc::DataPatch;
use std::marker::Model;

/// A relocation of initialised data in 40 bytes.
#[derive(Drop)]
pub struct PackedReloc {
    low: u64,
    high: i64,
    at: u64,
    offset: u64,
    section: u32,
    patch: DataPatch,
    gate: bool,
}

impl Model for PackedReloc {
    ghost use Rattle.obj_program.specs.declared.item.DataReloc.{DataReloc};

    ghost Value = { DataReloc };

    ghost use Rattle.obj_program.specs.Packed.{value_in};

    ghost view = { λ r. record { section = r.section; at = r.at; offset = r.offset; patch = r.patch; value = value_in r.gate r.low r.high } };
}

impl PackedReloc {
    /// The relocation with these parts.
    #[tactic(auto, using(crate::proofs::Packing::packed_reloc))]
    pub fn of(reloc: DataReloc) -> PackedReloc
        ensures { result ≡ reloc }
    {
        let value = value_words(reloc.value);
        PackedReloc {
            low: value.low,
            high: value.high,
            at: reloc.at,
            offset: reloc.offset,
            section: reloc.section,
            patch: reloc.patch,
            gate: value.gate,
        }
    }

    /// Its parts.
    pub fn reloc(&self) -> DataReloc
        ensures { result ≡ self.now }
    {
        DataReloc {
            section: self.section,
            at: self.at,
            offset: self.offset,
            patch: self.patch,
            value: value_in(self.gate, self.low, self.high),
        }
    }
}
