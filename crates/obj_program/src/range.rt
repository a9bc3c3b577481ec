//! Where a value first leaves the range of its relocation.

ghost use Rattle.std.specs.Prelude.{◌≡◌, ◌<◌, ℕ, true, Some, length, slice_get};
ghost use Rattle.std.specs.List.{filter_map};
ghost use Rattle.least.specs.Nearest.{nearest};
ghost use Rattle.obj_program.specs.declared.item.DataReloc.{DataReloc};
ghost use Rattle.obj_program.specs.DataAtMap.{is_in_range};
ghost use Rattle.obj_program.specs.Program.{count};
ghost use Rattle.obj_program.specs.Range.{first_instr, first_reloc, found_at, is_astray, out_of_range, place_found, reloc_astray};
ghost use Rattle.obj_program.specs.Sound.{is_value};

use crate::at_map::{instr_at, value_at};
use crate::item::DataReloc;
use crate::items::Items;
use crate::packed_reloc::PackedReloc;
use least::{Found, Place, first_below_u64, nearer};
use obj_input::ItemKind;
use rv_reloc::patch_data;

impl<'a> Items<'a> {
    /// The section and the offset where a value leaves the range of its relocation first, for these gates and words: at an
    /// instruction that is given none, or at a relocation of initialised data.
    #[tactic(auto, unfolding(crate::specs::Range::out_of_range))]
    pub fn out_of_range(&self, gates: &[u64], words: &[u64]) -> Option<Place>
        requires gates { length gates.now ≡ count self.now }
        requires words { length words.now ≡ count self.now }
        ensures { result ≡ out_of_range self.now gates.now words.now }
    {
        let instr = first_instr(self, gates, words);
        let reloc = first_reloc(gates, self.relocations());
        nearer(instr, reloc).map(|found| found.place)
    }
}

/// What is found at a section and an offset.
fn found_at(section: u32, offset: u64) -> Found<()>
    ensures { result ≡ found_at section offset }
{
    Found {
        place: Place { section, offset },
        what: (),
    }
}

/// Whether the place with this index is an instruction that has no value at a map.
fn is_astray(items: &Items, gates: &[u64], words: &[u64], k: u64) -> bool
    requires place { k < count items.now }
    requires gates { length gates.now ≡ count items.now }
    requires words { length words.now ≡ count items.now }
    ensures { result ≡ is_astray items.now gates.now words.now k }
{
    !matches!(items.item(k).kind, ItemKind::End) && instr_at(items, gates, words, k).is_err()
}

/// The first such instruction.
fn first_instr(items: &Items, gates: &[u64], words: &[u64]) -> Option<Found<()>>
    requires gates { length gates.now ≡ count items.now }
    requires words { length words.now ≡ count items.now }
    ensures { result ≡ first_instr items.now gates.now words.now }
{
    let k = first_below_u64(items.count(), |k| is_astray(items, gates, words, k))?;
    let item = items.item(k);
    Some(found_at(item.section, item.offset))
}

/// Whether a relocation takes its value; it is tried on bytes of its own.
#[tactic(auto, using(crate::proofs::Ranges::sizes))]
fn is_in_range(gates: &[u64], reloc: DataReloc) -> bool
    requires { is_value (length gates.now) reloc.value ≡ true }
    ensures { result ≡ is_in_range gates.now reloc }
{
    let mut bytes = [0; 8];
    patch_data(reloc.patch, &mut bytes, value_at(gates, reloc.value)).is_ok()
}

/// A relocation of data whose value leaves its range.
fn reloc_astray(gates: &[u64], reloc: &PackedReloc) -> Option<Found<()>>
    requires { is_value (length gates.now) reloc.now.value ≡ true }
    ensures { result ≡ reloc_astray gates.now reloc.now }
{
    astray(gates, reloc.reloc())
}

/// The same of one whose parts are these.
fn astray(gates: &[u64], reloc: DataReloc) -> Option<Found<()>>
    requires { is_value (length gates.now) reloc.value ≡ true }
    ensures { result ≡ reloc_astray gates.now reloc }
{
    if is_in_range(gates, reloc) {
        None
    } else {
        Some(found_at(reloc.section, reloc.at))
    }
}

/// The nearest such relocation.
fn first_reloc(gates: &[u64], relocs: &[PackedReloc]) -> Option<Found<()>>
    requires { (j : ℕ) (r : DataReloc) → slice_get relocs.now j ≡ Some r → is_value (length gates.now) r.value ≡ true }
    ensures { result ≡ nearest place_found (filter_map (reloc_astray gates.now) relocs.now) }
{
    let mut least = None;
    for reloc in relocs {
        least = nearer(least, reloc_astray(gates, reloc));
    }
    least
}
