ghost use Rattle.std.specs.Prelude.{◌≡◌, ℕ, true, false, length, slice_get, Some, None, OnOk, OnErr, IfOk, IfErr};
ghost use Rattle.std.specs.List.{fold, list_all};
ghost use Rattle.obj_program.specs.declared.item.DataReloc.{DataReloc};
ghost use Rattle.obj_program.specs.DataAtMap.{data_at, init_size, is_in_range, with_reloc};
ghost use Rattle.obj_program.specs.Program.{count};
ghost use Rattle.obj_program.specs.Sound.{is_there};

use crate::at_map::value_at;
use crate::item::DataReloc;
use crate::items::Items;
use crate::packed_reloc::PackedReloc;
use rv_reloc::{RelocRange, patch_data};
use rv_word::End;
use std::alloc::Global;

impl<'a> Items<'a> {
    ghost use Rattle.rv_word.specs.End.{OnFault};

    /// The initialised data where the places' gates, which are addresses, are these. A fault comes where a value leaves
    /// the range of its relocation (RISC-V ELF psABI, "Relocations").
    #[tactic(auto, unfolding(crate::specs::DataAtMap::data_at))]
    pub fn data_at(&self, alloc: Global, gates: &[u64]) -> Result<Vec<u8>, End<RelocRange>>
        requires { length gates.now ≡ count self.now }
        ensures value { IfOk result (λ v. data_at self.now gates.now ≡ Some v.items) }
        ensures length { IfOk result (λ v. length v.items ≡ init_size self.now) }
        ensures refused { IfErr result (OnFault (λ _. data_at self.now gates.now ≡ None)) }
    {
        let mut bytes = self.init().copied(alloc)?;
        apply_all(bytes.as_mut_slice(), gates, self.relocations()).map_err(End::Fault)?;
        Ok(bytes)
    }
}

/// Applies a relocation to the data in which it lies.
fn apply(bytes: &mut [u8], gates: &[u64], reloc: DataReloc) -> Result<(), RelocRange>
    requires { is_there (length bytes.old) (length gates.now) reloc ≡ true }
    ensures value { OnOk result (bytes.new ≡ with_reloc gates.now bytes.old reloc) }
    ensures taken { OnOk result (is_in_range gates.now reloc ≡ true) }
    ensures refused { OnErr result (is_in_range gates.now reloc ≡ false) }
{
    let value = value_at(gates, reloc.value);
    patch_data(reloc.patch, &mut bytes[reloc.offset as usize..], value)
}

/// The same of one that is packed.
fn apply_packed(bytes: &mut [u8], gates: &[u64], reloc: &PackedReloc) -> Result<(), RelocRange>
    requires { is_there (length bytes.old) (length gates.now) reloc.now ≡ true }
    ensures value { OnOk result (bytes.new ≡ with_reloc gates.now bytes.old reloc.now) }
    ensures taken { OnOk result (is_in_range gates.now reloc.now ≡ true) }
    ensures refused { OnErr result (is_in_range gates.now reloc.now ≡ false) }
{
    apply(bytes, gates, reloc.reloc())
}

/// Applies relocations in their order.
fn apply_all(bytes: &mut [u8], gates: &[u64], relocs: &[PackedReloc]) -> Result<(), RelocRange>
    requires { (j : ℕ) (r : DataReloc) → slice_get relocs.now j ≡ Some r → is_there (length bytes.old) (length gates.now) r ≡ true }
    ensures value { OnOk result (bytes.new ≡ fold (with_reloc gates.now) bytes.old relocs.now) }
    ensures taken { OnOk result (list_all (is_in_range gates.now) relocs.now ≡ true) }
    ensures refused { OnErr result (list_all (is_in_range gates.now) relocs.now ≡ false) }
{
    for reloc in relocs {
        apply_packed(bytes, gates, reloc)?;
    }
    Ok(())
}
