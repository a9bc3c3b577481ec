//! The table of the functions' addresses.

ghost use Rattle.std.specs.Prelude.{◌≡◌, ◌<◌, ◌^◌, IfOk, replicate};
ghost use Rattle.cfi_gen.specs.Demo.{table_bytes, table_relocs};

use crate::constants::{FIRST_SYMBOL, TABLE_SIZE};
use elf_tables::Reloc;
use rv_reloc::types::R_RISCV_64;
use std::alloc::{AllocError, Global};

/// So many zeros.
fn zeros(alloc: Global, count: usize) -> Result<Vec<u8>, AllocError>
    ensures { IfOk result (λ zeros. zeros.items ≡ replicate count 0) }
{
    let mut zeros = Vec::new(alloc);
    zeros.resize(count, 0)?;
    Ok(zeros)
}

/// The bytes of the table of addresses, before relocation.
#[tactic(auto, unfolding(crate::specs::Demo::table_bytes))]
pub(crate) fn table_bytes(alloc: Global) -> Result<Vec<u8>, AllocError>
    ensures { IfOk result (λ table. table.items ≡ table_bytes) }
{
    zeros(alloc, TABLE_SIZE as usize)
}

/// The relocations that give the addresses of so many functions.
pub(crate) fn table_relocs(alloc: Global, count: u16) -> Result<Vec<Reloc>, AllocError>
    ensures { IfOk result (λ relocs. relocs.items ≡ table_relocs count 0) }
{
    let mut relocs = Vec::new(alloc);
    for i in 0..count {
        relocs.push(Reloc {
            offset: 8 * u64::from(i),
            symbol: u32::from(i) + FIRST_SYMBOL,
            kind: R_RISCV_64,
            addend: 0,
        })?;
    }
    Ok(relocs)
}
