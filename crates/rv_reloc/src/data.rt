ghost use Rattle.std.specs.Prelude.{◌≡◌, ◌≤◌, ◌++◌, OnOk, OnErr, IsTrue, IsFalse, length, drop};
ghost use Rattle.byteorder.specs.Endian.{little_bytes};
ghost use Rattle.rv_reloc.specs.Value.{low_bits};
ghost use Rattle.rv_reloc.specs.Data.{becomes, patched, size_of, takes};

use super::kinds::{DataPatch, RelocRange};
use byteorder::{ByteOrder, LittleEndian};

/// Applies a relocation to the data that begin with its place (RISC-V ELF psABI, "Relocations").
/// `RelocRange` comes from a 32-bit address alone.
pub fn patch_data(kind: DataPatch, bytes: &mut [u8], value: i128) -> Result<(), RelocRange>
    requires { size_of kind ≤ length bytes.old }
    ensures value { OnOk result (bytes.new ≡ patched kind value bytes.old) }
    ensures taken { OnOk result (IsTrue (takes kind value)) }
    ensures refused { OnErr result (IsFalse (takes kind value)) }
    ensures kept { OnErr result (bytes.new ≡ bytes.old) }
{
    if !is_taken(kind, value) {
        return Err(RelocRange);
    }
    let size = kind.size();
    let old = LittleEndian::read_uint(bytes, size);
    put(bytes, size, number(kind, value, old));
    Ok(())
}

/// Is the value in the relocation's range?
fn is_taken(kind: DataPatch, value: i128) -> bool
    ensures { result ≡ takes kind value }
{
    match kind {
        DataPatch::Abs32 => (-0x8000_0000..=0xffff_ffff).contains(&value),
        _ => true,
    }
}

/// The low 64 bits of the number that is to stand where `old` stands.
fn number(kind: DataPatch, value: i128, old: u64) -> u64
    ensures { result ≡ low_bits 64 (becomes kind value old) }
{
    let value = modulo(value);
    match kind {
        DataPatch::Abs32 | DataPatch::Abs64 => value,
        DataPatch::Add8 | DataPatch::Add16 | DataPatch::Add32 | DataPatch::Add64 => {
            old.wrapping_add(value)
        }
        DataPatch::Sub8 | DataPatch::Sub16 | DataPatch::Sub32 | DataPatch::Sub64 => {
            old.wrapping_sub(value)
        }
    }
}

/// A whole number modulo 2^64.
fn modulo(value: i128) -> u64
    ensures { result ≡ low_bits 64 value }
{
    value.rem_euclid(1 << 64) as u64
}

/// Puts the lowest `size` bytes of a number in front.
#[tactic(auto, using(crate::proofs::Bytes::first_bytes))]
fn put(bytes: &mut [u8], size: usize, number: u64)
    requires most { size ≤ 8 }
    requires room { size ≤ length bytes.old }
    ensures { bytes.new ≡ little_bytes size number ++ drop size bytes.old }
{
    bytes[..size].copy_from_slice(&number.to_le_bytes()[..size]);
}
