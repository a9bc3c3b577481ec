ghost use Rattle.std.specs.Prelude.{◌≡◌, ◌+◌, ◌*◌, ◌++◌, IfOk, OnOk, length};
ghost use Rattle.std.specs.Int.{to_le_bytes, w32};
ghost use Rattle.std.specs.List.{flat_map};

use crate::units::{PROLOGUE, PROLOGUE_OF_HARTS, PROLOGUE_OF_HARTS_LEAN, PROLOGUE_OF_LEAN};
use std::alloc::{AllocError, Global};

/// Adds the bytes of some words.
pub fn add_words(bytes: &mut Vec<u8>, words: &[u32]) -> Result<(), AllocError>
    ensures value { OnOk result (bytes.new.items ≡ bytes.old.items ++ flat_map (to_le_bytes w32) words.now) }
    ensures len { OnOk result (length bytes.new.items ≡ length bytes.old.items + 4 * length words.now) }
{
    for word in words {
        bytes.extend_from_slice(&word.to_le_bytes())?;
    }
    Ok(())
}

/// The code of the prologue and some units.
pub fn code(alloc: Global, units: &[u32]) -> Result<Vec<u8>, AllocError>
    ensures value { IfOk result (λ v. v.items ≡ flat_map (to_le_bytes w32) (PROLOGUE ++ units.now)) }
    ensures len { IfOk result (λ v. length v.items ≡ 64 + 4 * length units.now) }
{
    let mut bytes = Vec::new(alloc);
    add_words(&mut bytes, &PROLOGUE)?;
    add_words(&mut bytes, units)?;
    Ok(bytes)
}

/// The code of the prologue for several harts and some units.
pub fn code_of_harts(alloc: Global, units: &[u32]) -> Result<Vec<u8>, AllocError>
    ensures value { IfOk result (λ v. v.items ≡ flat_map (to_le_bytes w32) (PROLOGUE_OF_HARTS ++ units.now)) }
    ensures len { IfOk result (λ v. length v.items ≡ 80 + 4 * length units.now) }
{
    let mut bytes = Vec::new(alloc);
    add_words(&mut bytes, &PROLOGUE_OF_HARTS)?;
    add_words(&mut bytes, units)?;
    Ok(bytes)
}

/// The code of the prologue of lean images and some units.
pub fn code_of_lean(alloc: Global, units: &[u32]) -> Result<Vec<u8>, AllocError>
    ensures value { IfOk result (λ v. v.items ≡ flat_map (to_le_bytes w32) (PROLOGUE_OF_LEAN ++ units.now)) }
    ensures len { IfOk result (λ v. length v.items ≡ 44 + 4 * length units.now) }
{
    let mut bytes = Vec::new(alloc);
    add_words(&mut bytes, &PROLOGUE_OF_LEAN)?;
    add_words(&mut bytes, units)?;
    Ok(bytes)
}

/// The code of the prologue of lean images for several harts and some units.
pub fn code_of_harts_lean(alloc: Global, units: &[u32]) -> Result<Vec<u8>, AllocError>
    ensures value { IfOk result (λ v. v.items ≡ flat_map (to_le_bytes w32) (PROLOGUE_OF_HARTS_LEAN ++ units.now)) }
    ensures len { IfOk result (λ v. length v.items ≡ 60 + 4 * length units.now) }
{
    let mut bytes = Vec::new(alloc);
    add_words(&mut bytes, &PROLOGUE_OF_HARTS_LEAN)?;
    add_words(&mut bytes, units)?;
    Ok(bytes)
}
