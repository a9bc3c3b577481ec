ghost use Rattle.std.specs.Prelude.{◌≡◌, ◌≤◌, ◌++◌, IsTrue, IfOk, OnOk, replicate};
ghost use Rattle.std.specs.List.{flat_map, list_all};
ghost use Rattle.elf_writer.specs.Numbers.{is_number, number_bytes, numbers};

use std::alloc::{AllocError, Global};

/// A number as it stands in a file: how many bytes it has, at most 8, and its value.
#[derive(Clone, Copy)]
pub(crate) struct Number {
    pub(crate) size: usize,
    pub(crate) value: u64,
}

/// A byte.
pub(crate) fn byte(value: u64) -> Number
    ensures { result ≡ record { size = 1; value = value } }
{
    Number { size: 1, value }
}

/// An `Elf64_Half`.
pub(crate) fn half(value: u64) -> Number
    ensures { result ≡ record { size = 2; value = value } }
{
    Number { size: 2, value }
}

/// An `Elf64_Word`.
pub(crate) fn word(value: u64) -> Number
    ensures { result ≡ record { size = 4; value = value } }
{
    Number { size: 4, value }
}

/// An `Elf64_Xword`, `Elf64_Sxword`, `Elf64_Addr` or `Elf64_Off`.
pub(crate) fn long(value: u64) -> Number
    ensures { result ≡ record { size = 8; value = value } }
{
    Number { size: 8, value }
}

/// Appends the bytes of these numbers.
pub(crate) fn put_numbers(file: &mut Vec<u8>, list: &[Number]) -> Result<(), AllocError>
    requires { IsTrue (list_all is_number list.now) }
    ensures { OnOk result (file.new.items ≡ file.old.items ++ numbers list.now) }
{
    for number in list {
        put_number(file, *number)?;
    }
    Ok(())
}

/// Appends the lowest bytes of a number, the lowest first.
#[tactic(auto, using(crate::proofs::Bytes::first_bytes))]
fn put_number(file: &mut Vec<u8>, number: Number) -> Result<(), AllocError>
    requires { number.size ≤ 8 }
    ensures { OnOk result (file.new.items ≡ file.old.items ++ number_bytes number) }
{
    file.extend_from_slice(&number.value.to_le_bytes()[..number.size])
}

/// So many zeros.
pub(crate) fn zeros(alloc: Global, count: usize) -> Result<Vec<u8>, AllocError>
    ensures { IfOk result (λ zeros. zeros.items ≡ replicate count 0) }
{
    let mut zeros = Vec::new(alloc);
    zeros.resize(count, 0)?;
    Ok(zeros)
}
