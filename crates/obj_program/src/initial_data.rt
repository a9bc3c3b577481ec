ghost use Rattle.std.specs.Prelude.{◌≡◌, ◌+◌, ◌-◌, ◌++◌, [], IfOk, OnOk, length, replicate};
ghost use Rattle.obj_program.specs.Pieces.{bytes_of, piece_bytes};

use rv_word::NoMemory;
use std::alloc::Global;
use std::marker::Model;

/// Bytes that are borrowed, with so many zeros before them.
#[derive(Clone, Copy)]
pub(crate) struct Piece<'a> {
    zeros: u128,
    bytes: &'a [u8],
}

/// Initialised data before relocations. Their bytes are borrowed, and copied only where all are asked for, so that their size
/// is known before they take memory.
#[derive(Drop)]
pub struct InitialData<'a> {
    pieces: Vec<Piece<'a>>,
    size: u128,
}

impl<'a> Model for InitialData<'a> {
    ghost use Rattle.std.specs.Prelude.{◌≡◌, List, ℕ, length};
    ghost use Rattle.obj_program.specs.Pieces.{bytes_of};

    ghost Value = { List ℕ };

    ghost view = { λ d. bytes_of d.pieces.items };

    ghost invariant = { λ d. length (bytes_of d.pieces.items) ≡ d.size };
}

impl<'a> InitialData<'a> {
    /// No data.
    pub fn new(alloc: Global) -> InitialData<'a>
        ensures { result ≡ [] }
    {
        InitialData {
            pieces: Vec::new(alloc),
            size: 0,
        }
    }

    /// How many bytes they have.
    pub fn len(&self) -> u128
        ensures { result ≡ length self.now }
    {
        self.size
    }

    /// Puts bytes behind the others, with zeros before them so that they begin at this place, if the others end before it.
    pub fn put_at(&mut self, start: u128, bytes: &'a [u8]) -> Result<(), NoMemory>
        ensures { OnOk result (self.new ≡ self.old ++ replicate (start - length self.old) 0 ++ bytes.now) }
    {
        let zeros = start.saturating_sub(self.size);
        let size = sum(self.size, zeros, bytes.len())?;
        self.pieces.push(Piece { zeros, bytes })?;
        self.size = size;
        Ok(())
    }

    /// Puts so many zeros behind the others.
    pub fn put_zeros(&mut self, count: u64) -> Result<(), NoMemory>
        ensures { OnOk result (self.new ≡ self.old ++ replicate count 0) }
    {
        let zeros = u128::from(count);
        let size = sum(self.size, zeros, 0)?;
        self.pieces.push(Piece { zeros, bytes: &[] })?;
        self.size = size;
        Ok(())
    }

    /// All of them.
    pub fn copied(&self, alloc: Global) -> Result<Vec<u8>, NoMemory>
        ensures { IfOk result (λ v. v.items ≡ self.now) }
    {
        let Ok(size) = usize::try_from(self.size) else {
            return Err(NoMemory);
        };
        all_bytes(alloc, size, &self.pieces)
    }
}

/// The sum of three sizes. One that 128 bits do not hold wants memory.
fn sum(size: u128, zeros: u128, bytes: usize) -> Result<u128, NoMemory>
    ensures { IfOk result (λ sum. sum ≡ size + zeros + bytes) }
{
    let start = size.checked_add(zeros).ok_or(NoMemory)?;
    start.checked_add(bytes as u128).ok_or(NoMemory)
}

/// Puts zeros behind bytes.
fn put_zeros(bytes: &mut Vec<u8>, count: u128) -> Result<(), NoMemory>
    ensures { OnOk result (bytes.new.items ≡ bytes.old.items ++ replicate count 0) }
{
    let Ok(len) = usize::try_from(sum(bytes.len() as u128, count, 0)?) else {
        return Err(NoMemory);
    };
    bytes.resize(len, 0)?;
    Ok(())
}

/// Puts a piece behind bytes.
fn put_piece(bytes: &mut Vec<u8>, piece: &Piece) -> Result<(), NoMemory>
    ensures { OnOk result (bytes.new.items ≡ bytes.old.items ++ piece_bytes piece.now) }
{
    put_zeros(bytes, piece.zeros)?;
    bytes.extend_from_slice(piece.bytes)?;
    Ok(())
}

/// The bytes of all these pieces, which are so many.
fn all_bytes(alloc: Global, size: usize, pieces: &[Piece]) -> Result<Vec<u8>, NoMemory>
    ensures { IfOk result (λ v. v.items ≡ bytes_of pieces.now) }
{
    let mut bytes = Vec::with_capacity(alloc, size)?;
    for piece in pieces {
        put_piece(&mut bytes, piece)?;
    }
    Ok(bytes)
}
