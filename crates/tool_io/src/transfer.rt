//! The loops that read and write whole files.

ghost use Rattle.std.specs.Prelude.{◌≡◌, ◌+◌, ◌<◌, ◌≤◌, ℕ, List, length, take, IfOk, IfErr, IfSome, IsOkAnd, OnOk, OnErr};
ghost use Rattle.std.specs.Io.KnownBytes.{Appends, Consumes};
ghost use Rattle.tool_io.specs.Counted.{given};
ghost use Rattle.tool_io.specs.declared.ends.OutEnd.TheVariants.{Failed};

use crate::{Counted, OutEnd, ReadEnd};
use std::alloc::Global;
use std::io;
use std::io::{Read, Write};

/// How many bytes one read asks for at most.
const PIECE: usize = 16_384;

/// All that a reader gives until a read of 0 bytes, where that is at most `limit` bytes. Of every reader,
/// also one that does not tell its bytes, at most `limit + 1` bytes are taken.
pub fn read_within<R: Read>(
    alloc: Global,
    source: &mut Counted<R>,
    limit: u64,
) -> Result<Vec<u8>, ReadEnd>
    ensures all { IfOk result (λ v. IfSome (⟦<Counted<R> as Read>⟧.remaining source.old) (λ xs. v.items ≡ xs)) }
    ensures within { IfOk result (λ v. length v.items ≤ limit) }
    ensures too_long { result ≡ Err ReadEnd.TooLong → IfSome (⟦<Counted<R> as Read>⟧.remaining source.old) (λ xs. limit < length xs) }
    ensures bound { given source.new ≤ given source.old + (limit + 1) }
    ensures taken { (taken : List ℕ) × (length taken ≤ limit + 1)
        × Consumes (⟦<Counted<R> as Read>⟧.remaining source.old) (⟦<Counted<R> as Read>⟧.remaining source.new) taken }
{
    let mut bytes = Vec::new(alloc);
    let mut piece = [0u8; PIECE];
    loop {
        let room = limit - bytes.len() as u64;
        let asked = room.min(PIECE as u64 - 1) as usize + 1;
        match source.read(&mut piece[..asked]) {
            Err(_) => return Err(ReadEnd::Failed),
            Ok(0) => return Ok(bytes),
            Ok(count) if count as u64 > room => return Err(ReadEnd::TooLong),
            Ok(count) => bytes.extend_from_slice(&piece[..count])?,
        }
    }
}

/// All that a reader gives that could be opened.
pub(crate) fn read_opened<R: Read>(
    alloc: Global,
    opened: &mut io::Result<Counted<R>>,
    limit: u64,
) -> Result<Vec<u8>, ReadEnd>
    ensures shut { IfErr opened.old (λ _. result ≡ Err ReadEnd.Failed) }
    ensures all { IfOk opened.old (λ source. IfOk result (λ v. IfSome (⟦<Counted<R> as Read>⟧.remaining source) (λ xs. v.items ≡ xs))) }
    ensures within { IfOk result (λ v. length v.items ≤ limit) }
    ensures too_long { IfOk opened.old (λ source. result ≡ Err ReadEnd.TooLong → IfSome (⟦<Counted<R> as Read>⟧.remaining source) (λ xs. limit < length xs)) }
    ensures bound { IfOk opened.old (λ before. IsOkAnd opened.new (λ after. given after ≤ given before + (limit + 1))) }
{
    match opened {
        Ok(source) => read_within(alloc, source, limit),
        Err(_) => Err(ReadEnd::Failed),
    }
}

/// Writes all the bytes, and flushes. A write that takes none of them is a failure.
pub(crate) fn write_whole<W: Write>(writer: &mut W, bytes: &[u8]) -> Result<(), OutEnd>
    ensures whole { OnOk result (Appends (W.contents writer.old) (W.contents writer.new) bytes.now) }
    ensures part { OnErr result ((n : ℕ) × Appends (W.contents writer.old) (W.contents writer.new) (take n bytes.now)) }
    ensures failed { IfErr result (λ e. e ≡ Failed) }
{
    let mut done = 0;
    while done < bytes.len() {
        match writer.write(&bytes[done..]) {
            Ok(0) | Err(_) => return Err(OutEnd::Failed),
            Ok(count) => done += count,
        }
    }
    match writer.flush() {
        Ok(()) => Ok(()),
        Err(_) => Err(OutEnd::Failed),
    }
}

/// Writes all the bytes to a writer that could be opened, and flushes.
pub(crate) fn write_opened<W: Write>(opened: &mut io::Result<W>, bytes: &[u8]) -> Result<(), OutEnd>
    ensures whole { OnOk result (IsOkAnd opened.old (λ before. IsOkAnd opened.new (λ after. Appends (W.contents before) (W.contents after) bytes.now))) }
    ensures part { OnErr result (IfOk opened.old (λ before. IsOkAnd opened.new (λ after. (n : ℕ) × Appends (W.contents before) (W.contents after) (take n bytes.now)))) }
    ensures shut { IfErr opened.old (λ _. result ≡ Err Failed) }
    ensures failed { IfErr result (λ e. e ≡ Failed) }
{
    match opened {
        Ok(writer) => write_whole(writer, bytes),
        Err(_) => Err(OutEnd::Failed),
    }
}
