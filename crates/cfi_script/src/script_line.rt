ghost use Rattle.std.specs.Prelude.{◌≡◌, IfOk, option_map};
ghost use Rattle.std.specs.List.{list_any};
ghost use Rattle.text_lines.specs.Lines.{words_of};
ghost use Rattle.cfi_script.specs.ScriptText.{data_of, harts_of, line_of, turn_of, words_after_at};
ghost use Rattle.cfi_script.specs.ScriptNumbers.{is_capital};

use hex::FromHexError;
use rv_word::{Bytes, NoMemory};
use std::alloc::Global;
use text_lines::{cut, decimal_of, hex_of, is_word};

/// A line of a script: the number of steps taken before it, and bytes from an address on. Each step that is
/// too large stands as `MAX_STEP + 1`.
#[derive(Drop)]
pub(crate) struct ScriptLine {
    pub(crate) step: u64,
    pub(crate) address: u32,
    pub(crate) bytes: Bytes,
}

fn has_capitals(word: &[u8]) -> bool
    ensures { result ≡ list_any is_capital word.now }
{
    word.iter().any(|b| b'A' <= *b && *b <= b'F')
}

/// The bytes that a word of 2 to 8,192 digits in lower case spells.
fn data(alloc: Global, word: &[u8]) -> Result<Option<Bytes>, NoMemory>
    ensures { IfOk result (λ r. r ≡ data_of word.now) }
{
    if word.len() < 2 || word.len() > 8192 {
        return Ok(None);
    }
    if has_capitals(word) {
        return Ok(None);
    }
    match hex::decode(alloc, word) {
        Ok(bytes) => Ok(Some(Bytes::of(bytes))),
        Err(FromHexError::OutOfMemory) => Err(NoMemory),
        Err(FromHexError::InvalidHexCharacter { .. }) => Ok(None),
        Err(FromHexError::OddLength) => Ok(None),
        Err(FromHexError::InvalidStringLength) => Ok(None),
    }
}

/// The three words of a line after `at`.
fn words_after_at(line: &[u8]) -> Option<(&[u8], &[u8], &[u8])>
    ensures { option_map (λ w. (w.0.now, (w.1.now, w.2.now))) result ≡ words_after_at (words_of line.now) }
{
    let (name, rest) = cut(line, b' ');
    let (step, rest) = cut(rest?, b' ');
    let (address, rest) = cut(rest?, b' ');
    let (data, rest) = cut(rest?, b' ');
    if let Some(_more) = rest {
        return None;
    }
    if !is_word(name, b"at") {
        return None;
    }
    Some((step, address, data))
}

/// The line that these bytes spell, if they have the form of one.
pub(crate) fn line_of(alloc: Global, line: &[u8]) -> Result<Option<ScriptLine>, NoMemory>
    ensures { IfOk result (λ r. r ≡ line_of (words_of line.now)) }
{
    let Some((step, address, bytes)) = words_after_at(line) else {
        return Ok(None);
    };
    let Some(step) = decimal_of(step) else {
        return Ok(None);
    };
    let Some(address) = hex_of(address, 8) else {
        return Ok(None);
    };
    let Some(bytes) = data(alloc, bytes)? else {
        return Ok(None);
    };
    Ok(Some(ScriptLine {
        step,
        address,
        bytes,
    }))
}

/// The count of harts that a line gives, if it has the form of one that does; each that is too large stands as
/// `MAX_STEP + 1`.
pub(crate) fn harts_of(line: &[u8]) -> Option<u64>
    ensures { result ≡ harts_of (words_of line.now) }
{
    let (name, rest) = cut(line, b' ');
    let (count, rest) = cut(rest?, b' ');
    if let Some(_more) = rest {
        return None;
    }
    if !is_word(name, b"harts") {
        return None;
    }
    decimal_of(count)
}

/// The hart and the steps of a turn, if a line has the form of one; each number that is too large stands as
/// `MAX_STEP + 1`.
pub(crate) fn turn_of(line: &[u8]) -> Option<(u64, u64)>
    ensures { result ≡ turn_of (words_of line.now) }
{
    let (name, rest) = cut(line, b' ');
    let (hart, rest) = cut(rest?, b' ');
    let (steps, rest) = cut(rest?, b' ');
    if let Some(_more) = rest {
        return None;
    }
    if !is_word(name, b"turn") {
        return None;
    }
    let hart = decimal_of(hart)?;
    let steps = decimal_of(steps)?;
    Some((hart, steps))
}
