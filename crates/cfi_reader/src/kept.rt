//! What is kept of a unit while it is read, and the entry that it comes to.

ghost use Rattle.std.specs.Prelude.{◌≡◌};
ghost use Rattle.rv_code.specs.Decode.{decoded};
ghost use Rattle.cfi_reader.specs.Kept.{count_by, count_on, entry_by, field_in, label_after, open_entry};
ghost use Rattle.cfi_reader.specs.Entries.{stores_entry};

use crate::entry::Entry;
use cfi_unit::{End, Mask, Pattern};
use rv_code::decode;
use rv_instr::{Immediate, Instr};
use rv_word::Numbers;

/// In place of how many numbers there are, where they are not the list's first.
const MISSED: u8 = 255;

/// How many numbers there are after a word that is as a pattern says, if they are the first of a list.
#[inline(always)]
pub(crate) fn count_by(calls: &Numbers, pattern: Pattern, word: u32, count: u8) -> u8
    ensures { result ≡ count_by calls.now pattern word count }
{
    match pattern {
        Pattern::Number => count_on(calls, count, word >> 20),
        _ => count,
    }
}

/// The label that is known after a word that is as a pattern says.
#[inline(always)]
pub(crate) fn label_after(pattern: Pattern, word: u32, label: Immediate<20>) -> Immediate<20>
    ensures { result ≡ label_after pattern word label }
{
    match pattern {
        Pattern::Label => Immediate::of(word >> 12),
        _ => label,
    }
}

/// The entry of a unit that has ended, by what is kept of it and by its last word.
#[inline(always)]
pub(crate) fn entry_by(
    calls: &Numbers,
    end: End,
    numbers: u8,
    label: Immediate<20>,
    word: u32,
) -> Entry
    ensures { result ≡ entry_by calls.now end numbers label (decoded word) }
{
    match end {
        End::Branch => match field_in(word) {
            Some(field) => Entry::Branch(field),
            None => Entry::Other,
        },
        End::Call => match field_in(word) {
            Some(field) => Entry::Call(field),
            None => Entry::Other,
        },
        End::Ijump(which) => Entry::Ijump(which, label),
        End::Icall => Entry::Icall(label),
        End::Guarded => Entry::Guarded(numbers as usize == calls.len()),
        End::Enter => Entry::Enter,
        End::LeanIjump => Entry::LeanIjump(label),
        End::LeanIcall => Entry::LeanIcall(label),
        End::Full(mask) => stores_entry(mask),
        End::Return => Entry::Return,
        _ => Entry::Other,
    }
}

/// How many numbers there are after one more, if they are the list's first.
pub(crate) fn count_on(calls: &Numbers, count: u8, number: u32) -> u8
    ensures { result ≡ count_on calls.now count number }
{
    match calls.as_slice().get(count as usize) {
        Some(call) => {
            if number == u32::from(*call) {
                count.saturating_add(1)
            } else {
                MISSED
            }
        }
        None => MISSED,
    }
}

/// The offset field of a jump.
fn field_in(word: u32) -> Option<Immediate<20>>
    ensures { result ≡ field_in (decoded word) }
{
    match decode(word)? {
        Instr::Jal(_, field) => Some(field),
        _ => None,
    }
}

/// The entry of a unit that ends before a word that might have gone on with it.
pub(crate) fn open_entry(end: End) -> Entry
    ensures { result ≡ open_entry end }
{
    match end {
        End::Over => Entry::Near(Immediate::of(4)),
        End::Stores(mask) => stores_entry(mask),
        _ => Entry::Other,
    }
}

/// The entry of stores behind a mask.
fn stores_entry(mask: Mask) -> Entry
    ensures { result ≡ stores_entry mask }
{
    match mask {
        Mask::Shifts => Entry::Stores,
        Mask::Short | Mask::Long => Entry::LeanStores,
    }
}
