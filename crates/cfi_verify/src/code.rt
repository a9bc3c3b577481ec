//! Units of a code at an address.

ghost use Rattle.std.specs.Prelude.{◌≡◌, ◌+◌, ◌-◌, ◌/◌, ◌<◌, ◌≤◌, ◌^◌, ℕ, drop, slice_index, take};
ghost use Rattle.rv_image.specs.MemoryMap.{CODE_SIZE, CODE_START};
ghost use Rattle.cfi_unit.specs.Recognise.{recognised};
ghost use Rattle.cfi_rules.specs.Split.{code_words};

use cfi_emit::{WordList, recognise};
use cfi_unit::Unit;
use rv_image::memory_map::CODE_START;

/// The first words of some: as many as the longest unit has, and one more.
type Window = WordList<21>;

/// The unit that begins the words of a code at an address.
pub(crate) fn unit_of(code: &[u8], address: u64) -> Option<Unit>
    requires low { CODE_START ≤ address }
    requires high { address < CODE_START + CODE_SIZE }
    ensures { result ≡ recognised (drop ((address - CODE_START) / 4) (code_words code.now)) address }
{
    are_small(code);
    let first = ((address - CODE_START) / 4) as usize;
    let window = first_words(bytes_from(code, first));
    let (unit, _) = recognise(window.as_slice(), address)?;
    Some(unit)
}

/// The bytes of a code from a word on.
fn bytes_from(code: &[u8], first: usize) -> &[u8]
    requires { first < 2 ^ 32 }
    ensures { code_words result.now ≡ drop first (code_words code.now) }
{
    if 4 * first <= code.len() {
        &code[4 * first..]
    } else {
        &[]
    }
}

/// The first words of some bytes.
fn first_words(bytes: &[u8]) -> Window
    ensures { result ≡ take 21 (code_words bytes.now) }
{
    let mut window = Window::new();
    let mut rest = bytes;
    while let [a, b, c, d, next @ ..] = rest {
        if window.is_full() {
            return window;
        }
        window.push(u32::from_le_bytes([*a, *b, *c, *d]));
        rest = next;
    }
    window
}

pub(crate) fn are_small(bytes: &[u8])
    ensures { (k : ℕ) → slice_index bytes.now k < 2 ^ 8 }
{
    // Tells the proof the range of each byte.
    let _len = bytes.len();
}
