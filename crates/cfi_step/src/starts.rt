//! Where something starts in the code of an image.

ghost use Rattle.std.specs.Prelude.{◌≡◌, ◌<◌, ◌^◌, ℕ, IfOk, Some, length, slice_get, slice_index};
ghost use Rattle.cfi_rules.specs.Laws.{AreBytes};
ghost use Rattle.cfi_rules.specs.Rules.{pair_profile};
ghost use Rattle.cfi_rules.specs.Split.{code_words};
ghost use Rattle.cfi_step.specs.Starts.{AreStartsOf, LiesInCode};

use cfi_verify::Checked;
use rv_image::Image;
use rv_image::memory_map::CODE_START;
use rv_word::NoMemory;
use std::alloc::Global;
use std::marker::Model;

/// Of each word of code, whether something starts there, asked once: a byte a word.
#[derive(Drop)]
pub(crate) struct Starts {
    words: Vec<bool>,
}

impl Model for Starts {
    ghost use Rattle.std.specs.Prelude.{Bool, List};

    ghost Value = { List Bool };

    ghost view = { λ s. s.words.items };
}

impl Starts {
    /// Of the words of an image.
    pub(crate) fn of(alloc: Global, checked: &Checked<'_>) -> Result<Starts, NoMemory>
        ensures { IfOk result (AreStartsOf (pair_profile checked.now.image checked.now.graph) (code_words checked.now.image.code)) }
    {
        let count = checked.image().code().len() / 4;
        let mut words = Vec::new(alloc);
        for k in 0..count {
            words.push(checked.is_place(CODE_START + 4 * k as u64))?;
        }
        Ok(Starts { words })
    }

    /// Whether something starts at the word with a number. Nothing is tested.
    #[inline(always)]
    pub(crate) fn at(&self, word: usize) -> bool
        requires { word < length self.now }
        ensures { Some result ≡ slice_get self.now word }
    {
        self.words[word]
    }
}

/// Tells a proof that each word of what stands at an address is one of the code; nothing is computed.
pub(crate) fn lies_in_code(checked: &Checked<'_>)
    ensures { LiesInCode (pair_profile checked.now.image checked.now.graph) (code_words checked.now.image.code) }
{
    are_bytes(checked.image());
}

/// An image's code and data are bytes, of the lengths that an image has.
fn are_bytes(image: &Image<'_>)
    ensures { AreBytes image.now }
{
    are_small(image.code());
    are_small(image.init());
}

fn are_small(bytes: &[u8])
    ensures { (k : ℕ) → slice_index bytes.now k < 2 ^ 8 }
{
    // Tells the proof the range of each byte.
    let _len = bytes.len();
}
