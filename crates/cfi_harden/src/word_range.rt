//! What the writing of a program rests on: it is sound and fits maps, and the words of its places have 32 bits, as the prover needs
//! it.

ghost use Rattle.std.specs.Prelude.{ℕ, ◌<◌, ◌^◌, length, slice_index_or};
ghost use Rattle.obj_program.specs.MapFit.{FitsMaps};
ghost use Rattle.obj_program.specs.Program.{count, item_of, no_item};
ghost use Rattle.obj_program.specs.Sound.{IsSound};

use crate::prepared::Prepared;
use obj_program::{Items, PackedItem};

/// The word of a place has 32 bits.
fn word_fits(item: &PackedItem)
    ensures { item.now.word < 2 ^ 32 }
{
    let _word = item.word();
}

/// The words of these places have 32 bits.
fn words_fit(items: &[PackedItem])
    ensures { (k : ℕ) → k < length items.now → (slice_index_or items.now k no_item).word < 2 ^ 32 }
{
    for item in items {
        word_fits(item);
    }
}

/// The words of a program's places have 32 bits, and it is sound and fits maps.
fn program_words_fit(items: &Items)
    ensures sound { IsSound items.now }
    ensures fits_maps { FitsMaps items.now }
    ensures words { (k : ℕ) → k < count items.now → (item_of items.now k).word < 2 ^ 32 }
{
    items.fits_maps();
    words_fit(items.places());
}

/// The same of a prepared program.
pub(crate) fn words_fit_in(prepared: &Prepared)
    ensures sound { IsSound prepared.now.program }
    ensures fits_maps { FitsMaps prepared.now.program }
    ensures words { (k : ℕ) → k < count prepared.now.program → (item_of prepared.now.program k).word < 2 ^ 32 }
{
    program_words_fit(prepared.items);
}
