//! Sets that say again what the one before them said.

ghost use Rattle.std.specs.Prelude.{◌<◌, ◌↔◌, length, IsTrue};
ghost use Rattle.cfi_class.specs.Passes.{IsRepeated};

use rv_word::Places;

/// Whether a set has the members of the one before it, in their order: it then joins nothing anew.
pub(crate) fn is_repeated(sets: &[Places], k: usize) -> bool
    requires { k < length sets.now }
    ensures { IsTrue result ↔ IsRepeated sets.now k }
{
    k > 0 && sets[k].as_slice() == sets[k - 1].as_slice()
}
