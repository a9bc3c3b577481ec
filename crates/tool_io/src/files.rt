ghost use Rattle.std.specs.Prelude.{◌≡◌, ◌≢◌, ◌↔◌, ◌<◌, ◌≤◌, ℕ, List, [], ◌∷◌, length, Err, IfOk, IfSome, OnOk};
ghost use Rattle.std.specs.declared.option.Option.{Option};
ghost use Rattle.tool_io.specs.Faults.{Counts};
ghost use Rattle.tool_io.specs.Contents.{Becomes};
ghost use Rattle.tool_io.specs.Names.{AreRead};

use crate::{OutEnd, ReadEnd};
use std::alloc::Global;

/// Files by name. Counts of faults never fall; code that is generic over `Files` cannot raise one by
/// itself, so each fault that such code answers has its cause here.
pub trait Files {
    /// What a name holds, where that is told: nothing where the name is not there.
    ghost content: { Self → List ℕ → Option (List ℕ) };

    /// That a name is not there, where that is told.
    ghost is_absent: { Self → List ℕ → Type 0 };

    /// How often a read has failed.
    ghost read_faults: { Self → ℕ };

    /// How often a write has failed.
    ghost write_faults: { Self → ℕ };

    /// How often a file was longer than the limit of its read.
    ghost long_reads: { Self → ℕ };

    /// The name of the last read that failed.
    ghost failed_name: { Self → List ℕ };

    /// The names of all reads so far, in their order, where they are told. A read is told when it begins, also one that fails.
    ghost reads: { Self → Option (List (List ℕ)) };

    /// All the bytes of a file of at most `limit` bytes. It changes no file, and neither makes nor
    /// removes one.
    fn read(&mut self, alloc: Global, name: &str, limit: u64) -> Result<Vec<u8>, ReadEnd>
        ensures all { IfOk result (λ v. IfSome (content self.old name.now) (λ bytes. v.items ≡ bytes)) }
        ensures within { IfOk result (λ v. length v.items ≤ limit) }
        ensures too_long { result ≡ Err ReadEnd.TooLong → IfSome (content self.old name.now) (λ bytes. limit < length bytes) }
        ensures there { OnOk result (¬ is_absent self.old name.now) }
        ensures kept { (other : List ℕ) → content self.new other ≡ content self.old other }
        ensures absence_kept { (other : List ℕ) → is_absent self.new other ↔ is_absent self.old other }
        ensures read_faults { Counts (result ≡ Err ReadEnd.Failed) (read_faults self.old) (read_faults self.new) }
        ensures long_reads { Counts (result ≡ Err ReadEnd.TooLong) (long_reads self.old) (long_reads self.new) }
        ensures write_faults { write_faults self.new ≡ write_faults self.old }
        ensures named { result ≡ Err ReadEnd.Failed → failed_name self.new ≡ name.now }
        ensures name_kept { ¬ (result ≡ Err ReadEnd.Failed) → failed_name self.new ≡ failed_name self.old }
        ensures listed { AreRead (reads self.old) (reads self.new) (name.now ∷ []) (¬ (result ≡ Err ReadEnd.NoMemory)) };

    /// Makes these the bytes of a file, which is there from then on. After `Failed` nothing is said of
    /// that file, and every other one is as before.
    fn write(&mut self, name: &str, bytes: &[u8]) -> Result<(), OutEnd>
        ensures written { OnOk result (Becomes (content self.old name.now) (content self.new name.now) bytes.now) }
        ensures there { OnOk result (¬ is_absent self.new name.now) }
        ensures others { (other : List ℕ) → other ≢ name.now → content self.new other ≡ content self.old other }
        ensures other_absence { (other : List ℕ) → other ≢ name.now → is_absent self.new other ↔ is_absent self.old other }
        ensures unchanged { result ≡ Err OutEnd.NoMemory → content self.new name.now ≡ content self.old name.now }
        ensures absence_unchanged { result ≡ Err OutEnd.NoMemory → is_absent self.new name.now ↔ is_absent self.old name.now }
        ensures write_faults { Counts (result ≡ Err OutEnd.Failed) (write_faults self.old) (write_faults self.new) }
        ensures read_faults { read_faults self.new ≡ read_faults self.old }
        ensures long_reads { long_reads self.new ≡ long_reads self.old }
        ensures name_kept { failed_name self.new ≡ failed_name self.old }
        ensures reads_kept { reads self.new ≡ reads self.old };
}
