ghost use Rattle.std.specs.Prelude.{◌≡◌, ℕ, List, take, OnOk};
ghost use Rattle.std.specs.declared.option.Option.{Option};
ghost use Rattle.std.specs.Io.KnownBytes.{Appends, Keeps};
ghost use Rattle.tool_io.specs.Faults.{Counts};

use crate::OutEnd;

/// An output that takes pieces of bytes one after the other.
pub trait Sink {
    /// The bytes written so far, where they are told.
    ghost written: { Self → Option (List ℕ) };

    /// How often a put has failed.
    ghost faults: { Self → ℕ };

    /// Appends a piece. After `Failed` some first part of it was appended.
    fn put(&mut self, bytes: &[u8]) -> Result<(), OutEnd>
        ensures whole { OnOk result (Appends (written self.old) (written self.new) bytes.now) }
        ensures part { result ≡ Err OutEnd.Failed → (n : ℕ) × Appends (written self.old) (written self.new) (take n bytes.now) }
        ensures unchanged { result ≡ Err OutEnd.NoMemory → Keeps (written self.old) (written self.new) }
        ensures faults { Counts (result ≡ Err OutEnd.Failed) (faults self.old) (faults self.new) };
}
