//! Files to be written, one after the other.

ghost use Rattle.std.specs.Prelude.{◌≡◌, [], ◌∷◌, Some, None, Err, OnOk};
ghost use Rattle.tool_io.specs.Faults.{Counts};
ghost use Rattle.tool_io.specs.declared.ends.OutEnd.TheVariants as OutEnd;
ghost use Rattle.tool_common.specs.Writes.{KeepsReads, Wrote};

use rv_word::Bytes;
use std::marker::Model;
use tool_io::{Files, OutEnd};

/// A file as it is to be written: its name and its bytes.
#[derive(Drop)]
pub struct Output<'a> {
    pub name: &'a str,
    pub bytes: Bytes,
}

impl<'a> Model for Output<'a> {
    ghost use Rattle.tool_common.specs.Writes.{OutputParts};

    ghost Value = { OutputParts };

    ghost view = { λ o. record { name = o.name.now; bytes = o.bytes } };
}

impl Output<'_> {
    /// Writes the file.
    #[tactic(auto, using(crate::proofs::Unchanged::unwritten))]
    pub fn write<F: Files>(&self, files: &mut F) -> Result<(), OutEnd>
        ensures whole { OnOk result (Wrote F.Files files.old files.new (self.now ∷ []) None) }
        ensures torn { result ≡ Err OutEnd.Failed → Wrote F.Files files.old files.new [] (Some self.now.name) }
        ensures unchanged { result ≡ Err OutEnd.NoMemory → Wrote F.Files files.old files.new [] None }
        ensures faults { Counts (result ≡ Err OutEnd.Failed) (F.write_faults files.old) (F.write_faults files.new) }
        ensures reads { KeepsReads F.Files files.old files.new }
    {
        files.write(self.name, self.bytes.as_slice())
    }
}
