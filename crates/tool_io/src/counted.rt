ghost use Rattle.std.specs.Prelude.{◌≡◌, ◌+◌, ◌-◌, ◌^◌, min, IfOk, OnErr};
ghost use Rattle.std.specs.Io.{ReadsAtMost};
ghost use Rattle.std.specs.Io.KnownBytes.{ReadConsumes};

use std::io;
use std::io::Read;

/// A reader that counts the bytes that it gives.
#[derive(Drop)]
pub struct Counted<R> {
    source: R,
    given: u64,
}

impl<R: Read> Counted<R> {
    ghost use Rattle.tool_io.specs.Counted.{given};

    /// A reader of which nothing was read yet.
    pub fn new(source: R) -> Self
        ensures remaining { ⟦<Counted<R> as Read>⟧.remaining result ≡ R.remaining source }
        ensures none { given result ≡ 0 }
    {
        Counted { source, given: 0 }
    }
}

impl<R: Read> Read for Counted<R> {
    ghost use Rattle.tool_io.specs.Counted.{given};

    ghost remaining = { λ s. R.remaining s.source };

    fn read(&mut self, buf: &mut [u8]) -> io::Result<usize>
        ensures bound { ReadsAtMost result buf.new }
        ensures bytes { ReadConsumes (R.remaining self.old.source) (R.remaining self.new.source) result buf.new }
        ensures counted { IfOk result (λ n. given self.new ≡ min (given self.old + n) (2 ^ 64 - 1)) }
        ensures failed { OnErr result (given self.new ≡ given self.old) }
    {
        let count = self.source.read(buf)?;
        self.given = self.given.saturating_add(count as u64);
        Ok(count)
    }
}
