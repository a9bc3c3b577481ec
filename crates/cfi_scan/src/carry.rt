ghost use Rattle.std.specs.Prelude.{◌≡◌, ◌+◌, ◌%◌, ◌<◌, ◌^◌, []};
ghost use Rattle.cfi_scan.specs.Carry.{after_byte, made};

use std::marker::Model;

/// How many bytes came, and those of the word that is not whole.
#[derive(Drop)]
pub(crate) struct Carry {
    bytes: [u8; 3],
    fed: u32,
}

impl Model for Carry {
    ghost use Rattle.std.specs.Prelude.{◌%◌, take};
    ghost use Rattle.cfi_scan.specs.Carry.{Taken};

    ghost Value = { Taken };

    ghost view = { λ c. record { left = take (c.fed % 4) c.bytes; fed = c.fed } };
}

impl Carry {
    pub(crate) fn new() -> Self
        ensures { result ≡ record { left = []; fed = 0 } }
    {
        Carry {
            bytes: [0; 3],
            fed: 0,
        }
    }

    /// How many bytes came.
    pub(crate) fn fed(&self) -> u32
        ensures { result ≡ self.now.fed }
    {
        self.fed
    }

    /// Takes a byte, and gives the word that it makes whole.
    pub(crate) fn push(&mut self, byte: u8) -> Option<u32>
        requires { self.old.fed + 1 < 2 ^ 32 }
        ensures word { result ≡ made self.old byte }
        ensures after { self.new ≡ after_byte self.old byte }
    {
        let [a, b, c] = self.bytes;
        let index = (self.fed % 4) as usize;
        self.fed += 1;
        if index == 3 {
            Some(u32::from_le_bytes([a, b, c, byte]))
        } else {
            self.bytes[index] = byte;
            None
        }
    }

    /// So many bytes came that are words.
    pub(crate) fn pass_words(&mut self, bytes: u32)
        requires room { self.old.fed + bytes < 2 ^ 32 }
        requires whole { self.old.fed % 4 ≡ 0 }
        requires words { bytes % 4 ≡ 0 }
        ensures { self.new ≡ record { left = []; fed = self.old.fed + bytes } }
    {
        self.fed += bytes;
    }
}
