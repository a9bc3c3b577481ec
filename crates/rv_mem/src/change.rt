ghost use Rattle.std.specs.Prelude.{◌≡◌, ◌<◌, ◌^◌, ◌↔◌, IfSome, IsSome};
ghost use Rattle.rv_image.specs.MemoryMap.{DATA_END};

use rv_image::memory_map::DATA_END;
use std::marker::Model;

/// A data byte that is changed from outside: its address and what it becomes.
#[derive(Clone, Copy, PartialEq, Eq)]
pub struct Change {
    addr: u64,
    byte: u8,
}

impl Model for Change {
    ghost use Rattle.std.specs.Prelude.{ℕ, ◌<◌};
    ghost use Rattle.rv_image.specs.MemoryMap.{DATA_END};

    ghost Value = { ℕ × ℕ };

    ghost view = { λ c. (c.addr, c.byte) };

    ghost invariant = { λ c. c.addr < DATA_END };

    ghost inverse = { λ p. record { addr = p.0; byte = p.1 } };
}

impl Change {
    /// The change of this address, if it is one of data.
    pub fn new(addr: u64, byte: u8) -> Option<Change>
        ensures some { IsSome result ↔ (addr < DATA_END) }
        ensures value { IfSome result (λ change. change ≡ (addr, byte)) }
    {
        if addr < DATA_END {
            Some(Change { addr, byte })
        } else {
            None
        }
    }

    /// The address that it changes.
    pub fn addr(self) -> u64
        ensures value { result ≡ self.0 }
        ensures in_data { result < DATA_END }
    {
        self.addr
    }

    /// What the byte becomes.
    pub fn byte(self) -> u8
        ensures value { result ≡ self.1 }
        ensures small { result < 2 ^ 8 }
    {
        self.byte
    }
}
