ghost use Rattle.std.specs.Prelude.{◌≡◌, ◌<◌, ◌↔◌, IsSome, IfSome};

use std::marker::Model;

/// One of the 32 integer registers, x0 to x31 (RISC-V unprivileged ISA, "Programmers' Model for
/// Base Integer ISA").
#[derive(Clone, Copy, PartialEq, Eq)]
pub struct Reg {
    number: u8,
}

impl Model for Reg {
    ghost use Rattle.std.specs.Prelude.{ℕ, ◌<◌};

    ghost Value = { ℕ };

    ghost view = { λ r. r.number };

    ghost invariant = { λ r. r.number < 32 };

    ghost inverse = { λ n. record { number = n } };
}

impl Reg {
    ghost use Rattle.rv_instr.specs.Reserved.{is_reserved};

    /// The register of this number, from 0 to 31.
    pub fn new(number: u8) -> Option<Reg>
        ensures some { IsSome result ↔ (number < 32) }
        ensures value { IfSome result (λ r. r ≡ number) }
    {
        if number < 32 {
            Some(Reg { number })
        } else {
            None
        }
    }

    /// The register of this number.
    pub fn of(number: u32) -> Reg
        requires { number < 32 }
        ensures { result ≡ number }
    {
        Reg {
            number: number as u8,
        }
    }

    /// The register's number.
    pub fn number(self) -> u8
        ensures value { result ≡ self }
        ensures small { result < 32 }
    {
        self.number
    }

    /// Whether units keep the register for themselves: x3, x4, x30 and x31.
    pub fn is_reserved(self) -> bool
        ensures { result ≡ is_reserved self }
    {
        matches!(self.number, 3 | 4 | 30 | 31)
    }
}
