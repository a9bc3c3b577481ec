//! Offsets of jumps and branches: where they lead and what they reach.

ghost use Rattle.std.specs.Prelude.{◌≡◌, ◌↔◌, IsTrue};
ghost use Rattle.cfi_unit.specs.Reach.{led_to, near_to};
ghost use Rattle.cfi_unit.specs.UnitWords.{IsNear, Reaches, jump, jump_offset, near_offset};

use rv_instr::{Immediate, Instr, Reg};
use rv_word::sext;

/// Where a `jal` at an address leads by its offset field.
#[inline(always)]
pub fn led(at: u64, field: Immediate<20>) -> u64
    ensures { result ≡ led_to at field }
{
    at.wrapping_add(sext(u64::from(field.bits()) * 2, 21))
}

/// The offset field of a jump from one address to another.
#[inline(always)]
pub fn field_between(from: u64, to: u64) -> Immediate<20>
    ensures { result ≡ jump_offset from to }
{
    Immediate::of((to.wrapping_sub(from) / 2 % 0x10_0000) as u32)
}

/// Where a branch at an address leads by its offset field.
#[inline(always)]
pub fn led_near(at: u64, field: Immediate<12>) -> u64
    ensures { result ≡ near_to at field }
{
    at.wrapping_add(sext(u64::from(field.bits()) * 2, 13))
}

/// The offset field of a branch from one address to another.
pub fn near_between(from: u64, to: u64) -> Immediate<12>
    ensures { result ≡ near_offset from to }
{
    Immediate::of((to.wrapping_sub(from) / 2 % 0x1000) as u32)
}

/// Whether a branch from one address can reach another.
pub fn is_close(from: u64, to: u64) -> bool
    ensures { IsTrue result ↔ IsNear from to }
{
    led_near(from, near_between(from, to)) == to
}

/// `jal x0` from one address to another.
#[inline(always)]
pub fn jump_between(from: u64, to: u64) -> Instr
    ensures { result ≡ jump from to }
{
    Instr::Jal(Reg::of(0), field_between(from, to))
}

/// Whether a jump from one address can reach another.
pub fn is_reached(from: u64, to: u64) -> bool
    ensures { IsTrue result ↔ Reaches from to }
{
    led(from, field_between(from, to)) == to
}
