//! What is said of two texts, in the numbers by which C is told.

ghost use Rattle.std.specs.Prelude.{◌≡◌};
ghost use Rattle.cfi_pair.specs.Numbers.{numbers, reason_number, rule_number, verdict_of};

use crate::judging::Verdict;
use crate::opening::PairFault;
use cfi_rules::{Reject, Rule};
use elf_image::ImageRefusal;
use rv_word::End;
use text_lines::Reason;

/// What is said of two texts, in numbers.
#[repr(C)]
#[derive(Clone, Copy)]
pub struct RvcfiVerdict {
    /// 0 accepted, 1 no image, 2 no graph, 3 rejected, 4 no memory.
    pub outcome: u32,
    /// Of no image 1 short, 2 byte, 3 long; of no graph 1 form, 2 range, 3 order; of a reject the rule, from 1 for Length and 2 for
    /// Prologue to 10 for End, and 11 for Leaf.
    pub reason: u32,
    /// Of no image the length or the offset in bytes, of no graph the line from 1, of a reject the address, and for Length the
    /// bytes of code.
    pub first: u64,
    /// For Length the bytes of code that the graph gives.
    pub second: u64,
}

fn numbers(outcome: u32, reason: u32, first: u64, second: u64) -> RvcfiVerdict
    ensures { result ≡ numbers outcome reason first second }
{
    RvcfiVerdict {
        outcome,
        reason,
        first,
        second,
    }
}

/// The number of why a line is refused.
pub fn reason_number(reason: Reason) -> u32
    ensures { result ≡ reason_number reason }
{
    match reason {
        Reason::Form => 1,
        Reason::Range => 2,
        Reason::Order => 3,
    }
}

fn rule_number(rule: Rule) -> u32
    ensures { result ≡ rule_number rule }
{
    match rule {
        Rule::Prologue => 2,
        Rule::Unit => 3,
        Rule::Target => 4,
        Rule::Unlisted => 5,
        Rule::Unused => 6,
        Rule::Site => 7,
        Rule::Gate => 8,
        Rule::Astray => 9,
        Rule::End => 10,
        Rule::Leaf => 11,
    }
}

/// The numbers of what is said.
pub fn verdict_of(said: Result<Verdict, End<PairFault>>) -> RvcfiVerdict
    ensures { result ≡ verdict_of said }
{
    match said {
        Ok(Verdict::Accepted) => numbers(0, 0, 0, 0),
        Ok(Verdict::Rejected(Reject::Length(code, graph))) => {
            numbers(3, 1, u64::from(code), u64::from(graph))
        }
        Ok(Verdict::Rejected(Reject::At(rule, address))) => {
            numbers(3, rule_number(rule), address, 0)
        }
        Err(End::Fault(PairFault::Image(ImageRefusal::Short(len)))) => numbers(1, 1, len, 0),
        Err(End::Fault(PairFault::Image(ImageRefusal::Byte(offset)))) => {
            numbers(1, 2, offset, 0)
        }
        Err(End::Fault(PairFault::Image(ImageRefusal::Long(len)))) => numbers(1, 3, len, 0),
        Err(End::Fault(PairFault::Graph(line, reason))) => {
            numbers(2, reason_number(reason), line, 0)
        }
        Err(End::NoMemory) => numbers(4, 0, 0, 0),
    }
}
