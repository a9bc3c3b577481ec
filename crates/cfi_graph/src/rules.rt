//! The ranges and the order that a graph's lines keep.

ghost use Rattle.std.specs.Prelude.{◌≡◌, ◌^◌, nat_lt};
ghost use Rattle.std.specs.List.{list_all};
ghost use Rattle.cfi_graph.specs.Graph.{
  are_calls,
  class_in_range,
  is_code_address,
  is_code_end,
  is_code_length,
  is_label,
  is_rising,
  line_in_range,
  targets_rise,
};
ghost use Rattle.cfi_graph.specs.Reading.{in_order};

use crate::line::{GraphLine, Key};
use rv_image::memory_map::{CODE_SIZE, CODE_START};
use rv_word::{MOST_NUMBERS, Numbers};

/// Whether code may have this length.
pub(crate) fn is_code_length(len: u32) -> bool
    ensures { result ≡ is_code_length len }
{
    len % 4 == 0 && 4 <= len && u64::from(len) <= CODE_SIZE
}

/// Whether a class may have this label.
fn is_label(label: u32) -> bool
    ensures { result ≡ is_label label }
{
    0 < label && label < 0x10_0000
}

/// Whether an address is that of a word of `len` bytes of code. Of one before these the difference wraps, to more
/// than each length.
fn is_code_address(len: u32, address: u64) -> bool
    ensures { result ≡ is_code_address len address }
{
    address % 4 == 0 && address.wrapping_sub(CODE_START) < u64::from(len)
}

/// Whether an address is that of a word of `len` bytes of code, or their end.
fn is_code_end(len: u32, address: u64) -> bool
    ensures { result ≡ is_code_end len address }
{
    address % 4 == 0 && address.wrapping_sub(CODE_START) <= u64::from(len)
}

fn are_code_addresses(len: u32, addresses: &[u64]) -> bool
    ensures { result ≡ list_all (is_code_address len) addresses.now }
{
    addresses.iter().all(|a| is_code_address(len, *a))
}

/// Whether each number of a class's line is one that a graph of `len` bytes of code may have.
#[inline(never)]
fn class_in_range(len: u32, label: u32, targets: &[u64]) -> bool
    ensures { result ≡ class_in_range len label targets.now }
{
    is_label(label) && are_code_addresses(len, targets)
}

/// Whether each number is small enough for a system call's.
fn are_small(numbers: &[u16]) -> bool
    ensures { result ≡ list_all (λ n. nat_lt n (2 ^ 11)) numbers.now }
{
    numbers.iter().all(|n| *n < 0x800)
}

/// Whether a list of numbers of system calls has one at least, and none too large.
fn are_calls(numbers: &Numbers) -> bool
    ensures { result ≡ are_calls numbers.now }
{
    let items = numbers.as_slice();
    0 < items.len() && items.len() <= MOST_NUMBERS && are_small(items)
}

/// Whether each number of a line is one that a graph of `len` bytes of code may have.
#[inline(always)]
pub(crate) fn line_in_range(len: u32, line: &GraphLine) -> bool
    ensures { result ≡ line_in_range len line.now }
{
    match line {
        GraphLine::Calls(numbers) => are_calls(numbers),
        GraphLine::Leaf(from, to) => is_code_address(len, *from) && is_code_end(len, *to),
        GraphLine::Class(_, label, targets) => class_in_range(len, *label, targets.as_slice()),
        GraphLine::Site(address, _, label) => is_code_address(len, *address) && is_label(*label),
        GraphLine::Edge(from, to) => is_code_address(len, *from) && is_code_address(len, *to),
        GraphLine::Call(from, to) => is_code_address(len, *from) && is_code_address(len, *to),
    }
}

#[inline(never)]
fn is_rising(items: &[u64]) -> bool
    ensures { result ≡ is_rising nat_lt items.now }
{
    for i in 1..items.len() {
        if items[i] <= items[i - 1] {
            return false;
        }
    }
    true
}

fn rises(numbers: &[u16]) -> bool
    ensures { result ≡ is_rising nat_lt numbers.now }
{
    for i in 1..numbers.len() {
        if numbers[i] <= numbers[i - 1] {
            return false;
        }
    }
    true
}

/// Whether the numbers of system calls of a list rise.
pub(crate) fn calls_rise(numbers: &Numbers) -> bool
    ensures { result ≡ is_rising nat_lt numbers.now }
{
    rises(numbers.as_slice())
}

#[inline(always)]
fn targets_rise(line: &GraphLine) -> bool
    ensures { result ≡ targets_rise line.now }
{
    match line {
        GraphLine::Calls(numbers) => calls_rise(numbers),
        GraphLine::Leaf(from, to) => from < to,
        GraphLine::Class(_, _, targets) => is_rising(targets.as_slice()),
        _ => true,
    }
}

/// Whether a line may stand after a line with the key `before`.
#[inline(always)]
pub(crate) fn in_order(before: Option<Key>, line: &GraphLine) -> bool
    ensures { result ≡ in_order before line.now }
{
    match before {
        None => targets_rise(line),
        Some(before) => targets_rise(line) && before.is_below(line.key()),
    }
}
