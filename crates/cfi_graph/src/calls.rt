//! A line of the numbers of system calls, as graphs and policies have it.

ghost use Rattle.std.specs.Prelude.{◌≡◌, ◌+◌, ◌<◌, ◌≤◌, ◌^◌, ℕ, IfSome, List, Some, option_map};
ghost use Rattle.text_lines.specs.Decimal.{decimal};
ghost use Rattle.text_lines.specs.Lines.{parts_after, words_of};
ghost use Rattle.cfi_graph.specs.Calls.{calls_of, few_in, judged_calls, line_after, small_in, with_size};

use crate::rules::calls_rise;
use rv_word::{End, MOST_NUMBERS, Numbers};
use text_lines::{LineFault, Reason, cut, decimal_of, is_word};

/// The number that a decimal word spells, and whether it is too large for a system call's; then 0 stands
/// for it.
fn number_of(word: &[u8]) -> Option<(u16, bool)>
    ensures value { result ≡ option_map with_size (decimal word.now) }
    ensures small { IfSome result (λ r. r.0 < 2 ^ 11) }
{
    let number = decimal_of(word)?;
    if number < 0x800 {
        return Some((number as u16, false));
    }
    Some((0, true))
}

/// The one to eight numbers that decimal words spell, if they spell them, and all of them are small enough.
fn numbers_of(words: Option<&[u8]>) -> Option<Option<Numbers>>
    ensures { result
        ≡ option_map small_in (few_in (parts_after 32 (option_map (λ w. w.now) words.entry))) }
{
    let mut numbers = Numbers::new();
    let mut is_large = false;
    let mut left = words;
    while let Some(rest) = left {
        let (word, next) = cut(rest, b' ');
        let (number, large) = number_of(word)?;
        if numbers.len() == MOST_NUMBERS {
            return None;
        }
        numbers.push(number);
        is_large |= large;
        left = next;
    }
    if numbers.len() == 0 {
        return None;
    }
    if is_large {
        return Some(None);
    }
    Some(Some(numbers))
}

/// The numbers of a line of them, if the line is one, and all of them are small enough.
pub(crate) fn calls_of(line: &[u8]) -> Option<Option<Numbers>>
    ensures { result ≡ option_map small_in (calls_of (words_of line.now)) }
{
    let (name, words) = cut(line, b' ');
    if is_word(name, b"calls") {
        return numbers_of(words);
    }
    None
}

/// The numbers of a list in the line with this number, where all are small enough, or the first reason why
/// it is refused.
pub(crate) fn judged(number: u64, numbers: Option<Numbers>) -> Result<Numbers, End<LineFault>>
    ensures { (calls : List ℕ) → numbers ≡ small_in calls → result ≡ judged_calls number (Some calls) }
{
    let Some(numbers) = numbers else {
        return Err(End::Fault(LineFault(number, Reason::Range)));
    };
    if calls_rise(&numbers) {
        return Ok(numbers);
    }
    Err(End::Fault(LineFault(number, Reason::Order)))
}

/// The numbers of the line with this number, or the first reason why it is refused.
pub fn judged_calls(number: u64, line: &[u8]) -> Result<Numbers, End<LineFault>>
    ensures { result ≡ judged_calls number (calls_of (words_of line.now)) }
{
    let Some(numbers) = calls_of(line) else {
        return Err(End::Fault(LineFault(number, Reason::Form)));
    };
    judged(number, numbers)
}

/// The number of the line after a list, where it may stand in the line with this number.
pub fn line_after(number: u64, calls: &Option<Numbers>) -> u64
    requires { number < 10 }
    ensures value { result ≡ line_after number calls.now }
    ensures small { result ≤ number + 1 }
{
    match calls {
        None => number,
        Some(_) => number + 1,
    }
}
