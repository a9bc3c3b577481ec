ghost use Rattle.std.specs.Prelude.{◌≡◌, ◌+◌, ◌<◌, ◌≤◌, ◌^◌, ◌++◌, true, IfOk, IfErr, MatchResult, OnOk, Ok, Err, Some, length, map, position};
ghost use Rattle.std.specs.Str.{bytes_eq};
ghost use Rattle.text_lines.specs.Answers.{AfterNoMemory, Answers, UnlessNoMemory};
ghost use Rattle.text_lines.specs.Lines.{lines_of, words_of};
ghost use Rattle.text_lines.specs.Reading.{FirstCollected, judged, one_named, read, with_front};

use crate::fault::LineFault;
use crate::form::LineForm;
use crate::reason::Reason;
use crate::words::{cut, is_word};
use rv_word::End;
use std::alloc::Global;

/// Which of these names a line is, from 0: the first that it is.
fn which_of(line: &[u8], names: &[&[u8]]) -> Option<usize>
    ensures { result ≡ position (λ name. bytes_eq line.now name.now) names.now }
{
    names.iter().position(|name| is_word(line, name))
}

/// Which of these names the first line of a text is, from 0, and what stands after that line.
pub fn after_one_of<'a>(
    text: &'a [u8],
    names: &[&[u8]],
) -> Result<(usize, &'a [u8]), End<LineFault>>
    ensures { MatchResult result
        (λ first. one_named (map (λ name. name.now) names.now) (lines_of text.now) ≡ Ok (first.0, lines_of first.1.now))
        (λ end. one_named (map (λ name. name.now) names.now) (lines_of text.now) ≡ Err end) }
{
    let (line, rest) = cut(text, b'\n');
    let Some(rest) = rest else {
        return Err(End::Fault(LineFault(1, Reason::Form)));
    };
    let Some(which) = which_of(line, names) else {
        return Err(End::Fault(LineFault(1, Reason::Form)));
    };
    Ok((which, rest))
}

/// Whether a line may stand in the line with this number, or the first reason why it may not.
#[inline(always)]
fn allowed<F: LineForm>(form: &F, number: u64, line: &F::Line) -> Result<(), End<LineFault>>
    ensures told { MatchResult result
        (λ _. judged (F.rules form.now) (F.before form.now) number (Some line.now) ≡ Ok line.now)
        (λ end. judged (F.rules form.now) (F.before form.now) number (Some line.now) ≡ Err end) }
    ensures in_range { OnOk result ((F.rules form.now).in_range line.now ≡ true) }
{
    if !form.in_range(line) {
        return Err(End::Fault(LineFault(number, Reason::Range)));
    }
    if !form.in_order(line) {
        return Err(End::Fault(LineFault(number, Reason::Order)));
    }
    Ok(())
}

/// The line that these bytes spell, or the first reason why it may not stand there.
fn checked<F: LineForm>(
    alloc: Global,
    form: &F,
    number: u64,
    line: &[u8],
) -> Result<F::Line, End<LineFault>>
    ensures exact { Answers result
        (judged (F.rules form.now) (F.before form.now) number ((F.rules form.now).spelled (words_of line.now))) }
    ensures allowed { IfOk result (λ l. (F.rules form.now).in_range l ≡ true) }
{
    let Some(line) = form.line_of(alloc, line)? else {
        return Err(End::Fault(LineFault(number, Reason::Form)));
    };
    allowed(form, number, &line)?;
    Ok(line)
}

/// Collects the first lines of a text, from the one with the number `first` on, as long as the form tells
/// them without a search: the number of the line after them, and what is left of the text.
#[inline(never)]
fn known_lines<'a, F: LineForm>(
    form: &mut F,
    first: u64,
    text: &'a [u8],
) -> Result<(u64, &'a [u8]), End<LineFault>>
    requires { first + length text.now < 2 ^ 64 }
    ensures goes_on { IfOk result (λ left. with_front (F.items form.new)
        (read (F.rules form.old) (F.before form.new) left.0 (lines_of left.1.now))
        ≡ with_front (F.items form.old) (read (F.rules form.old) (F.before form.old) first (lines_of text.now))) }
    ensures counted { IfOk result (λ left. left.0 + length left.1.now ≤ first + length text.now) }
    ensures shorter { IfOk result (λ left. length left.1.now ≤ length text.now) }
    ensures exact { IfErr result (λ end. Answers {A = Unit {0}} (Err end)
        (read (F.rules form.old) (F.before form.old) first (lines_of text.now)).end) }
    ensures collected { IfErr result (λ end. UnlessNoMemory {A = Unit {0}} (Err end) (F.items form.new
        ≡ F.items form.old ++ (read (F.rules form.old) (F.before form.old) first (lines_of text.now)).items)) }
    ensures begun { FirstCollected (F.items form.old) (F.items form.new)
        (read (F.rules form.old) (F.before form.old) first (lines_of text.now)).items }
    ensures kept { F.rules form.new ≡ F.rules form.old }
{
    let mut number = first;
    let mut rest = text;
    while let Some((line, next)) = form.first_line(rest) {
        allowed(form, number, &line)?;
        form.add(line)?;
        number += 1;
        rest = next;
    }
    Ok((number, rest))
}

/// Reads the lines of a text from the one with the number `first` on, up to `end` and its newline. Before
/// a line that is refused, the form has collected the lines that stand before it.
pub fn read_lines<F: LineForm>(
    alloc: Global,
    form: &mut F,
    first: u64,
    text: &[u8],
) -> Result<(), End<LineFault>>
    // Each line has a number.
    requires { first + length text.now < 2 ^ 64 }

    // The right answer, but for want of memory.
    ensures exact { Answers result
        (read (F.rules form.old) (F.before form.old) first (lines_of text.now)).end }

    // What was collected, at a fault too.
    ensures collected { UnlessNoMemory result (F.items form.new ≡ F.items form.old
        ++ (read (F.rules form.old) (F.before form.old) first (lines_of text.now)).items) }

    // After want of memory the first of these were collected.
    ensures begun { AfterNoMemory result (FirstCollected (F.items form.old) (F.items form.new)
        (read (F.rules form.old) (F.before form.old) first (lines_of text.now)).items) }
    ensures kept { F.rules form.new ≡ F.rules form.old }
{
    let mut number = first;
    let mut rest = text;
    loop {
        let (at, left) = known_lines(form, number, rest)?;
        let (line, next) = cut(left, b'\n');
        let Some(next) = next else {
            return Err(End::Fault(LineFault(at, Reason::Form)));
        };
        if is_word(line, b"end") {
            if next.is_empty() {
                return Ok(());
            }
            return Err(End::Fault(LineFault(at + 1, Reason::Form)));
        }
        let line = checked(alloc, form, at, line)?;
        form.add(line)?;
        number = at + 1;
        rest = next;
    }
}
