//! The turns of a script's text.

ghost use Rattle.std.specs.Prelude.{◌≡◌, ◌+◌, ◌≤◌, ◌<◌, [], length, IfOk, IfSome, MatchResult, Ok, Err, Some, None, option_map, if◌then◌else◌};
ghost use Rattle.text_lines.specs.Answers.{Answers};
ghost use Rattle.text_lines.specs.Lines.{lines_of};
ghost use Rattle.cfi_script.specs.ScriptNumbers.{first_turn};
ghost use Rattle.cfi_script.specs.ScriptText.{turn_in_range, turns_read};

use crate::script_line::turn_of;
use rv_word::End;
use text_lines::{LineFault, MAX_STEP, Reason, cut};

/// The turn that the first line of a text is, if it is one and has a newline, and what stands after it.
fn first_turn(text: &[u8]) -> Option<((u64, u64), &[u8])>
    ensures turn { option_map (λ t. (t.0, lines_of t.1.now)) result ≡ first_turn (lines_of text.now) }
    ensures shorter { IfSome result (λ t. length t.1.now < length text.now) }
{
    let (line, rest) = cut(text, b'\n');
    let rest = rest?;
    let turn = turn_of(line)?;
    Some((turn, rest))
}

/// A turn, if it is of one of so many harts and has a number of steps that is allowed.
fn allowed(harts: u8, turn: (u64, u64)) -> Option<(u8, u64)>
    ensures { result ≡ if turn_in_range harts turn then Some turn else None }
{
    let (hart, steps) = turn;
    if hart >= u64::from(harts) {
        return None;
    }
    if steps < 1 || steps > MAX_STEP {
        return None;
    }
    Some((hart as u8, steps))
}

/// Reads the turns of so many harts that stand first in a text, whose first line has the number 3: the number of the
/// first line that is no turn, and the text from it on.
pub(crate) fn read_turns<'a>(
    turns: &mut Vec<(u8, u64)>,
    harts: u8,
    text: &'a [u8],
) -> Result<(u64, &'a [u8]), End<LineFault>>
    requires { turns.old.items ≡ [] }
    ensures read { MatchResult result
        (λ r. turns_read harts 3 (lines_of text.now) ≡ Ok (record { turns = turns.new.items; number = r.0; rest = lines_of r.1.now }))
        (λ end. Answers (Err end) (turns_read harts 3 (lines_of text.now))) }
    ensures lines { IfOk result (λ r. r.0 + length r.1.now ≤ 3 + length text.now) }
{
    let mut number = 3;
    let mut rest = text;
    loop {
        let Some((turn, next)) = first_turn(rest) else {
            return Ok((number, rest));
        };
        let Some(turn) = allowed(harts, turn) else {
            return Err(End::Fault(LineFault(number, Reason::Range)));
        };
        turns.push(turn)?;
        number += 1;
        rest = next;
    }
}
