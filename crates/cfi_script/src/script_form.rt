ghost use Rattle.std.specs.Prelude.{◌≡◌, ◌+◌, ◌<◌, ◌^◌, ◌++◌, nat_le, ◌&&◌, true, length, IfOk, OnOk, OnErr, Ok};
ghost use Rattle.rv_image.specs.declared.profile.TheConstants.{MOST_HARTS};
ghost use Rattle.text_lines.specs.Answers.{Answers};
ghost use Rattle.text_lines.specs.Lines.{lines_of};
ghost use Rattle.text_lines.specs.Reading.{if_right};
ghost use Rattle.cfi_script.specs.Script.{IsScript};
ghost use Rattle.cfi_script.specs.ScriptText.{changes_of_lines, for_several, line_changes, in_range, script_of, script_rules};

use crate::script::Script;
use crate::script_line::{ScriptLine, harts_of, line_of};
use crate::script_turns::read_turns;
use rv_image::memory_map::DATA_END;
use rv_image::profile::MOST_HARTS;
use rv_machine::Change;
use rv_word::{End, NoMemory};
use std::alloc::Global;
use text_lines::{LineFault, LineForm, MAX_STEP, Reason, after_one_of, cut, read_lines};

fn in_range(line: &ScriptLine) -> bool
    ensures { result ≡ in_range line.now }
{
    let len = line.bytes.len() as u64;
    line.step <= MAX_STEP && len <= DATA_END && u64::from(line.address) <= DATA_END - len
}

/// Adds the changes of a line, all of them or none.
fn push_line(changes: &mut Vec<(u64, Change)>, line: &ScriptLine) -> Result<(), NoMemory>
    requires { in_range line.now ≡ true }
    ensures pushed { OnOk result (changes.new.items ≡ changes.old.items ++ line_changes line.now) }
    ensures refused { OnErr result (changes.new.items ≡ changes.old.items) }
{
    changes.reserve(line.bytes.len())?;
    let mut address = u64::from(line.address);
    for byte in line.bytes.as_slice() {
        if let Some(change) = Change::new(address, *byte) {
            changes.push_reserved((line.step, change));
        }
        address += 1;
    }
    Ok(())
}

/// The form of a script's lines: the step of the line before, and the changes so far.
#[derive(Drop)]
struct ScriptForm {
    before: u64,
    changes: Vec<(u64, Change)>,
}

impl LineForm for ScriptForm {
    type Line = ScriptLine;

    type Before = u64;

    type Item = (u64, Change);

    ghost rules = { λ form. script_rules };

    ghost before = { λ form. form.before };

    ghost items = { λ form. form.changes.items };

    fn line_of(&self, alloc: Global, line: &[u8]) -> Result<Option<ScriptLine>, NoMemory> {
        line_of(alloc, line)
    }

    fn in_range(&self, line: &ScriptLine) -> bool {
        in_range(line)
    }

    fn in_order(&self, line: &ScriptLine) -> bool {
        self.before <= line.step
    }

    fn add(&mut self, line: ScriptLine) -> Result<(), NoMemory> {
        push_line(&mut self.changes, &line)?;
        self.before = line.step;
        Ok(())
    }
}

/// The first lines that a script may have.
const NAMES: [&[u8]; 2] = [b"rvcfi-script 1", b"rvcfi-script 2"];

/// The script of so many harts, of their turns and of the changes that stand in a text, whose first line has the
/// number `first`.
fn with_changes(
    alloc: Global,
    harts: u8,
    turns: Vec<(u8, u64)>,
    first: u64,
    text: &[u8],
) -> Result<Script, End<LineFault>>
    requires { first + length text.now < 2 ^ 64 }
    ensures exact { Answers result (if_right (changes_of_lines first (lines_of text.now))
        (λ changes. Ok (record { harts = harts; turns = turns.items; changes = changes }))) }
    ensures ordered { IfOk result (λ script. IsScript script.changes) }
{
    let mut form = ScriptForm {
        before: 0,
        changes: Vec::new(alloc),
    };
    read_lines(alloc, &mut form, first, text)?;
    Ok(Script::with(harts, turns, form.changes))
}

/// Whether a script may be for so many harts.
fn is_count(harts: u64) -> bool
    ensures { result ≡ (nat_le 1 harts && nat_le harts MOST_HARTS) }
{
    1 <= harts && harts <= MOST_HARTS
}

/// The script for several harts that stands after the first line of a text.
fn for_several(alloc: Global, text: &[u8]) -> Result<Script, End<LineFault>>
    ensures exact { Answers result (for_several (lines_of text.now)) }
    ensures ordered { IfOk result (λ script. IsScript script.changes) }
{
    let (line, rest) = cut(text, b'\n');
    let Some(rest) = rest else {
        return Err(End::Fault(LineFault(2, Reason::Form)));
    };
    let Some(harts) = harts_of(line) else {
        return Err(End::Fault(LineFault(2, Reason::Form)));
    };
    if !is_count(harts) {
        return Err(End::Fault(LineFault(2, Reason::Range)));
    }
    let harts = harts as u8;
    let mut turns = Vec::new(alloc);
    let (number, rest) = read_turns(&mut turns, harts, rest)?;
    with_changes(alloc, harts, turns, number, rest)
}

impl Script {
    /// Reads the text of a script, of which it keeps no copy. The lines of a text count from 1.
    pub fn read(alloc: Global, text: &[u8]) -> Result<Script, End<LineFault>>
        // The right answer, but for want of memory.
        ensures exact { Answers result (script_of text.now) }
        ensures ordered { IfOk result (λ script. IsScript script.changes) }
    {
        let (which, rest) = after_one_of(text, &NAMES)?;
        if which == 0 {
            with_changes(alloc, 1, Vec::new(alloc), 2, rest)
        } else {
            for_several(alloc, rest)
        }
    }
}
