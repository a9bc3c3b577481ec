//! Scripts for several harts: what their texts are read as, and whose turn it is at each step.

use crate::script::{is_read_as, text_with};
use cfi_script::{Meddler, Script};
use rv_image::{Image, ImageVersion};
use rv_machine::Machine;
use rv_word::{End, NoMemory};
use std::alloc::{AllocError, Global};
use std::fmt::Write;
use text_lines::LineFault;

/// What stands after the first line of texts that are refused, and as what, with `~` between two rows.
const REFUSED: &str = "\
    \x20= line 2: Form~\
    \n = line 2: Form~\
    end\n = line 2: Form~\
    harts 2 = line 2: Form~\
    harts 2\n = line 3: Form~\
    harts\nend\n = line 2: Form~\
    harts \nend\n = line 2: Form~\
    harts 2 \nend\n = line 2: Form~\
    harts 2 2\nend\n = line 2: Form~\
    harts  2\nend\n = line 2: Form~\
    \x20harts 2\nend\n = line 2: Form~\
    harts\t2\nend\n = line 2: Form~\
    harts 2\r\nend\n = line 2: Form~\
    hart 2\nend\n = line 2: Form~\
    Harts 2\nend\n = line 2: Form~\
    harts x\nend\n = line 2: Form~\
    harts -1\nend\n = line 2: Form~\
    harts +1\nend\n = line 2: Form~\
    harts 02\nend\n = line 2: Form~\
    harts 00\nend\n = line 2: Form~\
    harts 0\nend\n = line 2: Range~\
    harts 9\nend\n = line 2: Range~\
    harts 256\nend\n = line 2: Range~\
    harts 257\nend\n = line 2: Range~\
    harts 4294967296\nend\n = line 2: Range~\
    harts 4294967297\nend\n = line 2: Range~\
    harts 18446744073709551617\nend\n = line 2: Range~\
    harts 0\nturn 0 0\nx = line 2: Range~\
    harts x\nturn 0 0\nx = line 2: Form~\
    turn 0 1\nharts 2\nend\n = line 2: Form~\
    at 1 00000000 00\nharts 2\nend\n = line 2: Form~\
    end\nharts 2\nend\n = line 2: Form~\
    harts 2\nharts 2\nend\n = line 3: Form~\
    harts 2\nturn 1 1\nharts 2\nend\n = line 4: Form~\
    harts 2\nturn 0 1\nat 1 00000000 00\nharts 2\nend\n = line 5: Form~\
    harts 2\nend = line 3: Form~\
    harts 2\nend\n\n = line 4: Form~\
    harts 2\nend\nend\n = line 4: Form~\
    harts 2\nend\nturn 0 1\n = line 4: Form~\
    harts 2\n\nend\n = line 3: Form~\
    harts 2\nx\nend\n = line 3: Form~\
    harts 2\nturn 0 1 = line 3: Form~\
    harts 2\nturn 0 1\n = line 4: Form~\
    harts 2\nturn 0 1\nturn 0 1 = line 4: Form~\
    harts 2\nturn 0 1\nend = line 4: Form~\
    harts 2\nturn 0 1\n\nend\n = line 4: Form~\
    harts 2\nturn\nend\n = line 3: Form~\
    harts 2\nturn 0\nend\n = line 3: Form~\
    harts 2\nturn 0 \nend\n = line 3: Form~\
    harts 2\nturn 0 1 \nend\n = line 3: Form~\
    harts 2\nturn 0 1 1\nend\n = line 3: Form~\
    harts 2\nturn  0 1\nend\n = line 3: Form~\
    harts 2\nturn 0  1\nend\n = line 3: Form~\
    harts 2\n turn 0 1\nend\n = line 3: Form~\
    harts 2\nturns 0 1\nend\n = line 3: Form~\
    harts 2\nTurn 0 1\nend\n = line 3: Form~\
    harts 2\nturn x 1\nend\n = line 3: Form~\
    harts 2\nturn 0 x\nend\n = line 3: Form~\
    harts 2\nturn 0 1a\nend\n = line 3: Form~\
    harts 2\nturn -0 1\nend\n = line 3: Form~\
    harts 2\nturn 00 1\nend\n = line 3: Form~\
    harts 2\nturn 01 1\nend\n = line 3: Form~\
    harts 2\nturn 0 01\nend\n = line 3: Form~\
    harts 2\nturn 0 00\nend\n = line 3: Form~\
    harts 2\nturn 2 01\nend\n = line 3: Form~\
    harts 2\nturn 2 1\nend\n = line 3: Range~\
    harts 1\nturn 1 1\nend\n = line 3: Range~\
    harts 8\nturn 8 1\nend\n = line 3: Range~\
    harts 2\nturn 256 1\nend\n = line 3: Range~\
    harts 2\nturn 18446744073709551616 1\nend\n = line 3: Range~\
    harts 2\nturn 0 0\nend\n = line 3: Range~\
    harts 2\nturn 0 1000000001\nend\n = line 3: Range~\
    harts 2\nturn 0 4294967297\nend\n = line 3: Range~\
    harts 2\nturn 0 18446744073709551617\nend\n = line 3: Range~\
    harts 2\nturn 2 1 = line 3: Form~\
    harts 2\nturn 0 1\nturn 2 1\nend\n = line 4: Range~\
    harts 2\nturn 0 1\nturn 1 0\nx\n = line 4: Range~\
    harts 2\nturn 1 1\nturn 1 1\nturn x\nend\n = line 5: Form~\
    harts 2\nat 1 00000000 00\nturn 0 1\nend\n = line 4: Form~\
    harts 2\nat 1 00000000 00\nturn 2 0\nend\n = line 4: Form~\
    harts 2\nturn 0 5\nat 1 00000000 00\nturn 0 1\nend\n = line 5: Form~\
    harts 2\nturn 0 5\nat 1000000001 00000000 00\nend\n = line 4: Range~\
    harts 2\nturn 0 5\nat 1 10001000 00\nend\n = line 4: Range~\
    harts 2\nturn 0 5\nat 2 00000000 00\nat 1 00000000 00\nend\n = line 5: Order~\
    harts 2\nat 2 00000000 00\nat 1 00000000 00\nend\n = line 4: Order~\
    harts 2\nturn 1 9\nat 0 00000000 0\nend\n = line 4: Form\
";

/// Whether a text of form 2 is refused as its row says.
fn is_refused(alloc: Global, row: &str) -> bool {
    let (rest, expected) = row.split_once(" = ").unwrap_or((row, ""));
    match text_with(alloc, b"rvcfi-script 2\n", &[], 0, rest.as_bytes()) {
        Ok(text) => is_read_as(alloc, &text, expected),
        Err(AllocError) => false,
    }
}

#[test]
fn refused_texts(rt: HostRuntime) {
    let mut count = 0_u32;
    for row in REFUSED.split('~') {
        assert!(rt; is_refused(rt.alloc(), row), "{row}");
        count = count.saturating_add(1);
    }
    assert!(rt; count == 86);
}

/// What stands after the first line of texts that are scripts, and what these are, with `~` between two rows.
const SCRIPTS: &str = "\
    harts 1\nend\n = harts 1~\
    harts 8\nend\n = harts 8~\
    harts 1\nturn 0 7\nend\n = harts 1, 0 for 7~\
    harts 2\nturn 1 1\nend\n = harts 2, 1 for 1~\
    harts 2\nturn 0 1000000000\nturn 1 1000000000\nend\n = harts 2, 0 for 1000000000, 1 for 1000000000~\
    harts 3\nturn 2 1\nturn 2 1\nturn 2 2\nend\n = harts 3, 2 for 1, 2 for 1, 2 for 2~\
    harts 8\nturn 7 3\nturn 0 2\nturn 3 5\nend\n = harts 8, 7 for 3, 0 for 2, 3 for 5~\
    harts 2\nat 0 00000010 5aff\nend\n = harts 2, 00000010 5a at 0, 00000011 ff at 0~\
    harts 2\nturn 1 20\nat 3 00000010 5a\nat 3 00000010 5b\nat 1000000000 10000fff 01\nend\n\
    \x20= harts 2, 1 for 20, 00000010 5a at 3, 00000010 5b at 3, 10000fff 01 at 1000000000\
";

/// Adds the turns of a script.
fn add_turns(text: &mut String, script: &Script) -> Result<(), AllocError> {
    for turn in script.turns() {
        let (hart, steps) = *turn;
        write!(text, ", {hart} for {steps}")?;
    }
    Ok(())
}

/// Adds the changes of a script.
fn add_changes(text: &mut String, script: &Script) -> Result<(), AllocError> {
    for row in script.as_slice() {
        let (step, change) = *row;
        let (address, byte) = (change.addr(), change.byte());
        write!(text, ", {address:08x} {byte:02x} at {step}")?;
    }
    Ok(())
}

/// Whether a script has these harts, turns and changes.
fn is_told(alloc: Global, script: &Script, expected: &str) -> bool {
    let harts = script.harts();
    match format!(in alloc; "harts {harts}") {
        Ok(mut text) => {
            add_turns(&mut text, script).is_ok()
                && add_changes(&mut text, script).is_ok()
                && text.as_str() == expected
        }
        Err(AllocError) => false,
    }
}

/// Whether a script and one that is made of its parts have these.
fn are_told(alloc: Global, script: &Script, expected: &str) -> bool {
    match Script::of(alloc, script.harts(), script.turns(), script.as_slice()) {
        Ok(copy) => is_told(alloc, script, expected) && is_told(alloc, &copy, expected),
        Err(NoMemory) => false,
    }
}

/// The script of form 2 with these lines.
fn script_of(alloc: Global, lines: &str) -> Result<Script, End<LineFault>> {
    match text_with(alloc, b"rvcfi-script 2\n", &[], 0, lines.as_bytes()) {
        Ok(text) => Script::read(alloc, &text),
        Err(AllocError) => Err(End::NoMemory),
    }
}

/// Whether a text is the script that its row says.
fn is_script(alloc: Global, row: &str) -> bool {
    let (lines, expected) = row.split_once(" = ").unwrap_or((row, ""));
    match script_of(alloc, lines) {
        Ok(script) => are_told(alloc, &script, expected),
        Err(_) => false,
    }
}

#[test]
fn accepted_texts(rt: HostRuntime) {
    let mut count = 0_u32;
    for row in SCRIPTS.split('~') {
        assert!(rt; is_script(rt.alloc(), row), "{row}");
        count = count.saturating_add(1);
    }
    assert!(rt; count == 9);
}

/// Whether a text is the script with these harts, turns and changes.
fn is_read_so(alloc: Global, text: &[u8], expected: &str) -> bool {
    match Script::read(alloc, text) {
        Ok(script) => is_told(alloc, &script, expected),
        Err(_) => false,
    }
}

const LONE: &[u8] = b"rvcfi-script 1\nat 2 00000004 07\nend\n";

#[test]
fn one_hart(rt: HostRuntime) {
    let none = Script::none(rt.alloc());
    assert!(rt; is_told(rt.alloc(), &none, "harts 1"));
    assert!(rt; is_read_so(rt.alloc(), LONE, "harts 1, 00000004 07 at 2"));
}

/// Whose turn it is: the lines of a script, how many harts a machine has, and steps each with the hart that the
/// script then answers, asked in this order of one script.
struct Asked(&'static str, u8, &'static [(u64, u8)]);

static ASKED: [Asked; 9] = [
    Asked("harts 1\nend\n", 1, &[(0, 0), (7, 0), (u64::MAX, 0)]),
    Asked("harts 2\nend\n", 2, &[(0, 0), (1, 0), (u64::MAX, 0)]),
    Asked(
        "harts 2\nturn 1 20\nend\n",
        2,
        &[(0, 1), (1, 1), (19, 1), (20, 0), (21, 0), (u64::MAX, 0)],
    ),
    Asked(
        "harts 2\nturn 1 20\nend\n",
        2,
        &[(u64::MAX, 0), (19, 1), (20, 0), (0, 1), (20, 0), (19, 1)],
    ),
    Asked(
        "harts 8\nturn 7 3\nturn 0 2\nturn 3 1000000000\nturn 5 1\nend\n",
        8,
        &[
            (0, 7),
            (2, 7),
            (3, 0),
            (4, 0),
            (5, 3),
            (6, 3),
            (1_000_000_004, 3),
            (1_000_000_005, 5),
            (1_000_000_006, 0),
        ],
    ),
    Asked(
        "harts 8\nturn 7 3\nturn 0 2\nturn 3 1000000000\nturn 5 1\nend\n",
        8,
        &[
            (1_000_000_005, 5),
            (1_000_000_004, 3),
            (5, 3),
            (1_000_000_005, 5),
            (4, 0),
            (3, 0),
            (2, 7),
            (5, 3),
        ],
    ),
    Asked(
        "harts 8\nturn 7 1\nturn 2 1\nturn 3 1\nturn 1 1\nend\n",
        3,
        &[(0, 0), (1, 2), (2, 0), (3, 1), (4, 0)],
    ),
    Asked(
        "harts 8\nturn 7 1\nturn 2 1\nturn 3 1\nturn 1 1\nend\n",
        1,
        &[(0, 0), (1, 0), (2, 0), (3, 0), (4, 0)],
    ),
    Asked(
        "harts 2\nturn 1 1\nturn 1 1\nturn 0 1\nturn 1 1\nend\n",
        8,
        &[(0, 1), (1, 1), (2, 0), (3, 1), (4, 0)],
    ),
];

/// A machine with so many harts.
fn machine(alloc: Global, harts: u8) -> Result<Machine, NoMemory> {
    let image = Image::of_version(ImageVersion::EightHarts, &[0x73, 0, 0, 0], &[]);
    Machine::new(alloc, &image, &[], harts.max(1))
}

/// Whether a script answers these harts.
fn answers(script: &mut Script, machine: &Machine, rows: &[(u64, u8)]) -> bool {
    for row in rows {
        let (step, hart) = *row;
        if machine.harts() == 0 || script.hart(step, machine) != hart {
            return false;
        }
    }
    true
}

/// The same on a machine with so many harts that has not run.
fn answers_so(alloc: Global, script: &mut Script, harts: u8, rows: &[(u64, u8)]) -> bool {
    match machine(alloc, harts) {
        Ok(machine) => answers(script, &machine, rows),
        Err(NoMemory) => false,
    }
}

/// The same of a row.
fn is_answered(alloc: Global, row: &Asked) -> bool {
    match script_of(alloc, row.0) {
        Ok(mut script) => answers_so(alloc, &mut script, row.1, row.2),
        Err(_) => false,
    }
}

#[test]
fn harts_in_turn(rt: HostRuntime) {
    for row in &ASKED {
        assert!(rt;
            is_answered(rt.alloc(), row),
            "{} with {} harts",
            row.0,
            row.1
        );
    }
}

/// Turns of which a text tells none: of no steps, of harts that no machine has, and of the most steps.
static TURNS: [(u8, u64); 7] = [
    (1, 0),
    (200, 2),
    (0, 0),
    (255, 1),
    (1, u64::MAX - 4),
    (1, 0),
    (2, u64::MAX),
];

static ANSWERS: [(u64, u8); 9] = [
    (0, 0),
    (2, 0),
    (3, 1),
    (u64::MAX - 2, 1),
    (u64::MAX - 1, 2),
    (u64::MAX, 2),
    (3, 1),
    (u64::MAX, 2),
    (2, 0),
];

/// Whether a script for so many harts, of these turns alone, has them and answers these harts.
fn is_made(alloc: Global, harts: u8, told: &str) -> bool {
    match Script::of(alloc, harts, &TURNS, &[]) {
        Ok(mut script) => {
            is_told(alloc, &script, told) && answers_so(alloc, &mut script, 3, &ANSWERS)
        }
        Err(NoMemory) => false,
    }
}

#[test]
fn made_of_parts(rt: HostRuntime) {
    let told =
        "harts 0, 1 for 0, 200 for 2, 0 for 0, 255 for 1, 1 for 18446744073709551611, 1 for 0, 2 for 18446744073709551615";
    assert!(rt; is_made(rt.alloc(), 0, told));
    assert!(rt; !is_made(rt.alloc(), 1, told));
}

/// A text of many turns: so many times a piece, and its end. Then as what it is refused, if it is.
struct Long(&'static [u8], usize, &'static [u8], Option<&'static str>);

static LONG: [Long; 6] = [
    Long(b"turn 1 1\nturn 0 1\n", 5000, b"end\n", None),
    Long(
        b"turn 1 1\nturn 0 1\n",
        5000,
        b"turn 2 1\nend\n",
        Some("line 10003: Range"),
    ),
    Long(
        b"turn 1 1\nturn 0 1\n",
        5000,
        b"turn 1\nend\n",
        Some("line 10003: Form"),
    ),
    Long(
        b"turn 1 1\nturn 0 1\n",
        5000,
        b"at 5 00000000 00\nat 4 00000000 00\nend\n",
        Some("line 10004: Order"),
    ),
    Long(
        b"turn 1 1\nturn 0 1\n",
        5000,
        b"end\nx",
        Some("line 10004: Form"),
    ),
    Long(
        b"turn 1 1\n",
        100_000,
        b"at 1 20000000 00\nend\n",
        Some("line 100003: Range"),
    ),
];

/// Whether a script of turns of one step, of hart 1 and hart 0 in turn, so many in all, answers their harts.
fn alternates(script: &mut Script, machine: &Machine, count: u64) -> bool {
    for step in 0..count {
        if machine.harts() == 0 {
            return false;
        }
        if u64::from(script.hart(step, machine)) != 1 - step % 2 {
            return false;
        }
    }
    answers(
        script,
        machine,
        &[
            (count, 0),
            (count - count % 2, 0),
            (0, 1),
            (1, 0),
            (9, 0),
            (8, 1),
        ],
    )
}

/// The same on a machine with two harts.
fn alternates_so(alloc: Global, script: &mut Script) -> bool {
    match machine(alloc, 2) {
        Ok(machine) => alternates(script, &machine, 10_000),
        Err(NoMemory) => false,
    }
}

/// Whether a text is read as a script whose harts step in turn.
fn is_in_turn(alloc: Global, text: &[u8]) -> bool {
    match Script::read(alloc, text) {
        Ok(mut script) => script.turns().len() == 10_000 && alternates_so(alloc, &mut script),
        Err(_) => false,
    }
}

/// Whether a text of many turns is read as its row says.
fn is_long(alloc: Global, row: &Long) -> Result<bool, AllocError> {
    let text = text_with(alloc, b"rvcfi-script 2\nharts 2\n", row.0, row.1, row.2)?;
    Ok(match row.3 {
        Some(expected) => is_read_as(alloc, &text, expected),
        None => is_in_turn(alloc, &text),
    })
}

#[test]
fn many_turns(rt: HostRuntime) {
    for row in &LONG {
        let right = is_long(rt.alloc(), row);
        assert!(rt; matches!(right, Ok(true)), "{} times", row.1);
    }
}
