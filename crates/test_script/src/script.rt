use cfi_script::{Meddler, Script};
use rv_image::Image;
use rv_machine::{Change, Machine};
use rv_word::{End, NoMemory};
use std::alloc::{AllocError, Global};
use text_lines::LineFault;

/// Texts, and what each is read as, with `~` between two rows.
const TEXTS: &str = "\
    \x20= line 1: Form~\
    \n = line 1: Form~\
    end\n = line 1: Form~\
    rvcfi-script 1 = line 1: Form~\
    rvcfi-script 3\nend\n = line 1: Form~\
    rvcfi-script 12\nend\n = line 1: Form~\
    rvcfi-script 1\nharts 1\nend\n = line 2: Form~\
    rvcfi-script 1\nturn 0 1\nend\n = line 2: Form~\
    rvcfi-script 1 \nend\n = line 1: Form~\
    rvcfi-script  1\nend\n = line 1: Form~\
    rvcfi-graph 1\nend\n = line 1: Form~\
    Rvcfi-script 1\nend\n = line 1: Form~\
    rvcfi-script 1\r\nend\r\n = line 1: Form~\
    rvcfi-script 1\n = line 2: Form~\
    rvcfi-script 1\nend\n = a script~\
    rvcfi-script 1\nend = line 2: Form~\
    rvcfi-script 1\nend\n\n = line 3: Form~\
    rvcfi-script 1\nend\nx = line 3: Form~\
    rvcfi-script 1\nend\nend\n = line 3: Form~\
    rvcfi-script 1\n end\n = line 2: Form~\
    rvcfi-script 1\nend \n = line 2: Form~\
    rvcfi-script 1\nEND\n = line 2: Form~\
    rvcfi-script 1\n\nend\n = line 2: Form~\
    rvcfi-script 1\nat 1 10001000 00\nend\n = line 2: Range~\
    rvcfi-script 1\nat 1 00010000 0\nend\n = line 2: Form~\
    rvcfi-script 1\nat 2 00000000 00\nat 1 00000000 00\nend\n = line 3: Order~\
    rvcfi-script 1\nat 1 00000000 00\n = line 3: Form~\
    rvcfi-script 1\nat 1 00000000 00 = line 2: Form~\
    rvcfi-script 1\nat 1 00000000 00\nend = line 3: Form~\
    rvcfi-script 1\nat 1 00000000 00\n\nend\n = line 3: Form~\
    rvcfi-script 1\nat 1 00000000 00\nend\nat 1 00000000 00\n = line 4: Form~\
    rvcfi-script 1\nat  1 00000000 00\nend\n = line 2: Form~\
    rvcfi-script 1\nat 1  00000000 00\nend\n = line 2: Form~\
    rvcfi-script 1\nat 1 00000000  00\nend\n = line 2: Form~\
    rvcfi-script 1\nat 1 00000000 00 \nend\n = line 2: Form~\
    rvcfi-script 1\n at 1 00000000 00\nend\n = line 2: Form~\
    rvcfi-script 1\nat\t1 00000000 00\nend\n = line 2: Form~\
    rvcfi-script 1\nat 1 00000000 00\r\nend\n = line 2: Form~\
    rvcfi-script 1\nAt 1 00000000 00\nend\n = line 2: Form~\
    rvcfi-script 1\nto 1 00000000 00\nend\n = line 2: Form~\
    rvcfi-script 1\nat 1 0000000A 00\nend\n = line 2: Form~\
    rvcfi-script 1\nat 1 0000000a 0A\nend\n = line 2: Form~\
    rvcfi-script 1\nat 1 0000000a F0\nend\n = line 2: Form~\
    rvcfi-script 1\nat 1 0000000a 0a\nend\n = a script~\
    rvcfi-script 1\nat 0 00000000 00\nend\n = a script~\
    rvcfi-script 1\nat 00 00000000 00\nend\n = line 2: Form~\
    rvcfi-script 1\nat 01 00000000 00\nend\n = line 2: Form~\
    rvcfi-script 1\nat -1 00000000 00\nend\n = line 2: Form~\
    rvcfi-script 1\nat +1 00000000 00\nend\n = line 2: Form~\
    rvcfi-script 1\nat a 00000000 00\nend\n = line 2: Form~\
    rvcfi-script 1\nat 1a 00000000 00\nend\n = line 2: Form~\
    rvcfi-script 1\nat : 00000000 00\nend\n = line 2: Form~\
    rvcfi-script 1\nat / 00000000 00\nend\n = line 2: Form~\
    rvcfi-script 1\nat 1000000000 00000000 00\nend\n = a script~\
    rvcfi-script 1\nat 1000000001 00000000 00\nend\n = line 2: Range~\
    rvcfi-script 1\nat 18446744073709551617 00000000 00\nend\n = line 2: Range~\
    rvcfi-script 1\nat 9999999999999999999999999999999999999999 00000000 00\nend\n = line 2: Range~\
    rvcfi-script 1\nat 0000000000000000000000000000000000000001 00000000 00\nend\n = line 2: Form~\
    rvcfi-script 1\nat 999999999999999999999999999999999999999x 00000000 00\nend\n = line 2: Form~\
    rvcfi-script 1\nat 1 0000000 00\nend\n = line 2: Form~\
    rvcfi-script 1\nat 1 000000000 00\nend\n = line 2: Form~\
    rvcfi-script 1\nat 1 g0000000 00\nend\n = line 2: Form~\
    rvcfi-script 1\nat\nend\n = line 2: Form~\
    rvcfi-script 1\nat 1\nend\n = line 2: Form~\
    rvcfi-script 1\nat 1 00000000\nend\n = line 2: Form~\
    rvcfi-script 1\nat 1 00000000 \nend\n = line 2: Form~\
    rvcfi-script 1\nat 1 00000000 00 00\nend\n = line 2: Form~\
    rvcfi-script 1\nat 1 00000000 000\nend\n = line 2: Form~\
    rvcfi-script 1\nat 1 00000000 0g\nend\n = line 2: Form~\
    rvcfi-script 1\nat 1 00000000 g0\nend\n = line 2: Form~\
    rvcfi-script 1\nat 1 10000fff 00\nend\n = a script~\
    rvcfi-script 1\nat 1 10000ffe 0000\nend\n = a script~\
    rvcfi-script 1\nat 1 10000fff 0000\nend\n = line 2: Range~\
    rvcfi-script 1\nat 1 40000000 00\nend\n = line 2: Range~\
    rvcfi-script 1\nat 1 60000000 0000000000000000\nend\n = line 2: Range~\
    rvcfi-script 1\nat 1 ffffffff 00\nend\n = line 2: Range~\
    rvcfi-script 1\nat 1 ffffffff 0\nend\n = line 2: Form~\
    rvcfi-script 1\nat 1000000001 10001000 0\nend\n = line 2: Form~\
    rvcfi-script 1\nat 2 00000000 00\nat 1 10001000 00\nend\n = line 3: Range~\
    rvcfi-script 1\nat 2 00000000 00\nat 1 10001000 0\nend\n = line 3: Form~\
    rvcfi-script 1\nat 2 00000000 00\nat 1 00000000 00\nat x\nend\n = line 3: Order~\
    rvcfi-script 1\nat 5 00000000 00\nat 5 00000000 00\nend\n = a script~\
    rvcfi-script 1\nat 5 00000000 00\nat 7 00000000 00\nat 6 00000000 00\nend\n = line 4: Order~\
    rvcfi-script 1\nat 5 00000000 00\nat 1000000001 00000000 00\nend\n = line 3: Range~\
    rvcfi-script 1\nat 10 00000000 00\nat 9 00000000 00\nend\n = line 3: Order~\
    rvcfi-script 1\nat 9 00000000 00\nat 10 00000000 00\nend\n = a script\
";

/// Whether a text is read as this, in words.
pub(crate) fn is_read_as(alloc: Global, text: &[u8], expected: &str) -> bool {
    match Script::read(alloc, text) {
        Ok(_) => expected == "a script",
        Err(end) => is_spelled(alloc, end, expected),
    }
}

/// Whether a refusal is spelled so.
fn is_spelled(alloc: Global, end: End<LineFault>, expected: &str) -> bool {
    match format!(in alloc; "{end}") {
        Ok(text) => text.as_str() == expected,
        Err(_) => false,
    }
}

/// Whether a row says what its text is read as.
fn is_right(alloc: Global, row: &str) -> bool {
    let (text, expected) = row.split_once(" = ").unwrap_or((row, ""));
    is_read_as(alloc, text.as_bytes(), expected)
}

#[test]
fn script_texts(rt: HostRuntime) {
    let mut count = 0_u32;
    for row in TEXTS.split('~') {
        assert!(rt; is_right(rt.alloc(), row), "{row}");
        count = count.saturating_add(1);
    }
    assert!(rt; count == 86);
}

#[test]
fn no_text(rt: HostRuntime) {
    assert!(rt; is_read_as(rt.alloc(), b"\xff\n", "line 1: Form"));
}

/// A start, so many times a piece, and an end.
pub(crate) fn text_with(
    alloc: Global,
    start: &[u8],
    piece: &[u8],
    count: usize,
    end: &[u8],
) -> Result<Vec<u8>, AllocError> {
    let mut text = Vec::from_slice(alloc, start)?;
    for _ in 0..count {
        text.extend_from_slice(piece)?;
    }
    text.extend_from_slice(end)?;
    Ok(text)
}

/// A text: its start, what then follows how many times, and its end. Then how many changes
/// it has and the last of them, or as what it is refused.
struct Long(
    &'static [u8],
    &'static [u8],
    usize,
    &'static [u8],
    Result<(usize, (u64, u64, u8)), &'static str>,
);

static LONG: [Long; 6] = [
    Long(
        b"rvcfi-script 1\nat 4 00000000 ",
        b"3",
        8192,
        b"\nend\n",
        Ok((4096, (4, 0xfff, 0x33))),
    ),
    Long(
        b"rvcfi-script 1\nat 4 00000000 ",
        b"3",
        8194,
        b"\nend\n",
        Err("line 2: Form"),
    ),
    Long(
        b"rvcfi-script 1\nat 4 00000000 ",
        b"3",
        8191,
        b"\nend\n",
        Err("line 2: Form"),
    ),
    Long(
        b"rvcfi-script 1\nat 4 10000000 ",
        b"3",
        8192,
        b"\nend\n",
        Ok((4096, (4, 0x1000_0fff, 0x33))),
    ),
    Long(
        b"rvcfi-script 1\nat 4 10000001 ",
        b"3",
        8192,
        b"\nend\n",
        Err("line 2: Range"),
    ),
    Long(
        b"rvcfi-script 1\n",
        b"at 8 00000020 5a\n",
        200_000,
        b"end\n",
        Ok((200_000, (8, 0x20, 0x5a))),
    ),
];

/// Whether a long text is read as its row says.
fn is_long(alloc: Global, row: &Long) -> Result<bool, AllocError> {
    let text = text_with(alloc, row.0, row.1, row.2, row.3)?;
    Ok(is_read_so(alloc, &text, &row.4))
}

/// Whether a text is read as a row says.
fn is_read_so(alloc: Global, text: &[u8], read: &Result<(usize, (u64, u64, u8)), &str>) -> bool {
    match read {
        Ok((count, last)) => ends_so(alloc, text, *count, last),
        Err(expected) => is_read_as(alloc, text, expected),
    }
}

/// Whether a text is a script of so many changes, and this one last.
fn ends_so(alloc: Global, text: &[u8], count: usize, last: &(u64, u64, u8)) -> bool {
    match Script::read(alloc, text) {
        Ok(script) => script.as_slice().len() == count && is_change(script.as_slice().last(), last),
        Err(_) => false,
    }
}

/// Whether a script has a change with this step, address and byte.
fn is_change(change: Option<&(u64, Change)>, row: &(u64, u64, u8)) -> bool {
    match change {
        Some((step, change)) => {
            *step == row.0 && change.addr() == row.1 && change.byte() == row.2
        }
        None => false,
    }
}

#[test]
fn long_texts(rt: HostRuntime) {
    for row in &LONG {
        let right = is_long(rt.alloc(), row);
        assert!(rt; matches!(right, Ok(true)), "{} times", row.2);
    }
}

/// A script, and its changes.
struct Accepted(&'static [u8], &'static [(u64, u64, u8)]);

static ACCEPTED: [Accepted; 5] = [
    Accepted(b"rvcfi-script 1\nend\n", &[]),
    Accepted(b"rvcfi-script 1\nat 0 00000000 ff\nend\n", &[(0, 0, 255)]),
    Accepted(
        b"rvcfi-script 1\nat 40 0ffffff8 e4000040\nend\n",
        &[
            (40, 0x0fff_fff8, 0xe4),
            (40, 0x0fff_fff9, 0),
            (40, 0x0fff_fffa, 0),
            (40, 0x0fff_fffb, 0x40),
        ],
    ),
    Accepted(
        b"rvcfi-script 1\nat 7 00010000 0a\nat 7 0000ffff 1b2c\nat 7 00010000 3d\nend\n",
        &[
            (7, 65536, 10),
            (7, 65535, 27),
            (7, 65536, 44),
            (7, 65536, 61),
        ],
    ),
    Accepted(
        b"rvcfi-script 1\nat 9 10000fff 01\nat 10 00000000 9f\nat 1000000000 0badcafe 10\nend\n",
        &[
            (9, 0x1000_0fff, 1),
            (10, 0, 0x9f),
            (1_000_000_000, 0x0bad_cafe, 16),
        ],
    ),
];

/// Whether a script is the list of these changes.
fn has_changes(script: &Script, rows: &[(u64, u64, u8)]) -> bool {
    let changes = script.as_slice();
    for (k, row) in rows.iter().enumerate() {
        if !is_change(changes.get(k), row) {
            return false;
        }
    }
    changes.len() == rows.len()
}

/// Whether a script that is made of the changes of another one is the list of these.
fn is_copied(alloc: Global, script: &Script, rows: &[(u64, u64, u8)]) -> bool {
    match Script::of(alloc, 1, &[], script.as_slice()) {
        Ok(copy) => has_changes(&copy, rows),
        Err(_) => false,
    }
}

/// Whether a text is read as these changes, and so is a copy.
fn is_script(alloc: Global, text: &[u8], rows: &[(u64, u64, u8)]) -> bool {
    match Script::read(alloc, text) {
        Ok(script) => has_changes(&script, rows) && is_copied(alloc, &script, rows),
        Err(_) => false,
    }
}

#[test]
fn accepted_scripts(rt: HostRuntime) {
    for row in &ACCEPTED {
        assert!(rt; is_script(rt.alloc(), row.0, row.1));
    }
}

const LINES: &[u8] = b"rvcfi-script 1\nat 3 00000010 0102\nat 5 00010000 aa\n\
at 5 00000010 ff00\nat 9 10000fff 7f\nend\n";

/// A number of steps, and the changes that come after it.
struct Planned(u64, &'static [(u64, u8)]);

static PLANNED: [Planned; 10] = [
    Planned(0, &[]),
    Planned(2, &[]),
    Planned(3, &[(0x10, 1), (0x11, 2)]),
    Planned(4, &[]),
    Planned(5, &[(0x1_0000, 0xaa), (0x10, 0xff), (0x11, 0)]),
    Planned(6, &[]),
    Planned(9, &[(0x1000_0fff, 0x7f)]),
    Planned(10, &[]),
    Planned(u64::MAX, &[]),
    Planned(3, &[(0x10, 1), (0x11, 2)]),
];

fn machine(alloc: Global) -> Result<Machine, NoMemory> {
    Machine::new(alloc, &Image::of(&[0x73, 0, 0, 0], &[]), &[], 1)
}

/// Whether the changes from an index on have these addresses and bytes. (A slice, made where a call has
/// changed the vector, is slow to check.)
fn go_on(changes: &Vec<Change>, from: usize, rows: &[(u64, u8)]) -> bool {
    let rest = changes.get(from..).unwrap_or(&[]);
    for (k, row) in rows.iter().enumerate() {
        if !is_planned(rest.get(k), row) {
            return false;
        }
    }
    rest.len() == rows.len()
}

/// Whether there is a change, with this address and byte.
fn is_planned(change: Option<&Change>, row: &(u64, u8)) -> bool {
    match change {
        Some(change) => change.addr() == row.0 && change.byte() == row.1,
        None => false,
    }
}

/// Whether a script adds the changes of a row.
fn plans(
    alloc: Global,
    script: &mut Script,
    machine: &Machine,
    into: &mut Vec<Change>,
    row: &Planned,
) -> bool {
    let from = into.len();
    script.meddle(alloc, row.0, machine, into).is_ok() && go_on(into, from, row.1)
}

/// Whether a script adds the changes of each row; if not, the number of steps of the first that it does not.
fn plans_each(
    alloc: Global,
    script: &mut Script,
    machine: &Machine,
    rows: &[Planned],
) -> Result<(), u64> {
    let mut into = Vec::new(alloc);
    for row in rows {
        if !plans(alloc, script, machine, &mut into, row) {
            return Err(row.0);
        }
    }
    Ok(())
}

/// The same on a machine that has not run.
fn plans_so(alloc: Global, script: &mut Script, rows: &[Planned]) -> Result<(), u64> {
    match machine(alloc) {
        Ok(machine) => plans_each(alloc, script, &machine, rows),
        Err(NoMemory) => Err(0),
    }
}

/// The same of a script that is read.
fn is_planned_so(alloc: Global, text: &[u8], rows: &[Planned]) -> Result<(), u64> {
    match Script::read(alloc, text) {
        Ok(mut script) => plans_so(alloc, &mut script, rows),
        Err(_) => Err(0),
    }
}

#[test]
fn planned_changes(rt: HostRuntime) {
    let planned = is_planned_so(rt.alloc(), LINES, &PLANNED);
    assert!(rt; planned.is_ok(), "step {}", planned.err().unwrap_or(0));
}

#[test]
fn no_script(rt: HostRuntime) {
    let mut script = Script::none(rt.alloc());
    assert!(rt; plans_so(rt.alloc(), &mut script, &[Planned(3, &[])]).is_ok());
}
