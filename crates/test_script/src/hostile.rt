//! The hostile meddler on machines with several harts, by hand.

use cfi_script::Meddler;
use cfi_step::Hostile;
use rv_image::{Image, ImageVersion};
use rv_machine::{Change, Machine, Turn};
use std::alloc::{AllocError, Global};

/// Code whose first three words no hart executes. A hart loads its x2 and x3 from the 16 bytes at 10000h + 16 times
/// its number, in five steps; then it stores double words, an address and a value each, from 10080h on, the first in
/// four steps and each later one in five.
#[rattlefmt::skip]
static CODE: [u8; 56] = [
    0x73, 0x00, 0x10, 0x00,
    0x73, 0x00, 0x10, 0x00,
    0x73, 0x00, 0x10, 0x00,
    0x37, 0x03, 0x01, 0x00, // lui x6, 0x10
    0x93, 0x13, 0x45, 0x00, // slli x7, x10, 4
    0xb3, 0x83, 0x63, 0x00, // add x7, x7, x6
    0x03, 0xb1, 0x03, 0x00, // ld x2, 0(x7)
    0x83, 0xb1, 0x83, 0x00, // ld x3, 8(x7)
    0x13, 0x03, 0x03, 0x08, // addi x6, x6, 128
    0x83, 0x32, 0x03, 0x00, // ld x5, 0(x6)
    0x83, 0x33, 0x83, 0x00, // ld x7, 8(x6)
    0x23, 0xb0, 0x72, 0x00, // sd x7, 0(x5)
    0x13, 0x03, 0x03, 0x01, // addi x6, x6, 16
    0x6f, 0xf0, 0x1f, 0xff, // jal x0, -16
];

/// Where the shadow stack begins, and how many of its bytes are a hart's.
const S: u64 = 0x6000_0000;

const PART: u64 = 0x1_0000;

/// A machine: how many harts it has, and the x2 and x3 of the first of them; the others have not run. Then double words
/// of its memory, and the addresses of those that are zeroed, in their order.
struct Seen(
    u8,
    &'static [(u64, u64)],
    &'static [(u64, u64)],
    &'static [u64],
);

static SEEN: [Seen; 15] = [
    // One hart, and what is no site.
    Seen(
        1,
        &[(0x2_0000, S + 16)],
        &[
            (S + 8, 0x4000_0100),
            (S + 16, 0x4000_0300),
            (0x2_0008, 0x4000_0100),
            (0x2_0010, 0x4000_0104),
            (0x2_0018, 0x4000_0300),
        ],
        &[0x2_0008],
    ),
    // Two harts with equal x2: each has its own sites, and hart 0's come first.
    Seen(
        2,
        &[(0x2_0000, S + 16), (0x2_0000, S + PART + 16)],
        &[
            (S + 8, 0x4000_0100),
            (S + PART + 8, 0x4000_0200),
            (0x2_0000, 0x4000_0200),
            (0x2_0008, 0x4000_0100),
            (0x2_0010, 0x4000_0200),
        ],
        &[0x2_0008, 0x2_0000, 0x2_0010],
    ),
    // A site that both have is zeroed for each, since both are shown the same state.
    Seen(
        2,
        &[(0x2_0000, S + 16), (0x2_0000, S + PART + 16)],
        &[
            (S + 8, 0x4000_0100),
            (S + PART + 8, 0x4000_0100),
            (0x2_0000, 0x4000_0100),
        ],
        &[0x2_0000, 0x2_0000],
    ),
    // Each hart's own x2: what lies behind 4,096 bytes from it is left.
    Seen(
        2,
        &[(0x2_0000, S + 16), (0x2_0010, S + PART + 16)],
        &[
            (S + 8, 0x4000_0100),
            (S + PART + 8, 0x4000_0200),
            (0x2_0008, 0x4000_0200),
            (0x2_0ff8, 0x4000_0200),
            (0x2_1000, 0x4000_0100),
            (0x2_1008, 0x4000_0200),
            (0x2_1010, 0x4000_0200),
        ],
        &[0x2_0ff8, 0x2_1008],
    ),
    // What is a site in the other's part is none.
    Seen(
        2,
        &[(0x2_0000, S + 16), (0x2_0000, S + PART + 8)],
        &[
            (S + 8, 0x4000_0100),
            (S + PART + 8, 0x4000_0200),
            (0x2_0000, 0x4000_0200),
        ],
        &[],
    ),
    // Hart 1 is in the opening, its x3 is 0: no sites.
    Seen(
        2,
        &[(0x2_0000, S + 16)],
        &[
            (S + 8, 0x4000_0100),
            (S + PART + 8, 0x4000_0200),
            (0x2_0000, 0x4000_0200),
            (0x2_0008, 0x4000_0100),
        ],
        &[0x2_0008],
    ),
    // Hart 0 is in the opening, its x3 is S; hart 1 is not.
    Seen(
        2,
        &[(0x2_0000, S), (0x2_0000, S + PART + 16)],
        &[
            (S + 8, 0x4000_0100),
            (S + PART + 8, 0x4000_0200),
            (0x2_0000, 0x4000_0200),
            (0x2_0008, 0x4000_0100),
        ],
        &[0x2_0000],
    ),
    // The x3 of hart 1 is below its own part: no sites.
    Seen(
        2,
        &[(0x2_0000, S + 8), (0x2_0000, S + PART)],
        &[(S + 8, 0x4000_0100), (0x2_0000, 0x4000_0100)],
        &[],
    ),
    // Seven bytes are no slot.
    Seen(
        2,
        &[(0x2_0000, S + 8), (0x2_0000, S + PART + 15)],
        &[(S + PART + 8, 0x4000_0200), (0x2_0000, 0x4000_0200)],
        &[],
    ),
    // The x3 of hart 0 at the end of its part: its last slot is a site, and hart 1's first is not.
    Seen(
        2,
        &[(0x1000_0ff0, S + PART)],
        &[
            (S + 0xfff8, 0x4000_0100),
            (S + PART, 0x4000_0300),
            (S + PART + 8, 0x4000_0200),
            (0x1000_0ff0, 0x4000_0200),
            (0x1000_0ff8, 0x4000_0100),
        ],
        &[0x1000_0ff8],
    ),
    // And past it.
    Seen(
        2,
        &[(0x1000_0ff0, S + 2 * PART)],
        &[
            (S + 0xfff8, 0x4000_0100),
            (S + PART, 0x4000_0300),
            (S + PART + 8, 0x4000_0200),
            (0x1000_0ff0, 0x4000_0200),
            (0x1000_0ff8, 0x4000_0100),
        ],
        &[0x1000_0ff8],
    ),
    // The x3 of the last hart at the end of the shadow stack: slots that hold 0 make a 0 a site.
    Seen(
        8,
        &[
            (0x1000_0ff0, 0),
            (0x1000_0ff0, 0),
            (0x1000_0ff0, 0),
            (0x1000_0ff0, 0),
            (0x1000_0ff0, 0),
            (0x1000_0ff0, 0),
            (0x1000_0ff0, 0),
            (0x1000_0fe8, S + 8 * PART),
        ],
        &[
            (S + 8 * PART - 8, 0x4000_0100),
            (0x1000_0fe8, 0x4000_0200),
            (0x1000_0ff8, 0x4000_0100),
        ],
        &[0x1000_0ff0, 0x1000_0ff8],
    ),
    // Eight harts, harts rising.
    Seen(
        8,
        &[
            (0x2_0000, S + 16),
            (0x2_0000, S + PART + 16),
            (0x2_0000, S + 2 * PART + 16),
            (0x2_0000, S + 3 * PART + 8),
            (0x2_0000, S + 4 * PART + 8),
            (0x2_0000, S + 5 * PART + 16),
            (0x2_0000, S + 6 * PART + 8),
            (0x2_0000, S + 7 * PART + 16),
        ],
        &[
            (S + 8, 0x4000_0100),
            (S + PART + 8, 0x4000_0104),
            (S + 2 * PART + 8, 0x4000_0108),
            (S + 5 * PART + 8, 0x4000_0114),
            (S + 7 * PART + 8, 0x4000_011c),
            (0x2_0100, 0x4000_011c),
            (0x2_0108, 0x4000_0114),
            (0x2_0110, 0x4000_0108),
            (0x2_0118, 0x4000_0104),
            (0x2_0120, 0x4000_0100),
        ],
        EIGHT,
    ),
    // The x2 of hart 1 is the last address: behind it comes the first.
    Seen(
        2,
        &[(0x2_0000, S + 8), (u64::MAX - 7, S + PART + 16)],
        &[(S + PART + 8, 0x4000_0200), (0, 0x4000_0200)],
        &[0],
    ),
    // A double word that data do not hold whole is left, though it reads as a site.
    Seen(
        2,
        &[(0x2_0000, S + 8), (0x1000_0ff1, S + PART + 16)],
        &[
            (S + PART + 8, 0x4000_0200),
            (0x1000_0ff1, 0x4000_0200),
            (0x1000_0ff8, 0x40_0002_0000),
        ],
        &[0x1000_0ff1],
    ),
];

const EIGHT: &[u64] = &[0x2_0120, 0x2_0118, 0x2_0110, 0x2_0108, 0x2_0100];

/// Adds two double words.
fn add(data: &mut Vec<u8>, two: (u64, u64)) -> Result<(), AllocError> {
    data.extend_from_slice(&two.0.to_le_bytes())?;
    data.extend_from_slice(&two.1.to_le_bytes())
}

/// The data that the code reads.
fn data(alloc: Global, row: &Seen) -> Result<Vec<u8>, AllocError> {
    let mut data = Vec::new(alloc);
    for hart in 0..8_usize {
        add(&mut data, row.1.get(hart).copied().unwrap_or((0, 0)))?;
    }
    for stored in row.2 {
        add(&mut data, *stored)?;
    }
    Ok(data)
}

/// The machine with so many harts at the start of the code.
fn loaded(alloc: Global, data: &[u8], harts: u8) -> Option<Machine> {
    if harts == 0 || data.len() > 0x200_0000 {
        return None;
    }
    let image = Image::of_version(ImageVersion::EightHarts, &CODE, data);
    Machine::new(alloc, &image, &[], harts).ok()
}

/// Takes so many steps of a hart; whether all of them ran.
fn step(machine: &mut Machine, hart: u8, count: usize) -> bool {
    for _ in 0..count {
        if hart >= machine.harts() {
            return false;
        }
        match machine.step(hart) {
            Ok(Turn::Ran) => {}
            _ => return false,
        }
    }
    true
}

/// Brings a machine into the state of a row.
fn bring(machine: &mut Machine, row: &Seen) -> bool {
    for hart in 0..8_u8 {
        if usize::from(hart) < row.1.len() && !step(machine, hart, 5) {
            return false;
        }
    }
    for k in 0..row.2.len() {
        if !step(machine, 0, if k == 0 { 4 } else { 5 }) {
            return false;
        }
    }
    true
}

/// Whether changes are zeros for the double words at these addresses.
fn are_zeros(changes: &[Change], addresses: &[u64]) -> bool {
    for (k, change) in changes.iter().enumerate() {
        let address = addresses.get(k / 8).copied().unwrap_or(u64::MAX);
        if change.byte() != 0 || Some(change.addr()) != address.checked_add(k as u64 % 8) {
            return false;
        }
    }
    changes.len() / 8 == addresses.len() && changes.len() % 8 == 0
}

/// Whether the meddler adds the changes of a row to none.
fn meddles(alloc: Global, machine: &Machine, row: &Seen) -> bool {
    let mut into = Vec::new(alloc);
    let mut hostile = Hostile;
    hostile.meddle(alloc, 0, machine, &mut into).is_ok() && are_zeros(into.as_slice(), row.3)
}

/// Whether the meddler does what a row says.
fn is_right(alloc: Global, row: &Seen) -> bool {
    let Ok(data) = data(alloc, row) else {
        return false;
    };
    match loaded(alloc, &data, row.0) {
        Some(mut machine) => bring(&mut machine, row) && meddles(alloc, &machine, row),
        None => false,
    }
}

#[test]
fn sites_of_harts(rt: HostRuntime) {
    for (k, row) in SEEN.iter().enumerate() {
        assert!(rt; is_right(rt.alloc(), row), "row {k}");
    }
}

/// How many harts a machine has, and steps each with the hart that takes it.
struct Stepping(u8, &'static [(u64, u8)]);

static STEPPING: [Stepping; 5] = [
    Stepping(1, &[(0, 0), (1, 0), (u64::MAX, 0)]),
    Stepping(2, &[(0, 0), (1, 1), (2, 0), (u64::MAX, 1)]),
    Stepping(
        3,
        &[(0, 0), (1, 1), (2, 2), (3, 0), (257, 2), (u64::MAX, 0)],
    ),
    Stepping(7, &[(6, 6), (7, 0), (300, 6), (u64::MAX, 1)]),
    Stepping(
        8,
        &[(0, 0), (7, 7), (8, 0), (1_000_000_003, 3), (u64::MAX, 7)],
    ),
];

/// Whether these harts take these steps.
fn takes(machine: &Machine, rows: &[(u64, u8)]) -> bool {
    let mut hostile = Hostile;
    for row in rows {
        let (step, hart) = *row;
        if machine.harts() == 0 || hostile.hart(step, machine) != hart {
            return false;
        }
    }
    true
}

/// Whether the harts step in turn as a row says.
fn is_taken(alloc: Global, row: &Stepping) -> bool {
    match loaded(alloc, &[], row.0) {
        Some(machine) => takes(&machine, row.1),
        None => false,
    }
}

#[test]
fn harts_in_turn(rt: HostRuntime) {
    for row in &STEPPING {
        assert!(rt; is_taken(rt.alloc(), row), "{} harts", row.0);
    }
}
