//! Machines with one and several harts, and with a shadow stack of either version's size.

use crate::steps::{LOADS, STEPS, TESTED, code, numbers};
use rv_image::{Image, ImageVersion};
use rv_instr::Reg;
use rv_machine::{Change, Machine, Turn};
use rv_sys::{Event, System};
use sample_programs::numbers::{number, rows, word};
use std::alloc::Global;

/// What runs read.
const INPUT: &[u8] = b"ABCDEF";

/// The machine with so many harts at the start of some code over some data, in an image of a version; none
/// of code that no image may have.
fn machine(
    alloc: Global,
    version: ImageVersion,
    code: &[u8],
    data: &[u8],
    harts: u8,
) -> Option<Machine> {
    let (len, init) = (code.len(), data.len());
    if len < 4 || len > 0x10_0000 || len % 4 != 0 || init > 0x200_0000 || harts == 0 {
        return None;
    }
    let image = match version {
        ImageVersion::OneHart => Image::of(code, data),
        ImageVersion::EightHarts => Image::of_version(version, code, data),
    };
    Machine::new(alloc, &image, INPUT, harts).ok()
}

/// The machine with so many harts that start with these words.
fn started(alloc: Global, version: ImageVersion, words: &[u32], harts: u8) -> Option<Machine> {
    match code(alloc, &[0; 3], words) {
        Ok(code) => machine(alloc, version, &code, &[], harts),
        Err(_) => None,
    }
}

/// How a step of a hart ends; none where there is no such hart.
fn turn(machine: &mut Machine, hart: u8) -> Option<Turn> {
    if hart < machine.harts() {
        machine.step(hart).ok()
    } else {
        None
    }
}

/// Whether so many steps of a hart run.
fn runs(machine: &mut Machine, hart: u8, steps: u8) -> bool {
    for _ in 0..steps {
        if turn(machine, hart) != Some(Turn::Ran) {
            return false;
        }
    }
    true
}

/// What a register of a hart holds; none where there is no such hart or register.
fn reg(machine: &Machine, hart: u8, number: u32) -> Option<u64> {
    if hart < machine.harts() && number < 32 {
        Some(machine.reg(hart, Reg::of(number)))
    } else {
        None
    }
}

/// The pc of a hart; none where there is no such hart.
fn pc(machine: &Machine, hart: u8) -> Option<u64> {
    if hart < machine.harts() {
        Some(machine.pc(hart))
    } else {
        None
    }
}

/// Whether a hart is as before a run: at the opening, its number in x10, and 0 in the other registers.
fn is_at_start(machine: &Machine, hart: u8) -> bool {
    for number in 0..32_u32 {
        let wanted = if number == 10 { u64::from(hart) } else { 0 };
        if reg(machine, hart, number) != Some(wanted) {
            return false;
        }
    }
    pc(machine, hart) == Some(0x4000_000c)
}

/// Whether a machine has so many harts, and all are as before a run.
fn all_start(machine: &Machine, harts: u8) -> bool {
    for hart in 0..harts {
        if !is_at_start(machine, hart) {
            return false;
        }
    }
    machine.harts() == harts
}

fn starts(alloc: Global, version: ImageVersion, harts: u8) -> bool {
    match started(alloc, version, &SHARE, harts) {
        Some(machine) => all_start(&machine, harts) && machine.system().events().len() == 0,
        None => false,
    }
}

#[test]
fn each_hart_starts_with_its_number(rt: HostRuntime) {
    for (version, harts) in [
        (ImageVersion::OneHart, 1),
        (ImageVersion::OneHart, 2),
        (ImageVersion::EightHarts, 1),
        (ImageVersion::EightHarts, 2),
        (ImageVersion::EightHarts, 8),
        (ImageVersion::EightHarts, 255),
    ] {
        assert!(rt;
            starts(rt.alloc(), version, harts),
            "{} {harts}",
            version.number()
        );
    }
}

/// Each hart adds its number and one to a sum at 10040h that all share, and keeps in x9 and in a
/// double-word of its own how often (tests/machine/harts.py has the program).
static SHARE: [u32; 10] = [
    0x0001_02b7,
    0x0035_1313,
    0x0053_0333,
    0x0015_0393,
    0x0402_b403,
    0x0074_0433,
    0x0482_b023,
    0x0014_8493,
    0x0093_3023,
    0xfedf_f06f,
];

/// Runs of these, a line each: the name; how many harts; the hart of each step, a digit a hart; the sum,
/// and then of each hart its pc, x8 and x9, in hexadecimal, by the model of tests/machine/harts.py.
const SHARED: &[u8] = b"\
    alone 1 0000000000000000000000000000000000000000 6 4000001c 6 6\n\
    in-turn 2 010101010101010101010101010101010101010101010101010101010101 8 40000024 9 4 40000024 a 4\n\
    one-first 2 0000000000000000011111111111111111111111000000000 4 4000002c 4 4 40000020 8 3\n\
    second-alone 2 1111111111111111111111 6 4000000c 0 0 4000001c 6 3\n\
    in-turn 8 012345670123456701234567012345670123456701234567012345670123456701234567012345670123456701234567 8 40000024 9 1 40000024 a 1 40000024 b 1 40000024 c 1 40000024 d 1 40000024 e 1 40000024 f 1 40000024 10 1\n\
    last-alone 8 7777777777777777777777777777777 28 4000000c 0 0 4000000c 0 0 4000000c 0 0 4000000c 0 0 4000000c 0 0 4000000c 0 0 4000000c 0 0 40000028 28 4\n\
    falling 8 7654321076543210765432107654321076543210765432107654321076543210765432107654321076543210 1 40000020 1 1 40000020 1 1 40000020 1 1 40000020 1 1 40000020 1 1 40000020 1 1 40000020 1 1 40000020 1 1\n\
    drawn 2 001110111110101111001000010010111001001011011100011000100110111111101110110011101101111110 12 40000024 11 5 40000024 14 8\n\
    drawn 3 022110100010022121100000012100022112102220220111012211200211101000020011102100121211010002 c 40000024 d 5 40000028 c 4 40000020 c 3\n\
    drawn 5 110124404332320204003001002013410333402021244041020033322202124214430032434323103313401112 10 40000020 12 3 40000030 10 2 40000024 11 2 40000028 12 2 40000030 e 2\n\
    drawn 8 131700346731125736157355740272474020047545220312346752535561004424331364716171303631257111 4 4000001c 9 1 40000030 4 2 4000001c b 1 4000002c 6 2 40000020 2 1 40000020 9 1 40000028 9 0 40000024 a 1\n\
    drawn 8 331277561515427715075006331524602165736264343214303236413303404335230420647730727343417607 c 40000020 c 1 40000030 2 1 4000001c 9 1 40000028 c 2 40000024 d 1 4000002c 6 1 40000030 d 1 40000024 14 1\n\
";

/// Takes a step of each of these harts, a digit a hart; - is none.
fn steps(machine: &mut Machine, harts: &str) -> bool {
    for digit in harts.bytes() {
        if digit != b'-' && turn(machine, digit.wrapping_sub(b'0')).is_none() {
            return false;
        }
    }
    true
}

/// Whether a byte is changed.
fn changes(machine: &mut Machine, addr: u64, byte: u8) -> bool {
    match Change::new(addr, byte) {
        Some(change) => machine.change(change).is_ok(),
        None => false,
    }
}

/// The word at a place of a row.
fn text(row: &str, at: usize) -> &str {
    row.split(' ').nth(at).unwrap_or("")
}

/// The number at a place of a row, below 256; 0 where there is none.
fn small(row: &str, at: usize) -> u8 {
    (number(row, at).unwrap_or(0) & 0xff) as u8
}

/// Whether a hart is as the three numbers from a place of a row on say.
fn is_as_told(machine: &Machine, hart: u8, row: &str, at: usize) -> bool {
    pc(machine, hart) == number(row, at)
        && reg(machine, hart, 8) == number(row, at.wrapping_add(1))
        && reg(machine, hart, 9) == number(row, at.wrapping_add(2))
}

/// Whether each hart is as its numbers of a row say.
fn are_as_told(machine: &Machine, row: &str) -> bool {
    for hart in 0..machine.harts() {
        if !is_as_told(machine, hart, row, 4 + 3 * usize::from(hart)) {
            return false;
        }
    }
    true
}

/// Whether the harts of a row leave the sum and are as it says.
fn shares(alloc: Global, row: &str) -> bool {
    let Some(mut machine) = started(alloc, ImageVersion::EightHarts, &SHARE, small(row, 1)) else {
        return false;
    };
    steps(&mut machine, text(row, 2))
        && number(row, 3) == machine.mem().read(0x1_0040, 8).ok()
        && are_as_told(&machine, row)
}

#[test]
fn harts_share_memory_and_no_registers(rt: HostRuntime) {
    let table = SHARED;
    assert!(rt; rows(table).count() == 12);
    for row in rows(table) {
        assert!(rt; shares(rt.alloc(), row), "{row}");
    }
}

/// Each hart reads a byte of the input to a place of its own, writes it, and exits with it.
static TELL: [u32; 13] = [
    0x0001_02b7,
    0x00a2_8333,
    0x0000_0513,
    0x0003_0593,
    0x0010_0613,
    0x03f0_0893,
    0x0000_0073,
    0x0010_0513,
    0x0400_0893,
    0x0000_0073,
    0x0003_4503,
    0x05d0_0893,
    0x0000_0073,
];

/// Runs of these, a line each: the name; how many harts; the hart of each step; a byte that changes, its
/// address and what it becomes; the harts of more steps; the output, the first byte highest, its length,
/// the calls (read, write, exit, each with its hart), and the status with which the run ended, or - where
/// it did not.
const TOLD: &[u8] = b"\
    alone 1 0000000000000 0 0 - 41 1 r0w0x0 41\n\
    going-on 1 000000000000 0 0 - 41 1 r0w0 -\n\
    second-first 2 11111111110000000000000 0 0 - 4142 2 r1w1r0w0x0 42\n\
    between 2 00000001111111111000 0 0 - 4241 2 r0r1w1w0 -\n\
    other-stops 2 0000000000111111111111100000 0 0 - 4142 2 r0w0r1w1x1 42\n\
    in-turn 2 01010101010101010101010101 0 0 - 4142 2 r0r1w0w1x0 41\n\
    in-turn 8 01234567012345670123456701234567012345670123456701234567012345670123456701234567012345670123456701234567 0 0 - 4142434445460000 8 r0r1r2r3r4r5r6r7w0w1w2w3w4w5w6w7x0 41\n\
    falling 8 76543210765432107654321076543210765432107654321076543210765432107654321076543210765432107654321076543210 0 0 - 4142434445460000 8 r7r6r5r4r3r2r1r0w7w6w5w4w3w2w1w0x7 41\n\
    changed 2 0000000 10001 21 1111111111111 42 1 r0r1w1x1 42\n\
    changed-after 2 00000001111111111 10001 21 111 42 1 r0r1w1x1 21\n\
    changed-between 2 00000001111111 10001 21 111111 21 1 r0r1w1x1 21\n\
    changed-before 2 0000000111111 10001 21 1111111 42 1 r0r1w1x1 42\n\
    no-input-left 8 77777777776666666666555555555544444444443333333333222222222211111111110000000000 10005 7a 555 4142434445460000 8 r7w7r6w6r5w5r4w4r3w3r2w2r1w1r0w0x5 7a\n\
    drawn 2 00000000100111111100110110 0 0 - 4142 2 r0w0r1w1x0 41\n\
    drawn 3 211101211212211010002022201210001001221 0 0 - 414243 3 r1w1r2r0w2w0x1 41\n\
    drawn 8 63251344256757147217660414107042777007173741005665047406605602437553575053502165251557716012723556317257 0 0 - 414442 3 r7w7r4r1r0r6w0w4x7 41\n\
";

/// Whether a call is a read, write or exit, as its letter says, of a hart, whose place is its second
/// argument.
fn is_told(event: &Event, call: u8, digit: u8) -> bool {
    let letter = match event.number {
        63 => b'r',
        64 => b'w',
        _ => b'x',
    };
    let hart = u64::from(digit.wrapping_sub(b'0'));
    letter == call && event.a1 == 0x1_0000 + hart
}

/// Whether the calls are these, in this order.
fn are_told(system: &System, told: &[u8]) -> bool {
    let events = system.events();
    for k in 0..events.len() {
        let at = k.saturating_mul(2);
        if at.saturating_add(1) >= told.len() {
            return false;
        }
        if !is_told(events.get(k), told[at], told[at + 1]) {
            return false;
        }
    }
    events.len().saturating_mul(2) == told.len()
}

/// The bytes of an output as one number, the first byte highest.
fn as_number(output: &[u8]) -> u64 {
    let mut number = 0_u64;
    for byte in output {
        number = number.wrapping_mul(256).wrapping_add(u64::from(*byte));
    }
    number
}

/// Whether output and calls are as a row says.
fn is_told_by(system: &System, row: &str) -> bool {
    let output = system.output().as_slice();
    number(row, 6) == Some(as_number(output))
        && usize::from(small(row, 7)) == output.len()
        && are_told(system, text(row, 8).as_bytes())
}

/// Whether a run has ended with a status: the next step of each hart answers it.
fn all_exit(machine: &mut Machine, status: u8) -> bool {
    let harts = machine.harts();
    for hart in 0..harts {
        if turn(machine, hart) != Some(Turn::Exit(status)) {
            return false;
        }
    }
    machine.system().ended() == Some(status)
}

/// Whether a run has ended as a row says, and stays so.
fn ends(machine: &mut Machine, row: &str) -> bool {
    if text(row, 9) == "-" {
        return machine.system().ended().is_none();
    }
    all_exit(machine, small(row, 9)) && is_told_by(machine.system(), row)
}

/// Whether the harts of a row make its calls.
fn tells(alloc: Global, row: &str) -> bool {
    let Some(mut machine) = started(alloc, ImageVersion::EightHarts, &TELL, small(row, 1)) else {
        return false;
    };
    steps(&mut machine, text(row, 2))
        && changes(
            &mut machine,
            number(row, 3).unwrap_or(u64::MAX),
            small(row, 4),
        )
        && steps(&mut machine, text(row, 5))
        && is_told_by(machine.system(), row)
        && ends(&mut machine, row)
}

#[test]
fn harts_share_calls_and_an_exit(rt: HostRuntime) {
    let table = TOLD;
    assert!(rt; rows(table).count() == 16);
    for row in rows(table) {
        assert!(rt; tells(rt.alloc(), row), "{row}");
    }
}

/// The machine of eight harts whose loads put these numbers into x10 and x11 before a word.
fn eight(alloc: Global, version: ImageVersion, word: u32, a: u64, b: u64) -> Option<Machine> {
    let Ok(code) = code(alloc, &LOADS, &[word]) else {
        return None;
    };
    let Ok(data) = numbers(alloc, a, b) else {
        return None;
    };
    machine(alloc, version, &code, &data, 8)
}

/// Whether a hart of eight is as a row of `STEPS` has it after its instruction, and the next one as
/// before a run.
fn is_after(machine: &Machine, hart: u8, row: &str) -> bool {
    reg(machine, hart, 12) == number(row, 4)
        && pc(machine, hart) == number(row, 5)
        && machine.mem().read(0x1_0020, 8).ok() == number(row, 6)
        && is_at_start(machine, hart.wrapping_add(1) & 7)
}

/// Whether a hart of eight does what a row of `STEPS` says.
fn step_does(alloc: Global, hart: u8, row: &str) -> bool {
    let (Some(word), Some(a), Some(b)) = (word(row, 1), number(row, 2), number(row, 3)) else {
        return false;
    };
    match eight(alloc, ImageVersion::EightHarts, word, a, b) {
        Some(mut machine) => runs(&mut machine, hart, 6) && is_after(&machine, hart, row),
        None => false,
    }
}

#[test]
fn each_of_eight_harts_steps_as_one(rt: HostRuntime) {
    for (k, row) in rows(STEPS).enumerate() {
        assert!(rt; step_does(rt.alloc(), (k & 7) as u8, row), "{row}");
    }
}

/// Loads and stores where the shadow ends, a line each: the word, its address, and whether it runs with
/// an image of version 1 and with one of version 2.
static STOPS: [(u32, u64, bool, bool); 18] = [
    // loads of a byte and of a double-word
    (0x0005_0603, 0x6000_0000, true, true),
    (0x0005_0603, 0x6000_ffff, true, true),
    (0x0005_0603, 0x6001_0000, false, true),
    (0x0005_0603, 0x6007_ffff, false, true),
    (0x0005_0603, 0x6008_0000, false, false),
    (0x0005_3603, 0x6000_fff9, false, true),
    (0x0005_3603, 0x6007_fff8, false, true),
    (0x0005_3603, 0x6007_fff9, false, false),
    (0x0005_3603, 0x5fff_fffc, false, false),
    // stores of a byte and of a double-word
    (0x00b5_0023, 0x6000_0000, true, true),
    (0x00b5_0023, 0x6000_ffff, true, true),
    (0x00b5_0023, 0x6001_0000, false, true),
    (0x00b5_0023, 0x6007_ffff, false, true),
    (0x00b5_0023, 0x6008_0000, false, false),
    (0x00b5_3023, 0x6000_fff9, false, true),
    (0x00b5_3023, 0x6007_fff8, false, true),
    (0x00b5_3023, 0x6007_fff9, false, false),
    (0x00b5_3023, 0x5fff_fffc, false, false),
];

/// How a load or a store of an address ends.
fn wanted(word: u32, addr: u64, fits: bool) -> Turn {
    if fits {
        Turn::Ran
    } else if word & 0x7f == 3 {
        Turn::LoadFault(TESTED, addr)
    } else {
        Turn::StoreFault(TESTED, addr)
    }
}

/// Whether a word ends so for the last hart of eight, after its five loads.
fn step_ends(alloc: Global, version: ImageVersion, word: u32, addr: u64, fits: bool) -> bool {
    match eight(alloc, version, word, addr, 0) {
        Some(mut machine) => {
            runs(&mut machine, 7, 5) && turn(&mut machine, 7) == Some(wanted(word, addr, fits))
        }
        None => false,
    }
}

#[test]
fn the_shadow_is_as_large_as_its_version_has_it(rt: HostRuntime) {
    for (word, addr, lone, several) in &STOPS {
        assert!(rt;
            step_ends(rt.alloc(), ImageVersion::OneHart, *word, *addr, *lone),
            "1: {word:x} of {addr:x}"
        );
        assert!(rt;
            step_ends(rt.alloc(), ImageVersion::EightHarts, *word, *addr, *several),
            "2: {word:x} of {addr:x}"
        );
    }
}

/// Whether room for the last hart's part changes nothing that is seen.
fn reserves(alloc: Global) -> bool {
    let code = [0x23, 0x30, 0xb5, 0];
    let Ok(mut machine) = Machine::new(
        alloc,
        &Image::of_version(ImageVersion::EightHarts, &code, &[]),
        INPUT,
        8,
    ) else {
        return false;
    };
    machine.reserve_pages(0x6007_0000, 0x1_0000).is_ok()
        && all_start(&machine, 8)
        && machine.mem().read(0x6007_fff8, 8) == Ok(0)
        && machine.mem().read(0x4000_0000, 4) == Ok(0x00b5_3023)
}

#[test]
fn room_is_made_in_a_part(rt: HostRuntime) {
    assert!(rt; reserves(rt.alloc()));
}
