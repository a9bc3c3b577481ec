use crate::steps::{LOADS, STEPS, TESTED, X12, code, numbers};
use rv_code::decode;
use rv_image::{Image, ImageVersion};
use rv_instr::{BranchOp, Instr, Reg};
use rv_machine::{Change, Processor, Turn, branches};
use sample_programs::numbers::{number, rows, word};
use sample_programs::{A, PROLOGUE, STATUS};
use std::alloc::{AllocError, Global};

type Stop = (u32, u64, u8, Turn);

/// Instructions that stop: the word, x10, how many steps there are, and how the last one ends.
static STOPS: [Stop; 29] = [
    // loads that leave the regions
    (
        0x0005_3603,
        0x1000_0ff9,
        1,
        Turn::LoadFault(TESTED, 0x1000_0ff9),
    ),
    (
        0x0005_0603,
        0x1000_1000,
        1,
        Turn::LoadFault(TESTED, 0x1000_1000),
    ),
    (
        0x0005_2603,
        0x3fff_fffe,
        1,
        Turn::LoadFault(TESTED, 0x3fff_fffe),
    ),
    (0x0005_3603, 0x400f_fff8, 1, Turn::Ran),
    (0x0005_3603, 0x400f_fff9, 1, Turn::Ran),
    (0x0005_3603, 0x4010_0000, 1, Turn::Ran),
    (
        0x0005_3603,
        0x4010_0001,
        1,
        Turn::LoadFault(TESTED, 0x4010_0001),
    ),
    (
        0x0005_1603,
        0x6000_ffff,
        1,
        Turn::LoadFault(TESTED, 0x6000_ffff),
    ),
    (0x0005_0603, 0x6000_ffff, 1, Turn::Ran),
    (
        0xff85_3603,
        4,
        1,
        Turn::LoadFault(TESTED, 0xffff_ffff_ffff_fffc),
    ),
    // stores
    (
        0x00b5_0023,
        0x4000_0000,
        1,
        Turn::StoreFault(TESTED, 0x4000_0000),
    ),
    (
        0x00b5_3023,
        0x400f_fff8,
        1,
        Turn::StoreFault(TESTED, 0x400f_fff8),
    ),
    (
        0x00b5_0023,
        0x4010_0000,
        1,
        Turn::StoreFault(TESTED, 0x4010_0000),
    ),
    (
        0x00b5_2023,
        0x1000_0ffd,
        1,
        Turn::StoreFault(TESTED, 0x1000_0ffd),
    ),
    (0x00b5_2023, 0x1000_0ffc, 1, Turn::Ran),
    (
        0x00b5_1023,
        0x6000_ffff,
        1,
        Turn::StoreFault(TESTED, 0x6000_ffff),
    ),
    (0x00b5_0023, 0x6000_ffff, 1, Turn::Ran),
    (0x00b5_3023, 0x6000_0001, 1, Turn::Ran),
    (
        0x00b5_3023,
        0x5fff_fffc,
        1,
        Turn::StoreFault(TESTED, 0x5fff_fffc),
    ),
    // EBREAK, words that are no instruction, FENCE.I and a CSR
    (0x0010_0073, 0, 1, Turn::Break(TESTED)),
    (0x0000_0000, 0, 1, Turn::Illegal(TESTED)),
    (0x0000_100f, 0, 1, Turn::Illegal(TESTED)),
    (0x3005_1073, 0, 1, Turn::Illegal(TESTED)),
    // jumps to what is no place of an instruction
    (0x0025_0067, 0x4000_0040, 2, Turn::FetchFault(0x4000_0042)),
    (0x0005_0067, 0x4010_0000, 2, Turn::FetchFault(0x4010_0000)),
    (0x0005_0067, 0x4010_0004, 2, Turn::FetchFault(0x4010_0004)),
    (0x0005_0067, 0x400f_fffc, 2, Turn::Illegal(0x400f_fffc)),
    (0x0005_0067, 0x1_0000, 2, Turn::FetchFault(0x1_0000)),
    (0x0005_0067, 0x6000_0000, 2, Turn::FetchFault(0x6000_0000)),
];

/// The processor at the start of some code over some data; none of code that no image may have.
fn loaded(alloc: Global, code: &[u8], data: &[u8]) -> Option<Processor> {
    let (len, init) = (code.len(), data.len());
    if len < 4 || len > 0x10_0000 || len % 4 != 0 || init > 0x200_0000 {
        return None;
    }
    Processor::new(alloc, &Image::of(code, data), &[]).ok()
}

/// A processor that executes a word after the loads, with these numbers in x10 and x11.
fn processor(alloc: Global, word: u32, a: u64, b: u64) -> Option<Processor> {
    let Ok(code) = code(alloc, &LOADS, &[word]) else {
        return None;
    };
    let Ok(data) = numbers(alloc, a, b) else {
        return None;
    };
    loaded(alloc, &code, &data)
}

/// The processor of a row of `STEPS`; none where the row has not its numbers.
fn processor_of(alloc: Global, row: &str) -> Option<Processor> {
    match (word(row, 1), number(row, 2), number(row, 3)) {
        (Some(word), Some(a), Some(b)) => processor(alloc, word, a, b),
        _ => None,
    }
}

/// Whether a step ends in a way.
fn ends(processor: &mut Processor, turn: Turn) -> bool {
    processor.step() == Ok(turn)
}

/// Whether so many steps run.
fn runs(processor: &mut Processor, steps: u8) -> bool {
    for _ in 0..steps {
        if !ends(processor, Turn::Ran) {
            return false;
        }
    }
    true
}

/// Whether a processor is as a row has it after its instruction.
fn is_after(processor: &Processor, row: &str) -> bool {
    number(row, 4) == Some(processor.reg(Reg::of(12)))
        && number(row, 5) == Some(processor.pc())
        && number(row, 6) == processor.mem().read(0x1_0020, 8).ok()
}

/// Whether the five loads and an instruction do what a row of `STEPS` says.
fn step_does(alloc: Global, row: &str) -> bool {
    match processor_of(alloc, row) {
        Some(mut processor) => runs(&mut processor, 6) && is_after(&processor, row),
        None => false,
    }
}

#[test]
fn instructions_do_as_under_qemu(rt: HostRuntime) {
    let table = STEPS;
    assert!(rt; rows(table).count() == 302);
    for row in rows(table) {
        assert!(rt; step_does(rt.alloc(), row), "{row}");
    }
}

/// A processor without code that has these numbers in x10 and x11, and the rest as after the loads.
fn without_code(alloc: Global, a: u64, b: u64) -> Option<Processor> {
    let Ok(data) = numbers(alloc, a, b) else {
        return None;
    };
    if data.len() > 48 {
        return None;
    }
    let mut processor = Processor::with_data(alloc, ImageVersion::OneHart, &data, &[]).ok()?;
    processor.set_reg(Reg::of(10), a);
    processor.set_reg(Reg::of(11), b);
    processor.set_reg(Reg::of(12), X12);
    processor.set_reg(Reg::of(13), 0x1_0020);
    Some(processor)
}

/// Whether a processor executes an instruction at the address where the tables have it.
fn executes(processor: &mut Processor, instr: &Instr) -> bool {
    processor.set_pc(TESTED);
    processor.execute(instr) == Ok(Turn::Ran)
}

/// Whether an instruction that does not stand in memory does what a row of `STEPS` says.
fn execution_does(alloc: Global, row: &str) -> bool {
    let (Some(word), Some(a), Some(b)) = (word(row, 1), number(row, 2), number(row, 3)) else {
        return false;
    };
    match (decode(word), without_code(alloc, a, b)) {
        (Some(instr), Some(mut processor)) => {
            executes(&mut processor, &instr) && is_after(&processor, row)
        }
        _ => false,
    }
}

#[test]
fn instructions_do_the_same_without_code(rt: HostRuntime) {
    for row in rows(STEPS) {
        assert!(rt; execution_does(rt.alloc(), row), "{row}");
    }
}

/// Two values, and which of BEQ, BNE, BLT, BGE, BLTU and BGEU are taken that compare them.
static COMPARISONS: [(u64, u64, [bool; 6]); 3] = [
    (7, 7, [true, false, false, true, false, true]),
    (1, u64::MAX, [false, true, false, true, true, false]),
    (1 << 63, 0, [false, true, true, false, false, true]),
];

/// Whether these branches are taken, and the others not.
fn takes(row: &(u64, u64, [bool; 6])) -> bool {
    let (a, b, [beq, bne, blt, bge, bltu, bgeu]) = *row;
    branches(BranchOp::Beq, a, b) == beq
        && branches(BranchOp::Bne, a, b) == bne
        && branches(BranchOp::Blt, a, b) == blt
        && branches(BranchOp::Bge, a, b) == bge
        && branches(BranchOp::Bltu, a, b) == bltu
        && branches(BranchOp::Bgeu, a, b) == bgeu
}

#[test]
fn branches_compare(rt: HostRuntime) {
    for row in &COMPARISONS {
        assert!(rt; takes(row), "{:x} and {:x}", row.0, row.1);
    }
}

/// Whether the last of the steps of a row of `STOPS`, after the five loads, ends as it says.
fn step_stops(alloc: Global, row: &Stop) -> bool {
    match processor(alloc, row.0, row.1, 0) {
        Some(mut processor) => runs(&mut processor, row.2.saturating_add(4))
            && ends(&mut processor, row.3),
        None => false,
    }
}

#[test]
fn instructions_stop(rt: HostRuntime) {
    for row in &STOPS {
        assert!(rt; step_stops(rt.alloc(), row), "{:x} of {:x}", row.0, row.1);
    }
}

type Exit = (&'static [u32], u8, u8, u8);

/// Runs of words after the prologue: the step before which the byte at 10000h becomes 5, how many steps
/// run, and the status with which the program then exits.
static EXITS: [Exit; 3] = [(&A, 0, 12, 7), (&STATUS, 11, 13, 5), (&STATUS, 12, 13, 0)];

/// The processor at the start of a program with these words after the prologue.
fn started(alloc: Global, words: &[u32]) -> Option<Processor> {
    match code(alloc, &PROLOGUE, words) {
        Ok(code) => loaded(alloc, &code, &[]),
        Err(AllocError) => None,
    }
}

/// Whether the byte at 10000h becomes 5.
fn changes(processor: &mut Processor) -> bool {
    match Change::new(0x1_0000, 5) {
        Some(change) => processor.change(change).is_ok(),
        None => false,
    }
}

/// Whether a step exits with a status and the one after it again, and one call was recorded.
fn exits(processor: &mut Processor, status: u8) -> bool {
    ends(processor, Turn::Exit(status))
        && ends(processor, Turn::Exit(status))
        && processor.system().ended() == Some(status)
        && processor.system().events().len() == 1
}

/// Whether a processor runs its program as a row says.
fn runs_to_exit(processor: &mut Processor, row: &Exit) -> bool {
    runs(processor, row.1)
        && changes(processor)
        && runs(processor, row.2.saturating_sub(row.1))
        && exits(processor, row.3)
}

fn run_exits(alloc: Global, row: &Exit) -> bool {
    match started(alloc, row.0) {
        Some(mut processor) => {
            processor.reserve_pages(0x1_0000, 1).is_ok() && runs_to_exit(&mut processor, row)
        }
        None => false,
    }
}

#[test]
fn runs_end_with_their_exit(rt: HostRuntime) {
    for row in &EXITS {
        assert!(rt; run_exits(rt.alloc(), row), "status {}", row.3);
    }
}
