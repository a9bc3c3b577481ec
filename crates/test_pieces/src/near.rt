ghost use Rattle.std.specs.Prelude.{◌<◌};

use cfi_emit::{emit, fits, recognise};
use cfi_graph::{Graph, read_graph};
use cfi_script::Script;
use cfi_step::{RunEnd, RunReport};
use cfi_unit::Unit;
use cfi_verify::{Checked, Reject, Rule, verify};
use cfi_walk::{Followed, Walk, follow};
use rv_image::Image;
use rv_instr::{BranchOp, Reg};
use rv_word::End;
use sample_programs::code;
use sample_runs::run_of;
use std::alloc::Global;

/// Where the first unit of an image stands.
pub(crate) const FIRST: u64 = 0x4000_0040;

/// The words of skips.s in tests/units at the top of the repository, as binutils makes them: branches by
/// their offset and by what follows them.
pub(crate) const SKIPS: [u32; 15] = [
    0x0062e463, 0x0340006f, 0x0062e463, 0x02c000ef, 0x0062e463, 0xfadff06f, 0x0062e463, 0x00000013,
    0x0062e663, 0x0140006f, 0x0062e063, 0x00c0006f, 0x7e62efe3, 0x8062e063, 0x0062e463,
];

/// Those of near.s: a loop of short branches.
pub(crate) const NEAR: [u32; 8] = [
    0x00800293, 0x00000513, 0x00150513, 0x00550463, 0xfe051ce3, 0x05d00893, 0x00000073, 0xfa5ff06f,
];

const NEAR_GRAPH: &[u8] =
    b"rvcfi-graph 1\ncode 40000000 00000060\ncall 4000000c 40000040\nedge 4000004c 40000054\n\
edge 40000050 40000048\nend\n";

/// A branch of `SKIPS`: its index, how many words are seen from it on, its target, and how many of the
/// words are its unit.
static BRANCHES: [(usize, usize, u64, u32); 10] = [
    // With the offset eight before a jump, with nothing after it, before a call, a stop and another word.
    (0, 15, 0x4000_0078, 2),
    (0, 1, 0x4000_0048, 1),
    (2, 13, 0x4000_0050, 1),
    (4, 11, 0x4000_0000, 2),
    (6, 9, 0x4000_0060, 1),
    // With other offsets before a jump.
    (8, 7, 0x4000_006c, 1),
    (10, 5, 0x4000_0068, 1),
    // With the last offset each way, and with eight at the end.
    (12, 3, 0x4000_106e, 1),
    (13, 2, 0x3fff_f074, 1),
    (14, 1, 0x4000_0080, 1),
];

/// The unit of a branch over a jump, or of one that stands alone.
fn unit(target: u64, count: u32) -> Unit {
    let (op, rs1, rs2) = (BranchOp::Bltu, Reg::of(5), Reg::of(6));
    if count == 2 {
        Unit::Branch(op, rs1, rs2, target)
    } else {
        Unit::Near(op, rs1, rs2, target)
    }
}

/// Whether a unit may stand at an address and has just these words there.
fn has_words(alloc: Global, unit: &Unit, at: u64, words: &[u32]) -> bool
    requires { at < 0x4010_0000 }
{
    if !fits(unit, at) {
        return false;
    }
    match emit(alloc, unit, at) {
        Ok(own) => own.as_slice() == words,
        Err(_) => false,
    }
}

/// Whether words begin with a unit of so many words at an address, which is emitted as these.
fn begins(alloc: Global, words: &[u32], at: u64, unit: &Unit, count: u32) -> bool
    requires { at < 0x4010_0000 }
{
    recognise(words, at) == Some((*unit, count))
        && has_words(alloc, unit, at, words.get(..count as usize).unwrap_or(&[]))
}

/// Whether a branch is the unit that its row says.
fn is_right(alloc: Global, row: &(usize, usize, u64, u32)) -> bool {
    let index = row.0.min(SKIPS.len());
    let words = SKIPS
        .get(index..index + row.1.min(SKIPS.len()))
        .unwrap_or(&[]);
    let at = FIRST + 4 * index as u64;
    begins(alloc, words, at, &unit(row.2, row.3), row.3)
}

#[test]
fn words(rt: HostRuntime) {
    for row in &BRANCHES {
        assert!(rt; is_right(rt.alloc(), row), "at {:x} of {}", row.0, row.1);
    }
}

/// Targets that no branch at 40000040h reaches: too far ahead, too far behind, and at an odd distance.
static BEYOND: [u64; 3] = [0x4000_1040, 0x3fff_f03e, 0x4000_0045];

#[test]
fn reach(rt: HostRuntime) {
    for target in &BEYOND {
        assert!(rt; !fits(&unit(*target, 1), FIRST), "{target:x}");
    }
}

/// Whether a run of the loop exits with 8, after as many steps and places as eight rounds have.
fn has_looped(report: &RunReport) -> bool {
    report.end == RunEnd::Exit(8)
        && report.steps == 37
        && report.walks.as_slice().iter().all(|walk| walk.walk == 28)
}

/// Whether an undisturbed run is one of the loop.
fn loops(alloc: Global, checked: &Checked<'_>) -> bool {
    match run_of(alloc, checked, b"", 1, &mut Script::none(alloc), 100) {
        Some(report) => has_looped(&report),
        None => false,
    }
}

/// Where a walk goes after the opening, each branch both ways but the last, which goes on after it.
static TRAIL: [u64; 8] = [
    0x40000040, 0x40000044, 0x40000048, 0x4000004c, 0x40000050, 0x40000048, 0x4000004c, 0x40000050,
];

/// Whether a walk goes along the trail, and then on, but not to the word before the loop.
fn walks(checked: &Checked<'_>, walk: &mut Walk) -> bool {
    for pc in &TRAIL {
        if !goes(checked, walk, *pc) {
            return false;
        }
    }
    !goes(checked, walk, 0x4000_0044) && goes(checked, walk, 0x4000_0054)
}

fn goes(checked: &Checked<'_>, walk: &mut Walk, pc: u64) -> bool {
    matches!(follow(checked, walk, pc), Followed::Yes)
}

/// Whether the pair of the loop has this trail.
fn has_trail(alloc: Global, checked: &Checked<'_>) -> bool {
    match Walk::new(alloc) {
        Ok(mut walk) => walks(checked, &mut walk),
        Err(_) => false,
    }
}

/// How the verifier answers: with the rule and the address at which it fails, if one does.
#[derive(Clone, Copy)]
enum Outcome {
    Accepted,
    Rejected(Reject),
    Other,
}

/// The outcome of an image with the graph of the loop; an accepted one also loops and has its trail.
fn answered(alloc: Global, image: &Image<'_>, graph: &Graph) -> Outcome {
    match verify(alloc, image, graph) {
        Ok(checked) if loops(alloc, &checked) && has_trail(alloc, &checked) => Outcome::Accepted,
        Err(End::Fault(reject)) => Outcome::Rejected(reject),
        _ => Outcome::Other,
    }
}

/// What becomes of the loop with the word at an index changed.
fn with_word(alloc: Global, index: usize, word: u32) -> Outcome {
    let mut words = NEAR;
    if let Some(place) = words.get_mut(index) {
        *place = word;
    }
    match code(alloc, &words) {
        Ok(bytes) => outcome_of(alloc, &bytes),
        Err(_) => Outcome::Other,
    }
}

/// The outcome of an image with the length of the loop's code.
fn outcome_of(alloc: Global, code: &[u8]) -> Outcome {
    if code.len() != 96 {
        return Outcome::Other;
    }
    match read_graph(alloc, NEAR_GRAPH) {
        Ok(graph) => answered(alloc, &Image::of(code, &[]), &graph),
        Err(_) => Outcome::Other,
    }
}

#[test]
fn accepted(rt: HostRuntime) {
    assert!(rt; matches!(with_word(rt.alloc(), 0, NEAR[0]), Outcome::Accepted));
}

/// Whether the loop with a word changed is rejected at an address by the rule on targets, or by that on lines.
fn is_rejected(alloc: Global, row: &(usize, u32, bool, u64)) -> bool {
    match with_word(alloc, row.0, row.1) {
        Outcome::Rejected(Reject::At(Rule::Target, at)) => row.2 && at == row.3,
        Outcome::Rejected(Reject::At(Rule::Unlisted, at)) => !row.2 && at == row.3,
        _ => false,
    }
}

/// A word of the loop, by its index, what it is changed to, whether a target then is wrong, and where: a
/// branch to no unit, one to another unit than its line says, and a jump after the one over it.
static CHANGES: [(usize, u32, bool, u64); 3] = [
    (4, 0x8062_e063, true, 0x4000_0050),
    (4, 0xfe05_1ae3, false, 0x4000_0050),
    (4, 0xff9f_f06f, false, 0x4000_004c),
];

#[test]
fn rejected(rt: HostRuntime) {
    for row in &CHANGES {
        assert!(rt; is_rejected(rt.alloc(), row), "with {:x}", row.1);
    }
}
