ghost use Rattle.std.specs.Prelude.{◌<◌, ◌^◌};

use cfi_emit::{emit, fits, recognise, size};
use cfi_unit::{Mask, Member, Members, SystemOp, TargetWord, Unit};
use rv_instr::{BranchOp, FenceWord, Immediate, ImmediateOp, Instr, LoadOp, Reg, StoreOp, UpperOp};
use sample_programs::{A, B, H, OTHER, P, SECOND};
use std::alloc::{AllocError, Global};
use std::process::Abort;

/// Where the first unit of an image stands.
const FIRST: u64 = 0x4000_0040;

fn addi(rd: u32, rs1: u32, imm: u32) -> Unit
    requires destination { rd < 32 }
    requires source { rs1 < 32 }
    requires field { imm < 2 ^ 12 }
{
    let op = ImmediateOp::Addi;
    Unit::Plain(Instr::Immediate(op, Reg::of(rd), Reg::of(rs1), Immediate::of(imm)))
}

fn ld(rd: u32, rs1: u32, imm: u32) -> Unit
    requires destination { rd < 32 }
    requires source { rs1 < 32 }
    requires field { imm < 2 ^ 12 }
{
    Unit::Plain(Instr::Load(LoadOp::Ld, Reg::of(rd), Reg::of(rs1), Immediate::of(imm)))
}

fn upper(op: UpperOp, rd: u32, imm: u32) -> Unit
    requires destination { rd < 32 }
    requires field { imm < 2 ^ 20 }
{
    Unit::Plain(Instr::Upper(op, Reg::of(rd), Immediate::of(imm)))
}

fn store(op: StoreOp, rs2: u32, imm: u32, rs1: u32) -> Unit
    requires value { rs2 < 32 }
    requires address { rs1 < 32 }
    requires field { imm < 2 ^ 12 }
{
    let mut members = Members::new();
    members.push(Member {
        op,
        value: Reg::of(rs2),
        distance: Immediate::of(0),
    });
    Unit::Stores(Mask::Shifts, Reg::of(rs1), Immediate::of(imm), members)
}

fn gate(label: u32) -> Unit
    requires { label < 2 ^ 20 }
{
    Unit::Gate(Immediate::of(label))
}

fn ijump(which: TargetWord, rs1: u32, imm: u32, label: u32) -> Unit
    requires source { rs1 < 32 }
    requires field { imm < 2 ^ 12 }
    requires label { label < 2 ^ 20 }
{
    Unit::Ijump(
        which,
        Reg::of(rs1),
        Immediate::of(imm),
        Immediate::of(label),
    )
}

fn object_b() -> [Unit; 3] {
    [addi(10, 0, 7), Unit::Return, Unit::Stop]
}

fn object_h() -> [Unit; 15] {
    [
        addi(2, 2, 0xff0),
        store(StoreOp::Sd, 1, 8, 2),
        Unit::Call(0x4000_0094),
        addi(10, 0, 0),
        ld(1, 2, 8),
        addi(2, 2, 16),
        Unit::Return,
        upper(UpperOp::Auipc, 11, 0xc0010),
        addi(11, 11, 0xf6c),
        addi(10, 0, 1),
        addi(12, 0, 3),
        addi(17, 0, 64),
        Unit::System(SystemOp::Ecall),
        Unit::Return,
        Unit::Stop,
    ]
}

fn object_p() -> [Unit; 15] {
    [
        addi(2, 2, 0xff0),
        store(StoreOp::Sd, 1, 8, 2),
        upper(UpperOp::Lui, 5, 0x10),
        ld(5, 5, 0),
        Unit::Icall(Reg::of(5), Immediate::of(0), Immediate::of(1)),
        ld(1, 2, 8),
        addi(2, 2, 16),
        Unit::Return,
        gate(1),
        addi(10, 0, 1),
        Unit::Return,
        gate(1),
        addi(10, 0, 2),
        Unit::Return,
        Unit::Stop,
    ]
}

fn other_units() -> [Unit; 9] {
    [
        Unit::Branch(BranchOp::Bltu, Reg::of(5), Reg::of(6), 0x4000_009c),
        Unit::Jump(FIRST),
        ijump(TargetWord::First, 5, 0xff8, 0xf_ffff),
        Unit::System(SystemOp::Ecall),
        Unit::System(SystemOp::Ebreak),
        store(StoreOp::Sb, 6, 0xfff, 7),
        gate(0xf_ffff),
        Unit::Plain(Instr::Fence(FenceWord::of(0x0ff0_000f))),
        Unit::Stop,
    ]
}

/// The units of `SECOND` before the words with which none begins.
fn second_units() -> [Unit; 7] {
    [
        Unit::Icall(Reg::of(5), Immediate::of(0), Immediate::of(1)),
        ijump(TargetWord::Second, 5, 0, 2),
        gate(1),
        gate(2),
        ijump(TargetWord::Second, 6, 0xff8, 0xf_ffff),
        ijump(TargetWord::First, 5, 0, 3),
        Unit::Stop,
    ]
}

/// The words of an object after those of a unit, which stands at an address and is emitted as the first of
/// them, and recognised from these.
fn after<'a>(alloc: Global, unit: &Unit, at: u64, words: &'a [u32]) -> Option<&'a [u32]>
    requires { at < 0x4010_0000 }
{
    if !fits(unit, at) {
        return None;
    }
    match emit(alloc, unit, at) {
        Ok(own) if stands(unit, at, &own) => words.strip_prefix(own.as_slice()),
        _ => None,
    }
}

/// Whether words are as many as a unit has, and are recognised as the unit.
fn stands(unit: &Unit, at: u64, words: &[u32]) -> bool
    requires { at < 0x4010_0000 }
{
    let count = size(unit) / 4;
    words.len() == count as usize && recognise(words, at) == Some((*unit, count))
}

/// Where an object's words go on of which these are left, if less than 1000h are gone.
fn address(words: &[u32], rest: &[u32]) -> u64
    ensures { result < 0x4010_0000 }
{
    FIRST + 4 * words.len().saturating_sub(rest.len()).min(0xfff) as u64
}

/// Where the first of some units stands that is not as the object's words have it, if one is not.
fn first_wrong(alloc: Global, units: &[Unit], words: &[u32]) -> Option<u64> {
    let mut rest = words;
    for unit in units {
        let at = address(words, rest);
        match after(alloc, unit, at, rest) {
            Some(more) => rest = more,
            None => return Some(at),
        }
    }
    if rest.is_empty() {
        None
    } else {
        Some(address(words, rest))
    }
}

/// The words of some units are just these.
fn have_words(rt: &impl Abort, alloc: Global, units: &[Unit], words: &[u32]) {
    let wrong = first_wrong(alloc, units, words);
    assert!(rt; wrong.is_none(), "the unit at {:x}", wrong.unwrap_or(0));
}

#[test]
fn objects(rt: HostRuntime) {
    have_words(&rt, rt.alloc(), &object_b(), &B);
    have_words(&rt, rt.alloc(), &object_h(), &H);
    have_words(&rt, rt.alloc(), &object_p(), &P);
    have_words(&rt, rt.alloc(), &other_units(), &OTHER);
    have_words(&rt, rt.alloc(), &second_units(), &SECOND[..62]);
}

/// An object's words, where a unit of it stands, where one of its words is changed, and to what.
struct Spoilt(&'static [u32], usize, usize, u32);

static SPOILT: [Spoilt; 11] = [
    Spoilt(&A, 0x40, 0x40, 0x00100f13),
    Spoilt(&A, 0x40, 0x40, 0x0052b023),
    Spoilt(&A, 0x40, 0x40, 0x00028067),
    Spoilt(&B, 0x44, 0x54, 0x00008067),
    Spoilt(&P, 0x44, 0x48, 0x022f9f93),
    Spoilt(&P, 0x5c, 0x78, 0x0002af03),
    Spoilt(&P, 0x5c, 0x78, 0x004faf03),
    Spoilt(&OTHER, 0x4c, 0x68, 0x00cfaf03),
    Spoilt(&SECOND, 0x90, 0xac, 0x002faf03),
    Spoilt(&SECOND, 0x90, 0xac, 0x004fbf03),
    Spoilt(&P, 0x5c, 0x90, 0x00000013),
];

/// The words from an address of the code on.
fn words_from(words: &[u32], at: usize) -> &[u32] {
    words.get(at.saturating_sub(0x40) / 4..).unwrap_or(&[])
}

/// Whether a unit begins at an address.
fn begins(words: &[u32], at: usize) -> bool {
    at < 0x1000 && recognise(words_from(words, at), 0x4000_0000 + at as u64).is_some()
}

/// The words of a row, with the one changed.
fn with_change(alloc: Global, row: &Spoilt) -> Result<Vec<u32>, AllocError> {
    let mut words = row.0.to_vec(alloc)?;
    if let Some(word) = words.get_mut(row.2.saturating_sub(0x40) / 4) {
        *word = row.3;
    }
    Ok(words)
}

/// Whether a row's unit begins where it stands, and does not once the word is changed.
fn is_refused(alloc: Global, row: &Spoilt) -> Result<bool, AllocError> {
    Ok(begins(row.0, row.1) && !begins(&with_change(alloc, row)?, row.1))
}

/// No unit begins these objects' words at an address once the word at another is changed.
#[test]
fn refused(rt: HostRuntime) {
    for row in &SPOILT {
        let right = is_refused(rt.alloc(), row);
        assert!(rt; matches!(right, Ok(true)), "with {:x}", row.3);
    }
}

/// No unit begins with the words of a call by the second word.
#[test]
fn no_call_by_the_second_word(rt: HostRuntime) {
    assert!(rt; begins(&SECOND, 0xc4));
    assert!(rt; !begins(&SECOND, 0x138));
}

/// A unit without its last word is not recognised.
#[test]
fn cut(rt: HostRuntime) {
    assert!(rt; recognise(&P[7..26], 0x4000_005c).is_none());
}
