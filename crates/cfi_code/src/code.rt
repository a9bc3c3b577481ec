//! The bytes of hardened code: the prologue, with the closing, and then the units.

ghost use Rattle.std.specs.Prelude.{◌≡◌, ◌+◌, ◌*◌, ◌%◌, ◌≤◌, ◌++◌, ◌∷◌, [], IfOk, OnOk, length, map};
ghost use Rattle.rv_image.specs.MemoryMap.{CODE_SIZE, CODE_START, profile_with};
ghost use Rattle.rv_instr.specs.declared.instr.Instr.TheVariants as Instr;
ghost use Rattle.rv_code.specs.Encode.{code_of};
ghost use Rattle.cfi_unit.specs.Prologue.{closing_instrs, lean_lone_set_up, lean_own_set_up, lone_set_up, own_set_up, prologue_instrs};
ghost use Rattle.cfi_unit.specs.UnitWords.{Fits, Reaches, words_of};
ghost use Rattle.cfi_rules.specs.Placed.{AllFit, placed_code};
ghost use Rattle.cfi_rules.specs.Split.{code_words};
ghost use Rattle.cfi_code.specs.Prologue.{before_call, begins_with, call_with, set_up_with};

use cfi_emit::emit;
use cfi_unit::Unit;
use rv_code::encode;
use rv_image::memory_map::CODE_START;
use rv_image::profile::{
    LEAN_OPENING_CALL, LEAN_OPENING_CALL_OF_HARTS, OPENING_CALL, OPENING_CALL_OF_HARTS,
};
use rv_image::{GraphVersion, ImageVersion, Versions};
use rv_instr::{Immediate, ImmediateOp, Instr, Reg, RegisterOp, ShiftOp, UpperOp};
use rv_word::NoMemory;
use std::alloc::Global;

/// Puts the bytes of a word at the end, the lowest first.
#[tactic(auto, using(crate::proofs::CodeBytes::one_word, crate::proofs::CodeBytes::one_length))]
fn push_word(bytes: &mut Vec<u8>, word: u32) -> Result<(), NoMemory>
    requires { length bytes.old.items % 4 ≡ 0 }
    ensures words { OnOk result (code_words bytes.new.items ≡ code_words bytes.old.items ++ word ∷ []) }
    ensures size { OnOk result (length bytes.new.items ≡ length bytes.old.items + 4) }
{
    bytes.extend_from_slice(&word.to_le_bytes())?;
    Ok(())
}

/// Puts the bytes of words at the end.
fn push_words(bytes: &mut Vec<u8>, words: &[u32]) -> Result<(), NoMemory>
    requires { length bytes.old.items % 4 ≡ 0 }
    ensures words { OnOk result (code_words bytes.new.items ≡ code_words bytes.old.items ++ words.now) }
    ensures size { OnOk result (length bytes.new.items ≡ length bytes.old.items + 4 * length words.now) }
{
    for word in words {
        push_word(bytes, *word)?;
    }
    Ok(())
}

/// Puts the bytes of instructions at the end.
fn push_instrs(bytes: &mut Vec<u8>, instrs: &[Instr]) -> Result<(), NoMemory>
    requires { length bytes.old.items % 4 ≡ 0 }
    ensures words { OnOk result (code_words bytes.new.items ≡ code_words bytes.old.items ++ map code_of instrs.now) }
    ensures size { OnOk result (length bytes.new.items ≡ length bytes.old.items + 4 * length instrs.now) }
{
    for instr in instrs {
        push_word(bytes, encode(*instr))?;
    }
    Ok(())
}

/// The three handlers.
fn handlers() -> [Instr; 3]
    ensures { result ≡ Instr.Ebreak ∷ Instr.Ebreak ∷ Instr.Ebreak ∷ [] }
{
    [Instr::Ebreak, Instr::Ebreak, Instr::Ebreak]
}

/// What sets up both stacks of a lone hart: `lui x2,0x10000`, `lui x3,0x60000`, `addi x3,x3,8`.
fn lone_set_up() -> [Instr; 3]
    ensures { result ≡ lone_set_up }
{
    let shadow = Reg::of(3);
    [
        Instr::Upper(UpperOp::Lui, Reg::of(2), Immediate::of(0x10000)),
        Instr::Upper(UpperOp::Lui, shadow, Immediate::of(0x60000)),
        Instr::Immediate(ImmediateOp::Addi, shadow, shadow, Immediate::of(8)),
    ]
}

/// What sets up both stacks of one of several harts, whose number is in x10.
fn own_set_up() -> [Instr; 7]
    ensures { result ≡ own_set_up }
{
    let stack = Reg::of(2);
    let shadow = Reg::of(3);
    let number = Reg::of(10);
    let offset = Reg::of(31);
    [
        Instr::Upper(UpperOp::Lui, stack, Immediate::of(0x10000)),
        Instr::Shift(ShiftOp::Slli, offset, number, Immediate::of(20)),
        Instr::Register(RegisterOp::Sub, stack, stack, offset),
        Instr::Upper(UpperOp::Lui, shadow, Immediate::of(0x60000)),
        Instr::Shift(ShiftOp::Slli, offset, number, Immediate::of(16)),
        Instr::Register(RegisterOp::Add, shadow, shadow, offset),
        Instr::Immediate(ImmediateOp::Addi, shadow, shadow, Immediate::of(8)),
    ]
}

/// The same where x4 also gets the mask of stores, 2^28 - 1, behind the first of them.
fn lean_lone_set_up() -> [Instr; 5]
    ensures { result ≡ lean_lone_set_up }
{
    let shadow = Reg::of(3);
    let mask = Reg::of(4);
    [
        Instr::Upper(UpperOp::Lui, Reg::of(2), Immediate::of(0x10000)),
        Instr::Upper(UpperOp::Lui, mask, Immediate::of(0x10000)),
        Instr::Immediate(ImmediateOp::Addi, mask, mask, Immediate::of(0xfff)),
        Instr::Upper(UpperOp::Lui, shadow, Immediate::of(0x60000)),
        Instr::Immediate(ImmediateOp::Addi, shadow, shadow, Immediate::of(8)),
    ]
}

/// And for one of several harts.
fn lean_own_set_up() -> [Instr; 9]
    ensures { result ≡ lean_own_set_up }
{
    let stack = Reg::of(2);
    let shadow = Reg::of(3);
    let mask = Reg::of(4);
    let number = Reg::of(10);
    let offset = Reg::of(31);
    [
        Instr::Upper(UpperOp::Lui, stack, Immediate::of(0x10000)),
        Instr::Upper(UpperOp::Lui, mask, Immediate::of(0x10000)),
        Instr::Immediate(ImmediateOp::Addi, mask, mask, Immediate::of(0xfff)),
        Instr::Shift(ShiftOp::Slli, offset, number, Immediate::of(20)),
        Instr::Register(RegisterOp::Sub, stack, stack, offset),
        Instr::Upper(UpperOp::Lui, shadow, Immediate::of(0x60000)),
        Instr::Shift(ShiftOp::Slli, offset, number, Immediate::of(16)),
        Instr::Register(RegisterOp::Add, shadow, shadow, offset),
        Instr::Immediate(ImmediateOp::Addi, shadow, shadow, Immediate::of(8)),
    ]
}

/// Puts the instructions at the end that set up both stacks, and the mask of stores where callees save the sites of calls.
fn push_set_up(bytes: &mut Vec<u8>, versions: Versions) -> Result<(), NoMemory>
    requires { length bytes.old.items % 4 ≡ 0 }
    ensures words { OnOk result (code_words bytes.new.items ≡ code_words bytes.old.items ++ map code_of (set_up_with versions)) }
    ensures size { OnOk result (length bytes.new.items ≡ length bytes.old.items + 4 * length (set_up_with versions)) }
{
    match (versions.graph, versions.image) {
        (GraphVersion::OneLabel | GraphVersion::TwoLabels, ImageVersion::OneHart) => {
            push_instrs(bytes, &lone_set_up())
        }
        (GraphVersion::OneLabel | GraphVersion::TwoLabels, ImageVersion::EightHarts) => {
            push_instrs(bytes, &own_set_up())
        }
        (GraphVersion::CalleeSaves, ImageVersion::OneHart) => {
            push_instrs(bytes, &lean_lone_set_up())
        }
        (GraphVersion::CalleeSaves, ImageVersion::EightHarts) => {
            push_instrs(bytes, &lean_own_set_up())
        }
    }
}

/// Puts the instructions at the end that stand before the prologue's call: the three handlers, and those that set up both
/// stacks.
fn push_before_call(bytes: &mut Vec<u8>, versions: Versions) -> Result<(), NoMemory>
    requires { length bytes.old.items % 4 ≡ 0 }
    ensures words { OnOk result (code_words bytes.new.items ≡ code_words bytes.old.items ++ map code_of (before_call versions)) }
    ensures size { OnOk result (length bytes.new.items ≡ length bytes.old.items + 4 * length (before_call versions)) }
{
    push_instrs(bytes, &handlers())?;
    push_set_up(bytes, versions)
}

/// The unit of the prologue's call of the entry at this address.
fn call_unit(versions: Versions, entry: u64) -> Unit
    ensures { result ≡ call_with versions entry }
{
    match versions.graph {
        GraphVersion::OneLabel | GraphVersion::TwoLabels => Unit::Call(entry),
        GraphVersion::CalleeSaves => Unit::LinkCall(entry),
    }
}

/// Where it begins.
fn call_at(versions: Versions) -> u64
    ensures { result ≡ begins_with versions }
{
    match (versions.graph, versions.image) {
        (GraphVersion::OneLabel | GraphVersion::TwoLabels, ImageVersion::OneHart) => {
            OPENING_CALL - 28
        }
        (GraphVersion::OneLabel | GraphVersion::TwoLabels, ImageVersion::EightHarts) => {
            OPENING_CALL_OF_HARTS - 28
        }
        (GraphVersion::CalleeSaves, ImageVersion::OneHart) => LEAN_OPENING_CALL,
        (GraphVersion::CalleeSaves, ImageVersion::EightHarts) => LEAN_OPENING_CALL_OF_HARTS,
    }
}

/// The instructions after it, which exit.
fn closing() -> [Instr; 2]
    ensures { result ≡ closing_instrs }
{
    [
        Instr::Immediate(
            ImmediateOp::Addi,
            Reg::of(17),
            Reg::of(0),
            Immediate::of(93),
        ),
        Instr::Ecall,
    ]
}

/// The prologue of images of these versions, which calls the entry at this address.
fn prologue(alloc: Global, versions: Versions, entry: u64) -> Result<Vec<u8>, NoMemory>
    requires { Reaches (profile_with versions).opening_call entry }
    ensures words { IfOk result (λ v. code_words v.items ≡ map code_of (prologue_instrs (profile_with versions) entry)) }
    ensures size { IfOk result (λ v. CODE_START + length v.items ≡ (profile_with versions).units_from) }
{
    let unit = call_unit(versions, entry);
    let call = emit(alloc, &unit, call_at(versions))?;
    let mut bytes = Vec::new(alloc);
    push_before_call(&mut bytes, versions)?;
    push_words(&mut bytes, &call)?;
    push_instrs(&mut bytes, &closing())?;
    Ok(bytes)
}

/// The code of these units in an image of these versions, which calls the entry at this address: the prologue, and one unit
/// after the other, as bytes, the lowest of each word first.
pub fn code_bytes(
    alloc: Global,
    versions: Versions,
    entry: u64,
    units: &[Unit],
) -> Result<Vec<u8>, NoMemory>
    requires entry { Reaches (profile_with versions).opening_call entry }
    requires fit { AllFit (profile_with versions).units_from units.now }
    requires room { 4 * length (placed_code (profile_with versions) entry units.now) ≤ CODE_SIZE }
    ensures words { IfOk result (λ v. code_words v.items ≡ placed_code (profile_with versions) entry units.now) }
    ensures size { IfOk result (λ v. length v.items ≡ 4 * length (placed_code (profile_with versions) entry units.now)) }
{
    let mut bytes = prologue(alloc, versions, entry)?;
    for unit in units {
        let words = emit(alloc, unit, CODE_START + bytes.len() as u64)?;
        push_words(&mut bytes, &words)?;
    }
    Ok(bytes)
}
