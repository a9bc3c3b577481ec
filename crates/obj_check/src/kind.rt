//! The kind of each instruction, by itself and with its relocation.

ghost use Rattle.std.specs.Prelude.{◌≡◌, ◌<◌, true};
ghost use Rattle.obj_input.specs.Input.{is_code};
ghost use Rattle.obj_input.specs.Code.{word_count};
ghost use Rattle.obj_check.specs.Kind.{by_link, computed_kind, kind_at, pair_kind, single_kind, upper_kind, word_kind};

use obj_input::{ItemKind, Section};
use rv_instr::{Immediate, Instr, Reg, UpperOp};

/// The kind of a direct transfer, by its link register.
fn by_link(link: Reg) -> Option<ItemKind>
    ensures { result ≡ by_link link }
{
    match link.number() {
        0 => Some(ItemKind::Jump),
        1 => Some(ItemKind::Call),
        _ => None,
    }
}

/// The kind of a JALR by itself; `plain` tells that no relocation stands there.
fn computed_kind(plain: bool, link: Reg, base: Reg, imm: Immediate<12>) -> Option<ItemKind>
    ensures { result ≡ computed_kind plain link base imm }
{
    if link.number() == 1 {
        return Some(ItemKind::Icall);
    }
    if link.number() != 0 {
        return None;
    }
    if base.number() != 1 {
        return Some(ItemKind::Ijump);
    }
    if imm.bits() == 0 && plain {
        return Some(ItemKind::Return);
    }
    None
}

/// The kind of a pair, by its JALR.
fn pair_kind(instr: Option<Instr>) -> Option<ItemKind>
    ensures { result ≡ pair_kind instr }
{
    match instr? {
        Instr::Jalr(link, _, _) => by_link(link),
        _ => None,
    }
}

/// The kind of a LUI or an AUIPC.
fn upper_kind(op: UpperOp, rd: Reg) -> ItemKind
    ensures { result ≡ upper_kind op rd }
{
    match op {
        UpperOp::Lui if rd.number() == 0 => ItemKind::Gate,
        _ => ItemKind::Plain,
    }
}

/// The kind of an instruction of one word.
fn single_kind(plain: bool, instr: Instr) -> Option<ItemKind>
    ensures { result ≡ single_kind plain instr }
{
    match instr {
        Instr::Upper(op, rd, _) => Some(upper_kind(op, rd)),
        Instr::Jal(link, _) => by_link(link),
        Instr::Jalr(link, base, imm) => computed_kind(plain, link, base, imm),
        Instr::Branch(..) => Some(ItemKind::Branch),
        Instr::Store(..) => Some(ItemKind::Store),
        Instr::Ecall | Instr::Ebreak => Some(ItemKind::System),
        _ => Some(ItemKind::Plain),
    }
}

/// The kind of a word that is an instruction.
fn word_kind(plain: bool, instr: Option<Instr>) -> Option<ItemKind>
    ensures { result ≡ word_kind plain instr }
{
    single_kind(plain, instr?)
}

/// The kind of the instruction that starts at the word of code with this index; `None` of a transfer that no unit does.
#[tactic(auto, unfolding(crate::specs::Kind::kind_at))]
pub fn kind_at(section: &Section, index: u64) -> Option<ItemKind>
    requires code { is_code section.now ≡ true }
    requires below { index < word_count section.now }
    ensures { result ≡ kind_at section.now index }
{
    if section.is_pair(index) {
        return pair_kind(section.instr_after(index));
    }
    let plain = section.acting_at(section.offset_of(index)).is_empty();
    word_kind(plain, section.instr(index))
}
