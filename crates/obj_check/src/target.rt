//! Where direct transfers go.

ghost use Rattle.std.specs.Prelude.{◌≡◌, ◌<◌, ◌*◌, pos, ◌*ℤ◌, true, find};
ghost use Rattle.obj_input.specs.Input.{acting_at, is_code, section_count, section_of};
ghost use Rattle.obj_input.specs.Code.{word_count};
ghost use Rattle.obj_input.specs.Kinds.{kind_of};
ghost use Rattle.obj_check.specs.Target.{aim_at, aim_of, direct_at, direct_word, goes_right, guide_at, guided, guides, may_aim, own_aim, signed};

use obj_input::{Definition, Input, RelocKind, Relocation, Section};
use rv_instr::{Immediate, Instr};

/// A transfer that says where it goes, with its own offset from where it stands.
#[derive(Clone, Copy)]
pub enum Direct {
    ByBranch(i64),
    ByJal(i64),
    /// An AUIPC and a JALR, which go where their relocation says alone.
    ByPair,
}

/// Where a direct transfer goes.
#[derive(Clone, Copy)]
pub enum Aim {
    /// To this offset in the section with this index; it may lie outside.
    At(u32, i128),
    /// To no offset in a section.
    Astray,
    /// To a symbol that is defined nowhere.
    Unknown,
}

/// The offset of a branch.
fn branch_offset(imm: Immediate<12>) -> i64
    ensures { result ≡ pos 2 *ℤ signed 11 imm }
{
    let field = i64::from(imm.bits());
    if field < 1 << 11 {
        2 * field
    } else {
        2 * (field - (1 << 12))
    }
}

/// The offset of a JAL.
fn jal_offset(imm: Immediate<20>) -> i64
    ensures { result ≡ pos 2 *ℤ signed 19 imm }
{
    let field = i64::from(imm.bits());
    if field < 1 << 19 {
        2 * field
    } else {
        2 * (field - (1 << 20))
    }
}

/// The direct transfer that an instruction of one word is.
fn direct_word(instr: Option<Instr>) -> Option<Direct>
    ensures { result ≡ direct_word instr }
{
    match instr? {
        Instr::Branch(_, _, _, imm) => Some(Direct::ByBranch(branch_offset(imm))),
        Instr::Jal(_, imm) => Some(Direct::ByJal(jal_offset(imm))),
        _ => None,
    }
}

/// The direct transfer that starts at the word of code with this index.
#[tactic(auto, unfolding(crate::specs::Target::direct_at))]
pub fn direct_at(section: &Section, index: u64) -> Option<Direct>
    requires code { is_code section.now ≡ true }
    requires below { index < word_count section.now }
    ensures { result ≡ direct_at section.now index }
{
    if section.is_pair(index) {
        Some(Direct::ByPair)
    } else {
        direct_word(section.instr(index))
    }
}

/// Whether a relocation of this kind names the target of such a transfer.
fn guides(direct: Direct, kind: RelocKind) -> bool
    ensures { result ≡ guides direct kind }
{
    match direct {
        Direct::ByBranch(_) => matches!(kind, RelocKind::BranchTarget),
        Direct::ByJal(_) => matches!(kind, RelocKind::JalTarget),
        Direct::ByPair => matches!(kind, RelocKind::PairTarget),
    }
}

/// Where a definition and an addend lead.
fn aim_of(definition: Definition, addend: i64) -> Aim
    ensures { result ≡ aim_of definition addend }
{
    match definition {
        Definition::Within(section, value) => {
            Aim::At(section, i128::from(value) + i128::from(addend))
        }
        Definition::Missing(_) => Aim::Unknown,
        _ => Aim::Astray,
    }
}

/// Where a transfer at this offset goes without a relocation.
fn own_aim(section: u32, offset: u64, direct: Direct) -> Aim
    ensures { result ≡ own_aim section offset direct }
{
    match direct {
        Direct::ByBranch(distance) => {
            Aim::At(section, i128::from(offset) + i128::from(distance))
        }
        Direct::ByJal(distance) => Aim::At(section, i128::from(offset) + i128::from(distance)),
        Direct::ByPair => Aim::Astray,
    }
}

/// The first relocation that tells where the transfer at this offset goes.
fn guide_at(section: &Section, offset: u64, direct: Direct) -> Option<Relocation>
    ensures { result ≡ guide_at section.now offset direct }
{
    section
        .acting_at(offset)
        .iter()
        .copied()
        .find(|u| guides(direct, u.kind()))
}

/// Where a relocation leads, if there is one, and else the transfer's own offset.
fn guided(guide: Option<Relocation>, own: Aim) -> Aim
    ensures { result ≡ guided guide own }
{
    match guide {
        Some(guide) => aim_of(guide.definition, guide.addend),
        None => own,
    }
}

/// Where the direct transfer goes that starts at the word with this index of the section `k`, which is code.
#[tactic(auto, unfolding(crate::specs::Target::aim_at))]
pub fn aim_at(input: &Input, k: u32, index: u64, direct: Direct) -> Aim
    requires there { k < section_count input.now }
    requires below { index < word_count (section_of input.now k) }
    ensures { result ≡ aim_at input.now k index direct }
{
    let section = input.section(k);
    let offset = section.offset_of(index);
    guided(
        guide_at(section, offset, direct),
        own_aim(k, offset, direct),
    )
}

/// Whether a transfer may go there: to an instruction's start, or to what is refused otherwise.
fn may_aim(input: &Input, aim: Aim) -> bool
    ensures { result ≡ may_aim input.now aim }
{
    match aim {
        Aim::At(section, at) => input.is_start_at(section, at),
        Aim::Astray => false,
        Aim::Unknown => true,
    }
}

/// Whether what starts at the word with this index of the section `k` goes where it may.
pub(crate) fn goes_right(input: &Input, k: u32, index: u64, direct: Option<Direct>) -> bool
    requires there { k < section_count input.now }
    requires below { index < word_count (section_of input.now k) }
    ensures { result ≡ goes_right input.now k index direct }
{
    match direct {
        Some(direct) => may_aim(input, aim_at(input, k, index, direct)),
        None => true,
    }
}
