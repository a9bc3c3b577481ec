ghost use Rattle.std.specs.Prelude.{◌≡◌, ◌<◌, ◌^◌, not, true, false, length, IfOk, OnOk, OnErr, Some, Option};
ghost use Rattle.std.specs.Result.{result_ok};
ghost use Rattle.rv_code.specs.Decode.{decoded};
ghost use Rattle.rv_instr.specs.InRange.{IsInstr};
ghost use Rattle.obj_program.specs.AtMap.{distance, distance_to, high_part, instr_at, is_reached, low_part, patched_instr, value_at, with_lower, with_upper};
ghost use Rattle.obj_program.specs.Program.{count, is_end, item_of};
ghost use Rattle.obj_program.specs.Sound.{is_of, is_own, is_small, is_value};
ghost use Rattle.obj_program.specs.Suits.{names_reserved, suits};

use crate::item::{Patch, Value};
use crate::items::Items;
use rv_code::decode;
use rv_instr::{Immediate, Instr};
use rv_reloc::{RelocRange, high, low};

impl<'a> Items<'a> {
    /// Whether the immediate of the instruction with this index comes from a relocation.
    pub fn patched(&self, k: u64) -> bool
        requires { k < count self.now }
        ensures { result ≡ not (is_own (item_of self.now k).patch) }
    {
        !matches!(self.patch(k), Patch::Own)
    }

    /// The instruction with this index where the places' gates and words, which are addresses, are these. `RelocRange`
    /// comes where a high part does not reach its value (RISC-V ELF psABI, "Relocations").
    #[tactic(auto, unfolding(crate::specs::AtMap::instr_at))]
    pub fn instr_at(&self, k: u64, gates: &[u64], words: &[u64]) -> Result<Instr, RelocRange>
        requires place { k < count self.now }
        requires instruction { is_end (item_of self.now k).kind ≡ false }
        requires gates { length gates.now ≡ count self.now }
        requires words { length words.now ≡ count self.now }
        ensures value { result_ok result ≡ instr_at self.now gates.now words.now k }
        ensures taken { OnOk result (is_reached gates.now words.now k (item_of self.now k).patch ≡ true) }
        ensures refused { OnErr result (is_reached gates.now words.now k (item_of self.now k).patch ≡ false) }
        ensures kind { IfOk result (λ i. suits (item_of self.now k).kind i ≡ true) }
        ensures reserved { IfOk result (λ i. names_reserved i ≡ false) }
        ensures in_range { IfOk result IsInstr }
    {
        let _count = self.count();
        let instr = instr_at(self, gates, words, k)?;
        instr.in_range();
        Ok(instr)
    }
}

/// What a value is at a map.
pub(crate) fn value_at(gates: &[u64], value: Value) -> i128
    requires { is_value (length gates.now) value ≡ true }
    ensures value { result ≡ value_at gates.now value }
    ensures small { is_small result ≡ true }
{
    match value {
        Value::Number(z) => z,
        Value::GateOf(k) => i128::from(gates[k as usize]),
    }
}

/// The distance from the word of the place with this index to a value.
fn distance_to(gates: &[u64], words: &[u64], k: u64, value: Value) -> i128
    requires value { is_value (length gates.now) value ≡ true }
    requires place { k < length words.now }
    ensures { result ≡ distance_to gates.now words.now k value }
{
    value_at(gates, value) - i128::from(words[k as usize])
}

/// An instruction of the form of LUI and AUIPC with another immediate.
fn with_upper(instr: Instr, field: u32) -> Instr
    requires { field < 2 ^ 20 }
    ensures { result ≡ with_upper instr field }
{
    match instr {
        Instr::Upper(op, rd, _) => Instr::Upper(op, rd, Immediate::of(field)),
        other => other,
    }
}

/// An instruction with another immediate of 12 bits.
fn with_lower(instr: Instr, field: u32) -> Instr
    requires { field < 2 ^ 12 }
    ensures { result ≡ with_lower instr field }
{
    match instr {
        Instr::Jalr(rd, rs1, _) => Instr::Jalr(rd, rs1, Immediate::of(field)),
        Instr::Load(op, rd, rs1, _) => Instr::Load(op, rd, rs1, Immediate::of(field)),
        Instr::Store(op, rs1, rs2, _) => Instr::Store(op, rs1, rs2, Immediate::of(field)),
        Instr::Immediate(op, rd, rs1, _) => Instr::Immediate(op, rd, rs1, Immediate::of(field)),
        other => other,
    }
}

/// An instruction with the high part of a value.
fn high_part(instr: Instr, value: i128) -> Result<Instr, RelocRange>
    ensures { result_ok result ≡ high_part instr value }
{
    Ok(with_upper(instr, high(value)?))
}

/// An instruction with the low part of a value.
fn low_part(instr: Instr, value: i128) -> Instr
    ensures { result ≡ low_part instr value }
{
    with_lower(instr, low(value))
}

/// The distance whose high part the instruction with this index has.
fn distance(items: &Items, gates: &[u64], words: &[u64], k: u64) -> Option<i128>
    requires place { k < count items.now }
    requires gates { length gates.now ≡ count items.now }
    requires words { length words.now ≡ count items.now }
    ensures { result ≡ distance gates.now words.now k (item_of items.now k).patch }
{
    match items.patch(k) {
        Patch::RelativeHigh(v) => Some(distance_to(gates, words, k, v)),
        _ => None,
    }
}

/// An instruction of the place with this index after what a relocation does to it.
fn patched_instr(
    items: &Items,
    gates: &[u64],
    words: &[u64],
    k: u64,
    instr: Instr,
) -> Result<Instr, RelocRange>
    requires place { k < count items.now }
    requires gates { length gates.now ≡ count items.now }
    requires words { length words.now ≡ count items.now }
    ensures { result_ok result ≡ patched_instr items.now gates.now words.now k instr (item_of items.now k).patch }
{
    match items.patch(k) {
        Patch::Own => Ok(instr),
        Patch::High(v) => high_part(instr, value_at(gates, v)),
        Patch::Low(v) => Ok(low_part(instr, value_at(gates, v))),
        Patch::RelativeHigh(v) => high_part(instr, distance_to(gates, words, k, v)),
        Patch::RelativeLow(j) => {
            let distance = distance(items, gates, words, j).ok_or(RelocRange)?;
            Ok(low_part(instr, distance))
        }
    }
}

/// The instruction of the place with this index as its word has it.
fn own_instr(items: &Items, k: u64) -> Instr
    requires place { k < count items.now }
    requires instruction { is_end (item_of items.now k).kind ≡ false }
    ensures value { decoded (item_of items.now k).word ≡ Some result }
    ensures read { is_of (item_of items.now k).kind (item_of items.now k).patch (Some result) ≡ true }
{
    let _count = items.count();
    decode(items.item(k).word).unwrap()
}

/// The instruction at the place with this index.
#[tactic(auto, unfolding(crate::specs::AtMap::instr_at))]
pub(crate) fn instr_at(
    items: &Items,
    gates: &[u64],
    words: &[u64],
    k: u64,
) -> Result<Instr, RelocRange>
    requires place { k < count items.now }
    requires instruction { is_end (item_of items.now k).kind ≡ false }
    requires gates { length gates.now ≡ count items.now }
    requires words { length words.now ≡ count items.now }
    ensures { result_ok result ≡ instr_at items.now gates.now words.now k }
{
    let instr = own_instr(items, k);
    patched_instr(items, gates, words, k, instr)
}
