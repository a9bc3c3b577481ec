//! Places as a program keeps them: fewer than half as many bytes as their parts have.

ghost use Rattle.std.specs.Prelude.{◌≡◌, false, true, pos, ◌^◌, unsigned_abs};
ghost use Rattle.std.specs.Int.{int_div_euclid, int_rem_euclid};
ghost use Rattle.obj_program.specs.Packed.{is_lone, may_be_together, number_in, patch_in, target_in, value_in};
ghost use Rattle.obj_program.specs.Program.{is_before, is_spot};

use crate::item::{Item, Patch, Value};
use obj_input::ItemKind;
use std::marker::Model;

/// What a patch does, without what it refers to.
#[derive(Clone, Copy)]
pub(crate) enum Form {
    Own,
    High,
    Low,
    RelativeHigh,
    RelativeLow,
}

/// A place in 40 bytes: its target stands where the number of a patch would. Its parts are read one by one, or all by
/// `item`.
#[derive(Drop)]
pub struct PackedItem {
    low: u64,
    high: i64,
    offset: u64,
    section: u32,
    word: u32,
    kind: ItemKind,
    form: Form,
    gate: bool,
    aimed: bool,
    taken: bool,
}

impl Model for PackedItem {
    ghost use Rattle.obj_program.specs.declared.item.Item.{Item};

    ghost Value = { Item };

    ghost use Rattle.obj_program.specs.Packed.{patch_in, target_in};

    ghost view = { λ p. record { patch = patch_in p.form p.gate p.low p.high; target = target_in p.aimed p.low; offset = p.offset; section = p.section; word = p.word; kind = p.kind; taken = p.taken } };
}

impl PackedItem {
    /// The place with these parts, of which a patch and a target are not both there.
    #[tactic(auto, using(crate::proofs::Packing::packed))]
    pub fn of(item: Item) -> PackedItem
        requires { is_lone item ≡ true }
        ensures { result ≡ item }
    {
        let link = link_words(item.patch, item.target);
        PackedItem {
            low: link.low,
            high: link.high,
            offset: item.offset,
            section: item.section,
            word: item.word,
            kind: item.kind,
            form: link.form,
            gate: link.gate,
            aimed: link.aimed,
            taken: item.taken,
        }
    }

    /// Its parts.
    pub fn item(&self) -> Item
        ensures { result ≡ self.now }
    {
        Item {
            patch: patch_in(self.form, self.gate, self.low, self.high),
            target: target_in(self.aimed, self.low),
            offset: self.offset,
            section: self.section,
            word: self.word,
            kind: self.kind,
            taken: self.taken,
        }
    }

    /// The instruction's word; of a pair that of its JALR, of an end 0.
    pub fn word(&self) -> u32
        ensures { result ≡ self.now.word }
    {
        self.word
    }

    /// What it is.
    pub fn kind(&self) -> ItemKind
        ensures { result ≡ self.now.kind }
    {
        self.kind
    }

    /// Whether a relocation takes the instruction's address.
    pub fn is_taken(&self) -> bool
        ensures { result ≡ self.now.taken }
    {
        self.taken
    }

    /// Whether it stands before this offset, in bytes, of the section with this index. (64 bits may not hold the offset.)
    pub fn is_before(&self, section: u32, offset: u128) -> bool
        ensures { result ≡ is_before self.now section offset }
    {
        self.section < section || self.section == section && u128::from(self.offset) < offset
    }

    /// Whether it stands at this offset, in bytes, of the section with this index. (64 bits may not hold the offset.)
    pub fn is_at(&self, section: u32, offset: u128) -> bool
        ensures { result ≡ is_spot section offset self.now }
    {
        self.section == section && u128::from(self.offset) == offset
    }
}

/// A patch, or a target, as a place keeps it.
#[derive(Clone, Copy)]
struct LinkWords {
    low: u64,
    high: i64,
    form: Form,
    gate: bool,
    aimed: bool,
}

/// A value as places and relocations keep it.
#[derive(Clone, Copy)]
pub(crate) struct ValueWords {
    pub(crate) low: u64,
    pub(crate) high: i64,
    pub(crate) gate: bool,
}

/// The lowest 64 bits of a number.
fn low_word(number: i128) -> u64
    ensures { result ≡ unsigned_abs (int_rem_euclid number (pos (2 ^ 64))) }
{
    number.rem_euclid(1 << 64) as u64
}

/// The bits of a number above its lowest 64.
fn high_word(number: i128) -> i64
    ensures { result ≡ int_div_euclid number (pos (2 ^ 64)) }
{
    number.div_euclid(1 << 64) as i64
}

/// A number of two words.
fn number_in(low: u64, high: i64) -> i128
    ensures { result ≡ number_in low high }
{
    i128::from(high) * (1 << 64) + i128::from(low)
}

/// The words of a number.
#[tactic(auto, using(crate::proofs::Packing::number_whole))]
fn number_words(number: i128) -> ValueWords
    ensures gate { result.gate ≡ false }
    ensures value { number_in result.low result.high ≡ number }
{
    ValueWords {
        low: low_word(number),
        high: high_word(number),
        gate: false,
    }
}

/// The words of a value.
pub(crate) fn value_words(value: Value) -> ValueWords
    ensures { value_in result.gate result.low result.high ≡ value }
{
    match value {
        Value::Number(number) => number_words(number),
        Value::GateOf(place) => ValueWords {
            low: place,
            high: 0,
            gate: true,
        },
    }
}

/// What some words refer to.
pub(crate) fn value_in(gate: bool, low: u64, high: i64) -> Value
    ensures { result ≡ value_in gate low high }
{
    if gate {
        Value::GateOf(low)
    } else {
        Value::Number(number_in(low, high))
    }
}

/// A patch of this form that refers to a value.
fn form_words(form: Form, value: Value) -> LinkWords
    ensures form { result.form ≡ form }
    ensures value { value_in result.gate result.low result.high ≡ value }
    ensures aimed { result.aimed ≡ false }
{
    let words = value_words(value);
    LinkWords {
        low: words.low,
        high: words.high,
        form,
        gate: words.gate,
        aimed: false,
    }
}

/// A patch of this form that refers to no value.
fn plain_words(form: Form, low: u64) -> LinkWords
    ensures form { result.form ≡ form }
    ensures low { result.low ≡ low }
    ensures aimed { result.aimed ≡ false }
{
    LinkWords {
        low,
        high: 0,
        form,
        gate: false,
        aimed: false,
    }
}

/// The words of a patch.
fn patch_words(patch: Patch) -> LinkWords
    ensures patch { patch_in result.form result.gate result.low result.high ≡ patch }
    ensures aimed { result.aimed ≡ false }
{
    match patch {
        Patch::Own => plain_words(Form::Own, 0),
        Patch::High(value) => form_words(Form::High, value),
        Patch::Low(value) => form_words(Form::Low, value),
        Patch::RelativeHigh(value) => form_words(Form::RelativeHigh, value),
        Patch::RelativeLow(place) => plain_words(Form::RelativeLow, place),
    }
}

/// The patch that some words are.
fn patch_in(form: Form, gate: bool, low: u64, high: i64) -> Patch
    ensures { result ≡ patch_in form gate low high }
{
    match form {
        Form::Own => Patch::Own,
        Form::High => Patch::High(value_in(gate, low, high)),
        Form::Low => Patch::Low(value_in(gate, low, high)),
        Form::RelativeHigh => Patch::RelativeHigh(value_in(gate, low, high)),
        Form::RelativeLow => Patch::RelativeLow(low),
    }
}

/// The words of a patch, or of a target.
#[tactic(auto, using(crate::proofs::Packing::only_target))]
fn link_words(patch: Patch, target: Option<u64>) -> LinkWords
    requires { may_be_together patch target ≡ true }
    ensures patch { patch_in result.form result.gate result.low result.high ≡ patch }
    ensures target { target_in result.aimed result.low ≡ target }
{
    match target {
        Some(place) => LinkWords {
            low: place,
            high: 0,
            form: Form::Own,
            gate: false,
            aimed: true,
        },
        None => patch_words(patch),
    }
}

/// The target, if there is one.
fn target_in(aimed: bool, target: u64) -> Option<u64>
    ensures { result ≡ target_in aimed target }
{
    if aimed { Some(target) } else { None }
}
