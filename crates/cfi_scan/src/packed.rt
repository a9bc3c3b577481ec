ghost use Rattle.std.specs.Prelude.{◌≡◌};
ghost use Rattle.cfi_reader.specs.Entries.{is_quiet, is_unit};
ghost use Rattle.cfi_scan.specs.Calm.{is_calm};
ghost use Rattle.cfi_scan.specs.Packed.{of_kind, packed, unpacked};
ghost use Rattle.cfi_reader.specs.declared.entry.Entry.TheVariants as E;

use cfi_reader::Entry;
use cfi_unit::TargetWord;
use rv_instr::Immediate;
use std::marker::Model;

/// An entry in four bytes: the number of its kind above its field.
#[derive(Clone, Copy)]
pub(crate) struct Packed {
    word: u32,
}

impl Model for Packed {
    ghost use Rattle.cfi_reader.specs.declared.entry.Entry.{Entry};

    ghost Value = { Entry };

    ghost use Rattle.cfi_scan.specs.Packed.{IsPacked, packed, unpacked};

    ghost view = { λ p. unpacked p.word };

    ghost invariant = { λ p. IsPacked p.word };

    ghost inverse = { λ e. record { word = packed e } };

    ghost inverse_ok = { λ a h i. record { word = h i } };
}

impl Packed {
    /// No unit starts there.
    pub(crate) fn of(entry: Entry) -> Self
        ensures { result ≡ entry }
    {
        Packed {
            word: word_of(entry),
        }
    }

    /// Whether the entry is of no transfer, of no gate and of no system call.
    pub(crate) fn is_quiet(&self) -> bool
        ensures { result ≡ is_quiet self.now }
    {
        is_quiet_kind(self.word / FIELDS, self.word % FIELDS)
    }

    /// Whether the kinds of starts ask nothing of the entry's unit.
    pub(crate) fn is_calm(&self) -> bool
        ensures { result ≡ is_calm self.now }
    {
        is_calm_kind(self.word / FIELDS, self.word % FIELDS)
    }

    /// Whether a unit starts there.
    pub(crate) fn is_unit(&self) -> bool
        ensures { result ≡ is_unit self.now }
    {
        is_unit_kind(self.word / FIELDS, self.word % FIELDS)
    }

    /// The entry.
    pub(crate) fn entry(&self) -> Entry
        ensures { result ≡ self.now }
    {
        entry_of(self.word)
    }
}

/// How many values a field has.
const FIELDS: u32 = 1 << 20;

/// The word of an entry.
fn word_of(entry: Entry) -> u32
    ensures word { result ≡ packed entry }
    ensures back { unpacked result ≡ entry }
{
    match entry {
        Entry::Inside => 0,
        Entry::Stop => FIELDS,
        Entry::Other => 2 * FIELDS,
        Entry::WritesLink => 3 * FIELDS,
        Entry::Return => 4 * FIELDS,
        Entry::Break => 5 * FIELDS,
        Entry::Stores => 6 * FIELDS,
        Entry::Near(field) => 7 * FIELDS + field.bits(),
        Entry::Branch(field) => 8 * FIELDS + field.bits(),
        Entry::Jump(field) => 9 * FIELDS + field.bits(),
        Entry::Call(field) => 10 * FIELDS + field.bits(),
        Entry::Ijump(which, label) => ijump_word(which, label),
        Entry::Icall(label) => 12 * FIELDS + label.bits(),
        Entry::Gate(label) => 14 * FIELDS + label.bits(),
        Entry::Ecall => 15 * FIELDS,
        Entry::Guarded(same) => guarded_word(same),
        Entry::LinkCall(field) => 18 * FIELDS + field.bits(),
        Entry::LeanIjump(label) => 19 * FIELDS + label.bits(),
        Entry::LeanIcall(label) => 20 * FIELDS + label.bits(),
        Entry::Enter => 21 * FIELDS,
        Entry::LeafReturn => 22 * FIELDS,
        Entry::LeanStores => 23 * FIELDS,
    }
}

/// The word of a computed jump's entry.
fn ijump_word(which: TargetWord, label: Immediate<20>) -> u32
    ensures word { result ≡ packed (E.Ijump which label) }
    ensures back { unpacked result ≡ E.Ijump which label }
{
    match which {
        TargetWord::First => 11 * FIELDS + label.bits(),
        TargetWord::Second => 13 * FIELDS + label.bits(),
        TargetWord::Third => 24 * FIELDS + label.bits(),
    }
}

/// The word of the entry of a system call behind tests of its number.
fn guarded_word(same: bool) -> u32
    ensures word { result ≡ packed (E.Guarded same) }
    ensures back { unpacked result ≡ E.Guarded same }
{
    if same { 17 * FIELDS } else { 16 * FIELDS }
}

/// Whether the kind with a number is no transfer, no gate and no system call, whatever the field.
fn is_quiet_kind(kind: u32, _field: u32) -> bool
    ensures { result ≡ is_quiet (of_kind kind _field) }
{
    kind < 7
}

/// Whether the kind with a number is one of which the kinds of starts ask nothing, whatever the field.
fn is_calm_kind(kind: u32, _field: u32) -> bool
    ensures { result ≡ is_calm (of_kind kind _field) }
{
    kind < 3 || kind == 5 || kind == 23
}

/// Whether the kind with a number is that of a unit, whatever the field.
fn is_unit_kind(kind: u32, _field: u32) -> bool
    ensures { result ≡ is_unit (of_kind kind _field) }
{
    kind != 0
}

/// The entry of a word.
fn entry_of(word: u32) -> Entry
    ensures { result ≡ unpacked word }
{
    let kind = word / FIELDS;
    let field = word % FIELDS;
    if kind == 0 {
        Entry::Inside
    } else if kind == 1 {
        Entry::Stop
    } else if kind == 2 {
        Entry::Other
    } else if kind == 3 {
        Entry::WritesLink
    } else if kind == 4 {
        Entry::Return
    } else if kind == 5 {
        Entry::Break
    } else if kind == 6 {
        Entry::Stores
    } else if kind == 7 {
        Entry::Near(Immediate::of(field % 4096))
    } else if kind == 8 {
        Entry::Branch(Immediate::of(field))
    } else if kind == 9 {
        Entry::Jump(Immediate::of(field))
    } else if kind == 10 {
        Entry::Call(Immediate::of(field))
    } else if kind == 11 {
        Entry::Ijump(TargetWord::First, Immediate::of(field))
    } else if kind == 12 {
        Entry::Icall(Immediate::of(field))
    } else if kind == 13 {
        Entry::Ijump(TargetWord::Second, Immediate::of(field))
    } else if kind == 14 {
        Entry::Gate(Immediate::of(field))
    } else if kind == 15 {
        Entry::Ecall
    } else if kind == 16 {
        Entry::Guarded(false)
    } else if kind == 17 {
        Entry::Guarded(true)
    } else if kind == 18 {
        Entry::LinkCall(Immediate::of(field))
    } else if kind == 19 {
        Entry::LeanIjump(Immediate::of(field))
    } else if kind == 20 {
        Entry::LeanIcall(Immediate::of(field))
    } else if kind == 21 {
        Entry::Enter
    } else if kind == 22 {
        Entry::LeafReturn
    } else if kind == 23 {
        Entry::LeanStores
    } else {
        Entry::Ijump(TargetWord::Third, Immediate::of(field))
    }
}
