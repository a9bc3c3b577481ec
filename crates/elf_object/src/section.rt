//! What is wrong with an object's sections, tables and symbols, one test after another.

ghost use Rattle.std.specs.Prelude.{◌≡◌};
ghost use Rattle.std.specs.Option.{option_or};
ghost use Rattle.least.specs.First.{first_below};
ghost use Rattle.elf_tables.specs.Symbol.{symbol_count};
ghost use Rattle.elf_object.specs.Symbol.{is_wrong_symbol};
ghost use Rattle.elf_object.specs.Stray.{stray_symbol};
ghost use Rattle.elf_object.specs.Fault.{kind_fault, section_fault, symbol_fault, table_fault};

use crate::fault::ObjectFault;
use crate::kinds::first_wrong_kind;
use crate::strays::stray_symbol;
use crate::symbols::first_wrong_symbol;
use crate::tables::{first_wrong_table, is_wrong_start};
use elf_tables::Lookup;

/// What is wrong with the tables.
#[tactic(auto, unfolding(crate::specs::Fault::table_fault))]
fn table_fault(lookup: &Lookup) -> Option<ObjectFault>
    ensures { result ≡ table_fault lookup.now }
{
    if is_wrong_start(lookup.sections()) {
        return Some(ObjectFault::BadTable(0));
    }
    Some(ObjectFault::BadTable(first_wrong_table(lookup)?))
}

/// What is wrong with the kinds of the sections.
#[tactic(auto, unfolding(crate::specs::Fault::kind_fault))]
fn kind_fault(lookup: &Lookup) -> Option<ObjectFault>
    ensures { result ≡ kind_fault lookup.now }
{
    Some(ObjectFault::SectionKind(first_wrong_kind(lookup)?))
}

/// The first symbol that is wrong, or else the least that is named and not there.
fn first_bad_symbol(lookup: &Lookup) -> Option<u64>
    ensures { result ≡ option_or (first_below (is_wrong_symbol lookup.now) (symbol_count lookup.now)) (stray_symbol lookup.now) }
{
    first_wrong_symbol(lookup).or(stray_symbol(lookup))
}

/// What is wrong with the symbols.
#[tactic(auto, unfolding(crate::specs::Fault::symbol_fault))]
fn symbol_fault(lookup: &Lookup) -> Option<ObjectFault>
    ensures { result ≡ symbol_fault lookup.now }
{
    Some(ObjectFault::BadSymbol(first_bad_symbol(lookup)?))
}

/// What is wrong with the sections of a file that are all in it.
pub(crate) fn section_fault(lookup: &Lookup) -> Option<ObjectFault>
    ensures { result ≡ section_fault lookup.now }
{
    if let Some(fault) = table_fault(lookup) {
        return Some(fault);
    }
    if let Some(fault) = kind_fault(lookup) {
        return Some(fault);
    }
    symbol_fault(lookup)
}
