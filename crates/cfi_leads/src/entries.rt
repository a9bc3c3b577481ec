//! Which places are entries.

ghost use Rattle.std.specs.Prelude.{◌≡◌, ◌<◌, IfOk, IfSome, length};
ghost use Rattle.obj_program.specs.Program.{count};
ghost use Rattle.cfi_leads.specs.Entered.{entered_at};
ghost use Rattle.cfi_leads.specs.Entries.{is_call_target, is_called, is_entry, serves_calls};
ghost use Rattle.cfi_leads.specs.Leaves.{begins};
ghost use Rattle.cfi_leads.specs.Marks.{AreEntries, AreFlags, marked};

use crate::kinds::call_target;
use cfi_closed::{Closed, Side, is_of};
use cfi_graph::SiteKind;
use obj_input::ItemKind;
use obj_program::Items;
use rv_word::NoMemory;
use std::alloc::Global;
use std::marker::Model;

/// Marks a place, if there is one.
pub fn mark(flags: &mut Vec<bool>, place: Option<u64>)
    requires { IfSome place (λ k. k < length flags.old.items) }
    ensures { flags.new.items ≡ marked flags.old.items place }
{
    if let Some(k) = place {
        flags[k as usize] = true;
    }
}

/// Of each place whether a direct call goes there.
fn called(alloc: Global, items: &Items) -> Result<Vec<bool>, NoMemory>
    ensures { IfOk result (λ v. AreFlags (is_called items.now) (count items.now) v.items) }
{
    let count = items.count();
    let mut flags = vec![in alloc; false; count as usize]?;
    for k in 0..count {
        mark(&mut flags, call_target(&items.item(k)));
    }
    Ok(flags)
}

/// Whether a place is a target of a side that serves computed calls.
fn serves_calls(side: &Side, k: u64) -> bool
    ensures { result ≡ serves_calls k side.now }
{
    is_of(side.sort(), SiteKind::Call) && side.is_target(k)
}

/// Whether a place is a target of computed calls.
pub(crate) fn is_call_target(closed: &Closed, k: u64) -> bool
    ensures { result ≡ is_call_target closed.now.sides k }
{
    closed.sides().iter().any(|side| serves_calls(side, k))
}

/// Of each place whether it is an entry.
fn entry_flags(
    alloc: Global,
    items: &Items,
    closed: &Closed,
    entry: u64,
) -> Result<Vec<bool>, NoMemory>
    ensures { IfOk result (λ v. AreEntries (entered_at items.now closed.now entry) v.items) }
{
    let called = called(alloc, items)?;
    let mut flags = Vec::new(alloc);
    for k in 0..items.count() {
        flags.push(k == entry || called[k as usize] || is_call_target(closed, k))?;
    }
    Ok(flags)
}

/// A program with its closed graph that is entered at a place, with its entries.
#[derive(Drop)]
pub(crate) struct Entries<'a, 'b> {
    items: &'a Items<'b>,
    closed: &'a Closed,
    entry: u64,
    flags: Vec<bool>,
}

impl<'a, 'b> Model for Entries<'a, 'b> {
    ghost use Rattle.cfi_leads.specs.Entered.{Entered, entered_at};
    ghost use Rattle.cfi_leads.specs.Marks.{AreEntries};

    ghost Value = { Entered };

    ghost view = { λ e. entered_at e.items.now e.closed.now e.entry };

    ghost invariant = { λ e. AreEntries (entered_at e.items.now e.closed.now e.entry) e.flags.items };
}

impl<'a, 'b> Entries<'a, 'b> {
    /// Those of a program.
    pub(crate) fn of(
        alloc: Global,
        items: &'a Items<'b>,
        closed: &'a Closed,
        entry: u64,
    ) -> Result<Entries<'a, 'b>, NoMemory>
        ensures { IfOk result (λ e. e ≡ entered_at items.now closed.now entry) }
    {
        let flags = entry_flags(alloc, items, closed, entry)?;
        Ok(Entries {
            items,
            closed,
            entry,
            flags,
        })
    }

    /// The program.
    pub(crate) fn items(&self) -> &'a Items<'b>
        ensures { result.now ≡ self.now.program }
    {
        self.items
    }

    /// Its closed graph.
    pub(crate) fn closed(&self) -> &'a Closed
        ensures { result.now ≡ self.now.closed }
    {
        self.closed
    }

    /// Whether a place is an entry.
    pub(crate) fn is_entry(&self, k: u64) -> bool
        requires { k < count self.now.program }
        ensures { result ≡ is_entry self.now k }
    {
        self.flags[k as usize]
    }

    /// Whether a piece begins at a place, or there is no such place.
    pub(crate) fn begins(&self, k: u64) -> bool
        ensures { result ≡ begins self.now k }
    {
        k >= self.items.count()
            || self.items.item(k).kind == ItemKind::End
            || self.is_entry(k)
            || self.closed.is_target(k)
    }
}
