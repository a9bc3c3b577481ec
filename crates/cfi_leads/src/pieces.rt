//! The pieces of a program's code, and which of them are leaves.

ghost use Rattle.std.specs.Prelude.{◌≡◌, ℕ, ◌<◌, ◌≤◌, ◌||◌, false, IfOk, IfSome, Some, is_some, length, slice_index_or};
ghost use Rattle.obj_program.specs.Program.{count, item_of};
ghost use Rattle.obj_program.specs.Sound.{IsSound};
ghost use Rattle.cfi_leads.specs.Entries.{if_kind, is_entry};
ghost use Rattle.cfi_leads.specs.Leads.{enters};
ghost use Rattle.cfi_leads.specs.Leaves.{edge_target, head, in_leaf, is_leaf, is_spoilt_by, spoils, spoils_inside};
ghost use Rattle.cfi_leads.specs.Marks.{AreFlags, AreHeads, crossed, followed};

use crate::entries::{Entries, mark};
use crate::kinds::{edge_target, ends_before, ends_leaf, stands_in_leaf};
use obj_program::Item;
use rv_word::NoMemory;
use std::alloc::Global;
use std::marker::Model;

/// Of each place where its piece begins.
fn heads(alloc: Global, entries: &Entries) -> Result<Vec<u64>, NoMemory>
    ensures { IfOk result (λ v. AreHeads entries.now v.items) }
{
    let mut heads = Vec::new(alloc);
    let mut head = 0;
    for k in 0..entries.items().count() {
        if entries.begins(k) {
            head = k;
        }
        heads.push(head)?;
    }
    Ok(heads)
}

/// A program with its entries and where its pieces begin.
#[derive(Drop)]
pub(crate) struct Pieces<'a, 'b> {
    entries: Entries<'a, 'b>,
    heads: Vec<u64>,
}

impl<'a, 'b> Model for Pieces<'a, 'b> {
    ghost use Rattle.cfi_leads.specs.Entered.{Entered};
    ghost use Rattle.cfi_leads.specs.Marks.{AreHeads};

    ghost Value = { Entered };

    ghost view = { λ p. p.entries };

    ghost invariant = { λ p. AreHeads p.entries p.heads.items };
}

/// A place, if it is asked for.
fn place_if(asked: bool, place: u64) -> Option<u64>
    ensures { result ≡ if_kind asked (Some place) }
{
    if asked { Some(place) } else { None }
}

impl<'a, 'b> Pieces<'a, 'b> {
    /// Those of a program.
    pub(crate) fn of(alloc: Global, entries: Entries<'a, 'b>) -> Result<Pieces<'a, 'b>, NoMemory>
        ensures { IfOk result (λ p. p ≡ entries.entry) }
    {
        let heads = heads(alloc, &entries)?;
        Ok(Pieces { entries, heads })
    }

    /// How many places the program has.
    fn count(&self) -> u64
        ensures value { result ≡ count self.now.program }
        ensures sound { IsSound self.now.program }
    {
        self.entries.items().count()
    }

    /// The place with this index.
    fn item(&self, k: u64) -> Item
        requires { k < count self.now.program }
        ensures { result ≡ item_of self.now.program k }
    {
        self.entries.items().item(k)
    }

    /// Whether a place is an entry.
    fn is_entry(&self, k: u64) -> bool
        requires { k < count self.now.program }
        ensures { result ≡ is_entry self.now k }
    {
        self.entries.is_entry(k)
    }

    /// Where the piece of a place begins, as the table has it.
    fn head_in_table(&self, k: u64) -> u64
        requires { k < count self.now.program }
        ensures { result ≡ head self.now k }
    {
        self.heads[k as usize]
    }

    /// Where the piece of a place begins.
    fn head(&self, k: u64) -> u64
        requires { k < count self.now.program }
        ensures value { result ≡ head self.now k }
        ensures inside { result < count self.now.program }
    {
        self.head_in_table(k)
    }

    /// Whether an instruction may not stand in a leaf, or is a piece's last one and may go on.
    fn spoils_inside(&self, k: u64) -> bool
        requires { k < count self.now.program }
        ensures { result ≡ spoils_inside self.now k }
    {
        let item = self.item(k);
        !stands_in_leaf(&item) || self.entries.begins(k + 1) && !ends_leaf(item.kind)
    }

    /// The place where the piece begins to which a branch or a jump goes from another piece.
    fn crossed(&self, k: u64) -> Option<u64>
        requires { k < count self.now.program }
        ensures value { result ≡ crossed self.now k (edge_target (item_of self.now.program k)) }
        ensures inside { IfSome result (λ e. e < count self.now.program) }
    {
        let _sound = self.count();
        match edge_target(&self.item(k)) {
            Some(target) => {
                let other = self.head(target);
                place_if(other != self.head(k), other)
            }
            None => None,
        }
    }

    /// The piece of a place, if it spoils that: also where a branch or a jump leads from it into another one.
    fn spoilt_here(&self, k: u64, other: Option<u64>) -> Option<u64>
        requires { k < count self.now.program }
        ensures value { result ≡ if_kind (spoils_inside self.now k || is_some other) (Some (head self.now k)) }
        ensures inside { IfSome result (λ e. e < count self.now.program) }
    {
        place_if(self.spoils_inside(k) || other.is_some(), self.head(k))
    }

    /// The place behind one that may go on to it.
    fn followed(&self, k: u64) -> Option<u64>
        requires { k < count self.now.program }
        ensures value { result ≡ followed self.now k }
        ensures inside { IfSome result (λ e. e < count self.now.program) }
    {
        let count = self.count();
        let follows = k + 1 < count && !ends_before(self.item(k).kind);
        place_if(follows, k + 1)
    }

    /// Marks the pieces that a place spoils.
    fn spoil(&self, spoilt: &mut Vec<bool>, k: u64)
        requires place { k < count self.now.program }
        requires counted { length spoilt.old.items ≡ count self.now.program }
        ensures counted { length spoilt.new.items ≡ count self.now.program }
        ensures each { (e : ℕ) → e < count self.now.program → slice_index_or spoilt.new.items e false ≡ (slice_index_or spoilt.old.items e false || spoils self.now e k) }
    {
        let other = self.crossed(k);
        mark(spoilt, self.spoilt_here(k, other));
        mark(spoilt, other);
        mark(spoilt, self.followed(k));
    }

    /// Of each place whether the piece that begins there is spoilt.
    fn spoilt(&self, alloc: Global) -> Result<Vec<bool>, NoMemory>
        ensures { IfOk result (λ v. AreFlags (λ e. is_spoilt_by self.now e (count self.now.program)) (count self.now.program) v.items) }
    {
        let count = self.count();
        let mut spoilt = vec![in alloc; false; count as usize]?;
        for k in 0..count {
            self.spoil(&mut spoilt, k);
        }
        Ok(spoilt)
    }

    /// Whether a leaf begins at a place.
    fn is_leaf(&self, spoilt: &[bool], e: u64) -> bool
        requires place { e < count self.now.program }
        requires spoilt { AreFlags (λ e. is_spoilt_by self.now e (count self.now.program)) (count self.now.program) spoilt.now }
        ensures { result ≡ is_leaf self.now e }
    {
        self.is_entry(e) && !self.entries.closed().is_target(e) && !spoilt[e as usize]
    }

    /// Of each place whether it is in a leaf.
    fn inside_by(&self, alloc: Global, spoilt: &[bool]) -> Result<Vec<bool>, NoMemory>
        requires { AreFlags (λ e. is_spoilt_by self.now e (count self.now.program)) (count self.now.program) spoilt.now }
        ensures { IfOk result (λ v. AreFlags (in_leaf self.now) (count self.now.program) v.items) }
    {
        let mut inside = Vec::new(alloc);
        for k in 0..self.count() {
            inside.push(self.is_leaf(spoilt, self.head(k)))?;
        }
        Ok(inside)
    }

    /// The same.
    pub(crate) fn inside(&self, alloc: Global) -> Result<Vec<bool>, NoMemory>
        ensures { IfOk result (λ v. AreFlags (in_leaf self.now) (count self.now.program) v.items) }
    {
        let spoilt = self.spoilt(alloc)?;
        self.inside_by(alloc, spoilt.as_slice())
    }

    /// Whether what saves a site stands before a place.
    fn enters(&self, inside: &[bool], k: u64) -> bool
        requires place { k < count self.now.program }
        requires inside { AreFlags (in_leaf self.now) (count self.now.program) inside.now }
        ensures { result ≡ enters self.now k }
    {
        if self.is_entry(k) {
            !inside[k as usize]
        } else {
            false
        }
    }

    /// Of each place whether what saves a site stands before it.
    pub(crate) fn entered(&self, alloc: Global, inside: &[bool]) -> Result<Vec<bool>, NoMemory>
        requires { AreFlags (in_leaf self.now) (count self.now.program) inside.now }
        ensures { IfOk result (λ v. AreFlags (enters self.now) (count self.now.program) v.items) }
    {
        let mut entered = Vec::new(alloc);
        for k in 0..self.count() {
            entered.push(self.enters(inside, k))?;
        }
        Ok(entered)
    }

    /// Of each place where its piece begins.
    pub(crate) fn into_heads(self) -> Vec<u64>
        ensures { AreHeads self.entry result.items }
    {
        self.heads
    }
}
