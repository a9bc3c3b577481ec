//! How many bytes the words before the unit of a place have.

ghost use Rattle.std.specs.Prelude.{◌≡◌, ◌<◌, ◌≤◌, true, false, if◌then◌else◌, IfOk};
ghost use Rattle.obj_program.specs.MapFit.{EndsLast};
ghost use Rattle.obj_program.specs.Program.{count, item_of};
ghost use Rattle.obj_program.specs.Sound.{IsSound};
ghost use Rattle.cfi_graph.specs.Graph.{has_leaves};
ghost use Rattle.cfi_leads.specs.Entered.{entered_at};
ghost use Rattle.cfi_leads.specs.Leads.{enters, lead_size, lead_words, words_of_entry, words_of_sides};
ghost use Rattle.cfi_leads.specs.Leaves.{begins, head, in_leaf, is_leaf, leaf_end};
ghost use Rattle.cfi_leads.specs.Marks.{AreLean};

use crate::entries::{Entries, is_call_target};
use crate::pieces::Pieces;
use cfi_closed::Closed;
use obj_program::{Item, Items};
use rv_image::GraphVersion;
use rv_word::NoMemory;
use std::alloc::Global;
use std::marker::Model;

/// A program with its closed graph that is entered at a place, and what stands before the units of its places.
#[derive(Drop)]
pub struct Leads<'a, 'b> {
    items: &'a Items<'b>,
    closed: &'a Closed,
    entry: u64,
    /// Of each place whether what saves a site stands before it, whether it is in a leaf, and where its piece begins: all are empty where
    /// callers save sites.
    entered: Vec<bool>,
    inside: Vec<bool>,
    heads: Vec<u64>,
}

impl<'a, 'b> Model for Leads<'a, 'b> {
    ghost use Rattle.cfi_leads.specs.Entered.{Entered, entered_at};
    ghost use Rattle.cfi_leads.specs.Marks.{AreLean};

    ghost Value = { Entered };

    ghost view = { λ l. entered_at l.items.now l.closed.now l.entry };

    ghost invariant = { λ l. AreLean (entered_at l.items.now l.closed.now l.entry) l.entered.items l.inside.items l.heads.items };
}

/// So many words, or none.
fn words_if(there: bool, words: u32) -> u32
    ensures { result ≡ if there then words else 0 }
{
    if there { words } else { 0 }
}

impl<'a, 'b> Leads<'a, 'b> {
    /// That of a program under graphs in which callers save sites.
    fn plain(alloc: Global, items: &'a Items<'b>, closed: &'a Closed, entry: u64) -> Leads<'a, 'b>
        requires { has_leaves closed.now.version ≡ false }
        ensures { result ≡ entered_at items.now closed.now entry }
    {
        Leads {
            items,
            closed,
            entry,
            entered: Vec::new(alloc),
            inside: Vec::new(alloc),
            heads: Vec::new(alloc),
        }
    }

    /// That of a program under graphs in which callees do.
    fn lean(
        alloc: Global,
        items: &'a Items<'b>,
        closed: &'a Closed,
        entry: u64,
    ) -> Result<Leads<'a, 'b>, NoMemory>
        ensures { IfOk result (λ l. l ≡ entered_at items.now closed.now entry) }
    {
        let pieces = Pieces::of(alloc, Entries::of(alloc, items, closed, entry)?)?;
        let inside = pieces.inside(alloc)?;
        let entered = pieces.entered(alloc, inside.as_slice())?;
        Ok(Leads {
            items,
            closed,
            entry,
            entered,
            inside,
            heads: pieces.into_heads(),
        })
    }

    /// That of a program, by the version of its closed graph.
    pub fn of(
        alloc: Global,
        items: &'a Items<'b>,
        closed: &'a Closed,
        entry: u64,
    ) -> Result<Leads<'a, 'b>, NoMemory>
        ensures { IfOk result (λ l. l ≡ entered_at items.now closed.now entry) }
    {
        match closed.version() {
            GraphVersion::OneLabel | GraphVersion::TwoLabels => {
                Ok(Leads::plain(alloc, items, closed, entry))
            }
            GraphVersion::CalleeSaves => Leads::lean(alloc, items, closed, entry),
        }
    }

    /// How many places the program has.
    pub fn count(&self) -> u64
        ensures value { result ≡ count self.now.program }
        ensures sound { IsSound self.now.program }
    {
        self.items.count()
    }

    /// The place with this index.
    pub fn item(&self, k: u64) -> Item
        requires { k < count self.now.program }
        ensures { result ≡ item_of self.now.program k }
    {
        self.items.item(k)
    }

    /// The program.
    pub fn items(&self) -> &'a Items<'b>
        ensures { result.now ≡ self.now.program }
    {
        self.items
    }

    /// Its closed graph.
    pub fn closed(&self) -> &'a Closed
        ensures { result.now ≡ self.now.closed }
    {
        self.closed
    }

    /// The place where it is entered.
    pub fn entry(&self) -> u64
        ensures { result ≡ self.now.entry }
    {
        self.entry
    }

    /// Whether what saves a site stands before a place.
    pub fn enters(&self, k: u64) -> bool
        requires place { k < count self.now.program }
        requires lean { has_leaves self.now.closed.version ≡ true }
        ensures { result ≡ enters self.now k }
    {
        self.entered[k as usize]
    }

    /// Whether a place is in a leaf.
    pub fn in_leaf(&self, k: u64) -> bool
        requires place { k < count self.now.program }
        requires lean { has_leaves self.now.closed.version ≡ true }
        ensures { result ≡ in_leaf self.now k }
    {
        self.inside[k as usize]
    }

    /// Where the piece of a place begins.
    fn head(&self, k: u64) -> u64
        requires place { k < count self.now.program }
        requires lean { has_leaves self.now.closed.version ≡ true }
        ensures { result ≡ head self.now k }
    {
        self.heads[k as usize]
    }

    /// Whether a piece begins at a place behind the first one.
    fn begins(&self, k: u64) -> bool
        requires place { k < count self.now.program }
        requires behind { 0 < k }
        requires lean { has_leaves self.now.closed.version ≡ true }
        ensures { result ≡ begins self.now k }
    {
        self.head(k) == k
    }

    /// Whether a leaf begins at a place.
    pub fn is_leaf(&self, k: u64) -> bool
        requires place { k < count self.now.program }
        requires lean { has_leaves self.now.closed.version ≡ true }
        ensures { result ≡ is_leaf self.now k }
    {
        self.head(k) == k && self.in_leaf(k)
    }

    /// Where a leaf ends that begins at a place: at the next piece, which begins where the program ends at the latest, and before that
    /// where the program ends in a section's end.
    pub fn leaf_end(&self, e: u64) -> u64
        requires place { e < count self.now.program }
        requires lean { has_leaves self.now.closed.version ≡ true }
        ensures value { result ≡ leaf_end self.now e }
        ensures past { e < result }
        ensures most { result ≤ count self.now.program }
        ensures before { EndsLast self.now.program → is_leaf self.now e ≡ true → result < count self.now.program }
    {
        let count = self.count();
        for k in e + 1..count {
            if self.begins(k) {
                return k;
            }
        }
        count
    }

    /// How many words a place's lead has where callers save sites.
    #[inline(always)]
    fn words_of_sides(&self, k: u64) -> u32
        ensures value { result ≡ words_of_sides self.now k }
        ensures few { result ≤ 2 }
    {
        if self.closed.is_target(k) {
            self.closed.sides().len() as u32
        } else {
            0
        }
    }

    /// How many it has where callees do.
    #[inline(never)]
    fn words_of_entry(&self, k: u64) -> u32
        requires place { k < count self.now.program }
        requires lean { has_leaves self.now.closed.version ≡ true }
        ensures value { result ≡ words_of_entry self.now k }
        ensures few { result ≤ 8 }
    {
        words_if(self.closed.is_target(k), 1)
            + words_if(self.enters(k), 6)
            + words_if(is_call_target(self.closed, k), 1)
    }

    /// How many words it has.
    #[inline(always)]
    fn words(&self, k: u64) -> u32
        requires { k < count self.now.program }
        ensures value { result ≡ lead_words self.now.closed.version self.now k }
        ensures few { result ≤ 8 }
    {
        match self.closed.version() {
            GraphVersion::OneLabel | GraphVersion::TwoLabels => self.words_of_sides(k),
            GraphVersion::CalleeSaves => self.words_of_entry(k),
        }
    }

    /// How many bytes the words before the unit of a place have, if there are any.
    #[inline(always)]
    pub fn size(&self, k: u64) -> u32
        requires { k < count self.now.program }
        ensures value { result ≡ lead_size self.now k }
        ensures small { result ≤ 32 }
    {
        4 * self.words(k)
    }
}
