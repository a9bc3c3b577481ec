ghost use Rattle.std.specs.Prelude.{◌≡◌, ◌+◌, ◌*◌, ◌<◌, ◌≤◌, ℕ, Some, false, length, slice_get, true};
ghost use Rattle.rv_image.specs.MemoryMap.{CODE_START, profile_with};
ghost use Rattle.cfi_reader.specs.Entries.{is_quiet, is_started};
ghost use Rattle.cfi_reader.specs.declared.entry.Entry.{Entry};
ghost use Rattle.cfi_scan.specs.Calm.{is_calm};
ghost use Rattle.cfi_scan.specs.Pieces.{prologue_count};

use crate::front::Front;
use crate::packed::Packed;
use cfi_reader::Entry;
use rv_image::Versions;
use std::marker::Model;

/// What is left of a code that has ended: the words of its prologue, and one entry for each word after
/// it.
#[derive(Drop)]
pub struct Listing {
    pub(crate) front: Front,
    pub(crate) prologue: [u32; 20],
    pub(crate) entries: Vec<Packed>,
    pub(crate) done: usize,
    pub(crate) last: usize,
    pub(crate) fed: u32,
}

impl Model for Listing {
    ghost use Rattle.std.specs.Prelude.{◌/◌, min, take};
    ghost use Rattle.rv_image.specs.MemoryMap.{profile_with};
    ghost use Rattle.cfi_scan.specs.Pieces.{HasPlace, Listed, prologue_count};

    ghost Value = { Listed };

    ghost view = { λ t. record {
      versions = t.front;
      prologue = take (min (t.fed / 4) (prologue_count (profile_with t.front))) t.prologue;
      entries = t.entries.items;
      done = t.done;
      last = t.last;
      fed = t.fed;
    } };

    ghost invariant = { λ t. HasPlace (profile_with t.front) t.entries.items };
}

impl Listing {
    /// The entry of a word, counted from the first after the prologue.
    pub fn entry(&self, index: usize) -> Option<Entry>
        ensures { result ≡ slice_get self.now.entries index }
    {
        self.entries.get(index).map(|packed| packed.entry())
    }

    /// The first word from `from` on, and before `to`, with the entry of a transfer, a gate or a system call; `to`
    /// where there is none, and `from` where these are not words of the code.
    pub fn next_busy(&self, from: usize, to: usize) -> usize
        requires { from < to }
        ensures low { from ≤ result }
        ensures high { result ≤ to }
        ensures quiet { (k : ℕ) (entry : Entry) → from ≤ k → k < result → slice_get self.now.entries k ≡ Some entry → is_quiet entry ≡ true }
        ensures busy { result < to → to ≤ length self.now.entries → (entry : Entry) → slice_get self.now.entries result ≡ Some entry → is_quiet entry ≡ false }
        ensures beyond { length self.now.entries < to → result ≡ from }
    {
        let entries = self.entries.as_slice();
        if to > entries.len() {
            return from;
        }
        let mut index = from;
        while index < to && entries[index].is_quiet() {
            index += 1;
        }
        index
    }

    /// The first word from `from` on, and before `to`, of whose unit the kinds of starts ask something; `to` where
    /// there is none, and `from` where these are not words of the code.
    #[inline(never)]
    pub fn next_lively(&self, from: usize, to: usize) -> usize
        requires { from ≤ to }
        ensures low { from ≤ result }
        ensures high { result ≤ to }
        ensures calm { (k : ℕ) (entry : Entry) → from ≤ k → k < result → slice_get self.now.entries k ≡ Some entry → is_calm entry ≡ true }
        ensures lively { result < to → to ≤ length self.now.entries → (entry : Entry) → slice_get self.now.entries result ≡ Some entry → is_calm entry ≡ false }
        ensures beyond { length self.now.entries < to → result ≡ from }
    {
        let entries = self.entries.as_slice();
        if to > entries.len() {
            return from;
        }
        let mut index = from;
        while index < to && entries[index].is_calm() {
            index += 1;
        }
        index
    }

    /// Whether a unit starts at a word, counted from the first after the prologue: the entry is not taken apart.
    pub fn starts(&self, index: usize) -> bool
        ensures { result ≡ is_started (slice_get self.now.entries index) }
    {
        match self.entries.get(index) {
            Some(entry) => entry.is_unit(),
            None => false,
        }
    }

    /// The words of the prologue that there are.
    pub fn prologue(&self) -> &[u32]
        ensures { result.now ≡ self.now.prologue }
    {
        let count = ((self.fed / 4) as usize).min(self.front.words());
        &self.prologue[..count]
    }

    /// The versions.
    pub fn versions(&self) -> Versions
        ensures { result ≡ self.now.versions }
    {
        self.front.versions()
    }

    /// How many words the prologue of these versions has.
    pub fn front_words(&self) -> usize
        ensures count { result ≡ prologue_count (profile_with self.now.versions) }
        ensures most { result ≤ 20 }
        ensures place { CODE_START + 4 * result ≡ (profile_with self.now.versions).units_from }
    {
        self.front.words()
    }

    /// Where the first unit stands in these versions.
    pub fn units_start(&self) -> u64
        ensures { result ≡ (profile_with self.now.versions).units_from }
    {
        self.front.start()
    }

    /// How many words after the prologue belong to units.
    pub fn done(&self) -> usize
        ensures { result ≡ self.now.done }
    {
        self.done
    }

    /// Where the last unit starts, in words after the prologue.
    pub fn last(&self) -> usize
        ensures { result ≡ self.now.last }
    {
        self.last
    }

    /// How many bytes the code has.
    pub fn fed(&self) -> u32
        ensures { result ≡ self.now.fed }
    {
        self.fed
    }
}
