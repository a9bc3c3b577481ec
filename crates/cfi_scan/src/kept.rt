ghost use Rattle.std.specs.Prelude.{◌≡◌, ◌+◌, ◌-◌, ◌/◌, ◌<◌, ◌≤◌, ◌^◌, ℕ, List, IfOk, [], ◌∷◌, ◌++◌, get_or, length};
ghost use Rattle.rv_image.specs.MemoryMap.{profile_with};
ghost use Rattle.cfi_scan.specs.Carry.{word_of};
ghost use Rattle.cfi_scan.specs.Pieces.{HasPlace, IsCut, Keeps, prologue_count};

use crate::front::Front;
use crate::splitter::Splitter;
use crate::steps::Steps;
use rv_image::Versions;
use rv_word::{NoMemory, Numbers};
use std::alloc::Global;
use std::sync::ledger::Ledger;

/// What is kept of the words so far: those of the prologue, and the units of those after it.
#[derive(Drop)]
pub(crate) struct Kept {
    pub(crate) prologue: [u32; 20],
    pub(crate) units: Splitter,
}

impl Kept {
    /// No word yet, and room for a code of so many, under a list of system calls.
    pub(crate) fn new(
        alloc: Global,
        versions: Versions,
        calls: Numbers,
        words: usize,
    ) -> Result<Kept, NoMemory>
        ensures versions { IfOk result (λ k. k.units.front ≡ versions) }
        ensures calls { IfOk result (λ k. k.units.calls ≡ calls) }
        ensures keeps { IfOk result (λ k. Keeps (profile_with versions) calls k.prologue k.units.entries.items k.units.done k.units.last k.units.reader []) }
        ensures room { IfOk result (λ k. length k.units.entries.items ≡ words - prologue_count (profile_with versions)) }
    {
        let front = Front::new(versions);
        let room = words.saturating_sub(front.words());
        Ok(Kept {
            prologue: [0; 20],
            units: Splitter::new(alloc, versions, calls, room)?,
        })
    }

    /// Reads the words of a piece, before which so many came.
    pub(crate) fn take_words<L: Ledger>(&mut self, piece: &[u8], index: usize, steps: &mut Steps<L>)
        requires small { HasPlace (profile_with self.old.units.front) self.old.units.entries.items }
        requires few { index + length piece.now < 2 ^ 32 }
        ensures keeps { (words more : List ℕ) → length words ≡ index → IsCut piece.now more [] → Keeps (profile_with self.old.units.front) self.old.units.calls self.old.prologue self.old.units.entries.items self.old.units.done self.old.units.last self.old.units.reader words → Keeps (profile_with self.old.units.front) self.old.units.calls self.new.prologue self.new.units.entries.items self.new.units.done self.new.units.last self.new.units.reader (words ++ more) }
        ensures front { self.new.units.front ≡ self.old.units.front }
        ensures calls { self.new.units.calls ≡ self.old.units.calls }
        ensures room { length self.new.units.entries.items ≡ length self.old.units.entries.items }
        ensures cost { steps.new ≡ steps.old + length piece.now / 4 }
    {
        let mut index = index;
        let mut rest = piece;
        while let [_, _, _, _, next @ ..] = rest {
            self.take(word_at(rest), index, steps);
            index += 1;
            rest = next;
        }
    }

    /// Reads the next word, before which so many came: the only place where a word is read.
    #[inline(always)]
    pub(crate) fn take<L: Ledger>(&mut self, word: u32, index: usize, steps: &mut Steps<L>)
        requires small { HasPlace (profile_with self.old.units.front) self.old.units.entries.items }
        ensures keeps { (words : List ℕ) → length words ≡ index → Keeps (profile_with self.old.units.front) self.old.units.calls self.old.prologue self.old.units.entries.items self.old.units.done self.old.units.last self.old.units.reader words → Keeps (profile_with self.old.units.front) self.old.units.calls self.new.prologue self.new.units.entries.items self.new.units.done self.new.units.last self.new.units.reader (words ++ word ∷ []) }
        ensures front { self.new.units.front ≡ self.old.units.front }
        ensures calls { self.new.units.calls ≡ self.old.units.calls }
        ensures room { length self.new.units.entries.items ≡ length self.old.units.entries.items }
        ensures cost { steps.new ≡ steps.old + 1 }
    {
        steps.tick();
        let front = self.units.front.words();
        if index < front {
            self.prologue[index] = word;
        } else if index - front < self.units.entries.len() {
            self.units.take(word, index - front);
        }
    }
}

/// The word with which bytes begin.
fn word_at(bytes: &[u8]) -> u32
    requires { 4 ≤ length bytes.now }
    ensures { result ≡ word_of (get_or bytes.now 0 0) (get_or bytes.now 1 0) (get_or bytes.now 2 0) (get_or bytes.now 3 0) }
{
    u32::from_le_bytes([bytes[0], bytes[1], bytes[2], bytes[3]])
}
