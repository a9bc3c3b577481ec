ghost use Rattle.std.specs.Prelude.{◌≡◌, ◌<◌, ◌≤◌, true, false, ℕ, List, IfOk, [], ◌∷◌, ◌++◌, length, slice_set};
ghost use Rattle.rv_image.specs.MemoryMap.{profile_with};
ghost use Rattle.cfi_reader.specs.Entries.{inside};
ghost use Rattle.cfi_scan.specs.Pieces.{HasPlace};
ghost use Rattle.cfi_reader.specs.Reading.{START, is_new};
ghost use Rattle.cfi_scan.specs.Stream.{IsSplitUp, Splits};

use crate::front::Front;
use crate::packed::Packed;
use cfi_reader::{Entry, First, Reader, Step, first_word, is_plain_word, next};
use rv_image::Versions;
use rv_word::{NoMemory, Numbers};
use std::alloc::Global;

/// The units of the words so far, under a list of system calls, which has no number where there is none: one entry for each word that there is room for, how many words belong
/// to units that have ended, where the last of these starts, and how far the next one is read.
#[derive(Drop)]
pub(crate) struct Splitter {
    pub(crate) front: Front,
    pub(crate) calls: Numbers,
    pub(crate) entries: Vec<Packed>,
    pub(crate) done: usize,
    pub(crate) last: usize,
    pub(crate) reader: Reader,
}

impl Splitter {
    /// No word yet, and room for some, under a list of system calls.
    pub(crate) fn new(
        alloc: Global,
        versions: Versions,
        calls: Numbers,
        room: usize,
    ) -> Result<Splitter, NoMemory>
        ensures versions { IfOk result (λ s. s.front ≡ versions) }
        ensures calls { IfOk result (λ s. s.calls ≡ calls) }
        ensures empty { IfOk result (λ s. (s.entries.items ≡ inside room) × (s.done ≡ 0) × (s.last ≡ 0) × (s.reader ≡ START)) }
        ensures room { IfOk result (λ s. length s.entries.items ≡ room) }
    {
        Ok(Splitter {
            front: Front::new(versions),
            calls,
            entries: nothing(alloc, room)?,
            done: 0,
            last: 0,
            reader: Reader::new(),
        })
    }

    /// Takes the next word, before which so many came.
    #[inline(always)]
    pub(crate) fn take(&mut self, word: u32, index: usize)
        requires room { index < length self.old.entries.items }
        requires small { HasPlace (profile_with self.old.front) self.old.entries.items }
        ensures splits { (words : List ℕ) → length words ≡ index → Splits self.old.calls (profile_with self.old.front).units_from [] self.old.entries.items self.old.done self.old.last self.old.reader words → Splits self.old.calls (profile_with self.old.front).units_from [] self.new.entries.items self.new.done self.new.last self.new.reader (words ++ word ∷ []) }
        ensures front { self.new.front ≡ self.old.front }
        ensures calls { self.new.calls ≡ self.old.calls }
        ensures room { length self.new.entries.items ≡ length self.old.entries.items }
    {
        let _few = self.calls.len();
        let here = self.front.start() + 4 * index as u64;
        if self.reader.is_new() {
            self.begin(word, index);
        } else if self.reader.pass(word, here) {
            return;
        } else if !self.reader.is_stuck() {
            self.go_on(word, index);
        }
    }

    /// Takes the next word as the first of a unit.
    #[inline(always)]
    fn begin(&mut self, word: u32, index: usize)
        requires room { index < length self.old.entries.items }
        requires small { HasPlace (profile_with self.old.front) self.old.entries.items }
        requires new { is_new self.old.reader ≡ true }
        ensures splits { (words : List ℕ) → length words ≡ index → Splits self.old.calls (profile_with self.old.front).units_from (word ∷ []) self.old.entries.items self.old.done self.old.last self.old.reader words → Splits self.old.calls (profile_with self.old.front).units_from [] self.new.entries.items self.new.done self.new.last self.new.reader (words ++ word ∷ []) }
        ensures front { self.new.front ≡ self.old.front }
        ensures calls { self.new.calls ≡ self.old.calls }
        ensures room { length self.new.entries.items ≡ length self.old.entries.items }
    {
        if is_plain_word(word) {
            self.end(Entry::Other, index + 1);
        } else {
            self.open(word, index);
        }
    }

    /// Takes it by its instruction.
    #[inline(never)]
    fn open(&mut self, word: u32, index: usize)
        requires room { index < length self.old.entries.items }
        requires small { HasPlace (profile_with self.old.front) self.old.entries.items }
        requires new { is_new self.old.reader ≡ true }
        ensures splits { (words : List ℕ) → length words ≡ index → Splits self.old.calls (profile_with self.old.front).units_from (word ∷ []) self.old.entries.items self.old.done self.old.last self.old.reader words → Splits self.old.calls (profile_with self.old.front).units_from [] self.new.entries.items self.new.done self.new.last self.new.reader (words ++ word ∷ []) }
        ensures front { self.new.front ≡ self.old.front }
        ensures calls { self.new.calls ≡ self.old.calls }
        ensures room { length self.new.entries.items ≡ length self.old.entries.items }
    {
        let here = self.front.start() + 4 * index as u64;
        match first_word(&self.calls, word, here) {
            First::More(reader) => self.reader = reader,
            First::Done(entry) => self.end(entry, index + 1),
        }
    }

    /// Takes the next word by what is read of its unit, which may have ended before it.
    #[inline(never)]
    fn go_on(&mut self, word: u32, index: usize)
        requires room { index < length self.old.entries.items }
        requires small { HasPlace (profile_with self.old.front) self.old.entries.items }
        requires begun { is_new self.old.reader ≡ false }
        ensures splits { (words : List ℕ) → length words ≡ index → Splits self.old.calls (profile_with self.old.front).units_from [] self.old.entries.items self.old.done self.old.last self.old.reader words → Splits self.old.calls (profile_with self.old.front).units_from [] self.new.entries.items self.new.done self.new.last self.new.reader (words ++ word ∷ []) }
        ensures front { self.new.front ≡ self.old.front }
        ensures calls { self.new.calls ≡ self.old.calls }
        ensures room { length self.new.entries.items ≡ length self.old.entries.items }
    {
        let here = self.front.start() + 4 * index as u64;
        match next(&self.calls, self.reader, word, here) {
            Step::More(reader) => self.reader = reader,
            Step::Done(entry) => self.end(entry, index + 1),
            Step::Before(entry) => {
                self.end(entry, index);
                self.begin(word, index);
            }
        }
    }

    /// Ends the code, which has so many words: a branch over the word that would come next is a unit of
    /// its own, and so are stores.
    pub(crate) fn close(&mut self, count: usize)
        requires small { HasPlace (profile_with self.old.front) self.old.entries.items }
        ensures splits { (words : List ℕ) → length words ≡ count → count ≤ length self.old.entries.items → Splits self.old.calls (profile_with self.old.front).units_from [] self.old.entries.items self.old.done self.old.last self.old.reader words → IsSplitUp self.old.calls (profile_with self.old.front).units_from self.new.entries.items self.new.done self.new.last words }
        ensures front { self.new.front ≡ self.old.front }
        ensures calls { self.new.calls ≡ self.old.calls }
        ensures room { length self.new.entries.items ≡ length self.old.entries.items }
    {
        match self.reader.close() {
            Some(entry) => self.end(entry, count),
            None => {}
        }
    }

    /// Ends the unit that is read, which ends after so many words.
    fn end(&mut self, entry: Entry, count: usize)
        ensures entries { self.new.entries.items ≡ slice_set self.old.entries.items self.old.done entry }
        ensures done { self.new.done ≡ count }
        ensures last { self.new.last ≡ self.old.done }
        ensures reader { self.new.reader ≡ START }
        ensures front { self.new.front ≡ self.old.front }
        ensures calls { self.new.calls ≡ self.old.calls }
        ensures room { length self.new.entries.items ≡ length self.old.entries.items }
    {
        if self.done < self.entries.len() {
            self.entries[self.done] = Packed::of(entry);
        }
        self.last = self.done;
        self.done = count;
        self.reader = Reader::new();
    }
}

/// The entries of words at which no unit starts.
fn nothing(alloc: Global, count: usize) -> Result<Vec<Packed>, NoMemory>
    ensures { IfOk result (λ v. v.items ≡ inside count) }
{
    Ok(vec![in alloc; Packed::of(Entry::Inside); count]?)
}
