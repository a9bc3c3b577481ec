ghost use Rattle.std.specs.Prelude.{◌≡◌, ◌+◌, ◌-◌, ◌*◌, ◌/◌, ◌%◌, ◌<◌, ◌≤◌, ◌^◌, ℕ, List, IfOk, [], ◌∷◌, ◌++◌, length};
ghost use Rattle.rv_image.specs.MemoryMap.{CODE_SIZE, profile_with};
ghost use Rattle.cfi_reader.specs.Entries.{numbers_or_none};
ghost use Rattle.cfi_scan.specs.Pieces.{HasSeen, IsOf, prologue_count};

use crate::carry::Carry;
use crate::kept::Kept;
use crate::listing::Listing;
use crate::splitter::Splitter;
use crate::steps::Steps;
use rv_image::Versions;
use rv_word::{NoMemory, Numbers};
use std::alloc::Global;
use std::marker::Model;
use std::sync::ledger::Ledger;

/// Takes a code in pieces, cut anywhere. It keeps the words of its versions' prologue and one entry for
/// each word after it that there is room for; bytes past the room are only counted.
#[derive(Drop)]
pub struct Feeder {
    kept: Kept,
    carry: Carry,
}

impl Model for Feeder {
    ghost use Rattle.std.specs.Prelude.{◌/◌, min, take};
    ghost use Rattle.rv_image.specs.MemoryMap.{profile_with};
    ghost use Rattle.cfi_scan.specs.Pieces.{HasPlace, Sight, prologue_count};

    ghost Value = { Sight };

    ghost view = { λ f. record {
      versions = f.kept.units.front;
      calls = f.kept.units.calls;
      prologue = take (min (f.carry.fed / 4) (prologue_count (profile_with f.kept.units.front))) f.kept.prologue;
      entries = f.kept.units.entries.items;
      done = f.kept.units.done;
      last = f.kept.units.last;
      reader = f.kept.units.reader;
      left = f.carry.left;
      fed = f.carry.fed;
    } };

    ghost invariant = { λ f. HasPlace (profile_with f.kept.units.front) f.kept.units.entries.items };
}

impl Feeder {
    /// No byte yet, and room for a code of so many words, of these versions, under a list of system calls if there is one.
    pub fn new(
        alloc: Global,
        versions: Versions,
        calls: Option<Numbers>,
        words: usize,
    ) -> Result<Feeder, NoMemory>
        requires { 4 * words ≤ CODE_SIZE }
        ensures versions { IfOk result (λ f. f.versions ≡ versions) }
        ensures calls { IfOk result (λ f. f.calls ≡ numbers_or_none calls) }
        ensures seen { IfOk result (λ f. HasSeen (profile_with versions) f []) }
        ensures room { IfOk result (λ f. length f.entries ≡ words - prologue_count (profile_with versions)) }
    {
        Ok(Feeder {
            kept: Kept::new(alloc, versions, listed(calls), words)?,
            carry: Carry::new(),
        })
    }

    /// How many bytes came.
    pub fn fed(&self) -> u32
        ensures { result ≡ self.now.fed }
    {
        self.carry.fed()
    }

    /// Takes a piece. Each word is read once, when its last byte has come.
    pub fn feed<L: Ledger>(&mut self, piece: &[u8], steps: &mut Steps<L>)
        requires small { self.old.fed + length piece.now < 2 ^ 32 }
        ensures seen { (bytes : List ℕ) → HasSeen (profile_with self.old.versions) self.old bytes → HasSeen (profile_with self.old.versions) self.new (bytes ++ piece.now) }
        ensures versions { self.new.versions ≡ self.old.versions }
        ensures calls { self.new.calls ≡ self.old.calls }
        ensures fed { self.new.fed ≡ self.old.fed + length piece.now }
        ensures room { length self.new.entries ≡ length self.old.entries }
        ensures cost { steps.new + self.old.fed / 4 ≡ steps.old + self.new.fed / 4 }
    {
        let missing = ((4 - self.fed() % 4) % 4) as usize;
        if piece.len() <= missing {
            self.bytes(piece, steps);
        } else {
            let (first, rest) = piece.split_at(missing);
            self.bytes(first, steps);
            self.words(rest, steps);
        }
    }

    /// Takes bytes one by one.
    #[inline(never)]
    fn bytes<L: Ledger>(&mut self, piece: &[u8], steps: &mut Steps<L>)
        requires small { self.old.fed + length piece.now < 2 ^ 32 }
        ensures seen { (bytes : List ℕ) → HasSeen (profile_with self.old.versions) self.old bytes → HasSeen (profile_with self.old.versions) self.new (bytes ++ piece.now) }
        ensures versions { self.new.versions ≡ self.old.versions }
        ensures calls { self.new.calls ≡ self.old.calls }
        ensures fed { self.new.fed ≡ self.old.fed + length piece.now }
        ensures room { length self.new.entries ≡ length self.old.entries }
        ensures cost { steps.new + self.old.fed / 4 ≡ steps.old + self.new.fed / 4 }
    {
        for byte in piece {
            self.byte(*byte, steps);
        }
    }

    /// Takes words whole, and then the bytes that are left.
    fn words<L: Ledger>(&mut self, piece: &[u8], steps: &mut Steps<L>)
        requires small { self.old.fed + length piece.now < 2 ^ 32 }
        requires whole { self.old.fed % 4 ≡ 0 }
        ensures seen { (bytes : List ℕ) → HasSeen (profile_with self.old.versions) self.old bytes → HasSeen (profile_with self.old.versions) self.new (bytes ++ piece.now) }
        ensures versions { self.new.versions ≡ self.old.versions }
        ensures calls { self.new.calls ≡ self.old.calls }
        ensures fed { self.new.fed ≡ self.old.fed + length piece.now }
        ensures room { length self.new.entries ≡ length self.old.entries }
        ensures cost { steps.new + self.old.fed / 4 ≡ steps.old + self.new.fed / 4 }
    {
        let (whole, rest) = piece.split_at(piece.len() - piece.len() % 4);
        self.whole(whole, steps);
        self.bytes(rest, steps);
    }

    /// Takes words whole, with no bytes after them.
    fn whole<L: Ledger>(&mut self, piece: &[u8], steps: &mut Steps<L>)
        requires small { self.old.fed + length piece.now < 2 ^ 32 }
        requires whole { self.old.fed % 4 ≡ 0 }
        requires cut { length piece.now % 4 ≡ 0 }
        ensures seen { (bytes : List ℕ) → HasSeen (profile_with self.old.versions) self.old bytes → HasSeen (profile_with self.old.versions) self.new (bytes ++ piece.now) }
        ensures versions { self.new.versions ≡ self.old.versions }
        ensures calls { self.new.calls ≡ self.old.calls }
        ensures fed { self.new.fed ≡ self.old.fed + length piece.now }
        ensures room { length self.new.entries ≡ length self.old.entries }
        ensures cost { steps.new + self.old.fed / 4 ≡ steps.old + self.new.fed / 4 }
    {
        let index = (self.carry.fed() / 4) as usize;
        self.carry.pass_words(piece.len() as u32);
        self.kept.take_words(piece, index, steps);
    }

    /// Takes one byte.
    fn byte<L: Ledger>(&mut self, byte: u8, steps: &mut Steps<L>)
        requires small { self.old.fed + 1 < 2 ^ 32 }
        ensures seen { (bytes : List ℕ) → HasSeen (profile_with self.old.versions) self.old bytes → HasSeen (profile_with self.old.versions) self.new (bytes ++ byte ∷ []) }
        ensures versions { self.new.versions ≡ self.old.versions }
        ensures calls { self.new.calls ≡ self.old.calls }
        ensures fed { self.new.fed ≡ self.old.fed + 1 }
        ensures room { length self.new.entries ≡ length self.old.entries }
        ensures cost { steps.new + self.old.fed / 4 ≡ steps.old + self.new.fed / 4 }
    {
        let index = (self.carry.fed() / 4) as usize;
        if let Some(word) = self.carry.push(byte) {
            self.kept.take(word, index, steps);
        }
    }

    /// Ends the code.
    pub fn finish(self) -> Listing
        ensures versions { result.versions ≡ self.versions }
        ensures of { (bytes : List ℕ) → HasSeen (profile_with self.versions) self bytes → IsOf (profile_with self.versions) self.calls result bytes }
        ensures room { length result.entries ≡ length self.entries }
    {
        let Feeder { kept, carry } = self;
        let fed = carry.fed();
        let Kept {
            prologue,
            mut units,
        } = kept;
        let words = units.front.words();
        units.close(((fed / 4) as usize).saturating_sub(words));
        let Splitter {
            front,
            calls: _,
            entries,
            done,
            last,
            reader: _,
        } = units;
        Listing {
            front,
            prologue,
            entries,
            done,
            last,
            fed,
        }
    }
}

/// The numbers of a list, and none where there is no list.
fn listed(calls: Option<Numbers>) -> Numbers
    ensures { result ≡ numbers_or_none calls }
{
    match calls {
        Some(calls) => calls,
        None => Numbers::new(),
    }
}
