ghost use Rattle.std.specs.Prelude.{◌≡◌, ◌+◌, ◌/◌, ◌<◌, ◌^◌, ℕ, List, IfErr, IfOk, [], ◌++◌, length};
ghost use Rattle.rv_image.specs.Image.{Contents};
ghost use Rattle.rv_image.specs.MemoryMap.{profile_under, profile_with};
ghost use Rattle.cfi_scan.specs.Pieces.{HasSeen};
ghost use Rattle.cfi_verify.specs.Scan.{Tells, numbers_in};
ghost use Rattle.cfi_rules.specs.Rules.{IsRejected, IsWellFormed};
ghost use Rattle.cfi_rules.specs.Split.{code_words};

use crate::first::first_failure;
use cfi_graph::Graph;
use cfi_rules::Reject;
use cfi_scan::{Feeder, Steps};
use cfi_starts::Starts;
use rv_image::{ImageVersion, Versions};
use rv_word::NoMemory;
use std::alloc::Global;
use std::marker::Model;
use std::sync::ledger::Ledger;

/// Takes a code in pieces, cut anywhere, and asks the eleven rules at its end. Memory is taken at the
/// start alone: four bytes for each word of a code of the graph's length.
#[derive(Drop)]
pub struct Scan<'a> {
    feeder: Feeder,
    graph: &'a Graph,
}

impl<'a> Model for Scan<'a> {
    ghost use Rattle.rv_image.specs.MemoryMap.{profile_with};
    ghost use Rattle.cfi_verify.specs.Scan.{IsScan, Scanned};

    ghost Value = { Scanned };

    ghost view = { λ s. record { seen = s.feeder; graph = s.graph.now } };

    ghost invariant = { λ s. IsScan (profile_with s.feeder.versions) s.feeder s.graph.now };
}

impl<'a> Scan<'a> {
    /// No byte yet, and room for a code of the graph's length, of an image of a version.
    pub fn new(alloc: Global, version: ImageVersion, graph: &'a Graph) -> Result<Scan<'a>, NoMemory>
        ensures versions { IfOk result (λ s. s.seen.versions ≡ record { image = version; graph = graph.now.version }) }
        ensures seen { IfOk result (λ s. HasSeen (profile_under graph.now.version version) s.seen []) }
        ensures graph { IfOk result (λ s. s.graph ≡ graph.now) }
    {
        let words = (graph.code() / 4) as usize;
        let versions = Versions {
            image: version,
            graph: graph.version(),
        };
        let feeder = Feeder::new(alloc, versions, graph.calls(), words)?;
        Ok(Scan { feeder, graph })
    }

    /// How many bytes came.
    pub fn fed(&self) -> u32
        ensures { result ≡ self.now.seen.fed }
    {
        self.feeder.fed()
    }

    /// Takes a piece. Each word is read once, when its last byte has come.
    pub fn feed<L: Ledger>(&mut self, piece: &[u8], steps: &mut Steps<L>)
        requires small { self.old.seen.fed + length piece.now < 2 ^ 32 }
        ensures seen { (bytes : List ℕ) → HasSeen (profile_with self.old.seen.versions) self.old.seen bytes → HasSeen (profile_with self.old.seen.versions) self.new.seen (bytes ++ piece.now) }
        ensures versions { self.new.seen.versions ≡ self.old.seen.versions }
        ensures graph { self.new.graph ≡ self.old.graph }
        ensures fed { self.new.seen.fed ≡ self.old.seen.fed + length piece.now }
        ensures cost { steps.new + self.old.seen.fed / 4 ≡ steps.old + self.new.seen.fed / 4 }
    {
        self.feeder.feed(piece, steps);
    }

    /// Asks the eleven rules, in their order, of the code that has come and the graph.
    pub fn finish(self) -> Result<Starts<'a>, Reject>
        ensures versions { IfOk result (λ s. s.listing.versions ≡ self.entry.seen.versions) }
        ensures accepted { (image : Contents) → HasSeen (profile_with self.entry.seen.versions) self.entry.seen image.code → IfOk result (λ s. (s.graph ≡ self.entry.graph) × Tells (profile_with self.entry.seen.versions) (numbers_in self.entry.graph) s.listing (code_words image.code) × IsWellFormed (profile_with self.entry.seen.versions) image self.entry.graph) }
        ensures rejected { (image : Contents) → HasSeen (profile_with self.entry.seen.versions) self.entry.seen image.code → IfErr result (IsRejected (profile_with self.entry.seen.versions) image self.entry.graph) }
    {
        let Scan { feeder, graph } = self;
        let listing = feeder.finish();
        let fed = listing.fed();
        if fed != graph.code() {
            return Err(Reject::Length(fed, graph.code()));
        }
        let starts = Starts::of(listing, graph);
        match first_failure(&starts) {
            Some((rule, address)) => Err(Reject::At(rule, address)),
            None => Ok(starts),
        }
    }
}
