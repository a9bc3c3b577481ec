ghost use Rattle.std.specs.Prelude.{◌≡◌, ◌+◌, ◌<◌, ◌^◌, ◌++◌, ℕ, List, length, IfErr, IfOk, IfSome, IsTrue, OnOk, Some, is_some, nat_lt};
ghost use Rattle.std.specs.Option.{option_copied};
ghost use Rattle.rv_image.specs.MemoryMap.{profile_with};
ghost use Rattle.cfi_graph.specs.Graph.{calls_in, is_rising};
ghost use Rattle.cfi_confined.specs.Confined.{IsConfined};
ghost use Rattle.cfi_rules.specs.Along.{IsSafe};
ghost use Rattle.cfi_verify.specs.Answer.{IsCause};
ghost use Rattle.cfi_rules.specs.Laws.{AreBytes};
ghost use Rattle.cfi_rules.specs.Lines.{targets_for};
ghost use Rattle.cfi_rules.specs.Listed.{IsListed};
ghost use Rattle.cfi_rules.specs.Rules.{IsWellFormed, pair_profile};
ghost use Rattle.cfi_scan.specs.Pieces.{HasSeen};
ghost use Rattle.cfi_verify.specs.Scan.{starts_prologue};
ghost use Rattle.cfi_rules.specs.Split.{code_words, entry_of, is_handler, place_at, unit_at};

use crate::code::{are_small, unit_of};
use crate::scan::Scan;
use cfi_confined::laws::well_formed_is_confined;
use cfi_graph::Graph;
use cfi_rules::laws::{well_formed_is_listed, well_formed_is_safe};
use cfi_rules::{Asks, Reject};
use cfi_scan::Steps;
use cfi_starts::Starts;
use cfi_unit::handlers::{BAD_RETURN, BAD_TARGET, DEEP};
use cfi_unit::{Place, Unit};
use rv_image::Image;
use rv_image::profile::START;
use rv_word::{End, NoMemory};
use std::alloc::Global;
use std::marker::{Brand, Model};
use std::sync::ledger::{Blank, Ledger};

/// How many bytes of a code are fed at a time.
const PAGE: usize = 4_096;

/// An image and a graph that meet the eleven rules.
#[derive(Drop)]
pub struct Checked<'a> {
    image: &'a Image<'a>,
    starts: Starts<'a>,
}

impl<'a> Model for Checked<'a> {
    ghost use Rattle.cfi_verify.specs.Scan.{IsChecked, Pair};

    ghost Value = { Pair };

    ghost view = { λ c. record { image = c.image.now; graph = c.starts.graph } };

    ghost invariant = { λ c. IsChecked c.image.now c.starts };
}

impl<'a> Checked<'a> {
    /// The image.
    pub fn image(&self) -> &'a Image<'a>
        ensures value { result.now ≡ self.now.image }
        ensures well_formed { IsWellFormed (pair_profile self.now.image self.now.graph) self.now.image self.now.graph }
    {
        self.image
    }

    /// The graph.
    pub fn graph(&self) -> &'a Graph
        ensures value { result.now ≡ self.now.graph }
        ensures well_formed { IsWellFormed (pair_profile self.now.image self.now.graph) self.now.image self.now.graph }
    {
        self.starts.graph()
    }

    /// Tells a proof that the pair is confined; nothing is computed.
    pub fn is_confined(&self)
        ensures { IsConfined (pair_profile self.now.image self.now.graph) self.now.image self.now.graph }
    {
        are_bytes(self.image);
        // Tells the proof that the pair meets the rules, and that the graph is one.
        let _length = self.graph().code();
        well_formed_is_confined();
    }

    /// Tells a proof that the pair is safe; nothing is computed.
    pub fn is_safe(&self)
        ensures { IsSafe (pair_profile self.now.image self.now.graph) self.now.image self.now.graph }
    {
        are_bytes(self.image);
        // Tells the proof that the pair meets the rules.
        let _ = self.graph();
        well_formed_is_safe();
    }

    /// Tells a proof that the program makes no system calls but those of the graph's list, where it has one;
    /// nothing is computed.
    pub fn is_listed(&self)
        ensures { (calls : List ℕ) → calls_in self.now.graph.lines ≡ Some calls → IsListed (pair_profile self.now.image self.now.graph) self.now.image calls }
    {
        are_bytes(self.image);
        // Tells the proof that the pair meets the rules.
        let _ = self.graph();
        well_formed_is_listed();
    }

    /// The unit that starts at an address; `None` at the prologue and inside a unit.
    pub fn unit_at(&self, address: u64) -> Option<Unit>
        ensures { result ≡ unit_at (pair_profile self.now.image self.now.graph) (code_words self.now.image.code) address }
    {
        if self.starts.is_start(address) {
            unit_of(self.image.code(), address)
        } else {
            None
        }
    }

    /// Where the opening's call leads.
    fn entry(&self) -> Option<u64>
        ensures { result ≡ entry_of (pair_profile self.now.image self.now.graph) (code_words self.now.image.code) }
    {
        self.starts.entry()
    }

    /// Where the first unit stands.
    fn units_from(&self) -> u64
        ensures { result ≡ (pair_profile self.now.image self.now.graph).units_from }
    {
        self.starts.units_from()
    }

    /// The prologue's closing, to which the program's entry returns.
    pub fn closing(&self) -> u64
        ensures { result ≡ (pair_profile self.now.image self.now.graph).closing }
    {
        self.starts.closing()
    }

    /// What stands at an address, the prologue's parts among it; `None` where nothing starts.
    #[tactic(auto, unfolding(cfi_rules::specs::Split::place_at))]
    pub fn place_at(&self, address: u64) -> Option<Place>
        ensures { result ≡ place_at (pair_profile self.now.image self.now.graph) (code_words self.now.image.code) address }
    {
        if is_handler(address) {
            return Some(Place::Handler);
        }
        if address == START {
            Some(Place::Opening(self.entry()?))
        } else if address == self.closing() {
            Some(Place::Closing)
        } else {
            Some(Place::Body(self.unit_at(address)?))
        }
    }

    /// Whether something starts at an address: `place_at` without reading what it is.
    pub fn is_place(&self, address: u64) -> bool
        ensures { result ≡ is_some (place_at (pair_profile self.now.image self.now.graph) (code_words self.now.image.code) address) }
    {
        let start = self.units_from();
        if address >= start {
            return self.starts.is_start(address);
        }
        self.is_prologue(address)
    }

    /// Whether a part of the prologue starts at an address.
    fn is_prologue(&self, address: u64) -> bool
        ensures { result ≡ starts_prologue (pair_profile self.now.image self.now.graph) (code_words self.now.image.code) address }
    {
        is_handler(address)
            || address == self.closing()
            || address == START && self.entry().is_some()
    }

    /// The targets of the graph's class with a label, for a computed transfer that it serves.
    pub fn targets_for(&self, asked: Asks) -> Option<&'a [u64]>
        ensures value { option_copied result ≡ targets_for self.now.graph.lines asked.kind asked.which asked.label }
        ensures rising { IfSome result (λ targets. IsTrue (is_rising nat_lt targets.now)) }
    {
        self.starts.targets_for(asked)
    }
}

/// An image's code and data are bytes, of the lengths that an image has.
fn are_bytes(image: &Image<'_>)
    ensures { AreBytes image.now }
{
    are_small(image.code());
    are_small(image.init());
}

fn is_handler(address: u64) -> bool
    ensures { result ≡ is_handler address }
{
    address == BAD_TARGET || address == BAD_RETURN || address == DEEP
}

/// Asks the eleven rules of an image and a graph, in their order. Takes time in proportion to the code
/// and the graph, but for searches among the graph's lines, and memory as a scan does.
pub fn verify<'a>(
    alloc: Global,
    image: &'a Image<'a>,
    graph: &'a Graph,
) -> Result<Checked<'a>, End<Reject>>
    ensures accepted { IfOk result (λ c. (c.image ≡ image.now) × (c.graph ≡ graph.now) × IsWellFormed (pair_profile image.now graph.now) image.now graph.now) }
    ensures confined { OnOk result (IsConfined (pair_profile image.now graph.now) image.now graph.now) }
    ensures safe { OnOk result (IsSafe (pair_profile image.now graph.now) image.now graph.now) }
    ensures listed { OnOk result ((calls : List ℕ) → calls_in graph.now.lines ≡ Some calls → IsListed (pair_profile image.now graph.now) image.now calls) }
    ensures rejected { IfErr result (IsCause (pair_profile image.now graph.now) image.now graph.now) }
{
    are_bytes(image);
    // Computes nothing: it tells the proof that the graph is one.
    let _length = graph.code();
    let mut scan = Scan::new(alloc, image.version(), graph)?;
    feed_code::<Brand>(&mut scan, image.code(), Blank::new(1));
    match scan.finish() {
        Err(reject) => Err(End::Fault(reject)),
        Ok(starts) => {
            well_formed_is_confined();
            well_formed_is_listed();
            Ok(Checked { image, starts })
        }
    }
}

/// Feeds a whole code, by pieces of a page, and counts no steps for the caller.
fn feed_code<L: Ledger>(scan: &mut Scan<'_>, code: &[u8], blank: Blank)
    requires name { blank.name ≡ L.name }
    requires parts { blank.parts ≡ L.parts }
    requires some { 0 < L.parts }
    requires small { scan.old.seen.fed + length code.now < 2 ^ 32 }
    ensures seen { (bytes : List ℕ) → HasSeen (profile_with scan.old.seen.versions) scan.old.seen bytes → HasSeen (profile_with scan.old.seen.versions) scan.new.seen (bytes ++ code.now) }
    ensures versions { scan.new.seen.versions ≡ scan.old.seen.versions }
    ensures graph { scan.new.graph ≡ scan.old.graph }
{
    let mut steps = Steps::<L>::new(blank);
    let mut rest = code;
    while rest.len() > PAGE {
        let (page, next) = rest.split_at(PAGE);
        scan.feed(page, &mut steps);
        rest = next;
    }
    scan.feed(rest, &mut steps);
}
