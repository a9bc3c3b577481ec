ghost use Rattle.std.specs.Prelude.{◌≡◌, ◌+◌, ◌/◌, ◌<◌, ◌≤◌, ◌^◌, ◌++◌, ℕ, List, IfErr, IfOk, length};
ghost use Rattle.std.specs.List.{concat};
ghost use Rattle.rv_image.specs.Image.{Contents};
ghost use Rattle.rv_image.specs.MemoryMap.{profile_under, profile_with};
ghost use Rattle.cfi_scan.specs.Pieces.{HasSeen};
ghost use Rattle.cfi_verify.specs.Answer.{IsCause};
ghost use Rattle.cfi_verify.specs.Scan.{Tells, numbers_in};
ghost use Rattle.cfi_rules.specs.Rules.{IsWellFormed};
ghost use Rattle.cfi_rules.specs.Split.{code_words};

use crate::scan::Scan;
use cfi_graph::Graph;
use cfi_rules::Reject;
use cfi_scan::Steps;
use cfi_starts::Starts;
use rv_image::ImageVersion;
use rv_word::{Bytes, End};
use std::alloc::Global;
use std::sync::ledger::Ledger;

/// Asks the eleven rules of the code of an image of a version, which comes in pieces, and of a graph. However
/// the code is cut, the answer is that on the whole, and each word is read at most once: a step is the
/// reading of a word.
pub fn scan_pieces<'a, L: Ledger>(
    alloc: Global,
    version: ImageVersion,
    graph: &'a Graph,
    pieces: &[Bytes],
    steps: &mut Steps<L>,
) -> Result<Starts<'a>, End<Reject>>
    requires small { length (concat pieces.now) < 2 ^ 32 }
    ensures versions { IfOk result (λ s. s.listing.versions ≡ record { image = version; graph = graph.now.version }) }
    ensures accepted { (image : Contents) → image.code ≡ concat pieces.now → IfOk result (λ s. (s.graph ≡ graph.now) × Tells (profile_under graph.now.version version) (numbers_in graph.now) s.listing (code_words image.code) × IsWellFormed (profile_under graph.now.version version) image graph.now) }
    ensures rejected { (image : Contents) → image.code ≡ concat pieces.now → IfErr result (IsCause (profile_under graph.now.version version) image graph.now) }
    ensures cost { steps.new ≤ steps.old + length (concat pieces.now) / 4 }
{
    let mut scan = Scan::new(alloc, version, graph)?;
    feed_pieces(&mut scan, pieces, steps);
    match scan.finish() {
        Err(reject) => Err(End::Fault(reject)),
        Ok(starts) => Ok(starts),
    }
}

/// Feeds pieces in their order.
fn feed_pieces<L: Ledger>(scan: &mut Scan<'_>, pieces: &[Bytes], steps: &mut Steps<L>)
    requires small { scan.old.seen.fed + length (concat pieces.now) < 2 ^ 32 }
    ensures seen { (bytes : List ℕ) → HasSeen (profile_with scan.old.seen.versions) scan.old.seen bytes → HasSeen (profile_with scan.old.seen.versions) scan.new.seen (bytes ++ concat pieces.now) }
    ensures versions { scan.new.seen.versions ≡ scan.old.seen.versions }
    ensures graph { scan.new.graph ≡ scan.old.graph }
    ensures fed { scan.new.seen.fed ≡ scan.old.seen.fed + length (concat pieces.now) }
    ensures cost { steps.new + scan.old.seen.fed / 4 ≡ steps.old + scan.new.seen.fed / 4 }
{
    for piece in pieces {
        scan.feed(piece.as_slice(), steps);
    }
}
