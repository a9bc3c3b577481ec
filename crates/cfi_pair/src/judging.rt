//! What the rules say of an image and its graph.

ghost use Rattle.std.specs.Prelude.{IfOk, IfErr};
ghost use Rattle.cfi_pair.specs.Judgement.{HasJudgement, IsComplete, IsJudgement};
ghost use Rattle.cfi_pair.specs.Opening.{IsPairEnd};

use crate::opening::{Pair, PairFault, open_pair};
use cfi_verify::{Reject, verify};
use rv_word::{End, NoMemory};
use std::alloc::Global;

/// What the rules say of an image and its graph.
#[derive(Clone, Copy)]
pub enum Verdict {
    /// They meet every rule.
    Accepted,
    /// They break a rule: the first that fails, at its least address.
    Rejected(Reject),
}

/// The verdict on an image and its graph.
pub fn judge(alloc: Global, pair: &Pair<'_>) -> Result<Verdict, NoMemory>
    ensures { IfOk result (IsJudgement pair.now.image pair.now.graph) }
{
    match verify(alloc, &pair.image, &pair.graph) {
        Ok(_checked) => Ok(Verdict::Accepted),
        Err(End::Fault(reject)) => Ok(Verdict::Rejected(reject)),
        Err(End::NoMemory) => Err(NoMemory),
    }
}

/// Reads two texts as an image and its graph, and judges them.
pub fn verify_texts(alloc: Global, image: &[u8], graph: &[u8]) -> Result<Verdict, End<PairFault>>
    ensures judged { IfOk result (HasJudgement image.now graph.now) }
    ensures refused { IfErr result (IsPairEnd image.now graph.now) }
    ensures complete { IsComplete image.now graph.now result }
{
    let pair = match open_pair(alloc, image, graph) {
        Ok(pair) => pair,
        Err(end) => return Err(end),
    };
    match judge(alloc, &pair) {
        Ok(verdict) => Ok(verdict),
        Err(NoMemory) => Err(End::NoMemory),
    }
}
