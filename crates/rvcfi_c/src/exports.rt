ghost use Rattle.std.specs.Prelude.{◌≡◌, ◌≤◌};
ghost use Rattle.cfi_pair.specs.Judgement.{HasJudgement};
ghost use Rattle.cfi_pair.specs.declared.judging.Verdict.TheVariants as V;
ghost use Rattle.rvcfi_c.specs.Answers.{IsComplete, IsNoImage, IsVerdictOf};
ghost use Rattle.rvcfi_c.specs.Plan.{IsPlanOf};

use crate::plan::{RvcfiPlan, plan_of};
use cfi_pair::{RvcfiVerdict, verdict_of, verify_texts};
use std::alloc::Global;

/// Whether two texts are an image and its graph and go together. The answer is the verdict's outcome.
#[unsafe(no_mangle)]
pub extern "C" fn rvcfi_verify(
    alloc: Global,
    image: &[u8],
    graph: &[u8],
    verdict: &mut RvcfiVerdict,
) -> u32
    ensures accepted { result ≡ 0 → HasJudgement image.now graph.now V.Accepted }
    ensures complete { IsComplete image.now graph.now result }
    ensures told { IsVerdictOf image.now graph.now verdict.new }
    ensures outcome { result ≡ verdict.new.outcome }
    ensures most { result ≤ 4 }
{
    *verdict = verdict_of(verify_texts(alloc, image, graph));
    verdict.outcome
}

/// What a loader maps of the image that a text is: the answer is 0, or 1 where it is no image, and the plan is then as it was.
#[unsafe(no_mangle)]
pub extern "C" fn rvcfi_plan(image: &[u8], plan: &mut RvcfiPlan) -> u32
    ensures planned { result ≡ 0 → IsPlanOf image.now plan.new }
    ensures refused { result ≡ 1 → IsNoImage image.now × (plan.new ≡ plan.old) }
    ensures most { result ≤ 1 }
{
    match plan_of(image) {
        Ok(made) => {
            *plan = made;
            0
        }
        Err(_) => 1,
    }
}
