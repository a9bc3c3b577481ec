//! Why the tool refuses the files of a pair and its script.

ghost use Rattle.std.specs.Prelude.{ℕ, List, Option};
ghost use Rattle.cfi_launch.specs.Launch.{IsLaunchFault};
ghost use Rattle.cfi_pair.specs.Opening.{IsPairFault};
ghost use Rattle.tool_images.specs.Refused.{IsRefusal};

use cfi_launch::LaunchFault;
use cfi_pair::PairFault;
use refusals::Refusal;

/// The refusal that tells a fault of an image and its graph.
pub(crate) fn pair_refusal(fault: PairFault) -> Refusal
    ensures { (image graph : List ℕ) (script : Option (List ℕ)) → IsPairFault image graph fault → IsRefusal image graph script result }
{
    match fault {
        PairFault::Image(refusal) => Refusal::Image(refusal),
        PairFault::Graph(line, reason) => Refusal::Graph(line, reason),
    }
}

/// The refusal that tells a fault of an image, its graph and a script.
pub(crate) fn refusal_of(fault: LaunchFault) -> Refusal
    ensures { (image graph : List ℕ) (script : Option (List ℕ)) → IsLaunchFault image graph script fault → IsRefusal image graph script result }
{
    match fault {
        LaunchFault::Pair(fault) => pair_refusal(fault),
        LaunchFault::Script(line, reason) => Refusal::Script(line, reason),
        LaunchFault::Harts(count) => Refusal::Harts(count),
    }
}
