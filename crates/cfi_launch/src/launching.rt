ghost use Rattle.std.specs.Prelude.{◌≡◌, Ok, IfOk, IfErr, option_map};
ghost use Rattle.rv_image.specs.Image.{image_profile};
ghost use Rattle.rv_image.specs.MemoryMap.{MayRun};
ghost use Rattle.text_lines.specs.Answers.{Answers};
ghost use Rattle.cfi_pair.specs.Spelled.{Spell};
ghost use Rattle.cfi_launch.specs.Launch.{IsComplete, IsLaunchEnd, IsLaunchOf, IsLaunchOfPair, script_given};
ghost use Rattle.cfi_launch.specs.ScriptHarts.{lacks_harts};

use cfi_pair::{Pair, PairFault, open_pair};
use cfi_script::Script;
use cfi_step::{RunReport, run};
use cfi_verify::{Reject, verify};
use rv_image::{Image, ImageVersion};
use rv_word::{End, NoMemory};
use std::alloc::Global;
use text_lines::{LineFault, Reason};

/// What a pair that was read comes to.
#[derive(Drop)]
pub enum Launched {
    /// It breaks a rule: the first that fails, at its least address.
    Rejected(Reject),
    /// The version of the image, and the report of its run.
    Ran(ImageVersion, RunReport),
}

/// Why texts are not run: the first of them that is not what it should be.
#[derive(Clone, Copy)]
pub enum LaunchFault {
    /// The image or the graph.
    Pair(PairFault),
    /// The script: the first line that fails, from 1, and why.
    Script(u64, Reason),
    /// The script is for so many harts, more than one, and the image for one.
    Harts(u8),
}

/// The script that a text spells; without a text one hart runs, undisturbed.
fn script_of(alloc: Global, text: Option<&[u8]>) -> Result<Script, End<LineFault>>
    ensures { Answers result (script_given (option_map (λ t. t.now) text.entry)) }
{
    match text {
        None => Ok(Script::none(alloc)),
        Some(text) => Script::read(alloc, text),
    }
}

/// Whether a script is for several harts, and an image for one.
fn lacks_harts(image: &Image<'_>, script: &Script) -> bool
    ensures { result ≡ lacks_harts image.now.version script.now.harts }
{
    match image.version() {
        ImageVersion::OneHart => script.harts() > 1,
        ImageVersion::EightHarts => false,
    }
}

/// The image, the graph and the script that texts spell, whose harts the image may have.
fn open_all<'a>(
    alloc: Global,
    image: &'a [u8],
    graph: &[u8],
    script: Option<&[u8]>,
) -> Result<(Pair<'a>, Script), End<LaunchFault>>
    ensures spelled { IfOk result (λ all. Spell image.now graph.now all.0.image all.0.graph) }
    ensures given { IfOk result (λ all. script_given (option_map (λ t. t.now) script.entry) ≡ Ok all.1) }
    ensures may_run { IfOk result (λ all. MayRun (image_profile all.0.image) all.1.harts) }
    ensures refused { IfErr result (IsLaunchEnd image.now graph.now (option_map (λ t. t.now) script.entry)) }
{
    let pair = match open_pair(alloc, image, graph) {
        Ok(pair) => pair,
        Err(End::Fault(fault)) => return Err(End::Fault(LaunchFault::Pair(fault))),
        Err(End::NoMemory) => return Err(End::NoMemory),
    };
    let script = match script_of(alloc, script) {
        Ok(script) => script,
        Err(End::Fault(LineFault(line, reason))) => {
            return Err(End::Fault(LaunchFault::Script(line, reason)));
        }
        Err(End::NoMemory) => return Err(End::NoMemory),
    };
    if lacks_harts(&pair.image, &script) {
        return Err(End::Fault(LaunchFault::Harts(script.harts())));
    }
    Ok((pair, script))
}

/// Runs an image with the harts of a script, if it goes with its graph.
fn run_pair(
    alloc: Global,
    pair: &Pair<'_>,
    script: &mut Script,
    input: &[u8],
    limit: u64,
) -> Result<Launched, NoMemory>
    requires { MayRun (image_profile pair.now.image) script.old.harts }
    ensures { IfOk result (IsLaunchOfPair pair.now.image pair.now.graph script.old input.now limit) }
{
    let harts = script.harts();
    match verify(alloc, &pair.image, &pair.graph) {
        Ok(checked) => Ok(Launched::Ran(
            pair.image.version(),
            run(alloc, &checked, input, harts, script, limit)?,
        )),
        Err(End::Fault(reject)) => Ok(Launched::Rejected(reject)),
        Err(End::NoMemory) => Err(NoMemory),
    }
}

/// Runs the image that a text spells for at most so many steps, if others spell its graph and a script and the rules accept it. Without a
/// script one hart runs, undisturbed.
pub fn launch(
    alloc: Global,
    image: &[u8],
    graph: &[u8],
    script: Option<&[u8]>,
    input: &[u8],
    limit: u64,
) -> Result<Launched, End<LaunchFault>>
    ensures launched { IfOk result (IsLaunchOf image.now graph.now (option_map (λ t. t.now) script.entry) input.now limit) }
    ensures refused { IfErr result (IsLaunchEnd image.now graph.now (option_map (λ t. t.now) script.entry)) }
    ensures complete { IsComplete image.now graph.now (option_map (λ t. t.now) script.entry) result }
{
    let (pair, mut script) = match open_all(alloc, image, graph, script) {
        Ok(opened) => opened,
        Err(end) => return Err(end),
    };
    match run_pair(alloc, &pair, &mut script, input, limit) {
        Ok(launched) => Ok(launched),
        Err(NoMemory) => Err(End::NoMemory),
    }
}
