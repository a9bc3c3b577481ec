//! Two texts, read as an image and its graph.

ghost use Rattle.std.specs.Prelude.{IfOk, IfErr};
ghost use Rattle.cfi_pair.specs.Opening.{AreRead, IsPairEnd};
ghost use Rattle.cfi_pair.specs.Spelled.{Spell};

use cfi_graph::{Graph, read_graph};
use elf_image::{ImageRefusal, read_image};
use rv_image::Image;
use rv_word::End;
use std::alloc::Global;
use text_lines::{LineFault, Reason};

/// An image and its graph.
#[derive(Drop)]
pub struct Pair<'a> {
    pub image: Image<'a>,
    pub graph: Graph,
}

/// Why two texts are no image and graph: the first of them that is not what it should be.
#[derive(Clone, Copy)]
pub enum PairFault {
    /// The image is none.
    Image(ImageRefusal),
    /// The graph is none: the first line that fails, from 1, and why.
    Graph(u64, Reason),
}

/// The image and the graph that two texts spell.
pub fn open_pair<'a>(
    alloc: Global,
    image: &'a [u8],
    graph: &[u8],
) -> Result<Pair<'a>, End<PairFault>>
    ensures spelled { IfOk result (λ pair. Spell image.now graph.now pair.image pair.graph) }
    ensures read { IfOk result (λ pair. AreRead image.now graph.now pair.graph) }
    ensures refused { IfErr result (IsPairEnd image.now graph.now) }
{
    let image = match read_image(image) {
        Ok(image) => image,
        Err(refusal) => return Err(End::Fault(PairFault::Image(refusal))),
    };
    // Computes nothing: it tells the proof the sizes of the image.
    let _code = image.code();
    match read_graph(alloc, graph) {
        Ok(graph) => Ok(Pair { image, graph }),
        Err(End::Fault(LineFault(line, reason))) => {
            Err(End::Fault(PairFault::Graph(line, reason)))
        }
        Err(End::NoMemory) => Err(End::NoMemory),
    }
}
