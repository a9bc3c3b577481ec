//! How images and graphs are answered.

use cfi_graph::Graph;
use cfi_verify::verify;
use rv_image::{Image, ImageVersion};
use rv_word::End;
use sample_programs::is_told_as;
use std::alloc::Global;

/// Whether the verifier answers an image and a graph in these words, or accepts them where there are none.
pub fn is_told(alloc: Global, image: &Image<'_>, graph: &Graph, words: &str) -> bool {
    match verify(alloc, image, graph) {
        Ok(_) => words.is_empty(),
        Err(End::Fault(reject)) => is_told_as(alloc, &reject, words),
        Err(End::NoMemory) => false,
    }
}

/// The same of the image of a version that has a code of at most 4,096 bytes.
pub fn is_code_told(
    alloc: Global,
    version: ImageVersion,
    code: &[u8],
    graph: &Graph,
    words: &str,
) -> bool {
    if code.len() < 4 || code.len() > 4096 || code.len() % 4 != 0 {
        return false;
    }
    is_told(alloc, &Image::of_version(version, code, &[]), graph, words)
}
