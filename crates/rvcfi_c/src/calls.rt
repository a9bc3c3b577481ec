ghost use Rattle.std.specs.Prelude.{◌≡◌, ◌⊎◌};
ghost use Rattle.rvcfi_c.specs.Calls.{HasNoList, IsListOf, IsNoGraph};

use cfi_graph::read_graph;
use rv_word::End;
use std::alloc::Global;

/// The list of system calls of the graph that a text is. The answer is 0 where it has one: `count` is how many numbers it has,
/// and `calls` gets as many as it holds; 1 where it has none, 2 where the text is no graph, and 4 for want of memory, and `calls`
/// and `count` are then as they were.
#[unsafe(no_mangle)]
pub extern "C" fn rvcfi_calls(
    alloc: Global,
    graph: &[u8],
    calls: &mut [u16],
    count: &mut u32,
) -> u32
    ensures listed { result ≡ 0 → IsListOf graph.now calls.old calls.new count.new }
    ensures free { result ≡ 1 → HasNoList graph.now }
    ensures refused { result ≡ 2 → IsNoGraph graph.now }
    ensures known { (result ≡ 0) ⊎ ((result ≡ 1) ⊎ ((result ≡ 2) ⊎ (result ≡ 4))) }
    ensures kept { (result ≡ 0) ⊎ ((calls.new ≡ calls.old) × (count.new ≡ count.old)) }
{
    let graph = match read_graph(alloc, graph) {
        Ok(graph) => graph,
        Err(End::Fault(_)) => return 2,
        Err(End::NoMemory) => return 4,
    };
    match graph.calls() {
        Some(numbers) => {
            let list = numbers.as_slice();
            let n = list.len().min(calls.len());
            calls[..n].copy_from_slice(&list[..n]);
            *count = list.len() as u32;
            0
        }
        None => 1,
    }
}
