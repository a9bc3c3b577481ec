ghost use Rattle.std.specs.Prelude.{◌≡◌, ◌<◌, ◌==◌, length, slice_get, count_by, Ok, Some};

use crate::line::GraphLine;
use rv_image::GraphVersion;
use rv_word::{NoMemory, Numbers};
use std::alloc::Global;
use std::marker::Model;

/// A list of a graph's lines that owns its memory.
#[derive(Drop)]
pub struct GraphLines {
    items: Vec<GraphLine>,
}

impl Model for GraphLines {
    ghost use Rattle.std.specs.Prelude.{List};
    ghost use Rattle.cfi_graph.specs.declared.line.GraphLine.{GraphLine};

    ghost Value = { List GraphLine };

    ghost view = { λ l. l.items.items };
}

impl GraphLines {
    /// The list with these lines, in their order.
    pub fn of(items: Vec<GraphLine>) -> Self
        ensures { result ≡ items.items }
    {
        GraphLines { items }
    }

    /// The lines, given back without taking memory.
    pub fn into_vec(self) -> Vec<GraphLine>
        ensures { result.items ≡ self }
    {
        self.items
    }

    /// The lines, as a slice.
    pub fn as_slice(&self) -> &[GraphLine]
        ensures { result.now ≡ self.now }
    {
        self.items.as_slice()
    }

    /// How many lines there are.
    pub fn len(&self) -> usize
        ensures { result ≡ length self.now }
    {
        self.items.len()
    }

    /// Whether there is no line.
    pub fn is_empty(&self) -> bool
        ensures { result ≡ (length self.now == 0) }
    {
        self.items.is_empty()
    }
}

/// A graph of control flow: its version, the length of its code in bytes, and its lines in order. Each
/// graph has only lengths, lines, labels, addresses and an order that a graph of its version may have.
#[derive(Drop)]
pub struct Graph {
    pub(crate) version: GraphVersion,
    pub(crate) code: u32,
    pub(crate) lines: GraphLines,
}

impl Model for Graph {
    ghost use Rattle.cfi_graph.specs.Graph.{GraphParts, IsGraph};

    ghost Value = { GraphParts };

    ghost view = { λ g. record { version = g.version; code = g.code; lines = g.lines } };

    ghost invariant = { λ g. IsGraph (record { version = g.version; code = g.code; lines = g.lines }) };
}

impl Graph {
    ghost use Rattle.cfi_graph.specs.Graph.{IsGraph, calls_in, is_class, is_site};

    /// The graph with these parts, which are those that a graph may have. It takes no memory.
    pub fn of(
        _alloc: Global,
        version: GraphVersion,
        code: u32,
        lines: GraphLines,
    ) -> Result<Graph, NoMemory>
        requires { IsGraph (record { version = version; code = code; lines = lines }) }
        ensures { result ≡ Ok (record { version = version; code = code; lines = lines }) }
    {
        Ok(Graph {
            version,
            code,
            lines,
        })
    }

    /// The version.
    pub fn version(&self) -> GraphVersion
        ensures { result ≡ self.now.version }
    {
        self.version
    }

    /// The length of the code, in bytes.
    pub fn code(&self) -> u32
        ensures value { result ≡ self.now.code }
        ensures allowed { IsGraph self.now }
    {
        self.code
    }

    /// The numbers of the system calls that the program may make, where the graph has a list of them.
    pub fn calls(&self) -> Option<Numbers>
        ensures { result ≡ calls_in self.now.lines }
    {
        match self.lines.as_slice().first()? {
            GraphLine::Calls(numbers) => Some(*numbers),
            _ => None,
        }
    }

    /// The number of classes of all sorts.
    pub fn classes(&self) -> u64
        ensures { result ≡ count_by is_class self.now.lines }
    {
        self.lines
            .as_slice()
            .iter()
            .filter(|line| line.is_class())
            .count() as u64
    }

    /// The number of sites.
    pub fn sites(&self) -> u64
        ensures { result ≡ count_by is_site self.now.lines }
    {
        self.lines
            .as_slice()
            .iter()
            .filter(|line| line.is_site())
            .count() as u64
    }

    /// The number of lines.
    pub fn lines(&self) -> u64
        ensures { result ≡ length self.now.lines }
    {
        self.lines.len() as u64
    }

    /// The line with the index `k`, from 0.
    pub fn line(&self, k: u64) -> &GraphLine
        requires { k < length self.now.lines }
        ensures { slice_get self.now.lines k ≡ Some result.now }
    {
        &self.lines.as_slice()[k as usize]
    }
}
