ghost use Rattle.std.specs.Prelude.{◌≡◌, ◌≤◌, not, IsTrue, IfOk, MatchResult, None, Ok, Err, length};
ghost use Rattle.cfi_graph.specs.Calls.{may_be_calls};
ghost use Rattle.cfi_graph.specs.Graph.{GraphParts, IsGraph, is_code_length};
ghost use Rattle.cfi_graph.specs.Text.{graph_name, graph_text};
ghost use Rattle.cfi_graph.specs.Reading.{after_first, calls_key, calls_lines, graph_of, third_line, version_at, with_code, with_lines};
ghost use Rattle.text_lines.specs.Answers.{Answers};
ghost use Rattle.text_lines.specs.Lines.{lines_of};

use crate::calls::{calls_of, judged, line_after};
use crate::fixed::PAIR_LINE;
use crate::forms::code_length;
use crate::graph::{Graph, GraphLines};
use crate::graph_form::GraphForm;
use crate::line::{GraphLine, Key};
use crate::rules::is_code_length;
use rv_image::GraphVersion;
use rv_word::{End, NoMemory, Numbers};
use std::alloc::Global;
use text_lines::{LineFault, Reason, after_one_of, cut, read_lines};

/// The first lines that a graph may have.
const NAMES: [&[u8]; 3] = [b"rvcfi-graph 1", b"rvcfi-graph 2", b"rvcfi-graph 3"];

/// The version that the first line tells, by its place among these.
fn version_at(which: usize) -> GraphVersion
    ensures { result ≡ version_at which }
{
    match which {
        0 => GraphVersion::OneLabel,
        1 => GraphVersion::TwoLabels,
        _ => GraphVersion::CalleeSaves,
    }
}

/// The first line of a version's graphs.
pub(crate) fn name_of(version: GraphVersion) -> &'static [u8]
    ensures { result.now ≡ graph_name version }
{
    match version {
        GraphVersion::OneLabel => NAMES[0],
        GraphVersion::TwoLabels => NAMES[1],
        GraphVersion::CalleeSaves => NAMES[2],
    }
}

/// Whether a text may begin with a list of system calls, told by its first bytes.
fn begins_calls(text: &[u8]) -> bool
    ensures { IsTrue (not result) → third_line (lines_of text.now) ≡ Ok (record { calls = None; lines = lines_of text.now }) }
{
    text.starts_with(b"calls ")
}

/// The list of system calls that may be the third line, and what stands after it.
fn third_line(text: &[u8]) -> Result<(Option<Numbers>, &[u8]), End<LineFault>>
    ensures told { MatchResult result
        (λ told. third_line (lines_of text.now) ≡ Ok (record { calls = told.0; lines = lines_of told.1.now }))
        (λ end. third_line (lines_of text.now) ≡ Err end) }
    ensures allowed { IfOk result (λ told. IsTrue (may_be_calls told.0)) }
    ensures shorter { IfOk result (λ told. length told.1.now ≤ length text.now) }
{
    if !begins_calls(text) {
        return Ok((None, text));
    }
    let (line, rest) = cut(text, b'\n');
    let Some(rest) = rest else {
        return Ok((None, text));
    };
    let Some(numbers) = calls_of(line) else {
        return Ok((None, text));
    };
    let calls = judged(3, numbers)?;
    Ok((Some(calls), rest))
}

/// The form of the lines after the list of system calls, with the line of that, if there is one. It has
/// room for the lines of `len` bytes, of which few are shorter than an edge's.
fn begun(
    alloc: Global,
    version: GraphVersion,
    code: u32,
    calls: Option<Numbers>,
    len: usize,
) -> Result<GraphForm, NoMemory>
    ensures version { IfOk result (λ f. f.version ≡ version) }
    ensures code { IfOk result (λ f. f.code ≡ code) }
    ensures before { IfOk result (λ f. f.before ≡ calls_key calls) }
    ensures lines { IfOk result (λ f. f.lines.items ≡ calls_lines calls) }
{
    let mut form = GraphForm {
        version,
        code,
        before: None,
        lines: Vec::with_capacity(alloc, len / (PAIR_LINE + 1))?,
    };
    if let Some(numbers) = calls {
        form.lines.push(GraphLine::Calls(numbers))?;
        form.before = Some(Key::Head);
    }
    Ok(form)
}

/// The graph of a version, a length and a list of system calls, if there is one, with the lines after these.
fn with_lines(
    alloc: Global,
    version: GraphVersion,
    code: u32,
    calls: Option<Numbers>,
    text: &[u8],
) -> Result<Graph, End<LineFault>>
    requires length { IsTrue (is_code_length code) }
    requires calls { IsTrue (may_be_calls calls) }
    ensures { Answers result (with_lines version code calls (lines_of text.now)) }
{
    let first = line_after(3, &calls);
    let mut form = begun(alloc, version, code, calls, text.len())?;
    read_lines(alloc, &mut form, first, text)?;
    Ok(Graph {
        version,
        code,
        lines: GraphLines::of(form.lines),
    })
}

/// The graph of a version and a length that stands after the second line.
fn with_code(
    alloc: Global,
    version: GraphVersion,
    code: u32,
    text: &[u8],
) -> Result<Graph, End<LineFault>>
    requires length { IsTrue (is_code_length code) }
    ensures { Answers result (with_code version code (lines_of text.now)) }
{
    let (calls, rest) = match third_line(text) {
        Ok(told) => told,
        Err(end) => return Err(end),
    };
    with_lines(alloc, version, code, calls, rest)
}

/// The graph of a version that stands after the first line.
fn after_first(alloc: Global, version: GraphVersion, text: &[u8]) -> Result<Graph, End<LineFault>>
    ensures { Answers result (after_first version (lines_of text.now)) }
{
    let (line, rest) = cut(text, b'\n');
    let Some(rest) = rest else {
        return Err(End::Fault(LineFault(2, Reason::Form)));
    };
    let Some(code) = code_length(line) else {
        return Err(End::Fault(LineFault(2, Reason::Form)));
    };
    if !is_code_length(code) {
        return Err(End::Fault(LineFault(2, Reason::Range)));
    }
    with_code(alloc, version, code, rest)
}

/// The graph that a text spells.
fn graph_in(alloc: Global, text: &[u8]) -> Result<Graph, End<LineFault>>
    ensures { Answers result (graph_of text.now) }
{
    let (which, rest) = after_one_of(text, &NAMES)?;
    after_first(alloc, version_at(which), rest)
}

/// Reads the text of a graph, of which it keeps no copy. The lines of a text count from 1.
pub fn read_graph(alloc: Global, text: &[u8]) -> Result<Graph, End<LineFault>>
    // The right answer, but for want of memory.
    ensures exact { Answers result (graph_of text.now) }

    // What is read is a graph, and the text is its one spelling.
    ensures allowed { IfOk result IsGraph }
    ensures spelled { IfOk result (λ g. text.now ≡ graph_text g) }

    // The text of each graph is read as that graph.
    ensures only { (g : GraphParts) → IsGraph g → text.now ≡ graph_text g → Answers result (Ok g) }
{
    graph_in(alloc, text)
}
