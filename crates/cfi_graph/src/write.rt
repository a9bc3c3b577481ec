ghost use Rattle.std.specs.Prelude.{◌≡◌, [], ◌∷◌, ◌++◌, IfOk, OnOk, Ok};
ghost use Rattle.std.specs.Fmt.{decimal};
ghost use Rattle.std.specs.List.{flat_map};
ghost use Rattle.text_lines.specs.Hex.{hex_text};
ghost use Rattle.text_lines.specs.Lines.{spaced};
ghost use Rattle.cfi_graph.specs.declared.line.GraphLine.TheVariants.{Site};
ghost use Rattle.cfi_graph.specs.Text.{class_name, graph_text, words_of_calls, words_of_class, words_of_line};
ghost use Rattle.cfi_graph.specs.Reading.{graph_of};

use crate::graph::Graph;
use crate::line::{GraphLine, SiteKind, Sort};
use crate::read::name_of;
use rv_word::{NoMemory, Numbers};
use std::alloc::Global;
use text_lines::push_number;

/// Adds a space and a number in decimal.
fn push_decimal(alloc: Global, out: &mut Vec<u8>, number: u16) -> Result<(), NoMemory>
    ensures { OnOk result (out.new.items ≡ out.old.items ++ 32 ∷ decimal number) }
{
    let text = format!(in alloc; " {number}")?;
    out.extend_from_slice(text.as_bytes())?;
    Ok(())
}

fn push_calls(alloc: Global, out: &mut Vec<u8>, numbers: &[u16]) -> Result<(), NoMemory>
    ensures { OnOk result
        (out.new.items ≡ out.old.items ++ flat_map (λ n. 32 ∷ decimal n) numbers.now) }
{
    for number in numbers {
        push_decimal(alloc, out, *number)?;
    }
    Ok(())
}

/// Adds the words of a list of system calls.
fn push_list(alloc: Global, out: &mut Vec<u8>, numbers: &Numbers) -> Result<(), NoMemory>
    ensures { OnOk result
        (out.new.items ≡ out.old.items ++ spaced (words_of_calls numbers.now)) }
{
    out.extend_from_slice(b"calls")?;
    push_calls(alloc, out, numbers.as_slice())
}

fn push_numbers(out: &mut Vec<u8>, numbers: &[u64]) -> Result<(), NoMemory>
    ensures { OnOk result
        (out.new.items ≡ out.old.items ++ flat_map (λ n. 32 ∷ hex_text 8 n) numbers.now) }
{
    for number in numbers {
        push_number(out, *number, 8)?;
    }
    Ok(())
}

/// The first word of a class's line.
fn class_name(sort: Sort) -> &'static [u8]
    ensures { result.now ≡ class_name sort }
{
    match sort {
        Sort::Both => b"class",
        Sort::Calls => b"callclass",
        Sort::Jumps => b"jumpclass",
    }
}

/// Adds the words of a class's line.
fn push_class(out: &mut Vec<u8>, sort: Sort, label: u32, targets: &[u64]) -> Result<(), NoMemory>
    ensures { OnOk result
        (out.new.items ≡ out.old.items ++ spaced (words_of_class sort label targets.now)) }
{
    out.extend_from_slice(class_name(sort))?;
    push_number(out, u64::from(label), 5)?;
    push_numbers(out, targets)
}

/// Adds the words of a site's line.
fn push_site(out: &mut Vec<u8>, address: u64, kind: SiteKind, label: u32) -> Result<(), NoMemory>
    ensures { OnOk result
        (out.new.items ≡ out.old.items ++ spaced (words_of_line (Site address kind label))) }
{
    out.extend_from_slice(b"site")?;
    push_number(out, address, 8)?;
    out.extend_from_slice(match kind {
        SiteKind::Call => b" call",
        SiteKind::Jump => b" jump",
    })?;
    push_number(out, u64::from(label), 5)
}

/// Adds a line's name and its two addresses.
fn push_pair(out: &mut Vec<u8>, name: &[u8], from: u64, to: u64) -> Result<(), NoMemory>
    ensures { OnOk result (out.new.items
        ≡ out.old.items ++ spaced (name.now ∷ hex_text 8 from ∷ hex_text 8 to ∷ [])) }
{
    out.extend_from_slice(name)?;
    push_numbers(out, &[from, to])
}

/// Adds the words of a line, with a space between each two.
fn push_words(alloc: Global, out: &mut Vec<u8>, line: &GraphLine) -> Result<(), NoMemory>
    ensures { OnOk result (out.new.items ≡ out.old.items ++ spaced (words_of_line line.now)) }
{
    match line {
        GraphLine::Calls(numbers) => push_list(alloc, out, numbers),
        GraphLine::Leaf(from, to) => push_pair(out, b"leaf", *from, *to),
        GraphLine::Class(sort, label, targets) => {
            push_class(out, *sort, *label, targets.as_slice())
        }
        GraphLine::Site(address, kind, label) => push_site(out, *address, *kind, *label),
        GraphLine::Edge(from, to) => push_pair(out, b"edge", *from, *to),
        GraphLine::Call(from, to) => push_pair(out, b"call", *from, *to),
    }
}

fn push_lines(alloc: Global, out: &mut Vec<u8>, lines: &[GraphLine]) -> Result<(), NoMemory>
    ensures { OnOk result (out.new.items
        ≡ out.old.items ++ flat_map (λ l. spaced (words_of_line l) ++ 10 ∷ []) lines.now) }
{
    for line in lines {
        push_words(alloc, out, line)?;
        out.push(b'\n')?;
    }
    Ok(())
}

/// The text of a graph.
pub fn write_graph(alloc: Global, graph: &Graph) -> Result<Vec<u8>, NoMemory>
    ensures text { IfOk result (λ v. v.items ≡ graph_text graph.now) }
    ensures read_back { IfOk result (λ v. graph_of v.items ≡ Ok graph.now) }
{
    let mut out = Vec::new(alloc);
    out.extend_from_slice(name_of(graph.version))?;
    out.extend_from_slice(b"\ncode 40000000")?;
    push_number(&mut out, u64::from(graph.code), 8)?;
    out.push(b'\n')?;
    push_lines(alloc, &mut out, graph.lines.as_slice())?;
    out.extend_from_slice(b"end\n")?;
    Ok(out)
}
