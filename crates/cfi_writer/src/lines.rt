//! The lines of the graph that is written.

ghost use Rattle.std.specs.Prelude.{◌≡◌, ◌<◌, ◌≤◌, ◌++◌, [], true, false, IfOk, OnOk, length, map, slice_index, slice_index_or};
ghost use Rattle.std.specs.List.{All};
ghost use Rattle.obj_program.specs.Program.{count, item_of};
ghost use Rattle.cfi_graph.specs.Graph.{IsGraph, has_leaves};
ghost use Rattle.cfi_map.specs.GraphAtMap.{call_lines, class_lines, gate_to, graph_lines, head_lines, jump_line, leaf_line, leaf_lines_by, leaf_lines_from, line_for, line_of_kind, place_lines, with_line, word};
ghost use Rattle.cfi_map.specs.LabelOf.{all_classes, class_count, site_label, tag};

use crate::chosen::{Chosen, is_call};
use cfi_closed::Side;
use cfi_graph::{Graph, GraphLine, GraphLines, SiteKind};
use obj_input::ItemKind;
use rv_image::GraphVersion;
use rv_image::profile::START;
use rv_word::{NoMemory, Places};
use std::alloc::Global;

/// Puts a line at the end, if there is one.
#[inline(always)]
fn push_line(lines: &mut Vec<GraphLine>, line: Option<GraphLine>) -> Result<(), NoMemory>
    ensures { OnOk result (lines.new.items ≡ lines.old.items ++ with_line line []) }
{
    if let Some(line) = line {
        lines.push(line)?;
    }
    Ok(())
}

impl<'c, 'a, 'b> Chosen<'c, 'a, 'b> {
    /// The gates of places.
    fn gates_of(&self, alloc: Global, places: &[u64]) -> Result<Places, NoMemory>
        requires { All (λ t. t < count self.now.layout.program) places.now }
        ensures { IfOk result (λ gates. gates ≡ map (slice_index self.now.layout.gates) places.now) }
    {
        let mut gates = Vec::new(alloc);
        for place in places {
            gates.push(self.gate(*place))?;
        }
        Ok(Places::of(gates))
    }

    /// The gates of the targets that the class of a side with this index has, among all its classes.
    #[tactic(auto, using(crate::proofs::LineList::class_within, crate::proofs::LineList::class_past))]
    fn class_gates(&self, alloc: Global, side: &Side, i: u64) -> Result<Places, NoMemory>
        requires { All (All (λ t. t < count self.now.layout.program)) side.now.classes }
        ensures { IfOk result (λ gates. gates ≡ map (slice_index self.now.layout.gates) (slice_index_or (all_classes side.now) i [])) }
    {
        if i < side.classes() {
            self.gates_of(alloc, side.class(i).as_slice())
        } else {
            Ok(Places::of(Vec::new(alloc)))
        }
    }

    /// Puts the lines of the classes of a side at the end, of which there are so many, with the first of these labels.
    fn push_side_lines(
        &self,
        alloc: Global,
        lines: &mut Vec<GraphLine>,
        side: &Side,
        labels: &[u32],
        many: u64,
    ) -> Result<(), NoMemory>
        requires places { All (All (λ t. t < count self.now.layout.program)) side.now.classes }
        requires many { many ≡ class_count side.now }
        requires enough { many ≤ length labels.now }
        ensures { OnOk result (lines.new.items ≡ lines.old.items
            ++ class_lines self.now.layout.gates labels.now (map (tag side.now.sort) (all_classes side.now))) }
    {
        for i in 0..many {
            let gates = self.class_gates(alloc, side, i)?;
            lines.push(GraphLine::Class(side.sort(), labels[i as usize], gates))?;
        }
        Ok(())
    }

    /// Puts the line of the list of system calls at the end, if there is one.
    fn push_calls(&self, lines: &mut Vec<GraphLine>) -> Result<(), NoMemory>
        ensures { OnOk result (lines.new.items ≡ lines.old.items ++ call_lines self.now.layout.closed.calls) }
    {
        if let Some(calls) = self.closed().calls() {
            lines.push(GraphLine::Calls(calls))?;
        }
        Ok(())
    }

    /// The line of the leaf that begins at a place, if one does.
    fn leaf_line(&self, k: u64) -> Option<GraphLine>
        requires place { k < count self.now.layout.program }
        requires lean { has_leaves self.now.layout.closed.version ≡ true }
        ensures { result ≡ leaf_line self.now.layout k }
    {
        let _count = self.count();
        let leads = self.leads();
        if leads.is_leaf(k) {
            let end = leads.leaf_end(k);
            Some(GraphLine::Leaf(self.word(k), self.gate(end)))
        } else {
            None
        }
    }

    /// Puts the lines of all leaves at the end where callees save the sites of calls.
    #[inline(never)]
    fn push_leaf_lines(&self, lines: &mut Vec<GraphLine>) -> Result<(), NoMemory>
        requires { has_leaves self.now.layout.closed.version ≡ true }
        ensures { OnOk result (lines.new.items ≡ lines.old.items ++ leaf_lines_from self.now.layout 0 (count self.now.layout.program)) }
    {
        for k in 0..self.count() {
            push_line(lines, self.leaf_line(k))?;
        }
        Ok(())
    }

    /// Puts the lines of all leaves at the end.
    fn push_leaves(&self, lines: &mut Vec<GraphLine>) -> Result<(), NoMemory>
        ensures { OnOk result (lines.new.items ≡ lines.old.items ++ leaf_lines_by self.now.layout.closed.version self.now.layout) }
    {
        match self.version() {
            GraphVersion::OneLabel | GraphVersion::TwoLabels => Ok(()),
            GraphVersion::CalleeSaves => self.push_leaf_lines(lines),
        }
    }

    /// The lines before those of addresses: that of system calls, if there is one, those of leaves, and those of all classes, side after
    /// side.
    fn head_lines(&self, alloc: Global) -> Result<Vec<GraphLine>, NoMemory>
        ensures { IfOk result (λ v. v.items ≡ head_lines self.now.layout self.now.labels) }
    {
        let _count = self.count();
        let sides = self.closed().sides();
        let mut lines = Vec::new(alloc);
        self.push_calls(&mut lines)?;
        self.push_leaves(&mut lines)?;
        for j in 0..sides.len() {
            let labels = self.labels_from(j);
            self.push_side_lines(alloc, &mut lines, &sides[j], labels, self.label_count(j))?;
        }
        Ok(lines)
    }

    /// The line of a place, if it has one, where each direct transfer leads to a gate.
    #[inline(always)]
    fn line(&self, k: u64) -> Option<GraphLine>
        requires { k < count self.now.layout.program }
        ensures { result ≡ line_of_kind (item_of self.now.layout.program k).kind (word self.now.layout k)
            (gate_to self.now.layout (item_of self.now.layout.program k).target) (site_label self.now.labels self.now.layout.closed.sides k) }
    {
        let at = self.word(k);
        match self.item(k).kind {
            ItemKind::Branch | ItemKind::Jump => Some(GraphLine::Edge(at, self.target(k))),
            ItemKind::Call => Some(GraphLine::Call(at, self.target(k))),
            ItemKind::Ijump => Some(GraphLine::Site(at, SiteKind::Jump, self.site_label(k))),
            ItemKind::Icall => Some(GraphLine::Site(at, SiteKind::Call, self.site_label(k))),
            ItemKind::Gate
            | ItemKind::Plain
            | ItemKind::Store
            | ItemKind::System
            | ItemKind::Return
            | ItemKind::End => None,
        }
    }

    /// Puts the lines of all places at the end where callers save the sites of calls.
    fn push_full_lines(&self, lines: &mut Vec<GraphLine>) -> Result<(), NoMemory>
        requires { has_leaves self.now.layout.closed.version ≡ false }
        ensures { OnOk result (lines.new.items ≡ lines.old.items ++ place_lines self.now.layout self.now.labels 0 self.now.layout.program.items) }
    {
        for k in 0..self.count() {
            push_line(lines, self.line(k))?;
        }
        Ok(())
    }

    /// The line of a place where callees do, if it has one.
    #[tactic(auto, using(crate::proofs::LineList::call_line, crate::proofs::LineList::other_line))]
    fn lean_line(&self, k: u64) -> Option<GraphLine>
        requires { k < count self.now.layout.program }
        ensures { result ≡ line_for self.now.layout self.now.labels k (item_of self.now.layout.program k) }
    {
        if is_call(self.item(k).kind) {
            Some(GraphLine::Call(self.word(k), self.callee(k)))
        } else {
            self.line(k)
        }
    }

    /// The line of the jump before the unit of a place over what saves a site, if one stands there.
    #[tactic(auto, using(crate::proofs::LineList::jump_line_is))]
    fn jump_line(&self, k: u64) -> Option<GraphLine>
        requires place { k < count self.now.layout.program }
        requires lean { has_leaves self.now.layout.closed.version ≡ true }
        ensures { result ≡ jump_line self.now.layout k }
    {
        if self.leads().enters(k) {
            Some(GraphLine::Edge(self.jump_at(k), self.word(k)))
        } else {
            None
        }
    }

    /// Puts the lines of all places at the end where callees save the sites of calls.
    #[inline(never)]
    fn push_lean_lines(&self, lines: &mut Vec<GraphLine>) -> Result<(), NoMemory>
        requires { has_leaves self.now.layout.closed.version ≡ true }
        ensures { OnOk result (lines.new.items ≡ lines.old.items ++ place_lines self.now.layout self.now.labels 0 self.now.layout.program.items) }
    {
        for k in 0..self.count() {
            push_line(lines, self.jump_line(k))?;
            push_line(lines, self.lean_line(k))?;
        }
        Ok(())
    }

    /// Puts the lines of all places at the end.
    fn push_place_lines(&self, lines: &mut Vec<GraphLine>) -> Result<(), NoMemory>
        ensures { OnOk result (lines.new.items ≡ lines.old.items ++ place_lines self.now.layout self.now.labels 0 self.now.layout.program.items) }
    {
        match self.version() {
            GraphVersion::OneLabel | GraphVersion::TwoLabels => self.push_full_lines(lines),
            GraphVersion::CalleeSaves => self.push_lean_lines(lines),
        }
    }

    /// The lines of the graph: those before those of addresses, the prologue's call of the entry, one for each transfer.
    pub fn lines(&self, alloc: Global) -> Result<GraphLines, NoMemory>
        ensures { IfOk result (λ lines. lines ≡ graph_lines self.now.layout self.now.labels) }
    {
        let mut lines = self.head_lines(alloc)?;
        lines.push(GraphLine::Call(START, self.entry_arrival()))?;
        self.push_place_lines(&mut lines)?;
        Ok(GraphLines::of(lines))
    }

    /// The graph of a code of this many bytes, where it may have these lines.
    pub fn graph(&self, alloc: Global, code: u32) -> Result<Graph, NoMemory>
        requires { IsGraph (record { version = self.now.layout.closed.version; code = code; lines = graph_lines self.now.layout self.now.labels }) }
        ensures { IfOk result (λ graph. graph ≡ record { version = self.now.layout.closed.version; code = code; lines = graph_lines self.now.layout self.now.labels }) }
    {
        let lines = self.lines(alloc)?;
        Graph::of(alloc, self.closed().version(), code, lines)
    }
}
