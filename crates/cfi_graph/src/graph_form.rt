ghost use Rattle.cfi_graph.specs.Reading.{graph_rules};

use crate::fixed::first_line;
use crate::forms::line_of;
use crate::line::{GraphLine, Key};
use crate::rules::{in_order, line_in_range};
use rv_image::GraphVersion;
use rv_word::NoMemory;
use std::alloc::Global;
use text_lines::LineForm;

/// The form of a graph's lines: its version, the length of its code, the key of the line before, and the
/// lines so far.
#[derive(Drop)]
pub(crate) struct GraphForm {
    pub(crate) version: GraphVersion,
    pub(crate) code: u32,
    pub(crate) before: Option<Key>,
    pub(crate) lines: Vec<GraphLine>,
}

impl LineForm for GraphForm {
    type Line = GraphLine;

    type Before = Option<Key>;

    type Item = GraphLine;

    ghost rules = { λ form. graph_rules form.version form.code };

    ghost before = { λ form. form.before };

    ghost items = { λ form. form.lines.items };

    fn line_of(&self, alloc: Global, line: &[u8]) -> Result<Option<GraphLine>, NoMemory> {
        line_of(alloc, self.version, line)
    }

    #[inline(always)]
    fn first_line<'a>(&self, text: &'a [u8]) -> Option<(GraphLine, &'a [u8])> {
        first_line(text)
    }

    #[inline(always)]
    fn in_range(&self, line: &GraphLine) -> bool {
        line_in_range(self.code, line)
    }

    #[inline(always)]
    fn in_order(&self, line: &GraphLine) -> bool {
        in_order(self.before, line)
    }

    #[inline(always)]
    fn add(&mut self, line: GraphLine) -> Result<(), NoMemory> {
        let key = line.key();
        self.lines.reserve(1)?;
        self.lines.push_reserved(line);
        self.before = Some(key);
        Ok(())
    }
}
