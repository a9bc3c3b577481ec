//! How a run of a source machine ends, as text: the calls it made, its end or the reason against its next step, and its steps.
ghost use Rattle.std.specs.Prelude.{◌≡◌, ◌+◌, ◌≤◌, true, is_some, IfSome};
ghost use Rattle.rv_image.specs.Form.{graph_version};
ghost use Rattle.rv_image.specs.MemoryMap.{DATA_END, DATA_START};
ghost use Rattle.obj_program.specs.DataAtMap.{init_size};
ghost use Rattle.cfi_flow.specs.Policy.{instruction_at};

use cfi_closed::Closed;
use cfi_flow::{close, entry_place, raw_graph};
use cfi_map_text::{Map, read_map};
use cfi_policy::{Policy, read_policy};
use obj_program::Items;
use rv_image::Form;
use rv_word::End;
use src_machine::{Reason, SourceFault, SourceRun, SourceTurn};
use std::alloc::{AllocError, Global};

/// More steps than any program of the tests takes.
const LIMIT: u64 = 100_000;

/// What a program is run with, and what is to come of it.
#[derive(Clone, Copy)]
pub struct Asked<'a> {
    /// The name of the symbol where the program begins.
    pub entry: &'a [u8],
    /// The text of a policy. Empty: there is none.
    pub policy: &'a [u8],
    /// The text of a map.
    pub map: &'a [u8],
    /// What the program may read.
    pub input: &'a [u8],
    /// What it writes.
    pub output: &'a [u8],
    /// How it ends after how many steps, or why its run does not begin.
    pub told: &'a str,
}

/// The name of a reason.
fn name(reason: Reason) -> &'static str {
    match reason {
        Reason::Graph => "graph",
        Reason::Return => "return",
        Reason::Window => "window",
        Reason::Deep => "deep",
        Reason::End => "end",
        Reason::Call => "call",
    }
}

/// How a turn is told after some steps.
fn told_of_turn(alloc: Global, turn: SourceTurn, steps: u64) -> Option<String> {
    match turn {
        SourceTurn::Ran => None,
        SourceTurn::Exit(status) => format!(in alloc; "exit {status} after {steps}").ok(),
        SourceTurn::Break(section, offset) => {
            format!(in alloc; "break {section} {offset} after {steps}").ok()
        }
        SourceTurn::Untame(reason, section, offset) => {
            let reason = name(reason);
            format!(in alloc; "untame {reason} {section} {offset} after {steps}").ok()
        }
    }
}

/// Whether a turn is told so.
fn is_turn(alloc: Global, turn: SourceTurn, steps: u64, told: &str) -> bool {
    match told_of_turn(alloc, turn, steps) {
        Some(text) => text.as_str() == told,
        None => false,
    }
}

/// One step; none past the limit.
fn step(run: &mut SourceRun) -> Option<SourceTurn> {
    if run.steps() > LIMIT {
        return None;
    }
    run.step().ok()
}

/// How a run stops.
fn stop(run: &mut SourceRun) -> Option<SourceTurn> {
    for _ in 0..LIMIT {
        match step(run)? {
            SourceTurn::Ran => {}
            other => return Some(other),
        }
    }
    None
}

/// Whether a run stops as it is told, and so again when it is asked again.
fn stops_so(alloc: Global, run: &mut SourceRun, told: &str) -> bool {
    let Some(turn) = stop(run) else {
        return false;
    };
    is_turn(alloc, turn, run.steps(), told) && step(run) == Some(turn)
}

/// Whether a run writes these bytes and stops as it is told.
fn runs_so(alloc: Global, run: &mut SourceRun, output: &[u8], told: &str) -> bool {
    stops_so(alloc, run, told) && run.processor().system().output().as_slice() == output
}

/// Whether a text is this one.
fn is_text(text: Result<String, AllocError>, told: &str) -> bool {
    match text {
        Ok(text) => text.as_str() == told,
        Err(_) => false,
    }
}

/// Whether it is told why no run begins.
fn ends_so(alloc: Global, end: End<SourceFault>, told: &str) -> bool {
    match end {
        End::Fault(SourceFault::BadMap(number)) => is_text(
            format!(in alloc; "line {number}"),
            told,
        ),
        End::Fault(SourceFault::RelocRange(section, offset)) => {
            is_text(format!(in alloc; "range {section} {offset}"), told)
        }
        End::NoMemory => false,
    }
}

/// Whether initialised data have their place.
fn is_small(items: &Items) -> bool
    ensures { result ≡ true → DATA_START + init_size items.now ≤ DATA_END }
{
    items.data_extent().init <= 0x200_0000
}

/// Where the program's entry stands: the index of its section and its offset there.
fn entry(items: &Items, name: &[u8]) -> Option<(u32, u64)>
    ensures { IfSome result (λ spot. is_some (instruction_at items.now (spot.0, spot.1)) ≡ true) }
{
    let _place = entry_place(items, name)?;
    items.find(name)
}

/// Whether a program with its closed graph runs at a map as is asked.
fn is_told_at(alloc: Global, items: &Items, closed: &Closed, map: &Map, asked: &Asked<'_>) -> bool
    requires { closed.now.version ≡ graph_version map.now.form }
{
    let Some(entry) = entry(items, asked.entry) else {
        return false;
    };
    if !is_small(items) {
        return false;
    }
    match SourceRun::new(alloc, items, closed, map, entry, asked.input) {
        Ok(mut run) => {
            run.form() == map.form() && runs_so(alloc, &mut run, asked.output, asked.told)
        }
        Err(end) => ends_so(alloc, end, asked.told),
    }
}

/// The policy with a text; none where the text is empty.
fn policy_of(alloc: Global, text: &[u8]) -> Option<Policy> {
    if text.is_empty() {
        return Some(Policy::none(alloc));
    }
    read_policy(alloc, text).ok()
}

/// The closed graph of a program under a policy, for a form.
fn closed_of(alloc: Global, form: Form, items: &Items, policy: &Policy) -> Option<Closed>
    ensures { IfSome result (λ closed. closed.version ≡ graph_version form) }
{
    match raw_graph(alloc, items, policy) {
        Ok(raw) => close(alloc, form.graph_version(), &raw).ok(),
        Err(_) => None,
    }
}

/// Whether a program under a policy runs as is asked.
fn is_told_under(alloc: Global, items: &Items, policy: &Policy, asked: &Asked<'_>) -> bool {
    let Ok(map) = read_map(alloc, asked.map) else {
        return false;
    };
    match closed_of(alloc, map.form(), items, policy) {
        Some(closed) => is_told_at(alloc, items, &closed, &map, asked),
        None => false,
    }
}

/// Whether a program runs as is asked.
pub fn is_told(alloc: Global, items: &Items, asked: &Asked<'_>) -> bool {
    match policy_of(alloc, asked.policy) {
        Some(policy) => is_told_under(alloc, items, &policy, asked),
        None => false,
    }
}
