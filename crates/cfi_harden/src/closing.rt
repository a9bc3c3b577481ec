//! A policy's text to a program's closed graph.

ghost use Rattle.std.specs.Prelude.{◌≡◌, Ok, option_copied};
ghost use Rattle.rv_image.specs.Form.{graph_version};
ghost use Rattle.text_lines.specs.Answers.{Answers, UnlessNoMemory};
ghost use Rattle.cfi_harden.specs.Closing.{Closes, failed_line};
ghost use Rattle.cfi_harden.specs.Request.{policy_asked, policy_end};

use cfi_closed::Closed;
use cfi_flow::{close, raw_graph};
use cfi_policy::{Policy, read_policy_part};
use obj_program::Items;
use refusals::Refusal;
use rv_image::Form;
use rv_word::End;
use std::alloc::Global;
use text_lines::LineFault;

/// The policy that a text spells before its first fault, and that fault; without a text there is neither.
fn policy_part(alloc: Global, policy: Option<&[u8]>) -> (Policy, Result<(), End<LineFault>>)
    ensures exact { Answers result.1 (policy_end (option_copied policy.entry)) }
    ensures read { UnlessNoMemory result.1 (result.0 ≡ policy_asked (option_copied policy.entry)) }
{
    match policy {
        Some(text) => read_policy_part(alloc, text),
        None => (Policy::none(alloc), Ok(())),
    }
}

/// The line at which the text of a policy fails, if it does.
fn failed_line(end: &Result<(), End<LineFault>>) -> Option<u64>
    ensures { result ≡ failed_line end.now }
{
    match end {
        Err(End::Fault(fault)) => Some(fault.0),
        _ => None,
    }
}

/// The closed graph of a program under a policy, if there is one, to be written in a form.
pub(crate) fn closed_under(
    alloc: Global,
    form: Form,
    items: &Items,
    policy: Option<&[u8]>,
) -> Result<Closed, End<Refusal>>
    ensures { Closes (graph_version form) items.now (option_copied policy.entry) result }
{
    let (policy, end) = policy_part(alloc, policy);
    if let Err(End::NoMemory) = end {
        return Err(End::NoMemory);
    }
    let raw = match raw_graph(alloc, items, &policy) {
        Ok(raw) => raw,
        Err(End::Fault(wrong)) => return Err(End::Fault(Refusal::Policy(wrong.number))),
        Err(End::NoMemory) => return Err(End::NoMemory),
    };
    if let Some(number) = failed_line(&end) {
        return Err(End::Fault(Refusal::Policy(number)));
    }
    Ok(close(alloc, form.graph_version(), &raw)?)
}
