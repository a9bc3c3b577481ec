//! What is told of a program's flow, as text: the taken places; each site by its kind and place, its targets and its
//! class; each class by its members; and the list of system calls. Places and classes are told by their indexes.
//! Of a program whose callees save sites it is told how many bytes the lead of each place has, and which places are in
//! leaves.

ghost use Rattle.std.specs.Prelude.{◌<◌};
ghost use Rattle.obj_program.specs.Program.{count};

use cfi_closed::Closed;
use cfi_flow::{Raw, RawSite, close, entry_place, raw_graph, used_labels};
use cfi_graph::SiteKind;
use cfi_leads::Leads;
use cfi_policy::{Policy, read_policy};
use obj_program::Items;
use rv_image::{Form, GraphVersion};
use rv_word::End;
use std::alloc::{AllocError, Global};
use std::fmt::Write;

/// Adds numbers, each behind a space.
fn add_numbers(text: &mut String, numbers: &[u64]) -> Result<(), AllocError> {
    for number in numbers {
        write!(text, " {number}")?;
    }
    Ok(())
}

/// Adds the taken places.
fn add_taken(text: &mut String, closed: &Closed) -> Result<(), AllocError> {
    text.push_str("taken")?;
    for place in 0..closed.places() {
        if closed.taken(place) {
            write!(text, " {place}")?;
        }
    }
    Ok(())
}

/// The name of a kind of site.
fn kind_name(kind: SiteKind) -> &'static str {
    match kind {
        SiteKind::Call => "call",
        SiteKind::Jump => "jump",
    }
}

/// Adds the class that a site has.
fn add_class(text: &mut String, class: Option<u64>) -> Result<(), AllocError> {
    match class {
        Some(class) => write!(text, " in {class}"),
        None => text.push_str(" in none"),
    }
}

/// Adds a site with its targets and its class.
fn add_site(
    text: &mut String,
    site: RawSite,
    targets: &[u64],
    class: Option<u64>,
) -> Result<(), AllocError> {
    let (kind, place) = (kind_name(site.kind), site.place);
    write!(text, ", {kind} {place} to")?;
    add_numbers(text, targets)?;
    add_class(text, class)
}

/// Adds the sites.
fn add_sites(alloc: Global, text: &mut String, raw: &Raw, closed: &Closed) -> Option<()> {
    for k in 0..raw.sites() {
        let site = raw.site(k);
        let class = closed.class_of(site.place);
        let targets = raw.targets(alloc, k).ok()?;
        add_site(text, site, targets.as_slice(), class).ok()?;
    }
    Some(())
}

/// Adds the classes.
fn add_classes(text: &mut String, closed: &Closed) -> Result<(), AllocError> {
    for k in 0..closed.classes() {
        write!(text, ", {k} has")?;
        add_numbers(text, closed.class(k).as_slice())?;
    }
    Ok(())
}

/// Adds the list of system calls, if there is one.
fn add_calls(text: &mut String, closed: &Closed) -> Result<(), AllocError> {
    if let Some(calls) = closed.calls() {
        text.push_str(", calls")?;
        for number in calls.as_slice() {
            write!(text, " {number}")?;
        }
    }
    Ok(())
}

/// What is told of a closed graph and the raw one that it is of.
fn told_of(alloc: Global, raw: &Raw, closed: &Closed) -> Option<String> {
    let mut text = String::new(alloc);
    add_taken(&mut text, closed).ok()?;
    add_sites(alloc, &mut text, raw, closed)?;
    add_classes(&mut text, closed).ok()?;
    add_calls(&mut text, closed).ok()?;
    Some(text)
}

/// What is told of the graph of a program with these sites, for a form.
fn told_of_raw(alloc: Global, form: Form, raw: &Raw) -> Option<String> {
    match close(alloc, form.graph_version(), raw) {
        Ok(closed) => told_of(alloc, raw, &closed),
        Err(_) => None,
    }
}

/// What is told of a program's flow under a policy: `Policy` and the number of its first wrong line, if one is wrong.
fn told_under(alloc: Global, form: Form, items: &Items, policy: &Policy) -> Option<String> {
    match raw_graph(alloc, items, policy) {
        Ok(raw) => told_of_raw(alloc, form, &raw),
        Err(End::Fault(wrong)) => {
            let line = wrong.number;
            format!(in alloc; "Policy {line}").ok()
        }
        Err(End::NoMemory) => None,
    }
}

/// The first line of a policy with these lines, of which the first may be a list of system calls.
fn first_line(lines: &str) -> &'static str {
    if lines.starts_with("calls ") {
        "rvcfi-policy 2\n"
    } else {
        "rvcfi-policy 1\n"
    }
}

/// The text of a policy with these lines, of which each two have a `;` between them.
fn policy_text(alloc: Global, lines: &str) -> Result<String, AllocError> {
    let mut text = String::from_str(alloc, first_line(lines))?;
    for line in lines.split(';') {
        writeln!(text, "{line}")?;
    }
    text.push_str("end\n")?;
    Ok(text)
}

/// The policy with these lines.
fn policy_of(alloc: Global, lines: &str) -> Option<Policy> {
    match policy_text(alloc, lines) {
        Ok(text) => read_policy(alloc, text.as_bytes()).ok(),
        Err(_) => None,
    }
}

/// What is told of a program's flow under the policy with these lines.
fn told_under_lines(alloc: Global, form: Form, items: &Items, lines: &str) -> Option<String> {
    let policy = policy_of(alloc, lines)?;
    told_under(alloc, form, items, &policy)
}

/// What is told of a place, if there is one.
fn told_of_place(alloc: Global, place: Option<u64>) -> Option<String> {
    match place {
        Some(place) => place.to_string(alloc).ok(),
        None => String::from_str(alloc, "none").ok(),
    }
}

/// What is told of the labels that a program has.
fn told_of_labels(alloc: Global, items: &Items) -> Option<String> {
    let mut text = String::from_str(alloc, "labels").ok()?;
    for label in &used_labels(alloc, items).ok()? {
        write!(text, " {label}").ok()?;
    }
    Some(text)
}

/// Adds how many bytes the leads of the places have.
fn add_leads(text: &mut String, leads: &Leads) -> Result<(), AllocError> {
    text.push_str("leads")?;
    for place in 0..leads.count() {
        let size = leads.size(place);
        write!(text, " {size}")?;
    }
    Ok(())
}

/// Whether a place is in a leaf.
fn in_leaf(leads: &Leads, place: u64) -> bool
    requires { place < count leads.now.program }
{
    match leads.closed().version() {
        GraphVersion::OneLabel | GraphVersion::TwoLabels => false,
        GraphVersion::CalleeSaves => leads.in_leaf(place),
    }
}

/// Adds the places that are in leaves.
fn add_leaves(text: &mut String, leads: &Leads) -> Result<(), AllocError> {
    text.push_str(", leaves")?;
    for place in 0..leads.count() {
        if in_leaf(leads, place) {
            write!(text, " {place}")?;
        }
    }
    Ok(())
}

/// What is told of the leads of a program that is entered at a place, where callees save sites.
fn told_of_leads(alloc: Global, items: &Items, policy: &Policy, entry: u64) -> Option<String> {
    let raw = raw_graph(alloc, items, policy).ok()?;
    let closed = close(alloc, GraphVersion::CalleeSaves, &raw).ok()?;
    let leads = Leads::of(alloc, items, &closed, entry).ok()?;
    let mut text = String::new(alloc);
    add_leads(&mut text, &leads).ok()?;
    add_leaves(&mut text, &leads).ok()?;
    Some(text)
}

/// The same of a program that is entered at the symbol with a name, under the policy with the lines behind a `;`, if there are any.
fn told_of_entered(alloc: Global, items: &Items, asked: &str) -> Option<String> {
    let (name, policy) = match asked.split_once(';') {
        Some((name, lines)) => (name, policy_of(alloc, lines)?),
        None => (asked, Policy::none(alloc)),
    };
    let entry = entry_place(items, name.as_bytes())?;
    told_of_leads(alloc, items, &policy, entry)
}

/// What is told of a program, for a form, when this is asked.
pub(crate) fn told(alloc: Global, form: Form, items: &Items, asked: &str) -> Option<String> {
    match asked.split_once(' ') {
        Some(("enter", name)) => told_of_place(alloc, entry_place(items, name.as_bytes())),
        Some(("leads", asked)) => told_of_entered(alloc, items, asked),
        Some(_) => told_under_lines(alloc, form, items, asked),
        None if asked == "labels" => told_of_labels(alloc, items),
        None => told_under(alloc, form, items, &Policy::none(alloc)),
    }
}
