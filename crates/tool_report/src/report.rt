//! The text and the status of a run's report.

ghost use Rattle.std.specs.Prelude.{◌≡◌, ◌++◌, codes, IfOk, OnOk};
ghost use Rattle.rv_image.specs.declared.version.ImageVersion.TheVariants.{OneHart, EightHarts};
ghost use Rattle.text_lines.specs.Hex.{hex_text};
ghost use Rattle.tool_report.specs.ReportText.{end_status, handler_name, hart_walk_text, hart_walks_text, report_head, report_text, steps_line, stop_lines, trail_text, walk_lines, walk_text, walks_text};

use cfi_step::{Handler, HartWalk, RunEnd, RunReport};
use rv_image::ImageVersion;
use rv_word::NoMemory;
use std::alloc::Global;
use std::fmt;
use text_lines::{Address, LongAddress};
use tool_common::status;

/// The symbol of a handler.
fn handler_name(handler: Handler) -> &'static str
    ensures { result.now ≡ handler_name handler }
{
    match handler {
        Handler::BadTarget => "__cfi_bad_target",
        Handler::BadReturn => "__cfi_bad_return",
        Handler::Deep => "__cfi_deep",
    }
}

/// The end of a run as it is printed.
#[derive(Clone, Copy)]
struct Stop(RunEnd);

impl fmt::Display for Stop {
    ghost use Rattle.std.specs.Prelude.{Some};
    ghost use Rattle.tool_report.specs.ReportText.{end_text};

    ghost output = { λ stop. Some (end_text stop.0) };

    fn fmt<W: fmt::Write>(&self, f: &mut fmt::Formatter<W>) -> fmt::Result {
        match self.0 {
            RunEnd::Exit(status) => write!(f, "exit {status}"),
            RunEnd::Handler(handler) => {
                let name = handler_name(handler);
                write!(f, "handler {name}")
            }
            RunEnd::Break(pc) => {
                let pc = Address(pc);
                write!(f, "break {pc}")
            }
            RunEnd::LoadFault(pc, address) => {
                let pc = Address(pc);
                let address = LongAddress(address);
                write!(f, "load {pc} {address}")
            }
            RunEnd::Limit => write!(f, "limit"),
        }
    }
}

/// The end of a run of several harts as it is printed: the hart that stopped it, if one did, and how.
#[derive(Clone, Copy)]
struct HartStop(u8, RunEnd);

impl fmt::Display for HartStop {
    ghost use Rattle.std.specs.Prelude.{Some};
    ghost use Rattle.tool_report.specs.ReportText.{stop_text};

    ghost output = { λ stop. Some (stop_text stop.0 stop.1) };

    fn fmt<W: fmt::Write>(&self, f: &mut fmt::Formatter<W>) -> fmt::Result {
        let HartStop(hart, end) = *self;
        let stop = Stop(end);
        match end {
            RunEnd::Limit => write!(f, "{stop}"),
            RunEnd::Exit(_) | RunEnd::Handler(_) | RunEnd::Break(_) | RunEnd::LoadFault(..) => {
                write!(f, "hart {hart} {stop}")
            }
        }
    }
}

/// The status with which the program ends after a run that ended so.
pub fn end_status(end: RunEnd) -> u8
    ensures { result ≡ end_status end }
{
    match end {
        RunEnd::Exit(_) => status::WELL,
        RunEnd::Handler(_) => status::HANDLER,
        RunEnd::Break(_) | RunEnd::LoadFault(..) => status::BROKEN,
        RunEnd::Limit => status::STEP_LIMIT,
    }
}

/// What stands before the output.
fn push_head(alloc: Global, text: &mut Vec<u8>, report: &RunReport) -> Result<(), NoMemory>
    ensures { OnOk result (text.new.items ≡ text.old.items ++ report_head report.now) }
{
    let len = report.output.len();
    let head = format!(in alloc; "output {len}\n")?;
    text.extend_from_slice(head.as_bytes())?;
    Ok(())
}

/// How the run of an image for one hart stopped.
fn push_stop_of_one(alloc: Global, text: &mut Vec<u8>, report: &RunReport) -> Result<(), NoMemory>
    ensures { OnOk result (text.new.items ≡ text.old.items ++ stop_lines OneHart report.now) }
{
    let stop = Stop(report.end);
    let lines = format!(in alloc; "\nstop {stop}")?;
    text.extend_from_slice(lines.as_bytes())?;
    Ok(())
}

/// How many harts ran an image for several, and how the run stopped.
fn push_stop_of_several(
    alloc: Global,
    text: &mut Vec<u8>,
    report: &RunReport,
) -> Result<(), NoMemory>
    ensures { OnOk result (text.new.items ≡ text.old.items ++ stop_lines EightHarts report.now) }
{
    let harts = report.walks.len();
    let stop = HartStop(report.hart, report.end);
    let lines = format!(in alloc; "\nharts {harts}\nstop {stop}")?;
    text.extend_from_slice(lines.as_bytes())?;
    Ok(())
}

/// What stands after the output, up to the number of steps.
fn push_stop(
    alloc: Global,
    text: &mut Vec<u8>,
    version: ImageVersion,
    report: &RunReport,
) -> Result<(), NoMemory>
    ensures { OnOk result (text.new.items ≡ text.old.items ++ stop_lines version report.now) }
{
    match version {
        ImageVersion::OneHart => push_stop_of_one(alloc, text, report),
        ImageVersion::EightHarts => push_stop_of_several(alloc, text, report),
    }
}

fn push_steps(alloc: Global, text: &mut Vec<u8>, report: &RunReport) -> Result<(), NoMemory>
    ensures { OnOk result (text.new.items ≡ text.old.items ++ steps_line report.now) }
{
    let steps = report.steps;
    let line = format!(in alloc; "\nsteps {steps}\n")?;
    text.extend_from_slice(line.as_bytes())?;
    Ok(())
}

fn push_address(alloc: Global, text: &mut Vec<u8>, address: u64) -> Result<(), NoMemory>
    ensures { OnOk result (text.new.items ≡ text.old.items ++ (codes " " ++ hex_text 8 address)) }
{
    let address = Address(address);
    let part = format!(in alloc; " {address}")?;
    text.extend_from_slice(part.as_bytes())?;
    Ok(())
}

fn push_trail(alloc: Global, text: &mut Vec<u8>, trail: &[u64]) -> Result<(), NoMemory>
    ensures { OnOk result (text.new.items ≡ text.old.items ++ trail_text trail.now) }
{
    for address in trail {
        push_address(alloc, text, *address)?;
    }
    Ok(())
}

/// The walk of the one hart of an image of version 1.
fn push_walk(alloc: Global, text: &mut Vec<u8>, told: &HartWalk) -> Result<(), NoMemory>
    ensures { OnOk result (text.new.items ≡ text.old.items ++ walk_text told.now) }
{
    let walk = told.walk;
    let line = format!(in alloc; "walk {walk}\ntrail")?;
    text.extend_from_slice(line.as_bytes())?;
    push_trail(alloc, text, told.trail.as_slice())?;
    text.push(b'\n')?;
    Ok(())
}

/// The walk of the hart with this number.
fn push_hart_walk(
    alloc: Global,
    text: &mut Vec<u8>,
    hart: usize,
    told: &HartWalk,
) -> Result<(), NoMemory>
    ensures { OnOk result (text.new.items ≡ text.old.items ++ hart_walk_text hart told.now) }
{
    let walk = told.walk;
    let line = format!(in alloc; "walk {hart} {walk}\ntrail {hart}")?;
    text.extend_from_slice(line.as_bytes())?;
    push_trail(alloc, text, told.trail.as_slice())?;
    text.push(b'\n')?;
    Ok(())
}

fn push_plain_walks(alloc: Global, text: &mut Vec<u8>, walks: &[HartWalk]) -> Result<(), NoMemory>
    ensures { OnOk result (text.new.items ≡ text.old.items ++ walks_text walks.now) }
{
    for told in walks {
        push_walk(alloc, text, told)?;
    }
    Ok(())
}

/// The walks of harts, which have numbers from 0 on.
fn push_hart_walks(alloc: Global, text: &mut Vec<u8>, walks: &[HartWalk]) -> Result<(), NoMemory>
    ensures { OnOk result (text.new.items ≡ text.old.items ++ hart_walks_text 0 walks.now) }
{
    for (hart, told) in walks.iter().enumerate() {
        push_hart_walk(alloc, text, hart, told)?;
    }
    Ok(())
}

fn push_walks(
    alloc: Global,
    text: &mut Vec<u8>,
    version: ImageVersion,
    walks: &[HartWalk],
) -> Result<(), NoMemory>
    ensures { OnOk result (text.new.items ≡ text.old.items ++ walk_lines version walks.now) }
{
    match version {
        ImageVersion::OneHart => push_plain_walks(alloc, text, walks),
        ImageVersion::EightHarts => push_hart_walks(alloc, text, walks),
    }
}

/// The text of a report of a run of an image of a version.
pub fn report_text(
    alloc: Global,
    version: ImageVersion,
    report: &RunReport,
) -> Result<Vec<u8>, NoMemory>
    ensures { IfOk result (λ text. text.items ≡ report_text version report.now) }
{
    let mut text = Vec::new(alloc);
    push_head(alloc, &mut text, report)?;
    text.extend_from_slice(report.output.as_slice())?;
    push_stop(alloc, &mut text, version, report)?;
    push_steps(alloc, &mut text, report)?;
    push_walks(alloc, &mut text, version, report.walks.as_slice())?;
    Ok(text)
}
