//! What a comparison looks at: a system call, or an end.

ghost use Rattle.std.specs.Prelude.{◌≡◌, IfOk, Some, None, option_map, slice_get};
ghost use Rattle.cfi_meaning.specs.Compared.{image_end, same_bytes, same_event};
ghost use Rattle.cfi_compare.specs.Followed.{end_told, item_or, same_side};
ghost use Rattle.cfi_compare.specs.Told.{told_item};

use crate::call_text::CallText;
use rv_code::Events;
use rv_image::profile::START;
use rv_machine::Turn;
use rv_sys::Event;
use rv_word::{Bytes, NoMemory};
use src_machine::SourceTurn;
use std::alloc::Global;
use std::fmt;

/// What stands at an index of a run's list: a system call, or how the run ended.
#[derive(Drop)]
pub enum SideItem {
    /// A system call.
    Event(Event),
    /// The program ended itself with this status.
    Exit(u8),
    /// An EBREAK of the program's own.
    Break,
    /// Any other stop, in a handler among them.
    Stop,
    /// The list has no more items, and its run has not ended.
    Running,
}

impl fmt::Display for SideItem {
    ghost use Rattle.std.specs.Prelude.{Some};
    ghost use Rattle.cfi_compare.specs.Text.{item_text};

    ghost output = { λ item. Some (item_text item) };

    fn fmt<W: fmt::Write>(&self, f: &mut fmt::Formatter<W>) -> fmt::Result {
        match self {
            SideItem::Event(event) => {
                let call = CallText(event);
                write!(f, "{call}")
            }
            SideItem::Exit(status) => write!(f, "exit {status}"),
            SideItem::Break => write!(f, "break"),
            SideItem::Stop => write!(f, "stop"),
            SideItem::Running => write!(f, "running"),
        }
    }
}

/// Whether two lists of bytes are the same.
fn same_bytes(xs: &[u8], ys: &[u8]) -> bool
    ensures { result ≡ same_bytes xs.now ys.now }
{
    xs == ys
}

/// Whether two system calls are the same.
pub(crate) fn same_event(e: &Event, f: &Event) -> bool
    ensures { result ≡ same_event e.now f.now }
{
    e.number == f.number
        && e.a0 == f.a0
        && e.a1 == f.a1
        && e.a2 == f.a2
        && e.a3 == f.a3
        && e.a4 == f.a4
        && e.a5 == f.a5
        && same_bytes(e.bytes.as_slice(), f.bytes.as_slice())
        && e.answer == f.answer
}

/// Whether two items are the same.
pub(crate) fn same_item(x: &SideItem, y: &SideItem) -> bool
    ensures { result ≡ same_side x.now y.now }
{
    match (x, y) {
        (SideItem::Event(e), SideItem::Event(f)) => same_event(e, f),
        (SideItem::Exit(s), SideItem::Exit(t)) => s == t,
        (SideItem::Break, SideItem::Break) => true,
        (SideItem::Stop, SideItem::Stop) => true,
        (SideItem::Running, SideItem::Running) => true,
        _ => false,
    }
}

/// A copy of a system call.
fn copied(alloc: Global, event: &Event) -> Result<Event, NoMemory>
    ensures { IfOk result (λ copy. copy ≡ event.now) }
{
    let bytes = Vec::from_slice(alloc, event.bytes.as_slice())?;
    Ok(Event {
        number: event.number,
        a0: event.a0,
        a1: event.a1,
        a2: event.a2,
        a3: event.a3,
        a4: event.a4,
        a5: event.a5,
        bytes: Bytes::of(bytes),
        answer: event.answer,
    })
}

/// The system call at an index, or past the last one the end of the run.
pub(crate) fn item_at(
    alloc: Global,
    events: &Events,
    index: usize,
    end: Option<SideItem>,
) -> Result<Option<SideItem>, NoMemory>
    ensures { IfOk result (λ item. item ≡ item_or (slice_get events.now index) end) }
{
    match events.as_slice().get(index) {
        Some(event) => Ok(Some(SideItem::Event(copied(alloc, event)?))),
        None => Ok(end),
    }
}

/// The end of a program's run whose last step ended so, if it has ended.
pub(crate) fn source_end(turn: SourceTurn) -> Option<SideItem>
    ensures { result ≡ end_told turn }
{
    match turn {
        SourceTurn::Exit(status) => Some(SideItem::Exit(status)),
        SourceTurn::Break(_, _) => Some(SideItem::Break),
        SourceTurn::Ran | SourceTurn::Untame(_, _, _) => None,
    }
}

/// The end of an image's run whose last step ended so, if it has ended. A break in a handler is no program's.
pub(crate) fn image_end(turn: Turn) -> Option<SideItem>
    ensures { result ≡ option_map told_item (slice_get (image_end turn) 0) }
{
    match turn {
        Turn::Ran => None,
        Turn::Exit(status) => Some(SideItem::Exit(status)),
        Turn::Break(pc) if pc >= START => Some(SideItem::Break),
        _ => Some(SideItem::Stop),
    }
}
