ghost use Rattle.std.specs.Prelude.{◌≡◌, ℕ, List, Some};
ghost use Rattle.cfi_step.specs.Report.{break_at, end_of, last_hart, stopping_hart};
ghost use Rattle.cfi_step.specs.declared.report.RunEnd.{RunEnd};

use crate::record::Record;
use crate::turns::Turns;
use crate::walks::HartWalks;
use cfi_unit::handlers::{BAD_RETURN, BAD_TARGET, DEEP};
use rv_code::Events;
use rv_machine::Turn;
use rv_word::{Bytes, Places};

/// A handler of the prologue.
#[derive(Clone, Copy, PartialEq, Eq)]
pub enum Handler {
    /// `__cfi_bad_target`: a computed transfer to no target of its class, a system call that is not listed, or a stop unit.
    BadTarget,
    /// `__cfi_bad_return`: a return to another place than its call's site.
    BadReturn,
    /// `__cfi_deep`: a call, or in lean images an enter, where the shadow stack is full.
    Deep,
}

/// How a run ended. Addresses are in bytes.
#[derive(Clone, Copy, PartialEq, Eq)]
pub enum RunEnd {
    /// The program ended itself with this status.
    Exit(u8),
    /// The run came to a handler.
    Handler(Handler),
    /// An EBREAK of the program's own at this pc.
    Break(u64),
    /// A load at this pc from this address left the regions that may be loaded.
    LoadFault(u64, u64),
    /// As many steps were taken as were asked for.
    Limit,
}

/// The walk of one hart in a run.
#[derive(Drop)]
pub struct HartWalk {
    /// How many addresses the walk has.
    pub walk: u64,
    /// The last addresses of the walk, sixteen at most.
    pub trail: Places,
}

/// What a run came to.
#[derive(Drop)]
pub struct RunReport {
    /// How the run ended.
    pub end: RunEnd,
    /// The hart whose step stopped the run; 0 where none did.
    pub hart: u8,
    /// How many steps all harts took, the one that stopped the run among them.
    pub steps: u64,
    /// The hart of each step, as turns.
    pub turns: Turns,
    /// The bytes that system calls wrote.
    pub output: Bytes,
    /// The system calls, oldest first.
    pub events: Events,
    /// The changes that were made.
    pub made: Record,
    /// The walk of each hart, by its number.
    pub walks: HartWalks,
}

fn break_at(pc: u64) -> RunEnd
    ensures { result ≡ break_at pc }
{
    match pc {
        BAD_TARGET => RunEnd::Handler(Handler::BadTarget),
        BAD_RETURN => RunEnd::Handler(Handler::BadReturn),
        DEEP => RunEnd::Handler(Handler::Deep),
        _ => RunEnd::Break(pc),
    }
}

/// The end of a run whose last step ended so.
pub(crate) fn end_of(turn: Turn) -> RunEnd
    requires { (end : RunEnd) × (end_of turn ≡ Some end) }
    ensures { end_of turn ≡ Some result }
{
    match turn {
        Turn::Ran => RunEnd::Limit,
        Turn::Exit(status) => RunEnd::Exit(status),
        Turn::Break(pc) => break_at(pc),
        Turn::LoadFault(pc, address) => RunEnd::LoadFault(pc, address),
        Turn::StoreFault(..) | Turn::FetchFault(_) | Turn::Illegal(_) => unreachable!(),
    }
}

/// The hart that stopped a run of this end, whose last step this hart took; 0 where none did.
pub(crate) fn stopping_hart(end: RunEnd, last: u8) -> u8
    ensures { (harts : List ℕ) → last ≡ last_hart harts → result ≡ stopping_hart end harts }
{
    match end {
        RunEnd::Limit => 0,
        RunEnd::Exit(_) | RunEnd::Handler(_) | RunEnd::Break(_) | RunEnd::LoadFault(..) => last,
    }
}
