ghost use Rattle.std.specs.Prelude.{◌≡◌, ◌++◌, ◌==◌, ◌≤◌, ◌<◌, List, [], get_or, length, map, true, OnOk, OnErr, IfOk};
ghost use Rattle.std.specs.List.{All, filter};
ghost use Rattle.cfi_script.specs.Script.{IsScript, hart_below, script_plan};
ghost use Rattle.cfi_script.specs.Quiet.{IsQuiet};

use crate::cursor::{Cursor, at_first, turn_to};
use crate::meddler::Meddler;
use rv_machine::{Change, Machine};
use rv_word::NoMemory;
use std::alloc::Global;
use std::marker::Model;

/// How many harts run, the turns in which they step, and changes of data bytes, each with the number of steps of all harts
/// that are taken before it. These numbers do not fall.
#[derive(Drop)]
pub struct Script {
    harts: u8,
    turns: Vec<(u8, u64)>,
    changes: Vec<(u64, Change)>,
    /// The turn that was asked for last.
    cursor: Cursor,
    /// No change comes after so many steps or more, up to `next`.
    from: u64,
    next: u64,
}

impl Model for Script {
    ghost use Rattle.cfi_script.specs.Script.{IsScript, ScriptParts};
    ghost use Rattle.cfi_script.specs.Quiet.{IsQuiet};
    ghost use Rattle.cfi_script.specs.TurnPlace.{IsTurnAt};

    ghost Value = { ScriptParts };

    ghost view = { λ s. record { harts = s.harts; turns = s.turns.items; changes = s.changes.items } };

    ghost invariant = { λ s. (IsScript s.changes.items) × (IsQuiet s.from s.next s.changes.items)
        × (IsTurnAt s.turns.items s.cursor.index s.cursor.before s.cursor.end) };
}

impl Script {
    /// The script for one hart, without changes. It takes no memory.
    pub fn none(alloc: Global) -> Self
        ensures { result ≡ record { harts = 1; turns = []; changes = [] } }
    {
        Script::with(1, Vec::new(alloc), Vec::new(alloc))
    }

    /// The script of these parts.
    pub(crate) fn with(harts: u8, turns: Vec<(u8, u64)>, changes: Vec<(u64, Change)>) -> Self
        requires { IsScript changes.items }
        ensures { result ≡ record { harts = harts; turns = turns.items; changes = changes.items } }
    {
        let cursor = at_first(&turns);
        Script {
            harts,
            turns,
            changes,
            cursor,
            from: 0,
            next: 0,
        }
    }

    /// The script of so many harts, their turns and just these changes. Each turn is a hart, and how many steps it
    /// takes; hart 0 steps where the turn is of one that a machine has not, and after the last turn.
    pub fn of(
        alloc: Global,
        harts: u8,
        turns: &[(u8, u64)],
        changes: &[(u64, Change)],
    ) -> Result<Self, NoMemory>
        requires { IsScript changes.now }
        ensures { IfOk result (λ s. s ≡ record { harts = harts; turns = turns.now; changes = changes.now }) }
    {
        let turns = Vec::from_slice(alloc, turns)?;
        let changes = Vec::from_slice(alloc, changes)?;
        Ok(Script::with(harts, turns, changes))
    }

    /// How many harts it is for.
    pub fn harts(&self) -> u8
        ensures { result ≡ self.now.harts }
    {
        self.harts
    }

    /// Its turns: a hart, and how many steps it takes.
    pub fn turns(&self) -> &[(u8, u64)]
        ensures { result.now ≡ self.now.turns }
    {
        self.turns.as_slice()
    }

    /// The changes, each with its number of steps.
    pub fn as_slice(&self) -> &[(u64, Change)]
        ensures value { result.now ≡ self.now.changes }
        ensures ordered { IsScript self.now.changes }
    {
        self.changes.as_slice()
    }
}

/// Appends the first changes, which come after `step` steps; a refusal leaves `into` as it was.
fn append(into: &mut Vec<Change>, step: u64, changes: &[(u64, Change)]) -> Result<(), NoMemory>
    requires ordered { IsScript changes.now }
    requires from { All (λ c. step ≤ c.0) changes.now }
    ensures appended { OnOk result
        (into.new.items ≡ into.old.items ++ map (λ c. c.1) (filter (λ c. c.0 == step) changes.now)) }
    ensures refused { OnErr result (into.new.items ≡ into.old.items) }
{
    let len = into.len();
    for (at, change) in changes {
        if *at != step {
            break;
        }
        if into.push(*change).is_err() {
            into.truncate(len);
            return Err(NoMemory);
        }
    }
    Ok(())
}

/// The changes from the first on that comes after `step` steps or more.
fn from_step(changes: &[(u64, Change)], step: u64) -> &[(u64, Change)]
    requires { IsScript changes.now }
    ensures ordered { IsScript result.now }
    ensures from { All (λ c. step ≤ c.0) result.now }
    ensures same { filter (λ c. c.0 == step) result.now ≡ filter (λ c. c.0 == step) changes.now }
{
    let start = changes.partition_point(|c| c.0 < step);
    &changes[start..]
}

/// How many steps are taken before the change at a place.
fn step_at(changes: &[(u64, Change)], place: usize) -> u64
    requires { place < length changes.now }
    ensures { result ≡ (get_or changes.now place (0, (0, 0))).0 }
{
    changes[place].0
}

/// The number of steps before the first change that comes after `from` steps or more; the greatest number where
/// there is none.
fn next_from(changes: &[(u64, Change)], from: u64) -> u64
    requires { IsScript changes.now }
    ensures { IsQuiet from result changes.now }
{
    let place = changes.partition_point(|c| c.0 < from);
    if place < changes.len() {
        step_at(changes, place)
    } else {
        u64::MAX
    }
}

/// A machine's hart with a number; hart 0 where it has none with it.
fn hart_of(seen: &Machine, hart: u8) -> u8
    ensures hart { result ≡ hart_below (length seen.now.resting) hart }
    ensures below { result < length seen.now.resting }
{
    if hart < seen.harts() { hart } else { 0 }
}

impl Meddler for Script {
    ghost use Rattle.cfi_script.specs.Script.{script_plan};

    ghost plan = { λ s. script_plan s };

    fn hart(&mut self, step: u64, seen: &Machine) -> u8 {
        let (hart, _) = turn_to(self.turns.as_slice(), &mut self.cursor, step);
        hart_of(seen, hart)
    }

    fn turn(&mut self, step: u64, seen: &Machine) -> (u8, u64) {
        let (hart, until) = turn_to(self.turns.as_slice(), &mut self.cursor, step);
        (hart_of(seen, hart), until)
    }

    fn quiet_until(&self, step: u64) -> u64 {
        if self.from <= step { self.next } else { step }
    }

    fn meddle(
        &mut self,
        _alloc: Global,
        step: u64,
        _seen: &Machine,
        into: &mut Vec<Change>,
    ) -> Result<(), NoMemory> {
        let changes = self.changes.as_slice();
        append(into, step, from_step(changes, step))?;
        let from = step.saturating_add(1);
        self.next = next_from(changes, from);
        self.from = from;
        Ok(())
    }
}
