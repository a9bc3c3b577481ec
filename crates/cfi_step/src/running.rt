//! A run between two of its steps.

ghost use Rattle.std.specs.Prelude.{◌≡◌, ◌≤◌, ◌<◌, ◌+◌, ◌^◌, ◌++◌, ◌∷◌, [], ℕ, List, None, Some, length, map, max, min, slice_get, IfErr, IfOk, OnOk};
ghost use Rattle.std.specs.List.{All, AllByRecursion};
ghost use Rattle.rv_image.specs.MemoryMap.{Profile};
ghost use Rattle.rv_code.specs.Run.{IsDataChange, disturbed};
ghost use Rattle.rv_code.specs.State.{last_exit, start_hart, start_shared};
ghost use Rattle.rv_machine.specs.Harts.{harts_in, harts_share};
ghost use Rattle.cfi_script.specs.Plan.{IsQuietPlan, change_of, changes_of};
ghost use Rattle.cfi_script.specs.Turns.{turns_of};
ghost use Rattle.cfi_step.specs.Report.{stopping_hart};
ghost use Rattle.cfi_step.specs.Running.{IsPrepared, IsReady, IsStill, changes_in_plan};
ghost use Rattle.cfi_step.specs.Starts.{AreStartsOf};
ghost use Rattle.cfi_step.specs.Stretch.{IsStaying, OnStop, RunGoes, RunHalts};
ghost use Rattle.cfi_step.specs.Taken.{AreTurnsOf};
ghost use Rattle.cfi_step.specs.Trail.{IsTrailOf, TrailParts, told_of};

use crate::record::Record;
use crate::report::{RunEnd, RunReport, stopping_hart};
use crate::starts::Starts;
use crate::stretch::{Halt, take_steps};
use crate::trail::Trail;
use crate::turns::TakenTurns;
use crate::walks::HartWalks;
use cfi_script::Meddler;
use rv_image::Image;
use rv_machine::{Change, Machine};
use rv_word::NoMemory;
use std::alloc::Global;

/// A run so far: the machine, the changes that were made, the turns that were taken, and the walk of each hart.
#[derive(Drop)]
pub(crate) struct Running {
    machine: Machine,
    made: Record,
    taken: TakenTurns,
    /// Of the walks of all harts, by their numbers.
    trails: Vec<Trail>,
    /// No change comes before this number of steps is taken. It is no more than the run's limit.
    quiet: u64,
}

impl Running {
    /// Before the first step.
    pub(crate) fn new(
        alloc: Global,
        image: &Image,
        input: &[u8],
        harts: u8,
    ) -> Result<Running, NoMemory>
        requires { 1 ≤ harts }
        ensures count { IfOk result (λ r. length r.machine.resting ≡ harts) }
        ensures harts { IfOk result (λ r. harts_in r.machine ≡ start_hart) }
        ensures shared { IfOk result (λ r. harts_share r.machine ≡ start_shared image.now input.now) }
        ensures version { IfOk result (λ r. r.machine.processor.memory.version ≡ image.now.version) }
        ensures made { IfOk result (λ r. r.made ≡ []) }
        ensures taken { IfOk result (λ r. AreTurnsOf [] r.taken) }
        ensures last { IfOk result (λ r. r.taken.hart ≡ 0) }
        ensures since { IfOk result (λ r. r.taken.since ≡ 0) }
        ensures current { IfOk result (λ r. r.machine.current ≡ 0) }
        ensures each { IfOk result (λ r. length r.trails.items ≡ harts) }
        ensures empty { IfOk result (λ r. All (IsTrailOf []) r.trails.items) }
        ensures quiet { IfOk result (λ r. r.quiet ≡ 0) }
    {
        let trails = empty_trails(alloc, harts)?;
        let mut machine = Machine::new(alloc, image, input, harts)?;
        machine.select(0);
        Ok(Running {
            machine,
            made: Record::new(alloc),
            taken: TakenTurns::new(alloc),
            trails,
            quiet: 0,
        })
    }

    /// Makes one change, before the step with a number.
    fn make(&mut self, step: u64, change: Change) -> Result<(), NoMemory>
        ensures allowed { IsDataChange (change_of change) }
        ensures harts { OnOk result (harts_in self.new.machine ≡ harts_in self.old.machine) }
        ensures shared { OnOk result
            (harts_share self.new.machine ≡ disturbed (harts_share self.old.machine) (change_of change ∷ [])) }
        ensures made { OnOk result (self.new.made ≡ self.old.made ++ (step, change) ∷ []) }
        ensures count { length self.new.machine.resting ≡ length self.old.machine.resting }
        ensures version { self.new.machine.processor.memory.version ≡ self.old.machine.processor.memory.version }
        ensures taken { self.new.taken ≡ self.old.taken }
        ensures trails { self.new.trails ≡ self.old.trails }
    {
        self.machine.change(change)?;
        self.made.push(step, change)
    }

    /// Makes the changes that come before the step with a number.
    fn change(&mut self, step: u64, changes: &[Change]) -> Result<(), NoMemory>
        ensures allowed { OnOk result (AllByRecursion IsDataChange (changes_of changes.now)) }
        ensures harts { OnOk result (harts_in self.new.machine ≡ harts_in self.old.machine) }
        ensures shared { OnOk result
            (harts_share self.new.machine ≡ disturbed (harts_share self.old.machine) (changes_of changes.now)) }
        ensures made { OnOk result (self.new.made ≡ self.old.made ++ map (λ c. (step, c)) changes.now) }
        ensures count { OnOk result (length self.new.machine.resting ≡ length self.old.machine.resting) }
        ensures version { OnOk result (self.new.machine.processor.memory.version ≡ self.old.machine.processor.memory.version) }
        ensures taken { OnOk result (self.new.taken ≡ self.old.taken) }
        ensures trails { OnOk result (self.new.trails ≡ self.old.trails) }
    {
        for change in changes {
            self.make(step, *change)?;
        }
        Ok(())
    }

    /// Makes the changes that a meddler has before the step with a number, and asks it for how long none comes. It is not
    /// inlined, which keeps a step of another hart small.
    #[inline(never)]
    fn ask<M: Meddler>(
        &mut self,
        alloc: Global,
        meddler: &mut M,
        step: u64,
        limit: u64,
    ) -> Result<(), NoMemory>
        requires more { step < limit }
        ensures allowed { OnOk result (AllByRecursion IsDataChange (changes_of (changes_in_plan (M.plan meddler.old) step self.old.machine))) }
        ensures harts { OnOk result (harts_in self.new.machine ≡ harts_in self.old.machine) }
        ensures shared { OnOk result (harts_share self.new.machine ≡ disturbed (harts_share self.old.machine)
            (changes_of (changes_in_plan (M.plan meddler.old) step self.old.machine))) }
        ensures made { OnOk result (self.new.made ≡ self.old.made ++ map (λ c. (step, c)) (changes_in_plan (M.plan meddler.old) step self.old.machine)) }
        ensures count { OnOk result (length self.new.machine.resting ≡ length self.old.machine.resting) }
        ensures version { OnOk result (self.new.machine.processor.memory.version ≡ self.old.machine.processor.memory.version) }
        ensures taken { OnOk result (self.new.taken ≡ self.old.taken) }
        ensures trails { OnOk result (self.new.trails ≡ self.old.trails) }
        ensures later { OnOk result (step < self.new.quiet) }
        ensures most { OnOk result (self.new.quiet ≤ limit) }
        ensures still { OnOk result (IsQuietPlan (step + 1) self.new.quiet (M.plan meddler.old)) }
        ensures kept { meddler.new ≡ meddler.old }
    {
        let mut changes = Vec::new(alloc);
        meddler.meddle(alloc, step, &self.machine, &mut changes)?;
        self.change(step, &changes)?;
        self.quiet = greater(lesser(meddler.quiet_until(step + 1), limit), step + 1);
        Ok(())
    }

    /// Makes the changes that a meddler has before the step with a number, where it is not known that there are none.
    #[inline(always)]
    fn disturb<M: Meddler>(
        &mut self,
        alloc: Global,
        meddler: &mut M,
        step: u64,
        limit: u64,
    ) -> Result<(), NoMemory>
        requires more { step < limit }
        requires most { self.old.quiet ≤ limit }
        requires quiet { IsQuietPlan step self.old.quiet (M.plan meddler.old) }
        ensures allowed { OnOk result (AllByRecursion IsDataChange (changes_of (changes_in_plan (M.plan meddler.old) step self.old.machine))) }
        ensures harts { OnOk result (harts_in self.new.machine ≡ harts_in self.old.machine) }
        ensures shared { OnOk result (harts_share self.new.machine ≡ disturbed (harts_share self.old.machine)
            (changes_of (changes_in_plan (M.plan meddler.old) step self.old.machine))) }
        ensures made { OnOk result (self.new.made ≡ self.old.made ++ map (λ c. (step, c)) (changes_in_plan (M.plan meddler.old) step self.old.machine)) }
        ensures count { OnOk result (length self.new.machine.resting ≡ length self.old.machine.resting) }
        ensures version { OnOk result (self.new.machine.processor.memory.version ≡ self.old.machine.processor.memory.version) }
        ensures taken { OnOk result (self.new.taken ≡ self.old.taken) }
        ensures trails { OnOk result (self.new.trails ≡ self.old.trails) }
        ensures later { OnOk result (step < self.new.quiet) }
        ensures most { OnOk result (self.new.quiet ≤ limit) }
        ensures still { OnOk result (IsQuietPlan (step + 1) self.new.quiet (M.plan meddler.old)) }
        ensures kept { meddler.new ≡ meddler.old }
    {
        if step < self.quiet {
            return Ok(());
        }
        self.ask(alloc, meddler, step, limit)
    }

    /// Lets a hart take the step with a number.
    #[inline(always)]
    fn turn_to(&mut self, hart: u8, step: u64) -> Result<(), NoMemory>
        requires below { hart < length self.old.machine.resting }
        requires since { self.old.taken.since ≤ step }
        ensures hart { OnOk result (self.new.taken.hart ≡ hart) }
        ensures since { OnOk result (self.new.taken.since ≤ step) }
        ensures taken { OnOk result ((harts : List ℕ) → length harts ≡ step → AreTurnsOf harts self.old.taken → AreTurnsOf (harts ++ hart ∷ []) self.new.taken) }
        ensures current { self.new.machine.current ≡ hart }
        ensures harts { harts_in self.new.machine ≡ harts_in self.old.machine }
        ensures shared { harts_share self.new.machine ≡ harts_share self.old.machine }
        ensures count { length self.new.machine.resting ≡ length self.old.machine.resting }
        ensures version { self.new.machine.processor.memory.version ≡ self.old.machine.processor.memory.version }
        ensures made { self.new.made ≡ self.old.made }
        ensures quiet { self.new.quiet ≡ self.old.quiet }
        ensures trails { self.new.trails ≡ self.old.trails }
    {
        self.machine.select(hart);
        self.taken.take(hart, step)
    }

    /// Lets a meddler choose the hart of the step with a number, and makes the changes that it has before it. Tells up to which
    /// number of steps, no more than `limit`, it need not be asked again.
    #[inline(always)]
    pub(crate) fn choose<M: Meddler>(
        &mut self,
        alloc: Global,
        meddler: &mut M,
        step: u64,
        limit: u64,
    ) -> Result<u64, NoMemory>
        requires more { step < limit }
        requires most { self.old.quiet ≤ limit }
        requires ready { IsReady (M.plan meddler.old) step self.old }
        ensures prepared { OnOk result (IsPrepared (M.plan meddler.old) step self.old self.new) }
        ensures still { IfOk result (λ until. IsStill (step + 1) until (M.plan meddler.old) (length self.old.machine.resting) self.new.taken.hart) }
        ensures until { IfOk result (λ until. (step < until) × (until ≤ limit)) }
        ensures most { OnOk result (self.new.quiet ≤ limit) }
        ensures kept { meddler.new ≡ meddler.old }
    {
        let (hart, until) = meddler.turn(step, &self.machine);
        self.disturb(alloc, meddler, step, limit)?;
        self.turn_to(hart, step)?;
        Ok(lesser(self.quiet, until))
    }

    /// Lets the hart that is chosen take the steps from the one with the number `from` on, until so many are taken.
    #[inline(always)]
    pub(crate) fn go_on(&mut self, starts: &Starts, from: u64, until: u64) -> Result<(), Halt>
        requires more { from < until }
        requires going { last_exit (harts_share self.old.machine).events ≡ None }
        requires current { self.old.machine.current ≡ self.old.taken.hart }
        requires below { self.old.taken.hart < length self.old.machine.resting }
        requires each { length self.old.trails.items ≡ length self.old.machine.resting }
        requires room { (t : TrailParts) → slice_get self.old.trails.items self.old.taken.hart ≡ Some t → t.count ≤ from }
        requires stays { IsStaying (length starts.now) self.old.machine }
        requires known { (p : Profile) × (words : List ℕ) × AreStartsOf p words starts.now }
        ensures goes_on { OnOk result (RunGoes starts.now from until self.old self.new) }
        ensures stops { IfErr result (OnStop (RunHalts starts.now from until self.old self.new)) }
        ensures quiet { self.new.quiet ≡ self.old.quiet }
    {
        let hart = usize::from(self.taken.last());
        take_steps(
            &mut self.machine,
            &mut self.trails[hart],
            starts,
            from,
            until,
        )
    }

    /// The report, of a run that ended so after this many steps.
    pub(crate) fn into_report(
        self,
        alloc: Global,
        end: RunEnd,
        steps: u64,
    ) -> Result<RunReport, NoMemory>
        requires { self.taken.since ≤ steps }
        ensures end { IfOk result (λ report. report.end ≡ end) }
        ensures hart { IfOk result (λ report. (harts : List ℕ) → AreTurnsOf harts self.taken → report.hart ≡ stopping_hart end harts) }
        ensures steps { IfOk result (λ report. report.steps ≡ steps) }
        ensures turns { IfOk result (λ report. (harts : List ℕ) → length harts ≡ steps → AreTurnsOf harts self.taken → report.turns ≡ turns_of harts) }
        ensures output { IfOk result (λ report. report.output ≡ self.machine.processor.calls.output) }
        ensures events { IfOk result (λ report. report.events ≡ self.machine.processor.calls.events) }
        ensures made { IfOk result (λ report. report.made ≡ self.made) }
        ensures walks { IfOk result (λ report. report.walks ≡ map told_of self.trails.items) }
    {
        let walks = HartWalks::of(alloc, &self.trails)?;
        let hart = stopping_hart(end, self.taken.last());
        let turns = self.taken.into_turns(steps)?;
        let (output, events) = self.machine.into_results();
        Ok(RunReport {
            end,
            hart,
            steps,
            turns,
            output,
            events,
            made: self.made,
            walks,
        })
    }
}

/// Trails of so many walks without addresses.
fn empty_trails(alloc: Global, count: u8) -> Result<Vec<Trail>, NoMemory>
    ensures count { IfOk result (λ trails. length trails.items ≡ count) }
    ensures empty { IfOk result (λ trails. All (IsTrailOf []) trails.items) }
{
    let mut trails = Vec::new(alloc);
    for _ in 0..count {
        trails.push(Trail::new())?;
    }
    Ok(trails)
}

fn lesser(a: u64, b: u64) -> u64
    ensures { result ≡ min a b }
{
    if a < b { a } else { b }
}

fn greater(a: u64, b: u64) -> u64
    ensures { result ≡ max a b }
{
    if a < b { b } else { a }
}
