ghost use Rattle.std.specs.Prelude.{◌≡◌, ◌<◌, ◌≤◌, ◌+◌, ◌^◌, IfOk, OnErr, length};
ghost use Rattle.rv_image.specs.Form.{graph_version, profile_for};
ghost use Rattle.rv_machine.specs.Parts.{shared_in};
ghost use Rattle.src_machine.specs.Running.{IsStep, IsUnchanged, counted};

use crate::placed::Placed;
use crate::state::State;
use crate::step::step;
use crate::turn::SourceTurn;
use rv_image::Form;
use rv_machine::Processor;
use rv_word::NoMemory;
use std::marker::Model;

/// A run of a program at a legal map, as the standard says its instructions run.
#[derive(Drop)]
pub struct SourceRun<'a, 'b> {
    pub(crate) placed: Placed<'a, 'b>,
    pub(crate) state: State,
    pub(crate) steps: u64,
}

impl<'a, 'b> Model for SourceRun<'a, 'b> {
    ghost use Rattle.std.specs.Prelude.{◌≡◌};
    ghost use Rattle.rv_image.specs.MemoryMap.{profile_of};
    ghost use Rattle.rv_code.specs.SameMachine.{IsSameMachine};
    ghost use Rattle.obj_program.specs.Program.{count};
    ghost use Rattle.src_machine.specs.Running.{SourceParts};
    ghost use Rattle.src_machine.specs.State.{IsInside, source_in};

    ghost Value = { SourceParts };

    ghost view = { λ r. record { layout = r.placed; state = r.state; steps = r.steps } };

    // It stands at places, and its memory is of the version of its map's form.
    ghost invariant = { λ r. IsInside (count r.placed.program) (source_in r.state) × IsSameMachine (profile_of r.state.processor.memory.version) r.placed.profile };
}

/// How many steps are taken after one that ended so.
fn counted(turn: SourceTurn, steps: u64) -> u64
    requires { steps + 1 < 2 ^ 64 }
    ensures { result ≡ counted turn steps }
{
    match turn {
        SourceTurn::Untame(_, _, _) => steps,
        SourceTurn::Ran | SourceTurn::Exit(_) | SourceTurn::Break(_, _) => steps + 1,
    }
}

impl<'a, 'b> SourceRun<'a, 'b> {
    /// How many sides its closed graph has. By this and by the form of its map a comparison has its bound.
    pub fn sides(&self) -> u64
        ensures value { result ≡ length self.now.layout.closed.sides }
        ensures few { result ≤ 2 }
    {
        self.placed.sides()
    }

    /// The form of its map: the only one for images of its profile and for graphs of its closed graph's version.
    pub fn form(&self) -> Form
        ensures profile { self.now.layout.profile ≡ profile_for result }
        ensures version { self.now.layout.closed.version ≡ graph_version result }
    {
        self.placed.form()
    }

    /// How many steps were taken: those that were not untame.
    pub fn steps(&self) -> u64
        ensures { result ≡ self.now.steps }
    {
        self.steps
    }

    /// The processor on which its instructions run: its registers, its memory and its system calls are the run's.
    pub fn processor(&self) -> &Processor
        ensures { result.now ≡ self.now.state.processor }
    {
        self.state.processor()
    }

    /// One step, or the first reason against it, which leaves the run as it was. After an exit each step answers it again.
    /// A refusal leaves all as it was.
    pub fn step(&mut self) -> Result<SourceTurn, NoMemory>
        requires { self.old.steps + 1 < 2 ^ 64 }
        ensures stepped { IfOk result (λ turn. IsStep self.old turn self.new) }
        ensures refused { OnErr result (IsUnchanged self.old self.new) }
    {
        let turn = step(&self.placed, &mut self.state)?;
        self.steps = counted(turn, self.steps);
        Ok(turn)
    }
}
