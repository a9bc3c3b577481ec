ghost use Rattle.std.specs.Prelude.{◌≡◌, ◌<◌, ◌+◌, ◌^◌, false, ℕ, IfOk, OnErr, unwrap_or};
ghost use Rattle.std.specs.List.{All};
ghost use Rattle.rv_image.specs.MemoryMap.{profile_of};
ghost use Rattle.rv_code.specs.SameMachine.{IsSameMachine};
ghost use Rattle.obj_program.specs.Program.{Program, count, is_end, item_of};
ghost use Rattle.src_machine.specs.State.{IsInside, Leaves, source_in};
ghost use Rattle.cfi_map.specs.SourceStep.{acts, branches, calls, executes, goes_to, source_step, step_at, step_item, turn_at};
ghost use Rattle.src_machine.specs.Told.{told};

use crate::placed::Placed;
use crate::state::State;
use crate::tame::{computed_place, reason};
use crate::turn::SourceTurn;
use cfi_map::Reason;
use obj_input::ItemKind;
use obj_program::Item;
use rv_instr::Instr;
use rv_machine::{Turn, branches};
use rv_word::NoMemory;

/// How the end of an instruction of the hart at a place is told.
fn told(item: &Item, turn: Turn) -> SourceTurn
    ensures { (program : Program) (k : ℕ) → item_of program k ≡ item.now → result ≡ told program (turn_at k turn) }
{
    match turn {
        Turn::Ran => SourceTurn::Ran,
        Turn::Exit(status) => SourceTurn::Exit(status),
        Turn::Break(_) => SourceTurn::Break(item.section, item.offset),
        Turn::LoadFault(_, _) | Turn::StoreFault(_, _) | Turn::FetchFault(_) | Turn::Illegal(_) => {
            untame(Reason::Window, item)
        }
    }
}

/// A reason against the step at a place.
fn untame(because: Reason, item: &Item) -> SourceTurn
    ensures { result ≡ SourceTurn.Untame because item.now.section item.now.offset }
{
    SourceTurn::Untame(because, item.section, item.offset)
}

/// The place after a branch.
fn branch_place(k: u64, instr: &Instr, target: u64, state: &State) -> u64
    requires { k < 2 ^ 62 }
    ensures { branches k instr.now target (source_in state.now) ≡ goes_to (source_in state.now) (Some result) }
{
    match *instr {
        Instr::Branch(op, rs1, rs2, _) if branches(op, state.reg(rs1), state.reg(rs2)) => target,
        _ => k + 1,
    }
}

/// Calls a place from the place `k`.
fn call(placed: &Placed, k: u64, target: u64, state: &mut State) -> Result<SourceTurn, NoMemory>
    requires { k + 1 < count placed.now.program }
    ensures called { IfOk result (λ turn. Leaves placed.now.program (calls placed.now k target (source_in state.old)) turn state.new) }
    ensures refused { OnErr result (source_in state.new ≡ source_in state.old) }
    ensures version { state.new.processor.memory.version ≡ state.old.processor.memory.version }
{
    let _count = placed.count();
    let next = k + 1;
    state.call(target, next, placed.gate(next))?;
    Ok(SourceTurn::Ran)
}

/// Executes the instruction of the place `k` as the hart does.
fn execute(
    placed: &Placed,
    k: u64,
    item: &Item,
    instr: &Instr,
    state: &mut State,
) -> Result<SourceTurn, NoMemory>
    requires place { k < count placed.now.program }
    requires item { item.now ≡ item_of placed.now.program k }
    requires version { IsSameMachine (profile_of state.old.processor.memory.version) placed.now.profile }
    ensures executed { IfOk result (λ turn. Leaves placed.now.program (executes placed.now k instr.now (source_in state.old)) turn state.new) }
    ensures refused { OnErr result (source_in state.new ≡ source_in state.old) }
    ensures version { state.new.processor.memory.version ≡ state.old.processor.memory.version }
{
    let _count = placed.count();
    let turn = state.execute(k, placed.word(k), instr)?;
    Ok(told(item, turn))
}

/// Does what the instruction of the place `k` does.
fn act(
    placed: &Placed,
    k: u64,
    item: &Item,
    instr: &Instr,
    state: &mut State,
) -> Result<SourceTurn, NoMemory>
    requires place { k + 1 < count placed.now.program }
    requires item { item.now ≡ item_of placed.now.program k }
    requires version { IsSameMachine (profile_of state.old.processor.memory.version) placed.now.profile }
    ensures acted { IfOk result (λ turn. Leaves placed.now.program (acts placed.now k item.now.kind instr.now (unwrap_or item.now.target 0) (source_in state.old)) turn state.new) }
    ensures refused { OnErr result (source_in state.new ≡ source_in state.old) }
    ensures version { state.new.processor.memory.version ≡ state.old.processor.memory.version }
{
    let _count = placed.count();
    let target = item.target.unwrap_or(0);
    match item.kind {
        ItemKind::Branch => {
            let place = branch_place(k, instr, target, state);
            state.go(Some(place));
            Ok(SourceTurn::Ran)
        }
        ItemKind::Jump => {
            state.go(Some(target));
            Ok(SourceTurn::Ran)
        }
        ItemKind::Call => call(placed, k, target, state),
        ItemKind::Return => {
            state.come_back();
            Ok(SourceTurn::Ran)
        }
        ItemKind::Ijump => {
            let place = computed_place(placed, k, instr, state);
            state.go(place);
            Ok(SourceTurn::Ran)
        }
        ItemKind::Icall => {
            let place = computed_place(placed, k, instr, state).unwrap_or(0);
            call(placed, k, place, state)
        }
        ItemKind::Gate | ItemKind::Plain | ItemKind::Store | ItemKind::System | ItemKind::End =>
            execute(placed, k, item, instr, state),
    }
}

/// The step at the place `k`, where an instruction stands.
fn step_instr(
    placed: &Placed,
    k: u64,
    item: &Item,
    state: &mut State,
) -> Result<SourceTurn, NoMemory>
    requires place { k < count placed.now.program }
    requires item { item.now ≡ item_of placed.now.program k }
    requires instruction { is_end item.now.kind ≡ false }
    requires pending { All (λ j. j < count placed.now.program) state.old.pending }
    requires version { IsSameMachine (profile_of state.old.processor.memory.version) placed.now.profile }
    ensures stepped { IfOk result (λ turn. Leaves placed.now.program (step_item placed.now k item.now (source_in state.old)) turn state.new) }
    ensures refused { OnErr result (source_in state.new ≡ source_in state.old) }
    ensures version { state.new.processor.memory.version ≡ state.old.processor.memory.version }
{
    let _count = placed.count();
    let instr = placed.instr(k);
    match reason(placed, k, item.kind, &instr, state) {
        Some(because) => Ok(untame(because, item)),
        None => act(placed, k, item, &instr, state),
    }
}

/// The step at the place `k`.
fn step_place(placed: &Placed, k: u64, state: &mut State) -> Result<SourceTurn, NoMemory>
    requires place { k < count placed.now.program }
    requires pending { All (λ j. j < count placed.now.program) state.old.pending }
    requires version { IsSameMachine (profile_of state.old.processor.memory.version) placed.now.profile }
    ensures stepped { IfOk result (λ turn. Leaves placed.now.program (step_item placed.now k (item_of placed.now.program k) (source_in state.old)) turn state.new) }
    ensures refused { OnErr result (source_in state.new ≡ source_in state.old) }
    ensures version { state.new.processor.memory.version ≡ state.old.processor.memory.version }
{
    let item = placed.item(k);
    if item.kind == ItemKind::End {
        Ok(untame(Reason::End, &item))
    } else {
        step_instr(placed, k, &item, state)
    }
}

/// The step at a place, or at the closing.
fn step_at(placed: &Placed, state: &mut State) -> Result<SourceTurn, NoMemory>
    requires inside { IsInside (count placed.now.program) (source_in state.old) }
    requires version { IsSameMachine (profile_of state.old.processor.memory.version) placed.now.profile }
    ensures stepped { IfOk result (λ turn. Leaves placed.now.program (step_at placed.now state.old.place (source_in state.old)) turn state.new) }
    ensures refused { OnErr result (source_in state.new ≡ source_in state.old) }
    ensures version { state.new.processor.memory.version ≡ state.old.processor.memory.version }
{
    let _count = placed.count();
    match state.place() {
        Some(k) => step_place(placed, k, state),
        None => Ok(SourceTurn::Exit(state.close(placed.closing())?)),
    }
}

/// One step.
#[tactic(auto, unfolding(cfi_map::specs::SourceStep::source_step))]
pub(crate) fn step(placed: &Placed, state: &mut State) -> Result<SourceTurn, NoMemory>
    requires inside { IsInside (count placed.now.program) (source_in state.old) }
    requires version { IsSameMachine (profile_of state.old.processor.memory.version) placed.now.profile }
    ensures stepped { IfOk result (λ turn. Leaves placed.now.program (source_step placed.now (source_in state.old)) turn state.new) }
    ensures refused { OnErr result (source_in state.new ≡ source_in state.old) }
    ensures inside { IsInside (count placed.now.program) (source_in state.new) }
    ensures version { state.new.processor.memory.version ≡ state.old.processor.memory.version }
{
    let _count = placed.count();
    match state.ended() {
        Some(status) => Ok(SourceTurn::Exit(status)),
        None => step_at(placed, state),
    }
}
