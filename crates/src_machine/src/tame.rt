//! The reasons against a step.

ghost use Rattle.std.specs.Prelude.{◌≡◌, ◌==◌, ◌<◌, ◌+◌, false, IfSome, nat_le, not};
ghost use Rattle.std.specs.List.{All, list_any};
ghost use Rattle.rv_word.specs.Numbers.{is_listed};
ghost use Rattle.rv_code.specs.Arithmetic.{load_size, store_size};
ghost use Rattle.obj_program.specs.Program.{count, is_end};
ghost use Rattle.src_machine.specs.State.{source_in};
ghost use Rattle.cfi_map.specs.Untame.{base_of, computed, computed_place, is_off_base, is_off_graph, is_off_window, is_outside, is_too_deep, is_unlisted, is_wrong_return, reason, return_address, touched, WINDOW};

use crate::placed::Placed;
use crate::state::State;
use cfi_map::{Reason, is_short};
use obj_input::ItemKind;
use rv_instr::{Instr, LoadOp, Reg, StoreOp};
use rv_word::Numbers;

/// The end of the window of data.
const WINDOW: u64 = 1 << 28;

/// How many calls may be pending.
const MOST_CALLS: u64 = 8190;

/// Where a computed transfer goes.
fn computed(instr: &Instr, state: &State) -> u64
    ensures { result ≡ computed instr.now (source_in state.now).regs }
{
    match *instr {
        Instr::Jalr(_, rs1, imm) => {
            let sum = state.sum(rs1, imm);
            sum - sum % 2
        }
        _ => 0,
    }
}

/// The place that a computed transfer goes to, where the closed graph has it.
pub(crate) fn computed_place(placed: &Placed, k: u64, instr: &Instr, state: &State) -> Option<u64>
    ensures value { result ≡ computed_place placed.now k instr.now (source_in state.now).regs }
    ensures there { IfSome result (λ target. target < count placed.now.program) }
{
    placed.place_reached(k, computed(instr, state))
}

/// Whether a computed transfer leaves the closed graph.
fn is_off_graph(placed: &Placed, k: u64, kind: ItemKind, instr: &Instr, state: &State) -> bool
    ensures { result ≡ is_off_graph placed.now k kind instr.now (source_in state.now) }
{
    match kind {
        ItemKind::Ijump | ItemKind::Icall => computed_place(placed, k, instr, state).is_none(),
        _ => false,
    }
}

/// Where x1 has to lead at a return.
fn return_address(placed: &Placed, state: &State) -> u64
    requires { All (λ k. k < count placed.now.program) state.now.pending }
    ensures { result ≡ return_address placed.now state.now.pending }
{
    let _count = placed.count();
    match state.newest() {
        Some(k) => placed.gate(k),
        None => placed.closing(),
    }
}

/// Whether a return does not lead back to its call.
fn is_wrong_return(placed: &Placed, kind: ItemKind, state: &State) -> bool
    requires { All (λ k. k < count placed.now.program) state.now.pending }
    ensures { result ≡ is_wrong_return placed.now kind (source_in state.now) }
{
    match kind {
        ItemKind::Return => state.reg(Reg::of(1)) != return_address(placed, state),
        _ => false,
    }
}

/// How many bytes a load reads.
fn loaded_bytes(op: LoadOp) -> u64
    ensures { result ≡ load_size op }
{
    match op {
        LoadOp::Lb | LoadOp::Lbu => 1,
        LoadOp::Lh | LoadOp::Lhu => 2,
        LoadOp::Lw | LoadOp::Lwu => 4,
        LoadOp::Ld => 8,
    }
}

/// How many bytes a store writes.
fn stored_bytes(op: StoreOp) -> u64
    ensures { result ≡ store_size op }
{
    match op {
        StoreOp::Sb => 1,
        StoreOp::Sh => 2,
        StoreOp::Sw => 4,
        StoreOp::Sd => 8,
    }
}

/// Whether so many bytes at an address are not all in the window.
fn leaves_window(address: u64, bytes: u64) -> bool
    ensures { result ≡ not (nat_le (address + bytes) WINDOW) }
{
    address > WINDOW || bytes > WINDOW - address
}

/// Whether a load or a store leaves the window.
fn touches_outside(instr: &Instr, state: &State) -> bool
    ensures { result ≡ not (nat_le (touched instr.now (source_in state.now).regs) WINDOW) }
{
    match *instr {
        Instr::Load(op, _, rs1, imm) => leaves_window(state.sum(rs1, imm), loaded_bytes(op)),
        Instr::Store(op, rs1, _, imm) => leaves_window(state.sum(rs1, imm), stored_bytes(op)),
        _ => false,
    }
}

/// What the base register of a store has.
fn base_of(instr: &Instr, state: &State) -> u64
    ensures { result ≡ base_of instr.now (source_in state.now).regs }
{
    match *instr {
        Instr::Store(_, rs1, _, _) => state.reg(rs1),
        _ => 0,
    }
}

/// Whether the base of the store at the place `k`, which is masked without the offset, is not in the window.
fn is_off_base(placed: &Placed, k: u64, instr: &Instr, state: &State) -> bool
    requires { k < count placed.now.program }
    ensures { result ≡ is_off_base placed.now k instr.now (source_in state.now) }
{
    placed.has_short_masks() && base_of(instr, state) >= WINDOW && is_short(&placed.item(k))
}

/// Whether an instruction of a kind leaves the window.
fn is_off_window(placed: &Placed, k: u64, kind: ItemKind, instr: &Instr, state: &State) -> bool
    requires { k < count placed.now.program }
    ensures { result ≡ is_off_window placed.now k kind instr.now (source_in state.now) }
{
    match kind {
        ItemKind::Plain => touches_outside(instr, state),
        ItemKind::Store => touches_outside(instr, state) || is_off_base(placed, k, instr, state),
        _ => false,
    }
}

/// Whether a call is too deep.
fn is_too_deep(kind: ItemKind, state: &State) -> bool
    ensures { result ≡ is_too_deep kind (source_in state.now) }
{
    match kind {
        ItemKind::Call | ItemKind::Icall => state.depth() >= MOST_CALLS,
        _ => false,
    }
}

/// Whether some number is this one.
fn has(calls: &[u16], number: u64) -> bool
    ensures { result ≡ list_any (λ n. n == number) calls.now }
{
    calls.iter().any(|call| u64::from(*call) == number)
}

/// The same, as the definitions say it.
fn is_listed(number: u64, calls: &[u16]) -> bool
    ensures { result ≡ is_listed number calls.now }
{
    has(calls, number)
}

/// Whether there is a list in which a number is not.
fn is_outside(calls: Option<Numbers>, number: u64) -> bool
    ensures { result ≡ is_outside calls number }
{
    match calls {
        Some(numbers) => !is_listed(number, numbers.as_slice()),
        None => false,
    }
}

/// Whether an instruction makes a system call that is not in the closed graph's list.
fn is_unlisted(placed: &Placed, kind: ItemKind, instr: &Instr, state: &State) -> bool
    ensures { result ≡ is_unlisted placed.now kind instr.now (source_in state.now) }
{
    match (kind, *instr) {
        (ItemKind::System, Instr::Ecall) => is_outside(placed.calls(), state.reg(Reg::of(17))),
        _ => false,
    }
}

/// The first reason against the step of an instruction, if there is one.
pub(crate) fn reason(
    placed: &Placed,
    k: u64,
    kind: ItemKind,
    instr: &Instr,
    state: &State,
) -> Option<Reason>
    requires place { k < count placed.now.program }
    requires pending { All (λ k. k < count placed.now.program) state.now.pending }
    requires instruction { is_end kind ≡ false }
    ensures { result ≡ reason placed.now k kind instr.now (source_in state.now) }
{
    if is_off_graph(placed, k, kind, instr, state) {
        Some(Reason::Graph)
    } else if is_wrong_return(placed, kind, state) {
        Some(Reason::Return)
    } else if is_off_window(placed, k, kind, instr, state) {
        Some(Reason::Window)
    } else if is_too_deep(kind, state) {
        Some(Reason::Deep)
    } else if is_unlisted(placed, kind, instr, state) {
        Some(Reason::Call)
    } else {
        None
    }
}
