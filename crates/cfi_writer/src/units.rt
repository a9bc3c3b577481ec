//! The unit of each place.

ghost use Rattle.cfi_rules.specs.Lines.{jump_word};
ghost use Rattle.std.specs.Prelude.{Bool, List, Option, ℕ, false, true, ◌≡◌, ◌<◌, ◌++◌, ◌∷◌, [], if◌then◌else◌, IfOk, OnOk};
ghost use Rattle.rv_image.specs.declared.version.GraphVersion.TheVariants.{CalleeSaves};
ghost use Rattle.obj_input.specs.declared.item_kind.ItemKind.TheVariants as is;
ghost use Rattle.obj_program.specs.Program.{count};
ghost use Rattle.cfi_graph.specs.Graph.{has_leaves};
ghost use Rattle.cfi_unit.specs.declared.unit.Unit.TheVariants as V;
ghost use Rattle.cfi_writer.specs.Chosen.{instr_if};
ghost use Rattle.cfi_map.specs.Groups.{is_store};
ghost use Rattle.cfi_writer.specs.Units.{Group, call_unit, inverse, is_later_at, lead, lean_unit_of, unit_here, unit_of, units};

use crate::chosen::Chosen;
use cfi_closed::Closed;
use cfi_map::is_store;
use cfi_rules::jump_word;
use cfi_unit::{Mask, SystemOp, Unit};
use obj_input::ItemKind;
use rv_image::GraphVersion;
use rv_instr::{BranchOp, Immediate, Instr};
use rv_word::{NoMemory, Numbers};
use std::alloc::Global;

/// The condition that holds where another does not.
fn inverse(op: BranchOp) -> BranchOp
    ensures { result ≡ inverse op }
{
    match op {
        BranchOp::Beq => BranchOp::Bne,
        BranchOp::Bne => BranchOp::Beq,
        BranchOp::Blt => BranchOp::Bge,
        BranchOp::Bge => BranchOp::Blt,
        BranchOp::Bltu => BranchOp::Bgeu,
        BranchOp::Bgeu => BranchOp::Bltu,
    }
}

/// The unit of an `ecall` under a list of system calls or none.
fn call_unit(calls: Option<Numbers>) -> Unit
    ensures { result ≡ call_unit calls }
{
    match calls {
        Some(numbers) => Unit::Guarded(numbers),
        None => Unit::System(SystemOp::Ecall),
    }
}

/// The unit of an instruction of a kind but a store's, in code for a closed graph: a branch in its whole size or as one word, the gate
/// of the place that a direct transfer goes to, and the label that a computed one asks for.
#[inline(always)]
fn unit_of(
    kind: ItemKind,
    closed: &Closed,
    instr: &Instr,
    whole: bool,
    target: u64,
    label: Immediate<20>,
) -> Unit
    ensures { (group : Group) → is_store kind ≡ false → result ≡ unit_of closed.now.calls kind instr.now whole target (jump_word closed.now.version) label group }
{
    let which = jump_word(closed.version());
    match (kind, *instr) {
        (ItemKind::Gate, Instr::Upper(_, _, own)) => Unit::Gate(own),
        (ItemKind::Plain, instr) => Unit::Plain(instr),
        (ItemKind::System, Instr::Ecall) => call_unit(closed.calls()),
        (ItemKind::System, Instr::Ebreak) => Unit::System(SystemOp::Ebreak),
        (ItemKind::Branch, Instr::Branch(op, rs1, rs2, _)) => {
            if whole {
                Unit::Branch(inverse(op), rs1, rs2, target)
            } else {
                Unit::Near(op, rs1, rs2, target)
            }
        }
        (ItemKind::Jump, _) => Unit::Jump(target),
        (ItemKind::Call, _) => Unit::Call(target),
        (ItemKind::Return, _) => Unit::Return,
        (ItemKind::Ijump, Instr::Jalr(_, rs1, imm)) => Unit::Ijump(which, rs1, imm, label),
        (ItemKind::Icall, Instr::Jalr(_, rs1, imm)) => Unit::Icall(rs1, imm, label),
        _ => Unit::Stop,
    }
}

/// The unit of a return, in a leaf or in none.
fn return_unit(inside: bool) -> Unit
    ensures { result ≡ if inside then V.LeafReturn else V.Return }
{
    if inside {
        Unit::LeafReturn
    } else {
        Unit::Return
    }
}

/// The unit of a computed jump, where callees save the sites of calls.
fn lean_ijump(instr: &Instr, label: Immediate<20>) -> Unit
    ensures { (calls : Option (List ℕ)) (inside whole : Bool) (target : ℕ) (group : Group) →
        result ≡ lean_unit_of calls inside is.Ijump instr.now whole target label group }
{
    match *instr {
        Instr::Jalr(_, rs1, imm) => Unit::LeanIjump(rs1, imm, label),
        _ => Unit::Stop,
    }
}

/// And of a computed call.
fn lean_icall(instr: &Instr, label: Immediate<20>) -> Unit
    ensures { (calls : Option (List ℕ)) (inside whole : Bool) (target : ℕ) (group : Group) →
        result ≡ lean_unit_of calls inside is.Icall instr.now whole target label group }
{
    match *instr {
        Instr::Jalr(_, rs1, imm) => Unit::LeanIcall(rs1, imm, label),
        _ => Unit::Stop,
    }
}

/// The unit of an instruction of a kind but a store's where callees save the sites of calls, in a leaf or in none.
fn lean_unit_of(
    inside: bool,
    kind: ItemKind,
    closed: &Closed,
    instr: &Instr,
    whole: bool,
    target: u64,
    label: Immediate<20>,
) -> Unit
    requires { closed.now.version ≡ CalleeSaves }
    ensures { (group : Group) → is_store kind ≡ false → result ≡ lean_unit_of closed.now.calls inside kind instr.now whole target label group }
{
    match kind {
        ItemKind::Call => Unit::LinkCall(target),
        ItemKind::Return => return_unit(inside),
        ItemKind::Ijump => lean_ijump(instr, label),
        ItemKind::Icall => lean_icall(instr, label),
        ItemKind::Gate
        | ItemKind::Plain
        | ItemKind::Store
        | ItemKind::System
        | ItemKind::Branch
        | ItemKind::Jump
        | ItemKind::End => unit_of(kind, closed, instr, whole, target, label),
    }
}

impl<'c, 'a, 'b> Chosen<'c, 'a, 'b> {
    /// The unit of a place, of which this is the instruction, where callers save the sites of calls.
    #[tactic(auto, using(crate::proofs::PlaceUnits::end_unit, crate::proofs::PlaceUnits::full_mask))]
    fn full_unit(&self, k: u64, instr: Option<Instr>) -> Unit
        requires place { k < count self.now.layout.program }
        requires full { has_leaves self.now.layout.closed.version ≡ false }
        requires own { is_later_at self.now k ≡ false }
        requires instruction { instr ≡ instr_if self.now k }
        ensures { result ≡ unit_here self.now k }
    {
        let Some(instr) = instr else {
            return Unit::Stop;
        };
        if is_store(self.item(k).kind) {
            return self.stores(k, &instr, Mask::Shifts);
        }
        let label = Immediate::of(self.site_label(k));
        unit_of(
            self.item(k).kind,
            self.closed(),
            &instr,
            self.is_whole(k),
            self.target(k),
            label,
        )
    }

    /// The same where callees do.
    #[tactic(auto, using(crate::proofs::PlaceUnits::end_unit))]
    fn lean_unit(&self, k: u64, instr: Option<Instr>) -> Unit
        requires place { k < count self.now.layout.program }
        requires lean { has_leaves self.now.layout.closed.version ≡ true }
        requires own { is_later_at self.now k ≡ false }
        requires instruction { instr ≡ instr_if self.now k }
        ensures { result ≡ unit_here self.now k }
    {
        let Some(instr) = instr else {
            return Unit::Stop;
        };
        if is_store(self.item(k).kind) {
            return self.stores(k, &instr, self.lean_mask(k));
        }
        let label = Immediate::of(self.site_label(k));
        lean_unit_of(
            self.leads().in_leaf(k),
            self.item(k).kind,
            self.closed(),
            &instr,
            self.is_whole(k),
            self.aim(k),
            label,
        )
    }

    /// Puts the unit of a place at the end, behind the words before it, where callers save the sites of calls.
    fn push_full_unit(&self, units: &mut Vec<Unit>, k: u64) -> Result<(), NoMemory>
        requires place { k < count self.now.layout.program }
        requires full { has_leaves self.now.layout.closed.version ≡ false }
        requires own { is_later_at self.now k ≡ false }
        ensures { OnOk result (units.new.items ≡ units.old.items ++ lead self.now k ++ unit_here self.now k ∷ []) }
    {
        self.push_full_lead(units, k)?;
        let instr = self.instr(k);
        units.push(self.full_unit(k, instr))?;
        Ok(())
    }

    /// The same where callees do.
    fn push_lean_unit(&self, units: &mut Vec<Unit>, k: u64) -> Result<(), NoMemory>
        requires place { k < count self.now.layout.program }
        requires lean { has_leaves self.now.layout.closed.version ≡ true }
        requires own { is_later_at self.now k ≡ false }
        ensures { OnOk result (units.new.items ≡ units.old.items ++ lead self.now k ++ unit_here self.now k ∷ []) }
    {
        self.push_lean_lead(units, k)?;
        let instr = self.instr(k);
        units.push(self.lean_unit(k, instr))?;
        Ok(())
    }

    /// The units of all places that have one of their own, each behind the words before it, where callers save the sites of calls.
    fn full_units(&self, alloc: Global) -> Result<Vec<Unit>, NoMemory>
        requires { has_leaves self.now.layout.closed.version ≡ false }
        ensures { IfOk result (λ v. v.items ≡ units self.now) }
    {
        let mut units = Vec::new(alloc);
        for k in 0..self.count() {
            if !self.is_later(k) {
                self.push_full_unit(&mut units, k)?;
            }
        }
        Ok(units)
    }

    /// The same where callees do.
    #[inline(never)]
    fn lean_units(&self, alloc: Global) -> Result<Vec<Unit>, NoMemory>
        requires { has_leaves self.now.layout.closed.version ≡ true }
        ensures { IfOk result (λ v. v.items ≡ units self.now) }
    {
        let mut units = Vec::new(alloc);
        for k in 0..self.count() {
            if !self.is_later(k) {
                self.push_lean_unit(&mut units, k)?;
            }
        }
        Ok(units)
    }

    /// The units of all places that have one of their own, each behind the words before it.
    pub(crate) fn units(&self, alloc: Global) -> Result<Vec<Unit>, NoMemory>
        ensures { IfOk result (λ v. v.items ≡ units self.now) }
    {
        match self.version() {
            GraphVersion::OneLabel | GraphVersion::TwoLabels => self.full_units(alloc),
            GraphVersion::CalleeSaves => self.lean_units(alloc),
        }
    }
}
