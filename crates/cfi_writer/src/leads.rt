//! The words before the unit of each place.

ghost use Rattle.std.specs.Prelude.{◌≡◌, ◌<◌, ◌^◌, ◌++◌, ◌∷◌, [], true, false, if◌then◌else◌, IfSome, OnOk, map};
ghost use Rattle.rv_instr.specs.declared.instr.ImmediateOp.TheVariants.{Addi};
ghost use Rattle.rv_instr.specs.declared.instr.Instr.TheVariants as I;
ghost use Rattle.obj_program.specs.Program.{count};
ghost use Rattle.cfi_graph.specs.Graph.{has_leaves};
ghost use Rattle.cfi_map.specs.LabelOf.{labels_of};
ghost use Rattle.cfi_unit.specs.declared.unit.Unit.TheVariants as V;
ghost use Rattle.cfi_writer.specs.Units.{gate_unit, lead, lead_unit};

use crate::chosen::Chosen;
use cfi_unit::Unit;
use rv_instr::{Immediate, ImmediateOp, Instr, Reg};
use rv_word::NoMemory;

/// The instruction that does nothing.
fn idle() -> Instr
    ensures { result ≡ I.Immediate Addi 0 0 0 }
{
    Instr::Immediate(ImmediateOp::Addi, Reg::of(0), Reg::of(0), Immediate::of(0))
}

/// A word before a place's unit: a gate word with a label, or this instruction, which does nothing.
fn lead_unit(label: Option<u32>, idle: &Instr) -> Unit
    requires small { IfSome label (λ label. label < 2 ^ 20) }
    requires idle { idle.now ≡ I.Immediate Addi 0 0 0 }
    ensures { result ≡ lead_unit label }
{
    match label {
        Some(label) => Unit::Gate(Immediate::of(label)),
        None => Unit::Plain(*idle),
    }
}

/// Puts a word with this label at the end, where it is asked for.
fn push_word_if(
    units: &mut Vec<Unit>,
    asked: bool,
    label: Option<u32>,
    idle: &Instr,
) -> Result<(), NoMemory>
    requires small { IfSome label (λ label. label < 2 ^ 20) }
    requires idle { idle.now ≡ I.Immediate Addi 0 0 0 }
    ensures { OnOk result (units.new.items ≡ units.old.items ++ (if asked then lead_unit label ∷ [] else [])) }
{
    if asked {
        units.push(lead_unit(label, idle))?;
    }
    Ok(())
}

/// Puts the gate of computed calls at the end, with this label, if they may arrive.
#[tactic(auto, using(crate::proofs::UnitList::gate_if))]
fn push_gate(units: &mut Vec<Unit>, label: Option<u32>, idle: &Instr) -> Result<(), NoMemory>
    requires small { IfSome label (λ label. label < 2 ^ 20) }
    requires idle { idle.now ≡ I.Immediate Addi 0 0 0 }
    ensures { OnOk result (units.new.items ≡ units.old.items ++ gate_unit label) }
{
    push_word_if(units, label.is_some(), label, idle)
}

/// Puts what saves a site at the end, behind the jump over it to the unit at this address and the gate of computed calls, if they may
/// arrive.
fn push_saver(
    units: &mut Vec<Unit>,
    word: u64,
    label: Option<u32>,
    idle: &Instr,
) -> Result<(), NoMemory>
    requires small { IfSome label (λ label. label < 2 ^ 20) }
    requires idle { idle.now ≡ I.Immediate Addi 0 0 0 }
    ensures { OnOk result (units.new.items ≡ units.old.items ++ V.Jump word ∷ (gate_unit label ++ V.Enter ∷ [])) }
{
    units.push(Unit::Jump(word))?;
    push_gate(units, label, idle)?;
    units.push(Unit::Enter)?;
    Ok(())
}

/// The same where it is asked for.
fn push_saver_if(
    units: &mut Vec<Unit>,
    asked: bool,
    word: u64,
    label: Option<u32>,
    idle: &Instr,
) -> Result<(), NoMemory>
    requires small { IfSome label (λ label. label < 2 ^ 20) }
    requires idle { idle.now ≡ I.Immediate Addi 0 0 0 }
    ensures { OnOk result (units.new.items ≡ units.old.items
        ++ (if asked then V.Jump word ∷ (gate_unit label ++ V.Enter ∷ []) else [])) }
{
    if asked {
        push_saver(units, word, label, idle)
    } else {
        Ok(())
    }
}

impl<'c, 'a, 'b> Chosen<'c, 'a, 'b> {
    /// Puts a word for each side at the end, with the label that a place has there.
    fn push_words(&self, units: &mut Vec<Unit>, k: u64) -> Result<(), NoMemory>
        ensures { OnOk result (units.new.items ≡ units.old.items ++ map lead_unit (labels_of self.now.labels self.now.layout.closed.sides k)) }
    {
        let idle = idle();
        for j in 0..self.closed().sides().len() {
            units.push(lead_unit(self.label_at(j, k), &idle))?;
        }
        Ok(())
    }

    /// Puts the words before the unit of a place at the end, where it is a target and callers save the sites of calls.
    #[tactic(auto, using(crate::proofs::UnitList::led, crate::proofs::UnitList::not_led))]
    pub(crate) fn push_full_lead(&self, units: &mut Vec<Unit>, k: u64) -> Result<(), NoMemory>
        requires { has_leaves self.now.layout.closed.version ≡ false }
        ensures { OnOk result (units.new.items ≡ units.old.items ++ lead self.now k) }
    {
        if self.closed().is_target(k) {
            self.push_words(units, k)
        } else {
            Ok(())
        }
    }

    /// Puts the words before the unit of a place at the end where callees save the sites of calls.
    #[inline(never)]
    pub(crate) fn push_lean_lead(&self, units: &mut Vec<Unit>, k: u64) -> Result<(), NoMemory>
        requires place { k < count self.now.layout.program }
        requires lean { has_leaves self.now.layout.closed.version ≡ true }
        ensures { OnOk result (units.new.items ≡ units.old.items ++ lead self.now k) }
    {
        let _count = self.count();
        let idle = idle();
        push_word_if(
            units,
            self.closed().is_target(k),
            self.label_at(1, k),
            &idle,
        )?;
        push_saver_if(
            units,
            self.leads().enters(k),
            self.word(k),
            self.label_at(0, k),
            &idle,
        )?;
        Ok(())
    }
}
