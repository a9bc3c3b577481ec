//! The tests of an input in their order.

ghost use Rattle.std.specs.Prelude.{◌≡◌, ◌<◌};
ghost use Rattle.obj_input.specs.Input.{section_count};
ghost use Rattle.obj_check.specs.Finding.{nearest_in};
ghost use Rattle.obj_check.specs.Rule.{found_in};
ghost use Rattle.obj_check.specs.Fault.{fault_of, instruction_fault, relocation_fault};

use crate::code_pointer::pointer_in;
use crate::fault::ItemFault;
use crate::pair::bad_pair_in;
use crate::reserved::reserved_in;
use crate::transfer::bad_transfer_in;
use crate::undecodable::undecodable_in;
use crate::undefined::undefined;
use crate::wrong_kind::kind_in;
use crate::wrong_place::place_in;
use least::{Found, nearest_below};
use obj_input::Input;

/// A test of the places of an input.
#[derive(Clone, Copy)]
enum Rule {
    Undecodable,
    Reserved,
    Transfer,
    Pair,
    Kind,
    Place,
    Pointer,
}

/// What a test finds in the section with this index.
fn found_in(input: &Input, rule: Rule, k: u32) -> Option<Found<ItemFault>>
    requires { k < section_count input.now }
    ensures { result ≡ found_in input.now rule k }
{
    match rule {
        Rule::Undecodable => undecodable_in(input, k),
        Rule::Reserved => reserved_in(input, k),
        Rule::Transfer => bad_transfer_in(input, k),
        Rule::Pair => bad_pair_in(input, k),
        Rule::Kind => kind_in(input, k),
        Rule::Place => place_in(input, k),
        Rule::Pointer => pointer_in(input, k),
    }
}

/// The fault that a test finds at the least place.
fn fault_by(input: &Input, rule: Rule) -> Option<ItemFault>
    ensures { result ≡ nearest_in input.now (found_in input.now rule) }
{
    let found = nearest_below(input.section_count(), |k| found_in(input, rule, k))?;
    Some(found.what)
}

/// What is wrong with the instructions.
#[tactic(auto, unfolding(crate::specs::Undecodable::undecodable, crate::specs::Reserved::reserved, crate::specs::BadTransfer::bad_transfer, crate::specs::BadPair::bad_pair))]
fn instruction_fault(input: &Input) -> Option<ItemFault>
    ensures { result ≡ instruction_fault input.now }
{
    if let Some(fault) = fault_by(input, Rule::Undecodable) {
        return Some(fault);
    }
    if let Some(fault) = fault_by(input, Rule::Reserved) {
        return Some(fault);
    }
    if let Some(fault) = fault_by(input, Rule::Transfer) {
        return Some(fault);
    }
    fault_by(input, Rule::Pair)
}

/// What is wrong with the relocations.
#[tactic(auto, unfolding(crate::specs::WrongKind::wrong_kind, crate::specs::WrongPlace::wrong_place, crate::specs::CodePointer::wrong_pointer))]
fn relocation_fault(input: &Input) -> Option<ItemFault>
    ensures { result ≡ relocation_fault input.now }
{
    if let Some(fault) = fault_by(input, Rule::Kind) {
        return Some(fault);
    }
    if let Some(fault) = fault_by(input, Rule::Place) {
        return Some(fault);
    }
    if let Some(fault) = undefined(input) {
        return Some(fault);
    }
    fault_by(input, Rule::Pointer)
}

/// What is wrong with an input: the first of eight tests that fails anywhere in it, at the least place of that test.
#[tactic(auto, unfolding(crate::specs::Fault::fault_of))]
pub fn fault_of(input: &Input) -> Option<ItemFault>
    ensures { result ≡ fault_of input.now }
{
    if let Some(fault) = instruction_fault(input) {
        return Some(fault);
    }
    relocation_fault(input)
}
