//! How many bytes the unit of each place has.

ghost use Rattle.std.specs.Prelude.{◌≡◌, ◌+◌, ◌<◌, ◌≤◌, ◌||◌, not, IfOk};
ghost use Rattle.obj_program.specs.Program.{count, item_of};
ghost use Rattle.cfi_leads.specs.Leads.{lead_size};
ghost use Rattle.cfi_map.specs.Groups.{is_short, is_store};
ghost use Rattle.cfi_map.specs.Placement.{call_size, is_ecall, is_ecall_instr, kind_size, lean_size, size_of, whole_at};
ghost use Rattle.cfi_map.specs.Sizes.{grouped_parts};

use crate::groups::{is_short, is_store};
use cfi_closed::Closed;
use cfi_leads::Leads;
use obj_input::ItemKind;
use obj_program::Item;
use rv_code::decode;
use rv_image::GraphVersion;
use rv_image::unit_words::{
    BRANCH_WORDS, CALL_WORDS, ICALL_WORDS, IJUMP_WORDS, LEAN_TRANSFER_WORDS, LONG_STORE_WORDS,
    RETURN_WORDS, SHORT_STORE_WORDS, STORE_WORDS,
};
use rv_instr::Instr;
use rv_word::{NoMemory, Numbers};
use std::alloc::Global;

/// Whether an instruction is ECALL.
fn is_ecall_instr(instr: Option<Instr>) -> bool
    ensures { result ≡ is_ecall_instr instr }
{
    matches!(instr, Some(Instr::Ecall))
}

/// Whether that of a place is.
fn is_ecall(item: &Item) -> bool
    ensures { result ≡ is_ecall item.now }
{
    is_ecall_instr(decode(item.word))
}

/// How many bytes the unit of an ECALL has.
fn call_size(calls: Option<Numbers>) -> u32
    ensures value { result ≡ call_size calls }
    ensures small { result ≤ 72 }
{
    match calls {
        Some(numbers) => 8 + 8 * numbers.len() as u32,
        None => 4,
    }
}

/// How many bytes the unit of a place has where callers save sites.
fn kind_size(closed: &Closed, item: &Item, whole: bool) -> u32
    ensures value { result ≡ kind_size closed.now.calls item.now.kind (is_ecall item.now) whole }
    ensures small { result ≤ 80 }
{
    match item.kind {
        ItemKind::System if is_ecall(item) => call_size(closed.calls()),
        ItemKind::Store if whole => 4 * STORE_WORDS,
        ItemKind::Branch if whole => 4 * BRANCH_WORDS,
        ItemKind::Call => 4 * CALL_WORDS,
        ItemKind::Return => 4 * RETURN_WORDS,
        ItemKind::Ijump => 4 * IJUMP_WORDS,
        ItemKind::Icall => 4 * ICALL_WORDS,
        _ => 4,
    }
}

/// How many bytes it has where callees do, in a leaf or in none: a store of its own stands behind a mask of one word if it `is_short`.
#[inline(never)]
fn lean_size(closed: &Closed, item: &Item, in_leaf: bool, whole: bool) -> u32
    ensures value { result ≡ lean_size closed.now.calls item.now.kind (is_ecall item.now) (is_short item.now) in_leaf whole }
    ensures small { result ≤ 80 }
{
    match item.kind {
        ItemKind::Store if whole && is_short(item) => 4 * SHORT_STORE_WORDS,
        ItemKind::Store if whole => 4 * LONG_STORE_WORDS,
        ItemKind::Call => 4,
        ItemKind::Return if in_leaf => 4,
        ItemKind::Ijump | ItemKind::Icall => 4 * LEAN_TRANSFER_WORDS,
        _ => kind_size(closed, item, whole),
    }
}

/// How many bytes the unit of a place has: the whole, or one word of a branch that is short and of a store that is a later member of
/// its group. That of an ECALL has more under a list of system calls.
pub fn unit_size(leads: &Leads, k: u64, item: &Item, whole: bool) -> u32
    requires { k < count leads.now.program }
    ensures value { result ≡ size_of leads.now k item.now whole }
    ensures small { result ≤ 80 }
{
    match leads.closed().version() {
        GraphVersion::OneLabel | GraphVersion::TwoLabels => {
            kind_size(leads.closed(), item, whole)
        }
        GraphVersion::CalleeSaves => lean_size(leads.closed(), item, leads.in_leaf(k), whole),
    }
}

/// A place's flag; beyond the end of the flags each is set.
pub(crate) fn flag_at(flags: &[bool], place: u64) -> bool
    ensures { result ≡ whole_at flags.now place }
{
    match flags.get(place as usize) {
        Some(flag) => *flag,
        None => true,
    }
}

/// How many bytes the part of a place has, where each branch is long, and these flags say which stores have their whole size.
fn part_size(leads: &Leads, firsts: &[bool], place: u64) -> u32
    requires { place < count leads.now.program }
    ensures { result ≡ lead_size leads.now place + size_of leads.now place (item_of leads.now.program place) (whole_at firsts.now place || not (is_store (item_of leads.now.program place).kind)) }
{
    let item = leads.item(place);
    let whole = flag_at(firsts, place) || !is_store(item.kind);
    leads.size(place) + unit_size(leads, place, &item, whole)
}

/// The same of all places, in their order.
pub(crate) fn grouped_sizes(
    alloc: Global,
    leads: &Leads,
    firsts: &[bool],
) -> Result<Vec<u32>, NoMemory>
    ensures { IfOk result (λ v. v.items ≡ grouped_parts leads.now firsts.now) }
{
    let mut sizes = Vec::new(alloc);
    for k in 0..leads.count() {
        sizes.push(part_size(leads, firsts, k))?;
    }
    Ok(sizes)
}
