//! The table of the reader: at each node the pattern that the next word is asked for, and where it leads. A node
//! stands for the units that may begin with the words so far; 1 is that of all units, and 0 that of none.

ghost use Rattle.std.specs.Prelude.{◌≡◌, ◌≢◌, ◌<◌, IfSome, true, get_or, length};
ghost use Rattle.cfi_reader.specs.Nodes.{is_row_of, is_coded, no_row, row_in};

use crate::matching::{is_member, jump_code};
use Else::{Ended, Stuck, Try};
use End::{Full, Ijump, Stores};
use Mask::{Long, Shifts, Short};
use Next::{Done, More};
use Pattern::{Halt, Is, Jump, Label, Link, Member, Number};
use TargetWord::{First, Second, Third};
use cfi_unit::handlers::{BAD_RETURN, BAD_TARGET, DEEP};
use cfi_unit::{End, Mask, Pattern, TargetWord};

/// Where a word leads that is as a row says.
#[derive(Clone, Copy)]
pub(crate) enum Next {
    /// To another node.
    More(u8),
    /// The unit has ended, whatever follows.
    Done(End),
}

/// Where one leads that is not.
#[derive(Clone, Copy)]
pub(crate) enum Else {
    /// The row of another node is asked.
    Try(u8),
    /// The unit ended before it.
    Ended(End),
    /// No unit goes on so.
    Stuck,
}

/// The row of each node: what the next word is asked for, where it leads if it is so, and where if it is not. 1 has none, and that
/// of 0 stands for every number that is no node's.
const ROWS: [(Pattern, Next, Else); 129] = [
    // 0
    (Is(0), More(0), Stuck),
    (Is(0), More(0), Stuck),
    (Jump, Done(End::Branch), Ended(End::Over)),
    (Is(0x051f_8063), More(13), Try(4)),
    (Is(0x031f_8c63), More(15), Try(5)),
    (Is(0x031f_8863), More(17), Try(6)),
    (Is(0x031f_8463), More(19), Try(7)),
    (Is(0x031f_8063), More(21), Try(8)),
    (Is(0x011f_8c63), More(23), Try(9)),
    (Is(0x011f_8863), More(25), Try(10)),
    // 10
    (Is(0x011f_8463), More(27), Try(11)),
    (Is(0x024f_9f93), More(29), Try(12)),
    (Is(0xffcf_ff93), More(53), Try(82)),
    (Number, More(14), Stuck),
    (Is(0x031f_8c63), More(15), Stuck),
    (Number, More(16), Stuck),
    (Is(0x031f_8863), More(17), Stuck),
    (Number, More(18), Stuck),
    (Is(0x031f_8463), More(19), Stuck),
    (Number, More(20), Stuck),
    // 20
    (Is(0x031f_8063), More(21), Stuck),
    (Number, More(22), Stuck),
    (Is(0x011f_8c63), More(23), Stuck),
    (Number, More(24), Stuck),
    (Is(0x011f_8863), More(25), Stuck),
    (Number, More(26), Stuck),
    (Is(0x011f_8463), More(27), Stuck),
    (Halt(BAD_TARGET), More(28), Stuck),
    (Is(0x0000_0073), Done(End::Guarded), Stuck),
    (Is(0x024f_df93), More(30), Stuck),
    // 30
    (Member, More(31), Stuck),
    (Member, More(32), Ended(Stores(Shifts))),
    (Member, More(33), Ended(Stores(Shifts))),
    (Member, More(34), Ended(Stores(Shifts))),
    (Member, More(35), Ended(Stores(Shifts))),
    (Member, More(36), Ended(Stores(Shifts))),
    (Member, More(37), Ended(Stores(Shifts))),
    (Member, More(38), Ended(Stores(Shifts))),
    (Member, More(39), Ended(Stores(Shifts))),
    (Member, More(40), Ended(Stores(Shifts))),
    // 40
    (Member, More(41), Ended(Stores(Shifts))),
    (Member, More(42), Ended(Stores(Shifts))),
    (Member, More(43), Ended(Stores(Shifts))),
    (Member, More(44), Ended(Stores(Shifts))),
    (Member, More(45), Ended(Stores(Shifts))),
    (Member, Done(Full(Shifts)), Ended(Stores(Shifts))),
    (Is(0x000f_1463), More(47), Stuck),
    (Halt(DEEP), More(48), Stuck),
    (Is(0x0000_0f17), More(49), Try(115)),
    (Is(0x014f_0f13), More(50), Stuck),
    // 50
    (Is(0x01e1_b023), More(51), Stuck),
    (Is(0x0081_8193), More(52), Stuck),
    (Link, Done(End::Call), Stuck),
    (Is(0x4000_0f37), More(54), Stuck),
    (Is(0x41ef_8f33), More(55), Stuck),
    (Is(0x014f_5f13), More(56), Stuck),
    (Is(0x000f_0463), More(57), Stuck),
    (Halt(BAD_TARGET), More(58), Stuck),
    (Is(0x000f_af03), More(60), Try(59)),
    (Is(0x004f_af03), More(66), Try(120)),
    // 60
    (Label, More(61), Stuck),
    (Is(0x0372_0213), More(62), Stuck),
    (Is(0x004f_0463), More(63), Stuck),
    (Halt(BAD_TARGET), More(64), Stuck),
    (Is(0x000f_8067), Done(Ijump(First)), Try(65)),
    (Is(0x0301_9f13), More(71), Try(117)),
    (Label, More(67), Stuck),
    (Is(0x0372_0213), More(68), Stuck),
    (Is(0x004f_0463), More(69), Stuck),
    (Halt(BAD_TARGET), More(70), Stuck),
    // 70
    (Is(0x000f_8067), Done(Ijump(Second)), Stuck),
    (Is(0x000f_1463), More(72), Stuck),
    (Halt(DEEP), More(73), Stuck),
    (Is(0x0000_0f17), More(74), Stuck),
    (Is(0x014f_0f13), More(75), Stuck),
    (Is(0x01e1_b023), More(76), Stuck),
    (Is(0x0081_8193), More(77), Stuck),
    (Is(0x000f_80e7), Done(End::Icall), Stuck),
    (Is(0xff81_8193), More(79), Stuck),
    (Is(0x001f_8463), More(80), Stuck),
    // 80
    (Halt(BAD_RETURN), More(81), Stuck),
    (Is(0x000f_8067), Done(End::Return), Stuck),
    (Is(0x004f_ffb3), More(83), Stuck),
    (Member, More(84), Stuck),
    (Member, More(85), Ended(Stores(Long))),
    (Member, More(86), Ended(Stores(Long))),
    (Member, More(87), Ended(Stores(Long))),
    (Member, More(88), Ended(Stores(Long))),
    (Member, More(89), Ended(Stores(Long))),
    (Member, More(90), Ended(Stores(Long))),
    // 90
    (Member, More(91), Ended(Stores(Long))),
    (Member, More(92), Ended(Stores(Long))),
    (Member, More(93), Ended(Stores(Long))),
    (Member, More(94), Ended(Stores(Long))),
    (Member, More(95), Ended(Stores(Long))),
    (Member, More(96), Ended(Stores(Long))),
    (Member, More(97), Ended(Stores(Long))),
    (Member, More(98), Ended(Stores(Long))),
    (Member, Done(Full(Long)), Ended(Stores(Long))),
    (Member, More(100), Stuck),
    // 100
    (Member, More(101), Ended(Stores(Short))),
    (Member, More(102), Ended(Stores(Short))),
    (Member, More(103), Ended(Stores(Short))),
    (Member, More(104), Ended(Stores(Short))),
    (Member, More(105), Ended(Stores(Short))),
    (Member, More(106), Ended(Stores(Short))),
    (Member, More(107), Ended(Stores(Short))),
    (Member, More(108), Ended(Stores(Short))),
    (Member, More(109), Ended(Stores(Short))),
    (Member, More(110), Ended(Stores(Short))),
    // 110
    (Member, More(111), Ended(Stores(Short))),
    (Member, More(112), Ended(Stores(Short))),
    (Member, More(113), Ended(Stores(Short))),
    (Member, More(114), Ended(Stores(Short))),
    (Member, Done(Full(Short)), Ended(Stores(Short))),
    (Is(0x0011_b023), More(116), Stuck),
    (Is(0x0081_8193), Done(End::Enter), Stuck),
    (Is(0x1000_0237), More(118), Stuck),
    (Is(0xfff2_0213), More(119), Stuck),
    (Is(0x000f_8067), Done(End::LeanIjump), Stuck),
    // 120
    (Is(0x008f_af03), More(121), Stuck),
    (Label, More(122), Stuck),
    (Is(0x0372_0213), More(123), Stuck),
    (Is(0x004f_0463), More(124), Stuck),
    (Halt(BAD_TARGET), More(125), Stuck),
    (Is(0x1000_0237), More(126), Try(128)),
    (Is(0xfff2_0213), More(127), Stuck),
    (Is(0x008f_80e7), Done(End::LeanIcall), Stuck),
    (Is(0x000f_8067), Done(Ijump(Third)), Stuck),
];

/// The row of a node.
#[inline(always)]
pub(crate) fn row_at(node: u8) -> &'static (Pattern, Next, Else)
    requires { node ≢ 1 }
    ensures { is_row_of node (row_in result.now) ≡ true }
{
    row_among(&ROWS, node)
}

/// The row of a node among some, the first where it has none.
#[inline(always)]
fn row_among(rows: &[(Pattern, Next, Else)], node: u8) -> &(Pattern, Next, Else)
    requires { 0 < length rows.now }
    ensures { result.now ≡ get_or rows.now node (get_or rows.now 0 no_row) }
{
    let index = node as usize;
    if index < rows.len() {
        &rows[index]
    } else {
        &rows[0]
    }
}

/// In place of a code, where a word may lead on in other ways: no word is as large.
const NONE: u64 = 1 << 32;

/// In place of the code of a jump to the handler of bad targets: its address more.
const NO_TARGET: u64 = NONE + BAD_TARGET;

/// The same for that of bad returns.
const NO_RETURN: u64 = NONE + BAD_RETURN;

/// The same for that of calls too deep.
const TOO_DEEP: u64 = NONE + DEEP;

/// In place of the code of a store behind a mask.
const STORE: u64 = 2 * NONE;

/// Of each node the code with which a unit goes on to another one, where it does with no other, or what stands in place of it.
const CODES: [u64; 129] = [
    NONE, NONE, NONE, 0x051f8063, 0x031f8c63, 0x031f8863, 0x031f8463, 0x031f8063, 0x011f8c63,
    0x011f8863, 0x011f8463, 0x024f9f93, 0xffcfff93, NONE, 0x031f8c63, NONE, 0x031f8863, NONE,
    0x031f8463, NONE, 0x031f8063, NONE, 0x011f8c63, NONE, 0x011f8863, NONE, 0x011f8463, NO_TARGET,
    NONE, 0x024fdf93, STORE, STORE, STORE, STORE, STORE, STORE, STORE, STORE, STORE, STORE, STORE,
    STORE, STORE, STORE, STORE, NONE, 0x000f1463, TOO_DEEP, 0x00000f17, 0x014f0f13, 0x01e1b023,
    0x00818193, NONE, 0x40000f37, 0x41ef8f33, 0x014f5f13, 0x000f0463, NO_TARGET, 0x000faf03,
    0x004faf03, NONE, 0x03720213, 0x004f0463, NO_TARGET, NONE, 0x03019f13, NONE, 0x03720213,
    0x004f0463, NO_TARGET, NONE, 0x000f1463, TOO_DEEP, 0x00000f17, 0x014f0f13, 0x01e1b023,
    0x00818193, NONE, 0xff818193, 0x001f8463, NO_RETURN, NONE, 0x004fffb3, STORE, STORE, STORE,
    STORE, STORE, STORE, STORE, STORE, STORE, STORE, STORE, STORE, STORE, STORE, STORE, NONE,
    STORE, STORE, STORE, STORE, STORE, STORE, STORE, STORE, STORE, STORE, STORE, STORE, STORE,
    STORE, STORE, NONE, 0x0011b023, NONE, 0x10000237, 0xfff20213, NONE, 0x008faf03, NONE,
    0x03720213, 0x004f0463, NO_TARGET, 0x10000237, 0xfff20213, NONE, NONE,
];

/// The nodes to which these lead.
const LEADS: [u8; 129] = [
    0, 0, 0, 13, 15, 17, 19, 21, 23, 25, 27, 29, 53, 0, 15, 0, 17, 0, 19, 0, 21, 0, 23, 0, 25, 0,
    27, 28, 0, 30, 31, 32, 33, 34, 35, 36, 37, 38, 39, 40, 41, 42, 43, 44, 45, 0, 47, 48, 49, 50,
    51, 52, 0, 54, 55, 56, 57, 58, 60, 66, 0, 62, 63, 64, 0, 71, 0, 68, 69, 70, 0, 72, 73, 74, 75,
    76, 77, 0, 79, 80, 81, 0, 83, 84, 85, 86, 87, 88, 89, 90, 91, 92, 93, 94, 95, 96, 97, 98, 0,
    100, 101, 102, 103, 104, 105, 106, 107, 108, 109, 110, 111, 112, 113, 114, 0, 116, 0, 118, 119,
    0, 121, 0, 123, 124, 125, 126, 127, 0, 0,
];

/// Where a word at an address leads from a node, if it is as the node's code says.
#[inline(always)]
pub(crate) fn led_by(node: u8, word: u32, here: u64) -> Option<u8>
    ensures { IfSome result (λ next. (node < 129) × (is_coded (get_or CODES node 0) word here ≡ true) × (get_or LEADS node 0 ≡ next)) }
{
    let index = node as usize;
    if index < 129 && is_coded(CODES[index], word, here) {
        Some(LEADS[index])
    } else {
        None
    }
}

/// Whether a word at an address is as a code says, or what stands in place of one.
#[inline(always)]
fn is_coded(code: u64, word: u32, here: u64) -> bool
    ensures { result ≡ is_coded code word here }
{
    if code == u64::from(word) {
        true
    } else if code <= NONE {
        false
    } else if code == STORE {
        is_member(word)
    } else {
        word == jump_code(here, code - NONE)
    }
}
