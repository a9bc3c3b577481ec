//! Words of code as instructions: pairs, and what a relocation at one asks for.

ghost use Rattle.std.specs.Prelude.{◌≡◌, ◌<◌, ◌≤◌, ◌+◌, ◌*◌, ◌/◌, true, Option, Some, None};
ghost use Rattle.obj_input.specs.Input.{is_code};
ghost use Rattle.obj_input.specs.Code.{are_pair, are_same, at_whole, auipc_register, has_high_part, has_pair_target, if_auipc, instr, is_auipc, is_inside, is_pair, is_place, is_start, jalr_base, natural, starts_at, word, word_count};

use crate::section::Section;
use elf_bytes::u32_at;
use rv_code::decode;
use rv_instr::{Instr, Reg, UpperOp};

/// Whether an instruction is an AUIPC.
pub fn is_auipc(instr: &Option<Instr>) -> bool
    ensures { result ≡ is_auipc instr.now }
{
    matches!(instr, Some(Instr::Upper(UpperOp::Auipc, _, _)))
}

/// The register of an AUIPC.
fn if_auipc(op: UpperOp, rd: Reg) -> Option<Reg>
    ensures { result ≡ if_auipc op rd }
{
    match op {
        UpperOp::Auipc => Some(rd),
        UpperOp::Lui => None,
    }
}

/// The register that an AUIPC writes.
fn auipc_register(instr: Option<Instr>) -> Option<Reg>
    ensures { result ≡ auipc_register instr }
{
    match instr? {
        Instr::Upper(op, rd, _) => if_auipc(op, rd),
        _ => None,
    }
}

/// The register that a JALR reads.
fn jalr_base(instr: Option<Instr>) -> Option<Reg>
    ensures { result ≡ jalr_base instr }
{
    match instr? {
        Instr::Jalr(_, base, _) => Some(base),
        _ => None,
    }
}

/// Whether both are there and are one register.
fn are_same(a: Option<Reg>, b: Option<Reg>) -> bool
    ensures { result ≡ are_same a b }
{
    match (a, b) {
        (Some(a), Some(b)) => a == b,
        _ => false,
    }
}

/// Whether two instructions are an AUIPC and a JALR by its register.
fn are_pair(first: Option<Instr>, second: Option<Instr>) -> bool
    ensures { result ≡ are_pair first second }
{
    are_same(auipc_register(first), jalr_base(second))
}

/// A whole number as an offset.
pub fn natural(number: i128) -> Option<u64>
    ensures { result ≡ natural number }
{
    u64::try_from(number).ok()
}

impl Section<'_> {
    /// How many whole words it has.
    pub fn word_count(&self) -> u64
        ensures value { result ≡ word_count self.now }
        ensures size { 4 * result ≤ self.now.size }
    {
        self.size() / 4
    }

    /// Where the word with this index begins.
    pub fn offset_of(&self, index: u64) -> u64
        requires { index < word_count self.now }
        ensures { result ≡ 4 * index }
    {
        let _size = self.size();
        4 * index
    }

    /// The word of code with this index.
    pub fn word(&self, index: u64) -> u32
        requires code { is_code self.now ≡ true }
        requires below { index < word_count self.now }
        ensures { result ≡ word self.now index }
    {
        let code = self.code();
        u32_at(code, self.offset_of(index)).unwrap()
    }

    /// The instruction that the word of code with this index is, none past the end.
    #[tactic(auto, unfolding(crate::specs::Code::instr))]
    pub fn instr(&self, index: u64) -> Option<Instr>
        requires { is_code self.now ≡ true }
        ensures { result ≡ instr self.now index }
    {
        if index < self.word_count() {
            decode(self.word(index))
        } else {
            None
        }
    }

    /// The instruction after the word with this index.
    pub fn instr_after(&self, index: u64) -> Option<Instr>
        requires code { is_code self.now ≡ true }
        requires below { index < word_count self.now }
        ensures { result ≡ instr self.now (index + 1) }
    {
        let _size = self.size();
        self.instr(index + 1)
    }

    /// Whether a relocation there names the target of a pair.
    pub fn has_pair_target(&self, index: u64) -> bool
        requires { index < word_count self.now }
        ensures { result ≡ has_pair_target self.now index }
    {
        self.has_pair_use(self.offset_of(index))
    }

    /// Whether a relocation at this offset is the high part of a distance.
    pub fn has_high_part(&self, offset: u64) -> bool
        ensures { result ≡ has_high_part self.now offset }
    {
        self.has_high_use(offset)
    }

    /// Whether the word of code with this index and the next one are a pair: an AUIPC with a target, and a JALR by its
    /// register, which are one instruction.
    #[tactic(auto, unfolding(crate::specs::Code::is_pair))]
    pub fn is_pair(&self, index: u64) -> bool
        requires code { is_code self.now ≡ true }
        requires below { index < word_count self.now }
        ensures { result ≡ is_pair self.now index }
    {
        self.has_pair_target(index) && are_pair(self.instr(index), self.instr_after(index))
    }

    /// Whether the word of code with this index is the JALR of a pair.
    pub fn is_inside(&self, index: u64) -> bool
        requires code { is_code self.now ≡ true }
        requires below { index < word_count self.now }
        ensures { result ≡ is_inside self.now index }
    {
        index != 0 && self.is_pair(index - 1)
    }

    /// Whether an instruction starts at the word of code with this index.
    pub fn starts_at(&self, index: u64) -> bool
        requires { is_code self.now ≡ true }
        ensures { result ≡ starts_at self.now index }
    {
        index < self.word_count() && !self.is_inside(index)
    }

    #[tactic(auto, unfolding(crate::specs::Code::is_start))]
    fn is_start_of(&self, offset: u64) -> bool
        ensures { result ≡ is_start self.now offset }
    {
        self.is_code() && offset % 4 == 0 && self.starts_at(offset / 4)
    }

    /// Whether this offset is an instruction's start.
    pub fn is_start(&self, offset: u64) -> bool
        ensures value { result ≡ is_start self.now offset }
        ensures code { result ≡ true → is_code self.now ≡ true }
        ensures inside { result ≡ true → offset / 4 < word_count self.now }
    {
        self.is_start_of(offset)
    }

    /// Whether this offset is a place: an instruction's start, or the end of a section of code.
    pub fn is_place(&self, offset: u64) -> bool
        ensures { result ≡ is_place self.now offset }
    {
        self.is_start(offset) || self.is_code() && offset == self.size()
    }

    /// Whether this whole number is an instruction's start.
    pub fn is_start_at(&self, at: i128) -> bool
        ensures { result ≡ at_whole (is_start self.now) at }
    {
        let _size = self.size();
        match natural(at) {
            Some(offset) => self.is_start(offset),
            None => false,
        }
    }

    /// Whether this whole number is a place.
    pub fn is_place_at(&self, at: i128) -> bool
        ensures { result ≡ at_whole (is_place self.now) at }
    {
        let _size = self.size();
        match natural(at) {
            Some(offset) => self.is_place(offset),
            None => false,
        }
    }
}
