ghost use Rattle.std.specs.Prelude.{◌≡◌};
ghost use Rattle.obj_check.specs.FaultText.{fault_number};
ghost use Rattle.obj_check.specs.Finding.{found_at};

use least::{Found, Place};
use std::fmt;

/// What is wrong with an input: the first of these that is, in this order, at its least place, which is the index of a
/// section and an offset in it.
#[derive(Clone, Copy, Debug)]
pub enum ItemFault {
    /// This word of code is no instruction.
    Undecodable(u32, u64, u32),
    /// An instruction names a register that the units keep for themselves.
    ReservedRegister(u32, u64),
    /// A transfer that no unit does, or a direct one that goes to no instruction's start.
    BadTransfer(u32, u64),
    /// An AUIPC without what it is for, or a low part without its high part.
    BadPair(u32, u64),
    /// A relocation of this type, which its section does not take.
    RelocKind(u32, u64, u32),
    /// A relocation that stands where it may not.
    RelocPlace(u32, u64),
    /// The symbol with this number is named by a relocation and defined nowhere.
    Undefined(u64),
    /// A relocation's address is in code and no place.
    BadCodePointer(u32, u64),
}

impl ItemFault {
    /// The number of the fault among all refusals: those of the file as an object stand before it.
    pub fn number(&self) -> u8
        ensures { result ≡ fault_number self.now }
    {
        match self {
            ItemFault::Undecodable(..) => 9,
            ItemFault::ReservedRegister(..) => 10,
            ItemFault::BadTransfer(..) => 11,
            ItemFault::BadPair(..) => 12,
            ItemFault::RelocKind(..) => 13,
            ItemFault::RelocPlace(..) => 14,
            ItemFault::Undefined(_) => 15,
            ItemFault::BadCodePointer(..) => 16,
        }
    }
}

impl ItemFault {
    ghost use Rattle.obj_check.specs.FaultText.{fault_text, told};

    /// What is told of the fault: its name, its place and one number more.
    fn parts(&self) -> (&'static str, Option<(u32, u64)>, Option<u64>)
        ensures { told result.0.now result.1 result.2 ≡ fault_text self.now }
    {
        match *self {
            ItemFault::Undecodable(section, offset, word) => {
                (
                    "Undecodable",
                    Some((section, offset)),
                    Some(u64::from(word)),
                )
            }
            ItemFault::ReservedRegister(section, offset) => {
                ("ReservedRegister", Some((section, offset)), None)
            }
            ItemFault::BadTransfer(section, offset) => {
                ("BadTransfer", Some((section, offset)), None)
            }
            ItemFault::BadPair(section, offset) => ("BadPair", Some((section, offset)), None),
            ItemFault::RelocKind(section, offset, kind) => {
                ("RelocKind", Some((section, offset)), Some(u64::from(kind)))
            }
            ItemFault::RelocPlace(section, offset) => {
                ("RelocPlace", Some((section, offset)), None)
            }
            ItemFault::Undefined(symbol) => ("Undefined", None, Some(symbol)),
            ItemFault::BadCodePointer(section, offset) => {
                ("BadCodePointer", Some((section, offset)), None)
            }
        }
    }
}

impl fmt::Display for ItemFault {
    ghost use Rattle.std.specs.Prelude.{Some};
    ghost use Rattle.obj_check.specs.FaultText.{fault_text};

    ghost output = { λ fault. Some (fault_text fault) };

    fn fmt<W: fmt::Write>(&self, f: &mut fmt::Formatter<W>) -> fmt::Result {
        let (name, place, number) = self.parts();
        match (place, number) {
            (Some((section, offset)), Some(number)) => {
                write!(f, "{name} {section} {offset} {number}")
            }
            (Some((section, offset)), None) => write!(f, "{name} {section} {offset}"),
            (None, Some(number)) => write!(f, "{name} {number}"),
            (None, None) => f.write_str(name),
        }
    }
}

/// What was found at this place.
pub(crate) fn found_at(section: u32, offset: u64, what: ItemFault) -> Found<ItemFault>
    ensures { result ≡ found_at section offset what }
{
    Found {
        place: Place { section, offset },
        what,
    }
}
