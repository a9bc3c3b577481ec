ghost use Rattle.std.specs.Prelude.{◌≡◌, IfOk};
ghost use Rattle.refusals.specs.Refusals.{name_told, refusal_line, refusal_number};

use crate::map_reason::MapReason;
use elf_image::ImageRefusal;
use elf_object::ObjectFault;
use obj_check::ItemFault;
use rv_word::{Bytes, NoMemory};
use std::alloc::Global;
use std::fmt;
use text_lines::Reason;

/// Why what is given is not taken. Those of objects stand in the order in which they are looked for: a later one comes only
/// where no earlier one stands, but that `UndefinedIn` goes before a bad code pointer of `Items`; of several objects, what
/// stands against one comes only where nothing stands against those before it.
#[derive(Drop)]
pub enum Refusal {
    /// A fault of the file as an object, of one by itself.
    Object(ObjectFault),
    /// A fault of the file as an object, of the one with this number, from 1, among several.
    ObjectIn(ObjectFault, u64),
    /// With one of several objects there are so many sections in all, number 0 of each object among them: more than 2^16.
    TooManySections(u64),
    /// Two global symbols of several objects have this name.
    Duplicate(Bytes),
    /// A fault of instructions and relocations; of several objects it tells sections by their numbers in all.
    Items(ItemFault),
    /// Of several objects the symbol with this number is named by a relocation and defined nowhere. The second number is that
    /// of its object, from 1.
    UndefinedIn(u64, u64),
    /// No symbol has the entry's name, or the first of that name is not at an instruction's start.
    NoEntry,
    /// The line with this number, from 1, of the policy is not of its form, or names what it may not.
    Policy(u64),
    /// The code has so many bytes with every branch long and each store alone, the prologue counted, more than its region.
    CodeTooLarge(u128),
    /// Initialised data have so many bytes, or all data end at this address, more than there is room for.
    DataTooLarge(u128, u128),
    /// A value leaves the range of the relocation at this section and offset.
    RelocRange(u32, u64),
    /// The file is no image.
    Image(ImageRefusal),
    /// The file is no graph: the first line that fails, from 1.
    Graph(u64, Reason),
    /// The file is no map, or none of the program: the first line that fails, from 1.
    Map(u64, MapReason),
    /// The file is no script: the first line that fails, from 1.
    Script(u64, Reason),
    /// The script is for so many harts, more than one, and the image for one.
    Harts(u8),
}

impl Refusal {
    /// The number that stands before what the refusal tells.
    pub fn number(&self) -> u8
        ensures { result ≡ refusal_number self.now }
    {
        match self {
            Refusal::Object(fault) => fault.number(),
            Refusal::ObjectIn(fault, _) => fault.number(),
            Refusal::Items(fault) => fault.number(),
            Refusal::UndefinedIn(..) => 15,
            Refusal::NoEntry => 17,
            Refusal::Policy(_) => 18,
            Refusal::CodeTooLarge(_) => 19,
            Refusal::DataTooLarge(..) => 20,
            Refusal::RelocRange(..) => 21,
            Refusal::Image(_) => 22,
            Refusal::Graph(..) => 23,
            Refusal::Map(..) => 24,
            Refusal::Script(..) => 25,
            Refusal::Harts(_) => 26,
            Refusal::Duplicate(_) => 27,
            Refusal::TooManySections(_) => 28,
        }
    }

    /// The name that stands at the end of the line, whatever its bytes are; empty where there is none.
    fn name(&self) -> &[u8]
        ensures { result.now ≡ name_told self.now }
    {
        match self {
            Refusal::Duplicate(name) => name.as_slice(),
            _ => b"",
        }
    }

    /// The line that tells the refusal, without the end of a line.
    pub fn line(&self, alloc: Global) -> Result<Vec<u8>, NoMemory>
        ensures { IfOk result (λ line. line.items ≡ refusal_line self.now) }
    {
        let number = self.number();
        let mut line = format!(in alloc; "refused {number} {self}")?.into_bytes();
        line.extend_from_slice(self.name())?;
        Ok(line)
    }
}

/// What the refusal tells behind its number, but for a name that is told as it is.
impl fmt::Display for Refusal {
    ghost use Rattle.std.specs.Prelude.{Some};
    ghost use Rattle.refusals.specs.Refusals.{refusal_text};

    ghost output = { λ refusal. Some (refusal_text refusal) };

    fn fmt<W: fmt::Write>(&self, f: &mut fmt::Formatter<W>) -> fmt::Result {
        match self {
            Refusal::Object(fault) => write!(f, "{fault}"),
            Refusal::ObjectIn(fault, object) => write!(f, "{fault} in {object}"),
            Refusal::TooManySections(count) => write!(f, "TooManySections {count}"),
            Refusal::Duplicate(_) => write!(f, "Duplicate "),
            Refusal::Items(fault) => write!(f, "{fault}"),
            Refusal::UndefinedIn(symbol, object) => write!(f, "Undefined {symbol} in {object}"),
            Refusal::NoEntry => write!(f, "NoEntry"),
            Refusal::Policy(line) => write!(f, "Policy {line}"),
            Refusal::CodeTooLarge(bytes) => write!(f, "CodeTooLarge {bytes}"),
            Refusal::DataTooLarge(init, end) => write!(f, "DataTooLarge {init} {end}"),
            Refusal::RelocRange(section, offset) => write!(f, "RelocRange {section} {offset}"),
            Refusal::Image(refusal) => write!(f, "{refusal}"),
            Refusal::Graph(line, reason) => write!(f, "Graph {line} {reason}"),
            Refusal::Map(line, reason) => write!(f, "Map {line} {reason}"),
            Refusal::Script(line, reason) => write!(f, "Script {line} {reason}"),
            Refusal::Harts(count) => write!(f, "Harts {count}"),
        }
    }
}
