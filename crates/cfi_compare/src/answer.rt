ghost use Rattle.std.specs.Prelude.{◌≡◌};
ghost use Rattle.cfi_compare.specs.Text.{reason_name};

use crate::item::SideItem;
use src_machine::Reason;
use std::fmt;

/// How a program's run and its image's compare. Indices are from 0.
#[derive(Drop)]
pub enum Compared {
    /// The program ended, and the image's run has the same system calls, so many, and the same end.
    Same(u64),
    /// At this index the lists differ, with the program's item and then the image's.
    Differs(u64, SideItem, SideItem),
    /// Why the program's step at this place was not taken: a section's number and an offset in it, in bytes.
    Untame(Reason, u32, u64),
    /// The limit was reached, and up to there nothing differs.
    Limit,
}

/// The name of a reason.
fn reason_name(reason: Reason) -> &'static str
    ensures { result.now ≡ reason_name reason }
{
    match reason {
        Reason::Graph => "graph",
        Reason::Return => "return",
        Reason::Window => "window",
        Reason::Deep => "deep",
        Reason::End => "end",
        Reason::Call => "call",
    }
}

impl fmt::Display for Compared {
    ghost use Rattle.std.specs.Prelude.{Some};
    ghost use Rattle.cfi_compare.specs.Text.{answer_text};

    ghost output = { λ answer. Some (answer_text answer) };

    fn fmt<W: fmt::Write>(&self, f: &mut fmt::Formatter<W>) -> fmt::Result {
        match self {
            Compared::Same(events) => write!(f, "same {events}"),
            Compared::Differs(index, source, image) => {
                write!(f, "differs {index}\nsource {source}\nimage {image}")
            }
            Compared::Untame(reason, section, offset) => {
                let reason = reason_name(*reason);
                write!(f, "untame {reason} {section} {offset}")
            }
            Compared::Limit => write!(f, "limit"),
        }
    }
}
