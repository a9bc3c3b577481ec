ghost use Rattle.std.specs.Prelude.{◌≡◌};
ghost use Rattle.cfi_rules.specs.RejectText.{rule_text};

use std::fmt;
use text_lines::Address;

/// The rules that have an address, in the order in which they are asked.
#[derive(Clone, Copy, Debug)]
pub enum Rule {
    /// The code does not begin with the prologue.
    Prologue,
    /// No unit fits at a place where one must begin, or one does that the graph does not admit, or not inside or outside of a leaf.
    Unit,
    /// A leaf does not begin or end at a unit's start, or a unit goes on to one of another kind.
    Leaf,
    /// A direct transfer goes to no unit's start, or to one of another kind.
    Target,
    /// A direct transfer has no line in the graph.
    Unlisted,
    /// An edge or call line stands where no such transfer does.
    Unused,
    /// A computed transfer and the graph's site lines do not agree.
    Site,
    /// Of a class's target the word that the checks read is no gate of the class, or does not stand as it has to.
    Gate,
    /// A gate with a class's label is at no such word of its targets.
    Astray,
    /// The last unit is not a stop.
    End,
}

/// The name of a rule.
fn rule_name(rule: Rule) -> &'static str
    ensures { result.now ≡ rule_text rule }
{
    match rule {
        Rule::Prologue => "Prologue",
        Rule::Unit => "Unit",
        Rule::Leaf => "Leaf",
        Rule::Target => "Target",
        Rule::Unlisted => "Unlisted",
        Rule::Unused => "Unused",
        Rule::Site => "Site",
        Rule::Gate => "Gate",
        Rule::Astray => "Astray",
        Rule::End => "End",
    }
}

impl fmt::Display for Rule {
    ghost use Rattle.std.specs.Prelude.{Some};
    ghost use Rattle.cfi_rules.specs.RejectText.{rule_text};

    ghost output = { λ rule. Some (rule_text rule) };

    fn fmt<W: fmt::Write>(&self, f: &mut fmt::Formatter<W>) -> fmt::Result {
        f.write_str(rule_name(*self))
    }
}

/// Why an image and a graph are rejected.
#[derive(Clone, Copy, Debug)]
pub enum Reject {
    /// The length of the code and the length that the graph gives, in bytes.
    Length(u32, u32),
    /// The first rule that fails, and the least address at which it does.
    At(Rule, u64),
}

impl fmt::Display for Reject {
    ghost use Rattle.std.specs.Prelude.{Some};
    ghost use Rattle.cfi_rules.specs.RejectText.{reject_text};

    ghost output = { λ reject. Some (reject_text reject) };

    fn fmt<W: fmt::Write>(&self, f: &mut fmt::Formatter<W>) -> fmt::Result {
        match *self {
            Reject::Length(code, graph) => write!(f, "Length {code} {graph}"),
            Reject::At(rule, address) => {
                let address = Address(address);
                write!(f, "{rule} {address}")
            }
        }
    }
}
