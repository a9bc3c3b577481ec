use std::error::Error;
use std::fmt;

/// Why a line of a text is refused.
#[derive(Clone, Copy, Debug, PartialEq, Eq)]
pub enum Reason {
    /// The line is none that may stand there, or its newline is missing.
    Form,
    /// A number in the line is not allowed.
    Range,
    /// The line does not rise above the one before it.
    Order,
}

impl fmt::Display for Reason {
    ghost use Rattle.std.specs.Prelude.{Some};
    ghost use Rattle.text_lines.specs.Reasons.{reason_name};

    ghost output = { λ reason. Some (reason_name reason) };

    fn fmt<W: fmt::Write>(&self, f: &mut fmt::Formatter<W>) -> fmt::Result {
        match self {
            Reason::Form => write!(f, "Form"),
            Reason::Range => write!(f, "Range"),
            Reason::Order => write!(f, "Order"),
        }
    }
}

impl Error for Reason {}
