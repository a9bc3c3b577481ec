use std::fmt;
use text_lines::Reason;

/// Why a line of a map is not taken.
#[derive(Clone, Copy)]
pub enum MapReason {
    /// For its text.
    Text(Reason),
    /// It is no legal placement's.
    Place,
}

impl fmt::Display for MapReason {
    ghost use Rattle.std.specs.Prelude.{Some};
    ghost use Rattle.refusals.specs.Refusals.{map_reason};

    ghost output = { λ reason. Some (map_reason reason) };

    fn fmt<W: fmt::Write>(&self, f: &mut fmt::Formatter<W>) -> fmt::Result {
        match self {
            MapReason::Text(reason) => write!(f, "{reason}"),
            MapReason::Place => write!(f, "Place"),
        }
    }
}
