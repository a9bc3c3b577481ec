//! The program's run, taken to its end.

ghost use Rattle.std.specs.Prelude.{◌≡◌, ◌↔◌, ◌≤◌, ◌^◌, true, IfOk};
ghost use Rattle.cfi_compare.specs.Followed.{IsFinished};
ghost use Rattle.cfi_compare.specs.Told.{IsOwnState};

use rv_word::NoMemory;
use src_machine::{SourceRun, SourceTurn};

/// Whether the next step may come.
fn goes_on(turn: SourceTurn) -> bool
    ensures { result ≡ true ↔ turn ≡ SourceTurn.Ran }
{
    matches!(turn, SourceTurn::Ran)
}

/// Takes steps until the program ends, is untame or has taken `limit` of them.
pub(crate) fn finish(source: &mut SourceRun, limit: u64) -> Result<SourceTurn, NoMemory>
    requires fresh { source.old.steps ≡ 0 }
    requires limit { limit ≤ 2 ^ 58 }
    ensures finished { IfOk result (λ turn. IsFinished source.old limit turn source.new) }
    ensures own { IsOwnState source.old limit source.new }
{
    while source.steps() < limit {
        let turn = source.step()?;
        if !goes_on(turn) {
            return Ok(turn);
        }
    }
    Ok(SourceTurn::Ran)
}
