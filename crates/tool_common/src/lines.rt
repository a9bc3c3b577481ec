//! A line of output.

ghost use Rattle.std.specs.Prelude.{◌≡◌, IfOk, IfSome};
ghost use Rattle.tool_common.specs.Lines.{with_newline};
ghost use Rattle.refusals.specs.Refusals.{refusal_line};

use refusals::Refusal;
use rv_word::NoMemory;
use std::alloc::Global;
use std::fmt::Display;

/// The line of what is shown.
pub fn line<T: Display>(alloc: Global, shown: &T) -> Result<Vec<u8>, NoMemory>
    ensures { IfSome (T.output shown.now) (λ text. IfOk result (λ line. line.items ≡ with_newline text)) }
{
    let line = format!(in alloc; "{shown}\n")?;
    Ok(line.into_bytes())
}

/// The line of a refusal.
pub fn refusal_line(alloc: Global, refusal: &Refusal) -> Result<Vec<u8>, NoMemory>
    ensures { IfOk result (λ line. line.items ≡ with_newline (refusal_line refusal.now)) }
{
    let mut line = refusal.line(alloc)?;
    line.push(b'\n')?;
    Ok(line)
}
