//! Words of a command that name files or a number of steps.

ghost use Rattle.std.specs.Prelude.{◌≡◌, ◌≤◌, IfSome, option_map};
ghost use Rattle.text_lines.specs.Decimal.{MAX_STEP};
ghost use Rattle.tool_common.specs.Words.{file_word, steps_of, text_named};

use text_lines::{MAX_STEP, capped_number};

/// The name of a file, if the word is one.
pub fn file_word(word: &str) -> Option<&str>
    ensures { option_map (λ name. name.now) result ≡ file_word word.now }
{
    if word == "none" { None } else { Some(word) }
}

/// The text of a file, where one was named.
pub fn text_named<'a>(name: Option<&str>, bytes: &'a [u8]) -> Option<&'a [u8]>
    ensures { option_map (λ t. t.now) result ≡ text_named (option_map (λ n. n.now) name.entry) bytes.now }
{
    match name {
        Some(_) => Some(bytes),
        None => None,
    }
}

/// The number of steps that a word asks for.
#[tactic(auto, using(crate::proofs::Capped::steps_capped))]
pub fn steps(word: &str) -> Option<u64>
    ensures asked { result ≡ steps_of word.now }
    ensures few { IfSome result (λ n. n ≤ MAX_STEP) }
{
    let digits = word.as_bytes();
    if digits.is_empty() || digits.len() > 10 {
        return None;
    }
    let steps = capped_number(digits)?;
    if steps <= MAX_STEP { Some(steps) } else { None }
}
