ghost use Rattle.std.specs.Prelude.{◌≡◌, ◌<◌, [], Err, IfOk, IfSome, MatchResult, Ok, length, option_map};
ghost use Rattle.text_lines.specs.Answers.{AfterNoMemory, Answers, UnlessNoMemory};
ghost use Rattle.text_lines.specs.Lines.{lines_of, parts_after, words_of};
ghost use Rattle.text_lines.specs.Reading.{FirstCollected};
ghost use Rattle.cfi_policy.specs.Policy.{
  last_plus,
  named_at,
  place_of,
  places_of,
  listed_head,
  policy_begun,
  policy_head,
  policy_line_of,
  policy_of,
  policy_read,
  policy_rules,
  site_line_of,
};

use crate::policy::{PlaceName, PlaceNames, Policy, PolicyLine};
use cfi_graph::{judged_calls, line_after};
use rv_word::{Bytes, End, NoMemory, Numbers};
use std::alloc::Global;
use text_lines::{
    Case, LineFault, LineForm, Reason, after_one_of, cut, is_word, read_lines, short_hex_of,
};

/// Where the last `+` of a word stands.
fn last_plus(word: &[u8]) -> Option<usize>
    ensures at { result ≡ last_plus word.now }
    ensures below { IfSome result (λ k. k < length word.now) }
{
    let mut last = None;
    for i in 0..word.len() {
        if word[i] == b'+' {
            last = Some(i);
        }
    }
    last
}

/// The place that a word names, whose last `+` stands at `k`.
fn named_at(alloc: Global, word: &[u8], k: usize) -> Result<Option<PlaceName>, NoMemory>
    requires { k < length word.now }
    ensures { IfOk result (λ p. p ≡ named_at word.now k) }
{
    if k == 0 {
        return Ok(None);
    }
    let Some(offset) = short_hex_of(&word[k + 1..], Case::Either) else {
        return Ok(None);
    };
    let symbol = Bytes::of(Vec::from_slice(alloc, &word[..k])?);
    Ok(Some(PlaceName { symbol, offset }))
}

/// The place that a word names, if it names one.
fn place_of(alloc: Global, word: &[u8]) -> Result<Option<PlaceName>, NoMemory>
    ensures { IfOk result (λ p. p ≡ place_of word.now) }
{
    match last_plus(word) {
        Some(k) => named_at(alloc, word, k),
        None => Ok(None),
    }
}

/// The places that words name, or none where a word names none.
fn places(alloc: Global, words: Option<&[u8]>) -> Result<Option<PlaceNames>, NoMemory>
    ensures { IfOk result
        (λ r. r ≡ places_of (parts_after 32 (option_map (λ w. w.now) words.entry))) }
{
    let mut items = Vec::new(alloc);
    let mut left = words;
    while let Some(rest) = left {
        let (word, next) = cut(rest, b' ');
        let Some(place) = place_of(alloc, word)? else {
            return Ok(None);
        };
        items.push(place)?;
        left = next;
    }
    Ok(Some(PlaceNames::of(items)))
}

/// The line of a policy that has these words after its name.
fn site_line(alloc: Global, words: Option<&[u8]>) -> Result<Option<PolicyLine>, NoMemory>
    ensures { IfOk result
        (λ r. r ≡ site_line_of (parts_after 32 (option_map (λ w. w.now) words.entry))) }
{
    let Some(words) = words else {
        return Ok(None);
    };
    let (site, targets) = cut(words, b' ');
    let Some(site) = place_of(alloc, site)? else {
        return Ok(None);
    };
    let Some(targets) = places(alloc, targets)? else {
        return Ok(None);
    };
    Ok(Some(PolicyLine { site, targets }))
}

/// The line of a policy that these bytes spell, if they have the form of one.
fn policy_line_of(alloc: Global, line: &[u8]) -> Result<Option<PolicyLine>, NoMemory>
    ensures { IfOk result (λ r. r ≡ policy_line_of (words_of line.now)) }
{
    let (name, words) = cut(line, b' ');
    if is_word(name, b"site") {
        return site_line(alloc, words);
    }
    Ok(None)
}

/// The form of a policy's lines: the lines so far.
#[derive(Drop)]
struct PolicyForm {
    lines: Vec<PolicyLine>,
}

impl LineForm for PolicyForm {
    type Line = PolicyLine;

    type Before = ();

    type Item = PolicyLine;

    ghost rules = { λ form. policy_rules };

    ghost before = { λ form. tt };

    ghost items = { λ form. form.lines.items };

    fn line_of(&self, alloc: Global, line: &[u8]) -> Result<Option<PolicyLine>, NoMemory> {
        policy_line_of(alloc, line)
    }

    fn in_range(&self, _line: &PolicyLine) -> bool {
        true
    }

    fn in_order(&self, _line: &PolicyLine) -> bool {
        true
    }

    fn add(&mut self, line: PolicyLine) -> Result<(), NoMemory> {
        self.lines.push(line)?;
        Ok(())
    }
}

/// The first lines that a policy may have.
const NAMES: [&[u8]; 2] = [b"rvcfi-policy 1", b"rvcfi-policy 2"];

/// The list of system calls that is the second line, and what stands after it.
fn listed_head(text: &[u8]) -> Result<(Option<Numbers>, &[u8]), End<LineFault>>
    ensures { MatchResult result
        (λ told. listed_head (lines_of text.now) ≡ Ok (record { calls = told.0; lines = lines_of told.1.now }))
        (λ end. listed_head (lines_of text.now) ≡ Err end) }
{
    let (line, rest) = cut(text, b'\n');
    let Some(rest) = rest else {
        return Err(End::Fault(LineFault(2, Reason::Form)));
    };
    let calls = judged_calls(2, line)?;
    Ok((Some(calls), rest))
}

/// The list of system calls of a policy that has one, and what stands before its lines.
fn policy_head(text: &[u8]) -> Result<(Option<Numbers>, &[u8]), End<LineFault>>
    ensures { MatchResult result
        (λ told. policy_head text.now ≡ Ok (record { calls = told.0; lines = lines_of told.1.now }))
        (λ end. policy_head text.now ≡ Err end) }
{
    let (which, rest) = after_one_of(text, &NAMES)?;
    if which == 0 {
        return Ok((None, rest));
    }
    listed_head(rest)
}

/// Reads the text of a policy up to its first fault: the lines before that, and the fault, or that there
/// is none. The lines of a text count from 1.
pub fn read_policy_part(alloc: Global, text: &[u8]) -> (Policy, Result<(), End<LineFault>>)
    ensures exact { Answers result.1 (policy_read text.now).end }
    ensures lines { UnlessNoMemory result.1 (result.0 ≡ policy_begun text.now) }

    // After want of memory the first of these were collected.
    ensures begun { AfterNoMemory result.1 (FirstCollected [] result.0.lines (policy_read text.now).items) }
    ensures calls { result.0.calls ≡ (policy_begun text.now).calls }
{
    let lines = Vec::new(alloc);
    let (calls, rest) = match policy_head(text) {
        Ok(told) => told,
        Err(end) => return (Policy { calls: None, lines }, Err(end)),
    };
    let mut form = PolicyForm { lines };
    let first = line_after(2, &calls);
    let end = read_lines(alloc, &mut form, first, rest);
    let lines = form.lines;
    (Policy { calls, lines }, end)
}

/// Reads the text of a policy, of which it keeps no copy. The lines of a text count from 1.
pub fn read_policy(alloc: Global, text: &[u8]) -> Result<Policy, End<LineFault>>
    // The right answer, but for want of memory.
    ensures { Answers result (policy_of text.now) }
{
    let (policy, end) = read_policy_part(alloc, text);
    end?;
    Ok(policy)
}
