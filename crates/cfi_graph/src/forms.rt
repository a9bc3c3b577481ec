//! What the words of a graph's line spell.

ghost use Rattle.std.specs.Prelude.{◌≡◌, ◌∷◌, ◌<◌, IfOk, IfSome, length, option_and_then, option_map};
ghost use Rattle.cfi_graph.specs.Lines.{
  addresses_of,
  class_of,
  kind_of,
  length_of,
  line_of,
  other_of,
  pair_of,
  site_from,
  site_of,
  sort_named,
  sort_with,
  two_addresses,
};
ghost use Rattle.text_lines.specs.Lines.{parts_after, words_of};

use crate::line::{GraphLine, SiteKind, Sort, has_leaves};
use rv_image::GraphVersion;
use rv_word::{NoMemory, Places};
use std::alloc::Global;
use text_lines::{cut, hex_of, is_word};

/// The address that the first of these words spells, if it spells one, and the words after it. Where a space
/// stands behind eight digits, it need not be searched.
fn first_address(words: &[u8]) -> Option<(u32, Option<&[u8]>)>
    ensures spelled { addresses_of (words_of words.now) ≡ option_and_then (λ r. option_map (λ others. r.0 ∷ others)
        (addresses_of (parts_after 32 (option_map (λ w. w.now) r.1)))) result }
    ensures shorter { IfSome result (λ r. IfSome r.1 (λ rest. length rest.now < length words.now)) }
{
    if words.len() > 8 && words[8] == b' ' {
        if let Some(address) = hex_of(&words[..8], 8) {
            return Some((address, Some(&words[9..])));
        }
    }
    let (word, rest) = cut(words, b' ');
    let address = hex_of(word, 8)?;
    Some((address, rest))
}

/// The addresses that words spell, or none where a word is no address.
fn addresses(alloc: Global, words: Option<&[u8]>) -> Result<Option<Places>, NoMemory>
    ensures { IfOk result
        (λ r. r ≡ addresses_of (parts_after 32 (option_map (λ w. w.now) words.entry))) }
{
    let mut items = Vec::new(alloc);
    let mut left = words;
    while let Some(rest) = left {
        let Some((address, next)) = first_address(rest) else {
            return Ok(None);
        };
        items.push(u64::from(address))?;
        left = next;
    }
    Ok(Some(Places::of(items)))
}

/// The line of a class of this sort that has these words after its name.
fn class(alloc: Global, sort: Sort, words: Option<&[u8]>) -> Result<Option<GraphLine>, NoMemory>
    ensures { IfOk result
        (λ r. r ≡ class_of sort (parts_after 32 (option_map (λ w. w.now) words.entry))) }
{
    let Some(words) = words else {
        return Ok(None);
    };
    let (label, targets) = cut(words, b' ');
    let Some(label) = hex_of(label, 5) else {
        return Ok(None);
    };
    let Some(targets) = addresses(alloc, targets)? else {
        return Ok(None);
    };
    Ok(Some(GraphLine::Class(sort, label, targets)))
}

/// The sort whose classes have a name.
fn sort_with(name: &[u8]) -> Option<Sort>
    ensures { result ≡ sort_with name.now }
{
    if is_word(name, b"class") {
        return Some(Sort::Both);
    }
    if is_word(name, b"callclass") {
        return Some(Sort::Calls);
    }
    if is_word(name, b"jumpclass") {
        return Some(Sort::Jumps);
    }
    None
}

/// The sort of a version whose classes have a name.
fn sort_named(version: GraphVersion, name: &[u8]) -> Option<Sort>
    ensures { result ≡ sort_named version name.now }
{
    let sort = sort_with(name)?;
    if sort.is_of(version) {
        return Some(sort);
    }
    None
}

/// The kind of transfer that a word names.
fn kind(name: &[u8]) -> Option<SiteKind>
    ensures { result ≡ kind_of name.now }
{
    if is_word(name, b"call") {
        return Some(SiteKind::Call);
    }
    if is_word(name, b"jump") {
        return Some(SiteKind::Jump);
    }
    None
}

/// The site line of an address, a kind and a label.
#[inline(always)]
pub(crate) fn site_from(address: &[u8], name: &[u8], label: &[u8]) -> Option<GraphLine>
    ensures { result ≡ site_from address.now name.now label.now }
{
    let address = hex_of(address, 8)?;
    let kind = kind(name)?;
    let label = hex_of(label, 5)?;
    Some(GraphLine::Site(u64::from(address), kind, label))
}

/// The site line that has these words after its name.
fn site(words: Option<&[u8]>) -> Option<GraphLine>
    ensures { result ≡ site_of (parts_after 32 (option_map (λ w. w.now) words.entry)) }
{
    let (address, rest) = cut(words?, b' ');
    let (name, rest) = cut(rest?, b' ');
    let (label, rest) = cut(rest?, b' ');
    if let Some(_more) = rest {
        return None;
    }
    site_from(address, name, label)
}

/// The addresses that two words spell.
fn two_addresses(from: &[u8], to: &[u8]) -> Option<(u64, u64)>
    ensures { result ≡ two_addresses from.now to.now }
{
    let from = hex_of(from, 8)?;
    let to = hex_of(to, 8)?;
    Some((u64::from(from), u64::from(to)))
}

/// The two addresses that these words spell.
fn pair(words: Option<&[u8]>) -> Option<(u64, u64)>
    ensures { result ≡ pair_of (parts_after 32 (option_map (λ w. w.now) words.entry)) }
{
    let (from, rest) = cut(words?, b' ');
    let (to, rest) = cut(rest?, b' ');
    if let Some(_more) = rest {
        return None;
    }
    two_addresses(from, to)
}

/// The line of a graph of this version that is no class's, of this name and these words after it.
fn other(version: GraphVersion, name: &[u8], words: Option<&[u8]>) -> Option<GraphLine>
    ensures { result ≡ other_of version name.now (parts_after 32 (option_map (λ w. w.now) words.entry)) }
{
    if is_word(name, b"site") {
        return site(words);
    }
    if is_word(name, b"edge") {
        return pair(words).map(|(from, to)| GraphLine::Edge(from, to));
    }
    if is_word(name, b"call") {
        return pair(words).map(|(from, to)| GraphLine::Call(from, to));
    }
    if is_word(name, b"leaf") && has_leaves(version) {
        return pair(words).map(|(from, to)| GraphLine::Leaf(from, to));
    }
    None
}

/// The line of a graph of this version that these bytes spell, if they have the form of one.
#[tactic(auto, unfolding(crate::specs::Lines::line_of))]
pub(crate) fn line_of(
    alloc: Global,
    version: GraphVersion,
    line: &[u8],
) -> Result<Option<GraphLine>, NoMemory>
    ensures { IfOk result (λ r. r ≡ line_of version (words_of line.now)) }
{
    let (name, words) = cut(line, b' ');
    match sort_named(version, name) {
        Some(sort) => class(alloc, sort, words),
        None => Ok(other(version, name, words)),
    }
}

/// The length of the code that the second line gives, if the line has its form.
pub(crate) fn code_length(line: &[u8]) -> Option<u32>
    ensures { result ≡ length_of (words_of line.now) }
{
    let (name, rest) = cut(line, b' ');
    let (start, rest) = cut(rest?, b' ');
    let (length, rest) = cut(rest?, b' ');
    if let Some(_more) = rest {
        return None;
    }
    if !is_word(name, b"code") {
        return None;
    }
    if !is_word(start, b"40000000") {
        return None;
    }
    hex_of(length, 8)
}
