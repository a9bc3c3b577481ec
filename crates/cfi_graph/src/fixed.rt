//! Edges, calls and sites, which are most lines of a graph of each version: each byte of such a line has its
//! place, so they are read without a search for their newline and their spaces.

ghost use Rattle.std.specs.Prelude.{◌≡◌, ◌∷◌, ◌++◌, ℕ, IfSome, Some, length};
ghost use Rattle.std.specs.Str.{bytes_eq};
ghost use Rattle.rv_image.specs.declared.version.GraphVersion.{GraphVersion};
ghost use Rattle.text_lines.specs.Lines.{words_of};
ghost use Rattle.text_lines.specs.Reading.{FirstLine};
ghost use Rattle.cfi_graph.specs.Lines.{line_of};
ghost use Rattle.cfi_graph.specs.Reading.{graph_rules};

use crate::forms::site_from;
use crate::line::GraphLine;
use text_lines::hex_of;

/// Whether a word of four letters is a name, by comparisons that need no call.
#[inline(always)]
fn is_name(word: &[u8], name: &[u8; 4]) -> bool
    requires { length word.now ≡ 4 }
    ensures { result ≡ bytes_eq word.now name.now }
{
    word[0] == name[0] && word[1] == name[1] && word[2] == name[2] && word[3] == name[3]
}

/// The length of a line of a name of four letters and two addresses.
pub(crate) const PAIR_LINE: usize = 22;

/// The edge or call that a line of four letters, a space, eight digits, a space and eight digits spells. Of
/// any other line it says nothing.
#[inline(always)]
fn pair_line(line: &[u8]) -> Option<GraphLine>
    ensures { IfSome result (λ l. (version : GraphVersion) → line_of version (words_of line.now) ≡ Some l) }
{
    if line.len() != PAIR_LINE {
        return None;
    }
    if line[4] != b' ' || line[13] != b' ' {
        return None;
    }
    let from = hex_of(&line[5..13], 8)?;
    let to = hex_of(&line[14..], 8)?;
    if is_name(&line[..4], b"edge") {
        return Some(GraphLine::Edge(u64::from(from), u64::from(to)));
    }
    if is_name(&line[..4], b"call") {
        return Some(GraphLine::Call(u64::from(from), u64::from(to)));
    }
    None
}

/// The length of the line of a site.
const SITE_LINE: usize = 24;

/// The site that a line of its name, an address, a name of four letters and a label spells. Of any other
/// line it says nothing.
#[inline(always)]
fn site_line(line: &[u8]) -> Option<GraphLine>
    ensures { IfSome result (λ l. (version : GraphVersion) → line_of version (words_of line.now) ≡ Some l) }
{
    if line.len() != SITE_LINE {
        return None;
    }
    if line[4] != b' ' || line[13] != b' ' || line[18] != b' ' {
        return None;
    }
    if is_name(&line[..4], b"site") {
        return site_from(&line[5..13], &line[14..18], &line[19..]);
    }
    None
}

/// The first bytes of a text, and those after the newline that stands behind them, if one stands there.
#[inline(always)]
fn before_newline(text: &[u8], len: usize) -> Option<(&[u8], &[u8])>
    ensures { IfSome result (λ p. text.now ≡ p.0.now ++ 10 ∷ p.1.now) }
{
    if len < text.len() && text[len] == b'\n' {
        return Some((&text[..len], &text[len + 1..]));
    }
    None
}

/// The edge, call or site that the first line of a text spells, and what stands after that line. Of any
/// other line it says nothing.
#[inline(always)]
pub(crate) fn first_line(text: &[u8]) -> Option<(GraphLine, &[u8])>
    ensures { IfSome result (λ f. (version : GraphVersion) (len : ℕ) → FirstLine (graph_rules version len) text.now f.0 f.1.now) }
{
    if let Some((line, rest)) = before_newline(text, PAIR_LINE) {
        let found = pair_line(line)?;
        return Some((found, rest));
    }
    let (line, rest) = before_newline(text, SITE_LINE)?;
    let found = site_line(line)?;
    Some((found, rest))
}
