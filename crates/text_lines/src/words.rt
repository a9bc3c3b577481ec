//! A line, cut into words.

ghost use Rattle.std.specs.Prelude.{◌≡◌, ◌<◌, ◌≤◌, ◌==◌, false, length, take, IfSome, option_map, position, ◌∷◌};
ghost use Rattle.std.specs.Str.{bytes_eq};
ghost use Rattle.std.specs.List.{list_any, slice_split};
ghost use Rattle.text_lines.specs.Lines.{parts_after};

/// How many bytes are searched at once.
const BLOCK: usize = 16;

/// Whether a block has the separator: all its bytes are asked, so that they can be asked at once.
fn has(block: &[u8], separator: u8) -> bool
    ensures { result ≡ list_any (λ b. b == separator) block.now }
{
    let mut found = false;
    for byte in block {
        found |= *byte == separator;
    }
    found
}

/// How many bytes of whole blocks stand before the first block that has the separator, or before what is
/// no whole block.
fn skipped(bytes: &[u8], separator: u8) -> usize
    ensures within { result ≤ length bytes.now }
    ensures none { list_any (λ b. b == separator) (take result bytes.now) ≡ false }
{
    let mut start = 0;
    while bytes.len() - start >= BLOCK {
        if has(&bytes[start..start + BLOCK], separator) {
            return start;
        }
        start += BLOCK;
    }
    start
}

/// Where the first `separator` stands, by one byte after the other.
fn first(bytes: &[u8], separator: u8) -> Option<usize>
    ensures at { result ≡ position (λ b. b == separator) bytes.now }
    ensures below { IfSome result (λ at. at < length bytes.now) }
{
    bytes.iter().position(|b| *b == separator)
}

/// Where the first `separator` stands.
fn find(bytes: &[u8], separator: u8) -> Option<usize>
    ensures at { result ≡ position (λ b. b == separator) bytes.now }
    ensures below { IfSome result (λ at. at < length bytes.now) }
{
    let start = skipped(bytes, separator);
    let at = first(&bytes[start..], separator)?;
    Some(start + at)
}

/// The part of `bytes` before the first `separator`, and what stands after it, if there is one.
pub fn cut(bytes: &[u8], separator: u8) -> (&[u8], Option<&[u8]>)
    ensures shorter { IfSome result.1 (λ rest. length rest.now < length bytes.now) }
    ensures parts { slice_split (λ b. b == separator) bytes.now
        ≡ result.0.now ∷ parts_after separator (option_map (λ r. r.now) result.1) }
{
    match find(bytes, separator) {
        Some(at) => (&bytes[..at], Some(&bytes[at + 1..])),
        None => (bytes, None),
    }
}

/// Whether a word is `name`.
pub fn is_word(word: &[u8], name: &[u8]) -> bool
    ensures { result ≡ bytes_eq word.now name.now }
{
    word == name
}
