//! Texts by their numbers.

ghost use Rattle.std.specs.Prelude.{◌≡◌, ◌∷◌, ◌++◌, [], List, ℕ, None, Some, IfOk, OnOk, length};
ghost use Rattle.elf_names.specs.Numbers.{AreApart, AreNumbers};
ghost use Rattle.elf_names.specs.Texts.{FitsOn, Grows, Has, looked_up};

use rv_word::NoMemory;
use std::alloc::Global;
use std::collections::BTreeMap;
use std::marker::Model;

/// Texts, each with its index as its number. No two are equal. Number 0 is the empty text; each other one is a block of at
/// most 64 bytes in front of a text of whole blocks.
#[derive(Drop)]
pub struct Texts<'a> {
    nodes: Vec<(u64, &'a [u8])>,
    index: BTreeMap<(u64, &'a [u8]), u64>,
}

impl<'a> Model for Texts<'a> {
    ghost use Rattle.std.specs.Prelude.{List, ℕ};
    ghost use Rattle.elf_names.specs.Texts.{AreTexts, texts_of};

    ghost Value = { List (List ℕ) };

    ghost view = { λ t. texts_of t.nodes.items };

    ghost invariant = { λ t. AreTexts (texts_of t.nodes.items) t.index };
}

/// The number of the text that is a block in front of the text with a number.
fn look_up<'a>(index: &BTreeMap<(u64, &'a [u8]), u64>, tail: u64, block: &'a [u8]) -> Option<u64>
    ensures { result ≡ looked_up tail block.now index.now }
{
    index.get(&(tail, block)).copied()
}

impl<'a> Texts<'a> {
    /// The empty text alone.
    pub fn new(alloc: Global) -> Texts<'a>
        ensures { result ≡ [] ∷ [] }
    {
        Texts {
            nodes: Vec::new(alloc),
            index: BTreeMap::new(alloc),
        }
    }

    /// The number of the empty text.
    pub(crate) fn empty(&self) -> u64
        ensures { Has self.now result [] }
    {
        let _count = self.nodes.len();
        0
    }

    /// Names are equal where their numbers are, and nowhere else.
    pub fn tells_apart(&self, numbers: &[u64])
        ensures { (names : List (List ℕ)) → AreNumbers self.now numbers.now names → AreApart names numbers.now }
    {
        let _count = self.nodes.len();
    }

    /// Puts the text that is a block in front of the text with a number behind the others, where it is none of them.
    fn push(&mut self, tail: u64, block: &'a [u8]) -> Result<u64, NoMemory>
        requires fits { FitsOn self.old tail block.now }
        requires missing { (i : ℕ) → (x : List ℕ) → Has self.old tail x → Has self.old i (block.now ++ x) → ⊥ }
        ensures grown { OnOk result (Grows self.old self.new) }
        ensures put { IfOk result (λ n. (x : List ℕ) → Has self.old tail x → Has self.new n (block.now ++ x)) }
    {
        let number = self.nodes.len() as u64 + 1;
        self.nodes.reserve(1)?;
        self.index.insert((tail, block), number)?;
        self.nodes.push_reserved((tail, block));
        Ok(number)
    }

    /// The number of the text that is a block in front of the text with a number, which gets one if it has none.
    pub(crate) fn number(&mut self, tail: u64, block: &'a [u8]) -> Result<u64, NoMemory>
        requires { FitsOn self.old tail block.now }
        ensures grown { OnOk result (Grows self.old self.new) }
        ensures put { IfOk result (λ n. (x : List ℕ) → Has self.old tail x → Has self.new n (block.now ++ x)) }
    {
        match look_up(&self.index, tail, block) {
            Some(number) => Ok(number),
            None => self.push(tail, block),
        }
    }
}
