//! Short lists of words that take no memory.
ghost use Rattle.std.specs.Prelude.{◌≡◌, ◌+◌, ◌<◌, ◌≤◌, ◌==◌, [], ◌∷◌, ◌++◌, length, map};
ghost use Rattle.rv_code.specs.Encode.{code_of};

use rv_code::encode;
use rv_instr::Instr;
use std::marker::Model;

/// The words of one unit: no unit has more than twenty.
pub(crate) type UnitCode = WordList<20>;

/// A list of at most `N` words.
#[derive(Drop)]
pub struct WordList<const N: usize> {
    words: [u32; N],
    count: usize,
}

impl<const N: usize> Model for WordList<N> {
    ghost use Rattle.std.specs.Prelude.{List, ℕ, ◌≤◌, take};

    ghost Value = { List ℕ };

    ghost view = { λ w. take w.count w.words };

    ghost invariant = { λ w. w.count ≤ N };
}

impl<const N: usize> WordList<N> {
    /// No words.
    pub fn new() -> Self
        ensures { result ≡ [] }
    {
        WordList {
            words: [0; N],
            count: 0,
        }
    }

    /// Whether there is room for no more.
    pub fn is_full(&self) -> bool
        ensures { result ≡ (length self.now == N) }
    {
        self.count == N
    }

    /// Puts a word at the end.
    pub fn push(&mut self, word: u32)
        requires { length self.old < N }
        ensures { self.new ≡ self.old ++ word ∷ [] }
    {
        self.words[self.count] = word;
        self.count += 1;
    }

    /// The words, lent.
    pub fn as_slice(&self) -> &[u32]
        ensures { result.now ≡ self.now }
    {
        &self.words[..self.count]
    }

    /// Puts the words of instructions at the end.
    pub(crate) fn put(&mut self, instrs: &[Instr])
        requires { length self.old + length instrs.now ≤ N }
        ensures { self.new ≡ self.old ++ map code_of instrs.now }
    {
        for instr in instrs {
            self.push(encode(*instr));
        }
    }
}
