ghost use Rattle.std.specs.Prelude.{◌≡◌, ◌<◌, ◌≤◌, ◌++◌, ◌∷◌, ◌^◌, [], length};
ghost use Rattle.std.specs.List.{AllByRecursion};
ghost use Rattle.rv_word.specs.Numbers.{IsNumber, MOST_NUMBERS};

use std::marker::Model;

/// How many numbers of system calls a list may have.
pub const MOST_NUMBERS: usize = 8;

/// The numbers of the system calls that a program may make: at most eight, each below 2^11, in the
/// order in which they were put.
#[derive(Clone, Copy, PartialEq, Eq)]
pub struct Numbers {
    items: [u16; 8],
    count: usize,
}

impl Model for Numbers {
    ghost use Rattle.std.specs.Prelude.{◌≡◌, ◌≤◌, ◌-◌, ◌++◌, List, ℕ, drop, length, replicate, take};
    ghost use Rattle.std.specs.List.{AllByRecursion};
    ghost use Rattle.std.proofs.Common.{◌∙◌, ap, subst, sym};
    ghost use Rattle.std.proofs.lemmas.List.{length-take-le, take-append-drop};
    ghost use Rattle.rv_word.specs.Numbers.{IsNumber};

    ghost Value = { List ℕ };

    ghost view = { λ n. take n.count n.items };

    ghost invariant = { λ n. (n.count ≤ 8) × (length n.items ≡ 8) × (drop n.count n.items ≡ replicate (8 - n.count) 0) × AllByRecursion IsNumber n.items };

    ghost inverse = { λ ns. record { items = ns ++ replicate (8 - length ns) 0; count = length ns } };

    ghost inverse_ok = { λ n h i. record {
      items = (ap (λ k. take n.count n.items ++ replicate (8 - k) 0) (length-take-le n.count n.items (subst (λ k. n.count ≤ k) (sym h.1) h.0))
          ∙ ap (λ l. take n.count n.items ++ l) (sym h.2) ∙ take-append-drop n.count n.items) i;
      count = length-take-le n.count n.items (subst (λ k. n.count ≤ k) (sym h.1) h.0) i;
    } };
}

impl Numbers {
    /// No numbers.
    pub fn new() -> Self
        ensures { result ≡ [] }
    {
        Numbers {
            items: [0; 8],
            count: 0,
        }
    }

    /// Puts a number behind the others.
    pub fn push(&mut self, number: u16)
        requires room { length self.old < MOST_NUMBERS }
        requires small { IsNumber number }
        ensures { self.new ≡ self.old ++ number ∷ [] }
    {
        self.items[self.count] = number;
        self.count += 1;
    }

    /// How many numbers.
    pub fn len(&self) -> usize
        ensures value { result ≡ length self.now }
        ensures most { length self.now ≤ MOST_NUMBERS }
    {
        self.count
    }

    /// The numbers, lent.
    pub fn as_slice(&self) -> &[u16]
        ensures items { result.now ≡ self.now }
        ensures most { length self.now ≤ MOST_NUMBERS }
        ensures small { AllByRecursion IsNumber self.now }
    {
        &self.items[..self.count]
    }
}
