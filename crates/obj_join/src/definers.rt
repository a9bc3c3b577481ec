//! Which symbol defines each name, and which one each symbol is.

ghost use Rattle.std.specs.Prelude.{◌≡◌, ◌&&◌, ◌||◌, ◌<◌, not, IfOk, if◌then◌else◌, is_none, is_some, length, option_map, unwrap_or};
ghost use Rattle.std.specs.Option.{option_or};
ghost use Rattle.obj_input.specs.Listed.{listed};
ghost use Rattle.elf_names.specs.Numbers.{AreApart};
ghost use Rattle.obj_join.specs.Symbols.{is_some_symbol, names_of, symbol};
ghost use Rattle.obj_join.specs.Definer.{definer, first_called, is_common, is_private, is_shared, is_strong, is_weak, resolved};
ghost use Rattle.obj_join.specs.Duplicate.{duplicate, is_other, is_second};
ghost use Rattle.obj_join.specs.Found.{is_found};
ghost use Rattle.obj_join.specs.SaidInput.{is_named};

use crate::index::{index_of, look_up};
use crate::rank::Rank;
use crate::symbol::Symbol;
use rv_word::NoMemory;
use std::alloc::Global;
use std::collections::BTreeMap;
use std::marker::Model;

/// Symbols, numbered from 0, with the numbers of their names and the first of each name in each rank.
#[derive(Drop)]
pub struct Definers<'s, 'a> {
    symbols: &'s [Symbol<'a>],
    names: &'s [u64],
    strong: BTreeMap<u64, u64>,
    common: BTreeMap<u64, u64>,
    weak: BTreeMap<u64, u64>,
    private: BTreeMap<u64, u64>,
}

impl<'s, 'a> Model for Definers<'s, 'a> {
    ghost use Rattle.std.specs.Prelude.{List};
    ghost use Rattle.obj_join.specs.Said.{SymbolSaid};
    ghost use Rattle.obj_join.specs.Ranked.{AreFirsts};

    ghost Value = { List SymbolSaid };

    ghost view = { λ d. d.symbols.now };

    ghost invariant = { λ d. AreFirsts d.symbols.now d.names.now d.strong d.common d.weak d.private };
}

impl<'s, 'a> Definers<'s, 'a> {
    /// Those of these symbols, where `names` has the number of each one's name.
    #[tactic(auto, using(crate::proofs::Noted::names_counted))]
    pub fn of(
        alloc: Global,
        symbols: &'s [Symbol<'a>],
        names: &'s [u64],
    ) -> Result<Definers<'s, 'a>, NoMemory>
        requires { AreApart (names_of symbols.now) names.now }
        ensures { IfOk result (λ d. d ≡ symbols.now) }
    {
        let strong = index_of(alloc, Rank::Strong, symbols, names)?;
        let common = index_of(alloc, Rank::Common, symbols, names)?;
        let weak = index_of(alloc, Rank::Weak, symbols, names)?;
        let private = index_of(alloc, Rank::Private, symbols, names)?;
        Ok(Definers {
            symbols,
            names,
            strong,
            common,
            weak,
            private,
        })
    }

    /// The symbols.
    pub fn symbols(&self) -> &'s [Symbol<'a>]
        ensures { result.now ≡ self.now }
    {
        self.symbols
    }

    /// How many symbols there are.
    pub(crate) fn count(&self) -> u64
        ensures { result ≡ length self.now }
    {
        self.symbols.len() as u64
    }

    /// The symbol with this number.
    pub(crate) fn symbol(&self, number: u64) -> &'s Symbol<'a>
        requires { number < length self.now }
        ensures { result.now ≡ symbol self.now number }
    {
        let symbols = self.symbols();
        &symbols[number as usize]
    }

    /// The first symbol that defines the name of the one with this number strongly.
    fn strong(&self, number: u64) -> Option<u64>
        requires { number < length self.now }
        ensures { result ≡ first_called is_strong self.now (symbol self.now number).name }
    {
        look_up(&self.strong, self.names[number as usize])
    }

    /// The first common block of its name.
    fn common(&self, number: u64) -> Option<u64>
        requires { number < length self.now }
        ensures { result ≡ first_called is_common self.now (symbol self.now number).name }
    {
        look_up(&self.common, self.names[number as usize])
    }

    /// The first weak definition of its name.
    fn weak(&self, number: u64) -> Option<u64>
        requires { number < length self.now }
        ensures { result ≡ first_called is_weak self.now (symbol self.now number).name }
    {
        look_up(&self.weak, self.names[number as usize])
    }

    /// The first private symbol of its name.
    fn private(&self, number: u64) -> Option<u64>
        requires { number < length self.now }
        ensures { result ≡ first_called is_private self.now (symbol self.now number).name }
    {
        look_up(&self.private, self.names[number as usize])
    }

    /// The first common block of its name, or else its first weak definition.
    fn common_or_weak(&self, number: u64) -> Option<u64>
        requires { number < length self.now }
        ensures { result ≡ option_or (first_called is_common self.now (symbol self.now number).name) (first_called is_weak self.now (symbol self.now number).name) }
    {
        match self.common(number) {
            Some(first) => Some(first),
            None => self.weak(number),
        }
    }

    /// The symbol that defines the name of the one with this number.
    #[tactic(auto, unfolding(crate::specs::Definer::definer))]
    fn definer(&self, number: u64) -> Option<u64>
        requires { number < length self.now }
        ensures { result ≡ definer self.now (symbol self.now number).name }
    {
        match self.strong(number) {
            Some(first) => Some(first),
            None => self.common_or_weak(number),
        }
    }

    /// Which symbol the one with this number is, which is this one.
    fn resolved_symbol(&self, it: &Symbol, number: u64) -> u64
        requires { number < length self.now }
        ensures { result ≡ (if is_shared it.now then unwrap_or (definer self.now (symbol self.now number).name) number else if is_some_symbol it.now.standing then number else 0) }
    {
        if it.is_shared() {
            self.definer(number).unwrap_or(number)
        } else if it.is_some() {
            number
        } else {
            0
        }
    }

    /// Which symbol the one with this number is.
    #[tactic(auto, unfolding(crate::specs::Definer::resolved))]
    fn resolved(&self, number: u64) -> u64
        requires { number < length self.now }
        ensures { result ≡ resolved self.now number }
    {
        self.resolved_symbol(self.symbol(number), number)
    }

    /// Which symbol each one is.
    #[tactic(auto, using(crate::proofs::Listing::listings))]
    pub fn all_resolved(&self, alloc: Global) -> Result<Vec<u64>, NoMemory>
        ensures { IfOk result (λ v. v.items ≡ listed (resolved self.now) (length self.now)) }
    {
        let mut numbers = Vec::new(alloc);
        for number in 0..self.count() {
            numbers.push(self.resolved(number))?;
        }
        Ok(numbers)
    }

    /// Whether another symbol than the one with this number is the first that defines its name strongly.
    fn is_other(&self, number: u64) -> bool
        requires { number < length self.now }
        ensures { result ≡ is_other number (first_called is_strong self.now (symbol self.now number).name) }
    {
        match self.strong(number) {
            Some(first) => number != first,
            None => false,
        }
    }

    /// Whether the symbol with this number defines its name strongly, and another one before it does.
    fn is_second(&self, number: u64) -> bool
        requires { number < length self.now }
        ensures { result ≡ is_second self.now number }
    {
        self.symbol(number).has_rank(Rank::Strong) && self.is_other(number)
    }

    /// The name of the first symbol that defines it strongly though another one before it does.
    #[tactic(auto, using(least::proofs::Firsts::firsts), unfolding(crate::specs::Duplicate::duplicate))]
    pub fn duplicate(&self) -> Option<&'a [u8]>
        ensures { option_map (λ name. name.now) result ≡ duplicate self.now }
    {
        for number in 0..self.count() {
            if self.is_second(number) {
                return Some(self.symbol(number).name());
            }
        }
        None
    }

    /// Whether its name may find the symbol with this number, which is this one.
    fn finds(&self, it: &Symbol, number: u64) -> bool
        requires { number < length self.now }
        ensures { result ≡ (if is_shared it.now then is_some (definer self.now (symbol self.now number).name) || is_none (first_called is_private self.now (symbol self.now number).name) else is_none (definer self.now (symbol self.now number).name)) }
    {
        if it.is_shared() {
            self.definer(number).is_some() || self.private(number).is_none()
        } else {
            self.definer(number).is_none()
        }
    }

    /// Whether the symbol with this number stands for something, and its name may find it.
    #[tactic(auto, unfolding(crate::specs::Found::is_found))]
    pub(crate) fn is_named(&self, number: u64) -> bool
        requires { number < length self.now }
        ensures { result ≡ is_named (is_found self.now) self.now number }
    {
        let symbol = self.symbol(number);
        symbol.is_some() && self.finds(symbol, number)
    }
}
