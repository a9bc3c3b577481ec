ghost use Rattle.std.specs.Prelude.{◌≡◌, ◌<◌, ◌≤◌, ◌∷◌, IfOk, drop, length, slice_get};
ghost use Rattle.cfi_rules.specs.Walks.{walk_start};
ghost use Rattle.cfi_walk.specs.Moves.{HasRoom, MOST_SITES, after};

use rv_image::profile::START;
use rv_word::NoMemory;
use std::alloc::Global;
use std::marker::Model;

/// How many sites a walk makes room for: those that the shadow stack holds, and one in x1.
const ROOM: usize = 8192;

/// What a step does with the pending sites.
#[derive(Clone, Copy)]
pub(crate) enum Move {
    Keep,
    /// Puts a site on top.
    Push(u64),
    /// Takes the newest site off.
    Pop,
}

/// Where a walk along a graph has come to, with the sites of the calls that are pending there.
#[derive(Drop)]
pub struct Walk {
    address: u64,
    pending: Vec<u64>,
}

impl Model for Walk {
    ghost use Rattle.std.specs.Prelude.{◌≤◌, reverse, vec_capacity, vec_len};
    ghost use Rattle.cfi_rules.specs.Walks.{WalkState};
    ghost use Rattle.cfi_walk.specs.Moves.{MOST_SITES};

    ghost Value = { WalkState };

    ghost view = { λ w. record { at = w.address; pending = reverse w.pending.items } };

    ghost invariant = { λ w. (vec_len w.pending ≤ MOST_SITES) × (MOST_SITES ≤ vec_capacity w.pending) };
}

impl Walk {
    /// A walk at the opening. Makes room for every site that may come to be pending.
    pub fn new(alloc: Global) -> Result<Walk, NoMemory>
        ensures { IfOk result (λ walk. walk ≡ walk_start) }
    {
        Ok(Walk {
            address: START,
            pending: Vec::with_capacity(alloc, ROOM)?,
        })
    }

    /// The newest address of the walk.
    pub fn address(&self) -> u64
        ensures { result ≡ self.now.at }
    {
        self.address
    }

    /// How many sites are pending.
    pub fn depth(&self) -> usize
        ensures value { result ≡ length self.now.pending }
        ensures most { length self.now.pending ≤ MOST_SITES }
    {
        self.pending.len()
    }

    /// The newest pending site.
    pub fn newest(&self) -> Option<u64>
        ensures { result ≡ slice_get self.now.pending 0 }
    {
        self.pending.as_slice().last().copied()
    }

    fn push(&mut self, site: u64)
        requires { length self.old.pending < MOST_SITES }
        ensures { self.new ≡ record { at = self.old.at; pending = site ∷ self.old.pending } }
    {
        self.pending.push_reserved(site);
    }

    fn pop(&mut self)
        ensures { self.new ≡ record { at = self.old.at; pending = drop 1 self.old.pending } }
    {
        self.pending.pop();
    }

    /// Goes on to an address.
    pub(crate) fn go(&mut self, step: Move, address: u64)
        requires { HasRoom step self.old.pending }
        ensures { self.new ≡ record { at = address; pending = after step self.old.pending } }
    {
        match step {
            Move::Keep => {}
            Move::Push(site) => self.push(site),
            Move::Pop => self.pop(),
        }
        self.address = address;
    }
}
