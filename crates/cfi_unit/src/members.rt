//! The stores behind one mask.
ghost use Rattle.std.specs.Prelude.{◌≡◌, ◌+◌, ◌<◌, ◌≤◌, [], ◌∷◌, ◌++◌, length};
ghost use Rattle.std.specs.List.{All};

use rv_instr::{Immediate, Reg, StoreOp};
use std::marker::Model;

/// How many stores may stand behind one mask.
pub const MOST_MEMBERS: usize = 16;

/// A store behind a mask.
#[derive(Clone, Copy, PartialEq, Eq)]
pub struct Member {
    /// How much it stores.
    pub op: StoreOp,
    /// The register whose value it stores.
    pub value: Reg,
    /// How far past the masked address it stores.
    pub distance: Immediate<11>,
}

impl Member {
    ghost use Rattle.cfi_unit.specs.Members.{FILLER, IsMember};

    /// What stands in the places of a list that hold no member.
    fn filler() -> Self
        ensures { result ≡ FILLER }
    {
        Member {
            op: StoreOp::Sb,
            value: Reg::of(0),
            distance: Immediate::of(0),
        }
    }

    /// Tells a proof that the fields are in range; nothing is computed.
    fn in_range(&self)
        ensures { IsMember self.now }
    {
        let _ = self.value.number();
        let _ = self.distance.bits();
    }
}

/// The stores behind one mask: at most sixteen, in the order of their words.
#[derive(Clone, Copy, PartialEq, Eq)]
pub struct Members {
    items: [Member; 16],
    count: usize,
}

impl Model for Members {
    ghost use Rattle.std.specs.Prelude.{◌≡◌, ◌≤◌, ◌-◌, ◌++◌, List, drop, length, replicate, take};
    ghost use Rattle.std.proofs.Common.{◌∙◌, ap, subst, sym};
    ghost use Rattle.std.proofs.lemmas.List.{length-take-le, take-append-drop};
    ghost use Rattle.cfi_unit.specs.declared.members.Member.{Member};
    ghost use Rattle.cfi_unit.specs.Members.{FILLER};

    ghost Value = { List Member };

    ghost view = { λ m. take m.count m.items };

    ghost invariant = { λ m. (m.count ≤ 16) × (length m.items ≡ 16) × (drop m.count m.items ≡ replicate (16 - m.count) FILLER) };

    ghost inverse = { λ ms. record { items = ms ++ replicate (16 - length ms) FILLER; count = length ms } };

    ghost inverse_ok = { λ m h i. record {
      items = (ap (λ n. take m.count m.items ++ replicate (16 - n) FILLER) (length-take-le m.count m.items (subst (λ n. m.count ≤ n) (sym h.1) h.0))
          ∙ ap (λ l. take m.count m.items ++ l) (sym h.2) ∙ take-append-drop m.count m.items) i;
      count = length-take-le m.count m.items (subst (λ n. m.count ≤ n) (sym h.1) h.0) i;
    } };
}

impl Members {
    ghost use Rattle.std.specs.List.{AllByRecursion};
    ghost use Rattle.cfi_unit.specs.Members.{IsMember, MOST_MEMBERS};

    /// No stores.
    pub fn new() -> Self
        ensures { result ≡ [] }
    {
        Members {
            items: [Member::filler(); 16],
            count: 0,
        }
    }

    /// Puts a store behind the others.
    pub fn push(&mut self, member: Member)
        requires { length self.old < MOST_MEMBERS }
        ensures { self.new ≡ self.old ++ member ∷ [] }
    {
        self.items[self.count] = member;
        self.count += 1;
    }

    /// How many stores.
    pub fn len(&self) -> usize
        ensures value { result ≡ length self.now }
        ensures most { length self.now ≤ MOST_MEMBERS }
    {
        self.count
    }

    /// The stores, lent.
    pub fn as_slice(&self) -> &[Member]
        ensures items { result.now ≡ self.now }
        ensures most { length self.now ≤ MOST_MEMBERS }
    {
        &self.items[..self.count]
    }

    /// Tells a proof that the fields are in range.
    pub fn in_range(&self)
        ensures each { AllByRecursion IsMember self.now }
        ensures most { length self.now ≤ MOST_MEMBERS }
    {
        members_fit(self.as_slice());
    }
}

ghost use Rattle.cfi_unit.specs.Members.{IsMember};

/// The fields of these are in range.
fn members_fit(members: &[Member])
    ensures { All IsMember members.now }
{
    for member in members {
        member.in_range();
    }
}
