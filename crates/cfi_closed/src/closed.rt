//! The closed graph of a program: a side for each sort of computed transfers.

ghost use Rattle.std.specs.Prelude.{◌≡◌, ◌<◌, ◌≤◌, [], false, length, map, slice_index_or};
ghost use Rattle.cfi_closed.specs.Closed.{IsInside, class_among, class_reaches, classes_of, is_target, sorts_of};
ghost use Rattle.cfi_closed.specs.Closed as closed;
ghost use Rattle.cfi_closed.specs.Found.{AreSides};

use crate::side::Side;
use rv_image::GraphVersion;
use rv_word::{Numbers, Places};
use std::marker::Model;

/// The closed graph of a program, for a version of graphs: one side with all computed transfers, or one with the calls
/// and one with the jumps.
#[derive(Drop)]
pub struct Closed {
    version: GraphVersion,
    sides: Vec<Side>,
    taken: Vec<bool>,
    calls: Option<Numbers>,
}

impl Model for Closed {
    ghost use Rattle.std.specs.Prelude.{length};
    ghost use Rattle.cfi_closed.specs.Closed.{ClosedGraph};
    ghost use Rattle.cfi_closed.specs.Found.{AreSides};

    ghost Value = { ClosedGraph };

    ghost view = { λ c. record { version = c.version; sides = c.sides.items; taken = c.taken.items; calls = c.calls } };

    ghost invariant = { λ c. AreSides c.version c.sides.items (length c.taken.items) };
}

impl Closed {
    /// A closed graph of its parts.
    pub fn of(
        version: GraphVersion,
        sides: Vec<Side>,
        taken: Vec<bool>,
        calls: Option<Numbers>,
    ) -> Closed
        requires { AreSides version sides.items (length taken.items) }
        ensures { result ≡ record { version = version; sides = sides.items; taken = taken.items; calls = calls } }
    {
        Closed {
            version,
            sides,
            taken,
            calls,
        }
    }

    /// The version of graphs that it is for.
    pub fn version(&self) -> GraphVersion
        ensures { result ≡ self.now.version }
    {
        self.version
    }

    /// The numbers of the system calls that the program may make, where it has a list of them.
    pub fn calls(&self) -> Option<Numbers>
        ensures { result ≡ self.now.calls }
    {
        self.calls
    }

    /// Its sides.
    pub fn sides(&self) -> &[Side]
        ensures value { result.now ≡ self.now.sides }
        ensures sorts { map (λ (s : closed.Side). s.sort) self.now.sides ≡ sorts_of self.now.version }
        ensures few { length self.now.sides ≤ 2 }
    {
        self.sides.as_slice()
    }

    /// How many places the program has.
    pub fn places(&self) -> u64
        ensures value { result ≡ length self.now.taken }
        ensures inside { IsInside self.now }
    {
        self.taken.len() as u64
    }

    /// Whether a relocation takes the address of the instruction at this place.
    pub fn taken(&self, place: u64) -> bool
        requires { place < length self.now.taken }
        ensures { result ≡ slice_index_or self.now.taken place false }
    {
        self.taken[place as usize]
    }

    /// How many classes there are on all sides.
    pub fn classes(&self) -> u64
        ensures { result ≡ length (classes_of self.now.sides) }
    {
        let mut count = 0;
        for side in self.sides() {
            count += side.classes();
        }
        count
    }

    /// The class with this index by its places, rising. The classes of each side stand in the order of their least
    /// members, side after side.
    pub fn class(&self, k: u64) -> &Places
        requires { k < length (classes_of self.now.sides) }
        ensures { result.now ≡ slice_index_or (classes_of self.now.sides) k [] }
    {
        let mut left = k;
        for side in self.sides() {
            let classes = side.classes();
            if left < classes {
                return side.class(left);
            }
            left -= classes;
        }
        unreachable!()
    }

    /// The index of the class of the site at this place. None: the site has no targets, or there is no site.
    pub fn class_of(&self, place: u64) -> Option<u64>
        ensures { result ≡ class_among self.now.sides place }
    {
        let mut before = 0;
        for side in self.sides() {
            let classes = side.classes();
            match side.class_of(place) {
                Some(class) => return Some(before + class),
                None => before += classes,
            }
        }
        None
    }

    /// Whether this place is some class's target.
    pub fn is_target(&self, place: u64) -> bool
        ensures { result ≡ is_target self.now.sides place }
    {
        self.sides.iter().any(|side| side.is_target(place))
    }

    /// Whether the class that the site at a place reaches has another place.
    pub fn reaches(&self, place: u64, target: u64) -> bool
        ensures { result ≡ class_reaches self.now place target }
    {
        self.sides.iter().any(|side| side.reaches(place, target))
    }
}
