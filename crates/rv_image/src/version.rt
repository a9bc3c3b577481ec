//! The versions of images and of graphs, and what those of images differ in.

ghost use Rattle.std.specs.Prelude.{◌≡◌, ◌+◌, ◌≤◌, ◌^◌};
ghost use Rattle.rv_image.specs.MemoryMap.{CODE_START, profile_of, profile_with};
ghost use Rattle.rv_image.specs.Version.{image_number};

use crate::memory_map::SHADOW_SIZE;
use crate::profile::{
    LEAN_UNITS_START, LEAN_UNITS_START_OF_HARTS, SHADOW_SIZE_OF_HARTS, UNITS_START,
    UNITS_START_OF_HARTS,
};

/// The version of an image, by how many harts may run it.
#[derive(Clone, Copy, Debug, PartialEq, Eq)]
pub enum ImageVersion {
    /// Version 1: one hart.
    OneHart,
    /// Version 2: one to eight harts.
    EightHarts,
}

/// The version of a graph: how many labels a class has, and who saves a call's site.
#[derive(Clone, Copy, Debug, PartialEq, Eq)]
pub enum GraphVersion {
    /// Version 1: computed calls and jumps share one label.
    OneLabel,
    /// Version 2: computed calls have a label, and computed jumps another.
    TwoLabels,
    /// Version 3: labels as in version 2; a function saves the site of its own call, and a register holds the mask of stores.
    CalleeSaves,
}

/// The versions of a pair: where its prologue's parts stand goes by both.
#[derive(Clone, Copy, Debug, PartialEq, Eq)]
pub struct Versions {
    /// The image's.
    pub image: ImageVersion,
    /// The graph's.
    pub graph: GraphVersion,
}

impl ImageVersion {
    /// Its number, 1 or 2.
    pub fn number(self) -> u8
        ensures { result ≡ image_number self }
    {
        match self {
            ImageVersion::OneHart => 1,
            ImageVersion::EightHarts => 2,
        }
    }

    /// How many bytes the shadow stack has in images of the version.
    pub fn shadow_size(self) -> u64
        ensures value { result ≡ (profile_of self).shadow_size }
        ensures some { 2 ^ 16 ≤ result }
        ensures most { result ≤ 2 ^ 19 }
    {
        match self {
            ImageVersion::OneHart => SHADOW_SIZE,
            ImageVersion::EightHarts => SHADOW_SIZE_OF_HARTS,
        }
    }

    /// The address of the first unit in images of the version, under a graph of version 1 or 2.
    pub fn units_from(self) -> u64
        ensures value { result ≡ (profile_of self).units_from }
        ensures low { CODE_START + 64 ≤ result }
        ensures high { result ≤ CODE_START + 80 }
    {
        match self {
            ImageVersion::OneHart => UNITS_START,
            ImageVersion::EightHarts => UNITS_START_OF_HARTS,
        }
    }
}

impl Versions {
    /// The address of the first unit.
    pub fn units_from(self) -> u64
        ensures value { result ≡ (profile_with self).units_from }
        ensures low { CODE_START + 44 ≤ result }
        ensures high { result ≤ CODE_START + 80 }
    {
        match (self.graph, self.image) {
            (GraphVersion::CalleeSaves, ImageVersion::OneHart) => LEAN_UNITS_START,
            (GraphVersion::CalleeSaves, ImageVersion::EightHarts) => LEAN_UNITS_START_OF_HARTS,
            (GraphVersion::OneLabel | GraphVersion::TwoLabels, image) => image.units_from(),
        }
    }
}
