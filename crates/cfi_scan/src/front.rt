ghost use Rattle.std.specs.Prelude.{◌≡◌, ◌+◌, ◌*◌, ◌≤◌};
ghost use Rattle.rv_image.specs.MemoryMap.{CODE_START, profile_with};
ghost use Rattle.cfi_scan.specs.Pieces.{prologue_count};

use rv_image::Versions;
use rv_image::memory_map::CODE_START;
use std::marker::Model;

/// The versions of a pair, and what they say of the words before the units, which is asked at each word.
#[derive(Drop)]
pub(crate) struct Front {
    versions: Versions,
    words: usize,
    start: u64,
}

impl Model for Front {
    ghost use Rattle.rv_image.specs.declared.version.Versions.{Versions};
    ghost use Rattle.rv_image.specs.MemoryMap.{profile_with};
    ghost use Rattle.cfi_scan.specs.Pieces.{IsFront};

    ghost Value = { Versions };

    ghost view = { λ f. f.versions };

    ghost invariant = { λ f. IsFront (profile_with f.versions) f.words f.start };
}

impl Front {
    /// That of these versions.
    pub(crate) fn new(versions: Versions) -> Self
        ensures { result ≡ versions }
    {
        let start = versions.units_from();
        Front {
            versions,
            words: ((start - CODE_START) / 4) as usize,
            start,
        }
    }

    /// The versions.
    pub(crate) fn versions(&self) -> Versions
        ensures { result ≡ self.now }
    {
        self.versions
    }

    /// How many words the prologue has.
    pub(crate) fn words(&self) -> usize
        ensures count { result ≡ prologue_count (profile_with self.now) }
        ensures most { result ≤ 20 }
        ensures place { CODE_START + 4 * result ≡ (profile_with self.now).units_from }
    {
        self.words
    }

    /// Where the first unit stands.
    pub(crate) fn start(&self) -> u64
        ensures { result ≡ (profile_with self.now).units_from }
    {
        self.start
    }
}
