use crate::name::Name;
use sha2::{Digest, Sha256};
use std::hash::{BuildHasher, DefaultHasher, Hasher};

/// Makes the hashers of an index of names. Each begins with a digest of the tables that all names stand in, so whoever picks
/// the names picks the hasher with them, and cannot aim one at the other. What is found by the index does not depend on it.
#[derive(Clone, Copy)]
pub(crate) struct NameSeed {
    start: DefaultHasher,
}

impl NameSeed {
    /// The seed of these names, which stand in these tables.
    pub(crate) fn of(names: &[Name], tables: &[&[u8]]) -> NameSeed {
        let mut start = DefaultHasher::new();
        start.write(&digest_of(names, tables));
        NameSeed { start }
    }
}

impl BuildHasher for NameSeed {
    type Hasher = DefaultHasher;

    ghost build_hasher = { λ seed. seed.start };

    fn build_hasher(&self) -> DefaultHasher {
        self.start
    }
}

/// Feeds tables, each behind its length.
fn feed_tables(digest: &mut Sha256, tables: &[&[u8]]) {
    for table in tables {
        digest.update((table.len() as u64).to_le_bytes());
        digest.update(table);
    }
}

/// The SHA-256 digest of tables of names, and of where each name begins in its own.
fn digest_of(names: &[Name], tables: &[&[u8]]) -> [u8; 32] {
    let mut digest = Sha256::new();
    feed_tables(&mut digest, tables);
    for name in names {
        digest.update((name.rest().len() as u64).to_le_bytes());
    }
    digest.finalize()
}
