//! How tables hash names that the writer of a text chose.
ghost use Rattle.std.specs.Prelude.{◌≡◌, replicate};
ghost use Rattle.section_text.specs.Seeding.{initial_hasher, seed_of, seed_text};
ghost use Rattle.sha2.specs.Sha512.{sha512};

use crate::name::Name;
use sha2::{Digest, Sha512};
use std::hash::{BuildHasher, DefaultHasher, Hasher};
use std::random::RandomSource;

/// The seed by which a table hashes: SipHash over some bytes, and then over the name. A seed changes no result.
///
/// Nobody can choose names that fall together in a table if nobody knows the bytes beforehand, or if other names change
/// them.
#[derive(Clone, Copy)]
pub struct Seed {
    initial: DefaultHasher,
}

impl Seed {
    /// Returns the seed of 16 zero bytes. Use it for names that nobody chose.
    pub fn known() -> Seed
        ensures { result ≡ seed_of (replicate 16 0) }
    {
        Seed::of(&[0; 16])
    }

    /// Draws the 16 bytes of a seed. Those that the source does not give are 0.
    pub fn drawn(source: &impl RandomSource) -> Seed {
        let mut bytes = [0; 16];
        let _ = source.fill_bytes(&mut bytes);
        Seed::of(&bytes)
    }

    /// Returns the seed of a table that holds no other names than these: that of their SHA-512 digest.
    pub fn of_names(names: &[Name]) -> Seed
        ensures { result ≡ seed_of (sha512 (seed_text names.now)) }
    {
        let mut hasher = Sha512::new();
        for name in names {
            hasher.update(name.bytes());
            hasher.update(b" ");
        }
        Seed::of(&hasher.finalize())
    }

    fn of(bytes: &[u8]) -> Seed
        ensures { result ≡ seed_of bytes.now }
    {
        let mut initial = DefaultHasher::new();
        initial.write(bytes);
        Seed { initial }
    }
}

impl BuildHasher for Seed {
    type Hasher = DefaultHasher;

    ghost build_hasher = { initial_hasher };

    fn build_hasher(&self) -> DefaultHasher {
        self.initial
    }
}
