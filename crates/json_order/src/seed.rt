ghost use Rattle.std.specs.Prelude.{◌≡◌};
ghost use Rattle.json_order.specs.inner.Digest.{digest};

use std::hash::{BuildHasher, DefaultHasher, Hasher};

/// What the hashes of a text's keys begin with: a digest of the whole text. Who chooses keys whose hashes are alike for one
/// digest has chosen another text, and so another digest.
#[derive(Clone, Copy)]
pub(crate) struct Seed {
    digest: u64,
}

impl Seed {
    ghost use Rattle.std.specs.Prelude.{◌≡◌};
    ghost use Rattle.json_order.specs.inner.Digest.{digest};

    /// Takes no memory.
    pub(crate) fn of(text: &[u8]) -> Seed
        ensures { result.digest ≡ digest text.now }
    {
        let mut hasher = DefaultHasher::new();
        hasher.write(text);
        Seed {
            digest: hasher.finish(),
        }
    }
}

impl BuildHasher for Seed {
    type Hasher = DefaultHasher;

    ghost use Rattle.json_order.specs.inner.Digest.{hasher_with};

    ghost build_hasher = { λ seed. hasher_with seed.digest };

    fn build_hasher(&self) -> DefaultHasher {
        let mut hasher = DefaultHasher::new();
        hasher.write_u64(self.digest);
        hasher
    }
}
