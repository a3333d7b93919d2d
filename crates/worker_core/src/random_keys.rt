//! Random keys.
ghost use Rattle.std.specs.Prelude.{None};

use crate::KeySource;
use farm_types::Key;
use rand_chacha::ChaCha20Rng;
use rand_core::{Rng, SeedableRng};
use std::io;
use std::random::RandomSource;

/// Keys of 16 random bytes each, by a cipher whose seed the system gave. It tells nothing of them.
#[derive(Drop)]
pub struct RandomKeys {
    rng: ChaCha20Rng,
}

impl RandomKeys {
    /// A source with a seed of 32 bytes from the system. An error where the system gives none; after that no call
    /// fails.
    pub fn new<R: RandomSource>(rt: &R) -> io::Result<RandomKeys> {
        let mut seed = [0u8; 32];
        rt.fill_bytes(&mut seed)?;
        Ok(RandomKeys {
            rng: ChaCha20Rng::from_seed(seed),
        })
    }
}

impl KeySource for RandomKeys {
    ghost told = { λ _. None };

    fn next(&mut self) -> Key {
        let mut bytes = [0u8; 16];
        self.rng.fill_bytes(&mut bytes);
        Key(u128::from_be_bytes(bytes))
    }
}
