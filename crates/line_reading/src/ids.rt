//! Which ids does a server give to new entries?

ghost use Rattle.std.specs.Prelude.{◌≡◌, ◌++◌};
ghost use Rattle.std.specs.Int.{to_le_bytes, w32};
ghost use Rattle.line_reading.specs.Ids.{AreOfTheirWords, IsKnownFirst, ZeroIsTheSeeds};

use rand_chacha::ChaCha20Rng;
use rand_core::SeedableRng;
use rand_core::utils::NextWord;
use std::alloc::AllocError;
use std::marker::Model;
use uuid::{Builder, Uuid};

/// What happens to a new entry without an id.
#[derive(Clone, Copy, Debug, PartialEq, Eq, Drop)]
pub enum MissingId {
    /// The server draws an id for it.
    Drawn,
    /// The entry is refused.
    Refused,
}

/// The ids that a server gives to entries without one: version 4 UUIDs of the words of a ChaCha20 stream. The model in
/// contracts is the generator: its key, its stream and the position of its next word.
#[derive(Drop)]
pub struct Ids {
    words: ChaCha20Rng,
}

impl Model for Ids {
    ghost use Rattle.rand_chacha.specs.ChaCha.{ChaCha};

    ghost Value = { ChaCha };

    ghost view = { λ ids. ids.words };
}

impl Ids {
    ghost use Rattle.std.specs.Prelude.{◌≡◌};
    ghost use Rattle.line_reading.specs.Ids.{after_id, first_ids, next_id, stream_ids};

    /// Returns the ids of a seed, from the start of stream 0.
    pub fn of_seed(seed: [u8; 32]) -> Ids
        ensures { result ≡ first_ids seed }
    {
        Ids {
            words: ChaCha20Rng::from_seed(seed),
        }
    }

    /// Returns the ids of a seed, from the start of the stream of this number, one of 2^64. Stream 0 is that of
    /// [`Ids::of_seed`].
    pub fn of_stream(seed: [u8; 32], stream: u64) -> Ids
        ensures { result ≡ stream_ids seed stream }
    {
        let mut words = ChaCha20Rng::from_seed(seed);
        words.set_stream(stream);
        Ids { words }
    }

    /// Returns the next id: four words, each as four bytes in little-endian order, with the bits of version 4 and the
    /// variant set.
    pub(crate) fn draw(&mut self) -> Uuid
        ensures id { result ≡ next_id self.old }
        ensures after { self.new ≡ after_id self.old }
    {
        let first = self.words.next_word();
        let second = self.words.next_word();
        let third = self.words.next_word();
        let fourth = self.words.next_word();
        Builder::from_random_bytes(bytes_of(first, second, third, fourth)).into_uuid()
    }
}

impl Clone for Ids {
    ghost is_clone = { λ original copy. copy ≡ original };

    fn clone(&self) -> Result<Ids, AllocError> {
        Ok(Ids {
            words: self.words.clone()?,
        })
    }
}

/// Which words of a stream each id is made of; that stream 0 is that of the seed; and the first id of the seed of zeros.
/// This function does nothing at run time: its contract is the theorem.
pub fn ids_law()
    ensures words { AreOfTheirWords }
    ensures zero { ZeroIsTheSeeds }
    ensures first { IsKnownFirst }
{}

/// Returns the bytes of four words, each in little-endian order.
fn bytes_of(first: u32, second: u32, third: u32, fourth: u32) -> [u8; 16]
    ensures { result ≡ to_le_bytes w32 first ++ to_le_bytes w32 second
        ++ to_le_bytes w32 third ++ to_le_bytes w32 fourth }
{
    let mut bytes = [0; 16];
    bytes[0..4].copy_from_slice(&first.to_le_bytes());
    bytes[4..8].copy_from_slice(&second.to_le_bytes());
    bytes[8..12].copy_from_slice(&third.to_le_bytes());
    bytes[12..16].copy_from_slice(&fourth.to_le_bytes());
    bytes
}
