//! The key of a name: two words and its length. It is hashed and compared in a few steps, whereas the bytes would be copied
//! and compared in pieces, depending on their number.
//!
//! The length is not hashed: at most nine names have the same two words.

ghost use Rattle.std.specs.Prelude.{◌≡◌, ◌<◌, ◌++◌, length, slice_index_or};
ghost use Rattle.std.specs.Hash as fed;
ghost use Rattle.std.specs.Cmp.Rules.{hashing};
ghost use Rattle.std.proofs.Common.{rules};
ghost use Rattle.esr_report.specs.Keys.{low_of, high_of};

use std::hash::{BuildHasher, FoldHasher, Hash, Hasher};

/// The key of a name of at most 16 bytes.
#[derive(Clone, Copy, PartialEq, Eq)]
pub struct Key {
    low: u64,
    high: u64,
    length: usize,
}

impl Hash for Key {
    ghost hash_input = { λ k. fed.u64 k.low ++ fed.u64 k.high };

    ghost respects_eq = { Prim.search (hashing, rules) };

    #[inline(always)]
    fn hash<H: Hasher>(&self, state: &mut H) {
        state.write_u64(self.low);
        state.write_u64(self.high);
    }
}

/// Hashes keys from a seed. Without knowing the seed, no one can choose names whose hashes are equal.
#[derive(Clone, Copy)]
pub struct SeededHash {
    first: FoldHasher,
}

impl SeededHash {
    pub fn new(seed: u64) -> SeededHash {
        let mut first = FoldHasher::default();
        first.write_u64(seed);
        SeededHash { first }
    }
}

impl BuildHasher for SeededHash {
    type Hasher = FoldHasher;

    ghost build_hasher = { λ s. s.first };

    #[inline(always)]
    fn build_hasher(&self) -> FoldHasher {
        self.first
    }
}

impl Key {
    /// Returns the number of bytes of the name.
    #[inline(always)]
    pub fn name_length(self) -> usize
        ensures { result ≡ self.length }
    {
        self.length
    }

    /// Returns the slot of the key in a cache of 16,384 slots. The multiplier was found by a search: of 4,096 names that are
    /// a word and a number, 3.5 per cent share their slot with a later one, in the mean over such words; with 2 ^ 64
    /// divided by the golden ratio it would be 9.8 per cent.
    #[inline(always)]
    pub fn slot(self) -> usize {
        let mixed = self.low ^ self.high.rotate_left(32);
        (mixed.wrapping_mul(0xd143_718d_69e5_2ed9) >> 50) as usize
    }
}

/// Returns the byte at a place, or 0 after the end.
#[inline(always)]
fn byte_at(bytes: &[u8], place: usize) -> u64
    ensures value { result ≡ slice_index_or bytes.now place 0 }
    ensures small { result < 256 }
{
    match bytes.get(place) {
        Some(byte) => u64::from(*byte),
        None => 0,
    }
}

/// Returns the first bytes as a number.
#[inline(always)]
fn low(bytes: &[u8]) -> u64
    ensures { result ≡ low_of bytes.now }
{
    if let Some(first) = bytes.first_chunk::<8>() {
        return u64::from_le_bytes(*first);
    }
    if let Some(first) = bytes.first_chunk::<4>() {
        return u64::from(u32::from_le_bytes(*first));
    }
    byte_at(bytes, 0)
}

/// Returns the last bytes as a number.
#[inline(always)]
fn high(bytes: &[u8]) -> u64
    ensures { result ≡ high_of bytes.now }
{
    if let Some(last) = bytes.last_chunk::<8>() {
        return u64::from_le_bytes(*last);
    }
    if let Some(last) = bytes.last_chunk::<4>() {
        return u64::from(u32::from_le_bytes(*last));
    }
    byte_at(bytes, 1) + 256 * byte_at(bytes, 2)
}

/// Returns the key of a name.
#[inline(always)]
pub fn key_of(name: &str) -> Key
    ensures low { result.low ≡ low_of name.now }
    ensures high { result.high ≡ high_of name.now }
    ensures length { result.length ≡ length name.now }
{
    let bytes = name.as_bytes();
    Key {
        low: low(bytes),
        high: high(bytes),
        length: bytes.len(),
    }
}
