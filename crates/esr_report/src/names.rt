//! A table of distinct names, in the order in which they were bound.
//!
//! Names are found by a key of fixed size (two machine words and the length; module `key`), so a look-up compares no bytes.
//! No line of a script contains a name of more than 16 bytes; `bind` returns `AllocError` for one.
//!
//! The texts of all names are in one string, one after the other. The entry of a name is its key and the end of its text in
//! that string; the key has the length of the text. So an entry takes 28 bytes, and the text about six on average. With an
//! `ArrayString<16>` for the text it would take 48 bytes.
//!
//! The invariant says of each entry that the text has this key, and that the string may be cut where the text starts and
//! where it ends, so `name_of` tests neither. A text that is added at the end of the string changes no other text.
//!
//! Most look-ups need no search of the hash table: a cache, indexed by a hash of 14 bits of the key (its *slot*), has the
//! position of the name that was bound last with that slot. The name that was bound before it moves to the other slot of
//! the pair, whose numbers differ in the last bit: of 4,096 names, a tenth would otherwise be missing. The contracts do not
//! mention the cache: a wrong or missing position only costs time.
//!
//! The hash has a seed. If it were known to the author of a script, the script could have 60,000 names of equal hash, and each
//! look-up would compare them all.

ghost use Rattle.std.specs.Prelude.{◌≡◌, ℕ, ◌+◌, ◌<◌, ◌≤◌, ◌^◌, List, [], ◌∷◌, ◌++◌, map, length, All, IfOk, IfSome, OnOk, OnErr, slice_get, option_map, Option, None, Some, true, string_bytes};
ghost use Rattle.esr_report.specs.Names.{position_of, all_distinct};
ghost use Rattle.esr_report.specs.Keyed.{IsKeyOf};
ghost use Rattle.esr_report.specs.Stored.{text_of, IsStored};

use crate::key::{Key, SeededHash, key_of};
use indexmap::IndexMap;
use std::alloc::{AllocError, Global};
use std::marker::Model;

/// Names by position: those of items (the position is the item's number) or of transactions (the position is one less than
/// the transaction's number).
pub trait NamesByPosition {
    /// The names, in the order of their positions, from 0.
    ghost names: { Self → List (List ℕ) };

    /// Returns the name at the position.
    fn name_at(&self, position: u32) -> Option<&str>
        ensures { option_map (λ name. name.now) result ≡ slice_get (names self.now) position };
}

/// The number of slots of the cache.
const CACHE_SLOTS: usize = 16_384;

/// A table of names, in the order in which they were bound. No name is bound twice.
#[derive(Drop)]
pub struct Names {
    /// The key of each name, and the end of its text in `texts`.
    names: IndexMap<Key, u32, SeededHash>,
    /// The texts of the names, one after the other.
    texts: String,
    /// For each slot, the position of the name that was bound last with this slot, or of one that moved from the other slot
    /// of the pair, or 0. It is empty until the first name is bound, and as long as its allocation fails.
    cache: Vec<u32>,
}

/// Returns the other slot of the pair.
#[inline(always)]
fn other_slot(slot: usize) -> usize {
    slot ^ 1
}

/// Stores the position of a newly bound name in the cache. A position that is stored in this slot moves to the other one.
fn store_position(cache: &mut Vec<u32>, slot: usize, position: u32) {
    if cache.is_empty() {
        let _ = cache.resize(CACHE_SLOTS, 0);
    }
    let other = other_slot(slot);
    if slot < cache.len() && other < cache.len() {
        if cache[slot] != 0 {
            cache[other] = cache[slot];
        }
        cache[slot] = position;
    }
}

impl Model for Names {
    ghost Value = { List (List ℕ) };

    ghost view = { λ n. map (text_of (string_bytes n.texts)) n.names.entries };

    ghost invariant = { λ n. (length n.names.entries ≤ 2 ^ 32)
        × (all_distinct (map (text_of (string_bytes n.texts)) n.names.entries) ≡ true)
        × All (IsStored (string_bytes n.texts)) n.names.entries };
}

impl Names {
    /// Returns an empty table. Its seed is fixed, so use it only for names that no one chose to have equal hashes.
    pub fn new(alloc: Global) -> Names
        ensures { result ≡ [] }
    {
        Names::with_seed(alloc, 0)
    }

    /// Returns an empty table, for names from a file whose author cannot know the seed.
    pub fn with_seed(alloc: Global, seed: u64) -> Names
        ensures { result ≡ [] }
    {
        Names {
            names: IndexMap::with_hasher(alloc, SeededHash::new(seed)),
            texts: String::new(alloc),
            cache: Vec::new(alloc),
        }
    }

    /// Returns the number of bound names.
    pub fn len(&self) -> usize
        ensures len { result ≡ length self.now }
        ensures upper_bound { result ≤ 2 ^ 32 }
        ensures distinct { all_distinct self.now ≡ true }
    {
        self.names.len()
    }

    /// Returns the position of the name with this key, if the cache has it in this slot. The key of a longer name equals no
    /// key of the table, so the length of a name is not tested before.
    #[inline(always)]
    fn cached_position(&self, key: Key, slot: usize) -> Option<u32>
        ensures short { IfSome result (λ p. key.length ≤ 16) }
        ensures position { (name : List ℕ) → IsKeyOf key name
            → IfSome result (λ p. position_of self.now name ≡ Some p) }
    {
        let position = *self.cache.get(slot)?;
        let (found_key, _) = self.names.get_index(position as usize)?;
        if *found_key == key {
            Some(position)
        } else {
            None
        }
    }

    /// Returns the position of the name, if it is bound, by the hash table. For a name that is probably not bound this is
    /// faster than `number_of`, which looks in the cache first.
    pub fn search(&self, name: &str) -> Option<u32>
        ensures { result ≡ position_of self.now name.now }
    {
        let _names = &self.names; // brings the invariant into the proof
        if name.len() > 16 {
            return None;
        }
        match self.names.get_index_of(&key_of(name)) {
            Some(position) => Some(position as u32),
            None => None,
        }
    }

    /// Returns the position of the name, if it is bound, after a look-up of its slot in the cache.
    #[inline(never)]
    fn number_of_uncached(&self, name: &str) -> Option<u32>
        ensures { result ≡ position_of self.now name.now }
    {
        let key = key_of(name);
        match self.cached_position(key, other_slot(key.slot())) {
            Some(position) => Some(position),
            None => self.search(name),
        }
    }

    /// Returns the position of the name, from 0, if it is bound.
    #[inline(always)]
    pub fn number_of(&self, name: &str) -> Option<u32>
        ensures { result ≡ position_of self.now name.now }
    {
        let key = key_of(name);
        match self.cached_position(key, key.slot()) {
            Some(position) => Some(position),
            None => self.number_of_uncached(name),
        }
    }

    /// Returns the name at the position.
    pub fn name_of(&self, position: u32) -> Option<&str>
        ensures { option_map (λ name. name.now) result ≡ slice_get self.now position }
    {
        match self.names.get_index(position as usize) {
            Some((key, end)) => {
                let end = *end as usize;
                Some(&self.texts.as_str()[end - key.name_length()..end])
            }
            None => None,
        }
    }

    /// Binds the name to the next position, and returns the position.
    ///
    /// # Errors
    /// If an allocation fails, or the name has more than 16 bytes: no line contains such a name, and the table cannot
    /// hold it. Also if all texts together would have 2 ^ 32 bytes or more. In each case nothing has changed.
    pub fn bind(&mut self, name: &str) -> Result<u32, AllocError>
        requires unbound { position_of self.old name.now ≡ None }
        requires count_within_max { length self.old < 2 ^ 32 }
        ensures position { IfOk result (λ n. n ≡ length self.old) }
        ensures appended { OnOk result (self.new ≡ self.old ++ name.now ∷ []) }
        ensures err { OnErr result (self.new ≡ self.old) }
    {
        let position = self.names.len();
        if name.len() > 16 {
            return Err(AllocError);
        }
        let Ok(end) = u32::try_from(self.texts.len() + name.len()) else {
            return Err(AllocError);
        };
        let key = key_of(name);
        self.texts.reserve(name.len())?;
        self.names.insert(key, end)?;
        let _ = self.texts.push_str(name); // Ok: the capacity is reserved
        store_position(&mut self.cache, key.slot(), position as u32);
        Ok(position as u32)
    }
}

impl NamesByPosition for Names {
    ghost names = { λ names. names };

    fn name_at(&self, position: u32) -> Option<&str> {
        self.name_of(position)
    }
}
