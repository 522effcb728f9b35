//! Decodes the fields of a JSON tree: numbers, lists of numbers, and members of an object.
//!
//! One generic loop decodes lists. The trait `FromJson` has the decoder of one element and, as a ghost member, its
//! specification, and each type of element is an `impl` of a few lines. So the loop is proved once.
ghost use Rattle.std.specs.Prelude.{◌≡◌, ◌≢◌, ◌≤◌, ℕ, List, Option, Some, None, IfOk, IfErr, map};
ghost use Rattle.serde_json.specs.Data.{Data};
ghost use Rattle.serde_json.specs.Find.{get};
ghost use Rattle.serde_json.specs.View.{view};
ghost use Rattle.esr_bundle.specs.Fields.{as_natural, as_naturals, pair_of, pairs_of, list_of, has_n_keys, present_count, field, optional_numbers, optional_number};

use esr_cert::BundleFault;
use serde_json::Value;
use std::alloc::Global;

/// A type that can be decoded from a JSON value: `decoded` specifies the decoder, and `model_of` the model of a value.
pub trait FromJson: Drop + Sized {
    ghost Decoded: { Type 0 };

    ghost model_of: { Self → Decoded };

    ghost decoded: { Data → Option Decoded };

    fn decode(alloc: Global, value: &Value) -> Result<Self, BundleFault>
        ensures ok { IfOk result (λ v. decoded (view value.now) ≡ Some (model_of v)) }
        ensures err { IfErr result (λ e. e ≢ BundleFault.NoMemory → (e ≡ BundleFault.Shape)
            × (decoded (view value.now) ≡ None)) };
}

fn decode_pair(value: &Value) -> Option<(u64, u64)>
    ensures { result ≡ pair_of (view value.now) }
{
    let items = value.as_array()?;
    let [first, second] = items.as_slice() else {
        return None;
    };
    Some((first.as_u64()?, second.as_u64()?))
}

impl FromJson for u64 {
    ghost Decoded = { ℕ };

    ghost model_of = { λ n. n };

    ghost decoded = { as_natural };

    fn decode(_alloc: Global, value: &Value) -> Result<u64, BundleFault> {
        value.as_u64().ok_or(BundleFault::Shape)
    }
}

impl FromJson for (u64, u64) {
    ghost Decoded = { ℕ × ℕ };

    ghost model_of = { λ e. e };

    ghost decoded = { pair_of };

    fn decode(_alloc: Global, value: &Value) -> Result<(u64, u64), BundleFault> {
        decode_pair(value).ok_or(BundleFault::Shape)
    }
}

impl FromJson for Vec<u64> {
    ghost Decoded = { List ℕ };

    ghost model_of = { λ row. row.items };

    ghost decoded = { as_naturals };

    fn decode(alloc: Global, value: &Value) -> Result<Vec<u64>, BundleFault> {
        decode_numbers(alloc, value)
    }
}

/// Decodes a list.
pub fn decode_list<T: FromJson>(alloc: Global, value: &Value) -> Result<Vec<T>, BundleFault>
    ensures ok { IfOk result (λ v. list_of T.decoded (view value.now) ≡ Some (map T.model_of v.items)) }
    ensures err { IfErr result (λ e. e ≢ BundleFault.NoMemory → (e ≡ BundleFault.Shape)
        × (list_of T.decoded (view value.now) ≡ None)) }
{
    let Some(items) = value.as_array() else {
        return Err(BundleFault::Shape);
    };
    let mut found = Vec::new(alloc);
    for item in items {
        let part = T::decode(alloc, item)?;
        if found.push(part).is_err() {
            return Err(BundleFault::NoMemory);
        }
    }
    Ok(found)
}

/// Decodes a list of numbers.
pub fn decode_numbers(alloc: Global, value: &Value) -> Result<Vec<u64>, BundleFault>
    ensures ok { IfOk result (λ v. as_naturals (view value.now) ≡ Some v.items) }
    ensures err { IfErr result (λ e. e ≢ BundleFault.NoMemory → (e ≡ BundleFault.Shape)
        × (as_naturals (view value.now) ≡ None)) }
{
    decode_list(alloc, value)
}

/// Decodes a list of pairs of numbers.
pub fn decode_pairs(alloc: Global, value: &Value) -> Result<Vec<(u64, u64)>, BundleFault>
    ensures ok { IfOk result (λ v. pairs_of (view value.now) ≡ Some v.items) }
    ensures err { IfErr result (λ e. e ≢ BundleFault.NoMemory → (e ≡ BundleFault.Shape)
        × (pairs_of (view value.now) ≡ None)) }
{
    decode_list(alloc, value)
}

/// Returns whether the value is an object with exactly `count` keys.
pub fn has_n_keys(value: &Value, count: usize) -> bool
    ensures { result ≡ has_n_keys count (view value.now) }
{
    match value.as_object() {
        Some(members) => members.len() == count,
        None => false,
    }
}

/// Returns 1 if the object has the key, and 0 otherwise.
pub fn present_count(value: &Value, key: &str) -> usize
    ensures value { result ≡ present_count (get key.now (view value.now)) }
    ensures at_most_one { result ≤ 1 }
{
    match value.get(key) {
        Some(_) => 1,
        None => 0,
    }
}

/// Returns the value of a key.
///
/// # Errors
///
/// `Shape` if there is no such key.
pub fn member<'a>(value: &'a Value, key: &str) -> Result<&'a Value, BundleFault>
    ensures ok { IfOk result (λ v. get key.now (view value.now) ≡ Some (view v.now)) }
    ensures err { IfErr result (λ e. (e ≡ BundleFault.Shape) × (get key.now (view value.now) ≡ None)) }
{
    match value.get(key) {
        Some(found) => Ok(found),
        None => Err(BundleFault::Shape),
    }
}

/// Decodes the value of a key.
pub fn decode_member<T: FromJson>(alloc: Global, value: &Value, key: &str) -> Result<T, BundleFault>
    ensures ok { IfOk result (λ v. field T.decoded key.now (view value.now) ≡ Some (T.model_of v)) }
    ensures err { IfErr result (λ e. e ≢ BundleFault.NoMemory → (e ≡ BundleFault.Shape)
        × (field T.decoded key.now (view value.now) ≡ None)) }
{
    T::decode(alloc, member(value, key)?)
}

/// Decodes the list of numbers at a key, or returns an empty list if there is no such key.
pub fn optional_numbers(alloc: Global, value: &Value, key: &str) -> Result<Vec<u64>, BundleFault>
    ensures ok { IfOk result (λ v. optional_numbers (get key.now (view value.now)) ≡ Some v.items) }
    ensures err { IfErr result (λ e. e ≢ BundleFault.NoMemory → (e ≡ BundleFault.Shape)
        × (optional_numbers (get key.now (view value.now)) ≡ None)) }
{
    match value.get(key) {
        Some(found) => decode_numbers(alloc, found),
        None => Ok(Vec::new(alloc)),
    }
}

/// Decodes the number at a key, or returns `None` if there is no such key.
pub fn optional_number(value: &Value, key: &str) -> Result<Option<u64>, BundleFault>
    ensures ok { IfOk result (λ n. optional_number (get key.now (view value.now)) ≡ Some n) }
    ensures err { IfErr result (λ e. (e ≡ BundleFault.Shape) × (optional_number (get key.now (view value.now)) ≡ None)) }
{
    let Some(found) = value.get(key) else {
        return Ok(None);
    };
    match found.as_u64() {
        Some(number) => Ok(Some(number)),
        None => Err(BundleFault::Shape),
    }
}
