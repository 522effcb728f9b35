//! The names of items and transactions: numbers with a letter, or those of a text that has one on each line.

ghost use Rattle.std.specs.Prelude.{◌≡◌, ◌++◌, ◌+◌, ◌<◌, ◌≤◌, ◌^◌, [], IfOk, OnOk, Option, option_map, length, map, decimal, slice_index_or, string_bytes, codes};
ghost use Rattle.esr_base.specs.declared.limits.TheConstants.{MAX_ITEMS};
ghost use Rattle.esr_dump.specs.Naming.{numbered, all_numbered, first_names, item_names, named, names_in, spelled, transaction_names};

use esr_grammar::name;
use esr_report::{Names, NamesByPosition};
use std::alloc::{AllocError, Global};

/// Returns a word followed by a number.
fn name_of_number(alloc: Global, word: &str, number: u32) -> Result<String, AllocError>
    ensures { IfOk result (λ name. string_bytes name ≡ numbered word.now number) }
{
    let mut digits = itoa::Buffer::new();
    let mut name = String::new(alloc);
    name.push_str(word)?;
    name.push_str(digits.format(number))?;
    Ok(name)
}

/// Returns `count` names with numbers from `first` on: each is the word followed by the number.
#[tactic(auto, using(crate::proofs::Numbers::unbound))]
fn names_by_number(alloc: Global, word: &str, first: u32, count: u32) -> Result<Names, AllocError>
    requires fits { first + count < 2 ^ 32 }
    ensures { IfOk result (λ names. names ≡ all_numbered word.now first count) }
{
    let mut names = Names::new(alloc);
    for i in 0..count {
        let name = name_of_number(alloc, word, first + i)?;
        names.bind(&name)?;
    }
    Ok(names)
}

/// Returns the names of `count` transactions: `t1`, `t2`.
pub fn transaction_names(alloc: Global, count: u32) -> Result<Names, AllocError>
    requires fits { count + 1 < 2 ^ 32 }
    ensures { IfOk result (λ names. names ≡ transaction_names count) }
{
    names_by_number(alloc, "t", 1, count)
}

/// Returns the parts of a text between line feeds.
fn names_in(alloc: Global, text: &[u8]) -> Result<Vec<&[u8]>, AllocError>
    ensures { IfOk result (λ lines. map (λ line. line.now) lines.items ≡ names_in text.now) }
{
    text.split(|byte| *byte == b'\n').collect(alloc)
}

/// Returns a table of these names, or `None` if one is invalid or occurs twice.
fn table(alloc: Global, words: &[&[u8]]) -> Result<Option<Names>, AllocError>
    requires count_within_max { length words.now < 2 ^ 32 }
    ensures { IfOk result (λ found. found ≡ named (map (λ word. word.now) words.now)) }
{
    let mut names = Names::new(alloc);
    for word in words {
        let Some(name) = name(word) else {
            return Ok(None);
        };
        if names.number_of(name).is_some() {
            return Ok(None);
        }
        names.bind(name)?;
    }
    let _distinct = names.len(); // brings the invariant into the proof
    Ok(Some(names))
}

/// Returns the names that a text specifies for `count` items, one per line; `i0`, `i1` if it is empty. Returns `None`
/// if the text specifies another number of names, an invalid name, or a name twice.
pub fn item_names(alloc: Global, text: &[u8], count: u32) -> Result<Option<Names>, AllocError>
    requires count_within_max { count ≤ MAX_ITEMS }
    ensures { IfOk result (λ found. found ≡ item_names count text.now) }
{
    if text.is_empty() {
        return match names_by_number(alloc, "i", 0, count) {
            Ok(names) => Ok(Some(names)),
            Err(error) => Err(error),
        };
    }
    let words = names_in(alloc, text)?;
    if words.len() != count as usize {
        return Ok(None);
    }
    table(alloc, &words)
}

/// Returns the name at a position, or the empty text if there is none.
fn name_at<N: NamesByPosition>(names: &N, position: u32) -> &str
    ensures { result.now ≡ slice_index_or (N.names names.now) position [] }
{
    match names.name_at(position) {
        Some(name) => name,
        None => "",
    }
}

/// Returns the first `count` names, padded with empty texts.
#[tactic(auto, using(crate::proofs::Names::one_more_name))]
fn first_names<'a, N: NamesByPosition>(
    alloc: Global,
    names: &'a N,
    count: u32,
) -> Result<Vec<&'a [u8]>, AllocError>
    ensures { IfOk result (λ words. map (λ word. word.now) words.items ≡ first_names count (N.names names.entry.now)) }
{
    let mut words = Vec::new(alloc);
    for i in 0..count {
        let name = name_at(names, i);
        words.push(name.as_bytes())?;
    }
    Ok(words)
}

/// Returns a table of these names, if they are valid and distinct; otherwise of the word with numbers from `first`
/// on.
#[tactic(auto, using(crate::proofs::Names::spelled_some, crate::proofs::Names::spelled_none))]
fn names_for_lines(
    alloc: Global,
    words: &[&[u8]],
    word: &str,
    first: u32,
) -> Result<Names, AllocError>
    requires fits { first + length words.now < 2 ^ 32 }
    ensures { IfOk result (λ names. names ≡ spelled word.now first (map (λ word. word.now) words.now)) }
{
    let found = table(alloc, words)?;
    match found {
        Some(names) => Ok(names),
        None => {
            let numbers = names_by_number(alloc, word, first, words.len() as u32)?;
            Ok(numbers)
        }
    }
}

/// Returns a table of the first `count` names for a script, or of numbers if a script cannot contain the names.
pub fn script_names<N: NamesByPosition>(
    alloc: Global,
    names: &N,
    count: u32,
    word: &str,
    first: u32,
) -> Result<Names, AllocError>
    requires fits { first + count < 2 ^ 32 }
    ensures { IfOk result (λ table. table ≡ spelled word.now first (first_names count (N.names names.now))) }
{
    let words = first_names(alloc, names, count)?;
    let table = names_for_lines(alloc, &words, word, first)?;
    Ok(table)
}
