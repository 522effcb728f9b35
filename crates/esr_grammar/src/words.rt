//! The words of a line: names, limits and integers, in their one decimal form.

ghost use Rattle.esr_grammar.specs.declared.words.TheConstants.{INT_END};
ghost use Rattle.std.specs.Prelude.{◌≡◌, ℕ, List, ◌∷◌, ◌++◌, ◌+◌, ◌*◌, ◌<◌, ◌≤◌, ◌^◌, Option, option_map, length, IfSome, IfNone, IsTrue, true, false};
ghost use Rattle.std.specs.Str.{all_ascii_digits};
ghost use Rattle.std.specs.List.{position, list_all};
ghost use Rattle.esr_grammar.specs.Command.{is_letter, is_name_byte, is_name, value_from, number_below, is_space, words_of, words_after, name_of, limit_in, int_of, one_of, two_of, three_of, four_of};
ghost use Rattle.esr_grammar.specs.Classes.{classifies};

use crate::digits::short_value;
use std::str::from_utf8_unchecked;

/// One above the largest number of 18 digits.
const INT_END: u64 = 1_000_000_000_000_000_000;

fn find_space(bytes: &[u8]) -> Option<usize>
    ensures { result ≡ position is_space bytes.now }
{
    bytes.iter().position(|b| *b == b' ')
}

/// Returns the first word, and the text after the space that follows it.
#[tactic(auto, using(crate::proofs::Spaces::no_space, crate::proofs::Spaces::at_space))]
pub fn cut_word(bytes: &[u8]) -> (&[u8], Option<&[u8]>)
    ensures { words_of bytes.now ≡ result.0.now ∷ words_after result.1 }
{
    match find_space(bytes) {
        None => (bytes, None),
        Some(place) => (&bytes[..place], Some(&bytes[place + 1..])),
    }
}

/// Returns the word, if there is exactly one.
pub fn one_word(bytes: &[u8]) -> Option<&[u8]>
    ensures { option_map (λ w. w.now) result ≡ one_of (words_of bytes.now) }
{
    match cut_word(bytes) {
        (word, None) => Some(word),
        (_, Some(_)) => None,
    }
}

/// Returns the words, if there are exactly two.
pub fn two_words(bytes: &[u8]) -> Option<(&[u8], &[u8])>
    ensures { option_map (λ p. (p.0.now, p.1.now)) result ≡ two_of (words_of bytes.now) }
{
    let (first, more) = cut_word(bytes);
    let second = one_word(more?)?;
    Some((first, second))
}

/// Returns the words, if there are exactly three.
pub fn three_words(bytes: &[u8]) -> Option<(&[u8], &[u8], &[u8])>
    ensures { option_map (λ p. (p.0.now, p.1.now, p.2.now)) result ≡ three_of (words_of bytes.now) }
{
    let (first, more) = cut_word(bytes);
    let (second, third) = two_words(more?)?;
    Some((first, second, third))
}

/// Returns the words, if there are exactly four.
pub fn four_words(bytes: &[u8]) -> Option<(&[u8], &[u8], &[u8], &[u8])>
    ensures { option_map (λ p. (p.0.now, p.1.now, p.2.now, p.3.now)) result ≡ four_of (words_of bytes.now) }
{
    let (first, more) = cut_word(bytes);
    let (second, third, fourth) = three_words(more?)?;
    Some((first, second, third, fourth))
}

/// Returns whether a name may begin with the byte.
pub fn is_letter(byte: u8) -> bool
    ensures { result ≡ is_letter byte }
{
    matches!(byte, b'a'..=b'z' | b'A'..=b'Z')
}

/// Whether a name may contain the byte, for each byte: most bytes of a line are looked up.
static NAME_BYTES: [bool; 256] = [
    false, false, false, false, false, false, false, false, false, false, false, false, false,
    false, false, false, false, false, false, false, false, false, false, false, false, false,
    false, false, false, false, false, false, false, false, false, false, false, false, false,
    false, false, false, false, false, false, false, false, false, true, true, true, true, true,
    true, true, true, true, true, false, false, false, false, false, false, false, true, true,
    true, true, true, true, true, true, true, true, true, true, true, true, true, true, true, true,
    true, true, true, true, true, true, true, true, false, false, false, false, true, false, true,
    true, true, true, true, true, true, true, true, true, true, true, true, true, true, true, true,
    true, true, true, true, true, true, true, true, true, false, false, false, false, false, false,
    false, false, false, false, false, false, false, false, false, false, false, false, false,
    false, false, false, false, false, false, false, false, false, false, false, false, false,
    false, false, false, false, false, false, false, false, false, false, false, false, false,
    false, false, false, false, false, false, false, false, false, false, false, false, false,
    false, false, false, false, false, false, false, false, false, false, false, false, false,
    false, false, false, false, false, false, false, false, false, false, false, false, false,
    false, false, false, false, false, false, false, false, false, false, false, false, false,
    false, false, false, false, false, false, false, false, false, false, false, false, false,
    false, false, false, false, false, false, false, false, false, false, false, false, false,
    false, false, false, false, false, false, false, false, false, false,
];

#[inline(always)]
fn name_bytes() -> &'static [bool; 256]
    ensures { IsTrue (classifies 0 result.now) }
{
    &NAME_BYTES
}

/// Returns whether a name may contain the byte.
#[inline(always)]
pub fn is_name_byte(byte: u8) -> bool
    ensures { result ≡ is_name_byte byte }
{
    name_bytes()[byte as usize]
}

/// Returns whether a name may contain each byte.
#[inline(always)]
pub fn all_name_bytes(text: &[u8]) -> bool
    ensures { result ≡ list_all is_name_byte text.now }
{
    text.iter().all(|b| is_name_byte(*b))
}

#[inline(always)]
fn is_name(text: &[u8]) -> bool
    ensures { result ≡ is_name text.now }
{
    match text.split_first() {
        None => false,
        Some((first, rest)) => { is_letter(*first) && rest.len() <= 15 && all_name_bytes(rest) }
    }
}

/// Returns the word as a name, if it is valid.
#[inline(always)]
pub fn name(word: &[u8]) -> Option<&str>
    ensures { option_map (λ name. name.now) result ≡ name_of word.now }
{
    if !is_name(word) {
        return None;
    }
    // the bytes of a name are ASCII
    Some(unsafe { from_utf8_unchecked(word) })
}

/// Returns the value of up to 19 digits, one at a time.
#[tactic(auto, using(crate::proofs::Laws::no_digit))]
#[inline(always)]
fn value_by_bytes(digits: &[u8]) -> Option<u64>
    requires { length digits.now ≤ 19 }
    ensures found { IfSome result (λ n. (n ≡ value_from 0 digits.now) × (n < 10 ^ length digits.now)
        × (all_ascii_digits digits.now ≡ true)) }
    ensures none { IfNone result (all_ascii_digits digits.now ≡ false) }
{
    let mut value: u64 = 0;
    for digit in digits {
        if !digit.is_ascii_digit() {
            return None;
        }
        value = 10 * value + u64::from(*digit - b'0');
    }
    Some(value)
}

/// Returns the value of digits, given eight of them and the value of those before.
#[inline(always)]
fn with_eight(value: u64, eight: &[u8]) -> Option<u64>
    requires long { length eight.now ≡ 8 }
    requires small { value < 10 ^ 11 }
    ensures found { IfSome result (λ n. (n ≡ value_from value eight.now) × (n < (value + 1) * 10 ^ 8)
        × (all_ascii_digits eight.now ≡ true)) }
    ensures none { IfNone result (all_ascii_digits eight.now ≡ false) }
{
    let low = short_value(eight, eight)?;
    Some(value * 100_000_000 + low)
}

/// Returns the value of 17 to 19 digits, the last 16 in two blocks of eight.
#[inline(never)]
fn long_value(digits: &[u8]) -> Option<u64>
    requires { (16 < length digits.now) × (length digits.now ≤ 19) }
    ensures found { IfSome result (λ n. (n ≡ value_from 0 digits.now) × (n < 10 ^ 19)
        × (all_ascii_digits digits.now ≡ true)) }
    ensures none { IfNone result (all_ascii_digits digits.now ≡ false) }
{
    let (front, last) = digits.split_at(digits.len() - 16);
    let (middle, end) = last.split_at(8);
    let high = value_by_bytes(front)?;
    let next = with_eight(high, middle)?;
    with_eight(next, end)
}

/// Returns the value of up to 19 digits, with which the text ends.
#[inline(always)]
fn digits_value(text: &[u8], digits: &[u8]) -> Option<u64>
    requires ends { (front : List ℕ) × (text.now ≡ front ++ digits.now) }
    requires upper_bound { length digits.now ≤ 19 }
    ensures found { IfSome result (λ n. (n ≡ value_from 0 digits.now) × (n < 10 ^ 19)
        × (all_ascii_digits digits.now ≡ true)) }
    ensures none { IfNone result (all_ascii_digits digits.now ≡ false) }
{
    if digits.len() <= 8 && text.len() >= 8 {
        return short_value(text, digits);
    }
    if digits.len() > 16 {
        return long_value(digits);
    }
    value_by_bytes(digits)
}

/// Returns the limit with this decimal form, with which the text ends: digits without leading zeros.
#[tactic(auto, using(crate::proofs::Laws::too_long, crate::proofs::Laws::empty_word, crate::proofs::Laws::zero_alone, crate::proofs::Laws::zero_in_front))]
#[inline(always)]
pub fn limit_at_end(text: &[u8], word: &[u8]) -> Option<u64>
    requires { (front : List ℕ) × (text.now ≡ front ++ word.now) }
    ensures { result ≡ limit_in word.now }
{
    if word.len() > 19 {
        return None;
    }
    match word.first() {
        None => None,
        Some(b'0') => { if word.len() == 1 { Some(0) } else { None } }
        Some(_) => digits_value(text, word),
    }
}

/// Returns the number of up to 18 digits with this decimal form, with which the text ends.
#[inline(always)]
fn magnitude(text: &[u8], word: &[u8]) -> Option<u64>
    requires { (front : List ℕ) × (text.now ≡ front ++ word.now) }
    ensures { result ≡ number_below INT_END word.now }
{
    let number = limit_at_end(text, word)?;
    if number < INT_END { Some(number) } else { None }
}

/// Returns the integer with this decimal form, with which the text ends.
#[inline(always)]
pub fn int_at_end(text: &[u8], word: &[u8]) -> Option<i64>
    requires { (front : List ℕ) × (text.now ≡ front ++ word.now) }
    ensures { result ≡ int_of word.now }
{
    match word.split_first() {
        None => None,
        Some((b'-', digits)) => {
            let number = magnitude(text, digits)?;
            if number == 0 {
                None
            } else {
                Some(-(number as i64))
            }
        }
        Some(_) => Some(magnitude(text, word)? as i64),
    }
}

/// Returns the limit with this decimal form.
pub fn limit(word: &[u8]) -> Option<u64>
    ensures { result ≡ limit_in word.now }
{
    limit_at_end(word, word)
}

/// Returns the integer with this decimal form.
pub fn int(word: &[u8]) -> Option<i64>
    ensures { result ≡ int_of word.now }
{
    int_at_end(word, word)
}
