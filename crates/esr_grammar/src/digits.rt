//! The value of a number of up to eight digits, computed from eight bytes at once.

ghost use Rattle.std.specs.Prelude.{◌≡◌, ℕ, ◌<◌, ◌≤◌, ◌^◌, List, ◌++◌, IfNone, IfSome, false, true, length, map, not, nat_lt};
ghost use Rattle.std.specs.List.{AllByRecursion};
ghost use Rattle.std.specs.Simd.Lanes.{mask_l};
ghost use Rattle.std.specs.Str.{all_ascii_digits};
ghost use Rattle.esr_grammar.specs.Command.{value_from};
ghost use Rattle.esr_grammar.specs.Digits.{padded, worth};

use std::simd::prelude::*;

/// Returns the eight bytes as digits, with 0 in place of those before the number.
#[inline(always)]
fn padded(bytes: u8x8, before: u8) -> u8x8
    requires { before ≤ 8 }
    ensures { result ≡ padded before bytes }
{
    let is_before = u8x8::from_array([0, 1, 2, 3, 4, 5, 6, 7]).simd_lt(u8x8::splat(before));
    is_before.select(u8x8::splat(0), bytes - u8x8::splat(b'0'))
}

/// Returns a mask with a bit for each number that is not a digit.
#[inline(always)]
fn no_digits(digits: u8x8) -> u64
    ensures { result ≡ mask_l (map (λ d. not (nat_lt d 10)) digits) }
{
    digits.simd_ge(u8x8::splat(10)).to_bitmask()
}

/// Returns the value of eight digits.
#[inline(always)]
fn worth(digits: u8x8) -> u32
    requires { AllByRecursion (λ d. d < 10) digits }
    ensures value { result ≡ worth digits }
    ensures small { result < 10 ^ 8 }
{
    let worths = u32x8::from_array([10_000_000, 1_000_000, 100_000, 10_000, 1_000, 100, 10, 1]);
    (digits.cast::<u32>() * worths).reduce_sum()
}

/// Returns the value of a number of up to eight digits, with which a text of eight bytes or more ends.
#[inline(always)]
pub fn short_value(text: &[u8], number: &[u8]) -> Option<u64>
    requires ends { (front : List ℕ) × (text.now ≡ front ++ number.now) }
    requires long { 8 ≤ length text.now }
    requires short { length number.now ≤ 8 }
    ensures found { IfSome result (λ n. (n ≡ value_from 0 number.now) × (n < 10 ^ 8)
        × (all_ascii_digits number.now ≡ true)) }
    ensures none { IfNone result (all_ascii_digits number.now ≡ false) }
{
    let bytes = u8x8::from_slice(&text[text.len() - 8..]);
    let digits = padded(bytes, 8 - number.len() as u8);
    if no_digits(digits) != 0 {
        return None;
    }
    Some(u64::from(worth(digits)))
}
