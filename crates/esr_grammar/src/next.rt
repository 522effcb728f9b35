//! The next line in bytes that are cut into lines: a whole line, none yet, or one that is too long whatever follows.

ghost use Rattle.std.specs.Prelude.{◌≡◌, map, nat_eq, position};
ghost use Rattle.std.specs.Simd.Lanes.{mask_l};
ghost use Rattle.esr_grammar.specs.Lines.{line_len, IsNext};

use crate::limits::MAX_LINE_BYTES;
use memchr::memchr;
use std::simd::prelude::*;

/// The next line in the buffered bytes.
#[derive(Clone, Copy)]
pub enum Next {
    /// A line of this many bytes, and a line feed.
    Line(usize),
    TooLong,
    /// No whole line yet.
    More,
}

/// Returns a mask with a bit for each line feed.
#[inline(always)]
fn line_feeds(bytes: u8x32) -> u64
    ensures { result ≡ mask_l (map (λ b. nat_eq b 10) bytes) }
{
    bytes.simd_eq(u8x32::splat(b'\n')).to_bitmask()
}

/// Returns the index of the first line feed in a text of any length.
#[inline(never)]
fn search_line_feed(bytes: &[u8]) -> Option<usize>
    ensures { result ≡ position (λ b. nat_eq b 10) bytes.now }
{
    memchr(b'\n', bytes)
}

/// Returns the index of the first line feed. Most lines have fewer than 32 bytes.
#[inline(always)]
pub fn find_line_feed(bytes: &[u8]) -> Option<usize>
    ensures { result ≡ position (λ b. nat_eq b 10) bytes.now }
{
    if bytes.len() >= 32 {
        let feeds = line_feeds(u8x32::from_slice(bytes));
        if feeds != 0 {
            return Some(feeds.trailing_zeros() as usize);
        }
    }
    search_line_feed(bytes)
}

/// Returns the number of bytes before the first line feed.
#[tactic(auto, using(crate::proofs::Prefix::none_is_length))]
fn line_len(bytes: &[u8]) -> usize
    ensures { result ≡ line_len bytes.now }
{
    match find_line_feed(bytes) {
        Some(place) => place,
        None => bytes.len(),
    }
}

/// Returns the next line; a whole line only if its line feed is in the buffer.
pub fn next_line(bytes: &[u8]) -> Next
    ensures { IsNext result bytes.now }
{
    let length = line_len(bytes);
    if length > MAX_LINE_BYTES {
        Next::TooLong
    } else if length < bytes.len() {
        Next::Line(length)
    } else {
        Next::More
    }
}
