//! The text that the sink has not yet taken, in a buffer that is longer than the text.
//!
//! The reply to a read, a write, a begin or a commit is placed over the bytes after the text, in blocks of fixed sizes:
//! a few instructions, whereas appending it to a vector takes two calls, of which one copies a number of bytes that only
//! it knows. Any other text is appended to the vector itself, which `take_text` cuts to the text.

ghost use Rattle.std.specs.Prelude.{◌≡◌, ℕ, List, [], ◌+◌, ◌∷◌, ◌++◌, ◌<◌, ◌≤◌, IfOk, OnOk, OnErr, length, take, slice_set, codes};
ghost use Rattle.esr_script.specs.Placed.{Placed};

use crate::output::OUTPUT_ROOM;
use std::alloc::{AllocError, Global};
use std::marker::Model;
use std::mem;
use std::simd::Simd;

/// The number of bytes by which the buffer becomes longer than necessary.
const GROWTH: usize = 512;

/// Text that the sink has not yet taken: the first `len` bytes of the buffer.
#[derive(Drop)]
pub struct TextBuffer {
    buffer: Vec<u8>,
    len: usize,
    alloc: Global,
}

impl Model for TextBuffer {
    ghost Value = { List ℕ };

    ghost view = { λ t. take t.len t.buffer.items };

    ghost invariant = { λ t. t.len ≤ length t.buffer.items };
}

/// Places the first `N` bytes of a text: one load and one store. Returns the index after them.
#[inline(always)]
fn place_front<const N: usize>(buffer: &mut [u8], at: usize, text: &[u8]) -> usize
    requires { (N ≤ length text.now) × (at + N ≤ length buffer.old) }
    ensures { Placed buffer.old buffer.new at (take N text.now) result }
{
    Simd::<u8, N>::from_slice(text).copy_to_slice(&mut buffer[at..]);
    at + N
}

/// Places a text of `N` to twice `N` bytes: its first and its last `N` bytes, which may overlap.
#[inline(always)]
fn place_ends<const N: usize>(buffer: &mut [u8], at: usize, text: &[u8]) -> usize
    requires fits { at + length text.now ≤ length buffer.old }
    requires covers { (N ≤ length text.now) × (length text.now ≤ N + N) }
    ensures { Placed buffer.old buffer.new at text.now result }
{
    let last = text.len() - N;
    place_front::<N>(buffer, at, text);
    place_front::<N>(buffer, at + last, &text[last..])
}

/// Places a text of any length.
#[inline(never)]
fn place_long(buffer: &mut [u8], at: usize, text: &[u8]) -> usize
    requires { at + length text.now ≤ length buffer.old }
    ensures { Placed buffer.old buffer.new at text.now result }
{
    let end = at + text.len();
    buffer[at..end].copy_from_slice(text);
    end
}

/// Places a text. Most have 4 to 32 bytes. Returns the index after it.
#[inline(always)]
fn place(buffer: &mut [u8], at: usize, text: &[u8]) -> usize
    requires { at + length text.now ≤ length buffer.old }
    ensures { Placed buffer.old buffer.new at text.now result }
{
    let len = text.len();
    if len >= 16 {
        if len > 32 {
            place_long(buffer, at, text)
        } else {
            place_ends::<16>(buffer, at, text)
        }
    } else if len >= 8 {
        place_ends::<8>(buffer, at, text)
    } else if len >= 4 {
        place_ends::<4>(buffer, at, text)
    } else {
        place_long(buffer, at, text)
    }
}

/// Places a byte. Returns the index after it.
#[inline(always)]
fn place_byte(buffer: &mut [u8], at: usize, byte: u8) -> usize
    requires { at < length buffer.old }
    ensures { Placed buffer.old buffer.new at (byte ∷ []) result }
{
    buffer[at] = byte;
    at + 1
}

/// Places the reply to a write, given its line. Returns the index after it.
#[inline(always)]
fn place_wrote(buffer: &mut [u8], at: usize, line: &[u8]) -> usize
    requires long { 2 < length line.now }
    requires fits { at + length line.now + 1 ≤ length buffer.old }
    ensures placed { Placed buffer.old buffer.new at (slice_set line.now 2 111 ++ 10 ∷ []) result }
    ensures end { result ≡ at + (length line.now + 1) }
    ensures len { length buffer.new ≡ length buffer.old }
{
    let end = place(buffer, at, line);
    buffer[at + 2] = b'o';
    place_byte(buffer, end, b'\n')
}

/// Places a space, the last word of a reply, and the end of its line. Returns the index after it.
#[inline(always)]
fn place_last(buffer: &mut [u8], at: usize, word: &[u8]) -> usize
    requires { at + length word.now + 2 ≤ length buffer.old }
    ensures placed { Placed buffer.old buffer.new at (32 ∷ (word.now ++ 10 ∷ [])) result }
    ensures end { result ≡ at + (length word.now + 2) }
    ensures len { length buffer.new ≡ length buffer.old }
{
    let start = place_byte(buffer, at, b' ');
    let end = place(buffer, start, word);
    place_byte(buffer, end, b'\n')
}

/// Places the reply to a begin, given the first two words of its line and the number of the transaction. Returns the
/// index after it.
#[inline(always)]
fn place_begun(buffer: &mut [u8], at: usize, words: &[u8], number: &[u8]) -> usize
    requires long { 3 < length words.now }
    requires fits { at + length words.now + length number.now + 2 ≤ length buffer.old }
    ensures placed { Placed buffer.old buffer.new at (slice_set words.now 3 117 ++ (32 ∷ (number.now ++ 10 ∷ []))) result }
    ensures end { result ≡ at + (length words.now + length number.now + 2) }
    ensures len { length buffer.new ≡ length buffer.old }
{
    let after = place(buffer, at, words);
    buffer[at + 3] = b'u';
    place_last(buffer, after, number)
}

/// Places the reply to a commit, given its transaction. Returns the index after it.
#[inline(always)]
fn place_committed(buffer: &mut [u8], at: usize, txn: &[u8]) -> usize
    requires { at + length txn.now + 11 ≤ length buffer.old }
    ensures placed { Placed buffer.old buffer.new at (codes "committed" ++ (32 ∷ (txn.now ++ 10 ∷ []))) result }
    ensures end { result ≡ at + (length txn.now + 11) }
    ensures len { length buffer.new ≡ length buffer.old }
{
    let after = place(buffer, at, b"committed".as_slice());
    place_last(buffer, after, txn)
}

/// Places the reply to a read, given the words of its line and the value. Returns the index after it.
#[inline(always)]
fn place_value(buffer: &mut [u8], at: usize, words: &[u8], value: &[u8]) -> usize
    requires { at + length words.now + length value.now + 2 ≤ length buffer.old }
    ensures placed { Placed buffer.old buffer.new at (words.now ++ (32 ∷ (value.now ++ 10 ∷ []))) result }
    ensures end { result ≡ at + (length words.now + length value.now + 2) }
    ensures len { length buffer.new ≡ length buffer.old }
{
    let after = place(buffer, at, words);
    place_last(buffer, after, value)
}

/// Makes the buffer longer.
#[cold]
#[inline(never)]
fn extend(buffer: &mut Vec<u8>, more: usize) -> Result<(), AllocError>
    ensures ok { OnOk result (length buffer.old.items + more ≤ length buffer.new.items) }
    ensures bytes { take (length buffer.old.items) buffer.new.items ≡ buffer.old.items }
{
    let Some(least) = buffer.len().checked_add(more) else {
        return Err(AllocError);
    };
    let Some(len) = least.checked_add(GROWTH) else {
        return Err(AllocError);
    };
    buffer.resize(len, 0)
}

/// Makes the buffer longer unless it has this number of bytes after the text.
#[inline(always)]
fn make_room(buffer: &mut Vec<u8>, len: usize, more: usize) -> Result<(), AllocError>
    requires { len ≤ length buffer.old.items }
    ensures ok { OnOk result (len + more ≤ length buffer.new.items) }
    ensures text { take len buffer.new.items ≡ take len buffer.old.items }
    ensures len { len ≤ length buffer.new.items }
{
    if buffer.len() - len >= more {
        return Ok(());
    }
    extend(buffer, more)
}

impl TextBuffer {
    /// Returns an empty buffer.
    pub fn new(alloc: Global) -> TextBuffer
        ensures { result ≡ [] }
    {
        TextBuffer {
            buffer: Vec::new(alloc),
            len: 0,
            alloc,
        }
    }

    /// Returns an empty buffer with this capacity.
    pub fn with_capacity(alloc: Global, capacity: usize) -> Result<TextBuffer, AllocError>
        ensures { IfOk result (λ t. t ≡ []) }
    {
        Ok(TextBuffer {
            buffer: Vec::with_capacity(alloc, capacity)?,
            len: 0,
            alloc,
        })
    }

    /// Returns the length of the text.
    #[tactic(auto, using(crate::proofs::Places::size))]
    pub fn len(&self) -> usize
        ensures { result ≡ length self.now }
    {
        self.len
    }

    /// Returns the text.
    pub fn text(&self) -> &[u8]
        ensures { result.now ≡ self.now }
    {
        &self.buffer[..self.len]
    }

    /// Removes the text. The buffer keeps its length, so its bytes are not set again, unless a long line has extended it
    /// beyond the usual capacity.
    pub fn clear(&mut self)
        ensures { self.new ≡ [] }
    {
        self.len = 0;
        if self.buffer.len() > OUTPUT_ROOM {
            self.buffer.clear();
            self.buffer.shrink_to(OUTPUT_ROOM);
        }
    }

    /// Takes the text, in a vector to which more can be appended before it is put back.
    pub fn take_text(&mut self) -> Vec<u8>
        ensures text { result.items ≡ self.old }
        ensures rest { self.new ≡ [] }
    {
        let mut text = mem::replace(&mut self.buffer, Vec::new(self.alloc));
        text.truncate(self.len);
        self.len = 0;
        text
    }

    /// Replaces the text.
    #[tactic(auto, using(crate::proofs::Places::whole))]
    pub fn put_text(&mut self, text: Vec<u8>)
        ensures { self.new ≡ text.items }
    {
        self.len = text.len();
        self.buffer = text;
    }

    /// Appends the reply to a write, given its line.
    #[tactic(auto, using(crate::proofs::Places::appended))]
    #[inline(always)]
    pub fn append_wrote(&mut self, line: &[u8]) -> Result<(), AllocError>
        requires { 2 < length line.now }
        ensures ok { OnOk result (self.new ≡ self.old ++ (slice_set line.now 2 111 ++ 10 ∷ [])) }
        ensures err { OnErr result (self.new ≡ self.old) }
    {
        make_room(&mut self.buffer, self.len, line.len() + 1)?;
        self.len = place_wrote(&mut self.buffer, self.len, line);
        Ok(())
    }

    /// Appends the reply to a begin, given the first two words of its line and the number of the transaction.
    #[tactic(auto, using(crate::proofs::Places::appended))]
    #[inline(always)]
    pub fn append_begun(&mut self, words: &[u8], number: &[u8]) -> Result<(), AllocError>
        requires long { 3 < length words.now }
        requires short { length number.now ≤ 40 }
        ensures ok { OnOk result (self.new ≡ self.old ++ (slice_set words.now 3 117 ++ (32 ∷ (number.now ++ 10 ∷ [])))) }
        ensures err { OnErr result (self.new ≡ self.old) }
    {
        make_room(&mut self.buffer, self.len, words.len() + number.len() + 2)?;
        self.len = place_begun(&mut self.buffer, self.len, words, number);
        Ok(())
    }

    /// Appends the reply to a commit, given its transaction.
    #[tactic(auto, using(crate::proofs::Places::appended))]
    #[inline(always)]
    pub fn append_committed(&mut self, txn: &[u8]) -> Result<(), AllocError>
        ensures ok { OnOk result (self.new ≡ self.old ++ (codes "committed" ++ (32 ∷ (txn.now ++ 10 ∷ [])))) }
        ensures err { OnErr result (self.new ≡ self.old) }
    {
        make_room(&mut self.buffer, self.len, txn.len() + 11)?;
        self.len = place_committed(&mut self.buffer, self.len, txn);
        Ok(())
    }

    /// Appends the reply to a read, given the words of its line and the value.
    #[tactic(auto, using(crate::proofs::Places::appended))]
    #[inline(always)]
    pub fn append_value(&mut self, words: &[u8], value: &[u8]) -> Result<(), AllocError>
        requires { length value.now ≤ 40 }
        ensures ok { OnOk result (self.new ≡ self.old ++ (words.now ++ (32 ∷ (value.now ++ 10 ∷ [])))) }
        ensures err { OnErr result (self.new ≡ self.old) }
    {
        make_room(&mut self.buffer, self.len, words.len() + value.len() + 2)?;
        self.len = place_value(&mut self.buffer, self.len, words, value);
        Ok(())
    }
}
