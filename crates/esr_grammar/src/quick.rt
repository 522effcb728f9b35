//! Parses the most frequent lines of scripts in one pass. The bytes of the two names of a read or a write are classified
//! together, sixteen at a time.
//!
//! The names of a read are among the last sixteen bytes of most lines, those of a write among the first sixteen bytes after the
//! first word. Of eight to fifteen bytes, the first eight and the last eight are classified, which overlap. Other names are
//! tested eight bytes at a time, and long ones byte by byte.
//!
//! The line is the one spelling of the returned command. If none is returned, `parse` decides, so this module need not
//! recognize every line.

ghost use Rattle.std.specs.Prelude.{◌≡◌, ℕ, ◌+◌, ◌/◌, ◌≤◌, ◌^◌, List, ◌∷◌, ◌++◌, IfSome, Some, codes, length, map, drop, option_map};
ghost use Rattle.std.specs.List.{list_all, position};
ghost use Rattle.std.specs.Simd.Lanes.{mask_l};
ghost use Rattle.esr_grammar.specs.Command.{is_name, is_name_byte, name_of, IsName, IsSyntaxOf, view};
ghost use Rattle.esr_grammar.specs.Stops.{is_stop, starts_with_letter, AreStops};

use crate::parse::Line;
use crate::words::{all_name_bytes, int_at_end, is_letter, is_name_byte, limit, name};
use std::simd::prelude::*;
use std::str::from_utf8_unchecked;

/// Returns a mask with a bit for each byte that is not permitted in a name.
#[inline(always)]
fn name_stops<const N: usize>(bytes: Simd<u8, N>) -> u64
    requires { N ≤ 64 }
    ensures { result ≡ mask_l (map is_stop bytes.entry) }
{
    let lowercase = bytes | Simd::splat(0x20);
    let is_no_letter = (lowercase - Simd::splat(b'a')).simd_ge(Simd::splat(26));
    let is_no_digit = (bytes - Simd::splat(b'0')).simd_ge(Simd::splat(10));
    (is_no_letter & is_no_digit & bytes.simd_ne(Simd::splat(b'_'))).to_bitmask()
}

/// Returns the index of the first byte that is not permitted in a name. Tests one byte at a time.
fn name_end_by_bytes(bytes: &[u8]) -> Option<usize>
    ensures { result ≡ position is_stop bytes.now }
{
    bytes.iter().position(|b| !is_name_byte(*b))
}

/// Returns the index of the first byte that is not permitted in a name. Most names end within eight bytes.
#[inline(always)]
fn name_end(bytes: &[u8]) -> Option<usize>
    ensures { result ≡ position is_stop bytes.now }
{
    if bytes.len() >= 8 {
        let stops = name_stops(u8x8::from_slice(bytes));
        if stops != 0 {
            return Some(stops.trailing_zeros() as usize);
        }
    }
    name_end_by_bytes(bytes)
}

/// Returns whether a name may contain each byte of the word, with which the text ends. Most words have up to eight bytes.
#[inline(always)]
fn all_name_bytes_at_end(text: &[u8], word: &[u8]) -> bool
    requires { (front : List ℕ) × (text.now ≡ front ++ word.now) }
    ensures { result ≡ list_all is_name_byte word.now }
{
    if word.len() <= 8 && text.len() >= 8 {
        let stops = name_stops(u8x8::from_slice(&text[text.len() - 8..]));
        return stops >> (8 - word.len()) == 0;
    }
    all_name_bytes(word)
}

/// Returns whether the word with which the text ends is a valid name.
#[inline(always)]
fn is_name_at_end(text: &[u8], word: &[u8]) -> bool
    requires { (front : List ℕ) × (text.now ≡ front ++ word.now) }
    ensures { result ≡ is_name word.now }
{
    match word.split_first() {
        None => false,
        Some((first, rest)) => {
            is_letter(*first) && rest.len() <= 15 && all_name_bytes_at_end(text, rest)
        }
    }
}

/// Returns the word with which the text ends as a name, if it is valid.
#[inline(always)]
fn name_at_end<'a>(text: &[u8], word: &'a [u8]) -> Option<&'a str>
    requires { (front : List ℕ) × (text.now ≡ front ++ word.now) }
    ensures { option_map (λ name. name.now) result ≡ name_of word.now }
{
    if !is_name_at_end(text, word) {
        return None;
    }
    // the bytes of a name are ASCII
    Some(unsafe { from_utf8_unchecked(word) })
}

/// Returns the name before this place, and the text after it, given the place of the first byte that is not permitted in
/// a name. This byte must be a space.
#[inline(always)]
fn cut_name(bytes: &[u8], place: usize) -> Option<(&str, &[u8])>
    requires first { position is_stop bytes.now ≡ Some place }
    requires short { place ≤ 16 }
    ensures { IfSome result (λ p. IsName p.0.now × (bytes.now ≡ p.0.now ++ 32 ∷ p.1.now)) }
{
    if bytes[place] != b' ' {
        return None;
    }
    if !is_letter(bytes[0]) {
        return None;
    }
    // the bytes of a name are ASCII
    let name = unsafe { from_utf8_unchecked(&bytes[..place]) };
    Some((name, &bytes[place + 1..]))
}

/// Returns the name before the first space, and the text after the space.
#[inline(always)]
fn front_name(bytes: &[u8]) -> Option<(&str, &[u8])>
    ensures { IfSome result (λ p. IsName p.0.now × (bytes.now ≡ p.0.now ++ 32 ∷ p.1.now)) }
{
    let place = name_end(bytes)?;
    if place > 16 {
        return None;
    }
    cut_name(bytes, place)
}

/// Returns the name before the first space, and the text after the space, given a mask of the first bytes that are not
/// permitted in a name.
#[inline(always)]
fn front_name_in(bytes: &[u8], stops: u64) -> Option<(&str, &[u8])>
    requires { AreStops bytes.now stops }
    ensures { IfSome result (λ p. IsName p.0.now × (bytes.now ≡ p.0.now ++ 32 ∷ p.1.now)) }
{
    if stops == 0 {
        return front_name(bytes);
    }
    cut_name(bytes, stops.trailing_zeros() as usize)
}

/// Returns the part of a mask that is of the bytes after a name and a space.
#[inline(always)]
fn stops_after(stops: u64, name: &str) -> u64
    requires { IsName name.now }
    ensures { result ≡ stops / 2 ^ (length name.now + 1) }
{
    stops >> (name.len() + 1)
}

/// Returns a mask of the bytes that are not permitted in a name, of 8 to 16 bytes.
#[inline(always)]
fn short_stops(bytes: &[u8]) -> u64
    requires long { 8 ≤ length bytes.now }
    requires short { length bytes.now ≤ 16 }
    ensures { result ≡ mask_l (map is_stop bytes.now) }
{
    let first = u8x8::from_slice(bytes);
    let last = u8x8::from_slice(&bytes[bytes.len() - 8..]);
    let both = first.shuffle(last, [0, 1, 2, 3, 4, 5, 6, 7, 8, 9, 10, 11, 12, 13, 14, 15]);
    let stops = name_stops(both);
    // the first and the last eight bytes overlap
    stops % 256 + 256 * (stops / 256 >> (16 - bytes.len()))
}

/// Returns a mask of the first 16 bytes that are not permitted in a name, or an empty one if there are fewer than eight
/// bytes.
#[inline(always)]
fn first_stops(bytes: &[u8]) -> u64
    ensures { AreStops bytes.now result }
{
    match bytes.len() {
        16.. => name_stops(u8x16::from_slice(bytes)),
        8..=15 => short_stops(bytes),
        _ => 0,
    }
}

/// Parses `write NAME NAME INT`, after its first word.
#[inline(always)]
fn write(words: &[u8]) -> Option<Line<'_>>
    ensures { IfSome result (λ line. IsSyntaxOf (codes "write " ++ words.now) (view line)) }
{
    let stops = first_stops(words);
    let (txn, more) = front_name_in(words, stops)?;
    let (item, last) = front_name_in(more, stops_after(stops, txn))?;
    let value = int_at_end(words, last)?;
    Some(Line::Write { txn, item, value })
}

/// Returns whether the first byte is a letter.
#[inline(always)]
fn starts_with_letter(bytes: &[u8]) -> bool
    ensures { result ≡ starts_with_letter bytes.now }
{
    match bytes.split_first() {
        None => false,
        Some((first, _)) => is_letter(*first),
    }
}

/// Parses `read NAME NAME`, after its first word, given the mask of the bytes that are not permitted in a name.
#[inline(always)]
fn read_names(words: &[u8], stops: u64) -> Option<Line<'_>>
    requires short { length words.now ≤ 16 }
    requires stops { stops ≡ mask_l (map is_stop words.now) }
    ensures { IfSome result (λ line. IsSyntaxOf (codes "read " ++ words.now) (view line)) }
{
    let (txn, last) = front_name_in(words, stops)?;
    if stops_after(stops, txn) != 0 {
        return None;
    }
    if !starts_with_letter(last) {
        return None;
    }
    // the bytes of a name are ASCII
    let item = unsafe { from_utf8_unchecked(last) };
    Some(Line::Read { txn, item })
}

/// Returns a mask of the bytes that are not permitted in a name, of a line of 16 to 21 bytes without its first five.
#[inline(always)]
fn last_stops(line: &[u8]) -> u64
    requires long { 16 ≤ length line.now }
    requires short { length line.now ≤ 21 }
    ensures { result ≡ mask_l (map is_stop (drop 5 line.now)) }
{
    name_stops(u8x16::from_slice(&line[line.len() - 16..])) >> (21 - line.len())
}

/// Returns a mask of the bytes that are not permitted in a name, of a line of 8 to 21 bytes without its first five.
#[inline(always)]
fn stops_after_five(line: &[u8]) -> Option<u64>
    ensures { IfSome result (λ stops. (length line.now ≤ 21) × (stops ≡ mask_l (map is_stop (drop 5 line.now)))) }
{
    match line.len() {
        16..=21 => Some(last_stops(line)),
        8..=15 => Some(short_stops(line) >> 5),
        _ => None,
    }
}

/// Parses `read NAME NAME`, after its first word, one name at a time.
#[inline(always)]
fn read_each(words: &[u8]) -> Option<Line<'_>>
    ensures { IfSome result (λ line. IsSyntaxOf (codes "read " ++ words.now) (view line)) }
{
    let (txn, last) = front_name(words)?;
    let item = name_at_end(words, last)?;
    Some(Line::Read { txn, item })
}

/// Parses `read NAME NAME`, given the line and the words after its first.
#[inline(always)]
fn read<'a>(line: &[u8], words: &'a [u8]) -> Option<Line<'a>>
    requires { line.now ≡ codes "read " ++ words.now }
    ensures { IfSome result (λ found. IsSyntaxOf line.now (view found)) }
{
    match stops_after_five(line) {
        Some(stops) => read_names(words, stops),
        None => read_each(words),
    }
}

/// Parses `commit NAME`, after its first word.
#[inline(always)]
fn commit(words: &[u8]) -> Option<Line<'_>>
    ensures { IfSome result (λ line. IsSyntaxOf (codes "commit " ++ words.now) (view line)) }
{
    let txn = name(words)?;
    Some(Line::Commit { txn })
}

/// Parses `begin NAME update LIMIT`, given its name and its last word.
#[inline(always)]
fn begin_update<'a>(name: &'a str, last: &[u8]) -> Option<Line<'a>>
    requires { IsName name.now }
    ensures { IfSome result (λ line. IsSyntaxOf (codes "begin " ++ name.now ++ 32 ∷ (codes "update " ++ last.now)) (view line)) }
{
    let limit = limit(last)?;
    Some(Line::BeginUpdate { name, limit })
}

/// Parses `begin NAME query LIMIT`, given its name and its last word.
#[inline(always)]
fn begin_query<'a>(name: &'a str, last: &[u8]) -> Option<Line<'a>>
    requires { IsName name.now }
    ensures { IfSome result (λ line. IsSyntaxOf (codes "begin " ++ name.now ++ 32 ∷ (codes "query " ++ last.now)) (view line)) }
{
    let limit = limit(last)?;
    Some(Line::BeginQuery { name, limit })
}

/// Returns the text after `update` and a space.
#[inline(always)]
fn after_update(bytes: &[u8]) -> Option<&[u8]>
    ensures { IfSome result (λ last. bytes.now ≡ codes "update " ++ last.now) }
{
    match bytes {
        [b'u', b'p', b'd', b'a', b't', b'e', b' ', last @ ..] => Some(last),
        _ => None,
    }
}

/// Returns the text after `query` and a space.
#[inline(always)]
fn after_query(bytes: &[u8]) -> Option<&[u8]>
    ensures { IfSome result (λ last. bytes.now ≡ codes "query " ++ last.now) }
{
    match bytes {
        [b'q', b'u', b'e', b'r', b'y', b' ', last @ ..] => Some(last),
        _ => None,
    }
}

/// Parses a begin, given its name and the text after the next space.
#[inline(always)]
fn begin_kind<'a>(name: &'a str, more: &[u8]) -> Option<Line<'a>>
    requires { IsName name.now }
    ensures { IfSome result (λ line. IsSyntaxOf (codes "begin " ++ name.now ++ 32 ∷ more.now) (view line)) }
{
    match after_update(more) {
        Some(last) => begin_update(name, last),
        None => begin_query(name, after_query(more)?),
    }
}

/// Parses `begin NAME update LIMIT` and `begin NAME query LIMIT`, after the first word.
#[inline(always)]
fn begin(words: &[u8]) -> Option<Line<'_>>
    ensures { IfSome result (λ line. IsSyntaxOf (codes "begin " ++ words.now) (view line)) }
{
    let (name, more) = front_name(words)?;
    begin_kind(name, more)
}

/// The bytes `writ` as a number.
const WRIT: u32 = 0x7469_7277;

/// The bytes `read` as a number.
const READ: u32 = 0x6461_6572;

/// Parses a line that begins with `writ`, after these bytes.
#[inline(always)]
fn write_line(bytes: &[u8]) -> Option<Line<'_>>
    ensures { IfSome result (λ line. IsSyntaxOf (codes "writ" ++ bytes.now) (view line)) }
{
    match bytes {
        [b'e', b' ', words @ ..] => write(words),
        _ => None,
    }
}

/// Parses a line that begins with `read`, given the line and the text after these bytes.
#[inline(always)]
fn read_line<'a>(line: &[u8], bytes: &'a [u8]) -> Option<Line<'a>>
    requires { line.now ≡ codes "read" ++ bytes.now }
    ensures { IfSome result (λ found. IsSyntaxOf line.now (view found)) }
{
    match bytes {
        [b' ', words @ ..] => read(line, words),
        _ => None,
    }
}

/// Returns the read, if the line is one in the usual form.
#[inline(always)]
pub fn quick_read(line: &[u8]) -> Option<Line<'_>>
    ensures { IfSome result (λ found. IsSyntaxOf line.now (view found)) }
{
    let first = line.first_chunk::<4>()?;
    match u32::from_le_bytes(*first) {
        READ => read_line(line, &line[4..]),
        _ => None,
    }
}

/// Returns the write, if the line is one in the usual form.
#[inline(always)]
pub fn quick_write(line: &[u8]) -> Option<Line<'_>>
    ensures { IfSome result (λ found. IsSyntaxOf line.now (view found)) }
{
    let first = line.first_chunk::<4>()?;
    match u32::from_le_bytes(*first) {
        WRIT => write_line(&line[4..]),
        _ => None,
    }
}

/// Returns the begin or the commit, if the line is one in the usual form.
#[inline(always)]
pub fn quick_begin_or_commit(line: &[u8]) -> Option<Line<'_>>
    ensures { IfSome result (λ found. IsSyntaxOf line.now (view found)) }
{
    match line {
        [b'c', b'o', b'm', b'm', b'i', b't', b' ', words @ ..] => commit(words),
        [b'b', b'e', b'g', b'i', b'n', b' ', words @ ..] => begin(words),
        _ => None,
    }
}

/// Returns the command, if the line is one of the frequent commands above.
#[inline(always)]
pub fn quick(line: &[u8]) -> Option<Line<'_>>
    ensures { IfSome result (λ found. IsSyntaxOf line.now (view found)) }
{
    if let Some(found) = quick_read(line) {
        return Some(found);
    }
    match quick_write(line) {
        Some(found) => Some(found),
        None => quick_begin_or_commit(line),
    }
}
