//! The lines of a script: parses a line as a command, exactly if it is the command's one spelling.
//!
//! A weight is a second form of the line `item`, and `strict` a second form of the line `begin`: each form has one
//! spelling and one case in each definition, so no word is optional. Names are text of the line itself; nothing is
//! allocated.

ghost use Rattle.std.specs.Prelude.{◌≡◌, ◌↔◌, Option, Some, IfSome, option_map, IsTrue};
ghost use Rattle.esr_grammar.specs.Command.{Command, is_skipped, IsSyntaxOf, words_of, words_after, totals_command, plain_item_command, weighted_item_command, item_command, plain_begin_command, strict_query_command, begin_command, read_command, write_command, one_name_command, reading, view, command_in, IsReadingOf};

use crate::quick::{quick, quick_begin_or_commit, quick_read, quick_write};
use crate::words::{cut_word, four_words, int, limit, name, one_word, three_words, two_words};

/// A command, with its names as text of its line.
#[derive(Clone, Copy)]
pub enum Line<'a> {
    /// `item NAME INT`
    Item {
        name: &'a str,
        value: i64,
    },
    /// `item NAME INT weight LIMIT`
    WeightedItem {
        name: &'a str,
        value: i64,
        weight: u64,
    },
    /// `begin NAME update LIMIT`
    BeginUpdate {
        name: &'a str,
        limit: u64,
    },
    /// `begin NAME query LIMIT`
    BeginQuery {
        name: &'a str,
        limit: u64,
    },
    /// `begin NAME query LIMIT strict`
    BeginStrictQuery {
        name: &'a str,
        limit: u64,
    },
    /// `read NAME NAME`
    Read {
        txn: &'a str,
        item: &'a str,
    },
    /// `write NAME NAME INT`
    Write {
        txn: &'a str,
        item: &'a str,
        value: i64,
    },
    /// `commit NAME`
    Commit {
        txn: &'a str,
    },
    /// `abort NAME`
    Abort {
        txn: &'a str,
    },
    /// `audit NAME`
    Audit {
        txn: &'a str,
    },
    /// `totals`
    Totals,
}

/// The result of parsing a line of a script.
#[derive(Clone, Copy)]
pub enum Parsed<'a> {
    /// An empty line or a comment.
    Skipped,
    /// A line that is not a command.
    NotACommand,
    Command(Line<'a>),
}

/// Returns whether a line is empty or a comment.
fn is_skipped(line: &[u8]) -> bool
    ensures { result ≡ is_skipped line.now }
{
    match line.first() {
        None => true,
        Some(byte) => *byte == b'#',
    }
}

fn plain_item(words: &[u8]) -> Option<Line<'_>>
    ensures { option_map view result ≡ plain_item_command (words_of words.now) }
{
    let (first, second) = two_words(words)?;
    let name = name(first)?;
    let value = int(second)?;
    Some(Line::Item { name, value })
}

fn weighted_item(words: &[u8]) -> Option<Line<'_>>
    ensures { option_map view result ≡ weighted_item_command (words_of words.now) }
{
    let (first, second, kind, last) = four_words(words)?;
    if kind != b"weight".as_slice() {
        return None;
    }
    let name = name(first)?;
    let value = int(second)?;
    let weight = limit(last)?;
    Some(Line::WeightedItem {
        name,
        value,
        weight,
    })
}

fn item(words: &[u8]) -> Option<Line<'_>>
    ensures { option_map view result ≡ item_command (words_of words.now) }
{
    match plain_item(words) {
        Some(line) => Some(line),
        None => weighted_item(words),
    }
}

fn plain_begin(words: &[u8]) -> Option<Line<'_>>
    ensures { option_map view result ≡ plain_begin_command (words_of words.now) }
{
    let (first, kind, last) = three_words(words)?;
    let name = name(first)?;
    let limit = limit(last)?;
    if kind == b"update".as_slice() {
        Some(Line::BeginUpdate { name, limit })
    } else if kind == b"query".as_slice() {
        Some(Line::BeginQuery { name, limit })
    } else {
        None
    }
}

fn strict_query(words: &[u8]) -> Option<Line<'_>>
    ensures { option_map view result ≡ strict_query_command (words_of words.now) }
{
    let (first, kind, second, last) = four_words(words)?;
    if kind == b"query".as_slice() && last == b"strict".as_slice() {
        let name = name(first)?;
        let limit = limit(second)?;
        Some(Line::BeginStrictQuery { name, limit })
    } else {
        None
    }
}

fn begin(words: &[u8]) -> Option<Line<'_>>
    ensures { option_map view result ≡ begin_command (words_of words.now) }
{
    match plain_begin(words) {
        Some(line) => Some(line),
        None => strict_query(words),
    }
}

fn read(words: &[u8]) -> Option<Line<'_>>
    ensures { option_map view result ≡ read_command (words_of words.now) }
{
    let (first, second) = two_words(words)?;
    let txn = name(first)?;
    let item = name(second)?;
    Some(Line::Read { txn, item })
}

fn write(words: &[u8]) -> Option<Line<'_>>
    ensures { option_map view result ≡ write_command (words_of words.now) }
{
    let (first, second, third) = three_words(words)?;
    let txn = name(first)?;
    let item = name(second)?;
    let value = int(third)?;
    Some(Line::Write { txn, item, value })
}

/// Returns the command of the first word, if the command has one name.
fn of_one_name<'a>(word: &[u8], words: &'a [u8]) -> Option<Line<'a>>
    ensures { option_map view result ≡ one_name_command word.now (words_of words.now) }
{
    let txn = name(one_word(words)?)?;
    if word == b"commit".as_slice() {
        Some(Line::Commit { txn })
    } else if word == b"abort".as_slice() {
        Some(Line::Abort { txn })
    } else if word == b"audit".as_slice() {
        Some(Line::Audit { txn })
    } else {
        None
    }
}

#[tactic(auto, using(crate::proofs::Spaces::no_totals))]
fn totals(words: Option<&[u8]>) -> Option<Line<'static>>
    ensures { option_map view result ≡ totals_command (words_after words.entry) }
{
    match words {
        None => Some(Line::Totals),
        Some(_) => None,
    }
}

/// Parses a line word by word.
fn by_words(line: &[u8]) -> Option<Line<'_>>
    ensures { option_map view result ≡ reading line.now }
{
    let (word, more) = cut_word(line);
    if word == b"totals".as_slice() {
        return totals(more);
    }
    let words = more?;
    if word == b"read".as_slice() {
        read(words)
    } else if word == b"write".as_slice() {
        write(words)
    } else if word == b"begin".as_slice() {
        begin(words)
    } else if word == b"item".as_slice() {
        item(words)
    } else {
        of_one_name(word, words)
    }
}

/// Parses a line that is none of the frequent commands.
#[cold]
#[inline(never)]
fn other_line(line: &[u8]) -> Parsed<'_>
    ensures { IsReadingOf line.now result }
{
    if is_skipped(line) {
        return Parsed::Skipped;
    }
    match by_words(line) {
        Some(line) => Parsed::Command(line),
        None => Parsed::NotACommand,
    }
}

/// Returns the read, if the line is one in the usual form. For another line, `parse_line` decides.
#[tactic(auto, using(crate::proofs::Spelling::reading_if_some))]
#[inline(always)]
pub fn parse_read(line: &[u8]) -> Option<Line<'_>>
    ensures read { IfSome result (λ found. IsReadingOf line.now (Parsed.Command found)) }
    ensures command { IfSome result (λ found. IsSyntaxOf line.now (view found)) }
{
    quick_read(line)
}

/// Returns the write, if the line is one in the usual form. For another line, `parse_line` decides.
#[tactic(auto, using(crate::proofs::Spelling::reading_if_some))]
#[inline(always)]
pub fn parse_write(line: &[u8]) -> Option<Line<'_>>
    ensures read { IfSome result (λ found. IsReadingOf line.now (Parsed.Command found)) }
    ensures command { IfSome result (λ found. IsSyntaxOf line.now (view found)) }
{
    quick_write(line)
}

/// Returns the begin or the commit, if the line is one in the usual form. For another line, `parse_line` decides.
#[tactic(auto, using(crate::proofs::Spelling::reading_if_some))]
#[inline(always)]
pub fn parse_begin_or_commit(line: &[u8]) -> Option<Line<'_>>
    ensures read { IfSome result (λ found. IsReadingOf line.now (Parsed.Command found)) }
    ensures command { IfSome result (λ found. IsSyntaxOf line.now (view found)) }
{
    quick_begin_or_commit(line)
}

/// Parses a line. Allocates nothing.
#[inline(always)]
pub fn parse_line(line: &[u8]) -> Parsed<'_>
    // Skipped exactly for a skipped line, a command exactly if the line is its text.
    ensures skipped { (result ≡ Parsed.Skipped) ↔ IsTrue (is_skipped line.now) }
    ensures read { IsReadingOf line.now result }
    ensures command { (c : Command) → (command_in result ≡ Some c) ↔ IsSyntaxOf line.now c }

    // Parsing a line, and the text of a command, are inverse.
    ensures law { (c : Command) → (reading line.now ≡ Some c) ↔ IsSyntaxOf line.now c }
{
    match quick(line) {
        Some(found) => Parsed::Command(found),
        None => other_line(line),
    }
}
