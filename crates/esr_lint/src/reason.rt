//! The reason why a line is not a command, as far as its bytes show it.
//!
//! The bytes are checked first: line ends, marks and spaces of other programs, which affect every line of a file;
//! then the words, from left to right, against the form of the first one. The parser itself reports no reasons: each
//! command has one spelling, and the parser only rejects all others.

use crate::forms::{CommandSyntax, Slot, first_words, form_of};
use crate::relevant::nearest;
use std::fmt;

/// The faults of a number.
#[derive(Clone, Copy)]
pub enum NumberFault {
    Plus,
    Minus,
    MinusZero,
    LeadingZero,
    Fraction,
    Separator,
    TooLong(usize),
    NoNumber,
}

/// The reason why a line is not a command.
#[derive(Clone, Copy)]
pub enum Reason<'a> {
    ByteOrderMark,
    Utf16,
    CarriageReturn,
    Tab,
    LeadingSpace,
    TrailingSpace,
    DoubleSpace,
    NotAscii(u8),
    Session,
    UnknownCommand(&'a [u8]),
    Comment,
    Missing { slot: Slot, text: &'static str },
    Extra { word: &'a [u8], text: &'static str },
    LongName(&'a [u8]),
    FirstOfName(&'a [u8]),
    ByteOfName { word: &'a [u8], byte: u8 },
    Keyword { word: &'a [u8], slot: Slot },
    Number { word: &'a [u8], fault: NumberFault },
    StrictUpdate,
}

/// A reason, and the column of the first byte that it is about, from 1.
#[derive(Clone, Copy)]
pub struct Diagnosis<'a> {
    pub column: usize,
    pub reason: Reason<'a>,
}

/// Returns whether at least every second byte is NUL, as in ASCII text that is saved as UTF-16. A single NUL byte is not.
fn is_wide(line: &[u8]) -> bool {
    let zeros = line.iter().filter(|byte| **byte == 0).count();
    line.len() > 1 && zeros.saturating_mul(2) >= line.len().saturating_sub(1)
}

/// Returns the error of the encoding, whatever the words are.
fn encoding_fault(line: &[u8]) -> Option<Reason<'_>> {
    if line.starts_with(b"\xEF\xBB\xBF") {
        Some(Reason::ByteOrderMark)
    } else if line.starts_with(b"\xFF\xFE") || line.starts_with(b"\xFE\xFF") || is_wide(line) {
        Some(Reason::Utf16)
    } else {
        None
    }
}

/// Returns the fault of the spaces between words.
fn space_fault(line: &[u8]) -> Option<Diagnosis<'_>> {
    let mut before = b' ';
    let mut column = 1usize;
    for byte in line {
        if *byte == b' ' && before == b' ' {
            let reason = if column == 1 {
                Reason::LeadingSpace
            } else {
                Reason::DoubleSpace
            };
            return Some(Diagnosis { column, reason });
        }
        before = *byte;
        column = column.saturating_add(1);
    }
    if before == b' ' {
        let reason = Reason::TrailingSpace;
        return Some(Diagnosis {
            column: line.len(),
            reason,
        });
    }
    None
}

/// Returns the fault of the bytes of a line, whatever its words are.
fn byte_fault(line: &[u8]) -> Option<Diagnosis<'_>> {
    if let Some(reason) = encoding_fault(line) {
        return Some(Diagnosis { column: 1, reason });
    }
    if line.ends_with(b"\r") {
        let reason = Reason::CarriageReturn;
        return Some(Diagnosis {
            column: line.len(),
            reason,
        });
    }
    odd_byte(line)
}

/// Returns the first byte that no command contains.
fn odd_byte(line: &[u8]) -> Option<Diagnosis<'_>> {
    let mut column = 1usize;
    for byte in line {
        match *byte {
            b'\t' => return Some(Diagnosis {
                column,
                reason: Reason::Tab,
            }),
            b' '..=b'~' => {}
            other => return Some(Diagnosis {
                column,
                reason: Reason::NotAscii(other),
            }),
        }
        column = column.saturating_add(1);
    }
    None
}

/// Returns the fault of a name.
fn name_fault(word: &[u8]) -> Option<Reason<'_>> {
    let first = *word.first()?;
    if !first.is_ascii_alphabetic() {
        return Some(Reason::FirstOfName(word));
    }
    for byte in word {
        if !byte.is_ascii_alphanumeric() && *byte != b'_' {
            return Some(Reason::ByteOfName { word, byte: *byte });
        }
    }
    if word.len() > 16 {
        Some(Reason::LongName(word))
    } else {
        None
    }
}

/// Returns the fault of digits, of which at most `upper_bound` are permitted.
fn digits_fault(digits: &[u8], upper_bound: usize) -> Option<NumberFault> {
    if digits.is_empty() {
        return Some(NumberFault::NoNumber);
    }
    for byte in digits {
        match *byte {
            b'0'..=b'9' => {}
            b'.' => return Some(NumberFault::Fraction),
            b',' | b'_' | b'\'' => return Some(NumberFault::Separator),
            _ => return Some(NumberFault::NoNumber),
        }
    }
    if digits.len() > 1 && digits.starts_with(b"0") {
        Some(NumberFault::LeadingZero)
    } else if digits.len() > upper_bound {
        Some(NumberFault::TooLong(upper_bound))
    } else {
        None
    }
}

/// Returns the fault of a value.
fn value_fault(word: &[u8]) -> Option<NumberFault> {
    match word {
        [b'+', ..] => Some(NumberFault::Plus),
        b"-0" => Some(NumberFault::MinusZero),
        [b'-', digits @ ..] => digits_fault(digits, 18),
        digits => digits_fault(digits, 18),
    }
}

/// Returns the fault of a limit.
fn limit_fault(word: &[u8]) -> Option<NumberFault> {
    match word {
        [b'+', ..] => Some(NumberFault::Plus),
        [b'-', ..] => Some(NumberFault::Minus),
        digits => digits_fault(digits, 19),
    }
}

/// Returns the keywords permitted in a slot, if it requires a keyword.
fn keywords(slot: Slot) -> &'static [&'static str] {
    match slot {
        Slot::Kind => &["update", "query"],
        Slot::Weight => &["weight"],
        Slot::Strict => &["strict"],
        Slot::Name | Slot::Value | Slot::Limit => &[],
    }
}

/// Returns the fault of a word that must be one of the slot's keywords.
fn keyword_fault<'a>(slot: Slot, word: &'a [u8]) -> Option<Reason<'a>> {
    for meant in keywords(slot) {
        if word == meant.as_bytes() {
            return None;
        }
    }
    Some(Reason::Keyword { word, slot })
}

/// Returns the fault of the word in the slot.
fn slot_fault<'a>(slot: Slot, word: &'a [u8]) -> Option<Reason<'a>> {
    match slot {
        Slot::Name => name_fault(word),
        Slot::Kind | Slot::Weight | Slot::Strict => keyword_fault(slot, word),
        Slot::Value => Some(Reason::Number {
            word,
            fault: value_fault(word)?,
        }),
        Slot::Limit => Some(Reason::Number {
            word,
            fault: limit_fault(word)?,
        }),
    }
}

/// Returns the fault of the words after the first one.
fn words_fault<'a>(words: &'a [u8], form: CommandSyntax) -> Diagnosis<'a> {
    let mut column = form.word.len().saturating_add(2);
    let mut last = column;
    let mut slots = form.slots.iter();
    for word in words.split(|b| *b == b' ') {
        if word.starts_with(b"#") {
            return Diagnosis {
                column,
                reason: Reason::Comment,
            };
        }
        let Some(slot) = slots.next() else {
            return Diagnosis {
                column,
                reason: Reason::Extra {
                    word,
                    text: form.text,
                },
            };
        };
        if let Some(reason) = slot_fault(*slot, word) {
            return Diagnosis { column, reason };
        }
        last = column;
        column = column.saturating_add(word.len()).saturating_add(1);
    }
    match slots.next() {
        None | Some(Slot::Weight | Slot::Strict) => Diagnosis {
            column: last,
            reason: Reason::StrictUpdate,
        },
        Some(slot) => Diagnosis {
            column,
            reason: Reason::Missing {
                slot: *slot,
                text: form.text,
            },
        },
    }
}

/// Returns the first fault of a line, word by word.
fn line_fault(line: &[u8]) -> Diagnosis<'_> {
    let end = line.iter().position(|b| *b == b' ').unwrap_or(line.len());
    let word = line.get(..end).unwrap_or(line);
    if word == b"session".as_slice() {
        return Diagnosis {
            column: 1,
            reason: Reason::Session,
        };
    }
    let Some(form) = form_of(word) else {
        return Diagnosis {
            column: 1,
            reason: Reason::UnknownCommand(word),
        };
    };
    match line.get(end.saturating_add(1)..) {
        Some(words) => words_fault(words, form),
        None => match form.slots.first() {
            Some(slot) => {
                let reason = Reason::Missing {
                    slot: *slot,
                    text: form.text,
                };
                Diagnosis {
                    column: end.saturating_add(1),
                    reason,
                }
            }
            None => Diagnosis {
                column: 1,
                reason: Reason::UnknownCommand(word),
            },
        },
    }
}

/// Returns the reason why a line is not a command.
pub fn find_reason(line: &[u8]) -> Diagnosis<'_> {
    if let Some(finding) = byte_fault(line) {
        return finding;
    }
    match space_fault(line) {
        Some(finding) => finding,
        None => line_fault(line),
    }
}

/// The maximum number of bytes that are shown.
const SHOWN: usize = 40;

/// Shows bytes of an input as one line of printable ASCII.
#[derive(Clone, Copy)]
pub struct Shown<'a>(pub &'a [u8]);

impl fmt::Display for Shown<'_> {
    fn fmt<W: fmt::Write>(&self, f: &mut fmt::Formatter<W>) -> fmt::Result {
        for byte in self.0.iter().take(SHOWN) {
            match *byte {
                b' '..=b'~' => write!(f, "{}", *byte as char)?,
                other => write!(f, "\\x{other:02x}")?,
            }
        }
        if self.0.len() > SHOWN {
            f.write_str("..")?;
        }
        Ok(())
    }
}

impl fmt::Display for Slot {
    fn fmt<W: fmt::Write>(&self, f: &mut fmt::Formatter<W>) -> fmt::Result {
        let text = match self {
            Slot::Name => "name",
            Slot::Value => "value",
            Slot::Limit => "limit",
            Slot::Kind => "update or query",
            Slot::Weight => "weight",
            Slot::Strict => "strict",
        };
        f.write_str(text)
    }
}

impl fmt::Display for NumberFault {
    fn fmt<W: fmt::Write>(&self, f: &mut fmt::Formatter<W>) -> fmt::Result {
        match self {
            NumberFault::Plus => f.write_str("has a plus sign; remove it"),
            NumberFault::Minus => f.write_str(
                "is negative; limits and weights must not be negative",
            ),
            NumberFault::MinusZero => f.write_str("is not allowed; write 0"),
            NumberFault::LeadingZero => f.write_str("has leading zeros; remove them"),
            NumberFault::Fraction => f.write_str(
                "has a fraction; only integers are allowed (use a smaller unit, such as cents)",
            ),
            NumberFault::Separator => f.write_str("has a digit separator; write digits only"),
            NumberFault::TooLong(upper_bound) => write!(
                f,
                "has too many digits (maximum {upper_bound})"
            ),
            NumberFault::NoNumber => f.write_str("is not an integer"),
        }
    }
}

/// Appends what may have been meant.
fn push_hint<W: fmt::Write>(
    f: &mut fmt::Formatter<W>,
    word: &[u8],
    words: &[&'static str],
) -> fmt::Result {
    match nearest(word, words) {
        Some(meant) => write!(f, "; {meant}?"),
        None => Ok(()),
    }
}

/// Writes the fault of a name, or of a keyword.
fn push_word<W: fmt::Write>(f: &mut fmt::Formatter<W>, reason: Reason<'_>) -> fmt::Result {
    match reason {
        Reason::UnknownCommand(word) => {
            write!(f, "unknown command \"{}\"", Shown(word))?;
            push_hint(f, word, first_words())
        }
        Reason::Keyword { word, slot } => {
            write!(f, "expected {slot}, found \"{}\"", Shown(word))?;
            push_hint(f, word, keywords(slot))
        }
        Reason::LongName(word) => write!(
            f,
            "name \"{}\" is {} characters long (maximum 16)",
            Shown(word),
            word.len()
        ),
        Reason::FirstOfName(word) => write!(
            f,
            "name \"{}\" does not start with a letter",
            Shown(word)
        ),
        Reason::ByteOfName { word, byte } => {
            write!(
                f,
                "name \"{}\" contains \"{}\"; names may contain only letters, digits and _",
                Shown(word),
                Shown(&[byte])
            )
        }
        Reason::Number { word, fault } => write!(f, "\"{}\" {fault}", Shown(word)),
        Reason::Extra { word, text } => write!(f, "unexpected \"{}\"; usage: {text}", Shown(word)),
        _ => f.write_str("not a command"),
    }
}

impl fmt::Display for Reason<'_> {
    fn fmt<W: fmt::Write>(&self, f: &mut fmt::Formatter<W>) -> fmt::Result {
        match *self {
            Reason::ByteOrderMark => f.write_str(
                "file starts with a byte order mark; save it as UTF-8 without one",
            ),
            Reason::Utf16 => f.write_str("file is UTF-16; save it as UTF-8"),
            Reason::CarriageReturn => f.write_str("line ends with CR LF; use LF only"),
            Reason::Tab => f.write_str("tab character; separate words with a single space"),
            Reason::LeadingSpace => f.write_str("leading space"),
            Reason::TrailingSpace => f.write_str("trailing space"),
            Reason::DoubleSpace => f.write_str(
                "consecutive spaces; separate words with a single space",
            ),
            Reason::NotAscii(byte) => write!(
                f,
                "byte \\x{byte:02x} is not printable ASCII; names may contain only letters, digits and _"
            ),
            Reason::Session => f.write_str(
                "\"session\" is allowed only in drive files; use esr drive",
            ),
            Reason::Comment => f.write_str(
                "comment after a command; comments must be on their own line",
            ),
            Reason::Missing { slot, text } => write!(f, "missing {slot}; usage: {text}"),
            Reason::StrictUpdate => f.write_str("only queries can be strict"),
            other => push_word(f, other),
        }
    }
}
