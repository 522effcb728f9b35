//! The reasons why a line is not a command: no clause contains the texts, and a reason that fits all lines would be
//! proved too.

use esr_lint::find_reason;
use std::alloc::Global;
use std::process::Abort;

type Row = (&'static [u8], usize, &'static str);

/// Lines that are not commands, the column of the error, and the reason.
static ROWS: [Row; 34] = [
    // The ways to misspell one line, each with its own reason: a blank at its end,
    (b"item a 1 ", 9, "trailing space"),
    // a blank in front,
    (b" item a 1", 1, "leading space"),
    // two blanks,
    (
        b"item  a 1",
        6,
        "consecutive spaces; separate words with a single space",
    ),
    // a tab,
    (
        b"item\ta 1",
        5,
        "tab character; separate words with a single space",
    ),
    // the line end of another system,
    (b"item a 1\r", 9, "line ends with CR LF; use LF only"),
    // the mark of another editor,
    (
        b"\xEF\xBB\xBFitem a 1",
        1,
        "file starts with a byte order mark; save it as UTF-8 without one",
    ),
    // another encoding,
    (b"\xFF\xFEi\0t\0", 1, "file is UTF-16; save it as UTF-8"),
    // the same encoding without a mark,
    (b"\0i\0t", 1, "file is UTF-16; save it as UTF-8"),
    // one NUL byte in a line of ASCII,
    (
        b"item a\0 1",
        7,
        "byte \\x00 is not printable ASCII; names may contain only letters, digits and _",
    ),
    // a letter of another alphabet,
    (
        b"item caf\xC3\xA9 1",
        9,
        "byte \\xc3 is not printable ASCII; names may contain only letters, digits and _",
    ),
    // a capital,
    (b"Item a 1", 1, "unknown command \"Item\"; item?"),
    // letters that changed places,
    (b"itme a 1", 1, "unknown command \"itme\"; item?"),
    // a name that begins with a digit,
    (b"item 1a 1", 6, "name \"1a\" does not start with a letter"),
    // a name with another byte,
    (
        b"item a-b 1",
        6,
        "name \"a-b\" contains \"-\"; names may contain only letters, digits and _",
    ),
    // a name that is too long,
    (
        b"item abcdefghijklmnopq 1",
        6,
        "name \"abcdefghijklmnopq\" is 17 characters long (maximum 16)",
    ),
    // a plus sign,
    (b"item a +1", 8, "\"+1\" has a plus sign; remove it"),
    // a fraction,
    (
        b"item a 1.5",
        8,
        "\"1.5\" has a fraction; only integers are allowed (use a smaller unit, such as cents)",
    ),
    // a separator,
    (
        b"item a 1,000",
        8,
        "\"1,000\" has a digit separator; write digits only",
    ),
    // zeros in front,
    (b"item a 007", 8, "\"007\" has leading zeros; remove them"),
    // a zero with a sign,
    (b"item a -0", 8, "\"-0\" is not allowed; write 0"),
    // a digit too many,
    (
        b"item a 1234567890123456789",
        8,
        "\"1234567890123456789\" has too many digits (maximum 18)",
    ),
    // a word for a number,
    (b"item a one", 8, "\"one\" is not an integer"),
    // no value,
    (
        b"item a",
        8,
        "missing value; usage: item NAME VALUE [weight W]",
    ),
    // a comment after it.
    (
        b"item a 1 # one",
        10,
        "comment after a command; comments must be on their own line",
    ),
    // A word that is not near any other has no hint.
    (b"hello", 1, "unknown command \"hello\""),
    // A letter is missing.
    (b"comit q", 1, "unknown command \"comit\"; commit?"),
    // The word of the other kind of transaction.
    (
        b"begin q qurey 5",
        9,
        "expected update or query, found \"qurey\"; query?",
    ),
    // A limit has no sign.
    (
        b"begin q query -5",
        15,
        "\"-5\" is negative; limits and weights must not be negative",
    ),
    // Only a report is placed after earlier commits.
    (b"begin u update 5 strict", 18, "only queries can be strict"),
    // A misspelled last word.
    (
        b"begin q query 5 strickt",
        17,
        "expected strict, found \"strickt\"; strict?",
    ),
    // One word too many.
    (
        b"read q a b",
        10,
        "unexpected \"b\"; usage: read TRANSACTION ITEM",
    ),
    // The first word alone.
    (b"commit", 7, "missing name; usage: commit TRANSACTION"),
    // The argument of `totals`.
    (b"totals q", 8, "unexpected \"q\"; usage: totals"),
    // A line of another kind of file.
    (
        b"session",
        1,
        "\"session\" is allowed only in drive files; use esr drive",
    ),
];

fn rows() -> &'static [Row] {
    &ROWS
}

/// Compares the reason of a line, and its column, with these.
fn check_row(rt: &impl Abort, alloc: Global, row: Row) {
    let (line, column, text) = row;
    let finding = find_reason(line);
    let Ok(printed) = finding.reason.to_string(alloc) else {
        panic!(rt; "no memory for {}", text)
    };
    assert!(rt;
        finding.column == column,
        "{} is of column {}",
        text,
        column
    );
    assert!(rt; printed.as_str() == text, "{} is told", text);
}

#[test]
fn each_misspelling_has_its_reason(rt: HostRuntime) {
    for row in rows() {
        check_row(&rt, rt.alloc(), *row);
    }
}
