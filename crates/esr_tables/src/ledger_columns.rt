//! The columns of a ledger (a table with a row for each transaction of a history) as text and JSON, with the content of each
//! cell. Tests compare the table with `checks/reference.py`.

use crate::csv::{kind_word, outcome_word};
use crate::rows::Row;
use crate::spans::LineSpan;
use crate::words::Content;

/// A column of the ledger.
#[derive(Clone, Copy)]
pub enum Column {
    TxnNumber,
    Name,
    Kind,
    Limit,
    Charged,
    Remaining,
    Reads,
    Writes,
    BlockedByLock,
    BlockedByImport,
    BlockedByExport,
    Outcome,
    Distance,
    /// The number of the line that began the transaction.
    FirstLine,
    /// The number of its last accepted or blocked line, or 0.
    LastLine,
}

/// All columns in their order, each with the name of its JSON field and its heading.
pub const LEDGER_COLUMNS: [(Column, &str, &str); 15] = [
    (Column::TxnNumber, "number", "number"),
    (Column::Name, "name", "name"),
    (Column::Kind, "kind", "kind"),
    (Column::Limit, "limit", "limit"),
    (Column::Charged, "charged", "charged"),
    (Column::Remaining, "left", "left"),
    (Column::Reads, "reads", "reads"),
    (Column::Writes, "writes", "writes"),
    (Column::BlockedByLock, "blocked_by_lock", "lock"),
    (Column::BlockedByImport, "blocked_by_import", "import"),
    (Column::BlockedByExport, "blocked_by_export", "export"),
    (Column::Outcome, "end", "end"),
    (Column::Distance, "distance", "distance"),
    (Column::FirstLine, "first_line", "from"),
    (Column::LastLine, "last_line", "to"),
];

/// Returns the content of a row's cell.
pub fn content_of<'a>(column: Column, name: &'a str, row: &Row, span: LineSpan) -> Content<'a> {
    match column {
        Column::TxnNumber => Content::Number(u64::from(row.number.0)),
        Column::Name => Content::Word(name),
        Column::Kind => Content::Word(kind_word(row.kind)),
        Column::Limit => Content::Number(row.limit),
        Column::Charged => Content::Number(row.charged),
        Column::Remaining => Content::Number(row.left),
        Column::Reads => Content::Number(row.tally.reads),
        Column::Writes => Content::Number(row.tally.writes),
        Column::BlockedByLock => Content::Number(row.tally.blocked_by_lock),
        Column::BlockedByImport => Content::Number(row.tally.blocked_by_import),
        Column::BlockedByExport => Content::Number(row.tally.blocked_by_export),
        Column::Outcome => Content::Word(outcome_word(row.outcome)),
        Column::Distance => match row.distance {
            Some(distance) => Content::Number(distance),
            None => Content::Nothing,
        },
        Column::FirstLine => Content::Number(u64::from(span.first)),
        Column::LastLine => Content::Number(u64::from(span.last)),
    }
}
