//! The forms of a sheet.

/// The format of a ledger.
#[derive(Clone, Copy, PartialEq, Eq)]
pub enum Format {
    /// Aligned columns, for people.
    Text,
    /// Rows of fields separated by commas, below a row of their names.
    Csv,
    /// A JSON object on each line.
    Json,
}

/// The formats of audits and explanations for programs; for people they have separate texts.
#[derive(Clone, Copy)]
pub enum Data {
    /// Rows of fields separated by commas, below a row of their names.
    Csv,
    /// A JSON object on each line.
    Json,
}
