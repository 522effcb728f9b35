//! Stores the chain of an item.
ghost use Rattle.std.specs.Prelude.{◌≡◌, ◌-◌, length, slice_get};

/// The updates that wrote an item, by their positions in commit order, and the last value that each wrote.
///
/// `latest` repeats the last writer: the scan that gathers chains reads it for each operation, and the ends of a
/// thousand lists are rarely in a processor's cache, whereas these few bytes are.
#[derive(Drop)]
pub struct Links {
    pub writers: Vec<u32>,
    pub values: Vec<i64>,
    pub(crate) latest: Option<u32>,
    ghost kept: { latest ≡ slice_get writers.items (length writers.items - 1) },
}
