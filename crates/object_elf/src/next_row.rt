//! The next row of a table that is written row by row.

/// Where the next row stands, and where its name does in the table's string section.
#[derive(Clone, Copy)]
pub(crate) struct NextRow {
    pub(crate) at: usize,
    pub(crate) name: u32,
}
