// Where something stands in a text.

/// A place in the files that are examined.
#[derive(Clone, Copy, Debug, PartialEq, Eq, Hash)]
pub struct Place {
    /// The position of the file in the order of the words, from 0.
    pub file: u32,
    /// The line, from 1.
    pub line: u32,
    /// The column, in bytes, from 1.
    pub column: u32,
}
