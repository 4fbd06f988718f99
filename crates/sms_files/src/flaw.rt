//! What may be wrong with a record.

/// What is wrong with a record where it stands. Fields and records count from 1.
#[derive(Clone, Copy, Debug, PartialEq, Eq)]
pub enum Flaw {
    /// There is no such record.
    Missing,
    /// It stands first and isn't the header.
    Header,
    /// There may be no more records before it.
    OneTooMany,
    /// It has this number of fields, which is a wrong one.
    Fields(usize),
    /// This field isn't UTF-8.
    NotText(usize),
    /// This field isn't a number, or it is out of range.
    NotNumber(usize),
    /// This field isn't 0 to 20 digits.
    NotDigits(usize),
    /// No record begins with its first field.
    Word,
    /// This earlier record has the same name or prefix.
    Taken(usize),
    /// The file ends within a quote that it opens.
    OpenQuote,
}
