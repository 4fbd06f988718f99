//! What is listed.

/// What is printed of the parts of a run's messages.
#[derive(Clone, Copy, Debug, PartialEq, Eq)]
pub enum Listing {
    /// Each part, with what it cost and what became of it.
    Bill,
    /// Those of which nobody knows whether they were delivered, with their texts.
    Doubtful,
}

/// What is listed, and with which columns.
#[derive(Clone, Copy, Debug)]
pub enum Columns<'a> {
    /// Its own.
    Usual(Listing),
    /// Its own, and as the last one the sender's own reference of each message. These are by the messages' indices.
    WithRefs(Listing, &'a [String]),
}
