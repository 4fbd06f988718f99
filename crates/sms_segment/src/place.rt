//! Where a part stands in its message.

/// What the parts of one message have in common, so that a receiver can tell them from other
/// messages' parts. Two references of one number and of two kinds are two references.
#[derive(Clone, Copy, Debug, PartialEq, Eq)]
pub enum Reference {
    /// A reference number of 8 bits (3GPP TS 23.040 9.2.3.24.1).
    Short(u8),
    /// A reference number of 16 bits (3GPP TS 23.040 9.2.3.24.8).
    Long(u16),
}

/// The place of a part in its message (3GPP TS 23.040 9.2.3.24.1 and 9.2.3.24.8).
#[derive(Clone, Copy, Debug, PartialEq, Eq)]
pub struct Place {
    pub reference: Reference,
    /// How many parts the message has.
    pub count: u8,
    /// Which of them this is, from 1.
    pub number: u8,
}
