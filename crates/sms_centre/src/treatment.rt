//! What the centre does with a submit_sm (SMPP 3.4 4.4).

/// What the centre does with a submit_sm.
#[derive(Clone, Copy, Debug, PartialEq, Eq)]
pub enum Treatment {
    /// A submit_sm_resp with this status.
    Status(u32),
    /// A generic_nack with this status.
    Nack(u32),
    /// Nothing.
    Silent,
    /// An unbind of the centre's own.
    Unbind,
    /// The submit_sm_resp two times.
    Twice(u32),
    /// The submit_sm_resp with another sequence_number.
    Stray(u32),
    /// The submit_sm_resp once `after` further submit_sm have come.
    Late { after: u32, status: u32 },
    /// A deliver_sm before the submit_sm_resp.
    Deliver,
    /// The first ten octets of the submit_sm_resp, and then the end.
    Cut,
    /// A command_length that no PDU has, and then the end.
    Huge,
}
