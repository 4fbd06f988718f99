//! Requests: what each is for, how often it was sent, and how far it has come.

/// How far a request has come. The last four are final.
#[derive(Clone, Copy, Debug, PartialEq, Eq)]
pub enum Phase {
    /// It may be sent, or sent again.
    Ready,
    /// It was sent, and its answer has not been taken.
    Open,
    /// Its answer was `ESME_ROK`: its credits are spent.
    Charged,
    /// Its last answer was a refusal, or it was given up after one: its credits came back.
    Refused,
    /// It was sent and nobody waits for its answer: its credits stay reserved.
    Unanswered,
    /// It was given up before it was sent: its credits came back.
    Unsent,
}

/// A request: the account that pays, its cost in credits, how often it was sent, and how far it has
/// come.
#[derive(Clone, Copy, Debug, PartialEq, Eq)]
pub struct RequestState {
    pub account: u32,
    pub cost: u32,
    pub attempts: u32,
    pub phase: Phase,
}

/// A request under the name that the events give it.
#[derive(Clone, Copy, Debug, PartialEq, Eq)]
pub struct Request {
    pub id: u32,
    pub state: RequestState,
}
