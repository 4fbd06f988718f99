//! The session of a bind: what it is opened with, its states, what each PDU that comes in asks for, and
//! what the answer to a submit_sm decides (SMPP 3.4 chapter 2, 4.1, 5.1.3).

#![tactic(auto)]

mod enquiry;
mod policy;
mod session;
mod settings;
#[cfg(test)]
mod tests;

pub use enquiry::{Enquiry, Look, silent_lines_were_asked};
pub use policy::{Decision, Policy, PolicyError, decide};
pub use session::{Action, OpenFault, Opened, Response, Session, State};
pub use settings::Settings;
pub use sms_pdu::Mode;
