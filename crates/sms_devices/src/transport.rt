//! The connections of binds: how they are made, and what waits to be written to them.

mod buffered;
mod connecting;
mod connects;
mod dial;
mod guarded;
mod opening;
mod outbox;
mod outbox_writer;
mod outboxes;
mod requests;
mod room;
mod serving;

pub use connecting::{Reason, Unconnected};
pub use connects::{Connects, RoundBind};
pub use dial::{LoopDial, TcpDial};
pub use guarded::Guarded;
pub use opening::{Deadline, Opening};
pub use outbox::Outbox;
pub use outbox_writer::OutboxWriter;
pub use outboxes::Outboxes;
