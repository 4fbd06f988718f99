//! The PDUs of SMPP 3.4: their grammar, read and written, their frames in a stream, and the devices
//! that the stream is read from and written to.

#![tactic(auto)]

mod body;
mod borrowed;
mod command;
mod decoding;
mod device_error;
mod encoding;
mod error;
mod field;
mod frame;
mod framer;
mod front;
mod header;
pub mod laws;
mod layout;
mod left;
mod message_id;
mod octets;
mod parameter;
mod reading;
mod reply;
mod sizes;
mod tap;
mod turn;
mod writing;

pub use body::{Body, Pdu, Sm};
pub use borrowed::{BindRef, BodyRef, PduRef, SmRef};
pub use command::{
    ALERT_NOTIFICATION, BIND_TRANSCEIVER, BIND_TRANSCEIVER_RESP, BIND_TRANSMITTER,
    BIND_TRANSMITTER_RESP, Command, DELIVER_SM, DELIVER_SM_RESP, ENQUIRE_LINK, ENQUIRE_LINK_RESP,
    FIRST_RESPONSE, GENERIC_NACK, Mode, SUBMIT_SM, SUBMIT_SM_RESP, UNBIND, UNBIND_RESP,
};
pub use decoding::decode;
pub use device_error::DeviceError;
pub use encoding::{encode, encode_into};
pub use error::PduError;
pub use field::Field;
pub use frame::{Fed, Frame, FrameFault, Frames};
pub use framer::Framer;
pub use front::{first_frame, is_bad, is_frame};
pub use header::{Header, frame_header, header_of};
pub use message_id::MessageId;
pub use octets::Octets;
pub use parameter::{Parameter, Params};
pub use reply::{Reply, reply_of};
pub use sizes::encoded_length;
pub use tap::Tap;
pub use turn::{PIECE, drop_front, fault_of, gave_nothing};
pub use writing::write_octets;
