//! The commands that this crate reads and writes, with their command_ids (SMPP 3.4 5.1.2.1).

ghost use Rattle.std.specs.Prelude.{◌≡◌};
ghost use Rattle.sms_pdu.specs.Command.{id_of, command_of};

/// How a bind's session is used (SMPP 3.4 2.1).
#[derive(Clone, Copy, Debug, PartialEq, Eq)]
pub enum Mode {
    /// It submits messages.
    Transmitter,
    /// It submits messages and receives them.
    Transceiver,
}

/// A command whose body this crate knows.
#[derive(Clone, Copy, Debug, PartialEq, Eq)]
pub enum Command {
    GenericNack,
    BindTransmitter,
    BindTransmitterResp,
    SubmitSm,
    SubmitSmResp,
    DeliverSm,
    DeliverSmResp,
    Unbind,
    UnbindResp,
    BindTransceiver,
    BindTransceiverResp,
    EnquireLink,
    EnquireLinkResp,
}

/// The command_id of generic_nack (SMPP 3.4 4.3.1).
pub const GENERIC_NACK: u32 = 0x8000_0000;

/// The command_id of bind_transmitter (SMPP 3.4 4.1.1).
pub const BIND_TRANSMITTER: u32 = 0x0000_0002;

/// The command_id of bind_transmitter_resp (SMPP 3.4 4.1.2).
pub const BIND_TRANSMITTER_RESP: u32 = 0x8000_0002;

/// The command_id of submit_sm (SMPP 3.4 4.4.1).
pub const SUBMIT_SM: u32 = 0x0000_0004;

/// The command_id of submit_sm_resp (SMPP 3.4 4.4.2).
pub const SUBMIT_SM_RESP: u32 = 0x8000_0004;

/// The command_id of deliver_sm (SMPP 3.4 4.6.1).
pub const DELIVER_SM: u32 = 0x0000_0005;

/// The command_id of deliver_sm_resp (SMPP 3.4 4.6.2).
pub const DELIVER_SM_RESP: u32 = 0x8000_0005;

/// The command_id of unbind (SMPP 3.4 4.2.1).
pub const UNBIND: u32 = 0x0000_0006;

/// The command_id of unbind_resp (SMPP 3.4 4.2.2).
pub const UNBIND_RESP: u32 = 0x8000_0006;

/// The command_id of bind_transceiver (SMPP 3.4 4.1.5).
pub const BIND_TRANSCEIVER: u32 = 0x0000_0009;

/// The command_id of bind_transceiver_resp (SMPP 3.4 4.1.6).
pub const BIND_TRANSCEIVER_RESP: u32 = 0x8000_0009;

/// The command_id of enquire_link (SMPP 3.4 4.11.1).
pub const ENQUIRE_LINK: u32 = 0x0000_0015;

/// The command_id of enquire_link_resp (SMPP 3.4 4.11.2).
pub const ENQUIRE_LINK_RESP: u32 = 0x8000_0015;

/// The command_id of alert_notification, which alone of the requests that come in has no response
/// (SMPP 3.4 4.12.1).
pub const ALERT_NOTIFICATION: u32 = 0x0000_0102;

/// The least command_id of a response: the top bit is set (SMPP 3.4 5.1.2.1).
pub const FIRST_RESPONSE: u32 = 0x8000_0000;

/// The commands with their command_ids: what tells the one from the other is made from this table.
macro_rules! commands {
    ($with:ident!($context:tt)) => {
        $with! { $context
            GenericNack: GENERIC_NACK,
            BindTransmitter: BIND_TRANSMITTER,
            BindTransmitterResp: BIND_TRANSMITTER_RESP,
            SubmitSm: SUBMIT_SM,
            SubmitSmResp: SUBMIT_SM_RESP,
            DeliverSm: DELIVER_SM,
            DeliverSmResp: DELIVER_SM_RESP,
            Unbind: UNBIND,
            UnbindResp: UNBIND_RESP,
            BindTransceiver: BIND_TRANSCEIVER,
            BindTransceiverResp: BIND_TRANSCEIVER_RESP,
            EnquireLink: ENQUIRE_LINK,
            EnquireLinkResp: ENQUIRE_LINK_RESP,
        }
    };
}

/// The command in the row of this id.
macro_rules! command_of {
    ($id:tt $($command:ident: $constant:ident,)*) => {
        match $id {
            $($constant => Some(Command::$command),)*
            _ => None,
        }
    };
}

/// The id in the row of this command.
macro_rules! id_of {
    ($of:tt $($command:ident: $constant:ident,)*) => {
        match $of {
            $(Command::$command => $constant,)*
        }
    };
}

impl Command {
    /// The command with this command_id, if this crate knows it.
    pub fn of(id: u32) -> Option<Command>
        ensures { result ≡ command_of id }
    {
        commands!(command_of!(id))
    }

    /// The command_id.
    pub fn id(self) -> u32
        ensures { result ≡ id_of self }
    {
        commands!(id_of!(self))
    }
}
