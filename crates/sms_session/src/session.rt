//! The states of a session, and what each PDU that comes in asks for (SMPP 3.4 2.2, 2.3).

ghost use Rattle.std.specs.Prelude.{◌≡◌, ◌↔◌, IsTrue};
ghost use Rattle.sms_session.specs.declared.session.State.TheVariants.{Closed};
ghost use Rattle.sms_session.specs.Session.{opening, on_table, MaySend};

use sms_core::{ESME_RINVBNDSTS, ESME_RINVCMDID, ESME_ROK};
use sms_pdu::{
    ALERT_NOTIFICATION, BIND_TRANSCEIVER_RESP, BIND_TRANSMITTER_RESP, DELIVER_SM, DELIVER_SM_RESP,
    ENQUIRE_LINK, ENQUIRE_LINK_RESP, FIRST_RESPONSE, GENERIC_NACK, Header, Mode, SUBMIT_SM,
    SUBMIT_SM_RESP, UNBIND, UNBIND_RESP,
};
use std::marker::Model;

/// The state of a session that was bound (SMPP 3.4 2.2). OPEN is the type `Opened`.
#[derive(Clone, Copy, Debug, PartialEq, Eq)]
pub enum State {
    /// Bound as a transmitter.
    BoundTx,
    /// Bound as a transceiver.
    BoundTrx,
    /// Unbound, or its connection is lost.
    Closed,
}

/// The header of a response. Its body is the one that the command has with this status.
#[derive(Clone, Copy, Debug, PartialEq, Eq)]
pub struct Response {
    /// command_id.
    pub command: u32,
    /// command_status.
    pub status: u32,
    /// sequence_number, which is its request's.
    pub number: u32,
}

/// What a PDU that came in asks for.
#[derive(Clone, Copy, Debug, PartialEq, Eq)]
pub enum Action {
    /// It answers a submit_sm.
    Answer,
    /// The response is written.
    Reply(Response),
    /// The response is written, and the session is closed.
    ReplyClose(Response),
    /// It is noted, and nothing else comes of it.
    Note,
    /// The session is closed.
    Close,
    /// The session was closed before.
    Drop,
}

/// Why a session isn't bound.
#[derive(Clone, Copy, Debug, PartialEq, Eq, thiserror::Error)]
pub enum OpenFault {
    /// The bind was answered with this command_status.
    #[error("the bind was refused with status {0}")]
    Refused(u32),
    /// The PDU doesn't answer the bind.
    #[error("the answer is not the bind's")]
    NotBind,
}

/// A session in the state OPEN, whose bind was sent (SMPP 3.4 2.2).
#[derive(Debug, Drop)]
pub struct Opened {
    mode: Mode,
}

impl Model for Opened {
    ghost use Rattle.sms_pdu.specs.declared.command.Mode.{Mode};

    ghost Value = { Mode };

    ghost view = { λ o. o.mode };
}

/// A session that was bound. Contracts see it as its state.
#[derive(Debug, Drop)]
pub struct Session {
    state: State,
}

impl Model for Session {
    ghost use Rattle.sms_session.specs.declared.session.State.{State};

    ghost Value = { State };

    ghost view = { λ s. s.state };
}

impl Opened {
    /// A session whose bind is of this mode.
    pub fn new(mode: Mode) -> Opened
        ensures { result ≡ mode }
    {
        Opened { mode }
    }

    /// Takes the PDU that came in answer to the bind: the session is bound by the bind's own
    /// response with `ESME_ROK`. Its response with another status and a generic_nack refuse it, and
    /// any other PDU is no answer; the session is handed back then.
    pub fn bound(self, header: &Header) -> Result<Session, (Opened, OpenFault)>
        ensures { result ≡ opening self header.now }
    {
        let (response, state) = match self.mode {
            Mode::Transmitter => (BIND_TRANSMITTER_RESP, State::BoundTx),
            Mode::Transceiver => (BIND_TRANSCEIVER_RESP, State::BoundTrx),
        };
        if header.command == response && header.status == ESME_ROK {
            Ok(Session { state })
        } else if header.command == response || header.command == GENERIC_NACK {
            Err((self, OpenFault::Refused(header.status)))
        } else {
            Err((self, OpenFault::NotBind))
        }
    }
}

impl Session {
    /// The state.
    pub fn state(&self) -> State
        ensures { result ≡ self.now }
    {
        self.state
    }

    /// The connection is lost.
    pub fn lost(&mut self)
        ensures { self.new ≡ Closed }
    {
        self.state = State::Closed;
    }

    /// Whether a request with this command_id may be sent now.
    pub fn may_send(&self, command: u32) -> bool
        ensures { IsTrue result ↔ MaySend self.now command }
    {
        self.state != State::Closed && matches!(command, SUBMIT_SM | UNBIND | ENQUIRE_LINK)
    }

    /// Takes a PDU that came in.
    pub fn on(&mut self, header: &Header) -> Action
        ensures { (result, self.new) ≡ on_table self.old header.now }
    {
        let (action, next) = row_of(self.state, header);
        self.state = next;
        action
    }
}

/// The session's table: what a PDU asks for in a state, and the next state.
fn row_of(state: State, header: &Header) -> (Action, State)
    ensures { result ≡ on_table state header.now }
{
    match (state, header.command) {
        (State::Closed, _) => (Action::Drop, State::Closed),
        (_, SUBMIT_SM_RESP | GENERIC_NACK) => (Action::Answer, state),
        (_, ENQUIRE_LINK) => (reply(header, ENQUIRE_LINK_RESP, ESME_ROK), state),
        (_, UNBIND) => (last_reply(header, UNBIND_RESP, ESME_ROK), State::Closed),
        (_, UNBIND_RESP) => (Action::Close, State::Closed),
        (State::BoundTrx, DELIVER_SM) => (reply(header, DELIVER_SM_RESP, ESME_ROK), state),
        (_, DELIVER_SM) => (reply(header, DELIVER_SM_RESP, ESME_RINVBNDSTS), state),
        (_, ALERT_NOTIFICATION | FIRST_RESPONSE..) => (Action::Note, state),
        (_, _) => (reply(header, GENERIC_NACK, ESME_RINVCMDID), state),
    }
}

/// The response to a request.
fn response_to(request: &Header, command: u32, status: u32) -> Response
    ensures { result ≡ record { command = command; status = status; number = request.now.number } }
{
    Response {
        command,
        status,
        number: request.number,
    }
}

/// The request is answered.
fn reply(request: &Header, command: u32, status: u32) -> Action
    ensures { result ≡ Action.Reply (record { command = command; status = status; number = request.now.number }) }
{
    Action::Reply(response_to(request, command, status))
}

/// The request is answered, and the session is closed.
fn last_reply(request: &Header, command: u32, status: u32) -> Action
    ensures { result ≡ Action.ReplyClose (record { command = command; status = status; number = request.now.number }) }
{
    Action::ReplyClose(response_to(request, command, status))
}
