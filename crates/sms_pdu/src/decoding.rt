//! Octets read as a PDU: first its fields, which takes no memory, and then copies of its strings.

ghost use Rattle.std.specs.Prelude.{◌≡◌, ◌≢◌, ◌≤◌, false, true, length, Option, Result, Ok, IfOk};
ghost use Rattle.sms_pdu.specs.declared.body.Pdu.{Pdu};
ghost use Rattle.sms_pdu.specs.declared.command.Command.TheVariants.{SubmitSm, DeliverSm};
ghost use Rattle.sms_pdu.specs.Layout.{sm_fields};
ghost use Rattle.sms_pdu.specs.Grammar.{sm_values, Spells};
ghost use Rattle.sms_pdu.specs.Borrowed.{owned_bind, owned_sm};
ghost use Rattle.sms_pdu.specs.Reading.{Says, Gives, GivesBut, IsFilled, HasStrings, values_at, bind_at, bind_resp_at, message_id_at, submit_at, deliver_at, bare_at, body_at, pdu_of, header_told, reading};

use crate::body::{Body, Pdu, Sm};
use crate::borrowed::{BindRef, SmRef, copy_field, copy_fields};
use crate::command::{Command, Mode};
use crate::error::PduError;
use crate::field::Field;
use crate::header::{Header, MOST_LENGTH, body_of, header_of};
use crate::layout::{bind_fields, bind_resp_fields, sm_fields, sm_resp_fields};
use crate::left::{next_message, next_number, next_text, next_time};
use crate::octets::Octets;
use crate::parameter::Params;
use crate::reading::{end, parameters, text};
use std::alloc::Global;

/// A row's field, read from what `$left` has left.
macro_rules! read_field {
    (($left:ident) $name:ident: $field:ident is number,) => {
        next_number(Field::$field, &mut $left)
    };
    (($left:ident) $name:ident: $field:ident is text($maximum:literal),) => {
        next_text(Field::$field, $maximum, &mut $left)
    };
    (($left:ident) $name:ident: $field:ident is time,) => {
        next_time(Field::$field, &mut $left)
    };
    (($left:ident) $name:ident: $field:ident is message,) => {
        next_message(&mut $left)
    };
}

/// The struct of the fields in the braces and of a table's, which are read from left to right from
/// what `$left` has left.
macro_rules! read_fields {
    (
        ($left:ident => $made:ident { $($other:ident: $given:expr,)* .. })
        $($name:ident: $field:ident is $kind:ident $(($maximum:literal))?,)*
    ) => {
        $made {
            $($other: $given,)*
            $($name: read_field!(($left) $name: $field is $kind $(($maximum))?,),)*
        }
    };
}

/// The value of a table's one row, a text, and the octets after it.
macro_rules! read_text {
    (($octets:ident) $name:ident: $field:ident is text($maximum:literal),) => {
        text(Field::$field, $maximum, $octets)?
    };
}

/// The fields of a bind.
#[tactic(auto, unfolding(crate::specs::Reading::bind_at))]
fn bind_parts(mode: Mode, octets: &[u8]) -> Result<BindRef<'_>, PduError>
    ensures { Says owned_bind result (bind_at mode octets.now) }
{
    let mut left = Ok(octets);
    let parts = bind_fields!(read_fields!(left => BindRef { mode: mode, .. }));
    end(left?)?;
    Ok(parts)
}

/// The body of a bind.
fn bind(alloc: Global, mode: Mode, octets: &[u8]) -> Result<Body, PduError>
    ensures { GivesBut HasStrings (λ body. body) result (bind_at mode octets.now) }
{
    let parts = bind_parts(mode, octets)?;
    parts.copied(alloc)
}

/// The fields of a message before its parameters, and the octets after them.
#[inline(always)]
fn sm_parts(octets: &[u8]) -> Result<(SmRef<'_>, &[u8]), PduError>
    ensures { Says (λ x. (sm_values (owned_sm x.0), x.1.now)) result (values_at sm_fields octets.now) }
{
    let mut left = Ok(octets);
    let parts = sm_fields!(read_fields!(left => SmRef { params: &[], .. }));
    Ok((parts, left?))
}

/// A message: a deliver_sm, or else a submit_sm. It is made where it is returned: to move it costs
/// more than to copy its strings.
#[inline(never)]
#[tactic(auto, unfolding(crate::specs::Reading::sm_at))]
fn message_pdu(
    alloc: Global,
    deliver: bool,
    status: u32,
    number: u32,
    octets: &[u8],
) -> Result<Pdu, PduError>
    ensures submitted { deliver ≡ false → Gives (λ p. p) result (pdu_of status number (submit_at octets.now)) }
    ensures delivered { deliver ≡ true → Gives (λ p. p) result (pdu_of status number (deliver_at octets.now)) }
{
    let (parts, rest) = sm_parts(octets)?;
    let params = parameters(alloc, rest)?;
    let mut memory = true;
    let sm = sm_fields!(copy_fields!(alloc, memory, parts => Sm { params: params, .. }));
    if !memory {
        drop(sm);
        return Err(PduError::OutOfMemory);
    }
    if deliver {
        let body = Body::Deliver(sm);
        return Ok(Pdu {
            status,
            number,
            body,
        });
    }
    let body = Body::Submit(sm);
    Ok(Pdu {
        status,
        number,
        body,
    })
}

/// The body of a bind's response.
#[tactic(auto, unfolding(crate::specs::Reading::bind_resp_at))]
fn bind_resp(alloc: Global, mode: Mode, status: u32, octets: &[u8]) -> Result<Body, PduError>
    ensures { GivesBut HasStrings (λ body. body) result (bind_resp_at mode status octets.now) }
{
    if octets.is_empty() && status > 0 {
        return Ok(Body::BindResp {
            mode,
            system_id: None,
            params: Params::none(alloc),
        });
    }
    let (system_id, rest) = bind_resp_fields!(read_text!(octets));
    let params = parameters(alloc, rest)?;
    Ok(Body::BindResp {
        mode,
        system_id: Some(Octets::copy(alloc, system_id)?),
        params,
    })
}

/// The message_id that is the body of a response to a message.
#[tactic(auto, unfolding(crate::specs::Reading::message_id_at))]
fn message_id(alloc: Global, status: u32, octets: &[u8]) -> Result<Option<Octets>, PduError>
    ensures { GivesBut IsFilled (λ id. id) result (message_id_at status octets.now) }
{
    if octets.is_empty() && status > 0 {
        return Ok(None);
    }
    let (message_id, rest) = sm_resp_fields!(read_text!(octets));
    end(rest)?;
    Ok(Some(Octets::copy(alloc, message_id)?))
}

/// The body of a command that brings no message.
fn body(alloc: Global, command: Command, status: u32, octets: &[u8]) -> Result<Body, PduError>
    requires { (command ≢ SubmitSm) × (command ≢ DeliverSm) }
    ensures { GivesBut HasStrings (λ body. body) result (body_at command status octets.now) }
{
    match command {
        Command::BindTransmitter => bind(alloc, Mode::Transmitter, octets),
        Command::BindTransceiver => bind(alloc, Mode::Transceiver, octets),
        Command::BindTransmitterResp => bind_resp(alloc, Mode::Transmitter, status, octets),
        Command::BindTransceiverResp => bind_resp(alloc, Mode::Transceiver, status, octets),
        Command::SubmitSm | Command::DeliverSm => unreachable!(),
        Command::SubmitSmResp => Ok(Body::SubmitResp {
            message_id: message_id(alloc, status, octets)?,
        }),
        Command::DeliverSmResp => Ok(Body::DeliverResp {
            message_id: message_id(alloc, status, octets)?,
        }),
        Command::Unbind => bare(Body::Unbind, octets),
        Command::UnbindResp => bare(Body::UnbindResp, octets),
        Command::EnquireLink => bare(Body::EnquireLink, octets),
        Command::EnquireLinkResp => bare(Body::EnquireLinkResp, octets),
        Command::GenericNack => bare(Body::GenericNack, octets),
    }
}

/// A PDU of a command that brings no message.
#[inline(never)]
fn other(
    alloc: Global,
    command: Command,
    status: u32,
    number: u32,
    octets: &[u8],
) -> Result<Pdu, PduError>
    requires { (command ≢ SubmitSm) × (command ≢ DeliverSm) }
    ensures { GivesBut (λ p. HasStrings p.body) (λ p. p) result (pdu_of status number (body_at command status octets.now)) }
{
    let body = body(alloc, command, status, octets)?;
    Ok(Pdu {
        status,
        number,
        body,
    })
}

/// A body without fields.
fn bare(body: Body, octets: &[u8]) -> Result<Body, PduError>
    ensures { result ≡ bare_at body octets.now }
{
    match end(octets) {
        Ok(()) => Ok(body),
        Err(fault) => {
            drop(body);
            Err(fault)
        }
    }
}

/// The command of a PDU and its header, or the first fault of the header.
#[tactic(auto, unfolding(crate::specs::Reading::header_told))]
#[inline(always)]
fn known_header(octets: &[u8]) -> Result<(Command, Header), PduError>
    ensures told { result ≡ header_told octets.now }
    ensures length { IfOk result (λ x. 16 ≤ length octets.now) }
{
    let Some(header) = header_of(octets) else {
        return Err(PduError::Short);
    };
    if header.length as usize != octets.len() || octets.len() > MOST_LENGTH {
        return Err(PduError::BadLength);
    }
    let Some(command) = Command::of(header.command) else {
        return Err(PduError::UnknownCommand);
    };
    Ok((command, header))
}

/// The PDU that the octets spell. What no PDU spells is refused, for the first fault in this order:
/// fewer than 16 octets, the command_length, the command_id, then the fields from left to right.
/// Memory is asked for only where a PDU is spelled, and that PDU has strings.
pub fn decode(alloc: Global, octets: &[u8]) -> Result<Pdu, PduError>
    // What is read is spelled so.
    ensures found { IfOk result (λ p. Spells p octets.now) }
    // What is spelled so is read, unless it has strings and memory runs out.
    ensures only { (p : Pdu) → Spells p octets.now → GivesBut (λ q. HasStrings q.body) (λ q. q) result (Ok p) }
    // Which PDU or fault it is; a fault is told whether or not there is memory.
    ensures exact { GivesBut (λ q. HasStrings q.body) (λ q. q) result (reading octets.now) }
{
    // (One flat match, whose calls are the result: each join on the way moves the PDU once more.)
    match known_header(octets) {
        Ok((Command::SubmitSm, h)) => message_pdu(
            alloc,
            false,
            h.status,
            h.number,
            body_of(octets),
        ),
        Ok((Command::DeliverSm, h)) => message_pdu(
            alloc,
            true,
            h.status,
            h.number,
            body_of(octets),
        ),
        Ok((command, h)) => other(alloc, command, h.status, h.number, body_of(octets)),
        Err(fault) => Err(fault),
    }
}
