//! A PDU written as its octets.

ghost use Rattle.std.specs.Prelude.{◌≡◌, ℕ, ◌+◌, ◌++◌, ◌∷◌, [], ◌^◌, ◌<◌, ◌≤◌, List, length, true, Ok, IfOk, OnErr, vec_len, vec_capacity, option_copied};
ghost use Rattle.std.specs.Int.{w32, to_be_bytes};
ghost use Rattle.sms_pdu.specs.Layout.{bind_fields, sm_fields, spellings, parameter_spelling, parameters_spelling, ParametersFit};
ghost use Rattle.sms_pdu.specs.Grammar.{sm_values, command_in, sm_spelling, bind_resp_spelling, sm_resp_spelling, body_spelling, Spells};
ghost use Rattle.sms_pdu.specs.Borrowed.{bind_values, owned_sm, owned_body, owned_pdu};
ghost use Rattle.sms_pdu.specs.Reading.{Gives};
ghost use Rattle.sms_pdu.specs.Size.{parameters_fit, size_of};
ghost use Rattle.sms_pdu.specs.Writing.{SmWritable, RespWritable, Writable, RespFit, TagsFit, Adds};

use crate::body::Pdu;
use crate::borrowed::{BindRef, BodyRef, PduRef, SmRef};
use crate::command::{Command, Mode};
use crate::error::PduError;
use crate::layout::{bind_fields, bind_resp_fields, sm_fields, sm_resp_fields};
use crate::parameter::Parameter;
use crate::sizes::encoded_length;
use std::alloc::Global;

/// These octets behind what is there, where there is room for them.
#[inline(always)]
fn put(out: &mut Vec<u8>, octets: &[u8])
    requires { vec_len out.old + length octets.now ≤ vec_capacity out.old }
    ensures put { out.new.items ≡ out.old.items ++ octets.now }
    ensures len { vec_len out.new ≡ vec_len out.old + length octets.now }
    ensures room { vec_capacity out.old ≤ vec_capacity out.new }
{
    // (Many strings of a message are empty.)
    if octets.is_empty() {
        return;
    }
    out.extend_from_slice(octets).unwrap();
}

/// An optional parameter.
fn put_parameter(out: &mut Vec<u8>, p: &Parameter)
    requires value { length p.now.value < 2 ^ 16 }
    requires room { vec_len out.old + (4 + length p.now.value) ≤ vec_capacity out.old }
    ensures put { out.new.items ≡ out.old.items ++ parameter_spelling p.now }
    ensures len { vec_len out.new ≡ vec_len out.old + (4 + length p.now.value) }
    ensures room { vec_capacity out.old ≤ vec_capacity out.new }
    ensures tag { p.now.tag < 2 ^ 16 }
{
    let value = p.value.as_slice();
    let [tag_high, tag_low] = p.tag.to_be_bytes();
    let [length_high, length_low] = (value.len() as u16).to_be_bytes();
    put(out, &[tag_high, tag_low, length_high, length_low]);
    put(out, value);
}

/// Rows of a table, written from left to right. What has to be written in one octet each is kept in
/// the brackets, and written as one where a string follows, or the end.
macro_rules! write_rows {
    (($out:ident, $of:ident) []) => {};
    (($out:ident, $of:ident) [$($octet:expr,)+]) => {
        put($out, &[$($octet,)+]);
    };
    (
        ($out:ident, $of:ident) [$($octet:expr,)*]
        $name:ident: $field:ident is number, $($rows:tt)*
    ) => {
        write_rows!(($out, $of) [$($octet,)* $of.$name,] $($rows)*);
    };
    (
        ($out:ident, $of:ident) [$($octet:expr,)*]
        $name:ident: $field:ident is text($maximum:literal), $($rows:tt)*
    ) => {
        write_rows!(($out, $of) [$($octet,)*]);
        put($out, $of.$name);
        write_rows!(($out, $of) [0,] $($rows)*);
    };
    (
        ($out:ident, $of:ident) [$($octet:expr,)*]
        $name:ident: $field:ident is time, $($rows:tt)*
    ) => {
        write_rows!(($out, $of) [$($octet,)*]);
        put($out, $of.$name);
        write_rows!(($out, $of) [0,] $($rows)*);
    };
    (
        ($out:ident, $of:ident) [$($octet:expr,)*]
        $name:ident: $field:ident is message, $($rows:tt)*
    ) => {
        write_rows!(($out, $of) [$($octet,)* $of.$name.len() as u8,]);
        put($out, $of.$name);
        write_rows!(($out, $of) [] $($rows)*);
    };
}

/// The fields of a table, written.
macro_rules! write_fields {
    (($out:ident, $of:ident) $($rows:tt)*) => {
        write_rows!(($out, $of) [] $($rows)*)
    };
}

/// The string of a table that has one row, of a text.
macro_rules! write_text {
    (($out:ident, $value:expr) $name:ident: $field:ident is text($maximum:literal),) => {
        put($out, $value);
        put($out, &[0]);
    };
}

/// The optional parameters.
#[inline(always)]
fn put_parameters(out: &mut Vec<u8>, params: &[Parameter])
    requires fit { parameters_fit params.now ≡ true }
    requires room { vec_len out.old + length (parameters_spelling params.now) ≤ vec_capacity out.old }
    ensures put { out.new.items ≡ out.old.items ++ parameters_spelling params.now }
    ensures fit { ParametersFit params.now }
{
    for p in params {
        put_parameter(out, p);
    }
}

/// A bind.
fn put_bind(out: &mut Vec<u8>, bind: &BindRef<'_>)
    requires { vec_len out.old + length (spellings bind_fields (bind_values bind.now)) ≤ vec_capacity out.old }
    ensures { out.new.items ≡ out.old.items ++ spellings bind_fields (bind_values bind.now) }
{
    bind_fields!(write_fields!(out, bind));
}

/// A message.
#[inline(always)]
fn put_sm(out: &mut Vec<u8>, sm: &SmRef<'_>)
    requires writable { SmWritable (owned_sm sm.now) }
    requires room { vec_len out.old + length (sm_spelling (owned_sm sm.now)) ≤ vec_capacity out.old }
    ensures put { out.new.items ≡ out.old.items ++ sm_spelling (owned_sm sm.now) }
    ensures fit { ParametersFit sm.now.params.now }
{
    sm_fields!(write_fields!(out, sm));
    put_parameters(out, sm.params);
}

/// The body of a bind's response.
fn put_bind_resp(out: &mut Vec<u8>, system_id: Option<&[u8]>, params: &[Parameter])
    requires writable { RespWritable (option_copied system_id) params.now }
    requires room { vec_len out.old + length (bind_resp_spelling (option_copied system_id) params.now) ≤ vec_capacity out.old }
    ensures put { out.new.items ≡ out.old.items ++ bind_resp_spelling (option_copied system_id.entry) params.now }
    ensures fit { RespFit (option_copied system_id.entry) params.now }
{
    if let Some(system_id) = system_id {
        bind_resp_fields!(write_text!(out, system_id));
        put_parameters(out, params);
    }
}

/// The body of a response to a message.
fn put_message_id(out: &mut Vec<u8>, message_id: Option<&[u8]>)
    requires { vec_len out.old + length (sm_resp_spelling (option_copied message_id)) ≤ vec_capacity out.old }
    ensures { out.new.items ≡ out.old.items ++ sm_resp_spelling (option_copied message_id.entry) }
{
    if let Some(message_id) = message_id {
        sm_resp_fields!(write_text!(out, message_id));
    }
}

/// A body.
#[inline(always)]
fn put_body(out: &mut Vec<u8>, body: &BodyRef<'_>)
    requires writable { Writable (owned_body body.now) }
    requires room { vec_len out.old + length (body_spelling (owned_body body.now)) ≤ vec_capacity out.old }
    ensures put { out.new.items ≡ out.old.items ++ body_spelling (owned_body body.now) }
    ensures fit { TagsFit (owned_body body.now) }
{
    match body {
        BodyRef::Bind(fields) => put_bind(out, fields),
        BodyRef::BindResp {
            mode: _,
            system_id,
            params,
        } => put_bind_resp(out, *system_id, params),
        BodyRef::Submit(sm) => put_sm(out, sm),
        BodyRef::Deliver(sm) => put_sm(out, sm),
        BodyRef::SubmitResp { message_id } => put_message_id(out, *message_id),
        BodyRef::DeliverResp { message_id } => put_message_id(out, *message_id),
        BodyRef::Unbind => (),
        BodyRef::UnbindResp => (),
        BodyRef::EnquireLink => (),
        BodyRef::EnquireLinkResp => (),
        BodyRef::GenericNack => (),
    }
}

/// The command of a body.
#[inline(always)]
fn command_of(body: &BodyRef<'_>) -> Command
    ensures { result ≡ command_in (owned_body body.now) }
{
    match body {
        BodyRef::Bind(fields) => match fields.mode {
            Mode::Transmitter => Command::BindTransmitter,
            Mode::Transceiver => Command::BindTransceiver,
        },
        BodyRef::BindResp { mode, .. } => match mode {
            Mode::Transmitter => Command::BindTransmitterResp,
            Mode::Transceiver => Command::BindTransceiverResp,
        },
        BodyRef::Submit(_) => Command::SubmitSm,
        BodyRef::Deliver(_) => Command::DeliverSm,
        BodyRef::SubmitResp { .. } => Command::SubmitSmResp,
        BodyRef::DeliverResp { .. } => Command::DeliverSmResp,
        BodyRef::Unbind => Command::Unbind,
        BodyRef::UnbindResp => Command::UnbindResp,
        BodyRef::EnquireLink => Command::EnquireLink,
        BodyRef::EnquireLinkResp => Command::EnquireLinkResp,
        BodyRef::GenericNack => Command::GenericNack,
    }
}

/// The four numbers of a header, each high octet first (SMPP 3.4 3.2).
fn header(size: u32, command: u32, status: u32, number: u32) -> [u8; 16]
    ensures status { status < 2 ^ 32 }
    ensures number { number < 2 ^ 32 }
    ensures octets { result ≡ to_be_bytes w32 size ++ to_be_bytes w32 command ++ to_be_bytes w32 status ++ to_be_bytes w32 number }
{
    let [l0, l1, l2, l3] = size.to_be_bytes();
    let [c0, c1, c2, c3] = command.to_be_bytes();
    let [s0, s1, s2, s3] = status.to_be_bytes();
    let [n0, n1, n2, n3] = number.to_be_bytes();
    [
        l0, l1, l2, l3, c0, c1, c2, c3, s0, s1, s2, s3, n0, n1, n2, n3,
    ]
}

/// A PDU, of so many octets.
#[inline(always)]
fn put_pdu(out: &mut Vec<u8>, size: usize, pdu: &PduRef<'_>)
    requires measured { size_of (owned_pdu pdu.now) ≡ Ok size }
    requires room { vec_len out.old + size ≤ vec_capacity out.old }
    ensures { Adds (owned_pdu pdu.now) out.old.items out.new.items }
{
    let command = command_of(&pdu.body).id();
    let header = header(size as u32, command, pdu.status, pdu.number);
    put(out, &header);
    put_body(out, &pdu.body);
}

/// The one spelling of the PDU, in one allocation of its size. A PDU that has none is refused, for
/// the first fault: the fields from left to right, then the length of the whole. A refusal asks for
/// no memory.
pub fn encode(alloc: Global, pdu: &Pdu) -> Result<Vec<u8>, PduError>
    // What is written spells the PDU.
    ensures spelled { IfOk result (λ v. Spells pdu.now v.items) }
    // What spells it is written, unless memory runs out.
    ensures only { (octets : List ℕ) → Spells pdu.now octets → Gives (λ v. v.items) result (Ok octets) }
    // Its length, or which fault it is; a fault is told whether or not there is memory.
    ensures exact { Gives (λ v. length v.items) result (size_of pdu.now) }
{
    let pdu = pdu.as_ref();
    let size = encoded_length(&pdu)?;
    let mut out = Vec::with_capacity(alloc, size)?;
    put_pdu(&mut out, size, &pdu);
    Ok(out)
}

/// Writes the one spelling of the PDU behind what is there, and gives its length. A PDU that has
/// none is refused as [`encode`] refuses it. An `Err` changes nothing.
pub fn encode_into(out: &mut Vec<u8>, pdu: &PduRef<'_>) -> Result<usize, PduError>
    // What is written spells the PDU.
    ensures spelled { IfOk result (λ n. Adds (owned_pdu pdu.now) out.old.items out.new.items) }
    // Its length, or which fault it is; a fault is told whether or not there is memory.
    ensures exact { Gives (λ n. n) result (size_of (owned_pdu pdu.now)) }
    ensures err { OnErr result (out.new.items ≡ out.old.items) }
{
    let size = encoded_length(pdu)?;
    out.reserve(size)?;
    put_pdu(out, size, pdu);
    Ok(size)
}
